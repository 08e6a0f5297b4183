//! A watch that writes the commit text of a run, puts its output on the first stream, and counts.
ghost use Rattle.std.specs.Prelude.{◌≡◌, ◌^◌, ◌<◌, ℕ, List, [], length, refl};
ghost use Rattle.std.specs.Option.{option_copied};
ghost use Rattle.journal.specs.View.{Wrote};
ghost use Rattle.sim_safe.specs.Record.{Item, IsRunTrace, item_of};
ghost use Rattle.sim_safe.specs.Commit.{line_of};
ghost use Rattle.sim_safe.specs.Statistics.{no_statistics, statistics_back};
ghost use Rattle.sim_watch.specs.Watch.{puts_of, written_of, meaning_of, faults_of, CutByKept, WritesOrCut, WritesLine, WritesLong, nothing_written, nothing_pending};

use event_trace::{Block, Trace};
use journal::{Fault, Outside};
use sim_safe::{CommitRecord, Observer, Statistics, commit_line, emitted};

/// Watches a run: the lines of the commit text go to a file in pieces, and what the program emits
/// goes to the first stream as its call is done.
#[derive(Drop)]
pub struct TextWatch<'a, 'f, 'n, 'p, O> {
    /// Where all is written.
    pub outside: &'a mut O,
    /// The file's name. Without one there is no commit text.
    pub file: &'f Option<&'n str>,
    /// The lines that are not written yet.
    pub pending: &'p mut Vec<u8>,
    /// How many instructions of each sort were done.
    pub statistics: Statistics,
    /// Why the last call that failed did so.
    pub fault: Option<Fault>,
}

/// Lines are written once so many bytes are pending.
const PIECE: usize = 65536;

/// Puts the bytes of blocks on the first stream, one block after another.
pub fn emit<O: Outside>(outside: &mut O, blocks: &[Block]) -> Result<(), Fault>
    ensures { WritesOrCut O.view outside.old (puts_of blocks.now) outside.new result }
{
    for block in blocks {
        match outside.put_output(block.bytes.as_slice()) {
            Ok(()) => {}
            Err(fault) => return Err(fault),
        }
    }
    Ok(())
}

/// Writes what is pending to the file, behind what that holds, once it has 65,536 bytes or more; then
/// nothing is pending.
pub fn write_long<O: Outside>(
    outside: &mut O,
    file: &str,
    pending: &mut Vec<u8>,
) -> Result<(), Fault>
    ensures { WritesLong O.view outside.old file.now pending.old.items outside.new pending.new.items result }
{
    if pending.len() < PIECE {
        return Ok(());
    }
    match outside.append(file, pending.as_slice()) {
        Ok(()) => {
            pending.clear();
            Ok(())
        }
        Err(fault) => Err(fault),
    }
}

/// Adds the line of an instruction to what is pending, and writes that to the file where it is long.
#[inline(never)]
fn write_line<O: Outside>(
    outside: &mut O,
    file: &str,
    pending: &mut Vec<u8>,
    r: &CommitRecord,
    trace: &Trace,
) -> Result<(), Fault>
    requires { IsRunTrace trace.now }
    ensures { WritesLine O.view outside.old (Some file.now) pending.old.items (line_of (item_of trace.now r.now)) outside.new pending.new.items result }
{
    match commit_line(r, trace, pending) {
        Ok(()) => {}
        Err(_) => return Err(Fault::OutOfMemory),
    }
    write_long(outside, file, pending)
}

/// Adds the line of an instruction to what is pending, and writes that to the file where it is long.
/// Where no file is named there is no commit text, and nothing is done.
#[inline(always)]
pub fn write_line_if_named<O: Outside>(
    outside: &mut O,
    file: Option<&str>,
    pending: &mut Vec<u8>,
    r: &CommitRecord,
    trace: &Trace,
) -> Result<(), Fault>
    requires { IsRunTrace trace.now }
    ensures { WritesLine O.view outside.old (option_copied file.entry) pending.old.items (line_of (item_of trace.now r.now)) outside.new pending.new.items result }
{
    match file {
        Some(name) => write_line(outside, name, pending, r, trace),
        None => Ok(()),
    }
}

impl<'a, 'f, 'n, 'p, O: Outside> Observer for TextWatch<'a, 'f, 'n, 'p, O> {
    type Fault = Fault;

    ghost took = { λ a h b. record {
      outside_same : b.outside.ghost_name ≡ a.outside.ghost_name;
      file : option_copied b.file.now ≡ option_copied a.file.now;
      pending : b.pending.now.items ≡ (written_of (option_copied a.file.now) a.pending.now.items h).pending;
      wrote : Wrote O.view a.outside.now (written_of (option_copied a.file.now) a.pending.now.items h).journal b.outside.now;
      statistics : a.statistics ≡ no_statistics → length h < 2 ^ 62 → b.statistics ≡ statistics_back h;
    } };

    ghost cut = { λ a h b. record {
      outside_same : b.outside.ghost_name ≡ a.outside.ghost_name;
      cut : CutByKept O.view (option_copied a.file.now) a.pending.now.items a.outside.now h b.fault b.outside.now;
    } };

    ghost faults = { λ s. faults_of O.view s.outside.now };

    ghost means = { meaning_of };

    ghost took_none = { λ o. record {
      outside_same = refl;
      file = refl;
      pending = nothing_pending (option_copied o.file.now) o.pending.now.items;
      wrote = nothing_written O.view o.outside.now (option_copied o.file.now) o.pending.now.items;
      statistics = λ e l. e;
    } };

    #[inline(always)]
    fn saw(&mut self, r: &CommitRecord, trace: &Trace) -> Result<(), Fault> {
        match emit(self.outside, emitted(r, trace)) {
            Ok(()) => {}
            Err(fault) => {
                self.fault = Some(fault);
                return Err(fault);
            }
        }
        match write_line_if_named(self.outside, *self.file, self.pending, r, trace) {
            Ok(()) => {
                self.statistics.count(&r.instr);
                Ok(())
            }
            Err(fault) => {
                self.fault = Some(fault);
                Err(fault)
            }
        }
    }
}
