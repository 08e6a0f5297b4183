//! A watch that writes the commit text, the output and the pipetrace of a run.
ghost use Rattle.std.specs.Prelude.{◌≡◌, None};
ghost use Rattle.std.specs.Option.{option_copied};
ghost use Rattle.std.proofs.Common.{refl};
ghost use Rattle.sim_watch.specs.Watch.{WritesOrCut, faults_of, meaning_of};
ghost use Rattle.machine_watch.specs.Watch.{CutByKept, Rests, Taken, last_writes, names_of, nothing_pending, pending_of};
ghost use Rattle.machine_watch.specs.Laws.{taken_none};

use crate::writing::{write_end_if_named, write_event_if_named};
use core_watch::Watch;
use event_trace::Trace;
use journal::{Fault, Outside};
use ooo_table::{EndWord, Event};
use sim_safe::{CommitRecord, emitted};
use sim_watch::{emit, write_line_if_named, write_rest};

/// Watches the out-of-order machine: the lines of commits go to one file and those of events to
/// another, in pieces, and what the program emits goes to the first stream as its call commits.
#[derive(Drop)]
pub struct MachineWatch<'o, 'f, 'n, 'l, 't, O> {
    /// Where all is written.
    pub outside: &'o mut O,
    commits: &'f Option<&'n str>,
    ptrace: &'f Option<&'n str>,
    lines: &'l mut Vec<u8>,
    text: &'t mut Vec<u8>,
    last: Option<u64>,
    /// Why the last `event` or `commit` that failed did so.
    pub fault: Option<Fault>,
}

impl<'o, 'f, 'n, 'l, 't, O: Outside> MachineWatch<'o, 'f, 'n, 'l, 't, O> {
    /// A watch that was shown nothing. Commit text goes to the file `commits`, and the pipetrace to the
    /// file `ptrace`, which is to be another one; without a name there is no such text. `lines` and
    /// `text` hold what isn't written yet of each, and are emptied first.
    pub fn new(
        outside: &'o mut O,
        commits: &'f Option<&'n str>,
        ptrace: &'f Option<&'n str>,
        lines: &'l mut Vec<u8>,
        text: &'t mut Vec<u8>,
    ) -> MachineWatch<'o, 'f, 'n, 'l, 't, O>
        ensures outside { (result.outside.ghost_name ≡ outside.entry.ghost_name) × (result.outside.now ≡ outside.old) }
        ensures names { names_of result ≡ record { commits = option_copied commits.now; ptrace = option_copied ptrace.now } }
        ensures pending { pending_of result ≡ nothing_pending }
        ensures fault { result.fault ≡ None }
    {
        lines.clear();
        text.clear();
        MachineWatch {
            outside,
            commits,
            ptrace,
            lines,
            text,
            last: None,
            fault: None,
        }
    }

    /// Writes what is pending, of whatever length: the commit lines first, and then the rest of the
    /// pipetrace with the line of its end, after so many cycles. After a fault nothing behind the write
    /// that failed is done, and the same is pending as before.
    pub fn finish(&mut self, cycles: u64, end: &EndWord) -> Result<(), Fault>
        ensures same { self.new.outside.ghost_name ≡ self.old.outside.ghost_name }
        ensures writes { WritesOrCut O.view self.old.outside.now (last_writes (names_of self.old) (pending_of self.old) cycles end.now) self.new.outside.now result }
        ensures rests { Rests (names_of self.old) (pending_of self.old) (names_of self.new) (pending_of self.new) result }
    {
        match write_rest(self.outside, *self.commits, self.lines.as_slice()) {
            Ok(()) => {}
            Err(fault) => return Err(fault),
        }
        match write_end_if_named(self.outside, *self.ptrace, self.text, cycles, end) {
            Ok(()) => {
                self.lines.clear();
                self.text.clear();
                Ok(())
            }
            Err(fault) => Err(fault),
        }
    }
}

impl<'o, 'f, 'n, 'l, 't, O: Outside> Watch for MachineWatch<'o, 'f, 'n, 'l, 't, O> {
    type Fault = Fault;

    ghost took = { λ a h b. record {
      outside_same : b.outside.ghost_name ≡ a.outside.ghost_name;
      names : names_of b ≡ names_of a;
      taken : Taken O.view (names_of a) a.outside.now (pending_of a) h b.outside.now (pending_of b);
    } };

    ghost cut = { λ a h b. record {
      outside_same : b.outside.ghost_name ≡ a.outside.ghost_name;
      cut : CutByKept O.view (names_of a) a.outside.now (pending_of a) h b.fault b.outside.now;
    } };

    ghost faults = { λ s. faults_of O.view s.outside.now };

    ghost means = { meaning_of };

    ghost took_none = { λ o. record {
      outside_same = refl;
      names = refl;
      taken = taken_none O.view (names_of o) o.outside.now (pending_of o);
    } };

    #[inline(always)]
    fn event(&mut self, e: &Event) -> Result<(), Fault> {
        match write_event_if_named(self.outside, *self.ptrace, self.text, e, self.last) {
            Ok(()) => {
                self.last = Some(e.cycle);
                Ok(())
            }
            Err(fault) => {
                self.fault = Some(fault);
                Err(fault)
            }
        }
    }

    #[inline(always)]
    fn commit(&mut self, r: &CommitRecord, trace: &Trace) -> Result<(), Fault> {
        match emit(self.outside, emitted(r, trace)) {
            Ok(()) => {}
            Err(fault) => {
                self.fault = Some(fault);
                return Err(fault);
            }
        }
        match write_line_if_named(self.outside, *self.commits, self.lines, r, trace) {
            Ok(()) => Ok(()),
            Err(fault) => {
                self.fault = Some(fault);
                Err(fault)
            }
        }
    }
}
