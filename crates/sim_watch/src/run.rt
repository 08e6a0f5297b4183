//! A run from a state on, whose commit text and output are written.
ghost use Rattle.std.specs.Prelude.{◌≡◌, ◌+◌, ◌^◌, ◌<◌, []};
ghost use Rattle.std.specs.Option.{option_copied};
ghost use Rattle.sim_safe.specs.State.{state_of};
ghost use Rattle.sim_safe.specs.Record.{IsRunTrace};
ghost use Rattle.sim_safe.specs.Run.{items_of};
ghost use Rattle.sim_safe.specs.Statistics.{no_statistics};
ghost use Rattle.sim_watch.specs.Watch.{WritesOrCut, last_piece, run_journal};
ghost use Rattle.sim_watch.specs.Run.{RunEnds};

use crate::watch::TextWatch;
use event_trace::Trace;
use journal::{Fault, Outside};
use sim_safe::{Arch, RunEnd, RunFault, Statistics, steps_keep};
use std::alloc::Global;

/// What a run came to.
#[derive(Clone, Copy, Debug, PartialEq, Eq)]
pub struct Watched {
    /// How it ended.
    pub end: RunEnd,
    /// How many instructions of each sort were done.
    pub statistics: Statistics,
}

/// Writes all that is pending to a file, of whatever length, where one is named.
pub fn write_rest<O: Outside>(
    outside: &mut O,
    file: Option<&str>,
    pending: &[u8],
) -> Result<(), Fault>
    ensures { WritesOrCut O.view outside.old (last_piece (option_copied file.entry) pending.now) outside.new result }
{
    match file {
        Some(name) => outside.append(name, pending),
        None => Ok(()),
    }
}

/// Does up to `n` steps under a watch, and writes all that is pending.
fn observe<O: Outside>(
    arch: &mut Arch,
    trace: &Trace,
    n: u64,
    watch: &mut TextWatch<'_, '_, '_, '_, O>,
) -> Result<Watched, Fault>
    requires count { arch.old.icnt + n < 2 ^ 62 }
    requires trace { IsRunTrace trace.now }
    requires pending { watch.old.pending.now.items ≡ [] }
    requires statistics { watch.old.statistics ≡ no_statistics }
    ensures same { watch.new.outside.ghost_name ≡ watch.old.outside.ghost_name }
    ensures writes { WritesOrCut O.view watch.old.outside.now (run_journal (option_copied watch.old.file.now) (items_of trace.now n (state_of arch.old))) watch.new.outside.now result }
    ensures ends { RunEnds O.view (option_copied watch.old.file.now) watch.old.outside.now trace.now n (state_of arch.old) watch.new.outside.now (state_of arch.new) result }
{
    // each step that is done counts one instruction
    steps_keep();
    let end = match arch.run(trace, n, watch) {
        Ok(end) => end,
        Err(RunFault::Watch(fault)) => return Err(watch.fault.unwrap_or(fault)),
        Err(RunFault::OutOfMemory) => return Err(Fault::OutOfMemory),
    };
    match write_rest(watch.outside, *watch.file, watch.pending.as_slice()) {
        Ok(()) => Ok(Watched {
            end,
            statistics: watch.statistics,
        }),
        Err(fault) => Err(fault),
    }
}

/// The same over parts that stand apart.
fn observe_parts<O: Outside>(
    pending: &mut Vec<u8>,
    arch: &mut Arch,
    trace: &Trace,
    n: u64,
    file: Option<&str>,
    outside: &mut O,
) -> Result<Watched, Fault>
    requires count { arch.old.icnt + n < 2 ^ 62 }
    requires trace { IsRunTrace trace.now }
    requires pending { pending.old.items ≡ [] }
    ensures writes { WritesOrCut O.view outside.old (run_journal (option_copied file.entry) (items_of trace.now n (state_of arch.old))) outside.new result }
    ensures ends { RunEnds O.view (option_copied file.entry) outside.old trace.now n (state_of arch.old) outside.new (state_of arch.new) result }
{
    let mut watch = TextWatch {
        outside,
        file: &file,
        pending,
        statistics: Statistics::none(),
        fault: None,
    };
    match observe(arch, trace, n, &mut watch) {
        Ok(watched) => Ok(watched),
        Err(fault) => Err(fault),
    }
}

/// Does up to `n` steps over a trace. The first stream gets what the program emits, block by block.
/// The named file gets the commit text behind what it holds, in pieces, the last one after the run;
/// where no file is named there is none.
///
/// After a fault there is one number of steps that were done: `arch` is as they leave it, and all
/// writes of all but the last of them were done. Nothing behind the write that failed was done.
pub fn watched_run<O: Outside>(
    alloc: Global,
    arch: &mut Arch,
    trace: &Trace,
    n: u64,
    file: Option<&str>,
    outside: &mut O,
) -> Result<Watched, Fault>
    requires count { arch.old.icnt + n < 2 ^ 62 }
    requires trace { IsRunTrace trace.now }
    ensures writes { WritesOrCut O.view outside.old (run_journal (option_copied file.entry) (items_of trace.now n (state_of arch.old))) outside.new result }
    ensures ends { RunEnds O.view (option_copied file.entry) outside.old trace.now n (state_of arch.old) outside.new (state_of arch.new) result }
{
    let mut pending = Vec::new(alloc);
    observe_parts(&mut pending, arch, trace, n, file, outside)
}
