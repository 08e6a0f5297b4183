//! A run whose calls are recorded, and whose output is written.
ghost use Rattle.std.specs.Prelude.{◌≡◌, ◌+◌, ◌^◌, ◌≤◌, [], None};
ghost use Rattle.std.specs.Option.{option_copied};
ghost use Rattle.event_trace.specs.Recorder.{next_count};
ghost use Rattle.sim_safe.specs.State.{state_of};
ghost use Rattle.sim_safe.specs.Run.{items_of};
ghost use Rattle.sim_safe.specs.Statistics.{no_statistics};
ghost use Rattle.sim_watch.specs.Watch.{WritesOrCut, run_journal};
ghost use Rattle.sim_watch.specs.Recorded.{made_of, RecordEnds};

use crate::watch::TextWatch;
use event_trace::Recorder;
use journal::{Fault, Outside};
use sim_safe::{Arch, RecordEnd, RunFault, Statistics, steps_keep};
use std::alloc::Global;

/// What a recorded run came to.
#[derive(Clone, Copy, Debug, PartialEq, Eq)]
pub struct Recorded {
    /// How it ended.
    pub end: RecordEnd,
    /// How many instructions of each sort were done.
    pub statistics: Statistics,
}

/// Does up to `n` steps under a watch that has no file, while their calls are recorded.
fn observe_recording<O: Outside>(
    alloc: Global,
    arch: &mut Arch,
    recorder: &mut Recorder,
    n: u64,
    watch: &mut TextWatch<'_, '_, '_, '_, O>,
) -> Result<Recorded, Fault>
    requires count { arch.old.icnt + n ≤ 10 ^ 15 }
    requires rising { next_count 0 recorder.old.trace.records ≤ arch.old.icnt }
    requires file { option_copied watch.old.file.now ≡ None }
    requires pending { watch.old.pending.now.items ≡ [] }
    requires statistics { watch.old.statistics ≡ no_statistics }
    ensures same { watch.new.outside.ghost_name ≡ watch.old.outside.ghost_name }
    ensures writes { WritesOrCut O.view watch.old.outside.now (run_journal None (items_of (made_of recorder.old n (state_of arch.old)).0 n (state_of arch.old))) watch.new.outside.now result }
    ensures ends { RecordEnds O.view watch.old.outside.now recorder.old n (state_of arch.old) recorder.new (state_of arch.new) watch.new.outside.now result }
{
    // each step that is done counts one instruction
    steps_keep();
    match arch.record(alloc, recorder, n, watch) {
        Ok(end) => Ok(Recorded {
            end,
            statistics: watch.statistics,
        }),
        Err(RunFault::Watch(fault)) => Err(watch.fault.unwrap_or(fault)),
        Err(RunFault::OutOfMemory) => Err(Fault::OutOfMemory),
    }
}

/// Does up to `n` steps, each call of which finds its record in the trace of `recorder` or is
/// answered by its world and recorded. The first stream gets what the program emits, block by block.
///
/// What was done is the run over the trace that it leaves; where that is full, the run ends before
/// the call that found no room. The recorder's world is the one after the calls of these steps.
///
/// After a fault there is one number of steps that were done over the trace that is left: `arch` is
/// as they leave it, and all writes of all but the last of them were done. They and that trace are a
/// front of the whole recording, the one without a fault. `recorder` has served their calls, and none
/// more but where memory ran out: then it may have served that of the next step, which wasn't done.
pub fn watched_record<O: Outside>(
    alloc: Global,
    arch: &mut Arch,
    recorder: &mut Recorder,
    n: u64,
    outside: &mut O,
) -> Result<Recorded, Fault>
    requires count { arch.old.icnt + n ≤ 10 ^ 15 }
    requires rising { next_count 0 recorder.old.trace.records ≤ arch.old.icnt }
    ensures writes { WritesOrCut O.view outside.old (run_journal None (items_of (made_of recorder.old n (state_of arch.old)).0 n (state_of arch.old))) outside.new result }
    ensures ends { RecordEnds O.view outside.old recorder.old n (state_of arch.old) recorder.new (state_of arch.new) outside.new result }
{
    // without a file nothing is ever pending
    let mut pending = Vec::new(alloc);
    let mut watch = TextWatch {
        outside,
        file: &None,
        pending: &mut pending,
        statistics: Statistics::none(),
        fault: None,
    };
    match observe_recording(alloc, arch, recorder, n, &mut watch) {
        Ok(recorded) => Ok(recorded),
        Err(fault) => Err(fault),
    }
}
