//! The stages of a cycle, one after another, each with what comes behind it.
ghost use Rattle.std.specs.Prelude.{◌≡◌, ◌+◌, ◌^◌, ◌<◌, ◌≤◌};
ghost use Rattle.sim_safe.specs.Record.{IsRunTrace};
ghost use Rattle.core_parts.specs.Fits.{Fits};
ghost use Rattle.sim_outorder.specs.Cycle.{FitsNext, CycleSo, FromRecovery, FromIssue, FromDispatch, FromFetch, CountsSo, MemorySo};

use crate::answers::{CoreFault, Turn};
use core_parts::Parts;
use core_statistics::CoreStats;
use core_watch::Watch;
use event_trace::Trace;
use pisa_step::Cause;
use watched_commit::{Committed, commit_rows};
use watched_stages::{DispatchEnd, dispatch, fetch, issue, recover};

/// The fetch stage, with which the cycle ends.
#[tactic(auto, using(crate::proofs::Joined::fetch_on, crate::proofs::Joined::fetch_cut))]
fn fetching<W: Watch>(
    parts: &mut Parts,
    cycle: u64,
    stats: &mut CoreStats,
    watch: &mut W,
) -> Result<Turn, CoreFault<W::Fault>>
    requires fits { Fits cycle 64 parts.old }
    requires more { cycle < 10 ^ 13 }
    ensures fits { FitsNext cycle parts.new result }
    ensures cycle { FromFetch W.took W.cut cycle parts.old parts.new stats.old stats.new watch.old watch.new result }
    ensures count { CountsSo W.means (W.faults watch.old) (W.faults watch.new) result }
    ensures memory { W.takes_no_memory watch.old → MemorySo W.takes_no_memory W.means watch.new result }
{
    match fetch(parts, cycle, stats, watch) {
        Ok(()) => Ok(Turn::Going),
        Err(fault) => Err(CoreFault::Watch(fault)),
    }
}

/// The dispatch stage, and what comes behind it.
#[tactic(auto, using(crate::proofs::Joined::dispatch_stops))]
fn dispatching<W: Watch>(
    parts: &mut Parts,
    trace: &Trace,
    cycle: u64,
    stats: &mut CoreStats,
    watch: &mut W,
) -> Result<Turn, CoreFault<W::Fault>>
    requires fits { Fits cycle 64 parts.old }
    requires more { cycle < 10 ^ 13 }
    requires trace { IsRunTrace trace.now }
    ensures fits { FitsNext cycle parts.new result }
    ensures cycle { FromDispatch W.took W.cut trace.now cycle parts.old parts.new stats.old stats.new watch.old watch.new result }
    ensures count { CountsSo W.means (W.faults watch.old) (W.faults watch.new) result }
    ensures memory { W.takes_no_memory watch.old → MemorySo W.takes_no_memory W.means watch.new result }
{
    let _text = parts.arch.text(); // says that it is an object's
    match dispatch(parts, trace, cycle, stats, watch) {
        DispatchEnd::Over => fetching(parts, cycle, stats, watch),
        DispatchEnd::Stops(cause) => Ok(Turn::Ended(cause)),
        DispatchEnd::OutOfMemory => Err(CoreFault::OutOfMemory),
        DispatchEnd::Watch(fault) => Err(CoreFault::Watch(fault)),
    }
}

/// The issue stage, and what comes behind it.
fn issuing<W: Watch>(
    parts: &mut Parts,
    trace: &Trace,
    cycle: u64,
    stats: &mut CoreStats,
    watch: &mut W,
) -> Result<Turn, CoreFault<W::Fault>>
    requires fits { Fits cycle 32 parts.old }
    requires more { cycle < 10 ^ 13 }
    requires trace { IsRunTrace trace.now }
    ensures fits { FitsNext cycle parts.new result }
    ensures cycle { FromIssue W.took W.cut trace.now cycle parts.old parts.new stats.old stats.new watch.old watch.new result }
    ensures count { CountsSo W.means (W.faults watch.old) (W.faults watch.new) result }
    ensures memory { W.takes_no_memory watch.old → MemorySo W.takes_no_memory W.means watch.new result }
{
    match issue(parts, cycle, stats, watch) {
        Ok(()) => dispatching(parts, trace, cycle, stats, watch),
        Err(fault) => Err(CoreFault::Watch(fault)),
    }
}

/// The recovery stage, and what comes behind it.
fn recovering<W: Watch>(
    parts: &mut Parts,
    trace: &Trace,
    cycle: u64,
    stats: &mut CoreStats,
    watch: &mut W,
) -> Result<Turn, CoreFault<W::Fault>>
    requires fits { Fits cycle 32 parts.old }
    requires more { cycle < 10 ^ 13 }
    requires trace { IsRunTrace trace.now }
    ensures fits { FitsNext cycle parts.new result }
    ensures cycle { FromRecovery W.took W.cut trace.now cycle parts.old parts.new stats.old stats.new watch.old watch.new result }
    ensures count { CountsSo W.means (W.faults watch.old) (W.faults watch.new) result }
    ensures memory { W.takes_no_memory watch.old → MemorySo W.takes_no_memory W.means watch.new result }
{
    match recover(parts, cycle, stats, watch) {
        Ok(()) => issuing(parts, trace, cycle, stats, watch),
        Err(fault) => Err(CoreFault::Watch(fault)),
    }
}

/// All stages of a cycle, in which `most` rows commit at most.
#[tactic(auto, using(crate::proofs::Joined::commits_spent, crate::proofs::Joined::commits_exit))]
pub fn stages<W: Watch>(
    parts: &mut Parts,
    trace: &Trace,
    cycle: u64,
    most: u64,
    stats: &mut CoreStats,
    watch: &mut W,
) -> Result<Turn, CoreFault<W::Fault>>
    requires fits { Fits cycle 0 parts.old }
    requires more { cycle < 10 ^ 13 }
    requires trace { IsRunTrace trace.now }
    ensures fits { FitsNext cycle parts.new result }
    ensures cycle { CycleSo W.took W.cut trace.now cycle most parts.old parts.new stats.old stats.new watch.old watch.new result }
    ensures count { CountsSo W.means (W.faults watch.old) (W.faults watch.new) result }
    ensures memory { W.takes_no_memory watch.old → MemorySo W.takes_no_memory W.means watch.new result }
{
    stats.count_cycle();
    match commit_rows(parts, trace, cycle, most, stats, watch) {
        Ok(Committed::All(_)) => recovering(parts, trace, cycle, stats, watch),
        Ok(Committed::Spent) => Ok(Turn::Spent),
        Ok(Committed::Exited(code)) => Ok(Turn::Ended(Cause::Exited { code })),
        Err(fault) => Err(CoreFault::Watch(fault)),
    }
}
