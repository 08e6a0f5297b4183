//! The dispatch stage.
ghost use Rattle.std.specs.Prelude.{◌≡◌, ◌||◌};
ghost use Rattle.ecoff_load.specs.Object.{IsText};
ghost use Rattle.sim_safe.specs.Record.{IsRunTrace};
ghost use Rattle.core_parts.specs.Fits.{Fits};
ghost use Rattle.watched_stages.specs.Dispatching.{WatchedDispatch, DispatchCounts, DispatchMemory};

use core_dispatch::dispatch_one;
use core_parts::{Dispatched, Parts};
use core_statistics::CoreStats;
use core_watch::Watch;
use event_trace::Trace;
use ooo_table::{Event, Mark};
use pisa_step::Cause;

/// How the dispatch stage of a cycle ended.
#[derive(Clone, Copy, Debug)]
pub enum DispatchEnd<F> {
    /// No row is dispatched any more in the cycle.
    Over,
    /// The machine stops, for this cause.
    Stops(Cause),
    /// The state needed memory that there isn't.
    OutOfMemory,
    /// The watch failed.
    Watch(F),
}

fn either(a: bool, b: bool) -> bool
    ensures { result ≡ (a || b) }
{
    a || b
}

/// Lets rows be dispatched in the cycle, the oldest first, shows each, and counts them at the end. The answer says whether
/// the machine stops, or which fault cut the stage short: behind one no further row is dispatched or shown, and none is
/// counted.
pub fn dispatch<W: Watch>(
    parts: &mut Parts,
    trace: &Trace,
    cycle: u64,
    stats: &mut CoreStats,
    watch: &mut W,
) -> DispatchEnd<W::Fault>
    requires fits { Fits cycle 64 parts.old }
    requires trace { IsRunTrace trace.now }
    requires text { IsText parts.old.arch.text }
    ensures fits { Fits cycle 64 parts.new }
    ensures dispatches { WatchedDispatch W.took W.cut trace.now cycle parts.old parts.new stats.old stats.new watch.old watch.new result }
    ensures count { DispatchCounts W.means (W.faults watch.old) (W.faults watch.new) result }
    ensures memory { W.takes_no_memory watch.old → DispatchMemory W.takes_no_memory W.means watch.new result }
{
    let mut dispatched = 0;
    let mut called = false;
    'rows: loop {
        match dispatch_one(parts, trace, cycle, dispatched, called) {
            Dispatched::Row(row, call) => {
                let e = Event {
                    cycle,
                    row,
                    mark: Mark::Dispatched,
                };
                match watch.event(&e) {
                    Ok(()) => {
                        dispatched += 1;
                        called = either(called, call);
                    }
                    Err(fault) => return DispatchEnd::Watch(fault),
                }
            }
            Dispatched::Over => {
                stats.count_dispatches(u64::from(dispatched));
                return DispatchEnd::Over;
            }
            Dispatched::Stops(cause) => {
                stats.count_dispatches(u64::from(dispatched));
                return DispatchEnd::Stops(cause);
            }
            Dispatched::OutOfMemory => return DispatchEnd::OutOfMemory,
        }
    }
}
