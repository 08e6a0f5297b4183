//! Events are shown one after another.
ghost use Rattle.std.specs.Prelude.{ℕ, List, [], ◌∷◌};
ghost use Rattle.sim_safe.specs.Observed.{SawCounts, SawWithoutMemory};
ghost use Rattle.sim_safe.specs.Record.{IsRunTrace, item_of};
ghost use Rattle.core_watch.specs.Shown.{Shown, TakesAll, events, commit_of};

use crate::watching::Watch;
use event_trace::Trace;
use ooo_table::{Event, Mark};
use sim_safe::CommitRecord;

/// Shows events one after another, the first first. After a fault the watch has taken those before the
/// one within which it was cut, and no other was shown.
pub fn show<W: Watch>(es: &[Event], watch: &mut W) -> Result<(), W::Fault>
    ensures took { (start : W) (h : List Shown) → W.took start h watch.old → TakesAll W.took W.cut start h (events es.now) watch.new result }
    ensures count { SawCounts W.means (W.faults watch.old) (W.faults watch.new) result }
    ensures memory { W.takes_no_memory watch.old → SawWithoutMemory W.takes_no_memory W.means watch.new result }
{
    for e in es {
        match watch.event(e) {
            Ok(()) => {}
            Err(fault) => return Err(fault),
        }
    }
    Ok(())
}

/// Shows the commit of a row in a cycle, and behind it what the row did. After a fault it was cut within one of them.
pub fn show_commit<W: Watch>(
    cycle: u64,
    row: u64,
    did: &CommitRecord,
    trace: &Trace,
    watch: &mut W,
) -> Result<(), W::Fault>
    requires { IsRunTrace trace.now }
    ensures took { (start : W) (h : List Shown) → W.took start h watch.old → TakesAll W.took W.cut start h (commit_of cycle row (item_of trace.now did.now)) watch.new result }
    ensures count { SawCounts W.means (W.faults watch.old) (W.faults watch.new) result }
    ensures memory { W.takes_no_memory watch.old → SawWithoutMemory W.takes_no_memory W.means watch.new result }
{
    let e = Event {
        cycle,
        row,
        mark: Mark::Committed,
    };
    if let Err(fault) = watch.event(&e) {
        return Err(fault);
    }
    watch.commit(did, trace)
}
