//! The turn.
ghost use Rattle.core_parts.specs.Fits.{Fits};
ghost use Rattle.core_parts.specs.Stages.{DispatchesOne};
ghost use Rattle.ecoff_load.specs.Object.{IsText};
ghost use Rattle.sim_safe.specs.Record.{IsRunTrace};
ghost use Rattle.core_dispatch.specs.Turn.{Turns, FindsMemory, WantsNone};

use crate::enter::{enter_right, enter_wrong};
use crate::verdict::{Verdict, verdict_of};
use core_parts::{Dispatched, Parts};
use event_trace::Trace;

/// The turn, over the parts.
#[tactic(auto, using(crate::proofs::Admit::keeps_all))]
fn take_turn(
    parts: &mut Parts,
    trace: &Trace,
    cycle: u64,
    dispatched: u32,
    called: bool,
) -> Dispatched
    requires fits { Fits cycle 64 parts.old }
    requires trace { IsRunTrace trace.now }
    requires text { IsText parts.old.arch.text }
    ensures turn { Turns trace.now cycle dispatched called parts.old parts.new result }
    ensures memory { FindsMemory trace.now parts.old → WantsNone result }
{
    match verdict_of(parts, trace, cycle, dispatched, called) {
        Verdict::Stays => Dispatched::Over,
        Verdict::Stops(cause) => Dispatched::Stops(cause),
        Verdict::Right => enter_right(parts, trace, cycle),
        Verdict::Wrong(act) => enter_wrong(parts, &act, cycle),
    }
}

/// Lets the oldest waiting row be dispatched in the cycle, in which so many were, a call among them or none, and answers
/// its number and whether it is a call. `Over` exactly where no row is dispatched any more, and `Stops` where the machine
/// stops at that row; then all stays. `OutOfMemory` comes only where a right row writes to pages that aren't
/// reserved; then all is as before, but for pages that were reserved.
pub fn dispatch_one(
    parts: &mut Parts,
    trace: &Trace,
    cycle: u64,
    dispatched: u32,
    called: bool,
) -> Dispatched
    requires fits { Fits cycle 64 parts.old }
    requires trace { IsRunTrace trace.now }
    requires text { IsText parts.old.arch.text }
    ensures fits { Fits cycle 64 parts.new }
    ensures turn { Turns trace.now cycle dispatched called parts.old parts.new result }
    ensures stands { DispatchesOne trace.now cycle dispatched called parts.old parts.new result }
    ensures memory { FindsMemory trace.now parts.old → WantsNone result }
{
    take_turn(parts, trace, cycle, dispatched, called)
}
