//! Cycles, until a program exits.
ghost use Rattle.std.specs.Prelude.{◌≡◌};
ghost use Rattle.sim_safe.specs.Record.{IsRunTrace};
ghost use Rattle.sim_outorder.specs.Running.{IsReady};

use core_watch::Watch;
use event_trace::Trace;
use ooo_table::Event;
use pisa_step::Cause;
use sim_outorder::{Core, Turn};
use sim_safe::CommitRecord;

/// The most cycles of a run.
const CYCLES: u64 = 1_000_000_000_000;

/// The budget of each cycle, more than may commit in one.
const BUDGET: u64 = 1_000;

/// Counts the commits that it is shown, and keeps nothing of them.
#[derive(Clone, Copy, Debug)]
struct Commits {
    count: u64,
}

impl Watch for Commits {
    ghost use Rattle.sim_safe.specs.declared.observer.Meaning.TheVariants as meaning;

    type Fault = ();

    ghost took = { λ a h b. Unit {0} };

    ghost cut = { λ a h b. Unit {0} };

    ghost faults = { λ o. (0, 0) };

    ghost means = { λ f. meaning.Memory };

    ghost took_none = { λ o. tt };

    fn event(&mut self, _e: &Event) -> Result<(), ()> {
        Ok(())
    }

    fn commit(&mut self, _r: &CommitRecord, _trace: &Trace) -> Result<(), ()> {
        self.count = self.count.saturating_add(1);
        Ok(())
    }
}

/// Runs a machine to the exit of its program, and answers how many instructions committed. None where the
/// run ends otherwise.
pub fn run(core: Core, trace: &Trace) -> Option<u64>
    requires ready { IsReady core × (core.cycle ≡ 0) }
    requires trace { IsRunTrace trace.now }
{
    let mut core = core;
    let mut commits = Commits { count: 0 };
    for k in 0..CYCLES {
        match core.cycle(trace, BUDGET, &mut commits) {
            Ok(Turn::Going) => {}
            Ok(Turn::Ended(Cause::Exited { code: _ })) => return Some(commits.count),
            _ => return None,
        }
    }
    None
}
