//! The machine.
ghost use Rattle.std.specs.Prelude.{◌≡◌, ◌^◌, ◌<◌, ◌≤◌, IfOk, not, ◌||◌};
ghost use Rattle.mem_hier.specs.Stands.{references_of};
ghost use Rattle.ooo_table.specs.Limits.{IsAllowed};
ghost use Rattle.sim_safe.specs.Record.{IsRunTrace};
ghost use Rattle.sim_outorder.specs.Cycle.{CountsSo, MemorySo};
ghost use Rattle.sim_outorder.specs.Running.{IsReady, LeftReady, Begins, Cycles, phase_after, is_broken};

use crate::answers::{CoreFault, Turn};
use crate::stages::stages;
use bpred_unit::Predictor;
use core_parts::Parts;
use core_statistics::CoreStats;
use core_watch::Watch;
use event_trace::Trace;
use lsq_core::Lsq;
use mem_hier::Hier;
use ooo_front::Front;
use ooo_table::OooConfig;
use ruu_core::Ruu;
use sim_safe::Arch;
use ss_base::OutOfMemory;
use std::alloc::Global;

/// Whether a machine can go on.
#[derive(Clone, Copy, Debug, PartialEq, Eq)]
pub enum Phase {
    /// The next cycle may come.
    Running,
    /// A cycle was given up, or the budget of commits is used up.
    Broken,
    /// The program has exited or stops.
    Ended,
}

/// The out-of-order machine.
#[derive(Drop)]
pub struct Core {
    parts: Parts,
    stats: CoreStats,
    /// How many cycles are over.
    cycle: u64,
    phase: Phase,
}

/// What a machine is after a cycle with this answer.
fn phase_after<F>(answer: &Result<Turn, CoreFault<F>>) -> Phase
    ensures { result ≡ phase_after answer.now }
{
    match answer {
        Ok(Turn::Going) => Phase::Running,
        Ok(Turn::Spent) => Phase::Broken,
        Ok(Turn::Ended(_)) => Phase::Ended,
        Err(_) => Phase::Broken,
    }
}

impl Core {
    /// The machine before its first cycle, with a hierarchy, which is settled, and a predictor.
    ///
    /// # Errors
    /// `OutOfMemory` where there is too little memory. What was handed in is dropped then.
    #[tactic(auto, using(crate::proofs::Kept::ready_first, crate::proofs::Kept::begins_first))]
    pub fn new(
        alloc: Global,
        arch: Arch,
        config: &OooConfig,
        hier: Hier,
        predictor: Predictor,
    ) -> Result<Core, OutOfMemory>
        requires allowed { IsAllowed config.now }
        requires counts { (references_of hier < 2 ^ 59) × (arch.icnt ≤ 2 ^ 61) }
        ensures ready { IfOk result IsReady }
        ensures begins { IfOk result (λ core. Begins config.now arch hier predictor core) }
    {
        let parts = core_start::start(alloc, arch, config, hier, predictor)?;
        Ok(Core {
            parts,
            stats: CoreStats::none(),
            cycle: 0,
            phase: Phase::Running,
        })
    }

    /// Runs one cycle, in which `most` rows commit at most, counts what it does, and shows it to a watch.
    ///
    /// `Spent` exactly where the `most`-th commit of this call was no exit, `Ended` exactly where an exit committed or the
    /// machine stops.
    ///
    /// # Errors
    /// The watch's fault, or `OutOfMemory` where a right store or call touches a page that isn't reserved and finds none.
    /// The machine is broken then.
    #[tactic(auto, using(crate::proofs::Kept::left_ready, crate::proofs::Kept::cycles_on))]
    pub fn cycle<W: Watch>(
        &mut self,
        trace: &Trace,
        most: u64,
        watch: &mut W,
    ) -> Result<Turn, CoreFault<W::Fault>>
        requires ready { IsReady self.old × (self.old.cycle < 10 ^ 13) × (1 ≤ most) }
        requires trace { IsRunTrace trace.now }
        ensures ready { LeftReady self.old self.new result }
        ensures cycle { Cycles W.took W.cut trace.now most self.old self.new watch.old watch.new result }
        ensures count { CountsSo W.means (W.faults watch.old) (W.faults watch.new) result }
        ensures memory { W.takes_no_memory watch.old → MemorySo W.takes_no_memory W.means watch.new result }
    {
        let answer = stages(
            &mut self.parts,
            trace,
            self.cycle,
            most,
            &mut self.stats,
            watch,
        );
        self.phase = phase_after(&answer);
        self.cycle += 1;
        answer
    }

    /// Whether the machine was given up in a cycle, or has used up its budget of commits.
    pub fn is_broken(&self) -> bool
        ensures { result ≡ is_broken self.now.phase }
    {
        match self.phase {
            Phase::Broken => true,
            Phase::Running => false,
            Phase::Ended => false,
        }
    }

    /// The live rows.
    pub fn unit(&self) -> &Ruu
        requires { IsReady self.now }
        ensures { result.now ≡ self.now.parts.unit }
    {
        &self.parts.unit
    }

    /// Those of them that are loads and stores, and not inert.
    pub fn queue(&self) -> &Lsq
        requires { IsReady self.now }
        ensures { result.now ≡ self.now.parts.queue }
    {
        &self.parts.queue
    }

    /// The waiting rows, and where fetching goes on.
    pub fn front(&self) -> &Front
        requires { IsReady self.now }
        ensures { result.now ≡ self.now.parts.front }
    {
        &self.parts.front
    }

    /// The memory hierarchy, with the references so far.
    pub fn hier(&self) -> &Hier
        ensures { result.now ≡ self.now.parts.hier }
    {
        &self.parts.hier
    }

    /// What was counted so far. A cycle in which the run ended counts; behind a fault the counts say nothing.
    pub fn stats(&self) -> CoreStats
        ensures { result ≡ self.now.stats }
    {
        self.stats
    }

    /// The state after the last dispatched right row.
    pub fn arch(&self) -> &Arch
        ensures { result.now ≡ self.now.parts.arch }
    {
        &self.parts.arch
    }
}
