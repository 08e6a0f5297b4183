//! What a cycle leaves, each law as the contract of a function that does nothing.
ghost use Rattle.std.specs.Prelude.{ℕ, ◌≤◌, Result};
ghost use Rattle.event_trace.specs.declared.trace.Trace.{Trace};
ghost use Rattle.ooo_table.specs.Machine.{Given};
ghost use Rattle.ooo_table.specs.MachineLaws.{IsSound};
ghost use Rattle.core_parts.specs.declared.parts.Parts.{Parts};
ghost use Rattle.core_statistics.specs.declared.stats.CoreStats.{CoreStats};
ghost use Rattle.sim_outorder.specs.declared.answers.Turn.{Turn};
ghost use Rattle.sim_outorder.specs.declared.answers.CoreFault.{CoreFault};
ghost use Rattle.sim_outorder.specs.declared.machine.Core.{Core};
ghost use Rattle.sim_outorder.specs.Cycle.{EndsSo};
ghost use Rattle.sim_outorder.specs.Running.{StandsFor, Cycles};
ghost use Rattle.machine_ends.specs.Ends.{Leaves, CoreHasRun, LeavesCore};

use core_watch::Watch;

/// Between two cycles a core that stands for the table has a state of the functional run, whose first steps are its commits.
pub fn cores_stand_in_the_run()
    ensures { (g : Given) (core : Core) → IsSound g → StandsFor g core → CoreHasRun g core }
{}

/// A cycle that ends as the table's leaves a state of the functional run, and ends both runs alike if it ends one.
pub fn cycles_leave_the_run<F>()
    ensures { (g : Given) (c most : ℕ) (new : Parts) (counts : CoreStats) (result : Result Turn (CoreFault F)) → IsSound g → 1 ≤ most
        → EndsSo g c most new counts result → Leaves g c most new counts result }
{}

/// So a core is left that met the contract of its cycle.
pub fn cores_leave_the_run<W: Watch>()
    ensures { (trace : Trace) (most : ℕ) (old new : Core) (before now : W) (result : Result Turn (CoreFault W.Fault)) → 1 ≤ most
        → Cycles W.took W.cut trace most old new before now result → LeavesCore trace most old new result }
{}
