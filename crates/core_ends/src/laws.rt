//! What the parts hold, each law as the contract of a function that does nothing.
ghost use Rattle.std.specs.Prelude.{◌≡◌, ℕ, ◌<◌, ◌≤◌, true, Some, None};
ghost use Rattle.pisa_step.specs.declared.cause.Cause.{Cause};
ghost use Rattle.pisa_step.specs.declared.cause.Cause.TheVariants.{Exited};
ghost use Rattle.core_parts.specs.declared.parts.Parts.{Parts};
ghost use Rattle.ooo_table.specs.Cycle.{table};
ghost use Rattle.ooo_table.specs.Ends.{Extent, AtStop, rows_at, stops_in, end_in};
ghost use Rattle.ooo_table.specs.Events.{committed_state, end_word};
ghost use Rattle.ooo_table.specs.Machine.{Given, setting_of};
ghost use Rattle.ooo_table.specs.MachineLaws.{IsSound};
ghost use Rattle.sim_safe.specs.State.{state_of};
ghost use Rattle.sim_safe.specs.Step.{Halt, step_of};
ghost use Rattle.ooo_table.specs.RunLaws.{commits_among};
ghost use Rattle.core_ends.specs.Extents.{StandsAt, HasState, HasHistories, IsOver};
ghost use Rattle.core_ends.specs.Budgets.{run_end, IsRunWith};

/// The state is that of the functional run behind as many steps as rows have committed and right rows are in flight.
pub fn states_are_steps()
    ensures { (g : Given) (e : Extent) (c : ℕ) (parts : Parts) → IsSound g → StandsAt g e c parts → HasState g e c parts }
{}

/// The hierarchy and the predictor are those of all that the run has asked of them so far.
pub fn histories_are_so_far()
    ensures { (g : Given) (e : Extent) (c : ℕ) (parts : Parts) → StandsAt g e c parts → HasHistories g e c parts }
{}

/// Where an exit has committed the functional run is over by it, and the state is its last one.
pub fn exits_leave_the_last_state()
    ensures { (g : Given) (e : Extent) (c code : ℕ) (parts : Parts) → IsSound g → StandsAt g e c parts
        → (committed_state (setting_of g) (rows_at (setting_of g) e c)).ended ≡ Some code → IsOver g e c (Exited code) parts }
{}

/// Where the machine stops the functional run is over, for the cause that halts it at the state, which is its last one.
pub fn stops_leave_the_last_state()
    ensures { (g : Given) (c : ℕ) (why : Cause) (parts : Parts) → IsSound g → StandsAt g AtStop c parts
        → stops_in (setting_of g) c (table (setting_of g) c) ≡ true → step_of g.trace (state_of parts.arch) ≡ Halt why → IsOver g AtStop c why parts }
{}

/// Where a run with a budget of commits ends that it hasn't met before, it is the functional run with this budget of steps:
/// the same records, the same last state, and the end that is told of it.
pub fn budgets_end_both_runs()
    ensures { (g : Given) (most c : ℕ) (e : Extent) → IsSound g → commits_among (table (setting_of g) c).rows < most
        → end_in (setting_of g) most c ≡ Some e → IsRunWith g most (rows_at (setting_of g) e c) (run_end (end_word g e c)) }
{}

/// So it is where a run ends first.
pub fn first_ends_are_of_both_runs()
    ensures { (g : Given) (most c : ℕ) (e : Extent) → IsSound g → 1 ≤ most → ((x : ℕ) → x < c → end_in (setting_of g) most x ≡ None)
        → end_in (setting_of g) most c ≡ Some e → IsRunWith g most (rows_at (setting_of g) e c) (run_end (end_word g e c)) }
{}
