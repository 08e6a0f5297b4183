//! What the table has to do with the functional run, and how long the processor takes at most, each law as the contract
//! of a function that does nothing.
ghost use Rattle.std.specs.Prelude.{◌≡◌, ℕ, ◌≤◌, true, false, Some};
ghost use Rattle.pisa_step.specs.declared.cause.Cause.{Cause};
ghost use Rattle.pisa_step.specs.declared.cause.Cause.TheVariants.{Exited};
ghost use Rattle.sim_safe.specs.Step.{Halt};
ghost use Rattle.ooo_table.specs.Cycle.{table};
ghost use Rattle.ooo_table.specs.Ends.{Extent, AtStop, rows_at, exited, end_in};
ghost use Rattle.ooo_table.specs.Finish.{finish, IsFirstEnd};
ghost use Rattle.ooo_table.specs.Later.{Each};
ghost use Rattle.ooo_table.specs.Machine.{Given, setting_of};
ghost use Rattle.ooo_table.specs.Table.{Setting};
ghost use Rattle.ooo_table.specs.Events.{committed_state, stop_word, end_word};
ghost use Rattle.ooo_table.specs.RunLaws.{IsStep, IsRun, IsWhole};
ghost use Rattle.ooo_table.specs.MachineLaws.{IsSound, IsTimely, WorkedBounds};

/// The right rows are the steps of the functional run: each acts on the state behind as many steps as there are right rows
/// before it.
pub fn right_rows_are_steps()
    ensures { (g : Given) (e : Extent) (c : ℕ) → 1 ≤ g.config.penalty
        → Each (λ older r. r.fetched.right ≡ true → IsStep g older r) (rows_at (setting_of g) e c) }
{}

/// The commits are the first steps of the functional run, each once and in order, and leave its state.
pub fn commits_are_the_run()
    ensures { (g : Given) (e : Extent) (c : ℕ) → 1 ≤ g.config.penalty → IsRun g (rows_at (setting_of g) e c) }
{}

/// Where the machine stops, the commits are the whole functional run, which ends for the same cause.
pub fn stops_end_the_run()
    ensures { (g : Given) (most c : ℕ) → 1 ≤ g.config.penalty → end_in (setting_of g) most c ≡ Some AtStop
        → (why : Cause) × IsWhole g (rows_at (setting_of g) AtStop c) why
        × (end_word g AtStop c ≡ stop_word (committed_state (setting_of g) (rows_at (setting_of g) AtStop c)) (Halt why)) }
{}

/// Where an exit has committed, the commits are the whole functional run, which ends by that exit.
pub fn exits_end_the_run()
    ensures { (g : Given) (e : Extent) (c code : ℕ) → 1 ≤ g.config.penalty
        → (committed_state (setting_of g) (rows_at (setting_of g) e c)).ended ≡ Some code
        → IsWhole g (rows_at (setting_of g) e c) (Exited code) }
{}

/// While no exit has committed, a row commits or the machine stops in each K cycles.
pub fn commits_come_in_time()
    ensures { (g : Given) (c : ℕ) → IsSound g → exited (setting_of g) (table (setting_of g) c) ≡ false → IsTimely g c }
{}

/// K is 174 with the default hierarchy and 98 without caches and TLBs, with a penalty of 3.
pub fn worked_bounds()
    ensures { WorkedBounds }
{}

/// A run with a budget of commits and one of cycles ends in the first cycle that has an end in it, else behind the last
/// that it may take.
pub fn runs_end_where_they_first_can()
    ensures { (set : Setting) (most cycles : ℕ) → 1 ≤ most → IsFirstEnd set most cycles (finish set most cycles) }
{}
