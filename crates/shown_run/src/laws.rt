//! What is shown of a run, each law as the contract of a function that does nothing.
ghost use Rattle.std.specs.Prelude.{ℕ};
ghost use Rattle.ooo_table.specs.Ends.{Extent};
ghost use Rattle.ooo_table.specs.Finish.{finish};
ghost use Rattle.ooo_table.specs.Machine.{Given, setting_of};
ghost use Rattle.ooo_table.specs.MachineLaws.{IsSound};
ghost use Rattle.shown_run.specs.Run.{AddsItems, BeginsSo, ItemsStay};
ghost use Rattle.shown_run.specs.Headline.{KeepsHeadline};

/// What is shown of a run is what is shown of its cycles, one after another.
pub fn runs_add_their_cycles()
    ensures { (g : Given) (c : ℕ) → AddsItems g c }
{}

/// What is shown of a run begins with what was shown behind any of its whole cycles, however it goes on.
pub fn runs_begin_alike()
    ensures { (g : Given) (e : Extent) (c n : ℕ) → BeginsSo g e c n }
{}

/// What was shown of a cycle never changes: those that come later add nothing to it.
pub fn items_stay()
    ensures { (g : Given) (e : Extent) (c x : ℕ) → ItemsStay g e c x }
{}

/// The commits that were shown of a run are the first steps of the functional run, and all of them where the machine
/// stopped by itself; until then one comes in every K cycles; and the events are those of the table, a legal schedule.
pub fn runs_keep_the_headline()
    ensures { (g : Given) (most cycles : ℕ) → IsSound g → KeepsHeadline g (finish (setting_of g) most cycles) most cycles }
{}
