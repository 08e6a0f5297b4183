//! How events come from the parts, each law as the contract of a function that does nothing.
ghost use Rattle.std.specs.Prelude.{ℕ};
ghost use Rattle.ooo_table.specs.Machine.{Given};
ghost use Rattle.ooo_table.specs.MachineLaws.{IsSound};
ghost use Rattle.core_events.specs.Commits.{TurnsAreShown, StagesAreShown};
ghost use Rattle.core_events.specs.Completions.{ShowsCompletions};
ghost use Rattle.core_events.specs.Recoveries.{SquashesBehind};

/// A turn of the commit stage shows the commit of its row and the record of its station, and ends the run where the
/// record notes an exit or the budget is met.
pub fn turns_show_commits()
    ensures { (g : Given) (c : ℕ) → TurnsAreShown g c }
{}

/// Where no row commits any more the stage has shown its commits, and ends the run where one of them did.
pub fn stages_show_their_turns()
    ensures { (g : Given) (c : ℕ) → IsSound g → StagesAreShown g c }
{}

/// The write-backs and returns of a cycle are those of the rows in the unit behind its commits.
pub fn units_show_completions()
    ensures { (g : Given) (c : ℕ) → ShowsCompletions g c }
{}

/// A recovery squashes all rows behind its row, and without one nothing is squashed.
pub fn recoveries_squash_all_behind()
    ensures { (g : Given) (c : ℕ) → IsSound g → SquashesBehind g c }
{}
