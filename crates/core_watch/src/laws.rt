//! What a watch is shown of a cycle, each law as the contract of a function that does nothing.
ghost use Rattle.std.specs.Prelude.{◌≡◌, ◌∷◌, ◌++◌, ℕ, List};
ghost use Rattle.ooo_table.specs.Row.{Row};
ghost use Rattle.ooo_table.specs.Cycle.{table};
ghost use Rattle.ooo_table.specs.Ends.{Extent, AtCommit, rows_at};
ghost use Rattle.ooo_table.specs.Events.{events_in};
ghost use Rattle.ooo_table.specs.Machine.{Given, setting_of};
ghost use Rattle.ooo_table.specs.MachineLaws.{IsSound};
ghost use Rattle.core_watch.specs.Items.{items_in, events_among};
ghost use Rattle.core_watch.specs.StageItems.{commit_items};
ghost use Rattle.core_watch.specs.StageItemsLaws.{ShownByStage, CommitsNext, CommitIsShown, CommitsAreOver, commits_now};

/// The events that are shown of a cycle are those of the table, in their order.
pub fn all_events_are_shown()
    ensures { (g : Given) (e : Extent) (c x : ℕ) → events_among (items_in g e c x) ≡ events_in (setting_of g) e c x }
{}

/// A cycle shows what its stages show, one after another, each over the rows right behind it; one that ends in its
/// dispatch stage shows no fetch.
pub fn cycles_show_their_stages()
    ensures { (g : Given) (c : ℕ) → IsSound g → ShownByStage g c }
{}

/// A cycle that ends at a commit shows its commits up to that one, and nothing else.
pub fn last_commits_show_commits()
    ensures { (g : Given) (c row : ℕ) → items_in g (AtCommit row) c c ≡ commit_items g c (rows_at (setting_of g) (AtCommit row) c) }
{}

/// The next commit of the stage is shown behind those before it, and ends the run where it is an exit or the last of the
/// budget.
pub fn next_commits_are_shown()
    ensures { (g : Given) (c most n : ℕ) (left passed older : List Row) (r : Row) → CommitsNext g c n left passed older r → CommitIsShown g c most n passed older r }
{}

/// Where no younger row commits in the cycle, the stage has shown its commits, and ended the run where one of them did.
pub fn stages_show_all_commits()
    ensures { (g : Given) (c most n : ℕ) (younger older : List Row) → (table (setting_of g) c).rows ≡ younger ++ older → commits_now g c older ≡ n
        → commits_now g c (table (setting_of g) c).rows ≡ n → CommitsAreOver g c most n older }
{}
