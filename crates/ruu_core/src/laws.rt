//! What follows from the definitions, each law as the contract of a function that does nothing.
ghost use Rattle.std.specs.Prelude.{◌≡◌, ℕ, ◌≤◌, Bool, true, [], ◌∷◌, ◌++◌, List, Some, None, Option, is_none, not};
ghost use Rattle.ruu_core.specs.declared.station.Station.{Station};
ghost use Rattle.ruu_core.specs.Window.{Row, Window, rises_to, completes, first, finished, is_above, is_store, writes, retired};
ghost use Rattle.ruu_core.specs.Laws.{AnswersTheLeast, IssuesOnce, LeavesOlder, CompletesThere, StaysProduced, StandsAt};

/// Of two rows that pass, the older is answered first, and a row is answered wherever one passes.
pub fn the_oldest_row_is_answered()
    ensures { (test : List Row → Row → Bool) (after : Option ℕ) (w : Window)
        → rises_to w.last w.rows ≡ true → AnswersTheLeast test after w }
{}

/// A row that has issued is never ready again.
pub fn rows_issue_once()
    ensures { (n : ℕ) (w : Window) → IssuesOnce n w }
{}

/// A squash leaves every older row, and what is answered about it, as it was.
pub fn squashes_leave_older_rows()
    ensures { (n m : ℕ) (w : Window) → rises_to w.last w.rows ≡ true → n ≤ m → LeavesOlder n m w }
{}

/// What completes at a cycle has a mark there, and is done there, but for a load that only writes back and a store
/// whose data are missing.
pub fn completions_are_where_they_are_said()
    ensures { (c : ℕ) (older : List Row) (r : Row) → completes c older r ≡ true → CompletesThere c older r }
{}

/// The cycle at which a retired row was done bounds the producers of all rows that are left, so that looking at
/// live rows alone is looking at all.
pub fn retired_producers_are_done()
    ensures { (w : Window) (r : Row) (c : ℕ) → first w.rows ≡ Some r
        → not (is_none (finished r)) ≡ true → is_above (retired w).past c ≡ true → StaysProduced w r c }
{}

/// No store writes a place, so a producer is no store.
pub fn stores_produce_nothing()
    ensures { (s : Station) → is_store s ≡ true → writes s ≡ [] }
{}

/// What calls say of a row by its number, they say of the row where it stands among the live ones.
pub fn numbers_name_rows()
    ensures { (younger older : List Row) (r : Row) (w : Window) → w.rows ≡ younger ++ r ∷ older
        → rises_to w.last w.rows ≡ true → StandsAt younger older r w }
{}
