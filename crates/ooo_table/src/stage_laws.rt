//! What rows keep from stage to stage, on which a machine that runs the table can rest, each law as the contract of a
//! function that does nothing.
ghost use Rattle.std.specs.Prelude.{◌≡◌, ◌∷◌, ◌++◌, ℕ, List};
ghost use Rattle.ooo_table.specs.Row.{Row};
ghost use Rattle.ooo_table.specs.Table.{Setting};
ghost use Rattle.ooo_table.specs.Cycle.{table, after_commit, after_issue};
ghost use Rattle.ooo_table.specs.Later.{Each};
ghost use Rattle.ooo_table.specs.Bound.{Bounded};
ghost use Rattle.ooo_table.specs.CycleLaws.{AtStages, RowFacts, SquashSpreads, Newest, LinkedAtStages, BeforeIssue, RecoversLive, IssuesLive, RowsFit, StopsThere, WrongRowsFit, EventsStand};
ghost use Rattle.ooo_table.specs.TurnLaws.{WithinDispatch, MeetsEnd, EndsThere};

/// Marks come one after another, rows are dispatched in order, and commits were allowed, at each stage.
pub fn rows_keep_their_order()
    ensures { (set : Setting) (c : ℕ) → AtStages set c (Each (RowFacts set c)) }
{}

/// A squash of a row is one of every row behind it that was there, so an unsquashed row was fetched after all squashes of
/// older rows.
pub fn squashes_spread()
    ensures { (set : Setting) (c : ℕ) → AtStages set c (Each SquashSpreads) }
{}

/// The waiting rows are the newest ones, so the oldest of them is the next to be dispatched.
pub fn waiting_rows_are_the_newest()
    ensures { (set : Setting) (c : ℕ) → AtStages set c (Each Newest) }
{}

/// Each waiting row leads to the row behind it, and the newest to the next fetch.
pub fn waiting_rows_are_linked()
    ensures { (set : Setting) (c : ℕ) → LinkedAtStages set c }
{}

/// As the issue stage begins, no fetch, issue or access is of this cycle.
pub fn issue_finds_earlier_marks()
    ensures { (set : Setting) (c : ℕ) → BeforeIssue set c }
{}

/// A row that recovers is live after the commits of that cycle.
pub fn recovering_rows_are_live()
    ensures { (set : Setting) (I M c : ℕ) → Bounded set I M → Each (λ _. RecoversLive set c) (after_commit set c).rows }
{}

/// A row whose operation issues is live.
pub fn issuing_rows_are_live()
    ensures { (set : Setting) (c : ℕ) → Each (λ _. IssuesLive set c) (after_issue set c).rows }
{}

/// The machine stops in a cycle exactly where, after its issues, the oldest waiting row is right and can't be done, its
/// words were there before, and no row is live.
pub fn stops_are_at_the_oldest_waiting_row()
    ensures { (set : Setting) (c : ℕ) → StopsThere set c }
{}

/// There are no more rows than the decode width fetches in all cycles.
pub fn rows_fit_the_cycles()
    ensures { (set : Setting) (c : ℕ) → RowsFit set c }
{}

/// After the issues of a cycle fewer wrong rows are live than there are places, since a right row that they follow is live.
pub fn wrong_rows_leave_a_place()
    ensures { (set : Setting) (I M c : ℕ) → Bounded set I M → WrongRowsFit set c }
{}

/// The events that a stage gives are those that its rows show right after it.
pub fn events_stand()
    ensures { (set : Setting) (c : ℕ) → EventsStand set c }
{}

/// Within the dispatch stage too, after the turns of the older rows, the waiting rows are the newest ones and linked.
pub fn dispatch_turns_keep_links()
    ensures { (set : Setting) (c : ℕ) (younger older : List Row) → (after_issue set c).rows ≡ younger ++ older → WithinDispatch set c younger older }
{}

/// The first turn of the commit stage that meets an exit or the end of the budget is that of the last commit of the run, and
/// the rows are then as they stand after that turn.
pub fn commit_turns_find_the_end()
    ensures { (set : Setting) (most c : ℕ) (younger older : List Row) (r : Row) → (table set c).rows ≡ younger ++ (r ∷ older) → MeetsEnd set most c older r → EndsThere set most c younger older r }
{}
