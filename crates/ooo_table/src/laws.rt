//! What follows from the rules of the table alone, each law as the contract of a function that does nothing.
ghost use Rattle.std.specs.Prelude.{◌≡◌, ℕ, suc, ◌+◌, ◌<◌, ◌≤◌, ◌||◌, false, true, None};
ghost use Rattle.ooo_table.specs.Table.{Setting};
ghost use Rattle.ooo_table.specs.Cycle.{table};
ghost use Rattle.ooo_table.specs.Ends.{Extent, rows_at, exited, commits_in, stops_in};
ghost use Rattle.ooo_table.specs.Later.{Each, Grew};
ghost use Rattle.ooo_table.specs.Legal.{ProducersDone, UnitsSuffice, WidthsKept, PlacesKept, CommitsInOrder, MemoryInOrder, WrongRowsSquashed, IssueRules, Quiet, Happened, Legal};
ghost use Rattle.ooo_table.specs.PathLaws.{IsPath, GoesOn, ActsOnCopy};
ghost use Rattle.ooo_table.specs.Bound.{Bounded, bound};

/// Marks that are set never change, and rows never go.
pub fn marks_stay()
    ensures { (set : Setting) (c : ℕ) → Grew (table set c).rows (table set (suc c)).rows }
{}

/// The marks that have happened where a run ends lie between those of the whole cycles before and those of the whole
/// cycle in which it ends.
pub fn ends_lie_between()
    ensures { (set : Setting) (e : Extent) (c : ℕ) → Grew (table set c).rows (rows_at set e c) × Grew (rows_at set e c) (table set (suc c)).rows }
{}

/// Of a cycle that ends at a commit only the commits up to that row have happened, and of one that ends at a stop no
/// fetch.
pub fn marks_have_happened()
    ensures { (set : Setting) (e : Extent) (c : ℕ) → Each (Happened e c) (rows_at set e c) }
{}

/// A squashed row gets no mark afterwards, and no row waits for a mark that never happens.
pub fn squashed_rows_are_quiet()
    ensures { (set : Setting) (e : Extent) (c : ℕ) → Each Quiet (rows_at set e c) }
{}

/// No main operation issues before its producers are done, and no access of a load before the write-back of its row and
/// the producers of what it reads besides.
pub fn producers_are_done()
    ensures { (set : Setting) (c : ℕ) → Each (ProducersDone set) (table set c).rows }
{}

/// In no cycle do operations and committing stores hold more units of a pool than it has.
pub fn units_suffice()
    ensures { (set : Setting) (c x : ℕ) → UnitsSuffice set (table set c).rows x }
{}

/// In no cycle are more rows fetched, dispatched or committed, or more operations issued, than the widths say.
pub fn widths_are_kept()
    ensures { (set : Setting) (c x : ℕ) → WidthsKept set (table set c).rows x }
{}

/// After each cycle there are places for the waiting rows, for the live rows, and for the loads and stores among these.
pub fn places_suffice()
    ensures { (set : Setting) (c : ℕ) → PlacesKept set (table set c).rows }
{}

/// Only right rows commit, in row order with none left out, each later than it was done.
pub fn commits_in_order()
    ensures { (set : Setting) (c : ℕ) → Each (CommitsInOrder set) (table set c).rows }
{}

/// When the access of a load issues, each older store in flight has its address, and is done if it has the load's block.
pub fn memory_is_in_order()
    ensures { (set : Setting) (c : ℕ) → Each (MemoryInOrder set) (table set c).rows }
{}

/// No wrong row commits, and where a mispredicted row writes back, every later row that is there is squashed.
pub fn wrong_rows_are_squashed()
    ensures { (set : Setting) (c : ℕ) → 1 ≤ set.config.penalty → Each (WrongRowsSquashed set c) (table set c).rows }
{}

/// Right rows are never squashed.
pub fn right_rows_stay()
    ensures { (set : Setting) (e : Extent) (c : ℕ) → 1 ≤ set.config.penalty → Each (λ _ r. r.fetched.right ≡ true → r.squashed ≡ None) (rows_at set e c) }
{}

/// Where issue is in order no main operation overtakes another, and where wrong rows don't issue none has.
pub fn issue_keeps_its_rules()
    ensures { (set : Setting) (e : Extent) (c : ℕ) → Each (IssueRules set) (rows_at set e c) }
{}

/// However a run ends, after whole cycles, at a commit or at a stop, the marks that have happened are a legal schedule.
pub fn every_end_is_legal()
    ensures { (set : Setting) (e : Extent) (c : ℕ) → 1 ≤ set.config.penalty → Legal set e c }
{}

/// The right rows are one path: each goes on where the right row before it leads, on the state that one left.
pub fn one_path()
    ensures { (set : Setting) (c : ℕ) → 1 ≤ set.config.penalty → Each (IsPath set) (table set c).rows }
{}

/// The first row is right, and each wrong row goes on from the row before it, at the predicted address.
pub fn wrong_rows_go_on()
    ensures { (set : Setting) (e : Extent) (c : ℕ) → Each (GoesOn set) (rows_at set e c) }
{}

/// A dispatched wrong row acts on a copy of the state that the newest right row before it left, with the effects of the
/// dispatched wrong rows between in their order.
pub fn wrong_rows_act_on_copies()
    ensures { (set : Setting) (e : Extent) (c : ℕ) → Each (ActsOnCopy set) (rows_at set e c) }
{}

/// While no exit has committed, a row commits or the machine stops in every K cycles.
pub fn bound_holds()
    ensures { (set : Setting) (I M c : ℕ) → Bounded set I M → exited set (table set c) ≡ false
        → (x : ℕ) × (c ≤ x) × (x < c + bound set I M) × ((commits_in set x (table set x) || stops_in set x (table set x)) ≡ true) }
{}
