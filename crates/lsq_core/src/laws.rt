//! What follows from the definitions, each law as the contract of a function that does nothing.
ghost use Rattle.std.specs.Prelude.{◌≡◌, ℕ, Bool, true, List, ◌∷◌, ◌++◌, Ok};
ghost use Rattle.lsq_core.specs.Queue.{Entry, Queue, load_answer, rises_to};
ghost use Rattle.lsq_core.specs.Laws.{NamesTheOldest, StaysAllowed, IgnoresYounger, StandsAt};

/// Where a load may not issue, the store that is named forbids it and no store before that one does;
/// where it may, no older store forbids it.
pub fn the_oldest_store_is_named()
    ensures { (c block : ℕ) (older : List Entry) → NamesTheOldest c block older }
{}

/// A load that may issue may still issue at every later cycle, and whatever else is learned of the
/// stores, with the same answer.
pub fn a_load_that_may_issue_stays_allowed()
    ensures { (c row : ℕ) (q : Queue) (forwarded : Bool)
        → load_answer c row q.entries ≡ Ok forwarded → StaysAllowed c row q forwarded }
{}

/// What a load may do doesn't depend on the rows behind it.
pub fn younger_rows_do_not_matter()
    ensures { (c row : ℕ) (q : Queue) → IgnoresYounger c row q }
{}

/// What calls say of a row by its number, they say of the row where it stands in the queue.
pub fn numbers_name_entries()
    ensures { (younger older : List Entry) (e : Entry) (q : Queue) → q.entries ≡ younger ++ e ∷ older
        → rises_to q.last q.entries ≡ true → StandsAt younger older e q }
{}
