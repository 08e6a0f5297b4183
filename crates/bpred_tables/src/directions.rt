//! What all direction predictors have in common, and the constant one.
ghost use Rattle.std.specs.Prelude.{◌≡◌, ℕ, List, ◌∷◌};
ghost use Rattle.bpred_tables.specs.Updates.{Scheme, Update, Constant, predicted};

/// A predictor of the directions of conditional branches.
pub trait Direction {
    // the definition that the answers follow, with the sizes of the tables
    ghost scheme: { Self → Scheme };

    // the value is what these updates, the newest first, leave of a new one
    ghost stands_for: { Self → List Update → Type 0 };

    /// Whether the conditional branch at `pc` is predicted to be taken. Nothing changes.
    fn predict(&self, pc: u32) -> bool
        ensures { (updates : List Update) → stands_for self.now updates
            → result ≡ predicted (scheme self.now) updates pc };

    /// The conditional branch at `pc` was done: from now on this update counts too.
    fn update(&mut self, pc: u32, taken: bool)
        ensures same_scheme { scheme self.new ≡ scheme self.old }
        ensures updated { (updates : List Update) → stands_for self.old updates
            → stands_for self.new (record { pc = pc; taken = taken } ∷ updates) };
}

/// The same direction for every branch, whatever was done.
#[derive(Clone, Copy, Debug, PartialEq, Eq)]
pub struct Fixed {
    /// The direction that is predicted.
    pub taken: bool,
}

impl Direction for Fixed {
    ghost scheme = { λ direction. Constant direction.taken };

    ghost stands_for = { λ _ _. Unit {0} };

    fn predict(&self, _pc: u32) -> bool {
        self.taken
    }

    fn update(&mut self, _pc: u32, _taken: bool) {}
}
