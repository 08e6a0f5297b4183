//! What follows from the definitions, each law as the contract of a function that does nothing.
ghost use Rattle.std.specs.Prelude.{◌≡◌, ◌≢◌, ℕ, ◌+◌, ◌*◌, ◌%◌, ◌^◌, ◌<◌, ◌≤◌, Bool, List, ◌∷◌, length, slice_index, Some, None, All, AllPairs, Contains, ◌↔◌};
ghost use Rattle.bpred_tables.specs.Updates.{Update, Levels, Pair, counter, says_taken, history, place_in, digit, bimodal, two_level, contests};
ghost use Rattle.bpred_tables.specs.Buffer.{Entry, entries, target_of};
ghost use Rattle.bpred_tables.specs.Stack.{Call, Push, Pop, SetTop, cell_after, popped, pushes, pops};

/// A counter stays within 0 to 3, whatever it counted.
pub fn counters_saturate()
    ensures { (outcomes : List Bool) → counter outcomes ≤ 3 }
{}

/// Two outcomes in a row that are alike decide what a counter says.
pub fn two_alike_decide()
    ensures { (taken : Bool) (older : List Bool)
        → says_taken (counter (taken ∷ (taken ∷ older))) ≡ taken }
{}

/// A history stays below two to its width.
pub fn histories_keep_their_width()
    ensures { (l : Levels) (k : ℕ) (updates : List Update) → history l k updates < 2 ^ l.width }
{}

/// An update shifts its outcome into the history at its place, and no other history changes.
pub fn updates_shift_histories()
    ensures here { (l : Levels) (u : Update) (older : List Update)
        → let k = place_in l.first u.pc in
        history l k (u ∷ older) ≡ (2 * history l k older + digit u.taken) % 2 ^ l.width }
    ensures elsewhere { (l : Levels) (u : Update) (older : List Update) (k : ℕ)
        → k ≢ place_in l.first u.pc → history l k (u ∷ older) ≡ history l k older }
{}

/// Where both predictors of a combining one answer alike, an update changes no chooser.
pub fn agreement_leaves_choosers()
    ensures { (p : Pair) (k : ℕ) (u : Update) (older : List Update)
        → bimodal p.bimodal_size older u.pc ≡ two_level p.levels older u.pc
        → contests p k (u ∷ older) ≡ contests p k older }
{}

/// A target is missing exactly where the pc has no entry in its set, and an entry's target is found.
pub fn targets_are_those_of_entries()
    ensures none { (sets ways pc : ℕ) (updates : List Entry)
        → (target_of sets ways updates pc ≡ None)
        ↔ All (λ e. e.pc ≢ pc) (entries sets ways (place_in sets pc) updates) }
    ensures some { (sets ways : ℕ) (updates : List Entry) (e : Entry)
        → Contains (entries sets ways (place_in sets e.pc) updates) e
        → target_of sets ways updates e.pc ≡ Some e.target }
{}

/// The target of the newest update of a pc is found.
pub fn last_targets_are_found()
    ensures { (sets ways : ℕ) (u : Entry) (older : List Entry)
        → 1 ≤ ways → target_of sets ways (u ∷ older) u.pc ≡ Some u.target }
{}

/// No set has more entries than it has ways, and no two of its entries are of one pc.
pub fn sets_keep_their_ways()
    ensures ways { (sets ways k : ℕ) (updates : List Entry)
        → length (entries sets ways k updates) ≤ ways }
    ensures different { (sets ways k : ℕ) (updates : List Entry)
        → AllPairs (λ a b. a.pc ≢ b.pc) (entries sets ways k updates) }
{}

/// Right after a push, a pop gives what was pushed.
pub fn pops_give_the_push()
    ensures { (n v : ℕ) (calls : List Call) → popped n (Push v ∷ calls) ≡ v }
{}

/// A pop and a set top leave every cell.
pub fn cells_stay()
    ensures pop { (n k : ℕ) (calls : List Call)
        → cell_after n k (Pop ∷ calls) ≡ cell_after n k calls }
    ensures set_top { (n k top : ℕ) (calls : List Call)
        → cell_after n k (SetTop top ∷ calls) ≡ cell_after n k calls }
{}

/// After any pushes, up to n pops give the last ones, the newest first, since a push beyond n
/// overwrites the oldest; one more pop gives the newest again.
pub fn newest_pushes_survive()
    ensures last { (n i : ℕ) (values : List ℕ) (calls : List Call)
        → i < n → i < length values
        → popped n (pops i (pushes values calls)) ≡ slice_index values i }
    ensures round { (n : ℕ) (values : List ℕ) (calls : List Call)
        → 0 < n → n ≤ length values
        → popped n (pops n (pushes values calls)) ≡ slice_index values 0 }
{}
