//! What a predictor is made of.

/// How the directions of conditional branches are predicted. `docs/predictors.md` has the rules.
#[derive(Clone, Copy, Debug, PartialEq, Eq)]
pub enum PredKind {
    /// None is taken.
    NotTaken,
    /// All are taken.
    Taken,
    /// By one table of counters.
    Bimod,
    /// By histories and a table of counters.
    TwoLevel,
    /// By both, and a table of choosers.
    Comb,
}

/// The kind of a predictor and the sizes of its tables, each of which is at least 1 unless it says else.
#[derive(Clone, Copy, Debug, PartialEq, Eq)]
pub struct PredConfig {
    /// How directions are predicted.
    pub kind: PredKind,
    /// The counters of the bimodal predictor.
    pub bimod: u32,
    /// The histories of the two-level predictor.
    pub l1: u32,
    /// The counters of the two-level predictor.
    pub l2: u32,
    /// The outcomes in a history: 0 to 16.
    pub width: u32,
    /// Whether history and instruction are mixed by exclusive or; else they are concatenated.
    pub xor: bool,
    /// The choosers of the combining predictor.
    pub meta: u32,
    /// The sets of the target buffer.
    pub btb_sets: u32,
    /// The entries of each set: 1 to 16.
    pub btb_ways: u32,
    /// The cells of the return stack: 0 to 1,024. There is no stack where it is 0.
    pub ras: u32,
}
