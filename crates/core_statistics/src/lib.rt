//! What the core of the out-of-order machine counts as it runs.
//!
//! `CoreStats` has the counts that are printed behind a run. Each stage of a cycle adds what it did: commits row by
//! row, the recovery, the issues, the dispatches, the fetches. `specs/Counted.antt` says when counts are those of the
//! table, and `specs/CountLaws.antt` that counts of the table before a stage are, with what the stage adds, those of
//! the table behind it; `specs/Standing.antt` has both in one, and the statistics of a run. A count stands still at its
//! type's end. No call takes memory.
#![tactic(auto)]

mod laws;
mod stats;

pub use stats::CoreStats;
