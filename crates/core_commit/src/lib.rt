//! The commit stage of a core, row by row.
//!
//! `commit_one` lets the oldest row of the unit leave where it may commit: it is right, was done before the
//! cycle, the width isn't used up, and a store finds a port. The row leaves the unit and, if it is
//! a load or store, the queue; a store makes its reference, and a branch or jump updates the
//! predictor. `specs/Turn.antt` has the turn over the parts. It takes no memory.
#![tactic(auto)]

mod effects;
mod turn;

pub use turn::commit_one;
