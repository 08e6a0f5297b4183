//! The start of an out-of-order core.
//!
//! `start` makes the parts with which a run starts: no row is live and none waits, all units are
//! free, nothing is written over the state, the hierarchy is settled, and fetching begins at the
//! program counter. The crate promises that these parts stand for the table before the first cycle of
//! every run that is given the same configuration, state, hierarchy and predictor. It takes all the
//! memory that the parts will ever need, but for the pages of the state.
#![tactic(auto)]

mod buffers;
mod parts;
#[cfg(test)]
mod tests;

pub use parts::start;
