//! The predictor of sim-bpred and sim-outorder: the address at which fetching goes on.
//!
//! A `Predictor` joins the tables of `bpred_tables`: directions of conditional branches, targets of
//! taken transfers, and the stack of return addresses. It is asked before an instruction is done and
//! told afterwards, and after a wrong prediction the top of its stack is put back.
//! `specs/History.antt` gives each answer as a function of all look-ups, updates and recoveries before
//! it. The crate promises that a new `Predictor` stands for the empty history, that each call takes
//! one that stands for a history to one that stands for the call and that history, and that every
//! look-up answers what the history gives. After `Predictor::new` no call takes memory. The functions
//! of `laws` say which events each part of an answer depends on.
#![tactic(auto)]

mod config;
mod directions;
mod laws;
mod predictor;
mod returns;
#[cfg(test)]
mod tests;

pub use config::{PredConfig, PredKind};
pub use laws::{
    branches_alone_change_directions, calls_and_returns_alone_change_the_stack,
    not_taken_branches_fall_through, recoveries_put_tops_back,
    taken_transfers_alone_change_targets, unseen_transfers_fall_through,
};
pub use predictor::{Look, Predictor};
