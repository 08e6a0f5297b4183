//! The tables that predict branches: directions of conditional branches, targets of taken
//! transfers, and the addresses that returns go back to.
//!
//! `Direction` is implemented by four predictors: constant, bimodal, two-level adaptive, and
//! combining. `Btb` holds targets by set, and `Ras` is a ring of return addresses. The crate promises
//! that each answer is a plain function of the whole list of updates or calls before it, given in
//! `specs/`, and that no call but `new` takes memory.
#![tactic(auto)]

mod bimodal;
mod combining;
mod counters;
mod directions;
mod laws;
mod return_stack;
mod target_buffer;
#[cfg(test)]
mod tests;
mod two_level;

pub use bimodal::Bimod;
pub use combining::Comb;
pub use directions::{Direction, Fixed};
pub use laws::{
    agreement_leaves_choosers, cells_stay, counters_saturate, histories_keep_their_width,
    last_targets_are_found, newest_pushes_survive, pops_give_the_push, sets_keep_their_ways,
    targets_are_those_of_entries, two_alike_decide, updates_shift_histories,
};
pub use return_stack::Ras;
pub use target_buffer::Btb;
pub use two_level::TwoLevel;
