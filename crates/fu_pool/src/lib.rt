//! Functional units: which units of a pool are held at a cycle, and until when.
//!
//! A unit that is taken stays held for as long as it was taken for, whatever becomes of the
//! instruction that took it, so no call gives one back. The crate promises that `is_free` is false
//! exactly where the takes so far hold as many units of the pool at that cycle as there are. No call
//! takes memory.
#![tactic(auto)]

mod laws;
mod pools;
#[cfg(test)]
mod tests;
mod timers;

pub use laws::{
    a_divide_is_held_for_nineteen_cycles, a_unit_is_held_to_its_end, pools_are_apart,
    units_are_given_back_by_time_alone, units_suffice,
};
pub use pools::{Pool, Pools};
