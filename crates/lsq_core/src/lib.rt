//! The load/store queue: the loads and stores in flight in row order, and the rule that keeps memory
//! in order.
//!
//! A load may go to memory past older stores only where each has an address, and each store of its
//! own block of 8 bytes has its data too. The crate promises that `load_may_issue` names the oldest
//! store that forbids the load, and else says whether the load's value comes from an older store.
//! `Lsq::new` alone takes memory.
#![tactic(auto)]

mod laws;
mod queue;
mod slots;
#[cfg(test)]
mod tests;

pub use laws::{
    a_load_that_may_issue_stays_allowed, numbers_name_entries, the_oldest_store_is_named,
    younger_rows_do_not_matter,
};
pub use queue::Lsq;
