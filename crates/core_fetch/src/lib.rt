//! The fetch stage of a core.
//!
//! `fetch` has the front end fetch what the cycle fetches, and ends the cycle. The crate promises that
//! parts which stand for the table behind the dispatches of a cycle then stand for the table of the
//! next one, and that the answer is the rows that the table fetched in this cycle. It takes no memory.
#![tactic(auto)]

mod stage;

pub use stage::fetch;
