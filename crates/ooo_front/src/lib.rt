//! The front end: it fetches rows along the predicted path, and holds them until they are dispatched.
//!
//! In each cycle it fetches the next rows as far as its width and its queue go, makes their fetch
//! references and asks the predictor where each of them leads, until one is queued later or leads
//! elsewhere. `specs/Fetching.antt` says what one cycle fetches. The crate promises that a front,
//! with the hierarchy and the predictor that it is handed, stands for exactly those rows, references
//! and look-ups, cycle by cycle, and that the rows which wait are one predicted path. `Front::new`
//! alone takes memory.
#![tactic(auto)]

mod front;
mod laws;
mod row;
#[cfg(test)]
mod tests;

pub use front::Front;
pub use laws::{
    cycles_add_their_rows, paths_are_in_order, redirected_fronts_go_on_there,
    rows_are_queued_by_their_references,
};
pub use row::FetchRow;
