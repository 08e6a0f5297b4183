//! The state that instructions on a wrong path act on: a borrowed state under an overlay.
//!
//! `SpecView` is a `Machine` that reads as the state that it borrows with what was written over it,
//! and writes the `Overlay` alone. The crate promises that after any effects since the last rollback
//! each reading is that of a copy of the state with those effects in order, that a rollback brings
//! the readings of the state back, and that the state is never changed. `Overlay::new` alone takes
//! memory.
#![tactic(auto)]

mod laws;
mod overlay;
#[cfg(test)]
mod tests;
mod view;

pub use laws::{effects_lie_in_blocks, two_rollbacks_are_one, wrong_paths_read_as_copies};
pub use overlay::Overlay;
pub use view::SpecView;
