//! The parts of the out-of-order core, and what it means that they stand for the table of its timing.
//!
//! `Parts` holds the unit, the queue, the front end, the functional units, the hierarchy, the
//! predictor and the state, with public fields: each stage of a cycle is a crate of its own above
//! this one. `specs/Stands.antt` relates the parts to the table within a cycle, and
//! `specs/Stages.antt` has what each stage owes. `Addresses` holds the effective addresses of the
//! loads and stores in flight, each beside its entry of the queue. `Addresses::new` alone takes
//! memory.
#![tactic(auto)]

mod addresses;
mod answers;
mod parts;
#[cfg(test)]
mod tests;

pub use addresses::{Addresses, MemoryRow};
pub use answers::{Dispatched, Issued};
pub use parts::Parts;
