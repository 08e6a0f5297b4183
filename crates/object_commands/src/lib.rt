//! The commands that make and list objects: `asm` and `dis`.
//!
//! Each loads one file from an outside, judges it, and writes what comes of it there: an object, or a
//! listing on the first stream. It promises that its answer and all that it writes, in this order, are
//! the outcome of the file that it found, as `specs/Outcome` defines it, or a front of that where it
//! gives up.
#![tactic(auto)]

mod assembling;
mod laws;
mod listing;
#[cfg(test)]
mod tests;

pub use assembling::{SOURCE_LIMIT, asm};
pub use laws::{listings_are_put_whole, listings_have_each_instruction};
pub use listing::{OBJECT_LIMIT, dis};
