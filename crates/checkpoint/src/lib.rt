//! Points of a run: what a point is, its reader and writer, and how it is taken of a machine.
//!
//! A point holds the state of a machine: pc, registers, counts, exit code, where the text lies, and
//! the pages of memory that have a byte other than 0. `read` answers the one point that a file's bytes
//! stand for, or the first check that fails, with its place and its reason. `write` gives a point its
//! bytes in its own version of the format, so a point that was read is written as it stood. `take`
//! makes a point of a machine as it stands. `restore` gives the machine that goes on from a point, or
//! the first check that fails where the point isn't one of the object's program.
#![tactic(auto)]

mod fault;
mod head_reading;
mod laws;
mod point;
mod reading;
mod restoring;
mod taking;
#[cfg(test)]
mod tests;
mod writing;

pub use fault::{PointFault, PointWhy};
pub use laws::{checks_are_exact, restarts_are_the_rest, taken_points_fit};
pub use point::{Point, page_count};
pub use reading::{one_point, read};
pub use restoring::restore;
pub use taking::take;
pub use writing::write;
