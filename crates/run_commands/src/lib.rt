//! The commands that run a program: sim-safe, which runs an object from its start or from a point,
//! over recorded calls if there are any, and record, which runs it in a closed world and writes the
//! trace of its calls.
//!
//! Each has one clause: it loads its files, and then comes to its outcome, which says what it
//! answers and what it writes, in order. After a fault a front of that is written. A recording that
//! answers leaves a trace over which sim-safe does the run again. Programs are launched by one call,
//! whatever is done with the machine then.
#![tactic(auto)]

mod judging;
mod launching;
mod recording;
mod running;
mod safe;
#[cfg(test)]
mod tests;
mod world;

pub use judging::Program;
pub use launching::{Launched, launch};
pub use recording::record;
pub use safe::sim_safe;
