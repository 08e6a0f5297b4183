//! Recorded system calls: what a trace is, its reader and writer, and the world that makes records.
//!
//! A trace lists the system calls of a run with what each of them read and what it gave back.
//! `read` answers the one trace that a file's bytes stand for, or the first check that fails, with
//! its place and its reason. `write` gives a trace its bytes, so a trace that was read is written
//! as it stood. Both versions of the format are read and written. `World` answers the calls of a
//! run that is recorded from an input and files that were handed to it, and `World::serve` gives
//! each call's record. `Recorder` adds the records to a trace, which stays one within its limits.
#![tactic(auto)]

mod answers;
mod fault;
mod laws;
mod reading;
mod record_reading;
mod recorder;
#[cfg(test)]
mod tests;
mod trace;
mod world;
#[cfg(test)]
mod world_tests;
mod writing;

pub use fault::{TraceFault, TraceWhy};
pub use laws::{closed_stays_closed, reads_go_on};
pub use reading::{one_trace, read};
pub use recorder::Recorder;
pub use trace::{Block, Blocks, CallKind, Record, Records, Registers, Trace};
pub use world::World;
pub use writing::write;
