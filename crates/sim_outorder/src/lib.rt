//! sim-outorder's machine.
//!
//! A `Core` runs the out-of-order machine cycle by cycle over a watch, which is shown each event of a cycle in order
//! and behind each commit what its instruction did. It promises, for every sound run whose table its parts stand for,
//! that they stand for the table of the next cycle after `Going`, that a cycle ends the run exactly where the table
//! ends it, that its counts are the statistics of that table or that end, and that the watch has taken exactly the
//! cycle's events, or was cut within them (`specs/Cycle.antt`). `Core::new` takes all memory but that of pages that
//! right stores and calls touch first.
#![tactic(auto)]

mod answers;
mod machine;
mod stages;

pub use answers::{CoreFault, Turn};
pub use machine::{Core, Phase};
