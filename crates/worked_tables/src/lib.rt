//! Worked tables of short programs: the cycles of all marks of all rows, with the programs and the machines on which they
//! are. They come from the specification of the machine's timing, and from no program. Tests of machines compare with them.
#![tactic(auto)]

mod marks;
mod programs;
mod tables;

pub use marks::{has, mark_count};
pub use programs::{Table, branches, first_object, predictor, straight};
pub use tables::{COMMITTED, Line};
