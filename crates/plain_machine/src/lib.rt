//! The out-of-order machine, plainly: all rows of its table, cycle by cycle.
//!
//! A `Plain` keeps every row that was ever fetched, and does to them in each cycle what the definitions of the stages say,
//! row by row. Each row acts when it is fetched: a right one on the state, which does the next step, and a wrong one on a
//! copy of it. The crate promises that a machine which stands for the table of a run stands for its next table after a
//! cycle, that a cycle ends the run where the table ends it, and that the events of a cycle are the table's
//! (`specs/Standing.antt`, `specs/Cycle.antt`). It is slow, takes memory for each row, and is for comparisons.
#![tactic(auto)]

mod copied;
mod cycle;
mod events;
mod fetch;
mod machine;
mod perform;
mod row;
mod stages;

pub use cycle::PlainTurn;
pub use machine::Plain;
