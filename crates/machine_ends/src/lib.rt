//! What the out-of-order machine leaves behind a cycle, by the functional run.
//!
//! `sim_outorder` says how a cycle ends by the table. The laws here say what that means by the functional run from
//! the same start: which state of it the machine has, and that both runs end alike.
#![tactic(auto)]

mod laws;

pub use laws::{cores_leave_the_run, cores_stand_in_the_run, cycles_leave_the_run};
