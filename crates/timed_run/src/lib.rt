//! A whole timed run of sim-outorder's machine, under a budget of commits and one of cycles.
//!
//! `timed_run` runs a machine cycle by cycle until it stops by itself or a budget is used up. It promises, for every sound
//! run for which the machine stands, that it ends exactly where that run ends under these budgets and tells its end so, that
//! the machine then stands for the table at that end, with its statistics, and that the watch has taken exactly what is shown
//! of the run, or was cut within it (`specs/Timed.antt`). What is shown of a run has to do with the functional run by the laws
//! of `shown_run`.
#![tactic(auto)]

mod run;

pub use run::timed_run;
