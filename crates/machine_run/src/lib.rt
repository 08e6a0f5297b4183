//! A program's run on sim-outorder's machine, from its skipped steps to the last write.
//!
//! `machine_run` skips steps as sim-safe does them, and puts out what they emit; behind them it runs the machine with a new
//! hierarchy and predictor until that stops by itself or a budget is used up, and writes commit text, output and
//! pipetrace on the way. What it writes is one journal, a function of the start state, the configuration and the plan
//! (`specs/Plan.antt`), whole or cut at one write. The crate promises that the commits are the first steps of the
//! functional run, and all of them where the machine stops by itself, in what is written too; and that the pipetrace is
//! that of the table.
#![tactic(auto)]

mod laws;
mod plan;
mod run;
mod timed;

pub use laws::machine_runs_keep_the_headline;
pub use plan::{CacheCounts, MachineConfig, MachinePlan, MachineRun};
pub use run::machine_run;
