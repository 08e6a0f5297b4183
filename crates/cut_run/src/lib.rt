//! Runs that skip their first steps and leave a point on their way.
//!
//! `cut_run` does what a plan asks: it skips steps, of which no records are made and whose output is put
//! out behind them, does further ones whose commit text and output are written, and takes a point once so
//! many instructions are done, or at the end of the run where that comes first. What it writes is one
//! journal, a function of the start state and the plan (`specs/Plan.antt`), whole or cut at one write. It
//! promises that the output is that of the uncut run, that the commit text is that of the steps behind the
//! skipped ones, and that the point holds the state in which it was taken.
#![tactic(auto)]

mod cut;
mod laws;
mod point;
mod skipped;
mod timed;

pub use cut::{Cut, CutAnswer, Plan, PointFile, cut_run};
pub use laws::{cut_runs_write_the_uncut_text, points_hold_their_state};
