//! The functional machine: a program run one instruction at a time.
//!
//! `Arch` is the state of the machine. `start` gives the state in which a program starts; `step`
//! does the next instruction or stops, exactly as the definition says, and `peek` tells which; `run`
//! does many steps and shows each record to an observer; `record` does the same while the closed
//! world answers the system calls, and leaves the trace over which `run` does it again. After a
//! fault both leave the state after the steps that were done, and those of `record` are the first
//! steps of the recording without a fault.
//! `skip` does many steps and makes no records, and `resume` gives a machine a state.
//! `commit_line`, `push_end` and `Statistics` give the texts and counts of a run.
#![tactic(auto)]

mod arch;
mod call;
mod commit;
mod decoded;
mod ends;
mod laws;
mod observer;
mod peek;
mod record;
mod recording;
mod resume;
mod skip;
mod start;
mod statistics;
mod step;

pub use arch::Arch;
pub use commit::{commit_line, emitted};
pub use ends::push_end;
pub use laws::{
    full_recordings_stop, recordings_add_records, runs_emit_by_records, runs_go_on, steps_keep,
    text_stays,
};
pub use observer::{Meaning, Observer, RunEnd, RunFault};
pub use record::{CallNote, CommitRecord, Peek, Stepped};
pub use recording::RecordEnd;
pub use statistics::Statistics;
