//! A watch of the out-of-order machine that writes its commit text, its output and its pipetrace as it runs.
//!
//! `MachineWatch` is shown the events and the commits of each cycle. An event adds its lines to the
//! pipetrace and a commit its line to the commit text, each in a file of its own, in pieces; what a
//! call emits goes to the first stream as the call commits. All that it writes is one journal, which
//! is a recursion over what was shown; after a fault nothing behind the write that failed is done.
#![tactic(auto)]

mod laws;
#[cfg(test)]
mod tests;
mod watch;
mod writing;

pub use laws::{
    runs_put_out_their_output, runs_write_both_texts, runs_write_started_files, texts_stand_so_far,
    watches_write_their_run,
};
pub use watch::MachineWatch;
