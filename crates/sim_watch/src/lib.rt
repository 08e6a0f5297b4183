//! Runs whose commit text goes to a file and whose output goes to the first stream, runs whose
//! calls are recorded while their output goes there, and runs that are skipped, whose output goes there
//! behind them. What they write is a journal, which is one
//! recursion over the items of the run: each piece of text and each block of output stands in it in
//! the order of the run, and after a fault nothing behind the write that failed is done.
#![tactic(auto)]

mod laws;
mod recording;
mod run;
mod skipping;
#[cfg(test)]
mod tests;
mod watch;

pub use laws::{runs_write_text_and_output, skips_put_out_their_output};
pub use recording::{Recorded, watched_record};
pub use run::{Watched, watched_run, write_rest};
pub use skipping::{Skipped, watched_skip};
pub use watch::{TextWatch, emit, write_line_if_named, write_long};
