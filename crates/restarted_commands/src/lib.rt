//! Commands that go on from a point which an earlier one left are the rest of it.
//!
//! The crate has laws and no other code. They say over files what a long run in pieces comes to: where a command left a
//! point and another one goes on from it, the commit text and the output of the whole run are those of its front up to the
//! point and then those of the rest, and the answer is that of the rest.
#![tactic(auto)]

mod laws;

pub use laws::{command_lines_in_pieces_write_the_whole, commands_in_pieces_write_the_whole};
