//! The lines of a text, and the words of a line.
//!
//! Sources and configurations are read line by line. The crate promises that `next_line` takes one
//! line after the other off a text, that `next_word` does so with the words of a line, and that both
//! give exactly what `specs/Lines` says. None of its calls takes memory.
#![tactic(auto)]

mod lines;
#[cfg(test)]
mod tests;
mod words;

pub use lines::{are_allowed, is_blank, next_line, parted, trim_start};
pub use words::{before_comment, next_word};
