//! Object files: the image of a program, its reader and its writer.
//!
//! `read` answers the image that an object's bytes describe, or the first check that they fail,
//! with its place and its reason. `write` gives an image an object, which is read as it. Both
//! byte orders are read and written. `Text::at` answers the two words of an instruction exactly
//! where there is one. `start_block` lays out the arguments of a program as it finds them at its
//! start.
#![tactic(auto)]

mod fault;
mod format;
mod image;
mod judging;
mod reading;
mod section;
mod start;
#[cfg(test)]
mod tests;
mod words;
mod writing;

pub use fault::{ObjectFault, ObjectWhy};
pub use image::{Image, Kind, Part, Parts, Text};
pub use reading::{checks_are_exact, one_image, read};
pub use start::{StartFault, start_block};
pub use writing::{object_length, write};
