//! All that the program `pisa` does: the command that the words name, from words to files.
//!
//! `simulate` does it over any files and streams. Its contract is one relation, of which the others
//! are consequences: the command loads its files, what is found in them decides its outcome, and that
//! is answered and written in one order, or up to the write at which a fault ends it.
#![tactic(auto)]

mod ending;
mod laws;
mod request;
#[cfg(test)]
mod tests;
mod top;

pub use answers::Unbuilt;
pub use ending::Ending;
pub use laws::{answers_exclude_each_other, counts_tell, each_has_an_outcome};
pub use top::simulate;
