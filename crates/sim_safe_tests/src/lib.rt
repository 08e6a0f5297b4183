//! Tests of the functional machine: small programs, runs and recordings, lines of text and counts,
//! against values that were worked out by hand. They stand apart from `sim_safe`, since a crate with
//! tests is proved twice.
#![tactic(auto)]

#[cfg(test)]
mod programs;
#[cfg(test)]
mod runs;
#[cfg(test)]
mod texts;
