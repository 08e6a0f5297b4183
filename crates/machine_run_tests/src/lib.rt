//! Tests of runs on sim-outorder's machine: the files of whole runs come out byte for byte. They stand apart from
//! `machine_run`, since a crate with tests is proved twice, and since programs are sources here.
#![tactic(auto)]

#[cfg(test)]
mod runs;
