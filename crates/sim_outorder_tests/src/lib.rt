//! Tests of sim-outorder's machine: worked tables of short programs come out of it mark by mark. They stand apart from
//! `sim_outorder`, since a crate with tests is proved twice, and since programs are sources here.
#![tactic(auto)]

#[cfg(test)]
mod tables;
#[cfg(test)]
mod worked;
