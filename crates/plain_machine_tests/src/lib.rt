//! Tests of the plain machine: the worked tables of short programs come out of it mark by mark. They stand apart from
//! `plain_machine`, since a crate with tests is proved twice, and since programs are sources here.
#![tactic(auto)]

#[cfg(test)]
mod worked;
