//! What each integer instruction of PISA does, over any machine and in both byte orders.
//!
//! A machine is whatever reads and writes registers and memory under the laws of `Machine`. The
//! crate promises that `effect` answers exactly what the table of operations says, an instruction's
//! changes or the first cause for which it stops, and leaves the machine as it is; that the changes
//! can be made and write no byte of text; and that `apply` makes them and changes nothing else. No
//! call takes memory.
#![tactic(auto)]

mod action;
mod cause;
mod changes;
mod effects;
mod laws;
mod machine;
mod memory;
#[cfg(test)]
mod tests;
mod words;
mod writes;

pub use cause::{Cause, Field};
pub use changes::{Changes, MemWrite, TextRange};
pub use effects::effect;
pub use laws::{
    effects_access_what_is_listed, effects_depend_on_what_is_read, effects_go_where_control_says,
    effects_write_what_is_listed, effects_write_where_they_can, part_loads_make_words,
};
pub use machine::Machine;
pub use writes::apply;
