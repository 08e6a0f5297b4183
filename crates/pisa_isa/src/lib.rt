//! The instructions of PISA: one table of all operations, and the coding in two words.
//!
//! A row of the table gives an operation's name, opcode, operands, functional unit and kind;
//! everything else is derived from it by one rule. The crate promises that `decode` answers exactly
//! the instruction that two words code and otherwise the first reason why there is none, that
//! `encode` is its inverse, and that the reads, writes and classes of an instruction are those of
//! its row. No call takes memory.
#![tactic(auto)]

mod classes;
mod coding;
mod fields;
mod instr;
mod laws;
mod lookup;
mod places;
mod table;
mod targets;

pub use classes::{
    AccessKind, ControlKind, UnitClass, access, control, is_float, name, number, operands, unit,
};
pub use coding::{decode, encode};
pub use instr::{Illegal, IllegalWhy, Instr, Op};
pub use laws::{
    coding_is_exact, encoding_is_least, opcodes_are_unique, places_are_named, refusals_are_exact,
    registers_are_listed_once, system_calls_have_no_places, targets_are_words,
};
pub use places::{Place, reads_main, reads_second, writes};
pub use table::Operands;
pub use targets::{branch_target, jump_target};

#[cfg(test)]
mod tests;
