//! The assembler and the disassembler of PISA.
//!
//! `assemble` answers the image that a source describes, or its first wrong line with the first
//! reason in the order of reasons; what a source means is stated line by line in `specs/`, from
//! bytes (`Letters`, `Tokens`) over operands and statements (`Operands`, `Statements`) to sections,
//! labels and the two passes (`Sheets`, `Passes`). `disassemble` prints an instruction as the
//! assembler reads it, which `one_instruction_comes_back` states.
#![tactic(auto)]

mod assembling;
mod labels;
mod laws;
mod letters;
mod operands;
mod passes;
mod printing;
mod sheet;
mod slots;
mod statements;
mod tokens;

pub use assembling::assemble;
pub use laws::{
    branches_reach_their_targets, jumps_reach_their_targets, one_instruction_comes_back,
};
pub use printing::disassemble;
pub use ss_base::{AsmFault, TextWhy};

#[cfg(test)]
mod tests;
