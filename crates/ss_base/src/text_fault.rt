//! Why a configuration or a source was refused.
ghost use Rattle.std.specs.Prelude.{◌≡◌};
ghost use Rattle.ss_base.specs.declared.text_fault.AsmFault.TheVariants as faults;

use std::alloc::AllocError;
use thiserror::Error;

/// What is wrong with a line of text. Of several faults that one pass finds in a line, the one that
/// stands first here is told.
#[derive(Clone, Copy, Debug, PartialEq, Eq)]
pub enum TextWhy {
    /// A byte is neither a blank nor printable ASCII.
    Char,
    /// An option is unknown; in a configuration alone.
    Option,
    /// An option is another command's; in a configuration alone.
    NotHere,
    /// An option, a label, a section or `.entry` stands a second time.
    Twice,
    /// A value or an operand is missing or empty.
    Missing,
    /// A number was wanted, and something else stands there.
    Number,
    /// A number is outside its limits, or a target is out of reach.
    Range,
    /// A value or an operand has another shape.
    Form,
    /// Something stands behind the last value or operand.
    Extra,
    /// There is no such statement; in a source alone, as the three that follow.
    Mnemonic,
    /// A statement or a label stands in a wrong section, or in none.
    Section,
    /// No line has the label.
    Label,
    /// The parts are no image that an object can hold.
    Layout,
}

/// Why a source was not assembled.
#[derive(Clone, Copy, Debug, PartialEq, Eq, Error)]
pub enum AsmFault {
    /// The first wrong line, counted from 1, or 0 where only the whole is wrong, and its reason.
    #[error("line {line}: {why:?}")]
    Bad { line: u32, why: TextWhy },
    /// A growth found no memory.
    #[error("out of memory")]
    OutOfMemory,
}

impl From<AllocError> for AsmFault {
    ghost from_gives = { λ _ fault. fault ≡ faults.OutOfMemory };

    fn from(_error: AllocError) -> AsmFault {
        AsmFault::OutOfMemory
    }
}
