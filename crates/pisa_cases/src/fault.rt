//! Why a line of a file of cases is refused.
use ss_base::OutOfMemory;
use std::alloc::{AllocError, AllocFailed};
use thiserror::Error;

/// Why a line is refused.
#[derive(Debug, Drop, Error)]
pub enum LineFault {
    /// The line begins with no word of the format.
    #[error("no line begins so")]
    Word,
    /// It belongs into a case.
    #[error("this stands outside of a case")]
    Outside,
    /// It belongs between cases.
    #[error("this stands inside a case")]
    Inside,
    /// A line of bytes stands where no bytes are listed.
    #[error("no bytes are listed here")]
    NoBlock,
    /// A number is wanted.
    #[error("this is no number")]
    Number,
    /// Pairs of hexadecimal digits are wanted.
    #[error("these are no bytes")]
    Hex,
    /// The place is not among the bytes that are listed so far.
    #[error("there is no such place")]
    Place,
    /// No bytes of that name were defined.
    #[error("nothing of that name is defined")]
    Undefined,
    /// The bytes so far are no source of an object.
    #[error("the source is refused")]
    Source,
    /// The case says nothing of its ending.
    #[error("the case expects no ending")]
    NoEnding,
    /// The case says nothing of its output.
    #[error("the case expects no output")]
    NoOutput,
    /// The case says nothing of its report.
    #[error("the case expects no report")]
    NoReport,
    /// Memory ran out.
    #[error("memory ran out")]
    OutOfMemory,
}

impl From<AllocError> for LineFault {
    fn from(_error: AllocError) -> LineFault {
        LineFault::OutOfMemory
    }
}

impl<T: Drop> From<AllocFailed<T>> for LineFault {
    fn from(_error: AllocFailed<T>) -> LineFault {
        LineFault::OutOfMemory
    }
}

impl From<OutOfMemory> for LineFault {
    fn from(_error: OutOfMemory) -> LineFault {
        LineFault::OutOfMemory
    }
}
