//! Why bytes are not read as a log.
ghost use Rattle.std.specs.Prelude.{◌≡◌};
ghost use Rattle.pipetrace.specs.declared.fault.PipeFault.TheVariants as faults;

use std::alloc::{AllocError, AllocFailed};
use thiserror::Error;

/// Why bytes are not read as a log.
#[derive(Clone, Copy, Debug, PartialEq, Eq, Error)]
pub enum PipeFault {
    /// A line breaks a rule, or is missing.
    #[error("line {line} is outside of the grammar")]
    Bad {
        /// The first such line, counted from 1.
        line: u64,
    },
    /// A growth found no memory.
    #[error("out of memory")]
    OutOfMemory,
}

impl From<AllocError> for PipeFault {
    ghost from_gives = { λ _ fault. fault ≡ faults.OutOfMemory };

    fn from(_error: AllocError) -> PipeFault {
        PipeFault::OutOfMemory
    }
}

impl<T: Drop> From<AllocFailed<T>> for PipeFault {
    ghost from_gives = { λ _ fault. fault ≡ faults.OutOfMemory };

    fn from(_error: AllocFailed<T>) -> PipeFault {
        PipeFault::OutOfMemory
    }
}
