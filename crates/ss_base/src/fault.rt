ghost use Rattle.std.specs.Prelude.{◌≡◌};
ghost use Rattle.ss_base.specs.declared.fault.PutFault.TheVariants as put_faults;
ghost use Rattle.ss_base.specs.declared.fault.LoadFault.TheVariants as load_faults;

use std::alloc::{AllocError, AllocFailed};
use thiserror::Error;

/// A growth found no memory.
#[derive(Clone, Copy, Debug, PartialEq, Eq, Error)]
#[error("out of memory")]
pub struct OutOfMemory;

/// Why a file was not loaded.
#[derive(Clone, Copy, Debug, PartialEq, Eq, Error)]
pub enum LoadFault {
    /// The outside failed, and the count of faults rose.
    #[error("the file could not be read")]
    Failed,
    /// The file is longer than the limit of the call.
    #[error("the file is too long")]
    TooLong,
    /// A growth found no memory.
    #[error("out of memory")]
    OutOfMemory,
}

/// Why bytes were not written.
#[derive(Clone, Copy, Debug, PartialEq, Eq, Error)]
pub enum PutFault {
    /// The outside failed, and the count of faults rose.
    #[error("the bytes could not be written")]
    Failed,
    /// A growth found no memory.
    #[error("out of memory")]
    OutOfMemory,
}

impl From<AllocError> for OutOfMemory {
    fn from(_error: AllocError) -> OutOfMemory {
        OutOfMemory
    }
}

impl<T: Drop> From<AllocFailed<T>> for OutOfMemory {
    fn from(_error: AllocFailed<T>) -> OutOfMemory {
        OutOfMemory
    }
}

impl From<AllocError> for PutFault {
    ghost from_gives = { λ _ fault. fault ≡ put_faults.OutOfMemory };

    fn from(_error: AllocError) -> PutFault {
        PutFault::OutOfMemory
    }
}

impl From<AllocError> for LoadFault {
    ghost from_gives = { λ _ fault. fault ≡ load_faults.OutOfMemory };

    fn from(_error: AllocError) -> LoadFault {
        LoadFault::OutOfMemory
    }
}
