//! Why a point is refused, and where.
ghost use Rattle.std.specs.Prelude.{◌≡◌};
ghost use Rattle.checkpoint.specs.declared.fault.Stop.TheVariants.{NoMemory};

use std::alloc::{AllocError, AllocFailed};
use thiserror::Error;

/// Which check of a point fails.
#[derive(Clone, Copy, Debug, PartialEq, Eq)]
pub enum PointWhy {
    /// The file ends inside a field.
    Short,
    /// The file does not begin as a point of either version.
    Magic,
    /// The number of instructions is above 10^15.
    Count,
    /// Register 0 is not 0.
    Register,
    /// The mark of an exit is neither 0 nor 1, or there is a code without an exit.
    Ended,
    /// There are more than 65,536 pages.
    Pages,
    /// The byte order is neither 0 nor 1.
    ByteOrder,
    /// A page's number is not above the one before, or is 2^20 or more.
    Order,
    /// Each byte of a page is 0.
    ZeroPage,
    /// Bytes follow the last page.
    Extra,
    /// The point's byte order is not the object's.
    OtherOrder,
    /// The text begins elsewhere or has another length in the object.
    Text,
    /// The bytes of the text are others in the object.
    OtherText,
}

/// Why a point was not read or not restored.
#[derive(Clone, Copy, Debug, PartialEq, Eq, Error)]
pub enum PointFault {
    /// The first check that fails, and its place: for `Short` the length of the file, else the
    /// first byte of the field that was judged, counted from the file's start.
    #[error("no point")]
    Bad { at: u64, why: PointWhy },
    /// A growth found no memory.
    #[error("out of memory")]
    OutOfMemory,
}

/// Why reading stopped, with the place counted from the file's end.
#[derive(Clone, Copy, Debug, PartialEq, Eq)]
pub enum Stop {
    /// A check fails at the field that has this many bytes left from its first byte on.
    Refused { left: usize, why: PointWhy },
    /// A growth found no memory.
    NoMemory,
}

impl From<AllocError> for Stop {
    ghost from_gives = { λ _ stop. stop ≡ NoMemory };

    fn from(_error: AllocError) -> Stop {
        Stop::NoMemory
    }
}

impl<T: Drop> From<AllocFailed<T>> for Stop {
    ghost from_gives = { λ _ stop. stop ≡ NoMemory };

    fn from(_error: AllocFailed<T>) -> Stop {
        Stop::NoMemory
    }
}
