//! Why a trace is refused, and where.
ghost use Rattle.std.specs.Prelude.{◌≡◌};
ghost use Rattle.event_trace.specs.declared.fault.Stop.TheVariants.{NoMemory};

use std::alloc::{AllocError, AllocFailed};
use thiserror::Error;

/// Which check of a trace fails.
#[derive(Clone, Copy, Debug, PartialEq, Eq)]
pub enum TraceWhy {
    /// The file ends inside a field.
    Short,
    /// The file does not begin as a trace of either version.
    Magic,
    /// There are more than 1,000,000 records.
    Count,
    /// The byte order is neither 0 nor 1.
    ByteOrder,
    /// A record's number of instructions is not above the one before, or is above 10^15.
    Order,
    /// A record's kind is none of the three.
    Kind,
    /// A record has more than 8 registers or 16 blocks in a list.
    Many,
    /// Bytes between the counts and the code are not zero.
    Pad,
    /// An exit has outputs, or another call has an exit code.
    Exit,
    /// A register is not 1 to 31, or not above the one before it in its list.
    Register,
    /// A block's length is not 1 to 65,536, or it ends above 2^32.
    Block,
    /// Bytes follow the last record.
    Extra,
    /// The trace's byte order is not the object's. Told by those who have the object, never by `read`.
    OtherOrder,
}

/// Why a trace was not read.
#[derive(Clone, Copy, Debug, PartialEq, Eq, Error)]
pub enum TraceFault {
    /// The first check that fails, and its place: for `Short` the length of the file, else the
    /// first byte of the field that was judged, counted from the file's start.
    #[error("no trace")]
    Bad { at: u64, why: TraceWhy },
    /// A growth found no memory.
    #[error("out of memory")]
    OutOfMemory,
}

/// Why reading stopped, with the place counted from the file's end.
#[derive(Clone, Copy, Debug, PartialEq, Eq)]
pub enum Stop {
    /// A check fails at the field that has this many bytes left from its first byte on.
    Refused { left: usize, why: TraceWhy },
    /// A growth found no memory.
    NoMemory,
}

impl From<AllocError> for Stop {
    ghost from_gives = { λ _ stop. stop ≡ NoMemory };

    fn from(_error: AllocError) -> Stop {
        Stop::NoMemory
    }
}

impl<T: Drop> From<AllocFailed<T>> for Stop {
    ghost from_gives = { λ _ stop. stop ≡ NoMemory };

    fn from(_error: AllocFailed<T>) -> Stop {
        Stop::NoMemory
    }
}
