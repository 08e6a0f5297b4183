//! Why bytes are refused.

ghost use Rattle.std.specs.Prelude.{◌≡◌};
ghost use Rattle.ecoff_load.specs.declared.fault.ObjectFault.TheVariants as faults;

use std::alloc::AllocError;
use thiserror::Error;

/// Which check of an object fails.
#[derive(Clone, Copy, Debug, PartialEq, Eq)]
pub enum ObjectWhy {
    /// The file ends inside a header or before the end of a section's bytes.
    Short,
    /// The first two bytes are of neither byte order.
    Magic,
    /// There are no sections, or more than 16.
    Sections,
    /// The size of the optional header is not 56.
    OptHeader,
    /// A section is text, and one before it was.
    TextTwice,
    /// The address of the text is no multiple of 8.
    TextAlign,
    /// The size of the text is not 8 to 4,194,304.
    TextSize,
    /// A section ends above 0x7ff00000.
    Range,
    /// No section is text.
    NoText,
    /// Bytes of another section would lie on the text's.
    Overlap,
}

/// Why an object was not read.
#[derive(Clone, Copy, Debug, PartialEq, Eq, Error)]
pub enum ObjectFault {
    /// The first check that fails, and its place: for `Short` the length of the file, else the
    /// first byte of the field that was judged, counted from the file's start.
    #[error("no object")]
    Bad { at: u64, why: ObjectWhy },
    /// A growth found no memory.
    #[error("out of memory")]
    OutOfMemory,
}

/// A check that fails.
#[derive(Clone, Copy, Debug, PartialEq, Eq)]
pub struct Refusal {
    /// The place in the file.
    pub at: u64,
    /// The reason.
    pub why: ObjectWhy,
}

impl From<AllocError> for ObjectFault {
    ghost from_gives = { λ _ fault. fault ≡ faults.OutOfMemory };

    fn from(_error: AllocError) -> ObjectFault {
        ObjectFault::OutOfMemory
    }
}

impl From<Refusal> for ObjectFault {
    ghost from_gives = { λ refusal fault. fault ≡ faults.Bad refusal.at refusal.why };

    fn from(refusal: Refusal) -> ObjectFault {
        ObjectFault::Bad {
            at: refusal.at,
            why: refusal.why,
        }
    }
}
