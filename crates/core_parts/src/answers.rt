//! What stages answer.
use pisa_step::Cause;

/// An operation that issued.
#[derive(Clone, Copy, Debug, PartialEq, Eq)]
pub enum Issued {
    /// The main operation of the row.
    Main(u64),
    /// The access of the row, a load, and whether an older store gives its value.
    Access(u64, bool),
}

impl Default for Issued {
    /// Row 0, which fills the unused cells of an `ArrayVec` and is never read there.
    fn default() -> Issued {
        Issued::Main(0)
    }
}

/// What a turn of the dispatch stage did.
#[derive(Clone, Copy, Debug, PartialEq, Eq)]
pub enum Dispatched {
    /// The row was dispatched, and it is a system call or none.
    Row(u64, bool),
    /// No row is dispatched any more in this cycle.
    Over,
    /// The machine stops here, for this cause.
    Stops(Cause),
    /// The state needed memory that there isn't.
    OutOfMemory,
}
