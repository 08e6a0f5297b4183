//! What a cycle answers.
use pisa_step::Cause;

/// How a cycle left the machine.
#[derive(Clone, Copy, Debug, PartialEq, Eq)]
pub enum Turn {
    /// The next cycle may come.
    Going,
    /// The last commit of the budget came, and was no exit.
    Spent,
    /// The program has exited or stops, for this cause.
    Ended(Cause),
}

/// Why a cycle was given up.
#[derive(Clone, Copy, Debug, PartialEq, Eq, Drop)]
pub enum CoreFault<F> {
    /// The watch couldn't go on.
    Watch(F),
    /// The state needed memory that there isn't.
    OutOfMemory,
}
