//! What an event says of a row.
ghost use Rattle.std.specs.Prelude.{◌<◌};

use crate::tables::{
    ACCESSED, COMMITTED, DISPATCHED, FETCHED, ISSUED, Line, PC, QUEUED, RETURNED, SQUASHED, WRITTEN,
};
use ooo_table::{Event, Mark};

/// Where the text of each program stands.
const TEXT: u32 = 0x0040_0000;

/// The column of a mark.
fn column(mark: &Mark) -> usize
    ensures { result < 10 }
{
    match mark {
        Mark::Fetched {
            pc: _,
            next: _,
            queued: _,
        } => FETCHED,
        Mark::Dispatched => DISPATCHED,
        Mark::Issued => ISSUED,
        Mark::Written => WRITTEN,
        Mark::Accessed => ACCESSED,
        Mark::Returned => RETURNED,
        Mark::Committed => COMMITTED,
        Mark::Squashed => SQUASHED,
    }
}

/// Whether a row is of that address and has its words at that cycle, where an event tells.
fn is_of(line: &Line, mark: &Mark) -> bool {
    match mark {
        Mark::Fetched {
            pc,
            next: _,
            queued,
        } => { *queued == line[QUEUED] && u64::from(*pc) == u64::from(TEXT).wrapping_add(line[PC]) }
        _ => true,
    }
}

/// Whether a row has this mark at this cycle.
pub fn has(line: &Line, e: &Event) -> bool {
    line[column(&e.mark)] == e.cycle && is_of(line, &e.mark)
}

/// How many marks a row has: F, and those behind Q that come.
pub fn mark_count(line: &Line) -> u64 {
    1 + line[DISPATCHED..].iter().filter(|at| **at > 0).count() as u64
}
