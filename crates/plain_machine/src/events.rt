//! The events of a cycle.
ghost use Rattle.std.specs.Prelude.{◌≡◌, ◌++◌, ◌&&◌, ℕ, List, OnOk, IfOk, Some, not, nat_lt, length, if◌then◌else◌, ◌∷◌, []};
ghost use Rattle.ooo_table.specs.Row as table;
ghost use Rattle.ooo_table.specs.Row.{is_at, is_before};
ghost use Rattle.ooo_table.specs.Table.{Setting};
ghost use Rattle.ooo_table.specs.Events.{by_row, event_at, fetch_mark};
ghost use Rattle.ooo_plain.specs.Kept.{kept, AreKept, written_of};
ghost use Rattle.plain_machine.specs.declared.events.Kind.TheVariants as kind;
ghost use Rattle.plain_machine.specs.Events.{row_events, events_over};

use ooo_plain::Row;
use ooo_table::{Event, Events, Mark};
use ss_base::OutOfMemory;
use std::alloc::Global;

/// Events that are told together, row by row.
#[derive(Clone, Copy, Debug, PartialEq, Eq)]
pub enum Kind {
    /// Commits.
    Commits,
    /// Write-backs and returns.
    Writes,
    /// Squashes.
    Squashes,
    /// Issues of both kinds.
    Issues,
    /// Dispatches.
    Dispatches,
    /// Fetches.
    Fetches,
}

/// Whether a mark is set to the cycle.
fn is_at(cycle: u64, mark: Option<u64>) -> bool
    ensures { result ≡ is_at cycle mark }
{
    match mark {
        Some(at) => at == cycle,
        None => false,
    }
}

/// Whether a mark is set to a cycle before.
fn is_before(cycle: u64, mark: Option<u64>) -> bool
    ensures { result ≡ is_before cycle mark }
{
    match mark {
        Some(at) => at < cycle,
        None => false,
    }
}

fn both(a: bool, b: bool) -> bool
    ensures { result ≡ (a && b) }
{
    a && b
}

/// Adds the event of a row, where there is one.
fn push_if(
    events: &mut Vec<Event>,
    there: bool,
    cycle: u64,
    row: u64,
    mark: Mark,
) -> Result<(), OutOfMemory>
    ensures { OnOk result (events.new.items ≡ events.old.items ++ (if there then record { cycle = cycle; row = row; mark = mark } ∷ [] else [])) }
{
    if there {
        events.push(Event { cycle, row, mark })?;
    }
    Ok(())
}

/// Whether a write-back or return of this cycle has happened: it is before a cycle, and the row wasn't squashed before.
fn has_happened(row: &Row, cycle: u64, written: u64) -> bool
    ensures { result ≡ (nat_lt cycle written && not (is_before cycle row.now.squashed)) }
{
    let squashed = is_before(cycle, row.squashed);
    cycle < written && !squashed
}

/// Adds the write-back and the return of a row, where they are of the cycle and have happened.
fn push_writes(
    events: &mut Vec<Event>,
    row: &Row,
    cycle: u64,
    written: u64,
    number: u64,
) -> Result<(), OutOfMemory>
    ensures { (set : Setting) (r : table.Row) → row.now ≡ kept set r → OnOk result (events.new.items ≡ events.old.items ++ row_events set kind.Writes written cycle number r) }
{
    let happened = has_happened(row, cycle, written);
    let back = both(row.is_written_at(cycle), happened);
    let returned = both(is_at(cycle, row.returned), happened);
    push_if(events, back, cycle, number, Mark::Written)?;
    push_if(events, returned, cycle, number, Mark::Returned)
}

/// Adds the issues of a row.
fn push_issues(
    events: &mut Vec<Event>,
    row: &Row,
    cycle: u64,
    number: u64,
) -> Result<(), OutOfMemory>
    ensures { (set : Setting) (r : table.Row) (written : ℕ) → row.now ≡ kept set r → OnOk result (events.new.items ≡ events.old.items ++ row_events set kind.Issues written cycle number r) }
{
    push_if(
        events,
        is_at(cycle, row.issued),
        cycle,
        number,
        Mark::Issued,
    )?;
    push_if(
        events,
        is_at(cycle, row.accessed),
        cycle,
        number,
        Mark::Accessed,
    )
}

/// Adds what is told of a row together.
fn push_row(
    events: &mut Vec<Event>,
    kind: Kind,
    row: &Row,
    cycle: u64,
    written: u64,
    number: u64,
) -> Result<(), OutOfMemory>
    ensures { (set : Setting) (r : table.Row) → row.now ≡ kept set r → OnOk result (events.new.items ≡ events.old.items ++ row_events set kind written cycle number r) }
{
    match kind {
        Kind::Commits => {
            push_if(
                events,
                is_at(cycle, row.committed),
                cycle,
                number,
                Mark::Committed,
            )
        }
        Kind::Writes => push_writes(events, row, cycle, written, number),
        Kind::Squashes => {
            push_if(
                events,
                is_at(cycle, row.squashed),
                cycle,
                number,
                Mark::Squashed,
            )
        }
        Kind::Issues => push_issues(events, row, cycle, number),
        Kind::Dispatches => {
            push_if(
                events,
                is_at(cycle, row.dispatched),
                cycle,
                number,
                Mark::Dispatched,
            )
        }
        Kind::Fetches => {
            let mark = Mark::Fetched {
                pc: row.pc,
                next: row.predicted,
                queued: row.queued,
            };
            push_if(events, row.at == cycle, cycle, number, mark)
        }
    }
}

/// Adds what is told of the rows together, in row order.
fn push_rows(
    events: &mut Vec<Event>,
    kind: Kind,
    rows: &[Row],
    cycle: u64,
    written: u64,
) -> Result<(), OutOfMemory>
    ensures { (set : Setting) (olds : List table.Row) → AreKept set rows.now olds
        → OnOk result (events.new.items ≡ events.old.items ++ by_row (row_events set kind written cycle) olds) }
{
    if let [row, older @ ..] = rows {
        push_rows(events, kind, older, cycle, written)?;
        push_row(events, kind, row, cycle, written, older.len() as u64)?;
    }
    Ok(())
}

/// The events of a cycle of these rows, the newest first, where write-backs before a cycle have happened.
pub fn events_of(
    alloc: Global,
    rows: &[Row],
    cycle: u64,
    written: u64,
) -> Result<Events, OutOfMemory>
    ensures { (set : Setting) (olds : List table.Row) → AreKept set rows.now olds → IfOk result (λ events. events ≡ events_over set written cycle olds) }
{
    let mut events = Vec::new(alloc);
    push_rows(&mut events, Kind::Commits, rows, cycle, written)?;
    push_rows(&mut events, Kind::Writes, rows, cycle, written)?;
    push_rows(&mut events, Kind::Squashes, rows, cycle, written)?;
    push_rows(&mut events, Kind::Issues, rows, cycle, written)?;
    push_rows(&mut events, Kind::Dispatches, rows, cycle, written)?;
    push_rows(&mut events, Kind::Fetches, rows, cycle, written)?;
    Ok(Events::from_vec(events))
}
