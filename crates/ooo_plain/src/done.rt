//! Which rows produce what a row reads, and when a row is done.
ghost use Rattle.std.specs.Prelude.{◌≡◌, ℕ, List, ◌&&◌, is_some, if◌then◌else◌, option_map};
ghost use Rattle.std.specs.List.{list_any};
ghost use Rattle.ooo_table.specs.Row as table;
ghost use Rattle.ooo_table.specs.Row.{is_before};
ghost use Rattle.ooo_table.specs.Execution.{same_place, unit_latency};
ghost use Rattle.ooo_table.specs.Table.{Setting};
ghost use Rattle.ooo_table.specs.Path.{execution};
ghost use Rattle.ooo_table.specs.Done.{unsquashed_before, producer, has_produced, have_produced, done_before};
ghost use Rattle.ooo_plain.specs.Kept.{kept, AreKept};

use crate::row::{Row, both, is_before};
use pisa_isa::Place;

fn same_place(a: Place, b: Place) -> bool
    ensures { result ≡ same_place a b }
{
    match (a, b) {
        (Place::Reg(a), Place::Reg(b)) => a == b,
        (Place::Hi, Place::Hi) | (Place::Lo, Place::Lo) => true,
        _ => false,
    }
}

/// Whether the place is among these.
fn has_place(places: &[Place], place: Place) -> bool
    ensures { result ≡ list_any (λ w. same_place w place) places.now }
{
    places.iter().any(|other| same_place(*other, place))
}

/// Whether the row isn't squashed before the cycle, or isn't squashed at all where none is given.
fn unsquashed_before(row: &Row, cycle: Option<u64>) -> bool
    ensures { (r : table.Row) → row.now.squashed ≡ r.squashed → result ≡ unsquashed_before cycle r }
{
    match cycle {
        None => row.squashed.is_none(),
        Some(cycle) => !is_before(cycle, row.squashed),
    }
}

/// Whether the row produces the place for a row that was dispatched in this cycle.
fn produces(row: &Row, reader: Option<u64>, place: Place) -> bool
    ensures { (set : Setting) (o : table.Row) → row.now ≡ kept set o
        → result ≡ (list_any (λ w. same_place w place) (execution set o).writes && is_some o.dispatched && unsquashed_before reader o) }
{
    let writes = has_place(row.writes.as_slice(), place);
    let stays = unsquashed_before(row, reader);
    both(both(writes, row.dispatched.is_some()), stays)
}

/// Whether the place has no producer among these rows, or one that is done before the cycle.
fn has_produced(older: &[Row], reader: Option<u64>, place: Place, cycle: u64) -> bool
    ensures { (set : Setting) (olds : List table.Row) (r : table.Row) → AreKept set older.now olds → reader ≡ r.dispatched
        → result ≡ has_produced set cycle (producer set olds r place) }
{
    match older {
        [] => true,
        [row, others @ ..] => {
            if produces(row, reader, place) {
                row.is_finished_before(cycle)
            } else {
                has_produced(others, reader, place, cycle)
            }
        }
    }
}

/// Whether that holds of each of these places.
pub fn have_produced(older: &[Row], reader: Option<u64>, places: &[Place], cycle: u64) -> bool
    ensures { (set : Setting) (olds : List table.Row) (r : table.Row) → AreKept set older.now olds → reader ≡ r.dispatched
        → result ≡ have_produced set cycle olds r places.now }
{
    match places {
        [] => true,
        [place, others @ ..] => {
            has_produced(older, reader, *place, cycle)
                && have_produced(older, reader, others, cycle)
        }
    }
}

/// Whether the row is done before the cycle.
pub fn is_done_before(older: &[Row], row: &Row, cycle: u64) -> bool
    ensures { (set : Setting) (olds : List table.Row) (r : table.Row) → AreKept set older.now olds → row.now ≡ kept set r
        → result ≡ done_before set cycle olds r }
{
    if row.store {
        row.is_written_before(cycle)
            && have_produced(older, row.dispatched, row.second.as_slice(), cycle)
    } else {
        row.is_finished_before(cycle)
    }
}
