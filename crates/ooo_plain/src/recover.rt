//! The recovery stage: the squashes, and the row behind which fetching goes on.
ghost use Rattle.std.specs.Prelude.{◌≡◌, ◌<◌, ◌≤◌, length, ◌&&◌, ℕ, List, find, is_none, option_map};
ghost use Rattle.std.specs.List.{list_any};
ghost use Rattle.ooo_table.specs.Row as table;
ghost use Rattle.ooo_table.specs.Row.{is_at, sweep};
ghost use Rattle.ooo_table.specs.Table.{Setting};
ghost use Rattle.ooo_table.specs.Path.{execution};
ghost use Rattle.ooo_table.specs.Recovery.{recovers, squash_row};
ghost use Rattle.ooo_plain.specs.Kept.{kept, AreKept, Turned, Swept, written_of};

use crate::row::{Row, both, is_unset};

/// Whether the row writes back in the cycle and was mispredicted.
pub fn recovers(row: &Row, cycle: u64) -> bool
    ensures { result ≡ (row.now.mispredicted && is_at cycle (written_of row.now)) }
{
    row.mispredicted && row.is_written_at(cycle)
}

fn any_recovers(older: &[Row], cycle: u64) -> bool
    ensures { result ≡ list_any (λ o. o.mispredicted && is_at cycle (written_of o)) older.now }
{
    older.iter().any(|o| recovers(o, cycle))
}

/// Whether the row is squashed in the cycle, behind the rows before it.
fn is_squashed(older: &[Row], row: &Row, cycle: u64) -> bool
    ensures { (set : Setting) (olds : List table.Row) (r : table.Row) → AreKept set older.now olds → row.now ≡ kept set r
        → result ≡ (list_any (recovers set cycle) olds && is_none r.squashed) }
{
    both(any_recovers(older, cycle), is_unset(row.squashed))
}

/// The turn of the row at a place.
fn squash_turn(rows: &mut [Row], at: usize, cycle: u64)
    requires { at < length rows.old }
    ensures { (set : Setting) → Turned set (squash_row set cycle) at rows.old rows.new }
{
    let all = &rows[..];
    if is_squashed(&all[at + 1..], &all[at], cycle) {
        rows[at].squashed = Some(cycle);
    }
}

/// The turns of the rows from a place on.
fn squash_from(rows: &mut [Row], at: usize, cycle: u64)
    requires { at ≤ length rows.old }
    ensures { (set : Setting) → Swept set (squash_row set cycle) at rows.old rows.new }
{
    if at < rows.len() {
        squash_from(rows, at + 1, cycle);
        squash_turn(rows, at, cycle);
    }
}

/// Each row in row order.
pub fn squash(rows: &mut [Row], cycle: u64)
    ensures { (set : Setting) (olds : List table.Row) → AreKept set rows.old olds
        → AreKept set rows.new (sweep (squash_row set cycle) olds) }
{
    squash_from(rows, 0, cycle);
}

/// The address that follows the newest row that recovers, if there is one.
pub fn redirected(rows: &[Row], cycle: u64) -> Option<u32>
    ensures { (set : Setting) (olds : List table.Row) → AreKept set rows.now olds
        → result ≡ option_map (λ m. (execution set m).next) (find (recovers set cycle) olds) }
{
    match rows {
        [] => None,
        [row, older @ ..] => {
            if recovers(row, cycle) {
                Some(row.next)
            } else {
                redirected(older, cycle)
            }
        }
    }
}
