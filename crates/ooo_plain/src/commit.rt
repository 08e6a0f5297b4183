//! The commit stage.
ghost use Rattle.std.specs.Prelude.{◌≡◌, ◌<◌, ◌≤◌, ◌+◌, ◌∷◌, length, drop, ◌&&◌, ◌||◌, ℕ, List, Some, None, not, nat_lt, count_by, is_some, if◌then◌else◌};
ghost use Rattle.std.specs.List.{list_all};
ghost use Rattle.ooo_table.specs.Row as table;
ghost use Rattle.ooo_table.specs.Row.{is_at, sweep};
ghost use Rattle.ooo_table.specs.Table.{Setting};
ghost use Rattle.ooo_table.specs.Commit.{commits, commit_row};
ghost use Rattle.ooo_table.specs.Ends.{is_last, last_commit};
ghost use Rattle.ooo_plain.specs.Kept.{kept, AreKept, Turned, Swept};
ghost use Rattle.ooo_plain.specs.Until.{committing, SweptUntil};

use crate::done::is_done_before;
use crate::row::{Row, both, either, is_at, is_set, is_unset};
use ooo_table::OooConfig;

fn right_rows_committed(older: &[Row]) -> bool
    ensures { result ≡ list_all (λ o. not o.right || is_some o.committed) older.now }
{
    older.iter().all(|o| !o.right || o.committed.is_some())
}

fn committed_at(older: &[Row], cycle: u64) -> usize
    ensures { result ≡ count_by (λ o. is_at cycle o.committed) older.now }
{
    older.iter().filter(|o| is_at(cycle, o.committed)).count()
}

fn stores_committed_at(older: &[Row], cycle: u64) -> usize
    ensures { result ≡ count_by (λ o. is_at cycle o.committed && o.store) older.now }
{
    older
        .iter()
        .filter(|o| is_at(cycle, o.committed) && o.store)
        .count()
}

/// Whether the row commits in the cycle, behind the rows before it as they are by then.
fn commits(config: &OooConfig, older: &[Row], row: &Row, cycle: u64) -> bool
    ensures { (set : Setting) (olds : List table.Row) (r : table.Row) → config.now ≡ set.config → AreKept set older.now olds → row.now ≡ kept set r
        → result ≡ commits set cycle olds r }
{
    let fresh = both(row.right, is_unset(row.committed));
    let done = is_done_before(older, row, cycle);
    let in_order = right_rows_committed(older);
    let width = committed_at(older, cycle) < config.commit as usize;
    let port = stores_committed_at(older, cycle) < config.ports as usize;
    let ready = both(both(fresh, done), in_order);
    both(both(ready, width), either(!row.store, port))
}

/// The turn of the row at a place.
fn commit_turn(config: &OooConfig, rows: &mut [Row], at: usize, cycle: u64)
    requires { at < length rows.old }
    ensures { (set : Setting) → config.now ≡ set.config → Turned set (commit_row set cycle) at rows.old rows.new }
{
    let all = &rows[..];
    if commits(config, &all[at + 1..], &all[at], cycle) {
        rows[at].committed = Some(cycle);
    }
}

/// The turns of the rows from a place on.
fn commit_from(config: &OooConfig, rows: &mut [Row], at: usize, cycle: u64)
    requires { at ≤ length rows.old }
    ensures { (set : Setting) → config.now ≡ set.config → Swept set (commit_row set cycle) at rows.old rows.new }
{
    if at < rows.len() {
        commit_from(config, rows, at + 1, cycle);
        commit_turn(config, rows, at, cycle);
    }
}

/// Each row in row order.
pub fn commit(config: &OooConfig, rows: &mut [Row], cycle: u64)
    ensures { (set : Setting) (olds : List table.Row) → config.now ≡ set.config → AreKept set rows.old olds
        → AreKept set rows.new (sweep (commit_row set cycle) olds) }
{
    commit_from(config, rows, 0, cycle);
}

/// How many of the rows have committed.
fn committed_rows(rows: &[Row]) -> usize
    ensures count { (set : Setting) (olds : List table.Row) → AreKept set rows.now olds → result ≡ count_by (λ o. is_some o.committed) olds }
    ensures bound { result ≤ length rows.now }
{
    match rows {
        [] => 0,
        [row, others @ ..] => {
            let more = committed_rows(others);
            if is_set(row.committed) {
                more + 1
            } else {
                more
            }
        }
    }
}

/// Whether the run ends with the row, which is the first of these: it committed in the cycle, and it is an exit or the
/// `most`-th row that committed.
fn is_last(row: &Row, rows: &[Row], cycle: u64, most: u64) -> bool
    ensures { (set : Setting) (olds : List table.Row) (r : table.Row) → row.now ≡ kept set r → AreKept set rows.now (r ∷ olds)
        → result ≡ is_last set most cycle olds r }
{
    let spent = committed_rows(rows) as u64 == most;
    both(is_at(cycle, row.committed), either(row.exit, spent))
}

/// The number of the row at a place, where the run ends with it.
fn last_at(rows: &[Row], at: usize, cycle: u64, most: u64) -> Option<u64>
    requires { at < length rows.now }
    ensures { (set : Setting) (olds : List table.Row) (r : table.Row) → AreKept set (drop at rows.now) (r ∷ olds)
        → result ≡ (if is_last set most cycle olds r then Some (length olds) else None) }
{
    if is_last(&rows[at], &rows[at..], cycle, most) {
        Some((rows.len() - at - 1) as u64)
    } else {
        None
    }
}

/// The turn of the row at a place, unless the run ends with an older row.
fn until_turn(
    config: &OooConfig,
    rows: &mut [Row],
    at: usize,
    cycle: u64,
    most: u64,
    ended: Option<u64>,
) -> Option<u64>
    requires { at < length rows.old }
    ensures { (set : Setting) (first : List Row) → config.now ≡ set.config → SweptUntil set cycle most (at + 1) first rows.old ended
        → SweptUntil set cycle most at first rows.new result }
{
    match ended {
        Some(row) => Some(row),
        None => {
            commit_turn(config, rows, at, cycle);
            last_at(rows, at, cycle, most)
        }
    }
}

/// The turns of the rows from a place on, up to the one that ends the run.
fn commit_until_from(
    config: &OooConfig,
    rows: &mut [Row],
    at: usize,
    cycle: u64,
    most: u64,
) -> Option<u64>
    requires { at ≤ length rows.old }
    ensures { (set : Setting) → config.now ≡ set.config → SweptUntil set cycle most at rows.old rows.new result }
{
    if at < rows.len() {
        let ended = commit_until_from(config, rows, at + 1, cycle, most);
        until_turn(config, rows, at, cycle, most, ended)
    } else {
        None
    }
}

/// Each row in row order, up to the one with which the run ends: an exit, or the `most`-th row that commits at all. The
/// answer is its number, which is how many rows were fetched before it; `None` where the run doesn't end in this stage.
pub fn commit_until(config: &OooConfig, rows: &mut [Row], cycle: u64, most: u64) -> Option<u64>
    ensures last { (set : Setting) (olds : List table.Row) → config.now ≡ set.config → AreKept set rows.old olds
        → result ≡ last_commit set most cycle (sweep (commit_row set cycle) olds) }
    ensures rows { (set : Setting) (olds : List table.Row) → config.now ≡ set.config → AreKept set rows.old olds
        → AreKept set rows.new (sweep (committing set cycle result) olds) }
{
    commit_until_from(config, rows, 0, cycle, most)
}
