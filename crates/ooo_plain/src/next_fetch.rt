//! The row that is fetched next, but for the state on which it acts.
ghost use Rattle.std.specs.Prelude.{◌≡◌, ◌<◌, ◌≤◌, ◌^◌, ℕ, List, suc, max, length, count_by, if◌then◌else◌};
ghost use Rattle.ooo_table.specs.Row as table;
ghost use Rattle.ooo_table.specs.Table.{Setting, Table};
ghost use Rattle.ooo_table.specs.Path.{keeps_fetching, next_fetch_after};
ghost use Rattle.ooo_table.specs.Done.{waiting};
ghost use Rattle.ooo_table.specs.Recovery.{recover};
ghost use Rattle.ooo_table.specs.Fetch.{may_fetch};
ghost use Rattle.ooo_plain.specs.Kept.{kept, AreKept};
ghost use Rattle.ooo_plain.specs.NextFetch.{kept_next};

use crate::recover::redirected;
use crate::row::{Row, both};
use ooo_table::OooConfig;

/// The row that is fetched next.
#[derive(Clone, Copy, Debug)]
pub struct NextFetch {
    /// Its address.
    pub pc: u32,
    /// The earliest cycle of its fetch.
    pub earliest: u64,
    /// Whether it is on the right path.
    pub right: bool,
}

/// How many of the rows are waiting.
fn waiting_rows(rows: &[Row]) -> usize
    ensures count { (set : Setting) (olds : List table.Row) → AreKept set rows.now olds → result ≡ count_by waiting olds }
    ensures bound { result ≤ length rows.now }
{
    match rows {
        [] => 0,
        [row, others @ ..] => {
            let more = waiting_rows(others);
            if row.is_waiting() { more + 1 } else { more }
        }
    }
}

/// Whether the next row may be fetched in the cycle.
pub fn may_fetch(config: &OooConfig, rows: &[Row], next: &NextFetch, cycle: u64) -> bool
    ensures { (set : Setting) (t : Table) → config.now ≡ set.config → AreKept set rows.now t.rows → next.now ≡ kept_next t.next_fetch
        → result ≡ may_fetch set cycle t }
{
    let place = waiting_rows(rows) < config.ifq as usize;
    let due = next.earliest <= cycle;
    both(due, place)
}

/// Where fetching goes on after the recovery of the cycle, if there is one.
pub fn redirect(config: &OooConfig, rows: &[Row], next: &NextFetch, cycle: u64) -> NextFetch
    requires { cycle < 2 ^ 62 }
    ensures { (set : Setting) (t : Table) → config.now ≡ set.config → AreKept set rows.now t.rows → next.now ≡ kept_next t.next_fetch
        → result ≡ kept_next (recover set cycle t).next_fetch }
{
    match redirected(rows, cycle) {
        None => *next,
        Some(pc) => NextFetch {
            pc,
            earliest: cycle + u64::from(config.penalty),
            right: true,
        },
    }
}

/// Whether fetching goes on behind the row in the cycle of its fetch.
fn keeps_fetching(row: &Row, cycle: u64) -> bool
    ensures { (set : Setting) (r : table.Row) → row.now ≡ kept set r → result ≡ keeps_fetching set cycle r }
{
    let there = row.queued == cycle;
    let behind = row.predicted == row.pc.wrapping_add(8);
    both(there, behind)
}

fn earliest(keeps: bool, cycle: u64, queued: u64) -> u64
    requires { cycle < 2 ^ 62 }
    ensures { result ≡ (if keeps then cycle else max (suc cycle) queued) }
{
    if keeps {
        cycle
    } else {
        (cycle + 1).max(queued)
    }
}

/// Where fetching goes on behind a row that was fetched in the cycle.
pub fn next_fetch_after(row: &Row, cycle: u64) -> NextFetch
    requires { cycle < 2 ^ 62 }
    ensures { (set : Setting) (r : table.Row) → row.now ≡ kept set r → result ≡ kept_next (next_fetch_after set cycle r) }
{
    let keeps = keeps_fetching(row, cycle);
    let follows = row.predicted == row.next;
    let goes_on = both(row.right, !row.stops);
    NextFetch {
        pc: row.predicted,
        earliest: earliest(keeps, cycle, row.queued),
        right: both(goes_on, follows),
    }
}
