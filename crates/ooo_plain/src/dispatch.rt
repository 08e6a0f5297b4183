//! The dispatch stage.
ghost use Rattle.std.specs.Prelude.{◌≡◌, ◌<◌, ◌≤◌, length, ◌&&◌, ◌||◌, ◌==◌, ℕ, List, not, nat_lt, count_by, is_some, is_none, if◌then◌else◌};
ghost use Rattle.std.specs.List.{list_all, list_any};
ghost use Rattle.ooo_table.specs.Row as table;
ghost use Rattle.ooo_table.specs.Row.{is_at, every, sweep};
ghost use Rattle.ooo_table.specs.Table.{Setting};
ghost use Rattle.ooo_table.specs.Execution.{uses_memory};
ghost use Rattle.ooo_table.specs.Path.{execution};
ghost use Rattle.ooo_table.specs.Done.{live};
ghost use Rattle.ooo_table.specs.Dispatch.{is_first, has_place, may_enter, dispatches, dispatch_row, stops_machine};
ghost use Rattle.ooo_plain.specs.Kept.{kept, AreKept, Turned, Swept, is_live, is_waiting};

use crate::row::{Row, both, either, is_at, is_set};
use ooo_table::OooConfig;

/// How many of the rows are live.
pub fn live_rows(older: &[Row]) -> usize
    ensures count { (set : Setting) (olds : List table.Row) → AreKept set older.now olds → result ≡ count_by live olds }
    ensures bound { result ≤ length older.now }
{
    match older {
        [] => 0,
        [row, others @ ..] => {
            let more = live_rows(others);
            if row.is_live() { more + 1 } else { more }
        }
    }
}

/// How many of the rows are live loads and stores.
fn live_accesses(older: &[Row]) -> usize
    ensures count { (set : Setting) (olds : List table.Row) → AreKept set older.now olds
        → result ≡ count_by (λ o. live o && uses_memory (execution set o).memory) olds }
    ensures bound { result ≤ length older.now }
{
    match older {
        [] => 0,
        [row, others @ ..] => {
            let more = live_accesses(others);
            if row.is_live_access() { more + 1 } else { more }
        }
    }
}

fn none_waits(older: &[Row]) -> bool
    ensures { result ≡ list_all (λ o. not (is_waiting o)) older.now }
{
    older.iter().all(|o| !o.is_waiting())
}

fn dispatched_at(older: &[Row], cycle: u64) -> usize
    ensures { result ≡ count_by (λ o. is_at cycle o.dispatched) older.now }
{
    older.iter().filter(|o| is_at(cycle, o.dispatched)).count()
}

fn call_dispatched_at(older: &[Row], cycle: u64) -> bool
    ensures { result ≡ list_any (λ o. is_at cycle o.dispatched && o.call) older.now }
{
    older.iter().any(|o| is_at(cycle, o.dispatched) && o.call)
}

fn exit_dispatched(older: &[Row]) -> bool
    ensures { result ≡ list_any (λ o. is_some o.dispatched && o.exit) older.now }
{
    older.iter().any(|o| is_set(o.dispatched) && o.exit)
}

/// Whether the row is the first waiting one, and its words were there before the cycle.
fn is_first(older: &[Row], row: &Row, cycle: u64) -> bool
    ensures { (set : Setting) (olds : List table.Row) (r : table.Row) → AreKept set older.now olds → row.now ≡ kept set r
        → result ≡ is_first set cycle olds r }
{
    let queued = row.queued < cycle;
    both(both(row.is_waiting(), queued), none_waits(older))
}

/// Whether the unit has a place, and the load/store queue has one where the row is a load or store.
fn has_place(config: &OooConfig, older: &[Row], row: &Row) -> bool
    ensures { (set : Setting) (olds : List table.Row) (r : table.Row) → config.now ≡ set.config → AreKept set older.now olds → row.now ≡ kept set r
        → result ≡ has_place set olds r }
{
    let unit = live_rows(older) < config.ruu as usize;
    let queue = live_accesses(older) < config.lsq as usize;
    both(unit, either(!row.uses_memory(), queue))
}

/// Whether the row may enter the unit behind these rows.
fn may_enter(older: &[Row], row: &Row) -> bool
    ensures { (set : Setting) (olds : List table.Row) (r : table.Row) → AreKept set older.now olds → row.now ≡ kept set r
        → result ≡ may_enter set olds r }
{
    if row.right {
        let empty = live_rows(older) == 0;
        both(!row.stops, either(!row.call, empty))
    } else {
        !row.call
    }
}

/// Whether the row is dispatched in the cycle, behind the rows before it as they are by then.
fn dispatches(config: &OooConfig, older: &[Row], row: &Row, cycle: u64) -> bool
    ensures { (set : Setting) (olds : List table.Row) (r : table.Row) → config.now ≡ set.config → AreKept set older.now olds → row.now ≡ kept set r
        → result ≡ dispatches set cycle olds r }
{
    let first = is_first(older, row, cycle);
    let width = dispatched_at(older, cycle) < config.decode as usize;
    let place = has_place(config, older, row);
    let enters = may_enter(older, row);
    let call = call_dispatched_at(older, cycle);
    let exit = exit_dispatched(older);
    let fits = both(both(both(first, width), place), enters);
    both(both(fits, !call), !exit)
}

/// The turn of the row at a place.
fn dispatch_turn(config: &OooConfig, rows: &mut [Row], at: usize, cycle: u64)
    requires { at < length rows.old }
    ensures { (set : Setting) → config.now ≡ set.config → Turned set (dispatch_row set cycle) at rows.old rows.new }
{
    let all = &rows[..];
    if dispatches(config, &all[at + 1..], &all[at], cycle) {
        rows[at].dispatched = Some(cycle);
    }
}

/// The turns of the rows from a place on.
fn dispatch_from(config: &OooConfig, rows: &mut [Row], at: usize, cycle: u64)
    requires { at ≤ length rows.old }
    ensures { (set : Setting) → config.now ≡ set.config → Swept set (dispatch_row set cycle) at rows.old rows.new }
{
    if at < rows.len() {
        dispatch_from(config, rows, at + 1, cycle);
        dispatch_turn(config, rows, at, cycle);
    }
}

/// Each row in row order.
pub fn dispatch(config: &OooConfig, rows: &mut [Row], cycle: u64)
    ensures { (set : Setting) (olds : List table.Row) → config.now ≡ set.config → AreKept set rows.old olds
        → AreKept set rows.new (sweep (dispatch_row set cycle) olds) }
{
    dispatch_from(config, rows, 0, cycle);
}

/// Whether the machine stops at the row in the cycle, behind these rows.
fn stops_at(older: &[Row], row: &Row, cycle: u64) -> bool
    ensures { (set : Setting) (olds : List table.Row) (r : table.Row) → AreKept set older.now olds → row.now ≡ kept set r
        → result ≡ stops_machine set cycle olds r }
{
    let first = is_first(older, row, cycle);
    let empty = live_rows(older) == 0;
    both(both(first, row.stops), empty)
}

/// Whether the machine stops in the cycle at one of the rows, which are as they stand before the dispatch stage.
pub fn stops(rows: &[Row], cycle: u64) -> bool
    ensures { (set : Setting) (olds : List table.Row) → AreKept set rows.now olds
        → result ≡ not (every (λ older r. not (stops_machine set cycle older r)) olds) }
{
    match rows {
        [] => false,
        [row, older @ ..] => {
            let here = stops_at(older, row, cycle);
            either(here, stops(older, cycle))
        }
    }
}
