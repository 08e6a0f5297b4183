//! The issue stage: which operations and accesses issue.
ghost use Rattle.std.specs.Prelude.{◌≡◌, ◌<◌, ◌≤◌, ◌^◌, ◌&&◌, ◌||◌, ℕ, List, not, length, count_by};
ghost use Rattle.std.specs.List.{list_all};
ghost use Rattle.ooo_table.specs.Row as table;
ghost use Rattle.ooo_table.specs.Row.{is_at, is_before};
ghost use Rattle.ooo_table.specs.Execution.{unit_hold, is_of, pool_size, same_block};
ghost use Rattle.ooo_table.specs.Table.{Setting};
ghost use Rattle.ooo_table.specs.Path.{execution, stores};
ghost use Rattle.ooo_table.specs.Done.{live, written, done_before};
ghost use Rattle.ooo_table.specs.Issue.{spans, holds, takes, has_unit, has_unit_for, may_issue, issues, is_clear, is_forwarded, accesses};
ghost use Rattle.ooo_plain.specs.Kept.{kept, AreKept, is_live, same_block_of};
ghost use Rattle.ooo_plain.specs.Held.{pool_of, AreHeld};

use crate::done::{have_produced, is_done_before};
use crate::row::{Row, both, either, is_at, is_before, is_unset};
use ooo_table::OooConfig;
use pisa_isa::UnitClass;

/// Units of one kind.
#[derive(Clone, Copy, Debug)]
pub enum Pool {
    /// For additions and logic.
    Alus,
    /// For products and quotients.
    Multipliers,
    /// For memory.
    Ports,
}

/// How many units of each kind are held as the stage begins.
#[derive(Clone, Copy, Debug)]
pub struct Held {
    /// ALUs.
    pub alus: usize,
    /// Multipliers.
    pub multipliers: usize,
    /// Ports.
    pub ports: usize,
}

fn unit_hold(unit: UnitClass) -> u64
    ensures { result ≡ unit_hold unit }
{
    match unit {
        UnitClass::Free => 0,
        UnitClass::Alu | UnitClass::Multiply => 1,
        UnitClass::Divide => 19,
    }
}

/// Whether the cycle is one of so many from a mark on.
fn spans(cycle: u64, count: u64, mark: Option<u64>) -> bool
    ensures { result ≡ spans cycle count mark }
{
    match mark {
        None => false,
        Some(at) => both(
            at <= cycle,
            u128::from(cycle) < u128::from(at) + u128::from(count),
        ),
    }
}

/// Whether main operations of this class take a unit of the pool.
fn is_of(pool: Pool, unit: UnitClass) -> bool
    ensures { result ≡ is_of (pool_of pool) unit }
{
    match (pool, unit) {
        (Pool::Alus, UnitClass::Alu) => true,
        (Pool::Multipliers, UnitClass::Multiply | UnitClass::Divide) => true,
        _ => false,
    }
}

/// Whether the row holds a unit of the pool in the cycle.
fn holds(pool: Pool, row: &Row, cycle: u64) -> bool
    ensures { (set : Setting) (r : table.Row) → row.now ≡ kept set r → result ≡ holds set (pool_of pool) cycle r }
{
    let unit = spans(cycle, unit_hold(row.unit), row.issued);
    match pool {
        Pool::Alus => both(is_of(Pool::Alus, row.unit), unit),
        Pool::Multipliers => both(is_of(Pool::Multipliers, row.unit), unit),
        Pool::Ports => {
            let loads = both(row.load, spans(cycle, 1, row.accessed));
            either(loads, both(row.store, is_at(cycle, row.committed)))
        }
    }
}

/// Whether the row took a unit of the pool in the cycle.
fn takes(pool: Pool, row: &Row, cycle: u64) -> bool
    ensures { (set : Setting) (r : table.Row) → row.now ≡ kept set r → result ≡ takes set (pool_of pool) cycle r }
{
    match pool {
        Pool::Alus => both(is_of(Pool::Alus, row.unit), is_at(cycle, row.issued)),
        Pool::Multipliers => both(is_of(Pool::Multipliers, row.unit), is_at(cycle, row.issued)),
        Pool::Ports => both(row.load, is_at(cycle, row.accessed)),
    }
}

/// How many rows hold a unit of the pool.
fn units_held(pool: Pool, rows: &[Row], cycle: u64) -> usize
    ensures count { (set : Setting) (olds : List table.Row) → AreKept set rows.now olds → result ≡ count_by (holds set (pool_of pool) cycle) olds }
    ensures bound { result ≤ length rows.now }
{
    match rows {
        [] => 0,
        [row, others @ ..] => {
            let more = units_held(pool, others, cycle);
            if holds(pool, row, cycle) {
                more + 1
            } else {
                more
            }
        }
    }
}

/// How many rows took a unit of the pool.
fn units_taken(pool: Pool, rows: &[Row], cycle: u64) -> usize
    ensures count { (set : Setting) (olds : List table.Row) → AreKept set rows.now olds → result ≡ count_by (takes set (pool_of pool) cycle) olds }
    ensures bound { result ≤ length rows.now }
{
    match rows {
        [] => 0,
        [row, others @ ..] => {
            let more = units_taken(pool, others, cycle);
            if takes(pool, row, cycle) {
                more + 1
            } else {
                more
            }
        }
    }
}

impl Held {
    /// The units that are held.
    pub fn of(rows: &[Row], cycle: u64) -> Held
        ensures { (set : Setting) (olds : List table.Row) → AreKept set rows.now olds → AreHeld set cycle olds result }
    {
        let alus = units_held(Pool::Alus, rows, cycle);
        let multipliers = units_held(Pool::Multipliers, rows, cycle);
        let ports = units_held(Pool::Ports, rows, cycle);
        Held {
            alus,
            multipliers,
            ports,
        }
    }
}

fn pool_size(config: &OooConfig, pool: Pool) -> u32
    ensures { result ≡ pool_size config.now (pool_of pool) }
{
    match pool {
        Pool::Alus => config.alus,
        Pool::Multipliers => config.mults,
        Pool::Ports => config.ports,
    }
}

/// Whether a unit of the pool is left behind these rows, where so many were held as the stage began.
fn has_unit(config: &OooConfig, held: usize, older: &[Row], pool: Pool, cycle: u64) -> bool
    ensures { (set : Setting) (start olds : List table.Row) → config.now ≡ set.config → held ≡ count_by (holds set (pool_of pool) cycle) start → AreKept set older.now olds
        → result ≡ has_unit set cycle start olds (pool_of pool) }
{
    let used = held as u128 + units_taken(pool, older, cycle) as u128;
    used < u128::from(pool_size(config, pool))
}

fn has_unit_for(config: &OooConfig, held: &Held, older: &[Row], unit: UnitClass, cycle: u64) -> bool
    ensures { (set : Setting) (start olds : List table.Row) → config.now ≡ set.config → AreHeld set cycle start held.now → AreKept set older.now olds
        → result ≡ has_unit_for set cycle start olds unit }
{
    match unit {
        UnitClass::Free => true,
        UnitClass::Alu => has_unit(config, held.alus, older, Pool::Alus, cycle),
        UnitClass::Multiply => {
            has_unit(config, held.multipliers, older, Pool::Multipliers, cycle)
        }
        UnitClass::Divide => has_unit(config, held.multipliers, older, Pool::Multipliers, cycle),
    }
}

fn issued_at(older: &[Row], cycle: u64) -> usize
    ensures { result ≡ count_by (λ o. is_at cycle o.issued || is_at cycle o.accessed) older.now }
{
    older
        .iter()
        .filter(|o| is_at(cycle, o.issued) || is_at(cycle, o.accessed))
        .count()
}

/// Whether every live row has issued before a cycle.
fn live_rows_issued(older: &[Row], next: u64) -> bool
    ensures { result ≡ list_all (λ o. not (is_live o) || is_before next o.issued) older.now }
{
    older
        .iter()
        .all(|o| !o.is_live() || is_before(next, o.issued))
}

fn may_issue(config: &OooConfig, older: &[Row], row: &Row, cycle: u64) -> bool
    requires { cycle < 2 ^ 62 }
    ensures { (set : Setting) (olds : List table.Row) (r : table.Row) → config.now ≡ set.config → AreKept set older.now olds → row.now ≡ kept set r
        → result ≡ may_issue set cycle olds r }
{
    let path = either(row.right, config.wrong_issue);
    let order = live_rows_issued(older, cycle + 1);
    both(path, either(!config.in_order, order))
}

/// Whether the main operation of the row issues in the cycle.
pub fn issues(config: &OooConfig, held: &Held, older: &[Row], row: &Row, cycle: u64) -> bool
    requires { cycle < 2 ^ 62 }
    ensures { (set : Setting) (start olds : List table.Row) (r : table.Row) → config.now ≡ set.config → AreHeld set cycle start held.now → AreKept set older.now olds
        → row.now ≡ kept set r → result ≡ issues set cycle start olds r }
{
    let dispatched = is_before(cycle, row.dispatched);
    let fresh = both(
        both(dispatched, is_unset(row.issued)),
        is_unset(row.squashed),
    );
    let may = both(fresh, may_issue(config, older, row, cycle));
    let ready = have_produced(older, row.dispatched, row.main.as_slice(), cycle + 1);
    let width = issued_at(older, cycle) < config.issue as usize;
    let unit = has_unit_for(config, held, older, row.unit, cycle);
    both(both(both(may, ready), width), unit)
}

fn same_block(a: &Row, b: &Row) -> bool
    ensures { result ≡ same_block_of a.now b.now }
{
    let memory = both(a.uses_memory(), b.uses_memory());
    both(memory, a.address / 8 == b.address / 8)
}

fn is_live_store(row: &Row) -> bool
    ensures { result ≡ (is_live row.now && row.now.store) }
{
    both(row.is_live(), row.store)
}

/// Whether the row, behind these ones, leaves a load free to access before a cycle.
fn lets_pass(older: &[Row], row: &Row, load: &Row, next: u64) -> bool
    ensures { (set : Setting) (olds : List table.Row) (o r : table.Row) → AreKept set older.now olds → row.now ≡ kept set o → load.now ≡ kept set r
        → result ≡ (not (live o && stores set o) || (is_before next (written set o) && (not (same_block (execution set o).memory (execution set r).memory) || done_before set next olds o))) }
{
    let done = either(!same_block(row, load), is_done_before(older, row, next));
    let known = both(row.is_written_before(next), done);
    either(!is_live_store(row), known)
}

fn is_clear(older: &[Row], load: &Row, cycle: u64) -> bool
    requires { cycle < 2 ^ 62 }
    ensures { (set : Setting) (olds : List table.Row) (r : table.Row) → AreKept set older.now olds → load.now ≡ kept set r
        → result ≡ is_clear set cycle olds r }
{
    match older {
        [] => true,
        [row, others @ ..] => {
            let passes = lets_pass(others, row, load, cycle + 1);
            both(passes, is_clear(others, load, cycle))
        }
    }
}

fn gives(row: &Row, load: &Row) -> bool
    ensures { result ≡ ((is_live row.now && row.now.store) && same_block_of row.now load.now) }
{
    both(is_live_store(row), same_block(row, load))
}

/// Whether an older live store has the row's block.
pub fn is_forwarded(older: &[Row], row: &Row) -> bool
    ensures { (set : Setting) (olds : List table.Row) (r : table.Row) → AreKept set older.now olds → row.now ≡ kept set r
        → result ≡ is_forwarded set olds r }
{
    match older {
        [] => false,
        [other, others @ ..] => either(gives(other, row), is_forwarded(others, row)),
    }
}

/// Whether the access of the row issues in the cycle.
pub fn accesses(config: &OooConfig, held: &Held, older: &[Row], row: &Row, cycle: u64) -> bool
    requires { cycle < 2 ^ 62 }
    ensures { (set : Setting) (start olds : List table.Row) (r : table.Row) → config.now ≡ set.config → AreHeld set cycle start held.now → AreKept set older.now olds
        → row.now ≡ kept set r → result ≡ accesses set cycle start olds r }
{
    let fresh = both(
        both(row.load, is_unset(row.accessed)),
        is_unset(row.squashed),
    );
    let written = both(fresh, row.is_written_before(cycle + 1));
    let ready = have_produced(older, row.dispatched, row.second.as_slice(), cycle + 1);
    let clear = is_clear(older, row, cycle);
    let width = issued_at(older, cycle) < config.issue as usize;
    let port = has_unit(config, held.ports, older, Pool::Ports, cycle);
    both(both(both(both(written, ready), clear), width), port)
}
