//! Whose turn it is, and the turns.
ghost use Rattle.std.specs.Prelude.{◌≡◌, ◌+◌, ◌^◌, ◌<◌, ◌≤◌, ℕ, true, false, not, Some, None, IsTrue, option_map, nat_lt, ◌||◌, if◌then◌else◌};
ghost use Rattle.fu_pool.specs.declared.pools.Pool.TheVariants as pool;
ghost use Rattle.lsq_core.specs.Queue.{load_answer, holds_load};
ghost use Rattle.mem_hier.specs.Stands as hierarchy;
ghost use Rattle.mem_hier.specs.declared.config.HierConfig.{HierConfig};
ghost use Rattle.ruu_core.specs.declared.station.Station.{Station as RowStation};
ghost use Rattle.ruu_core.specs.Window.{is_above, is_ready, may_access, is_live, is_unissued, least, passes, row_of, rises_to};
ghost use Rattle.core_parts.specs.Fits.{IsInTime};
ghost use Rattle.core_parts.specs.Rows.{unit_class};
ghost use Rattle.core_issue.specs.Turns.{pool_for, has_free, has_unit, may_go, reaches, sooner, is_that, next_turn, main_allowed, access_allowed, Returns, MainIssued, AccessIssued, TurnBy, TurnOf, MayTurn};

use crate::units;
use core_parts::{Issued, Parts};
use fu_pool::Pool;
use mem_hier::Hier;
use ooo_table::OooConfig;
use ruu_core::{Ruu, Station};

/// The row that has the next turn.
#[derive(Clone, Copy)]
pub struct Turn {
    /// Its number.
    pub row: u64,
    /// Its main operation is ready.
    pub main: bool,
    /// Its access is.
    pub access: bool,
}

/// The lesser of two rows, where there is one.
fn sooner(a: Option<u64>, b: Option<u64>) -> Option<u64>
    ensures { result ≡ sooner a b }
{
    match a {
        None => b,
        Some(first) => match b {
            None => Some(first),
            Some(second) => Some(first.min(second)),
        },
    }
}

/// Whether that row was found.
fn is_that(row: u64, found: Option<u64>) -> bool
    ensures { result ≡ is_that row found }
{
    match found {
        None => false,
        Some(other) => other == row,
    }
}

/// The least row above `after` whose main operation is ready at the cycle, or whose access is.
fn next_turn(unit: &Ruu, cycle: u64, after: Option<u64>) -> Option<Turn>
    requires { IsTrue (is_above unit.now.past cycle) }
    ensures next { result ≡ next_turn cycle after unit.now.rows }
    ensures rises { rises_to unit.now.last unit.now.rows ≡ true }
{
    let _room = unit.room(); // says that the numbers of the live rows rise
    let ready = unit.next_ready(cycle, after);
    let access = unit.next_access(cycle, after);
    match sooner(ready, access) {
        None => None,
        Some(row) => Some(Turn {
            row,
            main: is_that(row, ready),
            access: is_that(row, access),
        }),
    }
}

/// The row that has the next turn after n operations issued in the cycle, and none once the width is used up.
pub fn next_turn_within(parts: &Parts, cycle: u64, n: usize, after: Option<u64>) -> Option<Turn>
    requires { IsTrue (is_above parts.now.unit.past cycle) }
    ensures next { result ≡ (if nat_lt n parts.now.config.issue then next_turn cycle after parts.now.unit.rows else None) }
    ensures rises { rises_to parts.now.unit.last parts.now.unit.rows ≡ true }
{
    if n < parts.config.issue as usize {
        next_turn(&parts.unit, cycle, after)
    } else {
        let _room = parts.unit.room(); // says that the numbers of the live rows rise
        None
    }
}

/// Whether the row may issue, right or wrong.
fn may_go(config: &OooConfig, s: &Station) -> bool
    ensures { result ≡ may_go config.now s.now }
{
    !s.wrong || config.wrong_issue
}

/// Whether the row isn't behind the first one, where there is one.
fn reaches(first: Option<u64>, row: u64) -> bool
    ensures { result ≡ reaches first row }
{
    match first {
        None => true,
        Some(first) => row <= first,
    }
}

/// Whether order lets the main operation of the row issue: where issue is in order, all older ones have.
fn is_in_order(parts: &Parts, row: u64) -> bool
    ensures { result ≡ (not parts.now.config.in_order || reaches (least is_unissued parts.now.unit.rows) row) }
{
    if parts.config.in_order {
        reaches(parts.unit.first_unissued(), row)
    } else {
        true
    }
}

/// Whether the main operation of the row may issue, the n-th of the cycle, as far as order, paths, width and units say.
fn main_allowed(parts: &Parts, cycle: u64, n: usize, row: u64) -> bool
    requires live { IsTrue (is_live row parts.now.unit.rows) }
    requires time { parts.now.pools.last ≤ cycle }
    ensures { (s : RowStation) → option_map (λ r. r.station) (row_of row parts.now.unit.rows) ≡ Some s
        → result ≡ main_allowed cycle n parts.now row s }
{
    let s = parts.unit.station(row);
    let going = may_go(&parts.config, s);
    let ordered = is_in_order(parts, row);
    let free = units::has_unit(&parts.pools, units::class_of(s), cycle);
    going && ordered && n < parts.config.issue as usize && free
}

/// The main operation of the row issues.
fn issue_main(parts: &mut Parts, cycle: u64, row: u64)
    requires time { IsInTime cycle parts.old }
    requires live { IsTrue (is_live row parts.old.unit.rows) }
    requires ready { IsTrue (passes (is_ready cycle) row parts.old.unit.rows) }
    requires free { (s : RowStation) → option_map (λ r. r.station) (row_of row parts.old.unit.rows) ≡ Some s
        → has_unit cycle parts.old.pools (pool_for (unit_class s)) ≡ true }
    ensures { (s : RowStation) → option_map (λ r. r.station) (row_of row parts.old.unit.rows) ≡ Some s
        → MainIssued cycle row s parts.old parts.new }
{
    let class = units::class_of(parts.unit.station(row));
    units::take_unit(&mut parts.pools, class, cycle);
    parts.unit.issue(row, cycle, cycle + units::latency(class));
}

/// The cycle at which a load is back.
fn comes_back(hier: &mut Hier, forwarded: bool, addr: u32, cycle: u64) -> u64
    requires time { hierarchy.last_cycle_of hier.old ≤ cycle }
    requires small { cycle ≤ 10 ^ 13 }
    requires references { hierarchy.references_of hier.old < 2 ^ 60 }
    ensures back { Returns forwarded cycle addr result hier.old hier.new }
    ensures later { cycle < result }
{
    if forwarded {
        cycle + 1
    } else {
        cycle + hier.load(addr, cycle).max(1) as u64
    }
}

/// The access of the row issues.
fn issue_access(parts: &mut Parts, cycle: u64, row: u64, forwarded: bool)
    requires time { IsInTime cycle parts.old }
    requires references { hierarchy.references_of parts.old.hier < 2 ^ 60 }
    requires ready { IsTrue (passes (may_access cycle) row parts.old.unit.rows) }
    requires free { has_free cycle parts.old.pools pool.Port ≡ true }
    ensures { (back : ℕ) × AccessIssued cycle row forwarded back parts.old parts.new }
{
    let addr = parts.addresses.address_of(row);
    units::take_port(&mut parts.pools, cycle);
    let back = comes_back(&mut parts.hier, forwarded, addr, cycle);
    parts.unit.access(row, cycle, back);
}

/// The access of the row issues, the n-th operation of the cycle, where older stores, width and ports let it.
fn turn_of_access(parts: &mut Parts, cycle: u64, n: usize, row: u64) -> Option<Issued>
    requires time { IsInTime cycle parts.old }
    requires references { hierarchy.references_of parts.old.hier < 2 ^ 60 }
    requires ready { IsTrue (passes (may_access cycle) row parts.old.unit.rows) }
    requires held { IsTrue (holds_load row parts.old.queue.entries) }
    ensures { (s : RowStation) → TurnBy false (access_allowed cycle n parts.old row) cycle row s parts.old parts.new result }
{
    let wide = n < parts.config.issue as usize;
    let free = units::has_free(&parts.pools, Pool::Port, cycle);
    match parts.queue.load_may_issue(row, cycle) {
        Ok(forwarded) => {
            if wide && free {
                issue_access(parts, cycle, row, forwarded);
                Some(Issued::Access(row, forwarded))
            } else {
                None
            }
        }
        Err(_store) => None,
    }
}

/// The turn of a row, after n operations issued in the cycle.
pub fn take_turn(parts: &mut Parts, cycle: u64, n: usize, t: Turn) -> Option<Issued>
    requires { MayTurn cycle t parts.old }
    ensures { TurnOf cycle n t parts.old parts.new result }
{
    if t.main && main_allowed(parts, cycle, n, t.row) {
        issue_main(parts, cycle, t.row);
        Some(Issued::Main(t.row))
    } else if t.access {
        turn_of_access(parts, cycle, n, t.row)
    } else {
        None
    }
}
