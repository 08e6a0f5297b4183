//! The functional units that main operations take.
ghost use Rattle.std.specs.Prelude.{◌≡◌, ◌^◌, ◌<◌, ◌≤◌, true};
ghost use Rattle.fu_pool.specs.declared.pools.Pool.TheVariants as pool;
ghost use Rattle.ooo_table.specs.Execution.{unit_latency, unit_hold};
ghost use Rattle.core_parts.specs.Rows.{unit_class};
ghost use Rattle.core_issue.specs.Turns.{pool_for, has_free, has_unit, Takes, TakesUnit};

use fu_pool::{Pool, Pools};
use pisa_isa::UnitClass;
use ruu_core::Station;

/// The unit that the main operation of a row takes: none where it is inert.
pub fn class_of(s: &Station) -> UnitClass
    ensures { result ≡ unit_class s.now }
{
    if s.inert {
        UnitClass::Free
    } else {
        pisa_isa::unit(s.instr.op)
    }
}

/// From the issue to the write-back, in cycles.
pub fn latency(class: UnitClass) -> u64
    ensures { result ≡ unit_latency class }
{
    match class {
        UnitClass::Free | UnitClass::Alu => 1,
        UnitClass::Multiply => 3,
        UnitClass::Divide => 20,
    }
}

/// How many cycles a unit is held.
fn hold(class: UnitClass) -> u32
    ensures { result ≡ unit_hold class }
{
    match class {
        UnitClass::Free => 0,
        UnitClass::Alu | UnitClass::Multiply => 1,
        UnitClass::Divide => 19,
    }
}

fn pool_for(class: UnitClass) -> Option<Pool>
    ensures { result ≡ pool_for class }
{
    match class {
        UnitClass::Free => None,
        UnitClass::Alu => Some(Pool::Alu),
        UnitClass::Multiply | UnitClass::Divide => Some(Pool::Mult),
    }
}

/// Whether a unit of the pool is left at the cycle.
pub fn has_free(pools: &Pools, p: Pool, cycle: u64) -> bool
    requires { pools.now.last ≤ cycle }
    ensures { result ≡ has_free cycle pools.now p }
{
    pools.is_free(p, cycle)
}

/// Whether a unit for such an operation is left at the cycle, where it needs one.
pub fn has_unit(pools: &Pools, class: UnitClass, cycle: u64) -> bool
    requires { pools.now.last ≤ cycle }
    ensures { result ≡ has_unit cycle pools.now (pool_for class) }
{
    match pool_for(class) {
        None => true,
        Some(p) => has_free(pools, p, cycle),
    }
}

fn take(pools: &mut Pools, p: Pool, cycle: u64, hold: u32)
    requires in_time { pools.old.last ≤ cycle }
    requires free { has_free cycle pools.old p ≡ true }
    requires small { cycle < 2 ^ 62 }
    ensures { Takes p cycle hold pools.old pools.new }
{
    pools.take(p, cycle, hold);
}

/// Takes a port for the access of a load.
pub fn take_port(pools: &mut Pools, cycle: u64)
    requires in_time { pools.old.last ≤ cycle }
    requires free { has_free cycle pools.old pool.Port ≡ true }
    requires small { cycle < 2 ^ 62 }
    ensures { Takes pool.Port cycle 1 pools.old pools.new }
{
    take(pools, Pool::Port, cycle, 1);
}

/// Takes the unit that such an operation needs, where it needs one.
pub fn take_unit(pools: &mut Pools, class: UnitClass, cycle: u64)
    requires in_time { pools.old.last ≤ cycle }
    requires free { has_unit cycle pools.old (pool_for class) ≡ true }
    requires small { cycle < 2 ^ 62 }
    ensures { TakesUnit (pool_for class) cycle (unit_hold class) pools.old pools.new }
{
    if let Some(p) = pool_for(class) {
        take(pools, p, cycle, hold(class));
    }
}
