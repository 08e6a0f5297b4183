//! How an access goes through the levels.
ghost use Rattle.std.specs.Prelude.{◌≡◌, ℕ, ◌+◌, ◌-◌, ◌*◌, ◌^◌, ◌<◌, ◌≤◌, List, Option, if◌then◌else◌};
ghost use Rattle.cache_core.specs.declared.config.CacheConfig.{CacheConfig};
ghost use Rattle.cache_core.specs.Replay.{Call, block_of, fill_end_of};
ghost use Rattle.cache_core.specs.Stands.{StandsFor, accesses_of};
ghost use Rattle.mem_hier.specs.Replay.{last_access, written_back, first_access, through, translated};
ghost use Rattle.mem_hier.specs.Sound.{IsMet, LevelMet, IsServed, LevelServed, IsPassed, WayPassed, IsTimed, AccessesBy};

use crate::timing::Timing;
use cache_core::{Cache, Victim};

/// The fill end of an address's block, where hits wait for it.
fn awaited(cache: &Cache, timing: &Timing, addr: u32) -> u64
    ensures { (shape : CacheConfig) (calls : List Call) → StandsFor cache.now shape calls → result ≡ (if timing.now.wait then fill_end_of shape calls (block_of shape addr) else 0) }
{
    if timing.wait { cache.fill_end(addr) } else { 0 }
}

/// Accesses a level with nothing but memory behind it, and answers the latency.
fn reach(cache: &mut Cache, timing: &Timing, addr: u32, write: bool, cycle: u64) -> u32
    requires room { accesses_of cache.old + 1 < 2 ^ 62 }
    requires cycle { cycle < 2 ^ 62 }
    requires timing { timing.now.lookup ≤ timing.now.greatest }
    ensures served { (shape : CacheConfig) (calls : List Call) → IsMet cache.old shape calls (cycle + timing.now.greatest) → IsServed result cache.new shape (last_access timing.now shape calls addr write cycle) }
    ensures accesses { accesses_of cache.new ≡ accesses_of cache.old + 1 }
    ensures bound { result ≤ timing.now.greatest }
{
    let end = awaited(cache, timing, addr);
    let touch = cache.access(addr, write);
    if touch.hit {
        timing.hit(end, cycle)
    } else {
        cache.fill(addr, cycle + timing.greatest as u64);
        timing.greatest
    }
}

/// Writes a dirty victim to the level behind.
fn write_back(cache: &mut Cache, timing: &Timing, victim: Option<Victim>, cycle: u64)
    requires room { accesses_of cache.old + 1 < 2 ^ 62 }
    requires cycle { cycle < 2 ^ 62 }
    requires timing { timing.now.lookup ≤ timing.now.greatest }
    ensures written { (shape : CacheConfig) (calls : List Call) → IsMet cache.old shape calls (cycle + timing.now.greatest) → IsMet cache.new shape (written_back timing.now shape calls victim cycle) (cycle + timing.now.greatest) }
    ensures accesses { accesses_of cache.new ≤ accesses_of cache.old + 1 }
{
    match victim {
        Some(victim) => {
            if victim.dirty {
                let _latency = reach(cache, timing, victim.addr, true, cycle);
            }
        }
        None => (),
    }
}

/// Accesses a first level with a second one behind it, and answers the latency.
fn reach_over(
    first: &mut Cache,
    timing: &Timing,
    second: &mut Cache,
    behind: &Timing,
    addr: u32,
    write: bool,
    cycle: u64,
) -> u32
    requires room { (accesses_of first.old + 1 < 2 ^ 62) × (accesses_of second.old + 2 < 2 ^ 62) }
    requires cycle { cycle < 2 ^ 62 }
    requires timing { IsTimed timing.now behind.now }
    ensures passed { (shape : CacheConfig) (calls : List Call) (shape' : CacheConfig) (calls' : List Call) → IsMet first.old shape calls (cycle + timing.now.greatest) → IsMet second.old shape' calls' (cycle + behind.now.greatest)
        → IsPassed result first.new shape second.new shape' (first_access timing.now shape calls behind.now shape' calls' addr write cycle) }
    ensures first { accesses_of first.new ≡ accesses_of first.old + 1 }
    ensures second { accesses_of second.new ≤ accesses_of second.old + 2 }
{
    let end = awaited(first, timing, addr);
    let touch = first.access(addr, write);
    if touch.hit {
        return timing.hit(end, cycle);
    }
    write_back(second, behind, touch.victim, cycle);
    let latency = timing.lookup + reach(second, behind, addr, false, cycle);
    first.fill(addr, cycle + latency as u64);
    latency
}

/// Accesses a way of two levels, each of which may be none, and answers the latency.
pub(crate) fn pass(
    first: &mut Option<Cache>,
    timing: &Timing,
    second: &mut Option<Cache>,
    behind: &Timing,
    addr: u32,
    write: bool,
    cycle: u64,
) -> u32
    requires room { AccessesBy first.old (2 ^ 62 - 3) × AccessesBy second.old (2 ^ 62 - 3) }
    requires cycle { cycle < 2 ^ 62 }
    requires timing { IsTimed timing.now behind.now }
    ensures passed { (shape : Option CacheConfig) (calls : List Call) (shape' : Option CacheConfig) (calls' : List Call) → LevelMet first.old shape calls (cycle + timing.now.greatest) → LevelMet second.old shape' calls' (cycle + behind.now.greatest)
        → WayPassed result first.new shape second.new shape' (through timing.now shape calls behind.now shape' calls' addr write cycle) }
    ensures first { (n : ℕ) → AccessesBy first.old n → AccessesBy first.new (n + 2) }
    ensures second { (n : ℕ) → AccessesBy second.old n → AccessesBy second.new (n + 2) }
{
    match first {
        None => timing.lookup,
        Some(first) => match second {
            None => reach(first, timing, addr, write, cycle),
            Some(second) => reach_over(first, timing, second, behind, addr, write, cycle),
        },
    }
}

/// Reads a TLB, and answers the latency.
pub(crate) fn translate(tlb: &mut Option<Cache>, timing: &Timing, addr: u32, cycle: u64) -> u32
    requires room { AccessesBy tlb.old (2 ^ 62 - 3) }
    requires cycle { cycle < 2 ^ 62 }
    requires timing { timing.now.lookup ≤ timing.now.greatest }
    ensures served { (shape : Option CacheConfig) (calls : List Call) → LevelMet tlb.old shape calls (cycle + timing.now.greatest) → LevelServed result tlb.new shape (translated timing.now shape calls addr cycle) }
    ensures accesses { (n : ℕ) → AccessesBy tlb.old n → AccessesBy tlb.new (n + 2) }
{
    match tlb {
        None => timing.lookup,
        Some(tlb) => reach(tlb, timing, addr, false, cycle),
    }
}
