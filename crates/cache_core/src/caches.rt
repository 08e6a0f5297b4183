ghost use Rattle.std.specs.Prelude.{◌≡◌, ℕ, ◌+◌, ◌*◌, ◌^◌, ◌<◌, ◌≤◌, List, [], ◌∷◌, replicate, IfOk};
ghost use Rattle.cache_core.specs.declared.config.CacheConfig.{CacheConfig};
ghost use Rattle.cache_core.specs.Limits.{IsWithinLimits};
ghost use Rattle.cache_core.specs.Replay.{Call, Access, Fill, Settle, block_of, touch_of, fill_end_of, counts_of};
ghost use Rattle.cache_core.specs.Stands.{StandsFor, Holds, accesses_of};
ghost use Rattle.cache_core.specs.Ways.{unused};

use crate::answers::{Counts, Touch};
use crate::config::CacheConfig;
use crate::ways::{Way, fill, fill_end, touch};
use ss_base::OutOfMemory;
use std::alloc::Global;
use std::marker::Model;

/// The ways of a cache that holds nothing, with memory for all that it will hold.
fn unused_ways(alloc: Global, c: &CacheConfig) -> Result<Vec<Way>, OutOfMemory>
    requires { c.now.sets * c.now.ways ≤ 1048576 }
    ensures { IfOk result (λ ways. ways.items ≡ replicate (c.now.sets * c.now.ways) unused) }
{
    let number = c.sets * c.ways;
    let mut ways = Vec::with_capacity(alloc, number as usize)?;
    for _k in 0..number {
        ways.push(Way::unused())?;
    }
    Ok(ways)
}

/// A cache: which blocks it holds, which of them are dirty, when each is filled, and how often what happened.
///
/// All answers are those of the calls so far, replayed from an empty cache.
#[derive(Drop)]
pub struct Cache {
    config: CacheConfig,
    ways: Vec<Way>,
    counts: Counts,
    /// The place in its set of the block that was touched last, where the next one likely is.
    last: usize,
}

impl Model for Cache {
    ghost use Rattle.cache_core.specs.Stands.{Held};
    ghost use Rattle.cache_core.specs.Sound.{IsSound, shown};

    ghost Value = { Held };

    ghost view = { λ c. shown (record { config = c.config; ways = c.ways.items; counts = c.counts }) };

    ghost invariant = { λ c. IsSound (record { config = c.config; ways = c.ways.items; counts = c.counts }) };
}

impl Cache {
    /// A cache of this shape that holds nothing. It takes all the memory that it will ever need.
    ///
    /// # Errors
    /// `OutOfMemory` where there is too little memory.
    pub fn new(alloc: Global, c: &CacheConfig) -> Result<Cache, OutOfMemory>
        requires { IsWithinLimits c.now }
        ensures stands { IfOk result (λ cache. StandsFor cache c.now []) }
        ensures accesses { IfOk result (λ cache. accesses_of cache ≡ 0) }
    {
        Ok(Cache {
            config: *c,
            ways: unused_ways(alloc, c)?,
            counts: Counts::new(),
            last: 0,
        })
    }

    /// Reads or writes the block of an address. A missing block comes in, with fill end 0, and where its set was full
    /// another one leaves.
    pub fn access(&mut self, addr: u32, write: bool) -> Touch
        requires { accesses_of self.old + 1 < 2 ^ 62 }
        ensures touch { (c : CacheConfig) (h : List Call) → StandsFor self.old c h → result ≡ touch_of c h addr write }
        ensures stands { (c : CacheConfig) (h : List Call) → StandsFor self.old c h → StandsFor self.new c (Access addr write ∷ h) }
        ensures held { Holds self.new addr }
        ensures accesses { accesses_of self.new ≡ accesses_of self.old + 1 }
    {
        let block = self.config.block_of(addr);
        let first = self.config.first_way(addr);
        let after = first + self.config.ways as usize;
        let ways = &mut self.ways[first..after];
        let touch = touch(
            ways,
            block,
            write,
            &self.config,
            self.counts.accesses,
            &mut self.last,
        );
        self.counts.count(&touch);
        touch
    }

    /// How often what happened since the cache was made.
    pub fn counts(&self) -> Counts
        ensures counts { (c : CacheConfig) (h : List Call) → StandsFor self.now c h → result ≡ counts_of c h }
        ensures accesses { result.accesses ≡ accesses_of self.now }
    {
        self.counts
    }

    /// Sets the fill end of an address's block, the cycle in which its bytes are there. It leaves every other block,
    /// what is held and dirty, and the counts.
    pub fn fill(&mut self, addr: u32, end: u64)
        requires { Holds self.old addr }
        ensures stands { (c : CacheConfig) (h : List Call) → StandsFor self.old c h → StandsFor self.new c (Fill addr end ∷ h) }
        ensures accesses { accesses_of self.new ≡ accesses_of self.old }
    {
        let block = self.config.block_of(addr);
        let first = self.config.first_way(addr);
        let after = first + self.config.ways as usize;
        fill(&mut self.ways[first..after], block, end, self.last);
    }

    /// The fill end of an address's block, and 0 where the block is not held or none was set since it came in.
    pub fn fill_end(&self, addr: u32) -> u64
        ensures { (c : CacheConfig) (h : List Call) → StandsFor self.now c h → result ≡ fill_end_of c h (block_of c addr) }
    {
        let block = self.config.block_of(addr);
        let first = self.config.first_way(addr);
        let after = first + self.config.ways as usize;
        fill_end(&self.ways[first..after], block)
    }

    /// Makes all fill ends 0. It leaves what is held and dirty, and the counts.
    pub fn settle(&mut self)
        ensures stands { (c : CacheConfig) (h : List Call) → StandsFor self.old c h → StandsFor self.new c (Settle ∷ h) }
        ensures accesses { accesses_of self.new ≡ accesses_of self.old }
    {
        for way in self.ways.iter_mut() {
            way.fill_end = 0;
        }
    }
}
