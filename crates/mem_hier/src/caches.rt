//! The caches and TLBs of a hierarchy.
ghost use Rattle.std.specs.Prelude.{◌≡◌, ℕ, ◌+◌, ◌-◌, ◌*◌, ◌^◌, ◌<◌, ◌≤◌, List, [], ◌∷◌, Option, IfOk};
ghost use Rattle.std.specs.Option.{option_map};
ghost use Rattle.cache_core.specs.declared.config.CacheConfig.{CacheConfig};
ghost use Rattle.cache_core.specs.Replay.{Call, Settle, counts_of};
ghost use Rattle.mem_hier.specs.declared.config.HierConfig.{HierConfig};
ghost use Rattle.mem_hier.specs.Limits.{IsAllowed, IsShape};
ghost use Rattle.mem_hier.specs.Replay.{Calls, data_way, fetch_way, data_answer, fetch_answer, settled, calls_of, calls_at, shape_of};
ghost use Rattle.mem_hier.specs.Stands.{LevelStands, CachesStand};
ghost use Rattle.mem_hier.specs.Sound.{shown, timings_of, CachesMet, IsAnswered, AreTimed, AccessesBy, CachesBy};

use crate::config::{HierConfig, Which};
use crate::levels::{pass, translate};
use crate::timing::Timings;
use cache_core::{Cache, CacheConfig, Counts};
use ss_base::OutOfMemory;
use std::alloc::Global;

/// A level that holds nothing, where it has a cache of this shape.
fn new_level(alloc: Global, shape: Option<CacheConfig>) -> Result<Option<Cache>, OutOfMemory>
    requires { IsShape shape }
    ensures stands { IfOk result (λ level. LevelStands level shape []) }
    ensures accesses { IfOk result (λ level. AccessesBy level 0) }
{
    match shape {
        None => Ok(None),
        Some(shape) => Ok(Some(Cache::new(alloc, &shape)?)),
    }
}

/// Makes all fill ends of a level 0.
fn settle_level(level: &mut Option<Cache>)
    ensures stands { (shape : Option CacheConfig) (calls : List Call) → LevelStands level.old shape calls → LevelStands level.new shape (Settle ∷ calls) }
    ensures accesses { (n : ℕ) → AccessesBy level.old n → AccessesBy level.new n }
{
    match level {
        None => (),
        Some(cache) => cache.settle(),
    }
}

/// The counts of a level.
fn level_counts(level: &Option<Cache>) -> Option<Counts>
    ensures { (shape : Option CacheConfig) (calls : List Call) → LevelStands level.now shape calls → result ≡ option_map (λ s. counts_of s calls) shape }
{
    match level {
        None => None,
        Some(cache) => Some(cache.counts()),
    }
}

/// The caches and TLBs, each where there is one of its own.
#[derive(Drop)]
pub(crate) struct Caches {
    pub(crate) il1: Option<Cache>,
    pub(crate) dl1: Option<Cache>,
    pub(crate) il2: Option<Cache>,
    pub(crate) dl2: Option<Cache>,
    pub(crate) itlb: Option<Cache>,
    pub(crate) dtlb: Option<Cache>,
}

impl Caches {
    /// Caches and TLBs that hold nothing.
    pub(crate) fn new(alloc: Global, c: &HierConfig) -> Result<Caches, OutOfMemory>
        requires { IsAllowed c.now }
        ensures stands { IfOk result (λ v. CachesStand (shown v) c.now (calls_of c.now [])) }
        ensures accesses { IfOk result (λ v. CachesBy (shown v) 0) }
    {
        Ok(Caches {
            il1: new_level(alloc, c.il1.own())?,
            dl1: new_level(alloc, c.dl1.own())?,
            il2: new_level(alloc, c.il2.own())?,
            dl2: new_level(alloc, c.dl2.own())?,
            itlb: new_level(alloc, c.itlb)?,
            dtlb: new_level(alloc, c.dtlb)?,
        })
    }

    /// Goes the data way, and answers the latency.
    fn data_way(&mut self, timings: &Timings, addr: u32, write: bool, cycle: u64) -> u32
        requires room { CachesBy (shown self.old) (2 ^ 62 - 3) }
        requires cycle { cycle < 2 ^ 62 }
        requires timings { AreTimed timings.now }
        ensures answer { (c : HierConfig) (s : Calls) → timings.now ≡ timings_of c → CachesMet (shown self.old) c s cycle → IsAnswered result (shown self.new) c (data_way c s addr write cycle) }
        ensures accesses { (n : ℕ) → CachesBy (shown self.old) n → CachesBy (shown self.new) (n + 2) }
        ensures tlbs { (self.new.itlb ≡ self.old.itlb) × (self.new.dtlb ≡ self.old.dtlb) }
    {
        pass(
            &mut self.dl1,
            &timings.dl1,
            &mut self.dl2,
            &timings.dl2,
            addr,
            write,
            cycle,
        )
    }

    /// Goes the way of a fetch, and answers the latency.
    fn fetch_way(&mut self, config: &HierConfig, timings: &Timings, pc: u32, cycle: u64) -> u32
        requires room { CachesBy (shown self.old) (2 ^ 62 - 3) }
        requires cycle { cycle < 2 ^ 62 }
        requires timings { AreTimed timings.now }
        ensures answer { (s : Calls) → timings.now ≡ timings_of config.now → CachesMet (shown self.old) config.now s cycle → IsAnswered result (shown self.new) config.now (fetch_way config.now s pc cycle) }
        ensures accesses { (n : ℕ) → CachesBy (shown self.old) n → CachesBy (shown self.new) (n + 2) }
        ensures tlbs { (self.new.itlb ≡ self.old.itlb) × (self.new.dtlb ≡ self.old.dtlb) }
    {
        let behind = &timings.behind_il1;
        if config.il1.is_shared() {
            self.data_way(timings, pc, false, cycle)
        } else if config.il2.is_shared() {
            pass(
                &mut self.il1,
                &timings.il1,
                &mut self.dl2,
                behind,
                pc,
                false,
                cycle,
            )
        } else {
            pass(
                &mut self.il1,
                &timings.il1,
                &mut self.il2,
                behind,
                pc,
                false,
                cycle,
            )
        }
    }

    /// Loads or stores, and answers the latency.
    pub(crate) fn data(&mut self, timings: &Timings, addr: u32, write: bool, cycle: u64) -> u32
        requires room { CachesBy (shown self.old) (2 ^ 62 - 3) }
        requires cycle { cycle < 2 ^ 62 }
        requires timings { AreTimed timings.now }
        ensures answer { (c : HierConfig) (s : Calls) → timings.now ≡ timings_of c → CachesMet (shown self.old) c s cycle → IsAnswered result (shown self.new) c (data_answer c s addr write cycle) }
        ensures accesses { (n : ℕ) → CachesBy (shown self.old) n → CachesBy (shown self.new) (n + 2) }
    {
        let way = self.data_way(timings, addr, write, cycle);
        let page = translate(&mut self.dtlb, &timings.dtlb, addr, cycle);
        way.max(page)
    }

    /// Fetches, and answers the latency.
    pub(crate) fn fetch(
        &mut self,
        config: &HierConfig,
        timings: &Timings,
        pc: u32,
        cycle: u64,
    ) -> u32
        requires room { CachesBy (shown self.old) (2 ^ 62 - 3) }
        requires cycle { cycle < 2 ^ 62 }
        requires timings { AreTimed timings.now }
        ensures answer { (s : Calls) → timings.now ≡ timings_of config.now → CachesMet (shown self.old) config.now s cycle → IsAnswered result (shown self.new) config.now (fetch_answer config.now s pc cycle) }
        ensures accesses { (n : ℕ) → CachesBy (shown self.old) n → CachesBy (shown self.new) (n + 2) }
    {
        let way = self.fetch_way(config, timings, pc, cycle);
        let page = translate(&mut self.itlb, &timings.itlb, pc, cycle);
        way.max(page)
    }

    /// Makes all fill ends 0.
    pub(crate) fn settle(&mut self)
        ensures stands { (c : HierConfig) (s : Calls) → CachesStand (shown self.old) c s → CachesStand (shown self.new) c (settled s) }
        ensures accesses { (n : ℕ) → CachesBy (shown self.old) n → CachesBy (shown self.new) n }
    {
        settle_level(&mut self.il1);
        settle_level(&mut self.dl1);
        settle_level(&mut self.il2);
        settle_level(&mut self.dl2);
        settle_level(&mut self.itlb);
        settle_level(&mut self.dtlb);
    }

    /// The counts of a cache or TLB.
    pub(crate) fn counts(&self, which: Which) -> Option<Counts>
        ensures { (c : HierConfig) (s : Calls) → CachesStand (shown self.now) c s → result ≡ option_map (λ shape. counts_of shape (calls_at s which)) (shape_of c which) }
    {
        match which {
            Which::Il1 => level_counts(&self.il1),
            Which::Dl1 => level_counts(&self.dl1),
            Which::Il2 => level_counts(&self.il2),
            Which::Dl2 => level_counts(&self.dl2),
            Which::Itlb => level_counts(&self.itlb),
            Which::Dtlb => level_counts(&self.dtlb),
        }
    }
}
