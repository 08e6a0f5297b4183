ghost use Rattle.std.specs.Prelude.{◌≡◌, ℕ, ◌+◌, ◌^◌, ◌<◌, ◌≤◌, List, [], ◌∷◌, IfOk};
ghost use Rattle.mem_hier.specs.declared.config.HierConfig.{HierConfig};
ghost use Rattle.mem_hier.specs.Limits.{IsAllowed};
ghost use Rattle.mem_hier.specs.Replay.{Reference, Fetch, Load, Store, SettleAll, latency_of, counts_at, greatest_fetch_of, greatest_load_of, fetch_hit_of};
ghost use Rattle.mem_hier.specs.Stands.{StandsFor, Referred, Settled, config_of, references_of, last_cycle_of};

use crate::caches::Caches;
use crate::config::{HierConfig, Which};
use crate::timing::Timings;
use cache_core::Counts;
use ss_base::OutOfMemory;
use std::alloc::Global;
use std::marker::Model;

/// A memory hierarchy: its caches and TLBs, and what each reference takes.
///
/// All answers are those of the references and settlings so far, replayed from empty caches. `docs/caches.md` has the
/// rules. Cycles are below 2^62 and don't fall between two settlings.
#[derive(Drop)]
pub struct Hier {
    config: HierConfig,
    timings: Timings,
    caches: Caches,
    references: u64,
    last_cycle: u64,
}

impl Model for Hier {
    ghost use Rattle.mem_hier.specs.Stands.{Held};
    ghost use Rattle.mem_hier.specs.Sound.{IsSound, shown};

    ghost Value = { Held };

    ghost view = { λ h. record {
      config = h.config;
      caches = shown h.caches;
      references = h.references;
      last_cycle = h.last_cycle;
    } };

    ghost invariant = { λ h. IsSound (record {
      config = h.config;
      caches = shown h.caches;
      references = h.references;
      last_cycle = h.last_cycle;
    }) h.timings };
}

impl Hier {
    /// A hierarchy of this configuration that holds nothing. It takes all the memory that it will ever need.
    ///
    /// # Errors
    /// `OutOfMemory` where there is too little memory.
    pub fn new(alloc: Global, c: &HierConfig) -> Result<Hier, OutOfMemory>
        requires { IsAllowed c.now }
        ensures { IfOk result (λ hier. StandsFor hier c.now []) }
    {
        Ok(Hier {
            config: *c,
            timings: c.timings(),
            caches: Caches::new(alloc, c)?,
            references: 0,
            last_cycle: 0,
        })
    }

    /// Fetches from an address in a cycle. The answer is the latency, in cycles.
    pub fn fetch(&mut self, pc: u32, cycle: u64) -> u32
        requires order { last_cycle_of self.old ≤ cycle }
        requires cycle { cycle < 2 ^ 62 }
        requires references { references_of self.old < 2 ^ 60 }
        ensures latency { (c : HierConfig) (h : List Reference) → StandsFor self.old c h → result ≡ latency_of c h (Fetch pc cycle) }
        ensures stands { (c : HierConfig) (h : List Reference) → StandsFor self.old c h → StandsFor self.new c (Fetch pc cycle ∷ h) }
        ensures referred { Referred self.old self.new cycle }
    {
        self.references += 1;
        self.last_cycle = cycle;
        self.caches.fetch(&self.config, &self.timings, pc, cycle)
    }

    /// Loads from an address in a cycle. The answer is the latency, in cycles.
    pub fn load(&mut self, addr: u32, cycle: u64) -> u32
        requires order { last_cycle_of self.old ≤ cycle }
        requires cycle { cycle < 2 ^ 62 }
        requires references { references_of self.old < 2 ^ 60 }
        ensures latency { (c : HierConfig) (h : List Reference) → StandsFor self.old c h → result ≡ latency_of c h (Load addr cycle) }
        ensures stands { (c : HierConfig) (h : List Reference) → StandsFor self.old c h → StandsFor self.new c (Load addr cycle ∷ h) }
        ensures referred { Referred self.old self.new cycle }
    {
        self.references += 1;
        self.last_cycle = cycle;
        self.caches.data(&self.timings, addr, false, cycle)
    }

    /// Stores to an address in a cycle. Nobody waits for a store.
    pub fn store(&mut self, addr: u32, cycle: u64)
        requires order { last_cycle_of self.old ≤ cycle }
        requires cycle { cycle < 2 ^ 62 }
        requires references { references_of self.old < 2 ^ 60 }
        ensures stands { (c : HierConfig) (h : List Reference) → StandsFor self.old c h → StandsFor self.new c (Store addr cycle ∷ h) }
        ensures referred { Referred self.old self.new cycle }
    {
        self.references += 1;
        self.last_cycle = cycle;
        let _latency = self.caches.data(&self.timings, addr, true, cycle);
    }

    /// Makes all fill ends 0, so that every block that is held is there. The next cycle may be any.
    pub fn settle(&mut self)
        ensures stands { (c : HierConfig) (h : List Reference) → StandsFor self.old c h → StandsFor self.new c (SettleAll ∷ h) }
        ensures settled { Settled self.old self.new }
    {
        self.last_cycle = 0;
        self.caches.settle();
    }

    /// How often what happened in a cache or TLB since the hierarchy was made. `None` exactly where there is none of its
    /// own.
    pub fn counts(&self, which: Which) -> Option<Counts>
        ensures { (c : HierConfig) (h : List Reference) → StandsFor self.now c h → result ≡ counts_at c h which }
    {
        self.caches.counts(which)
    }

    /// The greatest latency of a fetch.
    pub fn greatest_fetch(&self) -> u32
        ensures { result ≡ greatest_fetch_of (config_of self.now) }
    {
        let way = if self.config.il1.is_shared() {
            self.timings.dl1.greatest
        } else {
            self.timings.il1.greatest
        };
        way.max(self.timings.itlb.greatest)
    }

    /// The greatest latency of a load.
    pub fn greatest_load(&self) -> u32
        ensures { result ≡ greatest_load_of (config_of self.now) }
    {
        self.timings.dl1.greatest.max(self.timings.dtlb.greatest)
    }

    /// What a fetch takes whose first level hits: the lookup latency of that level.
    pub fn fetch_hit(&self) -> u32
        ensures { result ≡ fetch_hit_of (config_of self.now) }
    {
        if self.config.il1.is_shared() {
            self.config.dl1lat
        } else {
            self.config.il1lat
        }
    }
}
