//! What the levels take.
ghost use Rattle.std.specs.Prelude.{◌≡◌, ℕ, ◌+◌, ◌^◌, ◌<◌, ◌≤◌, Option, Some};
ghost use Rattle.cache_core.specs.declared.config.CacheConfig.{CacheConfig};
ghost use Rattle.mem_hier.specs.Limits.{IsAllowed, IsShape};
ghost use Rattle.mem_hier.specs.Replay.{memory_latency, last_timing, first_timing, tlb_timing, hit_latency};
ghost use Rattle.mem_hier.specs.Sound.{timings_of};

use crate::config::{HierConfig, Level};
use cache_core::CacheConfig;
use std::marker::Model;

/// What a level takes, in cycles.
#[derive(Clone, Copy, Debug, PartialEq, Eq)]
pub(crate) struct Timing {
    /// Whether a hit waits until its block is filled.
    pub(crate) wait: bool,
    /// The lookup latency.
    pub(crate) lookup: u32,
    /// The latency of a miss that no level behind this one holds.
    pub(crate) greatest: u32,
}

impl Model for Timing {
    ghost use Rattle.mem_hier.specs.Replay.{Timing};

    ghost Value = { Timing };

    ghost view = { λ t. record { wait = t.wait; lookup = t.lookup; greatest = t.greatest } };

    ghost inverse = { λ v. record { wait = v.wait; lookup = v.lookup; greatest = v.greatest } };
}

impl Timing {
    /// What a hit takes whose block is there in the cycle `end`. No fill takes more than the greatest latency, so nothing
    /// is cut off.
    pub(crate) fn hit(&self, end: u64, cycle: u64) -> u32
        requires { self.now.lookup ≤ self.now.greatest }
        ensures latency { end ≤ cycle + self.now.greatest → result ≡ hit_latency self.now end cycle }
        ensures bound { result ≤ self.now.greatest }
    {
        if !self.wait {
            return self.lookup;
        }
        let left = end.saturating_sub(cycle).min(self.greatest as u64);
        self.lookup.max(left as u32)
    }
}

/// What all levels and TLBs take.
#[derive(Clone, Copy, Debug, PartialEq, Eq)]
pub(crate) struct Timings {
    pub(crate) il1: Timing,
    /// The second level of fetches, its own or the data side's.
    pub(crate) behind_il1: Timing,
    pub(crate) dl1: Timing,
    pub(crate) dl2: Timing,
    pub(crate) itlb: Timing,
    pub(crate) dtlb: Timing,
}

impl HierConfig {
    /// What it takes to bring a block from memory.
    fn memory_latency(&self, block: u32) -> u32
        requires allowed { IsAllowed self.now }
        requires block { (1 ≤ block) × (block ≤ 65536) }
        ensures latency { result ≡ memory_latency self.now block }
        ensures bound { result ≤ 10000000 }
    {
        let chunks = (block + self.mem_width - 1) / self.mem_width;
        self.mem_first + self.mem_inter * (chunks - 1)
    }

    fn last_timing(&self, lookup: u32, shape: Option<CacheConfig>) -> Timing
        requires allowed { IsAllowed self.now }
        requires lookup { lookup ≤ 100 }
        requires shape { IsShape shape }
        ensures timing { result ≡ last_timing self.now lookup shape }
        ensures bound { result.greatest ≤ 10000100 }
    {
        let greatest = match shape {
            Some(shape) => lookup + self.memory_latency(shape.block),
            None => lookup,
        };
        Timing {
            wait: self.wait,
            lookup,
            greatest,
        }
    }

    fn first_timing(
        &self,
        lookup: u32,
        shape: Option<CacheConfig>,
        second: u32,
        behind: Option<CacheConfig>,
    ) -> Timing
        requires allowed { IsAllowed self.now }
        requires lookups { (lookup ≤ 100) × (second ≤ 100) }
        requires shapes { IsShape shape × IsShape behind }
        ensures timing { result ≡ first_timing self.now lookup shape second behind }
    {
        if shape.is_some() && behind.is_some() {
            Timing {
                wait: self.wait,
                lookup,
                greatest: lookup + self.last_timing(second, behind).greatest,
            }
        } else {
            self.last_timing(lookup, shape)
        }
    }

    fn tlb_timing(&self, shape: Option<CacheConfig>) -> Timing
        ensures { result ≡ tlb_timing self.now shape }
    {
        Timing {
            wait: self.wait,
            lookup: 1,
            greatest: if shape.is_some() { self.tlb_lat } else { 1 },
        }
    }

    /// What all levels and TLBs take.
    pub(crate) fn timings(&self) -> Timings
        requires { IsAllowed self.now }
        ensures { result ≡ timings_of self.now }
    {
        let shared = self.dl2.own();
        let behind = self.il2.own_or(shared);
        let behind_lookup = if self.il2.is_shared() {
            self.dl2lat
        } else {
            self.il2lat
        };
        Timings {
            il1: self.first_timing(self.il1lat, self.il1.own(), behind_lookup, behind),
            behind_il1: self.last_timing(behind_lookup, behind),
            dl1: self.first_timing(self.dl1lat, self.dl1.own(), self.dl2lat, shared),
            dl2: self.last_timing(self.dl2lat, shared),
            itlb: self.tlb_timing(self.itlb),
            dtlb: self.tlb_timing(self.dtlb),
        }
    }
}
