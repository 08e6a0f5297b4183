ghost use Rattle.std.specs.Prelude.{◌≡◌, ℕ, ◌≤◌, List, Bool};
ghost use Rattle.cache_core.specs.declared.config.CacheConfig.{CacheConfig};
ghost use Rattle.mem_hier.specs.declared.config.HierConfig.{HierConfig};
ghost use Rattle.mem_hier.specs.declared.config.Which.{Which};
ghost use Rattle.mem_hier.specs.Limits.{IsAllowed};
ghost use Rattle.mem_hier.specs.Replay.{Reference, calls_of};
ghost use Rattle.mem_hier.specs.Stands.{references_in, last_cycle_in, CyclesRise};
ghost use Rattle.mem_hier.specs.Laws.{HasBounds, FirstMisses, WaitIsBounded, HitsTakeLookups, IsBare, TakesLookups, WorkedLatencies, CountsAsked, IsBalanced};

/// Every latency is at least 1 and at most the greatest of its kind, and a fetch takes no less than where its first level
/// hits.
pub fn latencies_have_bounds()
    ensures { (c : HierConfig) (h : List Reference) (addr cycle : ℕ) → IsAllowed c → CyclesRise h → last_cycle_in h ≤ cycle → HasBounds c h addr cycle }
{}

/// The first reference of a new hierarchy takes the greatest latency of its kind, also after settlings.
pub fn first_references_miss()
    ensures { (c : HierConfig) (h : List Reference) (addr cycle : ℕ) → references_in h ≡ 0 → FirstMisses c h addr cycle }
{}

/// Where hits wait, one takes no longer than the greatest latency of its level.
pub fn waiting_hits_are_bounded()
    ensures { (c : HierConfig) (h : List Reference) (which : Which) (addr cycle : ℕ) → IsAllowed c → CyclesRise h → last_cycle_in h ≤ cycle → WaitIsBounded c h which addr cycle }
{}

/// Right after a settling, every hit of a cache or TLB takes its lookup latency.
pub fn settled_hits_take_lookups()
    ensures { (c : HierConfig) (h : List Reference) (which : Which) (addr cycle : ℕ) → IsAllowed c → HitsTakeLookups c h which addr cycle }
{}

/// With every first level and TLB none, each latency is the lookup latency.
pub fn bare_references_take_lookups()
    ensures { (c : HierConfig) (h : List Reference) (addr cycle : ℕ) → IsAllowed c → IsBare c → TakesLookups c h addr cycle }
{}

/// A cache or TLB counts all accesses that it is asked for, those of both sides in their order, as one cache would: each
/// reference asks its TLB and the first level of its way, and each miss there asks the second level.
pub fn caches_count_what_is_asked()
    ensures { (c : HierConfig) (h : List Reference) (which : Which) → CountsAsked c h which }
{}

/// The accesses of a second level are the misses and write-backs of the first levels in front of it.
pub fn levels_balance()
    ensures { (c : HierConfig) (h : List Reference) (il1 dl1 : CacheConfig) → IsBalanced c (calls_of c h) il1 dl1 }
{}

/// The greatest latencies of the defaults are 39, and some references take what a pencil finds.
pub fn worked_latencies()
    ensures { WorkedLatencies }
{}
