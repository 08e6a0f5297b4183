ghost use Rattle.std.specs.Prelude.{ℕ, ◌≤◌, ◌↔◌, Bool, List, IsSome};
ghost use Rattle.cache_core.specs.declared.config.CacheConfig.{CacheConfig};
ghost use Rattle.cache_core.specs.Replay.{Call, block_of, line_at};
ghost use Rattle.cache_core.specs.Limits.{IsWithinLimits};
ghost use Rattle.cache_core.specs.Stands.{Held, StandsFor, Holds};
ghost use Rattle.cache_core.specs.Laws.{CountsBalance, KeepsPlaces, AccessKeeps, FillEnds, ReferencesAlone, IsReplacing, FiveAccesses};

/// Every access is a hit or a miss, only a miss replaces, and only a replacement writes back.
pub fn counts_balance()
    ensures { (c : CacheConfig) (h : List Call) → CountsBalance c h }
{}

/// No set holds more blocks than it has ways, a block twice, or a block of another set.
pub fn sets_keep_places()
    ensures { (c : CacheConfig) (h : List Call) (k : ℕ) → 1 ≤ c.ways → KeepsPlaces c h k }
{}

/// A cache holds the block of an address exactly where the calls that it stands for leave it held.
pub fn calls_tell_what_is_held()
    ensures { (v : Held) (c : CacheConfig) (h : List Call) (addr : ℕ) → IsWithinLimits c → StandsFor v c h → Holds v addr ↔ IsSome (line_at c h (block_of c addr)) }
{}

/// An access hits exactly where its block is held. A hit changes no contents but order and dirty mark, and a miss
/// brings its block in, for which nothing but the victim leaves.
pub fn accesses_keep_contents()
    ensures { (c : CacheConfig) (h : List Call) (addr : ℕ) (write : Bool) → 1 ≤ c.ways → AccessKeeps c h addr write }
{}

/// A fill sets the fill end of its block alone, a settling makes all 0, a block that stays held through an access keeps
/// its own, and one that comes in has 0.
pub fn fill_ends_stay()
    ensures { (c : CacheConfig) (h : List Call) → 1 ≤ c.ways → FillEnds c h }
{}

/// Contents, answers and counts are those of the accesses alone: fills and settlings change none of them.
pub fn references_decide()
    ensures { (c : CacheConfig) (h : List Call) → ReferencesAlone c h }
{}

/// Where the least recently used leaves, a set holds the blocks accessed last; where the first in leaves, it holds the
/// blocks that came in last; as many as it has ways, in either case.
pub fn newest_stay()
    ensures { (c : CacheConfig) (h : List Call) (k : ℕ) → 1 ≤ c.ways → IsReplacing c h k }
{}

/// What five accesses of three blocks count in one set of two ways, under either kind, with and without a write.
pub fn five_accesses_count()
    ensures { FiveAccesses }
{}
