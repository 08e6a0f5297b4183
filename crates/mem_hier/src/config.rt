ghost use Rattle.std.specs.Prelude.{◌≡◌, ◌↔◌, IsTrue};
ghost use Rattle.mem_hier.specs.Limits.{is_shared, is_off, own, own_or, IsBetween, IsShape, has_smaller_blocks, has_clash, HasShapes, HasLookups, HasMemory, IsAllowed};

use cache_core::CacheConfig;

/// One level of a side.
#[derive(Clone, Copy, Debug, PartialEq, Eq)]
pub enum Level {
    /// There is none.
    Off,
    /// A cache of this shape.
    Own(CacheConfig),
    /// The data side's cache. Only the instruction side can have it.
    Shared,
}

/// Which caches and TLBs there are, and what they and memory take, in cycles. `docs/caches.md` has the rules.
#[derive(Clone, Copy, Debug, PartialEq, Eq)]
pub struct HierConfig {
    /// The first level of fetches. Where it is shared, fetches go the data way.
    pub il1: Level,
    /// The second level of fetches.
    pub il2: Level,
    /// The first level of loads and stores, which is never `Shared`.
    pub dl1: Level,
    /// The second level of loads and stores, which is never `Shared`.
    pub dl2: Level,
    /// The shape of the instruction TLB, if there is one.
    pub itlb: Option<CacheConfig>,
    /// The shape of the data TLB, if there is one.
    pub dtlb: Option<CacheConfig>,
    /// The lookup latency of `il1`: 1 to 100.
    pub il1lat: u32,
    /// The lookup latency of `il2`: 1 to 100.
    pub il2lat: u32,
    /// The lookup latency of `dl1`: 1 to 100.
    pub dl1lat: u32,
    /// The lookup latency of `dl2`: 1 to 100.
    pub dl2lat: u32,
    /// The latency of the first chunk that comes from memory: 1 to 1,000.
    pub mem_first: u32,
    /// The latency of each further chunk: 1 to 100.
    pub mem_inter: u32,
    /// The bytes of a chunk: a power of two from 1 to 64.
    pub mem_width: u32,
    /// The latency of a miss of a TLB: 1 to 1,000.
    pub tlb_lat: u32,
    /// Whether a hit waits until its block is filled.
    pub wait: bool,
}

/// A cache or TLB.
#[derive(Clone, Copy, Debug, PartialEq, Eq)]
pub enum Which {
    /// The first level of fetches.
    Il1,
    /// The first level of loads and stores.
    Dl1,
    /// The second level of fetches.
    Il2,
    /// The second level of loads and stores.
    Dl2,
    /// The TLB of fetches.
    Itlb,
    /// The TLB of loads and stores.
    Dtlb,
}

impl Level {
    /// Whether it is the data side's cache.
    pub fn is_shared(&self) -> bool
        ensures { result ≡ is_shared self.now }
    {
        match self {
            Level::Shared => true,
            Level::Off | Level::Own(_) => false,
        }
    }

    /// Whether there is none.
    pub fn is_off(&self) -> bool
        ensures { result ≡ is_off self.now }
    {
        match self {
            Level::Off => true,
            Level::Own(_) | Level::Shared => false,
        }
    }

    /// The shape of its own cache, if it has one.
    pub fn own(&self) -> Option<CacheConfig>
        ensures { result ≡ own self.now }
    {
        self.own_or(None)
    }

    /// The shape of its cache, where the data side's has the shape `shared`.
    pub(crate) fn own_or(&self, shared: Option<CacheConfig>) -> Option<CacheConfig>
        ensures { result ≡ own_or self.now shared }
    {
        match self {
            Level::Off => None,
            Level::Own(shape) => Some(*shape),
            Level::Shared => shared,
        }
    }
}

/// Whether a number is within these limits.
fn is_between(low: u32, high: u32, n: u32) -> bool
    ensures { IsTrue result ↔ IsBetween low high n }
{
    low <= n && n <= high
}

/// Whether a shape that is there is one that a cache may have.
fn is_shape(shape: Option<CacheConfig>) -> bool
    ensures { IsTrue result ↔ IsShape shape }
{
    match shape {
        Some(shape) => shape.is_within_limits(),
        None => true,
    }
}

/// Whether both are such shapes.
fn are_shapes(one: Option<CacheConfig>, other: Option<CacheConfig>) -> bool
    ensures { IsTrue result ↔ (IsShape one × IsShape other) }
{
    is_shape(one) && is_shape(other)
}

/// Whether the blocks of the second level are smaller than those of the first.
fn has_smaller_blocks(second: Option<CacheConfig>, first: Option<CacheConfig>) -> bool
    ensures { result ≡ has_smaller_blocks second first }
{
    match (second, first) {
        (Some(second), Some(first)) => second.block < first.block,
        _ => false,
    }
}

impl HierConfig {
    /// Whether levels stand beside each other that can't: a second level without a first one; a shared level whose data
    /// side has none; a shared first level beside a second one; or a second level with smaller blocks than a first one
    /// on its way.
    pub fn clashes(&self) -> bool
        ensures { result ≡ has_clash self.now }
    {
        let behind = self.il2.own_or(self.dl2.own());
        let second_alone = self.il1.is_off() && !self.il2.is_off();
        let data_second_alone = self.dl1.is_off() && !self.dl2.is_off();
        let first_shared = self.il1.is_shared() && (self.dl1.is_off() || !self.il2.is_off());
        let second_shared = self.il2.is_shared() && self.dl2.is_off();
        let small = has_smaller_blocks(behind, self.il1.own());
        let data_small = has_smaller_blocks(self.dl2.own(), self.dl1.own());
        second_alone || data_second_alone || first_shared || second_shared || small || data_small
    }

    fn has_shapes(&self) -> bool
        ensures { IsTrue result ↔ HasShapes self.now }
    {
        let instructions = are_shapes(self.il1.own(), self.il2.own());
        let data = are_shapes(self.dl1.own(), self.dl2.own());
        let pages = are_shapes(self.itlb, self.dtlb);
        instructions && data && pages
    }

    fn has_lookups(&self) -> bool
        ensures { IsTrue result ↔ HasLookups self.now }
    {
        let instructions = is_between(1, 100, self.il1lat) && is_between(1, 100, self.il2lat);
        let data = is_between(1, 100, self.dl1lat) && is_between(1, 100, self.dl2lat);
        instructions && data
    }

    fn has_memory(&self) -> bool
        ensures { IsTrue result ↔ HasMemory self.now }
    {
        let chunks = is_between(1, 1000, self.mem_first) && is_between(1, 100, self.mem_inter);
        let width = is_between(1, 64, self.mem_width) && self.mem_width.is_power_of_two();
        chunks && width && is_between(1, 1000, self.tlb_lat)
    }

    /// Whether a hierarchy may have this configuration: each number is within its limits, neither level of the data side
    /// is shared, and nothing clashes.
    pub fn is_allowed(&self) -> bool
        ensures { IsTrue result ↔ IsAllowed self.now }
    {
        let numbers = self.has_shapes() && self.has_lookups() && self.has_memory();
        let own_data = !self.dl1.is_shared() && !self.dl2.is_shared();
        numbers && own_data && !self.clashes()
    }
}
