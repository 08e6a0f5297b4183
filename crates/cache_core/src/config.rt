ghost use Rattle.std.specs.Prelude.{◌≡◌, ◌*◌, ◌↔◌, IsTrue};
ghost use Rattle.cache_core.specs.Limits.{IsWithinLimits};
ghost use Rattle.cache_core.specs.Replay.{block_of, set_of};

/// The shape of a cache.
#[derive(Clone, Copy, Debug, PartialEq, Eq)]
pub struct CacheConfig {
    /// How many sets there are: a power of two, at most 65,536.
    pub sets: u32,
    /// The bytes of a block: a power of two from 8 to 65,536.
    pub block: u32,
    /// How many blocks a set holds at most: 1 to 64. All sets together hold at most 1,048,576.
    pub ways: u32,
    /// Which block leaves a full set: the first that came in where true, else the least recently used.
    pub fifo: bool,
}

impl CacheConfig {
    /// Whether a cache may have this shape.
    pub fn is_within_limits(&self) -> bool
        ensures { IsTrue result ↔ IsWithinLimits self.now }
    {
        self.sets.is_power_of_two()
            && self.sets <= 65_536
            && self.block.is_power_of_two()
            && self.block >= 8
            && self.block <= 65_536
            && self.ways >= 1
            && self.ways <= 64
            && self.sets * self.ways <= 1_048_576
    }

    /// The block of an address.
    pub(crate) fn block_of(&self, addr: u32) -> u32
        requires { IsWithinLimits self.now }
        ensures { result ≡ block_of self.now addr }
    {
        addr >> self.block.ilog2()
    }

    /// The place of the first way of the set to which an address belongs, where the sets stand one after the other.
    pub(crate) fn first_way(&self, addr: u32) -> usize
        requires { IsWithinLimits self.now }
        ensures { result ≡ set_of self.now (block_of self.now addr) * self.now.ways }
    {
        let block = self.block_of(addr);
        ((block & (self.sets - 1)) * self.ways) as usize
    }
}
