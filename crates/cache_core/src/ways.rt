ghost use Rattle.std.specs.Prelude.{◌≡◌, ℕ, ◌+◌, ◌*◌, ◌^◌, ◌<◌, ◌≤◌, All, length, slice_index_or, IsTrue, None};
ghost use Rattle.std.specs.Option.{option_map_or};
ghost use Rattle.cache_core.specs.declared.config.CacheConfig.{CacheConfig};
ghost use Rattle.cache_core.specs.Replay.{touched, find_line, changed, ending_at};
ghost use Rattle.cache_core.specs.Ways.{unused, holds, IsPlace, newest_first, told_of, renewed, entered, ended, IsSoundSet};

use crate::answers::{Touch, Victim};
use crate::config::CacheConfig;

/// A place for one block of a set.
#[derive(Clone, Copy, Debug, PartialEq, Eq)]
pub struct Way {
    /// The block's number: its addresses divided by the bytes of a block.
    pub tag: u32,
    /// Whether the block was written since it came in.
    pub dirty: bool,
    /// The cycle in which the block's bytes are there, 0 until it is set.
    pub fill_end: u64,
    /// The number of the access by which the block came in or, where the least recently used leaves first, of the last
    /// one that it had. The first access has number 1, and 0 says that no block is held.
    pub stamp: u64,
}

impl Way {
    /// A place that holds nothing.
    pub(crate) fn unused() -> Way
        ensures { result ≡ unused }
    {
        Way {
            tag: 0,
            dirty: false,
            fill_end: 0,
            stamp: 0,
        }
    }

    /// Whether it holds the block.
    fn holds(self, block: u32) -> bool
        ensures { result ≡ holds block self }
    {
        self.tag == block && self.stamp != 0
    }

    /// What is told of the block when it leaves; nothing where none is held.
    fn victim(&self, config: &CacheConfig) -> Option<Victim>
        requires { self.now.tag * config.now.block < 2 ^ 32 }
        ensures { result ≡ told_of config.now self.now }
    {
        if self.stamp == 0 {
            return None;
        }
        Some(Victim {
            addr: self.tag * config.block,
            dirty: self.dirty,
        })
    }

    /// Holds a block that comes in from now on.
    fn enter(&mut self, block: u32, write: bool, stamp: u64)
        ensures { self.new ≡ entered block write stamp }
    {
        self.tag = block;
        self.dirty = write;
        self.fill_end = 0;
        self.stamp = stamp;
    }

    /// Marks the block of a hit, and gives it the hit's stamp where a hit renews a block.
    fn renew(&mut self, write: bool, fifo: bool, stamp: u64)
        ensures { self.new ≡ renewed fifo write stamp self.old }
    {
        self.dirty = self.dirty || write;
        if !fifo {
            self.stamp = stamp;
        }
    }
}

/// What a walk over the ways of a set finds for a block.
#[derive(Clone, Copy, Debug, PartialEq, Eq)]
struct Look {
    /// The place of the way that holds the block.
    place: Option<usize>,
    /// The place of the way with the least stamp, which holds nothing or the block that leaves first.
    oldest: usize,
}

/// Looks for the block, and for the way with the least stamp, in one walk. It looks at every way, since leaving at the one
/// that is found is what a processor can't foresee.
fn look_up(ways: &[Way], block: u32) -> Look
    requires { 1 ≤ length ways.now }
    ensures place { IsPlace block ways.now result.place }
    ensures inside { result.oldest < length ways.now }
    ensures least { All (λ w. (slice_index_or ways.now result.oldest unused).stamp ≤ w.stamp) ways.now }
{
    let mut found = ways.len();
    let mut oldest = 0;
    let mut least = ways[0].stamp;
    for at in 0..ways.len() {
        let way = ways[at];
        if way.holds(block) {
            found = at;
        }
        if way.stamp < least {
            oldest = at;
            least = way.stamp;
        }
    }
    if found < ways.len() {
        Look {
            place: Some(found),
            oldest,
        }
    } else {
        Look {
            place: None,
            oldest,
        }
    }
}

/// Looks for the block first where it likely is, and else in one walk. Where it is held, the oldest way may be any.
fn look_near(ways: &[Way], block: u32, likely: usize) -> Look
    requires { 1 ≤ length ways.now }
    ensures place { IsPlace block ways.now result.place }
    ensures inside { result.oldest < length ways.now }
    ensures least { result.place ≡ None → All (λ w. (slice_index_or ways.now result.oldest unused).stamp ≤ w.stamp) ways.now }
{
    if likely < ways.len() && ways[likely].holds(block) {
        return Look {
            place: Some(likely),
            oldest: likely,
        };
    }
    look_up(ways, block)
}

/// The place of the way that holds the block.
fn place_of(ways: &[Way], block: u32) -> Option<usize>
    ensures { IsPlace block ways.now result }
{
    let mut found = ways.len();
    for place in 0..ways.len() {
        let way = ways[place];
        if way.holds(block) {
            found = place;
        }
    }
    if found < ways.len() {
        Some(found)
    } else {
        None
    }
}

/// The place of the way that holds the block, tried first at the place where it likely is.
fn place_near(ways: &[Way], block: u32, likely: usize) -> Option<usize>
    ensures { IsPlace block ways.now result }
{
    if likely < ways.len() && ways[likely].holds(block) {
        return Some(likely);
    }
    place_of(ways, block)
}

/// Reads or writes the block in the ways of its set, after so many accesses of the cache. It's looked for first at the
/// place of the block that was touched last, and its own place is noted.
pub(crate) fn touch(
    ways: &mut [Way],
    block: u32,
    write: bool,
    config: &CacheConfig,
    accesses: u64,
    last: &mut usize,
) -> Touch
    requires small { accesses + 1 < 2 ^ 62 }
    requires sound { IsSoundSet config.now accesses ways.old × (1 ≤ config.now.ways) }
    requires space { block * config.now.block < 2 ^ 32 }
    ensures touch { result ≡ (touched config.now (newest_first accesses ways.old) block write).touch }
    ensures lines { newest_first (accesses + 1) ways.new ≡ (touched config.now (newest_first accesses ways.old) block write).lines }
    ensures kept { IsTrue result.hit → result.victim ≡ None }
    ensures sound { IsSoundSet config.now (accesses + 1) ways.new }
{
    let look = look_near(ways, block, *last);
    match look.place {
        Some(place) => {
            *last = place;
            ways[place].renew(write, config.fifo, accesses + 1);
            Touch {
                hit: true,
                victim: None,
            }
        }
        None => {
            let victim = ways[look.oldest].victim(config);
            ways[look.oldest].enter(block, write, accesses + 1);
            *last = look.oldest;
            Touch { hit: false, victim }
        }
    }
}

/// Sets the block's fill end, where the block is held. Where it likely is, it's tried first.
pub(crate) fn fill(ways: &mut [Way], block: u32, end: u64, likely: usize)
    ensures lines { (c : CacheConfig) (n : ℕ) → IsSoundSet c n ways.old → newest_first n ways.new ≡ changed block (ending_at end) (newest_first n ways.old) }
    ensures sound { (c : CacheConfig) (n : ℕ) → IsSoundSet c n ways.old → IsSoundSet c n ways.new }
{
    if let Some(place) = place_near(ways, block, likely) {
        ways[place].fill_end = end;
    }
}

/// The block's fill end, 0 where the block is not held.
pub(crate) fn fill_end(ways: &[Way], block: u32) -> u64
    ensures { (c : CacheConfig) (n : ℕ) → IsSoundSet c n ways.now → result ≡ option_map_or (λ l. l.fill_end) (find_line block (newest_first n ways.now)) 0 }
{
    match place_of(ways, block) {
        Some(place) => ways[place].fill_end,
        None => 0,
    }
}
