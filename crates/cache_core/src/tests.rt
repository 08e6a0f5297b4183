ghost use Rattle.std.specs.Prelude.{◌+◌, ◌^◌, ◌<◌, ◌≤◌, length};
ghost use Rattle.cache_core.specs.Stands.{accesses_of};

use crate::{Cache, CacheConfig, Counts, Touch, Victim};
use std::alloc::Global;

/// What happens at a cache, and what is seen of it.
#[derive(Clone, Copy)]
enum Step {
    /// A read of this address meets this.
    Read(u32, Touch),
    /// So does a write.
    Write(u32, Touch),
    /// A read, after which the block gets this fill end.
    ReadAndFill(u32, Touch, u64),
    /// A write, after which the block gets this fill end.
    WriteAndFill(u32, Touch, u64),
    /// The block of this address has this fill end.
    End(u32, u64),
    /// All fill ends are taken away.
    Settle,
}

/// A cache of so many sets, bytes of a block, and ways.
fn shape(sets: u32, block: u32, ways: u32, fifo: bool) -> CacheConfig {
    CacheConfig {
        sets,
        block,
        ways,
        fifo,
    }
}

/// What so many accesses counted.
fn counted(hits: u8, misses: u8, replacements: u8, writebacks: u8) -> Counts {
    Counts {
        accesses: u64::from(hits) + u64::from(misses),
        hits: u64::from(hits),
        misses: u64::from(misses),
        replacements: u64::from(replacements),
        writebacks: u64::from(writebacks),
    }
}

/// Does a step; whether what it meets is as it says.
fn agrees(cache: &mut Cache, step: Step) -> bool
    requires { accesses_of cache.old + 1 < 2 ^ 62 }
    ensures { accesses_of cache.new ≤ accesses_of cache.old + 1 }
{
    match step {
        Step::Read(addr, want) => cache.access(addr, false) == want,
        Step::Write(addr, want) => cache.access(addr, true) == want,
        Step::ReadAndFill(addr, want, end) => {
            let touch = cache.access(addr, false);
            cache.fill(addr, end);
            touch == want
        }
        Step::WriteAndFill(addr, want, end) => {
            let touch = cache.access(addr, true);
            cache.fill(addr, end);
            touch == want
        }
        Step::End(addr, want) => cache.fill_end(addr) == want,
        Step::Settle => {
            cache.settle();
            true
        }
    }
}

/// Whether a new cache of this shape goes through these steps and then has counted this.
fn goes(alloc: Global, config: CacheConfig, steps: &[Step], counts: Counts) -> bool
    requires { length steps.now < 1000 }
{
    if !config.is_within_limits() {
        return false;
    }
    let Ok(mut cache) = Cache::new(alloc, &config) else {
        return false;
    };
    for step in steps {
        if !agrees(&mut cache, *step) {
            return false;
        }
    }
    cache.counts() == counts
}

const HIT: Touch = Touch {
    hit: true,
    victim: None,
};

const MISS: Touch = Touch {
    hit: false,
    victim: None,
};

/// A miss for which a clean block left.
fn clean(addr: u32) -> Touch {
    Touch {
        hit: false,
        victim: Some(Victim { addr, dirty: false }),
    }
}

/// A miss for which a dirty block left.
fn dirty(addr: u32) -> Touch {
    Touch {
        hit: false,
        victim: Some(Victim { addr, dirty: true }),
    }
}

/// Blocks 0, 1, 0, 2 and 0 of 32 bytes in one set of two ways.
#[test]
fn five_accesses_count_by_kind(rt: HostRuntime) {
    let lru = [
        Step::Read(0, MISS),
        Step::Read(32, MISS),
        Step::Read(0, HIT),
        Step::Read(64, clean(32)),
        Step::Read(0, HIT),
    ];
    let fifo = [
        Step::Read(0, MISS),
        Step::Read(32, MISS),
        Step::Read(0, HIT),
        Step::Read(64, clean(0)),
        Step::Read(0, clean(32)),
    ];
    let lru_written = [
        Step::Write(0, MISS),
        Step::Read(32, MISS),
        Step::Read(0, HIT),
        Step::Read(64, clean(32)),
        Step::Read(0, HIT),
    ];
    let fifo_written = [
        Step::Write(0, MISS),
        Step::Read(32, MISS),
        Step::Read(0, HIT),
        Step::Read(64, dirty(0)),
        Step::Read(0, clean(32)),
    ];
    let agree = goes(
        rt.alloc(),
        shape(1, 32, 2, false),
        &lru,
        counted(2, 3, 1, 0),
    ) && goes(
        rt.alloc(),
        shape(1, 32, 2, true),
        &fifo,
        counted(1, 4, 2, 0),
    ) && goes(
        rt.alloc(),
        shape(1, 32, 2, false),
        &lru_written,
        counted(2, 3, 1, 0),
    ) && goes(
        rt.alloc(),
        shape(1, 32, 2, true),
        &fifo_written,
        counted(1, 4, 2, 1),
    );
    assert!(rt; agree);
}

/// Two sets of one way: blocks 0 and 2 take turns in set 0, block 1 stays in set 1.
#[test]
fn blocks_of_a_set_take_turns(rt: HostRuntime) {
    let steps = [
        Step::Write(0, MISS),
        Step::Read(7, HIT),
        Step::Read(8, MISS),
        Step::Read(16, dirty(0)),
        Step::Read(3, clean(16)),
        Step::Write(15, HIT),
    ];
    assert!(rt;
        goes(
            rt.alloc(),
            shape(2, 8, 1, false),
            &steps,
            counted(2, 4, 2, 1)
        )
    );
}

/// One set of four ways: the block accessed longest ago leaves, or else the one that came in first.
#[test]
fn the_oldest_block_leaves_a_full_set(rt: HostRuntime) {
    let lru = [
        Step::Read(0, MISS),
        Step::Write(16, MISS),
        Step::Read(32, MISS),
        Step::Write(48, MISS),
        Step::Write(0, HIT),
        Step::Read(64, dirty(16)),
        Step::Read(80, clean(32)),
    ];
    let fifo = [
        Step::Read(0, MISS),
        Step::Write(16, MISS),
        Step::Read(32, MISS),
        Step::Write(48, MISS),
        Step::Write(0, HIT),
        Step::Read(64, dirty(0)),
        Step::Read(80, dirty(16)),
    ];
    let agree = goes(
        rt.alloc(),
        shape(1, 16, 4, false),
        &lru,
        counted(1, 6, 2, 1),
    ) && goes(
        rt.alloc(),
        shape(1, 16, 4, true),
        &fifo,
        counted(1, 6, 2, 2),
    );
    assert!(rt; agree);
}

/// Two sets of three ways, whose blocks leave by turns.
#[test]
fn sets_of_three_ways_stand_apart(rt: HostRuntime) {
    let steps = [
        Step::Write(0, MISS),
        Step::Read(8, MISS),
        Step::Read(16, MISS),
        Step::Read(24, MISS),
        Step::Read(32, MISS),
        Step::Read(0, HIT),
        Step::Read(48, clean(16)),
        Step::Write(40, MISS),
        Step::Read(56, clean(8)),
        Step::Read(24, HIT),
        Step::Read(8, dirty(40)),
        Step::Read(64, clean(32)),
        Step::Read(80, dirty(0)),
    ];
    assert!(rt;
        goes(
            rt.alloc(),
            shape(2, 8, 3, false),
            &steps,
            counted(2, 11, 5, 2)
        )
    );
}

/// One line of the largest block, at the ends of the address space.
#[test]
fn the_largest_block_holds_its_addresses(rt: HostRuntime) {
    let steps = [
        Step::Write(0xffff_ffff, MISS),
        Step::Read(0xffff_0000, HIT),
        Step::Read(0xfffe_ffff, dirty(0xffff_0000)),
        Step::Read(0, clean(0xfffe_0000)),
    ];
    assert!(rt;
        goes(
            rt.alloc(),
            shape(1, 65_536, 1, true),
            &steps,
            counted(1, 3, 2, 1)
        )
    );
}

#[test]
fn fill_ends_follow_their_blocks(rt: HostRuntime) {
    let steps = [
        Step::End(0, 0),
        Step::Read(0, MISS),
        Step::End(0, 0),
        Step::ReadAndFill(0, HIT, 30),
        Step::WriteAndFill(8, MISS, 50),
        Step::End(7, 30),
        Step::End(15, 50),
        Step::Read(0, HIT),
        Step::End(0, 30),
        Step::Read(16, clean(0)),
        Step::End(0, 0),
        Step::End(16, 0),
        Step::Read(0, clean(16)),
        Step::End(0, 0),
        Step::End(8, 50),
        Step::Settle,
        Step::End(8, 0),
        Step::Read(24, dirty(8)),
    ];
    assert!(rt;
        goes(
            rt.alloc(),
            shape(2, 8, 1, false),
            &steps,
            counted(2, 5, 3, 1)
        )
    );
}

/// Whether each of these shapes may stand, or may not.
fn are_limited(rows: &[(CacheConfig, bool)]) -> bool {
    rows.iter()
        .all(|(config, want)| config.is_within_limits() == *want)
}

#[test]
fn shapes_have_limits(rt: HostRuntime) {
    let rows = [
        (shape(1, 8, 1, false), true),
        (shape(65_536, 65_536, 16, true), true),
        (shape(65_536, 8, 17, true), false),
        (shape(16_384, 8, 64, false), true),
        (shape(131_072, 8, 1, false), false),
        (shape(0, 8, 1, false), false),
        (shape(3, 8, 1, false), false),
        (shape(4, 4, 1, false), false),
        (shape(4, 24, 1, false), false),
        (shape(4, 131_072, 1, false), false),
        (shape(4, 8, 0, false), false),
        (shape(4, 8, 65, false), false),
    ];
    assert!(rt; are_limited(&rows));
}
