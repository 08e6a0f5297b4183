ghost use Rattle.std.specs.Prelude.{◌≡◌, ◌+◌, ◌^◌, ◌<◌, ◌≤◌, length, IfSome};
ghost use Rattle.mem_hier.specs.Stands.{references_of, last_cycle_of};

use crate::{Hier, HierConfig, Level, Which};
use cache_core::{CacheConfig, Counts};
use ss_base::OutOfMemory;
use std::alloc::Global;
use std::test::Fail;

/// A request of a hierarchy, at an address in a cycle.
#[derive(Clone, Copy)]
enum Request {
    Fetch(u32, u64),
    Load(u32, u64),
    Store(u32, u64),
    Settle,
}

/// Blocks that come and go in both levels, some of them in flight, with a settling after which cycles begin anew.
const REQUESTS: [Request; 18] = [
    Request::Fetch(0x100, 0),
    Request::Load(0x104, 0),
    Request::Fetch(0x108, 1),
    Request::Load(0x108, 3),
    Request::Store(0x120, 4),
    Request::Fetch(0x120, 5),
    Request::Load(0x140, 6),
    Request::Store(0x204, 6),
    Request::Fetch(0x204, 20),
    Request::Load(0x124, 21),
    Request::Settle,
    Request::Load(0x10c, 2),
    Request::Fetch(0x180, 2),
    Request::Store(0x1c4, 3),
    Request::Load(0x1c8, 9),
    Request::Fetch(0x118, 50),
    Request::Load(0x208, 50),
    Request::Fetch(0x10c, 51),
];

/// A dirty block that leaves the first level after it left the second one, where its write misses then, and a read of it
/// while that write still fills its block; then settlings alone.
const WRITTEN_AGAIN: [Request; 18] = [
    Request::Store(0, 0),
    Request::Load(64, 100),
    Request::Load(0, 101),
    Request::Load(128, 200),
    Request::Load(0, 201),
    Request::Load(192, 300),
    Request::Load(256, 400),
    Request::Load(4, 401),
    Request::Settle,
    Request::Settle,
    Request::Settle,
    Request::Settle,
    Request::Settle,
    Request::Settle,
    Request::Settle,
    Request::Settle,
    Request::Settle,
    Request::Settle,
];

/// Blocks in flight on both sides that a settling makes present, while cycles begin anew; then settlings alone.
const SETTLED: [Request; 18] = [
    Request::Fetch(0, 5),
    Request::Load(0, 5),
    Request::Settle,
    Request::Fetch(0, 0),
    Request::Load(0, 0),
    Request::Fetch(16, 0),
    Request::Load(16, 0),
    Request::Settle,
    Request::Settle,
    Request::Settle,
    Request::Settle,
    Request::Settle,
    Request::Settle,
    Request::Settle,
    Request::Settle,
    Request::Settle,
    Request::Settle,
    Request::Settle,
];

/// A page in flight that a settling makes present; then settlings alone.
const SETTLED_PAGE: [Request; 18] = [
    Request::Fetch(0, 5),
    Request::Settle,
    Request::Fetch(0, 0),
    Request::Settle,
    Request::Settle,
    Request::Settle,
    Request::Settle,
    Request::Settle,
    Request::Settle,
    Request::Settle,
    Request::Settle,
    Request::Settle,
    Request::Settle,
    Request::Settle,
    Request::Settle,
    Request::Settle,
    Request::Settle,
    Request::Settle,
];

/// A shape of the hierarchy, its requests, what each request takes without and with waiting (0 where nothing is told), and the hits,
/// misses, replacements and write-backs of each cache and TLB, in the order of `ALL`.
struct Row {
    il1: Level,
    il2: Level,
    dl1: Level,
    dl2: Level,
    itlb: Option<CacheConfig>,
    dtlb: Option<CacheConfig>,
    requests: [Request; 18],
    latencies: [[u32; 18]; 2],
    counts: [Option<(u64, u64, u64, u64)>; 6],
}

const ALL: [Which; 6] = [
    Which::Il1,
    Which::Dl1,
    Which::Il2,
    Which::Dl2,
    Which::Itlb,
    Which::Dtlb,
];

const fn shape(sets: u32, block: u32, ways: u32, fifo: bool) -> CacheConfig {
    CacheConfig {
        sets,
        block,
        ways,
        fifo,
    }
}

const IL1: Level = Level::Own(CacheConfig {
    sets: 2,
    block: 16,
    ways: 1,
    fifo: false,
});

const IL2: Level = Level::Own(CacheConfig {
    sets: 2,
    block: 32,
    ways: 1,
    fifo: true,
});

const DL1: Level = Level::Own(CacheConfig {
    sets: 1,
    block: 16,
    ways: 2,
    fifo: false,
});

const DL2: Level = Level::Own(CacheConfig {
    sets: 2,
    block: 32,
    ways: 2,
    fifo: true,
});

/// The second level of the data side with one set, by least recently used.
const DL2_OF_ONE_SET: Level = Level::Own(CacheConfig {
    sets: 1,
    block: 32,
    ways: 2,
    fifo: false,
});

const ITLB: Option<CacheConfig> = Some(CacheConfig {
    sets: 1,
    block: 128,
    ways: 1,
    fifo: false,
});

const DTLB: Option<CacheConfig> = Some(CacheConfig {
    sets: 2,
    block: 64,
    ways: 1,
    fifo: true,
});

const ROWS: [Row; 15] = [
    Row {
        il1: Level::Off,
        il2: Level::Off,
        dl1: Level::Off,
        dl2: Level::Off,
        itlb: ITLB,
        dtlb: DTLB,
        requests: REQUESTS,
        latencies: [
            [11, 11, 2, 3, 0, 2, 11, 0, 11, 11, 0, 3, 11, 0, 3, 11, 11, 2],
            [
                11, 11, 10, 8, 0, 6, 11, 0, 11, 11, 0, 3, 11, 0, 5, 11, 11, 10,
            ],
        ],
        counts: [
            None,
            None,
            None,
            None,
            Some((3, 4, 3, 0)),
            Some((4, 6, 4, 0)),
        ],
    },
    Row {
        il1: Level::Off,
        il2: Level::Off,
        dl1: DL1,
        dl2: Level::Off,
        itlb: None,
        dtlb: DTLB,
        requests: REQUESTS,
        latencies: [
            [2, 26, 2, 3, 0, 2, 26, 0, 2, 26, 0, 26, 2, 0, 3, 2, 26, 2],
            [2, 26, 2, 23, 0, 2, 26, 0, 2, 26, 0, 26, 2, 0, 20, 2, 26, 2],
        ],
        counts: [
            None,
            Some((2, 8, 6, 2)),
            None,
            None,
            None,
            Some((4, 6, 4, 0)),
        ],
    },
    Row {
        il1: Level::Off,
        il2: Level::Off,
        dl1: DL1,
        dl2: DL2,
        itlb: ITLB,
        dtlb: None,
        requests: REQUESTS,
        latencies: [
            [
                11, 39, 2, 3, 0, 2, 39, 0, 11, 10, 0, 39, 11, 0, 3, 11, 39, 2,
            ],
            [
                11, 39, 10, 36, 0, 6, 39, 0, 11, 22, 0, 39, 11, 0, 33, 11, 39, 10,
            ],
        ],
        counts: [
            None,
            Some((2, 8, 6, 2)),
            None,
            Some((3, 7, 4, 1)),
            Some((3, 4, 3, 0)),
            None,
        ],
    },
    Row {
        il1: IL1,
        il2: Level::Off,
        dl1: Level::Off,
        dl2: Level::Off,
        itlb: None,
        dtlb: None,
        requests: REQUESTS,
        latencies: [
            [25, 3, 2, 3, 0, 25, 3, 0, 25, 3, 0, 3, 25, 0, 3, 25, 3, 25],
            [25, 3, 24, 3, 0, 25, 3, 0, 25, 3, 0, 3, 25, 0, 3, 25, 3, 25],
        ],
        counts: [Some((1, 6, 4, 0)), None, None, None, None, None],
    },
    Row {
        il1: IL1,
        il2: Level::Off,
        dl1: DL1,
        dl2: Level::Off,
        itlb: ITLB,
        dtlb: DTLB,
        requests: REQUESTS,
        latencies: [
            [
                25, 26, 2, 3, 0, 25, 26, 0, 25, 26, 0, 26, 25, 0, 3, 25, 26, 25,
            ],
            [
                25, 26, 24, 23, 0, 25, 26, 0, 25, 26, 0, 26, 25, 0, 20, 25, 26, 25,
            ],
        ],
        counts: [
            Some((1, 6, 4, 0)),
            Some((2, 8, 6, 2)),
            None,
            None,
            Some((3, 4, 3, 0)),
            Some((4, 6, 4, 0)),
        ],
    },
    Row {
        il1: IL1,
        il2: Level::Off,
        dl1: DL1,
        dl2: DL2,
        itlb: None,
        dtlb: DTLB,
        requests: REQUESTS,
        latencies: [
            [
                25, 39, 2, 3, 0, 25, 39, 0, 25, 11, 0, 39, 25, 0, 3, 25, 39, 25,
            ],
            [
                25, 39, 24, 36, 0, 25, 39, 0, 25, 22, 0, 39, 25, 0, 33, 25, 39, 25,
            ],
        ],
        counts: [
            Some((1, 6, 4, 0)),
            Some((2, 8, 6, 2)),
            None,
            Some((3, 7, 4, 1)),
            None,
            Some((4, 6, 4, 0)),
        ],
    },
    Row {
        il1: IL1,
        il2: IL2,
        dl1: Level::Off,
        dl2: Level::Off,
        itlb: ITLB,
        dtlb: None,
        requests: REQUESTS,
        latencies: [
            [36, 3, 2, 3, 0, 36, 3, 0, 36, 3, 0, 3, 36, 0, 3, 36, 3, 7],
            [36, 3, 35, 3, 0, 36, 3, 0, 36, 3, 0, 3, 36, 0, 3, 36, 3, 35],
        ],
        counts: [
            Some((1, 6, 4, 0)),
            None,
            Some((1, 5, 3, 0)),
            None,
            Some((3, 4, 3, 0)),
            None,
        ],
    },
    Row {
        il1: IL1,
        il2: IL2,
        dl1: DL1,
        dl2: Level::Off,
        itlb: None,
        dtlb: None,
        requests: REQUESTS,
        latencies: [
            [
                36, 26, 2, 3, 0, 36, 26, 0, 36, 26, 0, 26, 36, 0, 3, 36, 26, 7,
            ],
            [
                36, 26, 35, 23, 0, 36, 26, 0, 36, 26, 0, 26, 36, 0, 20, 36, 26, 35,
            ],
        ],
        counts: [
            Some((1, 6, 4, 0)),
            Some((2, 8, 6, 2)),
            Some((1, 5, 3, 0)),
            None,
            None,
            None,
        ],
    },
    Row {
        il1: IL1,
        il2: IL2,
        dl1: DL1,
        dl2: DL2,
        itlb: ITLB,
        dtlb: DTLB,
        requests: REQUESTS,
        latencies: [
            [
                36, 39, 2, 3, 0, 36, 39, 0, 36, 11, 0, 39, 36, 0, 3, 36, 39, 7,
            ],
            [
                36, 39, 35, 36, 0, 36, 39, 0, 36, 22, 0, 39, 36, 0, 33, 36, 39, 35,
            ],
        ],
        counts: [
            Some((1, 6, 4, 0)),
            Some((2, 8, 6, 2)),
            Some((1, 5, 3, 0)),
            Some((3, 7, 4, 1)),
            Some((3, 4, 3, 0)),
            Some((4, 6, 4, 0)),
        ],
    },
    Row {
        il1: IL1,
        il2: Level::Shared,
        dl1: DL1,
        dl2: DL2,
        itlb: None,
        dtlb: DTLB,
        requests: REQUESTS,
        latencies: [
            [38, 11, 2, 3, 0, 9, 39, 0, 9, 11, 0, 39, 38, 0, 3, 38, 39, 9],
            [
                38, 39, 37, 36, 0, 37, 39, 0, 24, 22, 0, 39, 38, 0, 33, 38, 39, 37,
            ],
        ],
        counts: [
            Some((1, 6, 4, 0)),
            Some((2, 8, 6, 2)),
            None,
            Some((7, 9, 6, 1)),
            None,
            Some((4, 6, 4, 0)),
        ],
    },
    Row {
        il1: Level::Shared,
        il2: Level::Off,
        dl1: DL1,
        dl2: Level::Off,
        itlb: ITLB,
        dtlb: None,
        requests: REQUESTS,
        latencies: [
            [
                26, 3, 3, 3, 0, 3, 26, 0, 11, 26, 0, 26, 26, 0, 3, 26, 26, 26,
            ],
            [
                26, 26, 25, 23, 0, 25, 26, 0, 12, 26, 0, 26, 26, 0, 20, 26, 26, 26,
            ],
        ],
        counts: [
            None,
            Some((6, 11, 9, 3)),
            None,
            None,
            Some((3, 4, 3, 0)),
            None,
        ],
    },
    Row {
        il1: Level::Shared,
        il2: Level::Off,
        dl1: DL1,
        dl2: DL2,
        itlb: None,
        dtlb: None,
        requests: REQUESTS,
        latencies: [
            [39, 3, 3, 3, 0, 3, 39, 0, 3, 10, 0, 39, 39, 0, 3, 39, 39, 10],
            [
                39, 39, 38, 36, 0, 38, 39, 0, 25, 22, 0, 39, 39, 0, 33, 39, 39, 38,
            ],
        ],
        counts: [
            None,
            Some((6, 11, 9, 3)),
            None,
            Some((5, 9, 6, 2)),
            None,
            None,
        ],
    },
    Row {
        il1: Level::Off,
        il2: Level::Off,
        dl1: DL1,
        dl2: DL2_OF_ONE_SET,
        itlb: None,
        dtlb: None,
        requests: WRITTEN_AGAIN,
        latencies: [
            [0, 39, 3, 39, 3, 39, 39, 10, 0, 0, 0, 0, 0, 0, 0, 0, 0, 0],
            [0, 39, 3, 39, 3, 39, 39, 38, 0, 0, 0, 0, 0, 0, 0, 0, 0, 0],
        ],
        counts: [
            None,
            Some((2, 6, 4, 1)),
            None,
            Some((1, 6, 4, 0)),
            None,
            None,
        ],
    },
    Row {
        il1: IL1,
        il2: IL2,
        dl1: DL1,
        dl2: DL2,
        itlb: None,
        dtlb: None,
        requests: SETTLED,
        latencies: [
            [36, 39, 0, 2, 3, 7, 10, 0, 0, 0, 0, 0, 0, 0, 0, 0, 0, 0],
            [36, 39, 0, 2, 3, 7, 10, 0, 0, 0, 0, 0, 0, 0, 0, 0, 0, 0],
        ],
        counts: [
            Some((1, 2, 0, 0)),
            Some((1, 2, 0, 0)),
            Some((1, 1, 0, 0)),
            Some((1, 1, 0, 0)),
            None,
            None,
        ],
    },
    Row {
        il1: Level::Off,
        il2: Level::Off,
        dl1: Level::Off,
        dl2: Level::Off,
        itlb: ITLB,
        dtlb: None,
        requests: SETTLED_PAGE,
        latencies: [
            [11, 0, 2, 0, 0, 0, 0, 0, 0, 0, 0, 0, 0, 0, 0, 0, 0, 0],
            [11, 0, 2, 0, 0, 0, 0, 0, 0, 0, 0, 0, 0, 0, 0, 0, 0, 0],
        ],
        counts: [None, None, None, None, Some((1, 1, 0, 0)), None],
    },
];

/// A configuration with the latencies of the rows.
fn config(row: &Row, wait: bool) -> HierConfig {
    HierConfig {
        il1: row.il1,
        il2: row.il2,
        dl1: row.dl1,
        dl2: row.dl2,
        itlb: row.itlb,
        dtlb: row.dtlb,
        il1lat: 2,
        il2lat: 5,
        dl1lat: 3,
        dl2lat: 7,
        mem_first: 20,
        mem_inter: 3,
        mem_width: 8,
        tlb_lat: 11,
        wait,
    }
}

/// The defaults of the commands.
fn defaults() -> HierConfig {
    HierConfig {
        il1: Level::Own(shape(512, 32, 1, false)),
        il2: Level::Shared,
        dl1: Level::Own(shape(128, 32, 4, false)),
        dl2: Level::Own(shape(1024, 64, 4, false)),
        itlb: Some(shape(16, 4096, 4, false)),
        dtlb: Some(shape(32, 4096, 4, false)),
        il1lat: 1,
        il2lat: 6,
        dl1lat: 1,
        dl2lat: 6,
        mem_first: 18,
        mem_inter: 2,
        mem_width: 8,
        tlb_lat: 30,
        wait: false,
    }
}

/// What a request is answered, 0 where nothing is told, and the cycle of the last reference then. `None` where the cycle
/// is too low.
fn ask(hier: &mut Hier, request: Request, last: u64) -> Option<(u32, u64)>
    requires last { last_cycle_of hier.old ≡ last }
    requires references { references_of hier.old < 2 ^ 60 }
    ensures last { IfSome result (λ p. last_cycle_of hier.new ≡ p.1) }
    ensures references { references_of hier.new ≤ references_of hier.old + 1 }
{
    match request {
        Request::Fetch(pc, cycle) if last <= cycle && cycle < 1000 => {
            Some((hier.fetch(pc, cycle), cycle))
        }
        Request::Load(addr, cycle) if last <= cycle && cycle < 1000 => {
            Some((hier.load(addr, cycle), cycle))
        }
        Request::Store(addr, cycle) if last <= cycle && cycle < 1000 => {
            hier.store(addr, cycle);
            Some((0, cycle))
        }
        Request::Settle => {
            hier.settle();
            Some((0, 0))
        }
        _ => None,
    }
}

/// Whether a new hierarchy answers the requests so.
fn answers(hier: &mut Hier, requests: &[Request], want: &[u32]) -> bool
    requires new { (last_cycle_of hier.old ≡ 0) × (references_of hier.old ≡ 0) }
    requires length { (length requests.now ≡ length want.now) × (length want.now < 1000) }
{
    let mut last = 0;
    for i in 0..requests.len() {
        match ask(hier, requests[i], last) {
            Some((latency, cycle)) => {
                if latency != want[i] {
                    return false;
                }
                last = cycle;
            }
            None => return false,
        }
    }
    true
}

/// The counts of these hits, misses, replacements and write-backs.
fn counted(numbers: Option<(u64, u64, u64, u64)>) -> Option<Counts> {
    match numbers {
        None => None,
        Some((hits, misses, replacements, writebacks)) => Some(Counts {
            accesses: hits.saturating_add(misses),
            hits,
            misses,
            replacements,
            writebacks,
        }),
    }
}

/// Whether a hierarchy has these counts.
fn counts_agree(hier: &Hier, counts: &[Option<(u64, u64, u64, u64)>; 6]) -> bool {
    for i in 0..6 {
        if hier.counts(ALL[i]) != counted(counts[i]) {
            return false;
        }
    }
    true
}

/// Whether a new hierarchy of the configuration answers the requests so, and has these counts then.
fn agrees(
    alloc: Global,
    config: &HierConfig,
    requests: &[Request],
    latencies: &[u32],
    counts: &[Option<(u64, u64, u64, u64)>; 6],
) -> Result<bool, OutOfMemory>
    requires { (length requests.now ≡ length latencies.now) × (length latencies.now < 1000) }
{
    if !config.is_allowed() {
        return Ok(false);
    }
    let mut hier = Hier::new(alloc, config)?;
    let answered = answers(&mut hier, requests, latencies);
    Ok(answered && counts_agree(&hier, counts))
}

/// Whether every row holds, without and with waiting.
fn rows_agree(alloc: Global) -> Result<bool, OutOfMemory> {
    for row in &ROWS {
        if !agrees(
            alloc,
            &config(row, false),
            &row.requests,
            &row.latencies[0],
            &row.counts,
        )? {
            return Ok(false);
        }
        if !agrees(
            alloc,
            &config(row, true),
            &row.requests,
            &row.latencies[1],
            &row.counts,
        )? {
            return Ok(false);
        }
    }
    Ok(true)
}

#[test]
fn every_shape_answers_as_an_independent_model(rt: HostRuntime) -> Result<(), Fail> {
    let agree = rows_agree(rt.alloc())?;
    assert!(rt; agree);
    Ok(())
}

/// Whether each configuration is judged so: whether its levels clash, and whether it is allowed.
fn judged_so(rows: &[(HierConfig, bool, bool)]) -> bool {
    for (config, clashes, allowed) in rows {
        if config.clashes() != *clashes || config.is_allowed() != *allowed {
            return false;
        }
    }
    true
}

/// The defaults with other levels.
fn with_levels(il1: Level, il2: Level, dl1: Level, dl2: Level) -> HierConfig {
    HierConfig {
        il1,
        il2,
        dl1,
        dl2,
        ..defaults()
    }
}

#[test]
fn configurations_are_judged(rt: HostRuntime) {
    let small = Level::Own(shape(64, 16, 2, false));
    let odd = Level::Own(shape(3, 32, 4, false));
    let slow = HierConfig {
        dl2lat: 101,
        ..defaults()
    };
    let rows = [
        (defaults(), false, true),
        (
            with_levels(Level::Shared, Level::Shared, DL1, DL2),
            true,
            false,
        ),
        (
            with_levels(Level::Shared, Level::Off, DL1, DL2),
            false,
            true,
        ),
        (
            with_levels(Level::Shared, Level::Off, Level::Off, Level::Off),
            true,
            false,
        ),
        (with_levels(Level::Off, IL2, DL1, DL2), true, false),
        (
            with_levels(IL1, Level::Shared, DL1, Level::Off),
            true,
            false,
        ),
        (with_levels(IL1, IL2, Level::Off, DL2), true, false),
        (with_levels(IL2, small, DL1, DL2), true, false),
        (with_levels(IL2, Level::Shared, DL1, small), true, false),
        (with_levels(Level::Off, Level::Off, DL2, small), true, false),
        (with_levels(IL1, IL2, odd, Level::Off), false, false),
        (
            with_levels(IL1, IL2, Level::Shared, Level::Off),
            false,
            false,
        ),
        (slow, false, false),
    ];
    let judged = judged_so(&rows);
    assert!(rt; judged);
}

/// Whether a hierarchy of the defaults takes at most 39 cycles, and 1 where the first level hits.
fn defaults_take_39(alloc: Global) -> Result<bool, OutOfMemory> {
    let config = defaults();
    if !config.is_allowed() {
        return Ok(false);
    }
    let hier = Hier::new(alloc, &config)?;
    Ok(hier.greatest_fetch() == 39 && hier.greatest_load() == 39 && hier.fetch_hit() == 1)
}

#[test]
fn defaults_find_memory(rt: HostRuntime) -> Result<(), Fail> {
    let found = defaults_take_39(rt.alloc())?;
    assert!(rt; found);
    Ok(())
}
