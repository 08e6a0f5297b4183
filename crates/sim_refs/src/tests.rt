ghost use Rattle.std.specs.Prelude.{◌≡◌, ◌≤◌};
ghost use Rattle.bpred_unit.specs.Limits.{IsAllowed};

use crate::{CacheRun, PredCounts, PredRun, push_caches};
use arrayvec::ArrayVec;
use bpred_unit::{PredConfig, PredKind};
use cache_core::{CacheConfig, Counts};
use mem_hier::{Hier, HierConfig, Level, Which};
use pisa_isa::{Instr, Op};
use sim_safe::CommitRecord;
use ss_base::OutOfMemory;
use std::alloc::Global;
use std::test::Fail;

/// An instruction that was done at an address: one that touches no data, one that reaches the data at an address, or one
/// that directs control, with `rs`, whether it was taken, and the address of the next instruction.
#[derive(Clone, Copy)]
enum Did {
    Plain(u32, Op),
    Access(u32, Op, u32),
    Went(u32, Op, u8, bool, u32),
}

/// The record of an instruction.
fn record(did: Did) -> CommitRecord {
    let (pc, op, rs, taken, next, access) = match did {
        Did::Plain(pc, op) => (pc, op, 0, false, pc.wrapping_add(8), None),
        Did::Access(pc, op, addr) => (pc, op, 0, false, pc.wrapping_add(8), Some(addr)),
        Did::Went(pc, op, rs, taken, next) => (pc, op, rs, taken, next, None),
    };
    CommitRecord {
        number: 0,
        pc,
        instr: Instr {
            op,
            rs,
            rt: 0,
            rd: 0,
            shamt: 0,
            imm: 0,
            target: 0,
        },
        next,
        taken,
        regs: ArrayVec::new(),
        hi: None,
        lo: None,
        mem: None,
        access,
        call: None,
    }
}

// ---- references

/// The first object: two additions and the system call by which it exits.
const FIRST_OBJECT: [Did; 3] = [
    Did::Plain(0x0040_0000, Op::Addiu),
    Did::Plain(0x0040_0008, Op::Addiu),
    Did::Plain(0x0040_0010, Op::Syscall),
];

/// Five instructions in two blocks of 32 bytes. Their data lies in two blocks of 32 bytes, which are one of 64 bytes.
const FIVE: [Did; 5] = [
    Did::Plain(0x0040_0000, Op::Addiu),
    Did::Access(0x0040_0008, Op::Lw, 0x1000_0000),
    Did::Access(0x0040_0010, Op::Sw, 0x1000_0020),
    Did::Access(0x0040_0018, Op::Lw, 0x1000_0000),
    Did::Plain(0x0040_0020, Op::Syscall),
];

/// Loads of the blocks A, B, A, C, A of 32 bytes.
const LOADS: [Did; 5] = [
    Did::Access(0x0040_0000, Op::Lw, 0x1000_0000),
    Did::Access(0x0040_0008, Op::Lb, 0x1000_0020),
    Did::Access(0x0040_0010, Op::LwRr, 0x1000_001c),
    Did::Access(0x0040_0018, Op::Lhu, 0x1000_0040),
    Did::Access(0x0040_0020, Op::Dlw, 0x1000_0008),
];

/// The same blocks, of which the first access writes.
const STORE_AND_LOADS: [Did; 5] = [
    Did::Access(0x0040_0000, Op::Sb, 0x1000_0000),
    Did::Access(0x0040_0008, Op::Lb, 0x1000_0020),
    Did::Access(0x0040_0010, Op::LwRr, 0x1000_001c),
    Did::Access(0x0040_0018, Op::Lhu, 0x1000_0040),
    Did::Access(0x0040_0020, Op::Dlw, 0x1000_0008),
];

fn shape(sets: u32, block: u32, ways: u32, fifo: bool) -> CacheConfig {
    CacheConfig {
        sets,
        block,
        ways,
        fifo,
    }
}

/// One block of 32 bytes.
const SMALL: Level = Level::Own(CacheConfig {
    sets: 1,
    block: 32,
    ways: 1,
    fifo: false,
});

/// One block of 64 bytes.
const LARGE: Level = Level::Own(CacheConfig {
    sets: 1,
    block: 64,
    ways: 1,
    fifo: false,
});

/// One page.
const PAGE: Option<CacheConfig> = Some(CacheConfig {
    sets: 1,
    block: 4096,
    ways: 1,
    fifo: false,
});

/// Two blocks of 32 bytes in one set, of which the least recently used leaves.
const PAIR: Level = Level::Own(CacheConfig {
    sets: 1,
    block: 32,
    ways: 2,
    fifo: false,
});

/// The same, where the first in leaves.
const FIFO_PAIR: Level = Level::Own(CacheConfig {
    sets: 1,
    block: 32,
    ways: 2,
    fifo: true,
});

/// A hierarchy of these levels and TLBs, il1, il2, dl1 and dl2.
fn hierarchy(levels: [Level; 4], tlbs: [Option<CacheConfig>; 2]) -> HierConfig {
    HierConfig {
        il1: levels[0],
        il2: levels[1],
        dl1: levels[2],
        dl2: levels[3],
        itlb: tlbs[0],
        dtlb: tlbs[1],
        il1lat: 1,
        il2lat: 6,
        dl1lat: 1,
        dl2lat: 6,
        mem_first: 18,
        mem_inter: 2,
        mem_width: 8,
        tlb_lat: 30,
        wait: false,
    }
}

const ALL: [Which; 6] = [
    Which::Il1,
    Which::Dl1,
    Which::Il2,
    Which::Dl2,
    Which::Itlb,
    Which::Dtlb,
];

/// Hits, misses, replacements and write-backs, where a level has a cache of its own.
type Numbers = Option<(u64, u64, u64, u64)>;

fn counted(numbers: Numbers) -> Option<Counts> {
    match numbers {
        None => None,
        Some((hits, misses, replacements, writebacks)) => Some(Counts {
            accesses: hits.saturating_add(misses),
            hits,
            misses,
            replacements,
            writebacks,
        }),
    }
}

/// Whether a hierarchy has these counts, in the order of `ALL`.
fn has_counts(hier: &Hier, numbers: &[Numbers; 6]) -> bool {
    for i in 0..6 {
        if hier.counts(ALL[i]) != counted(numbers[i]) {
            return false;
        }
    }
    true
}

/// Whether a new run of the configuration has these counts when it was fed the instructions.
fn refers_so(
    alloc: Global,
    config: &HierConfig,
    did: &[Did],
    numbers: &[Numbers; 6],
) -> Result<bool, OutOfMemory> {
    if !config.is_allowed() {
        return Ok(false);
    }
    let mut run = CacheRun::new(alloc, config)?;
    for d in did {
        run.feed(&record(*d));
    }
    Ok(has_counts(run.hier(), numbers))
}

/// A hierarchy, the instructions that it is fed, and its counts then.
struct Row {
    levels: [Level; 4],
    tlbs: [Option<CacheConfig>; 2],
    did: [Did; 5],
    numbers: [Numbers; 6],
}

const ROWS: [Row; 11] = [
    // all levels of their own: the second load's block was written back before it is read
    Row {
        levels: [SMALL, LARGE, SMALL, LARGE],
        tlbs: [PAGE, PAGE],
        did: FIVE,
        numbers: [
            Some((3, 2, 1, 0)),
            Some((0, 3, 2, 1)),
            Some((1, 1, 0, 0)),
            Some((3, 1, 0, 0)),
            Some((4, 1, 0, 0)),
            Some((2, 1, 0, 0)),
        ],
    },
    // a shared second level: code, data three times, the block that is written back, data, and code again
    Row {
        levels: [SMALL, Level::Shared, SMALL, LARGE],
        tlbs: [PAGE, None],
        did: FIVE,
        numbers: [
            Some((3, 2, 1, 0)),
            Some((0, 3, 2, 1)),
            None,
            Some((3, 3, 2, 1)),
            Some((4, 1, 0, 0)),
            None,
        ],
    },
    // a shared first level: each load or store pushes out the code that the next fetch needs
    Row {
        levels: [Level::Shared, Level::Off, SMALL, Level::Off],
        tlbs: [None, PAGE],
        did: FIVE,
        numbers: [
            None,
            Some((1, 7, 6, 1)),
            None,
            None,
            None,
            Some((2, 1, 0, 0)),
        ],
    },
    // the same with a second level behind it
    Row {
        levels: [Level::Shared, Level::Off, SMALL, LARGE],
        tlbs: [None, None],
        did: FIVE,
        numbers: [
            None,
            Some((1, 7, 6, 1)),
            None,
            Some((1, 7, 6, 1)),
            None,
            None,
        ],
    },
    // first levels alone
    Row {
        levels: [SMALL, Level::Off, SMALL, Level::Off],
        tlbs: [None, None],
        did: FIVE,
        numbers: [
            Some((3, 2, 1, 0)),
            Some((0, 3, 2, 1)),
            None,
            None,
            None,
            None,
        ],
    },
    // one side alone, and no level at all
    Row {
        levels: [SMALL, LARGE, Level::Off, Level::Off],
        tlbs: [None, PAGE],
        did: FIVE,
        numbers: [
            Some((3, 2, 1, 0)),
            None,
            Some((1, 1, 0, 0)),
            None,
            None,
            Some((2, 1, 0, 0)),
        ],
    },
    Row {
        levels: [Level::Off, Level::Off, Level::Off, Level::Off],
        tlbs: [PAGE, None],
        did: FIVE,
        numbers: [None, None, None, None, Some((4, 1, 0, 0)), None],
    },
    // both kinds of replacement
    Row {
        levels: [Level::Off, Level::Off, PAIR, Level::Off],
        tlbs: [None, None],
        did: LOADS,
        numbers: [None, Some((2, 3, 1, 0)), None, None, None, None],
    },
    Row {
        levels: [Level::Off, Level::Off, FIFO_PAIR, Level::Off],
        tlbs: [None, None],
        did: LOADS,
        numbers: [None, Some((1, 4, 2, 0)), None, None, None, None],
    },
    Row {
        levels: [Level::Off, Level::Off, PAIR, Level::Off],
        tlbs: [None, None],
        did: STORE_AND_LOADS,
        numbers: [None, Some((2, 3, 1, 0)), None, None, None, None],
    },
    Row {
        levels: [Level::Off, Level::Off, FIFO_PAIR, Level::Off],
        tlbs: [None, None],
        did: STORE_AND_LOADS,
        numbers: [None, Some((1, 4, 2, 1)), None, None, None, None],
    },
];

/// Whether every row holds, and a run that is fed nothing counts nothing.
fn rows_agree(alloc: Global) -> Result<bool, OutOfMemory> {
    for row in &ROWS {
        let config = hierarchy(row.levels, row.tlbs);
        if !refers_so(alloc, &config, &row.did, &row.numbers)? {
            return Ok(false);
        }
    }
    let none = Some((0, 0, 0, 0));
    let config = hierarchy([SMALL, Level::Shared, SMALL, LARGE], [PAGE, PAGE]);
    refers_so(alloc, &config, &[], &[none, none, None, none, none, none])
}

#[test]
fn every_shape_and_replacement_counts_as_by_hand(rt: HostRuntime) -> Result<(), Fail> {
    let agree = rows_agree(rt.alloc())?;
    assert!(rt; agree);
    Ok(())
}

/// A program as from a compiler: three system calls, a store to the one and a load from the other part of its data.
const COMPILED: [Did; 15] = [
    Did::Plain(0x0040_0140, Op::Addiu),
    Did::Plain(0x0040_0148, Op::Lui),
    Did::Plain(0x0040_0150, Op::Syscall),
    Did::Plain(0x0040_0158, Op::Lui),
    Did::Plain(0x0040_0160, Op::Ori),
    Did::Access(0x0040_0168, Op::Sw, 0x1000_9000),
    Did::Plain(0x0040_0170, Op::Lui),
    Did::Plain(0x0040_0178, Op::Ori),
    Did::Access(0x0040_0180, Op::Lw, 0x1000_8000),
    Did::Plain(0x0040_0188, Op::Addiu),
    Did::Plain(0x0040_0190, Op::Addiu),
    Did::Plain(0x0040_0198, Op::Syscall),
    Did::Plain(0x0040_01a0, Op::Addiu),
    Did::Plain(0x0040_01a8, Op::Addiu),
    Did::Plain(0x0040_01b0, Op::Syscall),
];

/// Whether it counts so under the defaults of the commands.
fn compiled_is_counted(alloc: Global) -> Result<bool, OutOfMemory> {
    let levels = [
        Level::Own(shape(512, 32, 1, false)),
        Level::Shared,
        Level::Own(shape(128, 32, 4, false)),
        Level::Own(shape(1024, 64, 4, false)),
    ];
    let tlbs = [
        Some(shape(16, 4096, 4, false)),
        Some(shape(32, 4096, 4, false)),
    ];
    let numbers = [
        Some((11, 4, 0, 0)),
        Some((0, 2, 0, 0)),
        None,
        Some((2, 4, 0, 0)),
        Some((14, 1, 0, 0)),
        Some((0, 2, 0, 0)),
    ];
    refers_so(alloc, &hierarchy(levels, tlbs), &COMPILED, &numbers)
}

#[test]
fn a_program_of_a_compiler_counts_under_the_defaults(rt: HostRuntime) -> Result<(), Fail> {
    let counted = compiled_is_counted(rt.alloc())?;
    assert!(rt; counted);
    Ok(())
}

/// The defaults of the commands with a shared first level and no second one behind it.
fn first_object_is_counted(alloc: Global) -> Result<bool, OutOfMemory> {
    let levels = [
        Level::Shared,
        Level::Off,
        Level::Own(shape(128, 32, 4, false)),
        Level::Own(shape(1024, 64, 4, false)),
    ];
    let tlbs = [
        Some(shape(16, 4096, 4, false)),
        Some(shape(32, 4096, 4, false)),
    ];
    let numbers = [
        None,
        Some((2, 1, 0, 0)),
        None,
        Some((0, 1, 0, 0)),
        Some((2, 1, 0, 0)),
        Some((0, 0, 0, 0)),
    ];
    refers_so(alloc, &hierarchy(levels, tlbs), &FIRST_OBJECT, &numbers)
}

#[test]
fn the_first_object_counts_in_a_shared_first_level(rt: HostRuntime) -> Result<(), Fail> {
    let counted = first_object_is_counted(rt.alloc())?;
    assert!(rt; counted);
    Ok(())
}

// ---- predictions

/// A loop of three turns and the exit behind it.
const TEN: [Did; 10] = [
    Did::Plain(0x0040_0000, Op::Addiu),
    Did::Plain(0x0040_0008, Op::Addiu),
    Did::Went(0x0040_0010, Op::Bne, 8, true, 0x0040_0008),
    Did::Plain(0x0040_0008, Op::Addiu),
    Did::Went(0x0040_0010, Op::Bne, 8, true, 0x0040_0008),
    Did::Plain(0x0040_0008, Op::Addiu),
    Did::Went(0x0040_0010, Op::Bne, 8, false, 0x0040_0018),
    Did::Plain(0x0040_0018, Op::Addiu),
    Did::Plain(0x0040_0020, Op::Addiu),
    Did::Plain(0x0040_0028, Op::Syscall),
];

/// A loop of four turns, and a jump back to it.
const TURNS: [Did; 5] = [
    Did::Went(0x0040_0008, Op::Bne, 8, true, 0x0040_0000),
    Did::Went(0x0040_0008, Op::Bne, 8, true, 0x0040_0000),
    Did::Went(0x0040_0008, Op::Bne, 8, true, 0x0040_0000),
    Did::Went(0x0040_0008, Op::Bne, 8, false, 0x0040_0010),
    Did::Went(0x0040_0010, Op::J, 0, true, 0x0040_0000),
];

/// A call and its return.
const CALL: [Did; 3] = [
    Did::Went(0x0040_0000, Op::Jal, 0, true, 0x0040_0100),
    Did::Access(0x0040_0100, Op::Lw, 0x1000_0000),
    Did::Went(0x0040_0108, Op::Jr, 31, true, 0x0040_0008),
];

/// A predictor of this kind with a stack of this size, histories of three outcomes and else the tables of the defaults.
fn predictor(kind: PredKind, l2: u32, width: u32, ras: u32) -> PredConfig
    requires { (1 ≤ l2) × (width ≤ 16) × (ras ≤ 1024) }
    ensures { IsAllowed result }
{
    PredConfig {
        kind,
        bimod: 2048,
        l1: 1,
        l2,
        width,
        xor: true,
        meta: 1024,
        btb_sets: 512,
        btb_ways: 4,
        ras,
    }
}

/// The counts of a new run that was fed the instructions so many times over.
fn counts_after(
    alloc: Global,
    config: &PredConfig,
    did: &[Did],
    times: usize,
) -> Result<PredCounts, OutOfMemory>
    requires { IsAllowed config.now }
{
    let mut run = PredRun::new(alloc, config)?;
    for _ in 0..times {
        for d in did {
            run.feed(&record(*d));
        }
    }
    Ok(run.counts())
}

/// Whether the counts are these: branches and jumps, conditional branches, taken ones, directions and addresses that were
/// predicted.
fn counts_are(counts: &PredCounts, numbers: [u64; 5]) -> bool {
    let [control, cond, taken, dir_hits, addr_hits] = numbers;
    let all = PredCounts {
        control,
        cond,
        taken,
        dir_hits,
        addr_hits,
    };
    *counts == all
}

/// A kind, and the directions and addresses that it predicts in five rounds of `TURNS`.
const KINDS: [(PredKind, u64, u64); 5] = [
    (PredKind::NotTaken, 5, 9),
    (PredKind::Taken, 15, 18),
    (PredKind::Bimod, 14, 18),
    (PredKind::TwoLevel, 15, 19),
    (PredKind::Comb, 16, 20),
];

/// Whether every kind predicts so.
fn kinds_agree(alloc: Global) -> Result<bool, OutOfMemory> {
    for (kind, dir_hits, addr_hits) in KINDS {
        let counts = counts_after(alloc, &predictor(kind, 8, 3, 8), &TURNS, 5)?;
        if !counts_are(&counts, [25, 20, 20, dir_hits, addr_hits]) {
            return Ok(false);
        }
    }
    Ok(true)
}

#[test]
fn every_kind_counts_a_loop_as_by_hand(rt: HostRuntime) -> Result<(), Fail> {
    let agree = kinds_agree(rt.alloc())?;
    assert!(rt; agree);
    Ok(())
}

/// Whether the loop of three turns counts so under the defaults, a call and its return with and without a stack, and
/// nothing where nothing was fed.
fn others_agree(alloc: Global) -> Result<bool, OutOfMemory> {
    let defaults = predictor(PredKind::Bimod, 1024, 8, 8);
    let ten = counts_after(alloc, &defaults, &TEN, 1)?;
    let stack = counts_after(alloc, &defaults, &CALL, 2)?;
    let bare = counts_after(alloc, &predictor(PredKind::Bimod, 1024, 8, 0), &CALL, 2)?;
    let none = counts_after(alloc, &defaults, &[], 1)?;
    let branches = counts_are(&ten, [3, 3, 2, 1, 1]) && counts_are(&none, [0, 0, 0, 0, 0]);
    let calls = counts_are(&stack, [4, 0, 4, 0, 3]) && counts_are(&bare, [4, 0, 4, 0, 2]);
    Ok(branches && calls)
}

#[test]
fn branches_calls_and_returns_are_counted(rt: HostRuntime) -> Result<(), Fail> {
    let agree = others_agree(rt.alloc())?;
    assert!(rt; agree);
    Ok(())
}

// ---- lines

/// The lines of the first row, in which each cache and TLB is there, and those of the third, in which two are.
const ALL_LINES: &[u8] = b"il1.accesses 5
il1.hits 3
il1.misses 2
il1.replacements 1
il1.writebacks 0
dl1.accesses 3
dl1.hits 0
dl1.misses 3
dl1.replacements 2
dl1.writebacks 1
il2.accesses 2
il2.hits 1
il2.misses 1
il2.replacements 0
il2.writebacks 0
dl2.accesses 4
dl2.hits 3
dl2.misses 1
dl2.replacements 0
dl2.writebacks 0
itlb.accesses 5
itlb.hits 4
itlb.misses 1
itlb.replacements 0
itlb.writebacks 0
dtlb.accesses 3
dtlb.hits 2
dtlb.misses 1
dtlb.replacements 0
dtlb.writebacks 0
";

const TWO_LINES: &[u8] = b"dl1.accesses 8
dl1.hits 1
dl1.misses 7
dl1.replacements 6
dl1.writebacks 1
dtlb.accesses 3
dtlb.hits 2
dtlb.misses 1
dtlb.replacements 0
dtlb.writebacks 0
";

/// The lines of the loop of three turns.
const LOOP_LINES: &[u8] = b"bpred.control 3
bpred.cond 3
bpred.taken 2
bpred.dir_hits 1
bpred.addr_hits 1
";

/// Whether the lines of a row's run are these.
fn has_lines(alloc: Global, row: &Row, lines: &[u8]) -> Result<bool, OutOfMemory> {
    let config = hierarchy(row.levels, row.tlbs);
    if !config.is_allowed() {
        return Ok(false);
    }
    let mut run = CacheRun::new(alloc, &config)?;
    for d in &row.did {
        run.feed(&record(*d));
    }
    let mut text = Vec::new(alloc);
    push_caches(run.hier(), &mut text)?;
    Ok(text.as_slice() == lines)
}

/// Whether the lines of caches and of predictions stand in their order.
fn lines_agree(alloc: Global) -> Result<bool, OutOfMemory> {
    let defaults = predictor(PredKind::Bimod, 1024, 8, 8);
    let counts = counts_after(alloc, &defaults, &TEN, 1)?;
    let mut text = Vec::new(alloc);
    counts.push(&mut text)?;
    let predictions = text.as_slice() == LOOP_LINES;
    let caches = has_lines(alloc, &ROWS[0], ALL_LINES)? && has_lines(alloc, &ROWS[2], TWO_LINES)?;
    Ok(predictions && caches)
}

#[test]
fn lines_stand_in_their_order(rt: HostRuntime) -> Result<(), Fail> {
    let agree = lines_agree(rt.alloc())?;
    assert!(rt; agree);
    Ok(())
}
