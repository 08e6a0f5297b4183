//! Short programs, the machines on which they run, and the table of each.
ghost use Rattle.bpred_unit.specs.Limits.{IsAllowed};

use crate::tables::{self, Line};
use bpred_unit::{PredConfig, PredKind};
use cache_core::CacheConfig;
use mem_hier::{HierConfig, Level};
use ooo_table::OooConfig;

/// The default machine.
const MACHINE: OooConfig = OooConfig {
    ifq: 4,
    decode: 4,
    issue: 4,
    commit: 4,
    ruu: 16,
    lsq: 8,
    penalty: 3,
    alus: 4,
    mults: 1,
    ports: 2,
    in_order: false,
    wrong_issue: true,
};

/// A hierarchy without caches and TLBs.
const BARE: HierConfig = HierConfig {
    il1: Level::Off,
    il2: Level::Off,
    dl1: Level::Off,
    dl2: Level::Off,
    itlb: None,
    dtlb: None,
    il1lat: 1,
    il2lat: 6,
    dl1lat: 1,
    dl2lat: 6,
    mem_first: 18,
    mem_inter: 2,
    mem_width: 8,
    tlb_lat: 30,
    wait: false,
};

/// The same where each reference of a load takes 5 cycles.
const SLOW: HierConfig = HierConfig { dl1lat: 5, ..BARE };

/// One line of 32 bytes for data.
const ONE_LINE: Level = Level::Own(CacheConfig {
    sets: 1,
    block: 32,
    ways: 1,
    fifo: false,
});

const AT_ONCE: HierConfig = HierConfig {
    dl1: ONE_LINE,
    ..BARE
};

const IN_FLIGHT: HierConfig = HierConfig {
    dl1: ONE_LINE,
    wait: true,
    ..BARE
};

const FIRST: &[u8] = b".text 0x00400000\n ADDIU $2,$0,1\n ADDIU $4,$0,7\n SYSCALL\n";

const BRANCH: &[u8] =
    b".text 0x00400000\n ADDIU $9,$0,1\n BNE $9,$0,taken\n LW $10,0($29)\n SW $10,4($29)\n NOP\n NOP\ntaken: ADDIU $2,$0,1\n ADDIU $4,$0,0\n SYSCALL\n";

const TEXT_STORE: &[u8] =
    b".text 0x00400000\n LUI $11,64\n ADDIU $9,$0,1\n BNE $9,$0,taken\n LW $10,0($29)\n SW $0,0($11)\n NOP\n NOP\ntaken: ADDIU $2,$0,1\n ADDIU $4,$0,0\n SYSCALL\n";

const STORE: &[u8] =
    b".text 0x00400000\n LUI $8,4096\n ADDU $9,$8,$0\n SW $0,0($9)\n LW $10,4($8)\n LW $11,8($8)\n ADDIU $2,$0,1\n ADDIU $4,$0,0\n SYSCALL\n";

const DIVISIONS: &[u8] =
    b".text 0x00400000\n ADDIU $8,$0,7\n ADDIU $9,$0,2\n DIV $8,$9\n DIV $8,$9\n ADDIU $2,$0,1\n ADDIU $4,$0,0\n SYSCALL\n";

const CALL: &[u8] = b".text 0x00400000\n ADDIU $2,$0,1\n ADDIU $4,$0,0\n MULT $2,$4\n SYSCALL\n";

const LOADS: &[u8] =
    b".text 0x00400000\n LW $8,0($29)\n LW $9,4($29)\n ADDU $10,$9,$9\n ADDIU $2,$0,1\n ADDIU $4,$0,0\n SYSCALL\n";

/// The TLB of data under the defaults.
const DATA_PAGES: CacheConfig = CacheConfig {
    sets: 32,
    block: 4096,
    ways: 4,
    fifo: false,
};

/// The default hierarchy.
const DEFAULTS: HierConfig = HierConfig {
    il1: Level::Own(CacheConfig {
        sets: 512,
        block: 32,
        ways: 1,
        fifo: false,
    }),
    il2: Level::Shared,
    dl1: Level::Own(CacheConfig {
        sets: 128,
        block: 32,
        ways: 4,
        fifo: false,
    }),
    dl2: Level::Own(CacheConfig {
        sets: 1024,
        block: 64,
        ways: 4,
        fifo: false,
    }),
    itlb: Some(CacheConfig {
        sets: 16,
        ..DATA_PAGES
    }),
    dtlb: Some(DATA_PAGES),
    ..BARE
};

/// A program, the machine that it runs on, and what its rows show.
#[derive(Clone, Copy, Debug)]
pub struct Table<'a> {
    /// The program's source, whose text stands at 0x00400000.
    pub source: &'a [u8],
    /// The machine.
    pub config: OooConfig,
    /// Its hierarchy.
    pub hier: HierConfig,
    /// How it predicts directions.
    pub kind: PredKind,
    /// The code with which the program exits.
    pub code: u32,
    /// What each row shows, the first row first.
    pub lines: &'a [Line],
}

/// The predictor of a table.
pub fn predictor(kind: PredKind) -> PredConfig
    ensures { IsAllowed result }
{
    PredConfig {
        kind,
        bimod: 2048,
        l1: 1,
        l2: 1024,
        width: 8,
        xor: false,
        meta: 1024,
        btb_sets: 512,
        btb_ways: 4,
        ras: 8,
    }
}

/// A table on a machine without caches, whose program exits with code 0.
fn bare<'a>(source: &'a [u8], kind: PredKind, lines: &'a [Line]) -> Table<'a> {
    Table {
        source,
        config: MACHINE,
        hier: BARE,
        kind,
        code: 0,
        lines,
    }
}

/// The tables of the first object: under the defaults, and with one of everything.
pub fn first_object<'a>() -> [Table<'a>; 2] {
    let under_defaults = Table {
        source: FIRST,
        config: MACHINE,
        hier: DEFAULTS,
        kind: PredKind::Bimod,
        code: 7,
        lines: &tables::FIRST_UNDER_DEFAULTS,
    };
    let narrow = OooConfig {
        ifq: 1,
        decode: 1,
        issue: 1,
        commit: 1,
        ruu: 2,
        lsq: 2,
        ports: 1,
        ..MACHINE
    };
    [
        under_defaults,
        Table {
            config: narrow,
            hier: BARE,
            lines: &tables::FIRST_OBJECT,
            ..under_defaults
        },
    ]
}

/// The tables of programs with a mispredicted branch.
pub fn branches<'a>() -> [Table<'a>; 3] {
    [
        bare(BRANCH, PredKind::NotTaken, &tables::BRANCH),
        Table {
            config: OooConfig {
                wrong_issue: false,
                ..MACHINE
            },
            ..bare(BRANCH, PredKind::NotTaken, &tables::BRANCH_QUIET)
        },
        bare(TEXT_STORE, PredKind::NotTaken, &tables::TEXT_STORE),
    ]
}

/// The tables of programs on one path.
pub fn straight<'a>() -> [Table<'a>; 6] {
    [
        Table {
            hier: SLOW,
            ..bare(STORE, PredKind::Bimod, &tables::STORE)
        },
        Table {
            config: OooConfig {
                in_order: true,
                ..MACHINE
            },
            hier: SLOW,
            ..bare(STORE, PredKind::Bimod, &tables::STORE_IN_ORDER)
        },
        bare(DIVISIONS, PredKind::Bimod, &tables::DIVISIONS),
        Table {
            config: OooConfig { ruu: 2, ..MACHINE },
            ..bare(CALL, PredKind::Bimod, &tables::CALL)
        },
        Table {
            hier: AT_ONCE,
            ..bare(LOADS, PredKind::Bimod, &tables::LOADS_AT_ONCE)
        },
        Table {
            hier: IN_FLIGHT,
            ..bare(LOADS, PredKind::Bimod, &tables::LOADS_IN_FLIGHT)
        },
    ]
}
