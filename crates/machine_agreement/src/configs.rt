//! The machines on which programs are compared.
use bpred_unit::PredKind;
use cache_core::CacheConfig;
use mem_hier::{HierConfig, Level};
use ooo_table::OooConfig;

/// A machine with a name.
#[derive(Clone, Copy)]
pub struct Setup<'a> {
    /// What it is called.
    pub name: &'a str,
    /// Its widths, places and pools.
    pub config: OooConfig,
    /// Its memory hierarchy.
    pub hier: HierConfig,
    /// How it predicts.
    pub kind: PredKind,
}

/// The default machine.
const MACHINE: OooConfig = OooConfig {
    ifq: 4,
    decode: 4,
    issue: 4,
    commit: 4,
    ruu: 16,
    lsq: 8,
    penalty: 3,
    alus: 4,
    mults: 1,
    ports: 2,
    in_order: false,
    wrong_issue: true,
};

/// One of everything.
const NARROW: OooConfig = OooConfig {
    ifq: 1,
    decode: 1,
    issue: 1,
    commit: 1,
    ruu: 2,
    lsq: 2,
    alus: 1,
    mults: 1,
    ports: 1,
    ..MACHINE
};

/// Two of everything, and a short penalty.
const DOUBLE: OooConfig = OooConfig {
    ifq: 2,
    decode: 2,
    issue: 2,
    commit: 2,
    ruu: 8,
    lsq: 4,
    penalty: 1,
    alus: 2,
    mults: 2,
    ports: 2,
    ..MACHINE
};

/// The widest machine, with full pools.
const WIDE: OooConfig = OooConfig {
    ifq: 32,
    decode: 32,
    issue: 32,
    commit: 32,
    ruu: 64,
    lsq: 32,
    alus: 8,
    mults: 8,
    ports: 8,
    ..MACHINE
};

/// Issues in the order of the program.
const IN_ORDER: OooConfig = OooConfig {
    alus: 3,
    mults: 7,
    ports: 5,
    in_order: true,
    ..MACHINE
};

/// Issues nothing along wrong paths.
const RIGHT: OooConfig = OooConfig {
    alus: 5,
    mults: 3,
    ports: 7,
    wrong_issue: false,
    ..MACHINE
};

/// In order, and nothing along wrong paths.
const STRICT: OooConfig = OooConfig {
    ifq: 8,
    decode: 8,
    issue: 8,
    commit: 8,
    alus: 7,
    mults: 5,
    ports: 3,
    in_order: true,
    wrong_issue: false,
    ..MACHINE
};

/// Fetches and dispatches more than it issues and commits.
const FRONT_HEAVY: OooConfig = OooConfig {
    ifq: 16,
    decode: 12,
    issue: 3,
    commit: 1,
    ruu: 24,
    lsq: 12,
    alus: 6,
    mults: 4,
    ports: 6,
    ..MACHINE
};

/// Issues and commits more than it dispatches.
const BACK_HEAVY: OooConfig = OooConfig {
    ifq: 64,
    decode: 3,
    issue: 24,
    commit: 16,
    ruu: 32,
    lsq: 8,
    penalty: 8,
    alus: 4,
    mults: 6,
    ports: 4,
    ..MACHINE
};

/// A first level of instructions.
const IL1: Level = Level::Own(CacheConfig {
    sets: 4,
    block: 32,
    ways: 1,
    fifo: false,
});

/// A second level of instructions.
const IL2: Level = Level::Own(CacheConfig {
    sets: 2,
    block: 64,
    ways: 2,
    fifo: true,
});

/// A first level of data.
const DL1: Level = Level::Own(CacheConfig {
    sets: 2,
    block: 32,
    ways: 2,
    fifo: true,
});

/// A second level of data.
const DL2: Level = Level::Own(CacheConfig {
    sets: 4,
    block: 64,
    ways: 2,
    fifo: false,
});

/// A TLB.
const TLB: Option<CacheConfig> = Some(CacheConfig {
    sets: 1,
    block: 4096,
    ways: 2,
    fifo: false,
});

/// A hierarchy without caches and TLBs.
const BARE: HierConfig = HierConfig {
    il1: Level::Off,
    il2: Level::Off,
    dl1: Level::Off,
    dl2: Level::Off,
    itlb: None,
    dtlb: None,
    il1lat: 1,
    il2lat: 6,
    dl1lat: 1,
    dl2lat: 6,
    mem_first: 18,
    mem_inter: 2,
    mem_width: 8,
    tlb_lat: 30,
    wait: false,
};

/// The levels of both sides, each with its second behind it, over a hierarchy's other values.
const fn levels(il1: Level, il2: Level, dl1: Level, dl2: Level, others: HierConfig) -> HierConfig {
    HierConfig {
        il1,
        il2,
        dl1,
        dl2,
        ..others
    }
}

/// A machine with a name.
const fn named(
    name: &'static str,
    config: OooConfig,
    hier: HierConfig,
    kind: PredKind,
) -> Setup<'static> {
    Setup {
        name,
        config,
        hier,
        kind,
    }
}

/// Machines whose data side has no second level.
fn with_one_level() -> [Setup<'static>; 7] {
    use Level::{Off, Shared};
    let awaited = HierConfig { wait: true, ..BARE };
    let one_line = Level::Own(CacheConfig {
        sets: 1,
        block: 32,
        ways: 1,
        fifo: false,
    });
    let data_tlb = HierConfig { dtlb: TLB, ..BARE };
    let code_tlb = HierConfig {
        itlb: TLB,
        ..awaited
    };
    [
        named("no caches", MACHINE, BARE, PredKind::Bimod),
        named(
            "instructions",
            NARROW,
            levels(IL1, Off, Off, Off, BARE),
            PredKind::Bimod,
        ),
        named(
            "instructions, two levels",
            DOUBLE,
            levels(IL1, IL2, Off, Off, code_tlb),
            PredKind::NotTaken,
        ),
        named(
            "one line of data",
            IN_ORDER,
            levels(Off, Off, one_line, Off, awaited),
            PredKind::Taken,
        ),
        named(
            "first levels",
            RIGHT,
            levels(IL1, Off, DL1, Off, data_tlb),
            PredKind::NotTaken,
        ),
        named(
            "first levels, second of instructions",
            STRICT,
            levels(IL1, IL2, DL1, Off, awaited),
            PredKind::Comb,
        ),
        named(
            "shared first level",
            FRONT_HEAVY,
            levels(Shared, Off, DL1, Off, BARE),
            PredKind::TwoLevel,
        ),
    ]
}

/// Machines whose data side has two levels.
fn with_two_levels() -> [Setup<'static>; 5] {
    use Level::{Off, Shared};
    let both_tlbs = HierConfig {
        itlb: TLB,
        dtlb: TLB,
        ..BARE
    };
    let awaited = HierConfig {
        wait: true,
        ..both_tlbs
    };
    [
        named(
            "data, two levels",
            WIDE,
            levels(Off, Off, DL1, DL2, BARE),
            PredKind::Taken,
        ),
        named(
            "data in two levels, instructions in one",
            BACK_HEAVY,
            levels(IL1, Off, DL1, DL2, both_tlbs),
            PredKind::Comb,
        ),
        named(
            "two levels each",
            MACHINE,
            levels(IL1, IL2, DL1, DL2, awaited),
            PredKind::TwoLevel,
        ),
        named(
            "shared second level",
            WIDE,
            levels(IL1, Shared, DL1, DL2, awaited),
            PredKind::Bimod,
        ),
        named(
            "shared first level before a second",
            DOUBLE,
            levels(Shared, Off, DL1, DL2, both_tlbs),
            PredKind::Bimod,
        ),
    ]
}

/// Every shape of hierarchy that can stand, each with a machine of its own: pools of every size, widths from 1 to 32, each kind
/// of prediction, both issue options, and values at once and awaited.
pub fn setups() -> [Setup<'static>; 12] {
    let [a, b, c, d, e, f, g] = with_one_level();
    let [h, i, j, k, l] = with_two_levels();
    [a, b, c, d, e, f, g, h, i, j, k, l]
}
