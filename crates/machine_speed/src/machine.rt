//! The machine that is measured.
ghost use Rattle.std.specs.Prelude.{◌≡◌, IfSome};
ghost use Rattle.sim_outorder.specs.Running.{IsReady};

use bpred_unit::{PredConfig, PredKind, Predictor};
use cache_core::CacheConfig;
use mem_hier::{Hier, HierConfig, Level};
use ooo_table::OooConfig;
use sim_outorder::Core;
use sim_safe::Arch;
use std::alloc::Global;

/// The default machine.
const MACHINE: OooConfig = OooConfig {
    ifq: 4,
    decode: 4,
    issue: 4,
    commit: 4,
    ruu: 16,
    lsq: 8,
    penalty: 3,
    alus: 4,
    mults: 1,
    ports: 2,
    in_order: false,
    wrong_issue: true,
};

/// A first-level cache for code: 16 KiB, direct-mapped.
const FIRST_CODE: CacheConfig = CacheConfig {
    sets: 512,
    block: 32,
    ways: 1,
    fifo: false,
};

/// A first-level cache for data: 16 KiB in sets of four.
const FIRST_DATA: CacheConfig = CacheConfig {
    sets: 128,
    block: 32,
    ways: 4,
    fifo: false,
};

/// A second-level cache for both: 256 KiB in sets of four.
const SECOND: CacheConfig = CacheConfig {
    sets: 1024,
    block: 64,
    ways: 4,
    fifo: false,
};

/// A TLB for code: 64 pages in sets of four.
const CODE_PAGES: CacheConfig = CacheConfig {
    sets: 16,
    block: 4096,
    ways: 4,
    fifo: false,
};

/// A TLB for data: 128 pages in sets of four.
const DATA_PAGES: CacheConfig = CacheConfig {
    sets: 32,
    block: 4096,
    ways: 4,
    fifo: false,
};

/// The default hierarchy.
const HIERARCHY: HierConfig = HierConfig {
    il1: Level::Own(FIRST_CODE),
    il2: Level::Shared,
    dl1: Level::Own(FIRST_DATA),
    dl2: Level::Own(SECOND),
    itlb: Some(CODE_PAGES),
    dtlb: Some(DATA_PAGES),
    il1lat: 1,
    il2lat: 6,
    dl1lat: 1,
    dl2lat: 6,
    mem_first: 18,
    mem_inter: 2,
    mem_width: 8,
    tlb_lat: 30,
    wait: false,
};

/// The default predictor.
const PREDICTOR: PredConfig = PredConfig {
    kind: PredKind::Bimod,
    bimod: 2048,
    l1: 1,
    l2: 1024,
    width: 8,
    xor: false,
    meta: 1024,
    btb_sets: 512,
    btb_ways: 4,
    ras: 8,
};

/// The state in which the program of an object starts without arguments.
fn start(alloc: Global, object: &[u8]) -> Option<Arch>
    ensures { IfSome result (λ arch. arch.icnt ≡ 0) }
{
    let Ok(image) = ecoff_load::read(alloc, object) else {
        return None;
    };
    let Ok(arch) = Arch::start(alloc, image, &[]) else {
        return None;
    };
    if arch.icnt() > 0 { None } else { Some(arch) }
}

/// The machine before the first cycle of an object's run: the default one, but with a unit for so many rows
/// and a queue for half as many. None where there may be no such machine, the bytes are no object, or there
/// is too little memory.
pub fn machine(alloc: Global, object: &[u8], rows: u32) -> Option<Core>
    ensures { IfSome result (λ core. IsReady core × (core.cycle ≡ 0)) }
{
    let config = OooConfig {
        ruu: rows,
        lsq: rows / 2,
        ..MACHINE
    };
    if !config.is_allowed() || !HIERARCHY.is_allowed() {
        return None;
    }
    let Some(arch) = start(alloc, object) else {
        return None;
    };
    let Ok(hier) = Hier::new(alloc, &HIERARCHY) else {
        return None;
    };
    let Ok(predictor) = Predictor::new(alloc, &PREDICTOR) else {
        return None;
    };
    Core::new(alloc, arch, &config, hier, predictor).ok()
}
