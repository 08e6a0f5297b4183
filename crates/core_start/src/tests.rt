//! Starts with ample memory.
ghost use Rattle.std.specs.Prelude.{IfOk, IfSome};
ghost use Rattle.core_parts.specs.Fits.{Fits};

use crate::start;
use bpred_unit::{PredConfig, PredKind, Predictor};
use core_parts::Parts;
use ecoff_load::{Image, Text};
use mem_hier::{Hier, HierConfig, Level};
use ooo_front::FetchRow;
use ooo_table::OooConfig;
use sim_safe::Arch;
use ss_base::{Bytes, OutOfMemory};
use std::alloc::Global;

/// Where the text of the program stands, which is one NOP.
const TEXT: u32 = 0x0040_0000;

/// A hierarchy without caches and TLBs.
const BARE: HierConfig = HierConfig {
    il1: Level::Off,
    il2: Level::Off,
    dl1: Level::Off,
    dl2: Level::Off,
    itlb: None,
    dtlb: None,
    il1lat: 1,
    il2lat: 6,
    dl1lat: 1,
    dl2lat: 6,
    mem_first: 18,
    mem_inter: 2,
    mem_width: 8,
    tlb_lat: 30,
    wait: true,
};

/// The sizes of a configuration, the address at which its run starts, and how many rows its first cycle fetches.
struct Row {
    /// How many rows may wait.
    ifq: u32,
    /// How many may be live.
    ruu: u32,
    /// How many loads and stores may be live.
    lsq: u32,
    /// How much each stage does in a cycle.
    width: u32,
    /// How many units each pool has.
    units: u32,
    entry: u32,
    fetched: usize,
}

const ROWS: [Row; 5] = [
    Row {
        ifq: 4,
        ruu: 16,
        lsq: 8,
        width: 4,
        units: 2,
        entry: TEXT,
        fetched: 4,
    },
    // the least and the greatest
    Row {
        ifq: 1,
        ruu: 2,
        lsq: 2,
        width: 1,
        units: 1,
        entry: TEXT,
        fetched: 1,
    },
    Row {
        ifq: 64,
        ruu: 256,
        lsq: 256,
        width: 32,
        units: 8,
        entry: TEXT,
        fetched: 32,
    },
    // fewer may wait than are fetched in a cycle
    Row {
        ifq: 3,
        ruu: 8,
        lsq: 4,
        width: 8,
        units: 1,
        entry: TEXT,
        fetched: 3,
    },
    // a start outside of text
    Row {
        ifq: 8,
        ruu: 8,
        lsq: 8,
        width: 2,
        units: 1,
        entry: 0x1000_0000,
        fetched: 2,
    },
];

impl Row {
    fn config(&self) -> OooConfig {
        OooConfig {
            ifq: self.ifq,
            decode: self.width,
            issue: self.width,
            commit: self.width,
            ruu: self.ruu,
            lsq: self.lsq,
            penalty: 3,
            alus: self.units,
            mults: self.units,
            ports: self.units,
            in_order: false,
            wrong_issue: true,
        }
    }
}

/// The program, which starts at an address.
fn image(alloc: Global, entry: u32) -> Result<Image, OutOfMemory> {
    let bytes = Bytes::from_vec(Vec::from_slice(alloc, &[0; 8])?);
    let text = Text {
        start: TEXT,
        big: false,
        bytes,
    };
    let parts = ecoff_load::Parts::from_vec(Vec::new(alloc));
    Ok(Image { entry, text, parts })
}

/// The state of the program at its start.
fn state(alloc: Global, entry: u32) -> Option<Arch> {
    let Ok(image) = image(alloc, entry) else {
        return None;
    };
    if !image.fits() {
        return None;
    }
    match Arch::start(alloc, image, &[]) {
        Ok(arch) => Some(arch),
        Err(_) => None,
    }
}

/// A predictor by which no branch is taken.
fn predictor(alloc: Global) -> Result<Predictor, OutOfMemory> {
    let config = PredConfig {
        kind: PredKind::NotTaken,
        bimod: 1,
        l1: 1,
        l2: 1,
        width: 1,
        xor: false,
        meta: 1,
        btb_sets: 4,
        btb_ways: 2,
        ras: 8,
    };
    Predictor::new(alloc, &config)
}

/// The parts of a run from that state, over a hierarchy to which one reference was made, in cycle 100.
fn parts(alloc: Global, arch: Arch, config: &OooConfig) -> Result<Option<Parts>, OutOfMemory>
    ensures { IfOk result (λ made. IfSome made (λ parts. Fits 0 0 parts)) }
{
    if !config.is_allowed() || !BARE.is_allowed() || arch.icnt() > 0 {
        return Ok(None);
    }
    let mut hier = Hier::new(alloc, &BARE)?;
    let predictor = predictor(alloc)?;
    let _latency = hier.fetch(TEXT, 100);
    Ok(Some(start(alloc, arch, config, hier, predictor)?))
}

/// Whether the first row, of number 0, is of that address.
fn begins(rows: &[FetchRow], entry: u32) -> bool {
    match rows.first() {
        Some(row) => row.row == 0 && row.pc == entry && row.fetched == 0,
        None => false,
    }
}

/// Whether no row is in flight, and what the first cycle fetches is so many rows from the address on.
fn is_first(mut parts: Parts, row: &Row) -> bool
    requires { Fits 0 0 parts }
{
    let live = parts.unit.is_empty() && parts.unit.room() && parts.queue.room();
    let waiting = parts.addresses.len() == 0 && parts.front.head(1).is_none();
    let right = !parts.wrong && parts.overlay.applied() == 0;
    let rows = parts.front.fetch_cycle(0, parts.arch.text(), &mut parts.hier, &mut parts.predictor);
    live && waiting && right && rows.len() == row.fetched && begins(rows.as_slice(), row.entry)
}

/// Whether the parts of a row are made, and are those of a first cycle.
fn agrees(alloc: Global, row: &Row) -> bool {
    let Some(arch) = state(alloc, row.entry) else {
        return false;
    };
    match parts(alloc, arch, &row.config()) {
        Ok(Some(parts)) => is_first(parts, row),
        _ => false,
    }
}

/// Whether all rows agree.
fn all_agree(alloc: Global) -> bool {
    for row in &ROWS {
        if !agrees(alloc, row) {
            return false;
        }
    }
    true
}

#[test]
fn every_configuration_starts(rt: HostRuntime) {
    let agree = all_agree(rt.alloc());
    assert!(rt; agree);
}
