use crate::{EndWord, Event, Events, Log, Mark, OooConfig, bound};
use cache_core::CacheConfig;
use mem_hier::{Hier, HierConfig, Level};
use ss_base::OutOfMemory;
use std::alloc::Global;
use std::test::Fail;

/// The default machine.
const DEFAULTS: OooConfig = OooConfig {
    ifq: 4,
    decode: 4,
    issue: 4,
    commit: 4,
    ruu: 16,
    lsq: 8,
    penalty: 3,
    alus: 4,
    mults: 1,
    ports: 2,
    in_order: false,
    wrong_issue: true,
};

fn shape(sets: u32, block: u32, ways: u32) -> CacheConfig {
    CacheConfig {
        sets,
        block,
        ways,
        fifo: false,
    }
}

/// The default hierarchy, or one without caches and TLBs.
fn hierarchy(bare: bool) -> HierConfig {
    let off = Level::Off;
    HierConfig {
        il1: if bare {
            off
        } else {
            Level::Own(shape(512, 32, 1))
        },
        il2: if bare { off } else { Level::Shared },
        dl1: if bare {
            off
        } else {
            Level::Own(shape(128, 32, 4))
        },
        dl2: if bare {
            off
        } else {
            Level::Own(shape(1024, 64, 4))
        },
        itlb: if bare { None } else { Some(shape(16, 4096, 4)) },
        dtlb: if bare { None } else { Some(shape(32, 4096, 4)) },
        il1lat: 1,
        il2lat: 6,
        dl1lat: 1,
        dl2lat: 6,
        mem_first: 18,
        mem_inter: 2,
        mem_width: 8,
        tlb_lat: 30,
        wait: false,
    }
}

/// Whether the bound is this number.
fn has_bound(alloc: Global, bare: bool, cycles: u64) -> Result<bool, OutOfMemory> {
    let config = hierarchy(bare);
    if !config.is_allowed() {
        return Ok(false);
    }
    let hier = Hier::new(alloc, &config)?;
    Ok(bound(&DEFAULTS, &hier) == cycles)
}

#[test]
fn bound_is_174_by_default_and_98_without_caches(rt: HostRuntime) -> Result<(), Fail> {
    let default = has_bound(rt.alloc(), false, 174)?;
    let bare = has_bound(rt.alloc(), true, 98)?;
    assert!(rt; default && bare);
    Ok(())
}

/// Whether these configurations are allowed as said.
fn judged_so(rows: &[(OooConfig, bool)]) -> bool {
    for (config, allowed) in rows {
        if config.is_allowed() != *allowed {
            return false;
        }
    }
    true
}

#[test]
fn sizes_have_limits(rt: HostRuntime) {
    let rows = [
        (DEFAULTS, true),
        (
            OooConfig {
                ifq: 64,
                ..DEFAULTS
            },
            true,
        ),
        (
            OooConfig {
                ifq: 65,
                ..DEFAULTS
            },
            false,
        ),
        (
            OooConfig {
                decode: 33,
                ..DEFAULTS
            },
            false,
        ),
        (
            OooConfig {
                issue: 0,
                ..DEFAULTS
            },
            false,
        ),
        (
            OooConfig {
                commit: 32,
                ..DEFAULTS
            },
            true,
        ),
        (OooConfig { ruu: 1, ..DEFAULTS }, false),
        (
            OooConfig {
                lsq: 257,
                ..DEFAULTS
            },
            false,
        ),
        (
            OooConfig {
                penalty: 1001,
                ..DEFAULTS
            },
            false,
        ),
        (
            OooConfig {
                ports: 9,
                ..DEFAULTS
            },
            false,
        ),
    ];
    let judged = judged_so(&rows);
    assert!(rt; judged);
}

/// A log of one event.
fn short_log(alloc: Global) -> Result<Log, OutOfMemory> {
    let mut items = Vec::new(alloc);
    items.push(Event {
        cycle: 0,
        row: 0,
        mark: Mark::Fetched {
            pc: 0x0040_0000,
            next: 0x0040_0008,
            queued: 38,
        },
    })?;
    Ok(Log {
        events: Events::from_vec(items),
        cycles: 1,
        end: EndWord::Budget,
    })
}

#[test]
fn events_are_a_slice(rt: HostRuntime) -> Result<(), Fail> {
    let log = short_log(rt.alloc())?;
    let found = log.events.as_slice().len() == 1 && log.cycles == 1;
    assert!(rt; found);
    Ok(())
}
