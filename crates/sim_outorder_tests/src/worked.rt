//! Short programs on the machine, against the worked tables.
ghost use Rattle.std.specs.Prelude.{◌≡◌, ◌<◌, IfSome};
ghost use Rattle.sim_safe.specs.Record.{IsRunTrace};
ghost use Rattle.sim_outorder.specs.Running.{IsReady};

mod budgets;

use crate::tables::{
    self, ACCESSED, COMMITTED, DISPATCHED, FETCHED, ISSUED, Line, PC, QUEUED, RETURNED, SQUASHED,
    WRITTEN,
};
use bpred_unit::{PredConfig, PredKind, Predictor};
use cache_core::CacheConfig;
use core_statistics::CoreStats;
use core_watch::Watch;
use event_trace::Trace;
use mem_hier::{Hier, HierConfig, Level};
use ooo_front::Front;
use ooo_table::{Event, Mark, OooConfig};
use pisa_step::Cause;
use ruu_core::Ruu;
use sim_outorder::{Core, Turn};
use sim_safe::{Arch, CommitRecord};
use std::alloc::Global;

/// Where the text of each program stands.
const TEXT: u32 = 0x0040_0000;

/// The default machine.
const MACHINE: OooConfig = OooConfig {
    ifq: 4,
    decode: 4,
    issue: 4,
    commit: 4,
    ruu: 16,
    lsq: 8,
    penalty: 3,
    alus: 4,
    mults: 1,
    ports: 2,
    in_order: false,
    wrong_issue: true,
};

/// A hierarchy without caches and TLBs.
const BARE: HierConfig = HierConfig {
    il1: Level::Off,
    il2: Level::Off,
    dl1: Level::Off,
    dl2: Level::Off,
    itlb: None,
    dtlb: None,
    il1lat: 1,
    il2lat: 6,
    dl1lat: 1,
    dl2lat: 6,
    mem_first: 18,
    mem_inter: 2,
    mem_width: 8,
    tlb_lat: 30,
    wait: false,
};

/// The same where each reference of a load takes 5 cycles.
const SLOW: HierConfig = HierConfig { dl1lat: 5, ..BARE };

/// One line of 32 bytes for data.
const ONE_LINE: Level = Level::Own(CacheConfig {
    sets: 1,
    block: 32,
    ways: 1,
    fifo: false,
});

const AT_ONCE: HierConfig = HierConfig {
    dl1: ONE_LINE,
    ..BARE
};

const IN_FLIGHT: HierConfig = HierConfig {
    dl1: ONE_LINE,
    wait: true,
    ..BARE
};

const FIRST: &[u8] = b".text 0x00400000\n ADDIU $2,$0,1\n ADDIU $4,$0,7\n SYSCALL\n";

const BRANCH: &[u8] =
    b".text 0x00400000\n ADDIU $9,$0,1\n BNE $9,$0,taken\n LW $10,0($29)\n SW $10,4($29)\n NOP\n NOP\ntaken: ADDIU $2,$0,1\n ADDIU $4,$0,0\n SYSCALL\n";

const TEXT_STORE: &[u8] =
    b".text 0x00400000\n LUI $11,64\n ADDIU $9,$0,1\n BNE $9,$0,taken\n LW $10,0($29)\n SW $0,0($11)\n NOP\n NOP\ntaken: ADDIU $2,$0,1\n ADDIU $4,$0,0\n SYSCALL\n";

const STORE: &[u8] =
    b".text 0x00400000\n LUI $8,4096\n ADDU $9,$8,$0\n SW $0,0($9)\n LW $10,4($8)\n LW $11,8($8)\n ADDIU $2,$0,1\n ADDIU $4,$0,0\n SYSCALL\n";

const DIVISIONS: &[u8] =
    b".text 0x00400000\n ADDIU $8,$0,7\n ADDIU $9,$0,2\n DIV $8,$9\n DIV $8,$9\n ADDIU $2,$0,1\n ADDIU $4,$0,0\n SYSCALL\n";

const CALL: &[u8] = b".text 0x00400000\n ADDIU $2,$0,1\n ADDIU $4,$0,0\n MULT $2,$4\n SYSCALL\n";

const LOADS: &[u8] =
    b".text 0x00400000\n LW $8,0($29)\n LW $9,4($29)\n ADDU $10,$9,$9\n ADDIU $2,$0,1\n ADDIU $4,$0,0\n SYSCALL\n";

/// A program, the machine that it runs on, what its rows show, and what is counted of them.
#[derive(Clone, Copy)]
struct Table<'a> {
    source: &'a [u8],
    config: OooConfig,
    hier: HierConfig,
    kind: PredKind,
    code: u32,
    lines: &'a [Line],
    counts: CoreStats,
}

/// A table on a machine without caches, whose program exits with code 0.
fn bare<'a>(source: &'a [u8], kind: PredKind, lines: &'a [Line], counts: CoreStats) -> Table<'a> {
    Table {
        source,
        config: MACHINE,
        hier: BARE,
        kind,
        code: 0,
        lines,
        counts,
    }
}

/// The column of a mark.
fn column(mark: &Mark) -> usize
    ensures { result < 10 }
{
    match mark {
        Mark::Fetched {
            pc: _,
            next: _,
            queued: _,
        } => FETCHED,
        Mark::Dispatched => DISPATCHED,
        Mark::Issued => ISSUED,
        Mark::Written => WRITTEN,
        Mark::Accessed => ACCESSED,
        Mark::Returned => RETURNED,
        Mark::Committed => COMMITTED,
        Mark::Squashed => SQUASHED,
    }
}

/// Whether a row is of that address and has its words at that cycle, where an event tells.
fn is_of(line: &Line, mark: &Mark) -> bool {
    match mark {
        Mark::Fetched {
            pc,
            next: _,
            queued,
        } => { *queued == line[QUEUED] && u64::from(*pc) == u64::from(TEXT).wrapping_add(line[PC]) }
        _ => true,
    }
}

/// Whether a row has this mark at this cycle.
fn has(line: &Line, e: &Event) -> bool {
    line[column(&e.mark)] == e.cycle && is_of(line, &e.mark)
}

/// How many marks a row has: F, and those behind Q that come.
fn marks(line: &Line) -> u64 {
    1 + line[DISPATCHED..].iter().filter(|at| **at > 0).count() as u64
}

/// Compares what it is shown with a table.
#[derive(Clone, Copy)]
struct Compared<'a> {
    lines: &'a [Line],
    shown: u64,
    records: u64,
    wrong: u64,
}

impl Watch for Compared<'_> {
    ghost use Rattle.sim_safe.specs.declared.observer.Meaning.TheVariants as meaning;

    type Fault = ();

    ghost took = { λ a h b. Unit {0} };

    ghost cut = { λ a h b. Unit {0} };

    ghost faults = { λ o. (0, 0) };

    ghost means = { λ f. meaning.Memory };

    ghost took_none = { λ o. tt };

    fn event(&mut self, e: &Event) -> Result<(), ()> {
        match self.lines.get(e.row as usize) {
            Some(line) if has(line, e) => self.shown = self.shown.saturating_add(1),
            _ => self.wrong = self.wrong.saturating_add(1),
        }
        Ok(())
    }

    fn commit(&mut self, _r: &CommitRecord, _trace: &Trace) -> Result<(), ()> {
        self.records = self.records.saturating_add(1);
        Ok(())
    }
}

/// The machine of a table before its first cycle.
fn machine(alloc: Global, table: &Table<'_>) -> Option<Core>
    ensures { IfSome result (λ core. IsReady core × (core.cycle ≡ 0)) }
{
    if table.source.len() > 1_000 {
        return None;
    }
    let Ok(image) = pisa_asm::assemble(alloc, table.source) else {
        return None;
    };
    let Ok(arch) = Arch::start(alloc, image, &[]) else {
        return None;
    };
    if !table.config.is_allowed() || !table.hier.is_allowed() || arch.icnt() > 0 {
        return None;
    }
    let Ok(hier) = Hier::new(alloc, &table.hier) else {
        return None;
    };
    let config = PredConfig {
        kind: table.kind,
        bimod: 2048,
        l1: 1,
        l2: 1024,
        width: 8,
        xor: false,
        meta: 1024,
        btb_sets: 512,
        btb_ways: 4,
        ras: 8,
    };
    let Ok(predictor) = Predictor::new(alloc, &config) else {
        return None;
    };
    Core::new(alloc, arch, &table.config, hier, predictor).ok()
}

/// Whether a mark has come behind a cycle.
fn has_come(at: u64, k: u64) -> bool {
    at > 0 && at <= k
}

/// Whether a row has left behind a cycle: it has committed or was squashed.
fn has_left(line: &Line, k: u64) -> bool {
    has_come(line[COMMITTED], k) || has_come(line[SQUASHED], k)
}

/// Whether a row is live behind a cycle.
fn is_live(line: &Line, k: u64) -> bool {
    has_come(line[DISPATCHED], k) && !has_left(line, k)
}

/// Whether a row waits for its dispatch behind a cycle.
fn is_waiting(line: &Line, k: u64) -> bool {
    line[FETCHED] <= k && !has_come(line[DISPATCHED], k) && !has_left(line, k)
}

/// Whether the unit of so many places holds the rows of a table that are live behind a cycle.
fn unit_holds(unit: &Ruu, places: u64, lines: &[Line], k: u64) -> bool {
    let live = lines.iter().filter(|line| is_live(line, k)).count() as u64;
    let unissued = lines
        .iter()
        .position(|line| is_live(line, k) && !has_come(line[ISSUED], k));
    unit.is_empty() == (live == 0)
        && unit.room() == (live < places)
        && unit.first_unissued() == unissued.map(|at| at as u64)
}

/// Whether the front holds the rows of a table that wait behind a cycle, the oldest at its head.
fn front_holds(front: &Front, lines: &[Line], k: u64) -> bool {
    let fetched = lines.iter().filter(|line| line[FETCHED] <= k).count() as u64;
    let oldest = lines.iter().find(|line| is_waiting(line, k));
    let head = front.head(u64::MAX);
    let same = match (oldest, head) {
        (Some(line), Some(row)) => {
            row.queued == line[QUEUED]
                && u64::from(row.pc) == u64::from(TEXT).wrapping_add(line[PC])
        }
        (None, None) => true,
        _ => false,
    };
    same && front.next_number() == fetched
}

/// Runs a machine to its end, and answers the exit code and what was counted. None where it ends otherwise, or its
/// unit or front holds something else behind a cycle than the table says.
fn exit_of(
    mut core: Core,
    places: u64,
    trace: &Trace,
    watch: &mut Compared<'_>,
) -> Option<(u32, CoreStats)>
    requires ready { IsReady core × (core.cycle ≡ 0) }
    requires trace { IsRunTrace trace.now }
{
    let lines = watch.lines;
    for k in 0..100u64 {
        match core.cycle(trace, 1000, watch) {
            Ok(Turn::Going) => {
                let held = unit_holds(core.unit(), places, lines, k)
                    && front_holds(core.front(), lines, k);
                if !held {
                    return None;
                }
            }
            Ok(Turn::Ended(Cause::Exited { code })) => return Some((code, core.stats())),
            _ => return None,
        }
    }
    None
}

/// Whether a table comes out of the machine, each mark once and no other, with its counts.
fn agrees(alloc: Global, table: &Table<'_>) -> bool {
    let Some(core) = machine(alloc, table) else {
        return false;
    };
    let mut watch = Compared {
        lines: table.lines,
        shown: 0,
        records: 0,
        wrong: 0,
    };
    let trace = Trace::absent(alloc);
    let places = u64::from(table.config.ruu);
    let end = exit_of(core, places, &trace, &mut watch);
    let marks = table
        .lines
        .iter()
        .fold(0u64, |sum, line| sum.saturating_add(marks(line)));
    let commits = table
        .lines
        .iter()
        .filter(|line| line[COMMITTED] > 0)
        .count() as u64;
    end == Some((table.code, table.counts))
        && watch.wrong == 0
        && watch.shown == marks
        && watch.records == commits
}

/// Whether all tables do.
fn all_agree(alloc: Global) -> bool {
    let tables = [
        Table {
            source: FIRST,
            config: OooConfig {
                ifq: 1,
                decode: 1,
                issue: 1,
                commit: 1,
                ruu: 2,
                lsq: 2,
                ports: 1,
                ..MACHINE
            },
            hier: BARE,
            kind: PredKind::Bimod,
            code: 7,
            lines: &tables::FIRST_OBJECT,
            counts: tables::FIRST_OBJECT_COUNTS,
        },
        bare(
            BRANCH,
            PredKind::NotTaken,
            &tables::BRANCH,
            tables::BRANCH_COUNTS,
        ),
        Table {
            config: OooConfig {
                wrong_issue: false,
                ..MACHINE
            },
            ..bare(
                BRANCH,
                PredKind::NotTaken,
                &tables::BRANCH_QUIET,
                tables::BRANCH_COUNTS,
            )
        },
        bare(
            TEXT_STORE,
            PredKind::NotTaken,
            &tables::TEXT_STORE,
            tables::TEXT_STORE_COUNTS,
        ),
        Table {
            hier: SLOW,
            ..bare(STORE, PredKind::Bimod, &tables::STORE, tables::STORE_COUNTS)
        },
        Table {
            config: OooConfig {
                in_order: true,
                ..MACHINE
            },
            hier: SLOW,
            ..bare(
                STORE,
                PredKind::Bimod,
                &tables::STORE_IN_ORDER,
                tables::STORE_COUNTS,
            )
        },
        bare(
            DIVISIONS,
            PredKind::Bimod,
            &tables::DIVISIONS,
            tables::DIVISIONS_COUNTS,
        ),
        Table {
            config: OooConfig { ruu: 2, ..MACHINE },
            ..bare(CALL, PredKind::Bimod, &tables::CALL, tables::CALL_COUNTS)
        },
        Table {
            hier: AT_ONCE,
            ..bare(
                LOADS,
                PredKind::Bimod,
                &tables::LOADS_AT_ONCE,
                tables::LOADS_COUNTS,
            )
        },
        Table {
            hier: IN_FLIGHT,
            ..bare(
                LOADS,
                PredKind::Bimod,
                &tables::LOADS_IN_FLIGHT,
                tables::LOADS_COUNTS,
            )
        },
    ];
    tables.iter().all(|table| agrees(alloc, table))
}

#[test]
fn worked_tables_come_out_of_the_machine(rt: HostRuntime) {
    let agree = all_agree(rt.alloc());
    assert!(rt; agree);
}
