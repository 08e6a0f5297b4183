//! Whole runs over memory, with their files, their output and their counts.
ghost use Rattle.std.specs.Prelude.{IfSome};
ghost use Rattle.machine_run.specs.Plan.{IsAllowed};

use bpred_unit::{PredConfig, PredKind};
use cache_core::CacheConfig;
use event_trace::Trace;
use journal::Borrowed;
use machine_run::{MachineConfig, MachinePlan, MachineRun, machine_run};
use mem_hier::{HierConfig, Level};
use ooo_table::{EndWord, OooConfig};
use pisa_step::Cause;
use sim_safe::Arch;
use ss_base::{MemShelf, MemSink};
use std::alloc::Global;

/// The default machine.
const MACHINE: OooConfig = OooConfig {
    ifq: 4,
    decode: 4,
    issue: 4,
    commit: 4,
    ruu: 16,
    lsq: 8,
    penalty: 3,
    alus: 4,
    mults: 1,
    ports: 2,
    in_order: false,
    wrong_issue: true,
};

const fn shape(sets: u32, block: u32, ways: u32) -> CacheConfig {
    CacheConfig {
        sets,
        block,
        ways,
        fifo: false,
    }
}

/// The program that exits with code 7.
const FIRST: &[u8] = b".text 0x00400000\n ADDIU $2,$0,1\n ADDIU $4,$0,7\n SYSCALL\n";

/// One instruction, behind which no text stands.
const RUNS_OFF: &[u8] = b".text 0x00400000\n ADDIU $9,$0,1\n";

const FIRST_LINES: &[u8] =
    b"0 00400000 ADDIU r2=00000001\n1 00400008 ADDIU r4=00000007\n2 00400010 SYSCALL call=0 exit=7\n";

const FIRST_TABLE: &[u8] =
    b"@ 0\n+ 0 00400000 00400008 38\n@ 38\n+ 1 00400008 00400010 38\n+ 2 00400010 00400018 38\n+ 3 00400018 00400020 38\n@ 39\nD 0\nD 1\n+ 4 00400020 00400028 39\n+ 5 00400028 00400030 39\n@ 40\nI 0\nI 1\n@ 41\nW 0\nW 1\n@ 42\nC 0\nC 1\nD 2\n+ 6 00400030 00400038 42\n@ 43\nI 2\n@ 44\nW 2\n@ 45\nC 2\n. 46 exited 7\n";

const STOPPED: EndWord = EndWord::Stopped {
    pc: 0x0040_0008,
    icnt: 1,
    cause: Cause::BadFetch,
};

/// A program, what is asked of its run, how it ends, how many steps are skipped, how many instructions commit in how many
/// cycles, and what its files hold.
#[derive(Clone, Copy)]
struct Row {
    source: &'static [u8],
    skip: u64,
    max_inst: u64,
    max_cycles: u64,
    end: EndWord,
    skipped: u64,
    commits: u64,
    cycles: u64,
    lines: &'static [u8],
    table: Option<&'static [u8]>,
}

/// A run of the first program that writes no instruction.
fn quiet(budgets: (u64, u64, u64), end: EndWord, skipped: u64, table: &'static [u8]) -> Row {
    Row {
        source: FIRST,
        skip: budgets.0,
        max_inst: budgets.1,
        max_cycles: budgets.2,
        end,
        skipped,
        commits: 0,
        cycles: 0,
        lines: b"",
        table: Some(table),
    }
}

/// The defaults.
fn defaults() -> Option<MachineConfig>
    ensures { IfSome result IsAllowed }
{
    let hier = HierConfig {
        il1: Level::Own(shape(512, 32, 1)),
        il2: Level::Shared,
        dl1: Level::Own(shape(128, 32, 4)),
        dl2: Level::Own(shape(1024, 64, 4)),
        itlb: Some(shape(16, 4096, 4)),
        dtlb: Some(shape(32, 4096, 4)),
        il1lat: 1,
        il2lat: 6,
        dl1lat: 1,
        dl2lat: 6,
        mem_first: 18,
        mem_inter: 2,
        mem_width: 8,
        tlb_lat: 30,
        wait: false,
    };
    let pred = PredConfig {
        kind: PredKind::Bimod,
        bimod: 2048,
        l1: 1,
        l2: 1024,
        width: 8,
        xor: false,
        meta: 1024,
        btb_sets: 512,
        btb_ways: 4,
        ras: 8,
    };
    if !MACHINE.is_allowed() || !hier.is_allowed() {
        return None;
    }
    Some(MachineConfig {
        ooo: MACHINE,
        hier,
        pred,
    })
}

/// Does the run of a row over an outside, and tells what it came to.
fn run_of(
    alloc: Global,
    row: &Row,
    outside: &mut Borrowed<'_, '_, '_, MemShelf, MemSink, MemSink>,
) -> Option<MachineRun> {
    if row.source.len() > 1_000 {
        return None;
    }
    let Ok(image) = pisa_asm::assemble(alloc, row.source) else {
        return None;
    };
    let Ok(arch) = Arch::start(alloc, image, &[]) else {
        return None;
    };
    if arch.icnt() > 0 {
        return None;
    }
    let config = defaults()?;
    let trace = Trace::absent(alloc);
    let plan = MachinePlan {
        skip: row.skip,
        max_inst: row.max_inst,
        max_cycles: row.max_cycles.min(1_000),
        commits: Some("c"),
        ptrace: Some("t"),
    };
    machine_run(alloc, arch, &trace, &config, &plan, outside).ok()
}

/// Whether the counts of a run are those of a row.
fn counts_so(made: &MachineRun, row: &Row) -> bool {
    made.end == row.end
        && made.skipped == row.skipped
        && made.statistics.insn == row.commits
        && made.statistics.cycles == row.cycles
}

/// Whether the run of a row comes to what the row says.
fn agrees(alloc: Global, row: &Row) -> bool {
    let mut shelf = MemShelf::new(alloc);
    let mut prog = MemSink::new(alloc);
    let mut stat = MemSink::new(alloc);
    if shelf.add("c", b"").is_err() || shelf.add("t", b"").is_err() {
        return false;
    }
    let made = run_of(
        alloc,
        row,
        &mut Borrowed {
            shelf: &mut shelf,
            prog: &mut prog,
            stat: &mut stat,
        },
    );
    let counted = match made {
        Some(made) => counts_so(&made, row),
        None => false,
    };
    let written = match row.table {
        Some(table) => shelf.bytes("t") == Some(table),
        None => true,
    };
    counted && written && shelf.bytes("c") == Some(row.lines) && prog.bytes().is_empty()
}

/// Whether all do.
fn all_agree(alloc: Global) -> bool {
    let first = Row {
        source: FIRST,
        skip: 0,
        max_inst: 1000,
        max_cycles: 1000,
        end: EndWord::Exited(7),
        skipped: 0,
        commits: 3,
        cycles: 46,
        lines: FIRST_LINES,
        table: Some(FIRST_TABLE),
    };
    let rows = [
        first,
        Row {
            max_inst: 2,
            end: EndWord::Budget,
            commits: 2,
            cycles: 43,
            lines: &FIRST_LINES[..58],
            table: None,
            ..first
        },
        Row {
            skip: 1,
            skipped: 1,
            commits: 2,
            lines: &FIRST_LINES[29..],
            table: None,
            ..first
        },
        quiet((0, 0, 1000), EndWord::Budget, 0, b". 0 budget\n"),
        quiet((0, 1000, 0), EndWord::Budget, 0, b". 0 budget\n"),
        quiet((2, 0, 1000), EndWord::Budget, 2, b". 0 budget\n"),
        quiet((3, 1000, 1000), EndWord::Exited(7), 3, b". 0 exited 7\n"),
        quiet((9, 1000, 1000), EndWord::Exited(7), 3, b". 0 exited 7\n"),
        Row {
            source: RUNS_OFF,
            ..quiet(
                (2, 1000, 1000),
                STOPPED,
                1,
                b". 0 stopped 00400008 1 bad-fetch\n",
            )
        },
    ];
    rows.iter().all(|row| agrees(alloc, row))
}

#[test]
fn whole_runs_write_their_files(rt: HostRuntime) {
    let agree = all_agree(rt.alloc());
    assert!(rt; agree);
}
