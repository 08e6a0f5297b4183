//! A watch over memory is shown a call that is fetched, done and committed.
ghost use Rattle.sim_safe.specs.Record.{IsRunTrace};

use crate::*;
use arrayvec::ArrayVec;
use core_watch::Watch;
use event_trace::{CallKind, Trace, read};
use journal::{Borrowed, Fault, Outside};
use ooo_table::{EndWord, Event, Mark};
use pisa_isa::{Instr, Op};
use sim_safe::{CallNote, CommitRecord};
use ss_base::{MemShelf, MemSink, OutOfMemory};
use std::alloc::Global;
use std::test::Fail;

/// A trace of one call, which puts out two blocks: "hi" and "!".
const CALL: [u8; 55] = [
    80, 69, 88, 84, 48, 48, 48, 49, 1, 0, 0, 0, 0, 0, 0, 0, 0, 0, 0, 0, 0, 0, 0x40, 0, 1, 0, 2, 0,
    0, 0, 0, 0, 0, 0, 0, 0, 0, 0, 0, 0x10, 2, 0, 0, 0, 104, 105, 8, 0, 0, 0x10, 1, 0, 0, 0, 33,
];

/// What happens to the row of the call, and to one behind it, up to its commit.
const HAPPENED: [(u64, u64, Mark); 7] = [
    (
        7,
        0,
        Mark::Fetched {
            pc: 0x0040_0000,
            next: 0x0040_0008,
            queued: 9,
        },
    ),
    (
        7,
        1,
        Mark::Fetched {
            pc: 0x0040_0008,
            next: 0x0040_0010,
            queued: 9,
        },
    ),
    (10, 0, Mark::Dispatched),
    (11, 0, Mark::Issued),
    (12, 0, Mark::Written),
    (13, 0, Mark::Committed),
    (13, 1, Mark::Dispatched),
];

/// The line of its commit.
const LINES: &[u8] = b"0 00400000 SYSCALL call=0 emit=3\n";

/// Its pipetrace, where the budget ends the run after 14 cycles.
const TEXT: &[u8] =
    b"@ 7\n+ 0 00400000 00400008 9\n+ 1 00400008 00400010 9\n@ 10\nD 0\n@ 11\nI 0\n@ 12\nW 0\n@ 13\nC 0\nD 1\n. 14 budget\n";

/// Which append and which put fails, whether the files are named, what the watch answers, what the first
/// stream holds, and whether the files hold their texts.
#[derive(Clone, Copy, Debug)]
struct Row<'a> {
    append: u64,
    put: u64,
    is_named: bool,
    answer: Result<(), Fault>,
    output: &'a [u8],
    has_lines: bool,
    has_text: bool,
}

/// The record of the call.
fn call() -> CommitRecord {
    CommitRecord {
        number: 0,
        pc: 0x0040_0000,
        instr: Instr {
            op: Op::Syscall,
            rs: 0,
            rt: 0,
            rd: 0,
            shamt: 0,
            imm: 0,
            target: 0,
        },
        next: 0x0040_0008,
        taken: false,
        regs: ArrayVec::new(),
        hi: None,
        lo: None,
        mem: None,
        access: None,
        call: Some(CallNote {
            used: 0,
            kind: CallKind::Emit,
            code: 0,
        }),
    }
}

/// Shows what happened.
fn show_events<W: Watch>(watch: &mut W) -> Result<(), W::Fault> {
    for (cycle, row, mark) in &HAPPENED {
        let e = Event {
            cycle: *cycle,
            row: *row,
            mark: *mark,
        };
        match watch.event(&e) {
            Ok(()) => {}
            Err(fault) => return Err(fault),
        }
    }
    Ok(())
}

/// Shows all, up to the first fault.
fn run<O: Outside>(
    watch: &mut MachineWatch<'_, '_, '_, '_, '_, O>,
    trace: &Trace,
) -> Result<(), Fault>
    requires { IsRunTrace trace.now }
{
    match show_events(watch) {
        Ok(()) => {}
        Err(fault) => return Err(fault),
    }
    match watch.commit(&call(), trace) {
        Ok(()) => watch.finish(14, &EndWord::Budget),
        Err(fault) => Err(fault),
    }
}

/// Runs over an outside, with files that are named or not, and tells how.
fn answers<O: Outside>(
    alloc: Global,
    trace: &Trace,
    is_named: bool,
    outside: &mut O,
) -> Result<(), Fault>
    requires { IsRunTrace trace.now }
{
    let mut lines = Vec::new(alloc);
    let mut text = Vec::new(alloc);
    let commits = if is_named { Some("c") } else { None };
    let ptrace = if is_named { Some("p") } else { None };
    let mut watch = MachineWatch::new(outside, &commits, &ptrace, &mut lines, &mut text);
    run(&mut watch, trace)
}

/// Whether a run does as a row says.
fn agrees(alloc: Global, trace: &Trace, row: Row<'_>) -> Result<bool, OutOfMemory>
    requires { IsRunTrace trace.now }
{
    let mut shelf = MemShelf::new(alloc);
    let mut prog = MemSink::new(alloc);
    let mut stat = MemSink::new(alloc);
    shelf.fail_call(row.append)?;
    prog.fail_call(row.put)?;
    let mut outside = Borrowed {
        shelf: &mut shelf,
        prog: &mut prog,
        stat: &mut stat,
    };
    let answer = answers(alloc, trace, row.is_named, &mut outside);
    let has_lines = shelf.bytes("c") == Some(LINES);
    let has_text = shelf.bytes("p") == Some(TEXT);
    Ok(
        (answer == row.answer)
            & (prog.bytes() == row.output)
            & (has_lines == row.has_lines)
            & (has_text == row.has_text),
    )
}

#[test]
fn runs_are_written_up_to_their_fault(rt: HostRuntime) -> Result<(), Fail> {
    let trace = read(rt.alloc(), &CALL)?;
    let row = |append, put, is_named, answer, output, has_lines, has_text| Row {
        append,
        put,
        is_named,
        answer,
        output,
        has_lines,
        has_text,
    };
    let rows = [
        row(9, 9, true, Ok(()), b"hi!".as_slice(), true, true),
        row(9, 9, false, Ok(()), b"hi!", false, false),
        row(9, 1, true, Err(Fault::Prog), b"hi", false, false),
        row(0, 9, true, Err(Fault::Shelf), b"hi!", false, false),
        row(1, 9, true, Err(Fault::Shelf), b"hi!", true, false),
    ];
    let mut all = true;
    for row in rows {
        all = agrees(rt.alloc(), &trace, row)? && all;
    }
    assert!(rt; all);
    Ok(())
}
