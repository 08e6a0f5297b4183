//! A watch is shown records made by hand.
ghost use Rattle.sim_safe.specs.Record.{IsRunTrace};

use crate::*;
use arrayvec::ArrayVec;
use event_trace::{CallKind, Trace, read};
use journal::{Borrowed, Fault};
use pisa_isa::{Instr, Op};
use sim_safe::{CallNote, CommitRecord, Observer, Statistics};
use ss_base::{MemShelf, MemSink};
use std::alloc::Global;
use std::test::Fail;

/// A trace of one call, which puts out two blocks: "hi" and "!".
const CALL: [u8; 55] = [
    80, 69, 88, 84, 48, 48, 48, 49, 1, 0, 0, 0, 0, 0, 0, 0, 0, 0, 0, 0, 0, 0, 0x40, 0, 1, 0, 2, 0,
    0, 0, 0, 0, 0, 0, 0, 0, 0, 0, 0, 0x10, 2, 0, 0, 0, 104, 105, 8, 0, 0, 0x10, 1, 0, 0, 0, 33,
];

/// Which put fails, what is answered at the call, and what the first stream and the pending lines
/// are then.
#[derive(Clone, Copy, Debug)]
struct Row<'a> {
    failing: u64,
    answer: Result<(), Fault>,
    output: &'a [u8],
    lines: &'a [u8],
}

/// The record of an instruction at 0x00400000 that wrote nothing.
fn done(op: Op, call: Option<CallNote>) -> CommitRecord {
    CommitRecord {
        number: 0,
        pc: 0x0040_0000,
        instr: Instr {
            op,
            rs: 0,
            rt: 0,
            rd: 0,
            shamt: 0,
            imm: 0,
            target: 0,
        },
        next: 0x0040_0008,
        taken: false,
        regs: ArrayVec::new(),
        hi: None,
        lo: None,
        mem: None,
        access: None,
        call,
    }
}

/// Whether the counts are those of a load, and of the call where that was counted.
fn counts_are(counts: &Statistics, calls: u64) -> bool {
    counts.insn == 1 + u64::from(calls == 1)
        && counts.loads == 1
        && counts.stores == 0
        && counts.branches == 0
        && counts.calls == calls
}

/// Whether a watch that is shown a load and the call does as a row says.
fn agrees(alloc: Global, trace: &Trace, row: Row<'_>) -> Result<bool, Fail>
    requires { IsRunTrace trace.now }
{
    let note = CallNote {
        used: 0,
        kind: CallKind::Emit,
        code: 0,
    };
    let mut shelf = MemShelf::new(alloc);
    let mut prog = MemSink::new(alloc);
    let mut stat = MemSink::new(alloc);
    prog.fail_call(row.failing)?;
    let mut pending = Vec::new(alloc);
    let mut outside = Borrowed {
        shelf: &mut shelf,
        prog: &mut prog,
        stat: &mut stat,
    };
    let mut watch = TextWatch {
        outside: &mut outside,
        file: &Some("c"),
        pending: &mut pending,
        statistics: Statistics::none(),
        fault: None,
    };
    let load = watch.saw(&done(Op::Lw, None), trace);
    let call = watch.saw(&done(Op::Syscall, Some(note)), trace);
    let told = watch.fault;
    let counted = counts_are(&watch.statistics, u64::from(row.answer.is_ok()));
    let answered = load == Ok(()) && call == row.answer && told == row.answer.err();
    Ok(answered && counted && prog.bytes() == row.output && pending.as_slice() == row.lines)
}

#[test]
fn blocks_are_put_out_as_their_call_is_done(rt: HostRuntime) -> Result<(), Fail> {
    let trace = read(rt.alloc(), &CALL)?;
    let rows = [
        Row {
            failing: 2,
            answer: Ok(()),
            output: b"hi!",
            lines: b"0 00400000 LW\n0 00400000 SYSCALL call=0 emit=3\n",
        },
        Row {
            failing: 1,
            answer: Err(Fault::Prog),
            output: b"hi",
            lines: b"0 00400000 LW\n",
        },
        Row {
            failing: 0,
            answer: Err(Fault::Prog),
            output: b"",
            lines: b"0 00400000 LW\n",
        },
    ];
    let mut all = true;
    for row in rows {
        all = agrees(rt.alloc(), &trace, row)? && all;
    }
    assert!(rt; all);
    Ok(())
}
