//! Lines, ends and counts against texts that were worked out by hand.
ghost use Rattle.sim_safe.specs.Record.{IsRunTrace};

use crate::programs::trace_of;
use arrayvec::ArrayVec;
use event_trace::{CallKind, Trace};
use pisa_isa::{Instr, Op};
use pisa_step::{Cause, Field, MemWrite};
use sim_safe::{CallNote, CommitRecord, RunEnd, Statistics, commit_line, emitted, push_end};
use std::alloc::Global;

/// A break call, the putting out of `hello` and a newline, and an exit with code 0. Version 1.
const HELLO: [u8; 170] = [
    80, 69, 88, 84, 48, 48, 48, 49, 3, 0, 0, 0, // the break
    2, 0, 0, 0, 0, 0, 0, 0, 0x50, 1, 0x40, 0, 0, 2, 0, 2, 0, 0, 0, 0, 0, 0, 0, 0, 2, 0, 0, 0, 17,
    0, 0, 0, 4, 0, 0, 0, 0, 0, 1, 0x10, 2, 0, 0, 0, 0, 0, 1, 0x10, 7, 0, 0, 0, 0, 0, 0, 0,
    // the output
    11, 0, 0, 0, 0, 0, 0, 0, 0x98, 1, 0x40, 0, 1, 2, 1, 2, 0, 0, 0, 0, 0, 0, 0, 0, 2, 0, 0, 0, 4,
    0, 0, 0, 4, 0, 0, 0, 1, 0, 0, 0, 0, 0, 0, 0x10, 6, 0, 0, 0, 104, 101, 108, 108, 111, 10, 2, 0,
    0, 0, 6, 0, 0, 0, 7, 0, 0, 0, 0, 0, 0, 0, // the exit
    14, 0, 0, 0, 0, 0, 0, 0, 0xb0, 1, 0x40, 0, 2, 1, 0, 0, 0, 0, 0, 0, 0, 0, 0, 0, 2, 0, 0, 0, 1,
    0, 0, 0,
];

/// A call that put `abc` at 0x10000000, one that was refused, and one that wrote two blocks and put
/// out two of three bytes each.
const READS: [u8; 184] = [
    80, 69, 88, 84, 48, 48, 48, 49, 3, 0, 0, 0, // three bytes read
    4, 0, 0, 0, 0, 0, 0, 0, 0x20, 0, 0x40, 0, 0, 1, 0, 2, 1, 0, 0, 0, 0, 0, 0, 0, 2, 0, 0, 0, 3, 0,
    0, 0, 2, 0, 0, 0, 3, 0, 0, 0, 7, 0, 0, 0, 0, 0, 0, 0, 0, 0, 0, 0x10, 3, 0, 0, 0, 97, 98, 99,
    // refused
    5, 0, 0, 0, 0, 0, 0, 0, 8, 0, 0x40, 0, 0, 1, 0, 2, 0, 0, 0, 0, 0, 0, 0, 0, 2, 0, 0, 0, 99, 0,
    0, 0, 2, 0, 0, 0, 22, 0, 0, 0, 7, 0, 0, 0, 1, 0, 0, 0, // two blocks each way
    6, 0, 0, 0, 0, 0, 0, 0, 0x28, 0, 0x40, 0, 1, 0, 2, 0, 2, 0, 0, 0, 0, 0, 0, 0, 0, 0, 0, 0x20, 3,
    0, 0, 0, 1, 2, 3, 0x10, 0, 0, 0x20, 3, 0, 0, 0, 4, 5, 6, 0, 0, 0, 0x30, 1, 0, 0, 0, 0xff, 4, 0,
    0, 0x20, 2, 0, 0, 0, 0x0a, 0xb0,
];

/// An instruction of which nothing but the operation is told.
fn instr(op: Op) -> Instr {
    Instr {
        op,
        rs: 0,
        rt: 0,
        rd: 0,
        shamt: 0,
        imm: 0,
        target: 0,
    }
}

/// What is told of an instruction that was done.
#[derive(Clone, Copy)]
struct Row<'a> {
    number: u64,
    pc: u32,
    op: Op,
    /// The registers that it wrote.
    regs: &'a [(u8, u32)],
    /// What HI and LO got.
    product: Option<(u32, u32)>,
    /// The address and the bytes of a store.
    store: Option<(u32, &'a [u8])>,
    /// The number of the used record, the kind and the exit code of a call.
    call: Option<CallNote>,
}

/// An instruction that wrote these registers.
fn plain<'a>(number: u64, pc: u32, op: Op, regs: &'a [(u8, u32)]) -> Row<'a> {
    Row {
        number,
        pc,
        op,
        regs,
        product: None,
        store: None,
        call: None,
    }
}

/// An instruction that wrote HI and LO.
fn product<'a>(number: u64, pc: u32, op: Op, hi: u32, lo: u32) -> Row<'a> {
    Row {
        product: Some((hi, lo)),
        ..plain(number, pc, op, &[])
    }
}

/// A store of these bytes.
fn stored<'a>(number: u64, pc: u32, op: Op, addr: u32, bytes: &'a [u8]) -> Row<'a> {
    Row {
        store: Some((addr, bytes)),
        ..plain(number, pc, op, &[])
    }
}

/// A call that wrote these registers.
fn called<'a>(
    number: u64,
    pc: u32,
    regs: &'a [(u8, u32)],
    used: u32,
    kind: CallKind,
    code: u32,
) -> Row<'a> {
    Row {
        call: Some(CallNote { used, kind, code }),
        ..plain(number, pc, Op::Syscall, regs)
    }
}

/// Up to eight items; those above are left out.
fn few<T: Copy + Default>(items: &[T]) -> ArrayVec<T, 8> {
    let mut all = ArrayVec::new();
    for item in items {
        let _ = all.try_push(*item);
    }
    all
}

/// The record of an instruction that was done.
fn did(row: &Row<'_>) -> CommitRecord {
    CommitRecord {
        number: row.number,
        pc: row.pc,
        instr: instr(row.op),
        next: 0,
        taken: false,
        regs: few(row.regs),
        hi: row.product.map(|both| both.0),
        lo: row.product.map(|both| both.1),
        mem: row.store.map(|(addr, bytes)| MemWrite {
            addr,
            bytes: few(bytes),
        }),
        access: None,
        call: row.call,
    }
}

/// Whether these instructions have these lines over a trace.
fn lines_are(alloc: Global, trace: &Trace, rows: &[Row<'_>], lines: &[u8]) -> bool
    requires { IsRunTrace trace.now }
{
    let mut text = Vec::new(alloc);
    for row in rows {
        if commit_line(&did(row), trace, &mut text).is_err() {
            return false;
        }
    }
    text.as_slice() == lines
}

/// Whether an instruction puts out these blocks over a trace.
fn emits(trace: &Trace, row: &Row<'_>, blocks: &[&[u8]]) -> bool {
    let record = did(row);
    let found = emitted(&record, trace);
    found.len() == blocks.len()
        && found
            .iter()
            .zip(blocks)
            .all(|(block, bytes)| block.bytes.as_slice() == *bytes)
}

#[test]
fn lines_tell_what_was_written(rt: HostRuntime) {
    let exit = called(2, 0x0040_0010, &[], 0, CallKind::Exit, 7);
    let rows = [
        plain(0, 0x0040_0000, Op::Addiu, &[(2, 1)]),
        plain(1, 0x0040_0008, Op::Addiu, &[(4, 7)]),
        exit,
        product(3, 0x0040_0018, Op::Multu, 0xffff_fffe, 1),
        plain(4, 0xffff_fff8, Op::Dlw, &[(30, 0xdead_beef), (31, 0)]),
        stored(
            1_000_000_000_000_000,
            0x20,
            Op::Dsw,
            0xffff_fff8,
            &[0, 1, 0x7f, 0x80, 0xfe, 0xff, 0x0a, 0xa0],
        ),
    ];
    let lines = b"0 00400000 ADDIU r2=00000001\n1 00400008 ADDIU r4=00000007\n\
        2 00400010 SYSCALL call=0 exit=7\n3 00400018 MULTU hi=fffffffe lo=00000001\n\
        4 fffffff8 DLW r30=deadbeef r31=00000000\n\
        1000000000000000 00000020 DSW [fffffff8]=00017f80feff0aa0\n";
    let none = Trace::absent(rt.alloc());
    let agree = lines_are(rt.alloc(), &none, &rows, lines) && emits(&none, &exit, &[]);
    assert!(rt; agree);
}

/// Whether these instructions have these lines over the trace that a file brings, and the last of
/// them puts out these blocks.
fn trace_lines_are(
    alloc: Global,
    file: &[u8],
    rows: &[Row<'_>],
    lines: &[u8],
    outputs: &[(Row<'_>, &[&[u8]])],
) -> bool {
    let Some(trace) = trace_of(alloc, file) else {
        return false;
    };
    lines_are(alloc, &trace, rows, lines)
        && outputs
            .iter()
            .all(|(row, blocks)| emits(&trace, row, blocks))
}

#[test]
fn lines_tell_what_calls_wrote_and_put_out(rt: HostRuntime) {
    let output = called(11, 0x0040_0198, &[(2, 6), (7, 0)], 1, CallKind::Emit, 0);
    let hello = [
        called(
            2,
            0x0040_0150,
            &[(2, 0x1001_0000), (7, 0)],
            0,
            CallKind::Plain,
            0,
        ),
        stored(5, 0x0040_0168, Op::Sw, 0x1000_9000, &[0, 0, 1, 0x10]),
        output,
        called(14, 0x0040_01b0, &[], 2, CallKind::Exit, 0),
    ];
    let hello_lines = b"2 00400150 SYSCALL r2=10010000 r7=00000000 call=0\n\
        5 00400168 SW [10009000]=00000110\n\
        11 00400198 SYSCALL r2=00000006 r7=00000000 call=1 emit=6\n\
        14 004001b0 SYSCALL call=2 exit=0\n";
    let read = called(4, 0x0040_0020, &[(2, 3), (7, 0)], 0, CallKind::Plain, 0);
    let both = called(6, 0x0040_0028, &[], 2, CallKind::Emit, 0);
    let reads = [
        read,
        called(5, 0x0040_0008, &[(2, 22), (7, 1)], 1, CallKind::Plain, 0),
        both,
    ];
    let reads_lines = b"4 00400020 SYSCALL r2=00000003 r7=00000000 [10000000]=616263 call=0\n\
        5 00400008 SYSCALL r2=00000016 r7=00000001 call=1\n\
        6 00400028 SYSCALL [30000000]=ff [20000004]=0ab0 call=2 emit=6\n";
    let agree = trace_lines_are(
        rt.alloc(),
        &HELLO,
        &hello,
        hello_lines,
        &[(output, &[b"hello\n"])],
    ) && trace_lines_are(
        rt.alloc(),
        &READS,
        &reads,
        reads_lines,
        &[(both, &[&[1, 2, 3], &[4, 5, 6]]), (read, &[])],
    );
    assert!(rt; agree);
}

/// A call that differs from its record.
fn differs(field: Field, kept: u64, found: u64) -> RunEnd {
    RunEnd::Stop(Cause::TraceMismatch { field, kept, found })
}

/// Whether each of these ends, at 0x00400004 after 12 instructions, is told in these words.
fn are_told(alloc: Global, rows: &[(RunEnd, &str)]) -> bool {
    let mut text = Vec::new(alloc);
    for (end, words) in rows {
        text.clear();
        if push_end(&mut text, *end, 0x0040_0004, 12).is_err()
            || text.as_slice() != words.as_bytes()
        {
            return false;
        }
    }
    true
}

#[test]
fn ends_are_told_in_words(rt: HostRuntime) {
    let table = [
        (RunEnd::Limit, "budget"),
        (RunEnd::Stop(Cause::Exited { code: 7 }), "exited 7"),
        (
            RunEnd::Stop(Cause::Exited { code: 0xffff_ffff }),
            "exited 4294967295",
        ),
        (
            RunEnd::Stop(Cause::BadFetch),
            "stopped 00400004 12 bad-fetch",
        ),
        (RunEnd::Stop(Cause::Illegal), "stopped 00400004 12 illegal"),
        (
            RunEnd::Stop(Cause::FloatingPoint { opcode: 0x70 }),
            "stopped 00400004 12 floating-point 00000070",
        ),
        (
            RunEnd::Stop(Cause::Misaligned { addr: 0x1000_0002 }),
            "stopped 00400004 12 misaligned 10000002",
        ),
        (
            RunEnd::Stop(Cause::Overflow),
            "stopped 00400004 12 overflow",
        ),
        (
            RunEnd::Stop(Cause::DivideByZero),
            "stopped 00400004 12 divide-by-zero",
        ),
        (
            RunEnd::Stop(Cause::TextWrite { addr: 0x0040_0000 }),
            "stopped 00400004 12 text-write 00400000",
        ),
        (RunEnd::Stop(Cause::Break), "stopped 00400004 12 break"),
        (
            RunEnd::Stop(Cause::TraceEnd { used: 10 }),
            "stopped 00400004 12 trace-end 10",
        ),
        (
            differs(Field::Count, 3, 2),
            "stopped 00400004 12 trace-mismatch count 3 2",
        ),
        (
            differs(Field::Pc, 4194304, 16),
            "stopped 00400004 12 trace-mismatch pc 4194304 16",
        ),
        (
            differs(Field::Reg(4), 8, 7),
            "stopped 00400004 12 trace-mismatch r4 8 7",
        ),
        (
            differs(Field::Byte(0xfffe), 0, 255),
            "stopped 00400004 12 trace-mismatch [0000fffe] 0 255",
        ),
    ];
    assert!(rt; are_told(rt.alloc(), &table));
}

/// What so many operations count, in turn.
fn counted(instrs: &[Instr]) -> Statistics {
    let mut all = Statistics::none();
    for instr in instrs {
        all.count(instr);
    }
    all
}

/// Whether counts, where so many instructions were skipped, have these lines.
fn counts_are(alloc: Global, counts: &Statistics, skipped: u64, lines: &[u8]) -> bool {
    let mut text = Vec::new(alloc);
    counts.push(skipped, &mut text).is_ok() && text.as_slice() == lines
}

#[test]
fn instructions_are_counted_by_what_they_do(rt: HostRuntime) {
    let some = counted(&[Op::Addiu, Op::Addiu, Op::Syscall].map(|op| instr(op)));
    let lines = b"sim_skipped 0\nsim_num_insn 3\nsim_num_loads 0\nsim_num_stores 0\n\
        sim_num_branches 0\nsim_num_calls 1\n";
    // a load, two stores, three kinds of jumps, a branch, a return, a call, and what is none of these
    let all = counted(&[
        instr(Op::Lwl),
        instr(Op::Dsz),
        instr(Op::SbRr),
        instr(Op::J),
        instr(Op::Jal),
        instr(Op::Jalr),
        instr(Op::Bgez),
        instr(Op::Syscall),
        instr(Op::Mult),
        instr(Op::Bc1t),
        instr(Op::LS),
        instr(Op::SD),
        Instr {
            rs: 31,
            ..instr(Op::Jr)
        },
    ]);
    let want = Statistics {
        insn: 13,
        loads: 1,
        stores: 2,
        branches: 5,
        calls: 1,
    };
    assert!(rt; counts_are(rt.alloc(), &some, 0, lines) && all == want);
}
