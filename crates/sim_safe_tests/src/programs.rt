//! Programs of four instructions, against values that were worked out by hand.
ghost use Rattle.std.specs.Prelude.{IfSome};
ghost use Rattle.sim_safe.specs.Record.{IsRunTrace};

use ecoff_load::{Image, Kind, Part, Parts, Text};
use event_trace::{CallKind, Trace, read};
use pisa_step::{Cause, Field, Machine};
use sim_safe::{Arch, CallNote, Peek, Stepped};
use ss_base::Bytes;
use std::alloc::Global;
use std::slice::from_ref;

/// Where the instructions stand, and where the bytes a1 b2 c3 d4 do.
pub(crate) const TEXT: u32 = 0x0040_0000;

const DATA: u32 = 0x1000_0000;

/// The two words of each of four instructions.
pub(crate) type Words = [u32; 8];

/// ADDIU $2,$0,1; ADDIU $2,$0,5; ADDIU $4,$0,7; LUI $1,0x40
pub(crate) const R2_1: u32 = 0x0002_0001;

pub(crate) const R2_5: u32 = 0x0002_0005;

pub(crate) const R4_7: u32 = 0x0004_0007;

const R1_TEXT: u32 = 0x0001_0040;

pub(crate) const ADDIU: u32 = 0x43;

pub(crate) const LUI: u32 = 0xa2;

pub(crate) const SYSCALL: u32 = 0xa0;

const SW: u32 = 0x34;

/// The bytes of a program's text.
fn text_bytes(words: Words, big: bool) -> [u8; 32] {
    let mut bytes = [0; 32];
    for (k, word) in words.iter().enumerate() {
        let four = if big {
            word.to_be_bytes()
        } else {
            word.to_le_bytes()
        };
        bytes[4 * k..4 * k + 4].copy_from_slice(&four);
    }
    bytes
}

/// A copy of bytes.
fn copied(alloc: Global, bytes: &[u8]) -> Option<Bytes> {
    match Vec::from_slice(alloc, bytes) {
        Ok(copy) => Some(Bytes::from_vec(copy)),
        Err(_) => None,
    }
}

/// The one part of a program.
fn parts(alloc: Global) -> Option<Parts> {
    let bytes = copied(alloc, &[0xa1, 0xb2, 0xc3, 0xd4])?;
    let part = Part {
        kind: Kind::Data,
        addr: DATA,
        size: 4,
        bytes,
    };
    let mut parts = Vec::new(alloc);
    match parts.push(part) {
        Ok(()) => Some(Parts::from_vec(parts)),
        Err(_) => None,
    }
}

/// A program of four instructions.
fn image(alloc: Global, big: bool, words: Words) -> Option<Image> {
    let parts = parts(alloc)?;
    let bytes = copied(alloc, &text_bytes(words, big))?;
    Some(Image {
        entry: TEXT,
        text: Text {
            start: TEXT,
            big,
            bytes,
        },
        parts,
    })
}

/// A machine at the start of a program whose one argument is `p`.
pub(crate) fn start(alloc: Global, big: bool, words: Words) -> Option<Arch> {
    let image = image(alloc, big, words)?;
    let Ok(name) = "p".to_owned(alloc) else {
        return None;
    };
    if !image.fits() {
        return None;
    }
    match Arch::start(alloc, image, from_ref(&name)) {
        Ok(arch) => Some(arch),
        Err(_) => None,
    }
}

/// Does a step. None where it wasn't seen before what it does, where it stops and something moved, or
/// where the record isn't that of an instruction that was done.
fn step(arch: &mut Arch, trace: &Trace) -> Option<Peek>
    requires { IsRunTrace trace.now }
{
    let (icnt, pc, used) = (arch.icnt(), arch.pc(), arch.used());
    if icnt >= 100 {
        return None;
    }
    let seen = arch.peek(trace);
    let (did, moved) = match arch.step(trace) {
        Ok(Stepped::Stop(cause)) => (
            Peek::Stop(cause),
            (arch.icnt(), arch.pc(), arch.used()) == (icnt, pc, used),
        ),
        Ok(Stepped::Did(record)) => (
            match record.call {
                Some(note) => Peek::Call(note),
                None => Peek::Plain(record.instr),
            },
            (record.number, record.pc, record.next, arch.icnt()) == (icnt, pc, arch.pc(), icnt + 1),
        ),
        Err(_) => return None,
    };
    if moved && seen == did {
        Some(did)
    } else {
        None
    }
}

/// After how many instructions a machine stops without a trace, and why.
fn stop(arch: &mut Arch, alloc: Global) -> Option<(u64, Cause)> {
    let trace = Trace::absent(alloc);
    for count in 0..5u64 {
        if let Peek::Stop(cause) = step(arch, &trace)? {
            return Some((count, cause));
        }
    }
    None
}

/// Whether each of these programs stops after so many instructions, for this cause.
fn stops(alloc: Global, rows: &[(Words, u64, Cause)]) -> bool {
    for (words, count, cause) in rows {
        let Some(mut arch) = start(alloc, false, *words) else {
            return false;
        };
        if stop(&mut arch, alloc) != Some((*count, *cause)) {
            return false;
        }
    }
    true
}

/// Each cause of a stop; where two hold, the first of them in order.
#[test]
fn programs_stop_for_the_first_cause(rt: HostRuntime) {
    let rows = [
        // behind an exit no instruction is fetched
        (
            [ADDIU, R2_1, ADDIU, R4_7, SYSCALL, 0, 0xff, 0],
            3,
            Cause::Exited { code: 7 },
        ),
        ([0; 8], 4, Cause::BadFetch),
        // ADDIU $1,$1,4; JR $1
        (
            [LUI, R1_TEXT, ADDIU, 0x0101_0004, 3, 0x0100_0000, 0, 0],
            3,
            Cause::BadFetch,
        ),
        // ADD with rs 32, also with an annotation
        (
            [0, 0, 0xffff_0040, 0x2001_0200, 0, 0, 0, 0],
            1,
            Cause::Illegal,
        ),
        (
            [0, 0, 0, 0, 0x70, 0, 0, 0],
            2,
            Cause::FloatingPoint { opcode: 0x70 },
        ),
        ([0xa1, 0, 0, 0, 0, 0, 0, 0], 0, Cause::Break),
        // LUI $1,0x7fff; ADD $2,$1,$1
        (
            [LUI, 0x0001_7fff, 0x40, 0x0101_0200, 0, 0, 0, 0],
            1,
            Cause::Overflow,
        ),
        // DIV $29,$0
        (
            [0, 0, 0x48, 0x1d00_0000, 0, 0, 0, 0],
            1,
            Cause::DivideByZero,
        ),
        // SW $0,2($1) and SW $0,28($1), where $1 is the first address of text
        (
            [LUI, R1_TEXT, SW, 0x0100_0002, 0, 0, 0, 0],
            1,
            Cause::Misaligned { addr: TEXT + 2 },
        ),
        (
            [LUI, R1_TEXT, SW, 0x0100_001c, 0, 0, 0, 0],
            1,
            Cause::TextWrite { addr: TEXT + 28 },
        ),
        (
            [0, 0, SYSCALL, 0, 0, 0, 0, 0],
            1,
            Cause::TraceEnd { used: 0 },
        ),
    ];
    assert!(rt; stops(rt.alloc(), &rows));
}

/// Whether memory holds these bytes.
fn holds(arch: &Arch, rows: &[(u32, u8)]) -> bool {
    rows.iter().all(|(addr, byte)| arch.byte(*addr) == *byte)
}

/// The instructions ADDIU $0,$0,1; LUI $1,0x1000; SW $29,4096($1); LW $3,4096($1).
const STORES: Words = [
    ADDIU,
    1,
    LUI,
    0x0001_1000,
    SW,
    0x011d_1000,
    0x28,
    0x0103_1000,
];

/// Whether a program of these instructions starts at its entry, with the stack pointer set and every
/// other register 0, with these bytes in memory, and with room where its pages are reserved outside of
/// text.
fn starts(alloc: Global, big: bool, bytes: &[(u32, u8)]) -> bool {
    let Some(arch) = start(alloc, big, STORES) else {
        return false;
    };
    (arch.pc(), arch.reg(29), arch.reg(30)) == (TEXT, 0x7fff_8000, 0)
        && holds(&arch, bytes)
        && arch.room(DATA, 4096)
        && !arch.room(DATA + 4095, 2)
        && arch.room(TEXT + 32, 4)
        && !arch.room(TEXT + 31, 1)
}

/// A program starts with its text, its parts and its arguments in memory, in both byte orders.
#[test]
fn programs_start_with_their_arguments(rt: HostRuntime) {
    let little = [
        (0x7fff_8000, 1),
        (0x7fff_8003, 0),
        (0x7fff_8004, 0x10),
        (0x7fff_8007, 0x7f),
        (0x7fff_8010, b'p'),
        (0x7fff_8011, 0),
        (TEXT, 0x43),
        (TEXT + 3, 0),
        (DATA, 0xa1),
        (DATA + 4, 0),
    ];
    let big = [
        (0x7fff_8000, 0),
        (0x7fff_8003, 1),
        (0x7fff_8004, 0x7f),
        (0x7fff_8007, 0x10),
        (0x7fff_8010, b'p'),
        (0x7fff_8011, 0),
        (TEXT, 0),
        (TEXT + 3, 0x43),
        (DATA, 0xa1),
        (DATA + 4, 0),
    ];
    assert!(rt; starts(rt.alloc(), false, &little) && starts(rt.alloc(), true, &big));
}

/// Does so many steps without a trace; whether none of them disagrees with what was seen before.
fn steps(arch: &mut Arch, alloc: Global, count: u32) -> bool {
    let trace = Trace::absent(alloc);
    for _ in 0..count {
        if step(arch, &trace).is_none() {
            return false;
        }
    }
    true
}

/// Whether the word that is stored in a byte order reads back, as these first and last bytes, while
/// register 0 stays 0.
fn stores(alloc: Global, big: bool, first: u8, last: u8) -> bool {
    let Some(mut arch) = start(alloc, big, STORES) else {
        return false;
    };
    steps(&mut arch, alloc, 4)
        && (arch.reg(0), arch.reg(3), arch.icnt()) == (0, 0x7fff_8000, 4)
        && holds(&arch, &[(DATA + 4096, first), (DATA + 4099, last)])
}

/// What is stored into a page that wasn't reserved is read again, in both byte orders.
#[test]
fn stores_reserve_their_pages(rt: HostRuntime) {
    assert!(rt; stores(rt.alloc(), false, 0, 0x7f) && stores(rt.alloc(), true, 0x7f, 0));
}

/// A trace with one record: a call after two instructions at 0x00400010, which read 5 in register 2
/// and 7 in register 4 and the four bytes at `DATA`, and wrote 22 to register 2 and two bytes.
const ONE_CALL: [u8; 86] = [
    80, 69, 88, 84, 48, 48, 48, 50, 1, 0, 0, 0, 0, 0, 0, 0, 2, 0, 0, 0, 0, 0, 0, 0, 0x10, 0, 0x40,
    0, 0, 2, 1, 1, 1, 0, 0, 0, 0, 0, 0, 0, 2, 0, 0, 0, 5, 0, 0, 0, 4, 0, 0, 0, 7, 0, 0, 0, 0, 0, 0,
    0x10, 4, 0, 0, 0, 0xa1, 0xb2, 0xc3, 0xd4, 2, 0, 0, 0, 22, 0, 0, 0, 2, 0, 0, 0x10, 2, 0, 0, 0,
    0x0e, 0x0f,
];

/// Two bytes of the trace and what they are changed to.
type Changes = [(usize, u8); 2];

/// The bytes of the trace with changes.
fn changed(changes: Changes) -> [u8; 86] {
    let mut bytes = ONE_CALL;
    for (at, value) in changes {
        if let Some(byte) = bytes.get_mut(at) {
            *byte = value;
        }
    }
    bytes
}

/// The trace that a file brings.
pub(crate) fn trace_of(alloc: Global, bytes: &[u8]) -> Option<Trace>
    ensures { IfSome result IsRunTrace }
{
    match read(alloc, bytes) {
        Ok(trace) => Some(trace),
        Err(_) => None,
    }
}

/// A stop at a field that differs.
fn differs(field: Field, kept: u64, found: u64) -> Peek {
    Peek::Stop(Cause::TraceMismatch { field, kept, found })
}

/// A call of a kind.
fn done(kind: CallKind) -> Peek {
    Peek::Call(CallNote {
        used: 0,
        kind,
        code: 0,
    })
}

/// The instructions of a program whose call was recorded.
const CALLS: Words = [ADDIU, R2_5, ADDIU, R4_7, SYSCALL, 0, SYSCALL, 0];

/// Whether the call of the program does this over a trace, leaves this in register 2, the third byte
/// at `DATA` and the count of used records, and then stops: for want of a record, or as before.
fn calls(arch: &mut Arch, trace: &Trace, want: Peek, after: (u32, u8, u32)) -> bool
    requires { IsRunTrace trace.now }
{
    let (Some(_), Some(_)) = (step(arch, trace), step(arch, trace)) else {
        return false;
    };
    let met = step(arch, trace);
    let left = (arch.reg(2), arch.byte(DATA + 2), arch.used());
    let end = if arch.used() == 1 {
        Peek::Stop(Cause::TraceEnd { used: 1 })
    } else {
        want
    };
    met == Some(want) && left == after && step(arch, trace) == Some(end)
}

/// Whether the call does so over the trace with these changes.
fn all_call(alloc: Global, rows: &[(Changes, Peek, (u32, u8, u32))]) -> bool {
    for (changes, want, after) in rows {
        let Some(trace) = trace_of(alloc, &changed(*changes)) else {
            return false;
        };
        let Some(mut arch) = start(alloc, false, CALLS) else {
            return false;
        };
        if !calls(&mut arch, &trace, *want, *after) {
            return false;
        }
    }
    true
}

/// A call stops at the first difference of count, pc, registers and bytes, then where it would write
/// text, and then nothing is written; else its writes are made, and the next call finds no record.
#[test]
fn calls_go_by_their_records(rt: HostRuntime) {
    let same = (0, 80);
    let stays = (5, 0xc3, 0);
    let rows = [
        ([same, same], done(CallKind::Plain), (22, 0x0e, 1)),
        ([(28, 1), same], done(CallKind::Emit), (22, 0x0e, 1)),
        ([(16, 3), (24, 0x18)], differs(Field::Count, 3, 2), stays),
        (
            [(24, 0x18), (44, 6)],
            differs(Field::Pc, 0x0040_0018, 0x0040_0010),
            stays,
        ),
        ([(44, 6), (52, 8)], differs(Field::Reg(2), 6, 5), stays),
        ([(52, 8), (65, 0xb3)], differs(Field::Reg(4), 8, 7), stays),
        (
            [(66, 0xc4), (67, 0xd5)],
            differs(Field::Byte(DATA + 2), 0xc4, 0xc3),
            stays,
        ),
        (
            [(78, 0x40), (79, 0)],
            Peek::Stop(Cause::TextWrite { addr: TEXT + 2 }),
            stays,
        ),
        (
            [(67, 0xd5), (79, 0x7f)],
            differs(Field::Byte(DATA + 3), 0xd5, 0xd4),
            stays,
        ),
    ];
    assert!(rt; all_call(rt.alloc(), &rows));
}
