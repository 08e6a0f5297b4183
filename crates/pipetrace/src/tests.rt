//! Texts of logs, made by hand.
use crate::*;
use pisa_step::{Cause, Field};
use std::alloc::Global;

/// An event: its cycle, its row and its mark.
pub type Act = (u64, u64, Mark);

/// What happened to the three instructions that set register 2 to 1, register 4 to 7, and exit.
pub const FIRST: [Act; 19] = [
    (
        0,
        0,
        Mark::Fetched {
            pc: 0x0040_0000,
            next: 0x0040_0008,
            queued: 38,
        },
    ),
    (
        38,
        1,
        Mark::Fetched {
            pc: 0x0040_0008,
            next: 0x0040_0010,
            queued: 38,
        },
    ),
    (
        38,
        2,
        Mark::Fetched {
            pc: 0x0040_0010,
            next: 0x0040_0018,
            queued: 38,
        },
    ),
    (
        38,
        3,
        Mark::Fetched {
            pc: 0x0040_0018,
            next: 0x0040_0020,
            queued: 38,
        },
    ),
    (39, 0, Mark::Dispatched),
    (39, 1, Mark::Dispatched),
    (
        39,
        4,
        Mark::Fetched {
            pc: 0x0040_0020,
            next: 0x0040_0028,
            queued: 39,
        },
    ),
    (
        39,
        5,
        Mark::Fetched {
            pc: 0x0040_0028,
            next: 0x0040_0030,
            queued: 39,
        },
    ),
    (40, 0, Mark::Issued),
    (40, 1, Mark::Issued),
    (41, 0, Mark::Written),
    (41, 1, Mark::Written),
    (42, 0, Mark::Committed),
    (42, 1, Mark::Committed),
    (42, 2, Mark::Dispatched),
    (
        42,
        6,
        Mark::Fetched {
            pc: 0x0040_0030,
            next: 0x0040_0038,
            queued: 42,
        },
    ),
    (43, 2, Mark::Issued),
    (44, 2, Mark::Written),
    (45, 2, Mark::Committed),
];

pub const FIRST_TEXT: &[u8] = b"\
@ 0\n+ 0 00400000 00400008 38\n\
@ 38\n+ 1 00400008 00400010 38\n+ 2 00400010 00400018 38\n+ 3 00400018 00400020 38\n\
@ 39\nD 0\nD 1\n+ 4 00400020 00400028 39\n+ 5 00400028 00400030 39\n\
@ 40\nI 0\nI 1\n\
@ 41\nW 0\nW 1\n\
@ 42\nC 0\nC 1\nD 2\n+ 6 00400030 00400038 42\n\
@ 43\nI 2\n\
@ 44\nW 2\n\
@ 45\nC 2\n\
. 46 exited 7\n";

/// The marks that the first object has none of.
const OTHERS: [Act; 4] = [
    (4611686018427387902, 0, Mark::Returned),
    (4611686018427387902, 4611686018427387903, Mark::Squashed),
    (4611686018427387902, 1, Mark::Accessed),
    (
        4611686018427387902,
        3,
        Mark::Fetched {
            pc: 0,
            next: 0xffff_fff8,
            queued: 4611686018427387903,
        },
    ),
];

const OTHERS_TEXT: &[u8] = b"\
@ 4611686018427387902\nR 0\nX 4611686018427387903\nA 1\n\
+ 3 00000000 fffffff8 4611686018427387903\n\
. 4611686018427387903 budget\n";

/// The log of these acts.
fn log_of(
    alloc: Global,
    acts: &[Act],
    cycles: u64,
    end: EndWord,
) -> Result<Log, ss_base::OutOfMemory> {
    let mut events = Vec::new(alloc);
    for act in acts {
        let (cycle, row, mark) = *act;
        events.push(Event { cycle, row, mark })?;
    }
    Ok(Log {
        events: Events::from_vec(events),
        cycles,
        end,
    })
}

/// Whether a log is printed as this text.
fn is_printed(alloc: Global, log: &Log, text: &[u8]) -> bool {
    match print(alloc, log) {
        Ok(printed) => printed.as_slice() == text,
        Err(_) => false,
    }
}

/// Whether a log's events, each given alone behind the line of the cycle before it, have the text of
/// the log without the line of its end.
fn are_told(alloc: Global, log: &Log, text: &[u8]) -> bool {
    let mut told = Vec::new(alloc);
    let mut last = None;
    for e in log.events.as_slice() {
        if event_text(e, last, &mut told).is_err() {
            return false;
        }
        last = Some(e.cycle);
    }
    match text.strip_prefix(told.as_slice()) {
        Some(rest) => rest.starts_with(b". "),
        None => false,
    }
}

/// Whether a text is read as this log.
fn is_read(alloc: Global, log: &Log, text: &[u8]) -> bool {
    match read(alloc, text) {
        Ok(found) => {
            let same = found.events.as_slice() == log.events.as_slice();
            same & (found.cycles == log.cycles) & (found.end == log.end)
        }
        Err(_) => false,
    }
}

/// Whether these acts have this text, and it them.
fn has_text(alloc: Global, acts: &[Act], cycles: u64, end: EndWord, text: &[u8]) -> bool {
    match log_of(alloc, acts, cycles, end) {
        Ok(log) => {
            is_printed(alloc, &log, text) & are_told(alloc, &log, text) & is_read(alloc, &log, text)
        }
        Err(_) => false,
    }
}

#[test]
fn logs_have_their_texts(rt: HostRuntime) {
    let first = has_text(rt.alloc(), &FIRST, 46, EndWord::Exited(7), FIRST_TEXT);
    let last = 4611686018427387903;
    let others = has_text(rt.alloc(), &OTHERS, last, EndWord::Budget, OTHERS_TEXT);
    let none = has_text(rt.alloc(), &[], 0, EndWord::Budget, b". 0 budget\n");
    assert!(rt; first & others & none);
}

/// A cause, and its words behind `. 9 stopped 00400008 12 `.
type Stop<'a> = (Cause, &'a [u8]);

const STOPS: [Stop<'static>; 13] = [
    (Cause::BadFetch, b"bad-fetch"),
    (Cause::Illegal, b"illegal"),
    (
        Cause::FloatingPoint { opcode: 0x70 },
        b"floating-point 00000070",
    ),
    (
        Cause::Misaligned { addr: 0x1000_0002 },
        b"misaligned 10000002",
    ),
    (Cause::Overflow, b"overflow"),
    (Cause::DivideByZero, b"divide-by-zero"),
    (
        Cause::TextWrite { addr: 0x003f_fffe },
        b"text-write 003ffffe",
    ),
    (Cause::Break, b"break"),
    (
        Cause::TraceEnd { used: 4294967295 },
        b"trace-end 4294967295",
    ),
    (
        Cause::TraceMismatch {
            field: Field::Count,
            kept: 7,
            found: 10,
        },
        b"trace-mismatch count 7 10",
    ),
    (
        Cause::TraceMismatch {
            field: Field::Pc,
            kept: 7,
            found: 10,
        },
        b"trace-mismatch pc 7 10",
    ),
    (
        Cause::TraceMismatch {
            field: Field::Reg(255),
            kept: 7,
            found: 10,
        },
        b"trace-mismatch r255 7 10",
    ),
    (
        Cause::TraceMismatch {
            field: Field::Byte(0xabcd_ef09),
            kept: 7,
            found: 10,
        },
        b"trace-mismatch [abcdef09] 7 10",
    ),
];

/// Adds the text of a log without events that stopped for a cause.
fn push_stop(text: &mut Vec<u8>, words: &[u8]) -> Result<(), ss_base::OutOfMemory> {
    text.extend_from_slice(b". 9 stopped 00400008 12 ")?;
    text.extend_from_slice(words)?;
    text.push(b'\n')?;
    Ok(())
}

/// Whether a stop is told in these words.
fn stop_is_told(alloc: Global, stop: Stop<'_>) -> bool {
    let (cause, words) = stop;
    let end = EndWord::Stopped {
        pc: 0x0040_0008,
        icnt: 12,
        cause,
    };
    let mut text = Vec::new(alloc);
    push_stop(&mut text, words).is_ok() & has_text(alloc, &[], 9, end, text.as_slice())
}

/// Whether all stops are told in their words.
fn stops_are_told(alloc: Global) -> bool {
    let mut all = true;
    for stop in STOPS {
        all = all & stop_is_told(alloc, stop);
    }
    all
}

#[test]
fn stops_have_their_words(rt: HostRuntime) {
    assert!(rt; stops_are_told(rt.alloc()));
}

/// Bytes that are no text, and their first bad line.
type Refusal<'a> = (&'a [u8], u64);

const REFUSALS: [Refusal<'static>; 41] = [
    // a text that ends too early
    (b"", 1),
    (b". 0 budget", 1),
    (b"@ 0\nD 0\n", 3),
    (b"@ 0\nD 0\n. 1 budget", 3),
    // cycles
    (b"@ 0\n. 1 budget\n", 2),
    (b"@ 0\n@ 1\nD 0\n. 2 budget\n", 2),
    (b"D 0\n. 1 budget\n", 1),
    (b"@ 1\nD 0\n@ 1\nD 1\n. 2 budget\n", 3),
    (b"@ 1\nD 0\n@ 0\nD 1\n. 2 budget\n", 3),
    (b"@ 1\nD 0\n. 1 budget\n", 3),
    (b"@ 00\nD 0\n. 1 budget\n", 1),
    (b"@ +0\nD 0\n. 1 budget\n", 1),
    (b"@ 4611686018427387904\nD 0\n. 1 budget\n", 1),
    (b"@ 18446744073709551616\nD 0\n. 1 budget\n", 1),
    (b"@ \nD 0\n. 1 budget\n", 1),
    // events
    (b"@ 0\nD 1\nD 0\n. 1 budget\n", 3),
    (b"@ 0\nD 0\nD 0\n. 1 budget\n", 3),
    (b"@ 0\nD 0\nI 1\n. 1 budget\n", 3),
    (b"@ 0\nR 1\nW 1\n. 1 budget\n", 3),
    (b"@ 0\nX 1\nC 2\n. 1 budget\n", 3),
    (b"@ 0\nd 0\n. 1 budget\n", 2),
    (b"@ 0\nD  0\n. 1 budget\n", 2),
    (b"@ 0\nD 0 \n. 1 budget\n", 2),
    (b"@ 0\nD 0\r\n. 1 budget\n", 2),
    (b"@ 0\nD -1\n. 1 budget\n", 2),
    (b"@ 0\nD 4611686018427387904\n. 1 budget\n", 2),
    (b"@ 0\n+ 0 0040000 00400008 1\n. 1 budget\n", 2),
    (b"@ 0\n+ 0 00400000 0040000A 1\n. 1 budget\n", 2),
    (b"@ 0\n+ 0 00400000 00400008\n. 1 budget\n", 2),
    // the end
    (b". 0 budget\n\n", 2),
    (b". 0 budget\n. 0 budget\n", 2),
    (b". 0 budget\n@", 2),
    (b". 0 exited 4294967296\n", 1),
    (b". 0 stopped 00400000 0 exited 7\n", 1),
    (b". 0 stopped 00400000 0 floating-point 00010000\n", 1),
    (b". 0 stopped 00400000 0 trace-end 4294967296\n", 1),
    (b". 0 stopped 00400000 4611686018427387904 break\n", 1),
    (b". 0 stopped 00400000 0 trace-mismatch r256 0 1\n", 1),
    (b". 0 stopped 00400000 0 trace-mismatch [400000] 0 1\n", 1),
    (
        b". 0 stopped 00400000 0 trace-mismatch pc 0 4611686018427387904\n",
        1,
    ),
    (b". 0 stopped 00400000 0\n", 1),
];

/// Whether all these are refused, each at its line.
fn are_refused(alloc: Global, refusals: &[Refusal<'_>]) -> bool {
    let mut all = true;
    for refusal in refusals {
        let (text, line) = *refusal;
        let refused = match read(alloc, text) {
            Ok(_) => false,
            Err(fault) => fault == PipeFault::Bad { line },
        };
        all = all & refused;
    }
    all
}

#[test]
fn bad_lines_are_found(rt: HostRuntime) {
    assert!(rt; are_refused(rt.alloc(), &REFUSALS));
}
