ghost use Rattle.event_trace.specs.Grammar.{IsTrace};

use crate::*;
use std::alloc::Global;

/// An exit with code 7 after two instructions, which read two registers. Version 1.
const ONE: [u8; 52] = [
    80, 69, 88, 84, 48, 48, 48, 49, 1, 0, 0, 0, 2, 0, 0, 0, 0, 0, 0, 0, 0x10, 0, 0x40, 0, 2, 2, 0,
    0, 0, 0, 0, 0, 7, 0, 0, 0, 2, 0, 0, 0, 1, 0, 0, 0, 4, 0, 0, 0, 7, 0, 0, 0,
];

/// The same in version 2, of a big-endian run.
pub const TWO: [u8; 56] = [
    80, 69, 88, 84, 48, 48, 48, 50, 1, 0, 0, 0, 1, 0, 0, 0, 2, 0, 0, 0, 0, 0, 0, 0, 0x10, 0, 0x40,
    0, 2, 2, 0, 0, 0, 0, 0, 0, 7, 0, 0, 0, 2, 0, 0, 0, 1, 0, 0, 0, 4, 0, 0, 0, 7, 0, 0, 0,
];

/// A call that puts out the last two bytes of memory, and one that gives register 2 the value 9.
const CALLS: [u8; 78] = [
    80, 69, 88, 84, 48, 48, 48, 49, 2, 0, 0, 0, 5, 0, 0, 0, 0, 0, 0, 0, 0x10, 0, 0x40, 0, 1, 0, 1,
    0, 0, 0, 0, 0, 0, 0, 0, 0, 0xfe, 0xff, 0xff, 0xff, 2, 0, 0, 0, 104, 105, 6, 0, 0, 0, 0, 0, 0,
    0, 0x18, 0, 0x40, 0, 0, 0, 0, 1, 0, 0, 0, 0, 0, 0, 0, 0, 2, 0, 0, 0, 9, 0, 0, 0,
];

/// Whether the record is the exit that `ONE` and `TWO` hold.
fn is_exit(record: &Record) -> bool {
    let head = (record.icnt == 2) & (record.pc == 0x0040_0010) & (record.code == 7);
    let ins = record.ins.as_slice() == [(2, 1), (4, 7)].as_slice();
    head & ins & (record.kind == CallKind::Exit) & (record.outs.as_slice().len() == 0)
}

/// Whether the record is the output that `CALLS` holds.
fn is_output(record: &Record) -> bool {
    match record.in_blocks.as_slice() {
        [block] => {
            let bytes = block.bytes.as_slice() == b"hi".as_slice();
            bytes & (block.addr == 0xffff_fffe) & (record.kind == CallKind::Emit)
        }
        _ => false,
    }
}

/// Whether the records are the exit alone, or the output and one more.
fn are_known(records: &[Record]) -> bool {
    match records {
        [exit] => is_exit(exit),
        [output, last] => is_output(output) & (last.outs.as_slice() == [(2, 9)].as_slice()),
        _ => false,
    }
}

/// Whether a trace has this version and order and the known records, and belongs to objects of its
/// order alone.
fn is_trace(trace: &Trace, version: u8, big: bool) -> bool {
    let head = trace.file & (trace.version == version) & (trace.big == big);
    head & (trace.agrees(false) != big)
        & (trace.agrees(true) == big)
        & are_known(trace.records.as_slice())
}

/// Whether a trace is written as these bytes.
fn is_written(alloc: Global, trace: &Trace, bytes: &[u8]) -> bool
    requires { IsTrace trace.now }
{
    match write(alloc, trace) {
        Ok(written) => written.as_slice() == bytes,
        Err(_) => false,
    }
}

/// Whether these bytes are read as a trace of this version and order, and written as they stood.
fn comes_back(alloc: Global, bytes: &[u8], version: u8, big: bool) -> bool {
    match read(alloc, bytes) {
        Ok(trace) => is_trace(&trace, version, big) & is_written(alloc, &trace, bytes),
        Err(_) => false,
    }
}

#[test]
fn traces_are_read_and_written_as_they_stood(rt: HostRuntime) {
    let one = comes_back(rt.alloc(), &ONE, 1, false);
    let two = comes_back(rt.alloc(), &TWO, 2, true);
    let calls = comes_back(rt.alloc(), &CALLS, 1, false);
    let absent = Trace::absent(rt.alloc());
    let agrees = absent.agrees(false) & absent.agrees(true);
    assert!(rt; one & two & calls & agrees);
}

/// Whether these bytes are refused, at this place and for this reason.
fn is_refused(alloc: Global, bytes: &[u8], at: u64, why: TraceWhy) -> bool {
    match read(alloc, bytes) {
        Ok(_) => false,
        Err(fault) => fault == TraceFault::Bad { at, why },
    }
}

/// The place of a byte, what is put there, and the refusal.
type Check = (usize, u8, u64, TraceWhy);

const CHECKS_OF_ONE: [Check; 21] = [
    (0, 81, 0, TraceWhy::Magic),
    (7, 51, 0, TraceWhy::Magic),
    (8, 2, 52, TraceWhy::Short),
    (8, 0, 12, TraceWhy::Extra),
    (10, 16, 8, TraceWhy::Count),
    (19, 1, 12, TraceWhy::Order),
    (24, 3, 24, TraceWhy::Kind),
    (24, 0, 32, TraceWhy::Exit),
    (25, 9, 25, TraceWhy::Many),
    (25, 1, 44, TraceWhy::Extra),
    (26, 17, 26, TraceWhy::Many),
    (26, 1, 52, TraceWhy::Short),
    (27, 9, 27, TraceWhy::Many),
    (27, 1, 27, TraceWhy::Exit),
    (28, 17, 28, TraceWhy::Many),
    (28, 1, 27, TraceWhy::Exit),
    (29, 1, 29, TraceWhy::Pad),
    (31, 1, 29, TraceWhy::Pad),
    (36, 0, 36, TraceWhy::Register),
    (36, 32, 36, TraceWhy::Register),
    (44, 2, 44, TraceWhy::Register),
];

const CHECKS_OF_TWO: [Check; 3] = [
    (12, 2, 12, TraceWhy::ByteOrder),
    (15, 1, 12, TraceWhy::ByteOrder),
    (28, 3, 28, TraceWhy::Kind),
];

const CHECKS_OF_CALLS: [Check; 6] = [
    (36, 0xff, 36, TraceWhy::Block),
    (40, 0, 36, TraceWhy::Block),
    (42, 1, 36, TraceWhy::Block),
    (46, 5, 46, TraceWhy::Order),
    (46, 4, 46, TraceWhy::Order),
    (66, 1, 66, TraceWhy::Exit),
];

/// Whether these bytes are refused as the rows say, each with its one byte changed.
fn are_refused<const N: usize>(alloc: Global, bytes: [u8; N], checks: &[Check]) -> bool {
    let mut all = true;
    for check in checks {
        let (place, byte, at, why) = *check;
        let mut changed = bytes;
        if let Some(slot) = changed.get_mut(place) {
            *slot = byte;
        }
        all = all & is_refused(alloc, &changed, at, why);
    }
    all
}

#[test]
fn each_check_has_its_place_and_reason(rt: HostRuntime) {
    let one = are_refused(rt.alloc(), ONE, &CHECKS_OF_ONE);
    let two = are_refused(rt.alloc(), TWO, &CHECKS_OF_TWO);
    let calls = are_refused(rt.alloc(), CALLS, &CHECKS_OF_CALLS);
    assert!(rt; one & two & calls);
}

/// Whether each front of these bytes is short at its end.
fn fronts_are_short(alloc: Global, bytes: &[u8]) -> bool {
    let mut all = true;
    for length in 0..bytes.len() {
        all = all & is_refused(alloc, &bytes[..length], length as u64, TraceWhy::Short);
    }
    all
}

/// A number of records, low byte first, that the file does not bring, and the refusal where `ONE`
/// tells it and where nothing follows.
const COUNTS: [([u8; 4], u64, u64, TraceWhy); 3] = [
    ([0x40, 0x42, 0x0f, 0], 12, 52, TraceWhy::Short),
    ([0x41, 0x42, 0x0f, 0], 8, 8, TraceWhy::Count),
    ([0xff, 0xff, 0xff, 0xff], 8, 8, TraceWhy::Count),
];

/// Whether numbers of records that are not there are refused, and a byte behind the last record.
fn counts_are_judged(alloc: Global) -> bool {
    let mut all = true;
    for (count, at, whole_at, why) in COUNTS {
        let [a, b, c, d] = count;
        let mut whole = ONE;
        whole[8..12].copy_from_slice(&count);
        let start = [80, 69, 88, 84, 48, 48, 48, 49, a, b, c, d];
        all = all & is_refused(alloc, &whole, whole_at, why) & is_refused(alloc, &start, at, why);
    }
    let mut longer = [0; 53];
    longer[..52].copy_from_slice(&ONE);
    all & is_refused(alloc, &longer, 52, TraceWhy::Extra)
}

#[test]
fn what_is_cut_off_is_short_at_its_end(rt: HostRuntime) {
    let fronts = fronts_are_short(rt.alloc(), &ONE) & fronts_are_short(rt.alloc(), &TWO);
    assert!(rt; fronts & counts_are_judged(rt.alloc()));
}
