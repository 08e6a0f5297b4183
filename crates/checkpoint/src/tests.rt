ghost use Rattle.std.specs.Prelude.{◌^◌, ◌≤◌};

use crate::*;
use ecoff_load::{Image, Parts, Text};
use event_trace::Trace;
use pisa_step::Machine;
use sim_safe::{Arch, Stepped};
use ss_base::Bytes;
use std::alloc::{AllocError, Global};
use std::slice::from_ref;

/// A point of version 1 before its pages, after one instruction of a program of three: register 2 is 1
/// and register 29 is 0x7fff8000, the text has 24 bytes at 0x00400000, and two pages follow.
const HEAD: [u8; 180] = [
    80, 67, 72, 75, 48, 48, 48, 49, 1, 0, 0, 0, 0, 0, 0, 0, 8, 0, 0x40, 0, 0, 0, 0, 0, 0, 0, 0, 0,
    1, 0, 0, 0, 0, 0, 0, 0, 0, 0, 0, 0, 0, 0, 0, 0, 0, 0, 0, 0, 0, 0, 0, 0, 0, 0, 0, 0, 0, 0, 0, 0,
    0, 0, 0, 0, 0, 0, 0, 0, 0, 0, 0, 0, 0, 0, 0, 0, 0, 0, 0, 0, 0, 0, 0, 0, 0, 0, 0, 0, 0, 0, 0, 0,
    0, 0, 0, 0, 0, 0, 0, 0, 0, 0, 0, 0, 0, 0, 0, 0, 0, 0, 0, 0, 0, 0, 0, 0, 0, 0, 0, 0, 0, 0, 0, 0,
    0, 0, 0, 0, 0, 0, 0, 0, 0, 0, 0, 0, 0, 0x80, 0xff, 0x7f, 0, 0, 0, 0, 0, 0, 0, 0, 0, 0, 0, 0, 0,
    0, 0, 0, 0, 0, 0, 0, 0, 0, 0, 0, 0, 0, 0, 0, 0, 0, 0x40, 0, 24, 0, 0, 0, 2, 0, 0, 0,
];

/// The page of the text: its number, and the program's three instructions.
const TEXT: [u8; 28] = [
    0, 4, 0, 0, 0x43, 0, 0, 0, 1, 0, 2, 0, 0x43, 0, 0, 0, 7, 0, 4, 0, 0xa0, 0, 0, 0, 0, 0, 0, 0,
];

/// The page of the start block: its number, one argument, its address, two zeros, and `p1`.
const STACK: [u8; 23] = [
    0xf8, 0xff, 7, 0, 1, 0, 0, 0, 0x10, 0x80, 0xff, 0x7f, 0, 0, 0, 0, 0, 0, 0, 0, 112, 49, 0,
];

/// How many bytes the file of version 1 has.
const SIZE: usize = 8380;

/// The file of version 1.
fn kept(alloc: Global) -> Result<Vec<u8>, AllocError> {
    let mut bytes = Vec::new(alloc);
    bytes.extend_from_slice(&HEAD)?;
    bytes.extend_from_slice(&TEXT)?;
    bytes.resize(180 + 4100, 0)?;
    bytes.extend_from_slice(&STACK)?;
    bytes.resize(SIZE, 0)?;
    Ok(bytes)
}

/// The same point in version 2, of a machine with this byte order.
fn second(alloc: Global, order: u8) -> Result<Vec<u8>, AllocError> {
    let first = kept(alloc)?;
    let mut bytes = Vec::new(alloc);
    bytes.extend_from_slice(b"PCHK0002")?;
    bytes.extend_from_slice(first.as_slice().get(8..180).unwrap_or(&[]))?;
    bytes.extend_from_slice(&[order, 0, 0, 0])?;
    bytes.extend_from_slice(first.as_slice().get(180..).unwrap_or(&[]))?;
    Ok(bytes)
}

/// Whether a point is written as these bytes.
fn is_written(alloc: Global, point: &Point, bytes: &[u8]) -> bool
    requires icnt { point.now.head.icnt ≤ 10 ^ 15 }
{
    if page_count(point) > 65_536 {
        return false;
    }
    match write(alloc, point) {
        Ok(written) => written.as_slice() == bytes,
        Err(_) => false,
    }
}

/// Whether these bytes are read, and written as they stood, as a point of so many pages.
fn comes_back(alloc: Global, bytes: &[u8], pages: u32) -> bool {
    match read(alloc, bytes) {
        Ok(point) => (page_count(&point) == pages) & is_written(alloc, &point, bytes),
        Err(_) => false,
    }
}

/// Whether these bytes are refused, at this place and for this reason.
fn is_refused(alloc: Global, bytes: &[u8], at: u64, why: PointWhy) -> bool {
    match read(alloc, bytes) {
        Ok(_) => false,
        Err(fault) => fault == PointFault::Bad { at, why },
    }
}

/// The place of four bytes, what is put there, and the refusal.
type Check = (usize, [u8; 4], u64, PointWhy);

const CHECKS: [Check; 17] = [
    (0, [81, 67, 72, 75], 0, PointWhy::Magic),
    (4, [48, 48, 48, 51], 0, PointWhy::Magic),
    (12, [0, 0, 0, 1], 8, PointWhy::Count),
    (20, [1, 0, 0, 0], 20, PointWhy::Register),
    (20, [0, 0, 0, 1], 20, PointWhy::Register),
    (160, [2, 0, 0, 0], 160, PointWhy::Ended),
    (160, [1, 1, 0, 0], 160, PointWhy::Ended),
    (164, [7, 0, 0, 0], 164, PointWhy::Ended),
    (176, [3, 0, 0, 0], 8380, PointWhy::Short),
    (176, [1, 0, 0, 0], 4280, PointWhy::Extra),
    (176, [0, 0, 0, 0], 180, PointWhy::Extra),
    (176, [0, 0, 1, 0], 8380, PointWhy::Short),
    (176, [1, 0, 1, 0], 176, PointWhy::Pages),
    (176, [0xff, 0xff, 0xff, 0xff], 176, PointWhy::Pages),
    (180, [0, 0, 16, 0], 180, PointWhy::Order),
    (4280, [0, 4, 0, 0], 4280, PointWhy::Order),
    (4280, [0xff, 3, 0, 0], 4280, PointWhy::Order),
];

const CHECKS_OF_SECOND: [Check; 3] = [
    (180, [2, 0, 0, 0], 180, PointWhy::ByteOrder),
    (180, [0, 0, 0, 1], 180, PointWhy::ByteOrder),
    (184, [0, 0, 16, 0], 184, PointWhy::Order),
];

/// Values of four bytes that are allowed.
const ALLOWED: [(usize, [u8; 4]); 6] = [
    (24, [0xff, 0xff, 0xff, 0xff]),
    (144, [0xff, 0xff, 0xff, 0xff]),
    (156, [0xff, 0xff, 0xff, 0xff]),
    (160, [1, 0, 0, 0]),
    (168, [1, 2, 3, 4]),
    (4280, [0xff, 0xff, 15, 0]),
];

/// These bytes with four of them changed.
fn changed(
    alloc: Global,
    bytes: &[u8],
    place: usize,
    part: [u8; 4],
) -> Result<Vec<u8>, AllocError> {
    let mut copy = Vec::from_slice(alloc, bytes)?;
    for k in 0..4 {
        if let Some(slot) = copy.get_mut(place.saturating_add(k)) {
            *slot = part[k];
        }
    }
    Ok(copy)
}

/// Whether these bytes are refused as a row says, with its four bytes changed.
fn row_is_refused(alloc: Global, bytes: &[u8], check: Check) -> bool {
    let (place, part, at, why) = check;
    match changed(alloc, bytes, place, part) {
        Ok(copy) => is_refused(alloc, copy.as_slice(), at, why),
        Err(_) => false,
    }
}

fn are_refused(alloc: Global, bytes: &[u8], checks: &[Check]) -> bool {
    let mut all = true;
    for check in checks {
        all = all & row_is_refused(alloc, bytes, *check);
    }
    all
}

/// Whether these bytes are read with four of them changed, and written as they stood.
fn row_is_allowed(alloc: Global, bytes: &[u8], place: usize, part: [u8; 4]) -> bool {
    match changed(alloc, bytes, place, part) {
        Ok(copy) => comes_back(alloc, copy.as_slice(), 2),
        Err(_) => false,
    }
}

fn are_allowed(alloc: Global, bytes: &[u8]) -> bool {
    let mut all = true;
    for (place, part) in ALLOWED {
        all = all & row_is_allowed(alloc, bytes, place, part);
    }
    all
}

/// Whether each front of these bytes is short at its end.
fn fronts_are_short(alloc: Global, bytes: &[u8]) -> bool {
    let mut all = true;
    for length in 0..bytes.len() {
        all = all & is_refused(alloc, &bytes[..length], length as u64, PointWhy::Short);
    }
    all
}

/// Whether both files are read and written as they stood, in each byte order, and rows are refused or allowed.
fn files_are_known(alloc: Global) -> bool {
    let (Ok(first), Ok(little), Ok(big)) = (kept(alloc), second(alloc, 0), second(alloc, 1)) else {
        return false;
    };
    let (first, little, big) = (first.as_slice(), little.as_slice(), big.as_slice());
    comes_back(alloc, first, 2)
        & comes_back(alloc, little, 2)
        & comes_back(alloc, big, 2)
        & are_refused(alloc, first, &CHECKS)
        & are_refused(alloc, little, &CHECKS_OF_SECOND)
        & are_allowed(alloc, first)
}

#[test]
fn points_are_read_and_written_as_they_stood_or_refused(rt: HostRuntime) {
    assert!(rt; files_are_known(rt.alloc()));
}

/// Eight bytes of the number of instructions, low byte first, and whether it is one.
const COUNTS: [([u8; 4], [u8; 4], bool); 4] = [
    ([0xff, 0x7f, 0xc6, 0xa4], [0x7e, 0x8d, 3, 0], true),
    ([0, 0x80, 0xc6, 0xa4], [0x7e, 0x8d, 3, 0], true),
    ([1, 0x80, 0xc6, 0xa4], [0x7e, 0x8d, 3, 0], false),
    ([0xff, 0xff, 0xff, 0xff], [0xff, 0xff, 0xff, 0xff], false),
];

/// Whether a number of instructions is read where it is one, and refused else.
fn count_is_judged(alloc: Global, low: [u8; 4], high: [u8; 4], is_count: bool) -> bool {
    let Ok(first) = kept(alloc) else {
        return false;
    };
    let Ok(half) = changed(alloc, first.as_slice(), 8, low) else {
        return false;
    };
    match changed(alloc, half.as_slice(), 12, high) {
        Ok(copy) if is_count => comes_back(alloc, copy.as_slice(), 2),
        Ok(copy) => is_refused(alloc, copy.as_slice(), 8, PointWhy::Count),
        Err(_) => false,
    }
}

/// Whether numbers of instructions are judged, a page of zeros is refused, and each front is short.
fn hostile_files_are_refused(alloc: Global) -> bool {
    let mut all = true;
    for (low, high, is_count) in COUNTS {
        all = all & count_is_judged(alloc, low, high, is_count);
    }
    let Ok(mut zero) = kept(alloc) else {
        return false;
    };
    let fronts = fronts_are_short(alloc, zero.as_slice());
    zero.truncate(4284);
    match zero.resize(SIZE, 0) {
        Ok(()) => all & fronts & is_refused(alloc, zero.as_slice(), 4284, PointWhy::ZeroPage),
        Err(_) => false,
    }
}

#[test]
fn hostile_points_are_refused(rt: HostRuntime) {
    assert!(rt; hostile_files_are_refused(rt.alloc()));
}

/// A program with these bytes of text.
fn image(alloc: Global, big: bool, start: u32, text: &[u8]) -> Option<Image> {
    match Vec::from_slice(alloc, text) {
        Ok(bytes) => Some(Image {
            entry: start,
            text: Text {
                start,
                big,
                bytes: Bytes::from_vec(bytes),
            },
            parts: Parts::from_vec(Vec::new(alloc)),
        }),
        Err(_) => None,
    }
}

/// The program of three instructions after so many of them.
fn machine(alloc: Global, steps: u32) -> Option<Arch> {
    let image = image(alloc, false, 0x0040_0000, &TEXT[4..])?;
    let Ok(name) = "p1".to_owned(alloc) else {
        return None;
    };
    if !image.fits() {
        return None;
    }
    let Ok(mut arch) = Arch::start(alloc, image, from_ref(&name)) else {
        return None;
    };
    let trace = Trace::absent(alloc);
    for _ in 0..steps {
        if arch.icnt() >= 100 {
            return None;
        }
        match arch.step(&trace) {
            Ok(Stepped::Did(_)) => {}
            _ => return None,
        }
    }
    Some(arch)
}

/// Whether the point that is taken of a machine is written as these bytes.
fn is_written_of(alloc: Global, arch: &Arch, bytes: &[u8]) -> bool {
    if arch.icnt() > 1000 {
        return false;
    }
    match take(alloc, arch) {
        Ok(point) => is_written(alloc, &point, bytes),
        Err(_) => false,
    }
}

/// Whether the point that is taken after so many steps is written as these bytes.
fn is_taken(alloc: Global, steps: u32, bytes: &[u8]) -> bool {
    match machine(alloc, steps) {
        Some(arch) => is_written_of(alloc, &arch, bytes),
        None => false,
    }
}

/// The file of the point after the exit with code 7.
fn exited(alloc: Global) -> Result<Vec<u8>, AllocError> {
    let mut bytes = second(alloc, 0)?;
    for (place, byte) in [(8, 3), (16, 0x18), (36, 7), (160, 1), (164, 7)] {
        if let Some(slot) = bytes.get_mut(place) {
            *slot = byte;
        }
    }
    Ok(bytes)
}

/// Whether a point is taken after the first instruction, and after the exit with code 7.
fn points_are_taken(alloc: Global) -> bool {
    let (Ok(first), Ok(last)) = (second(alloc, 0), exited(alloc)) else {
        return false;
    };
    let sizes = (first.len() == 8384) & (last.len() == 8384);
    sizes & is_taken(alloc, 1, first.as_slice()) & is_taken(alloc, 3, last.as_slice())
}

#[test]
fn points_of_a_run_are_taken(rt: HostRuntime) {
    assert!(rt; points_are_taken(rt.alloc()));
}

/// What comes of the point in a file with an object. None where one of them can't be had.
fn restored(alloc: Global, bytes: &[u8], image: Image) -> Option<Result<Arch, PointFault>> {
    if !image.fits() {
        return None;
    }
    match read(alloc, bytes) {
        Ok(point) => Some(restore(alloc, point, image)),
        Err(_) => None,
    }
}

/// The machine that goes on from the point in a file with the program's own object.
fn own(alloc: Global, bytes: &[u8]) -> Option<Arch> {
    let image = image(alloc, false, 0x0040_0000, &TEXT[4..])?;
    match restored(alloc, bytes, image) {
        Some(Ok(arch)) => Some(arch),
        _ => None,
    }
}

/// Whether a machine goes on from the kept point with the program's own object.
fn goes_on(alloc: Global, bytes: &[u8]) -> bool {
    match own(alloc, bytes) {
        Some(arch) => {
            let regs = (arch.reg(2) == 1) & (arch.reg(29) == 0x7fff_8000);
            let rest = (arch.pc() == 0x0040_0008) & (arch.icnt() == 1) & (arch.used() == 0);
            let mem = (arch.byte(0x0040_0004) == 1) & (arch.byte(0x7fff_8010) == 112);
            regs & rest & mem & arch.ended().is_none()
        }
        None => false,
    }
}

/// Whether the point in a file is refused with an object of this byte order, start and text.
fn object_is_refused(
    alloc: Global,
    bytes: &[u8],
    object: (bool, u32, &[u8]),
    at: u64,
    why: PointWhy,
) -> bool {
    let (big, start, text) = object;
    let Some(image) = image(alloc, big, start, text) else {
        return false;
    };
    match restored(alloc, bytes, image) {
        Some(Err(fault)) => fault == PointFault::Bad { at, why },
        _ => false,
    }
}

/// Whether points go on with their own object and are refused with others.
fn objects_are_judged(alloc: Global) -> bool {
    let (Ok(first), Ok(little)) = (kept(alloc), second(alloc, 0)) else {
        return false;
    };
    let (first, little) = (first.as_slice(), little.as_slice());
    let text = &TEXT[4..];
    let mut other = [0; 24];
    other.copy_from_slice(text);
    other[23] = 1;
    goes_on(alloc, first)
        & goes_on(alloc, little)
        & object_is_refused(
            alloc,
            first,
            (true, 0x0040_0000, text),
            0,
            PointWhy::OtherOrder,
        )
        & object_is_refused(
            alloc,
            little,
            (true, 0x0040_0008, text),
            180,
            PointWhy::OtherOrder,
        )
        & object_is_refused(
            alloc,
            first,
            (false, 0x0040_0008, text),
            168,
            PointWhy::Text,
        )
        & object_is_refused(
            alloc,
            first,
            (false, 0x0040_0000, &TEXT[12..]),
            172,
            PointWhy::Text,
        )
        & object_is_refused(
            alloc,
            first,
            (false, 0x0040_0000, &other),
            176,
            PointWhy::OtherText,
        )
}

#[test]
fn points_are_judged_with_objects(rt: HostRuntime) {
    assert!(rt; objects_are_judged(rt.alloc()));
}

/// From which file a machine goes on, for how many further instructions, how many it does, and whether
/// it then stands at the exit.
const RUNS: [(u8, u64, u64, bool); 5] = [
    (1, 0, 0, false),
    (1, 1, 1, false),
    (1, 2, 2, true),
    (1, 9, 2, true),
    (3, 9, 0, true),
];

/// Whether so many of so many steps are done from the point in a file, and the point that is taken then
/// is written as the one of the exit, or not.
fn is_rest(alloc: Global, bytes: &[u8], last: &[u8], run: (u8, u64, u64, bool)) -> bool {
    let (_, steps, wanted, at_exit) = run;
    let Some(mut arch) = own(alloc, bytes) else {
        return false;
    };
    if arch.icnt() > 100 || steps > 100 {
        return false;
    }
    let Ok(done) = arch.skip(&Trace::absent(alloc), steps) else {
        return false;
    };
    (done == wanted) & (is_written_of(alloc, &arch, last) == at_exit)
}

/// Whether runs that go on from the point after one instruction, and from the one of the exit, are the
/// rest of the run.
fn runs_go_on_from_points(alloc: Global) -> bool {
    let (Ok(first), Ok(last)) = (second(alloc, 0), exited(alloc)) else {
        return false;
    };
    let (first, last) = (first.as_slice(), last.as_slice());
    let mut all = true;
    for run in RUNS {
        all = all & is_rest(alloc, if run.0 == 1 { first } else { last }, last, run);
    }
    all
}

#[test]
fn runs_from_points_are_the_rest(rt: HostRuntime) {
    assert!(rt; runs_go_on_from_points(rt.alloc()));
}
