ghost use Rattle.std.specs.Prelude.{◌^◌, ◌≤◌, IsTrue};
ghost use Rattle.event_trace.specs.Recorder.{next_count};

use crate::*;
use paged_mem::PagedMem;
use ss_base::OutOfMemory;
use std::alloc::{AllocError, Global};

// Registers 2, 4, 5 and 6 of a call.
fn registers(call: [u32; 4]) -> [u32; 32] {
    let [number, first, second, third] = call;
    let mut regs = [0; 32];
    regs[2] = number;
    regs[4] = first;
    regs[5] = second;
    regs[6] = third;
    regs
}

// An address, and bytes of a block there; no block where there are none.
type Place = (u32, &'static [u8]);

type Row = ([u32; 4], CallKind, usize, u32, u32, Place, Place);

const NONE: Place = (0, b"");

const END: Place = (0xffff_fffd, b"bc\0");

const PLAIN: CallKind = CallKind::Plain;

const EMIT: CallKind = CallKind::Emit;

// Registers 2, 4, 5 and 6; the kind, how many of them are read, registers 2 and 7 after the call,
// what it reads of memory and what it writes there.
const CALLS: [Row; 43] = [
    (
        [3, 0, 0x1000_0000, 2],
        PLAIN,
        4,
        2,
        0,
        NONE,
        (0x1000_0000, b"ab"),
    ),
    (
        [3, 0, 0x1000_0000, 4],
        PLAIN,
        4,
        1,
        0,
        NONE,
        (0x1000_0000, b"c"),
    ),
    ([3, 0, 0x1000_0000, 4], PLAIN, 4, 0, 0, NONE, NONE),
    ([3, 1, 0x1000_0000, 4], PLAIN, 4, 9, 1, NONE, NONE),
    ([3, 3, 0x1000_0000, 4], PLAIN, 4, 9, 1, NONE, NONE),
    (
        [4, 1, 0x1000_0000, 6],
        EMIT,
        4,
        6,
        0,
        (0x1000_0000, b"hello\n"),
        NONE,
    ),
    (
        [4, 2, 0x1000_0001, 2],
        EMIT,
        4,
        2,
        0,
        (0x1000_0001, b"el"),
        NONE,
    ),
    ([4, 1, 0x1000_0000, 0], EMIT, 4, 0, 0, NONE, NONE),
    ([4, 0, 0x1000_0000, 6], PLAIN, 4, 9, 1, NONE, NONE),
    ([4, 3, 0x1000_0000, 6], PLAIN, 4, 9, 1, NONE, NONE),
    ([4, 1, 0xffff_fffd, 3], EMIT, 4, 3, 0, END, NONE),
    ([4, 1, 0xffff_fffd, 4], PLAIN, 4, 14, 1, NONE, NONE),
    ([5, 0x1010, 1, 0], PLAIN, 3, 13, 1, NONE, NONE),
    ([5, 0x1010, 2, 0], PLAIN, 3, 13, 1, NONE, NONE),
    ([5, 0x2000, 0, 0], PLAIN, 3, 14, 1, NONE, NONE),
    ([5, 0x1020, 0, 0], PLAIN, 3, 2, 1, (0x1020, b"b\0"), NONE),
    ([5, 0x1010, 0, 0], PLAIN, 3, 3, 0, (0x1010, b"bc\0"), NONE),
    ([5, 0x1000, 4, 0], PLAIN, 3, 4, 0, (0x1000, b"a\0"), NONE),
    ([5, 0xffff_fffd, 0xffff_fffc, 0], PLAIN, 3, 5, 0, END, NONE),
    ([3, 3, 0xffff_fffd, 4], PLAIN, 4, 14, 1, NONE, NONE),
    (
        [3, 3, 0xffff_fffc, 4],
        PLAIN,
        4,
        4,
        0,
        NONE,
        (0xffff_fffc, b"some"),
    ),
    (
        [3, 4, 0x1000_0000, 9],
        PLAIN,
        4,
        5,
        0,
        NONE,
        (0x1000_0000, b"first"),
    ),
    (
        [3, 5, 0x1000_0000, 2],
        PLAIN,
        4,
        2,
        0,
        NONE,
        (0x1000_0000, b"so"),
    ),
    ([3, 3, 0, 0xffff_ffff], PLAIN, 4, 6, 0, NONE, (0, b" bytes")),
    ([3, 3, 0, 1], PLAIN, 4, 0, 0, NONE, NONE),
    ([6, 3, 0, 0], PLAIN, 2, 0, 0, NONE, NONE),
    ([6, 3, 0, 0], PLAIN, 2, 9, 1, NONE, NONE),
    ([6, 0, 0, 0], PLAIN, 2, 9, 1, NONE, NONE),
    ([6, 6, 0, 0], PLAIN, 2, 9, 1, NONE, NONE),
    ([3, 3, 0, 1], PLAIN, 4, 9, 1, NONE, NONE),
    ([5, 0x1010, 0, 0], PLAIN, 3, 6, 0, (0x1010, b"bc\0"), NONE),
    ([3, 6, 0, 1], PLAIN, 4, 1, 0, NONE, (0, b"s")),
    ([3, 5, 0, 1], PLAIN, 4, 1, 0, NONE, (0, b"m")),
    ([17, 0x1000_903f, 0, 0], PLAIN, 2, 12, 1, NONE, NONE),
    (
        [17, 0x1000_9040, 0, 0],
        PLAIN,
        2,
        0x1000_9040,
        0,
        NONE,
        NONE,
    ),
    (
        [17, 0x7f00_0000, 0, 0],
        PLAIN,
        2,
        0x7f00_0000,
        0,
        NONE,
        NONE,
    ),
    ([17, 0x7f00_0001, 0, 0], PLAIN, 2, 12, 1, NONE, NONE),
    (
        [17, 0x1001_0000, 0, 0],
        PLAIN,
        2,
        0x1001_0000,
        0,
        NONE,
        NONE,
    ),
    ([17, 0, 0, 0], PLAIN, 2, 12, 1, NONE, NONE),
    ([99, 0, 0, 0], PLAIN, 1, 22, 1, NONE, NONE),
    ([0, 0, 0, 0], PLAIN, 1, 22, 1, NONE, NONE),
    ([2, 0, 0, 0], PLAIN, 1, 22, 1, NONE, NONE),
    ([7, 0, 0, 0], PLAIN, 1, 22, 1, NONE, NONE),
];

// Whether there is just this block, or none where it would have no bytes.
fn is_block(blocks: &[Block], place: Place) -> bool {
    let (addr, bytes) = place;
    match blocks {
        [] => bytes.len() == 0,
        [block] => {
            let same = block.bytes.as_slice() == bytes;
            same & (bytes.len() > 0) & (block.addr == addr)
        }
        _ => false,
    }
}

// Reserves the bytes' place and writes them; a block of more than 65,536 bytes, or one that would end
// above memory's end, is none.
fn put(memory: &mut PagedMem, addr: u32, bytes: &[u8]) -> Result<(), OutOfMemory> {
    if bytes.len() > 0x1_0000 || u64::from(addr) + bytes.len() as u64 > 0x1_0000_0000 {
        return Ok(());
    }
    memory.reserve(addr, bytes.len() as u32)?;
    memory.write(addr, bytes);
    Ok(())
}

// Paths, among them one without an end, one of 255 bytes, and one at the end of memory.
fn put_paths(memory: &mut PagedMem) -> Result<(), OutOfMemory> {
    put(memory, 0x1000, b"a\0")?;
    put(memory, 0x1010, b"bc\0")?;
    put(memory, 0x1020, b"b\0")?;
    put(memory, 0x2000, &[120; 511])?;
    put(memory, 0x1000_0000, b"hello\n")?;
    put(memory, 0xffff_fffd, b"bc\0")
}

// Adds a file to those that may be opened.
fn add_file(
    alloc: Global,
    files: &mut Vec<(String, Vec<u8>)>,
    name: &str,
    bytes: &[u8],
) -> Result<(), AllocError> {
    let name = String::from_str(alloc, name)?;
    let bytes = Vec::from_slice(alloc, bytes)?;
    files.push((name, bytes))?;
    Ok(())
}

// Three files, two of them with one name.
fn add_files(alloc: Global, files: &mut Vec<(String, Vec<u8>)>) -> Result<(), AllocError> {
    add_file(alloc, files, "a", b"first")?;
    add_file(alloc, files, "bc", b"some bytes")?;
    add_file(alloc, files, "a", b"second")
}

// An input and three files.
fn world(alloc: Global) -> Result<World, AllocError> {
    let mut files = Vec::new(alloc);
    add_files(alloc, &mut files)?;
    let input = Vec::from_slice(alloc, b"abc")?;
    Ok(World::new(alloc, input, files, 0x1000_9040))
}

// Whether a record is that of a row's call.
fn is_row(record: &Record, row: &Row) -> bool {
    let (call, kind, reads, value, flag, from, to) = *row;
    let [number, first, second, third] = call;
    let ins = [(2, number), (4, first), (5, second), (6, third)];
    let read = record.ins.as_slice() == &ins[..reads.min(4)];
    let written = record.outs.as_slice() == [(2, value), (7, flag)].as_slice();
    let got = is_block(record.in_blocks.as_slice(), from);
    let put = is_block(record.out_blocks.as_slice(), to);
    read & written & got & put & (record.kind == kind) & (record.code == 0)
}

// Whether a world answers the calls, in turn, as the rows say.
fn answers(alloc: Global, world: &mut World, memory: &PagedMem, rows: &[Row]) -> bool {
    let mut all = true;
    for row in rows {
        all = all
            & match world.serve(alloc, 5, 0x0040_0028, &registers(row.0), memory) {
                Ok(record) => {
                    is_row(&record, row) & (record.icnt == 5) & (record.pc == 0x0040_0028)
                }
                Err(_) => false,
            };
    }
    all
}

#[test]
fn each_call_and_each_error_is_answered_as_the_table_says(rt: HostRuntime) {
    let mut memory = PagedMem::new(rt.alloc());
    let put = put_paths(&mut memory).is_ok();
    let answered = match world(rt.alloc()) {
        Ok(mut world) => answers(rt.alloc(), &mut world, &memory, &CALLS),
        Err(_) => false,
    };
    assert!(rt; put & answered);
}

// Whether a recorder that serves an exit then has the trace of it, byte for byte.
fn records_exit(alloc: Global, recorder: &mut Recorder, memory: &PagedMem) -> bool
    requires { next_count 0 recorder.old.trace.records ≤ 2 }
{
    let added = recorder.serve(alloc, 2, 0x0040_0010, &registers([1, 7, 0, 0]), memory);
    let written = match write(alloc, recorder.trace()) {
        Ok(bytes) => bytes.as_slice() == tests::TWO.as_slice(),
        Err(_) => false,
    };
    written & (added == Ok(true))
}

#[test]
fn an_exit_is_recorded_byte_for_byte(rt: HostRuntime) {
    let memory = PagedMem::new(rt.alloc());
    let recorded = match world(rt.alloc()) {
        Ok(world) => {
            let mut recorder = Recorder::new(rt.alloc(), world, true);
            records_exit(rt.alloc(), &mut recorder, &memory)
        }
        Err(_) => false,
    };
    assert!(rt; recorded);
}

// Instructions done, pc, and registers 2, 4, 5 and 6; the kind, registers 2 and 7 after the call, what
// it reads of memory and what it writes there. A read of four bytes where there are three, a call of
// no known number, and two calls of a program that asks for a break and greets.
const WORKED: [(u64, u32, [u32; 4], CallKind, u32, u32, Place, Place); 4] = [
    (
        4,
        0x0040_0020,
        [3, 0, 0x1000_0000, 4],
        PLAIN,
        3,
        0,
        NONE,
        (0x1000_0000, b"abc"),
    ),
    (1, 0x0040_0008, [99, 0, 0, 0], PLAIN, 0x16, 1, NONE, NONE),
    (
        2,
        0x0040_0150,
        [17, 0x1001_0000, 0, 0],
        PLAIN,
        0x1001_0000,
        0,
        NONE,
        NONE,
    ),
    (
        11,
        0x0040_0198,
        [4, 1, 0x1000_0000, 6],
        EMIT,
        6,
        0,
        (0x1000_0000, b"hello\n"),
        NONE,
    ),
];

// Whether a world answers the worked calls, in turn.
fn answers_worked(alloc: Global, world: &mut World, memory: &PagedMem) -> bool {
    let mut all = true;
    for (icnt, pc, call, kind, value, flag, from, to) in WORKED {
        let answered = match world.serve(alloc, icnt, pc, &registers(call), memory) {
            Ok(record) => {
                let got = is_block(record.in_blocks.as_slice(), from);
                let put = is_block(record.out_blocks.as_slice(), to);
                let outs = record.outs.as_slice() == [(2, value), (7, flag)].as_slice();
                got & put & outs & (record.icnt == icnt) & (record.pc == pc) & (record.kind == kind)
            }
            Err(_) => false,
        };
        all = all & answered;
    }
    all
}

#[test]
fn worked_calls_are_recorded_as_they_stand(rt: HostRuntime) {
    let mut memory = PagedMem::new(rt.alloc());
    let put = put_paths(&mut memory).is_ok();
    let answered = match world(rt.alloc()) {
        Ok(mut world) => answers_worked(rt.alloc(), &mut world, &memory),
        Err(_) => false,
    };
    assert!(rt; put & answered);
}

// Registers 2 and 7 after a call, and how many bytes it reads and writes.
fn effect(record: &Record) -> (u32, u32, usize, usize) {
    let mut values = (0, 0, 0, 0);
    for (number, value) in record.outs.as_slice() {
        if *number == 2 {
            values.0 = *value;
        } else {
            values.1 = *value;
        }
    }
    for block in record.in_blocks.as_slice() {
        values.2 = block.bytes.as_slice().len();
    }
    for block in record.out_blocks.as_slice() {
        values.3 = block.bytes.as_slice().len();
    }
    values
}

// Registers 2, 4, 5 and 6 of a call, and its effect.
const LIMITS: [([u32; 4], (u32, u32, usize, usize)); 9] = [
    ([3, 0, 0x2000_0000, 70_000], (65_536, 0, 0, 65_536)),
    ([3, 0, 0x2000_0000, 70_000], (4_464, 0, 0, 4_464)),
    ([3, 0, 0x2000_0000, 70_000], (0, 0, 0, 0)),
    ([4, 2, 0x2000_0000, 70_000], (65_536, 0, 65_536, 0)),
    ([4, 2, 0xffff_0000, 0xffff_ffff], (65_536, 0, 65_536, 0)),
    ([4, 2, 0xffff_0001, 0xffff_ffff], (14, 1, 0, 0)),
    // 255 bytes and a zero, and an empty path
    ([5, 0x2000, 0, 0], (2, 1, 256, 0)),
    ([5, 0x20ff, 0, 0], (2, 1, 1, 0)),
    // memory ends before a zero
    ([5, 0xffff_ffff, 0, 0], (14, 1, 0, 0)),
];

// Whether a call has this effect.
fn has_effect(
    alloc: Global,
    world: &mut World,
    memory: &PagedMem,
    call: [u32; 4],
    want: (u32, u32, usize, usize),
) -> bool {
    match world.serve(alloc, 0, 0, &registers(call), memory) {
        Ok(record) => effect(&record) == want,
        Err(_) => false,
    }
}

// Whether lengths and paths are cut where the table says, and whether 16 opens get a descriptor.
fn limits_hold(alloc: Global, world: &mut World, memory: &PagedMem) -> bool {
    let mut all = true;
    for (call, want) in LIMITS {
        all = all & has_effect(alloc, world, memory, call, want);
    }
    for descriptor in 3..19 {
        let opened = has_effect(
            alloc,
            world,
            memory,
            [5, 0x1000, 0, 0],
            (descriptor, 0, 2, 0),
        );
        let closed = has_effect(alloc, world, memory, [6, descriptor, 0, 0], (0, 0, 0, 0));
        all = all & opened & closed;
    }
    all & has_effect(alloc, world, memory, [5, 0x1000, 0, 0], (24, 1, 2, 0))
}

// A file and a long input.
fn long_world(alloc: Global) -> Result<World, AllocError> {
    let mut files = Vec::new(alloc);
    add_file(alloc, &mut files, "a", b"x")?;
    let input = vec![in alloc; 7; 70_000]?;
    Ok(World::new(alloc, input, files, 0x1000_0000))
}

#[test]
fn lengths_paths_and_opens_have_their_limits(rt: HostRuntime) {
    let mut memory = PagedMem::new(rt.alloc());
    let paths = put_paths(&mut memory).is_ok();
    // the last byte of a longest path, and one that no zero follows
    let zero = put(&mut memory, 0x20ff, &[0]).is_ok();
    let last = put(&mut memory, 0xffff_ffff, &[120]).is_ok();
    let held = match long_world(rt.alloc()) {
        Ok(mut world) => limits_hold(rt.alloc(), &mut world, &memory),
        Err(_) => false,
    };
    assert!(rt; paths & zero & last & held);
}

// Serves one call again and again, and answers whether each record was added.
fn all_added(
    alloc: Global,
    recorder: &mut Recorder,
    memory: &PagedMem,
    count: u64,
    call: [u32; 4],
) -> bool
    requires count { count ≤ 10 ^ 15 }
    requires rising { next_count 0 recorder.old.trace.records ≤ 0 }
    ensures { IsTrue result → next_count 0 recorder.new.trace.records ≤ count }
{
    let regs = registers(call);
    for icnt in 0..count {
        let Ok(true) = recorder.serve(alloc, icnt, 0x0040_0000, &regs, memory) else {
            return false;
        };
    }
    true
}

// A head of 24 bytes, registers of 8 bytes each, and a block's head and bytes: 65,616 bytes for an
// output of 65,536 bytes. 1,022 of these leave 49,296 bytes behind the first 16, an output of 49,216.
fn fills_all_bytes(alloc: Global, recorder: &mut Recorder, memory: &PagedMem) -> bool
    requires { next_count 0 recorder.old.trace.records ≤ 0 }
{
    if !all_added(alloc, recorder, memory, 1_022, [4, 1, 0x2000_0000, 65_536]) {
        return false;
    }
    let more = registers([4, 1, 0x2000_0000, 49_217]);
    let Ok(false) = recorder.serve(alloc, 1_022, 0x0040_0000, &more, memory) else {
        return false;
    };
    let rest = registers([4, 1, 0x2000_0000, 49_216]);
    let Ok(true) = recorder.serve(alloc, 1_023, 0x0040_0000, &rest, memory) else {
        return false;
    };
    let next = registers([99, 0, 0, 0]);
    recorder.serve(alloc, 1_024, 0x0040_0000, &next, memory) == Ok(false)
}

// 1,000,000 calls of 48 bytes each.
fn fills_all_records(alloc: Global, recorder: &mut Recorder, memory: &PagedMem) -> bool
    requires { next_count 0 recorder.old.trace.records ≤ 0 }
{
    if !all_added(alloc, recorder, memory, 1_000_000, [99, 0, 0, 0]) {
        return false;
    }
    let next = registers([99, 0, 0, 0]);
    recorder.serve(alloc, 1_000_000, 0x0040_0000, &next, memory) == Ok(false)
}

// Whether so many bytes are a trace of so many records.
fn holds_records(alloc: Global, bytes: &[u8], count: usize) -> bool {
    match read(alloc, bytes) {
        Ok(trace) => trace.records.as_slice().len() == count,
        Err(_) => false,
    }
}

// Whether a recorder's trace is written as so many bytes, which are read as so many records.
fn comes_back(alloc: Global, recorder: &Recorder, length: usize, count: usize) -> bool {
    match write(alloc, recorder.trace()) {
        Ok(bytes) => (bytes.len() == length) & holds_records(alloc, bytes.as_slice(), count),
        Err(_) => false,
    }
}

#[test]
fn the_longest_trace_is_recorded_written_and_read(rt: HostRuntime) {
    let memory = PagedMem::new(rt.alloc());
    let world = World::new(rt.alloc(), Vec::new(rt.alloc()), Vec::new(rt.alloc()), 0);
    let mut recorder = Recorder::new(rt.alloc(), world, false);
    let full = fills_all_bytes(rt.alloc(), &mut recorder, &memory);
    let back = comes_back(rt.alloc(), &recorder, 67_108_864, 1_023);
    assert!(rt; full & back);
}

#[test]
fn a_trace_of_most_records_is_recorded_written_and_read(rt: HostRuntime) {
    let memory = PagedMem::new(rt.alloc());
    let world = World::new(rt.alloc(), Vec::new(rt.alloc()), Vec::new(rt.alloc()), 0);
    let mut recorder = Recorder::new(rt.alloc(), world, false);
    let full = fills_all_records(rt.alloc(), &mut recorder, &memory);
    let back = comes_back(rt.alloc(), &recorder, 48_000_016, 1_000_000);
    assert!(rt; full & back);
}
