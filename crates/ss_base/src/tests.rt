use crate::{
    HostShelf, HostSink, LoadFault, MemShelf, MemSink, OutOfMemory, PutFault, Shelf, Sink,
    SureShelf, SureSink, get16, get32, get64, push_decimal, push_hex, push_hex_bytes,
};
use std::fs::{self, File, OpenOptions};
use std::io::{Error, ErrorKind, Read, Write};
use std::rt::Files;
use std::test::Fail;
use std::{env, io, process};

/// Adds a text of each kind of number.
fn push_numbers(text: &mut Vec<u8>) -> Result<(), OutOfMemory> {
    push_decimal(text, 0)?;
    push_decimal(text, 18446744073709551615)?;
    push_hex(text, 0x0040_0aF1)?;
    push_hex_bytes(text, &[0, 9, 10, 255])
}

#[test]
fn numbers_are_written_and_read(rt: HostRuntime) {
    let mut text = Vec::new(rt.alloc());
    let pushed = push_numbers(&mut text).is_ok();
    let bytes = [1, 2, 3, 4, 5, 6, 7, 8, 9];
    let read = (get16(&bytes, 7), get32(&bytes, 1), get64(&bytes, 1))
        == (0x0908, 0x05040302, 0x0908070605040302);
    let written = text.as_slice() == b"01844674407370955161500400af100090aff".as_slice();
    assert!(rt; pushed & read & written);
}

/// Whether a load answers this, and leaves these bytes.
fn loads<H: Shelf>(
    shelf: &mut H,
    name: &str,
    limit: u64,
    into: &mut Vec<u8>,
    answer: Result<(), LoadFault>,
    bytes: &[u8],
) -> bool {
    let answered = shelf.load(name, limit, into) == answer;
    answered & (into.as_slice() == bytes)
}

/// Calls of a shelf that holds file `a`, of which call 5 is to fail; answers whether all came as
/// they should.
fn memory_files_go_well(shelf: &mut MemShelf, into: &mut Vec<u8>) -> bool {
    let whole = loads(shelf, "a", 5, into, Ok(()), b"hello");
    let cut = loads(shelf, "a", 3, into, Err(LoadFault::TooLong), b"hell");
    let missing = loads(shelf, "b", 3, into, Err(LoadFault::Failed), b"");
    let started = shelf.start("b") == Ok(());
    let first = shelf.append("b", b"xy") == Ok(());
    let failed = shelf.append("b", b"z") == Err(PutFault::Failed);
    let second = shelf.append("b", b"z") == Ok(());
    let put = shelf.bytes("b") == Some(b"xyz".as_slice());
    let kept = shelf.bytes("a") == Some(b"hello".as_slice());
    let none = shelf.bytes("c") == None;
    whole & cut & missing & started & first & failed & second & put & kept & none
}

#[test]
fn a_memory_shelf_holds_files(rt: HostRuntime) {
    let mut shelf = MemShelf::new(rt.alloc());
    let mut into = Vec::new(rt.alloc());
    let added = shelf.add("a", b"hello") == Ok(());
    let listed = shelf.fail_call(5) == Ok(());
    assert!(rt; added & listed & memory_files_go_well(&mut shelf, &mut into));
}

#[test]
fn a_memory_sink_holds_bytes(rt: HostRuntime) {
    let mut sink = MemSink::new(rt.alloc());
    let listed = sink.fail_call(1) == Ok(());
    let first = sink.put(b"ab") == Ok(());
    let failed = sink.put(b"cd") == Err(PutFault::Failed);
    let second = sink.put(b"ef") == Ok(());
    let held = sink.bytes() == b"abef".as_slice();
    assert!(rt; listed & first & failed & second & held);
}

/// Calls of a shelf that never fails and holds file `a`; answers whether all came as they should.
fn sure_files_hold(shelf: &mut SureShelf, into: &mut Vec<u8>) -> bool {
    let whole = loads(shelf, "a", 5, into, Ok(()), b"hello");
    let cut = loads(shelf, "a", 4, into, Err(LoadFault::TooLong), b"hello");
    let missing = loads(shelf, "b", 0, into, Ok(()), b"");
    let none = shelf.bytes("b") == None;
    let grown = shelf.append("b", b"xy") == Ok(());
    let put = shelf.bytes("b") == Some(b"xy".as_slice());
    let started = shelf.start("b") == Ok(());
    let empty = shelf.bytes("b") == Some(b"".as_slice());
    let kept = shelf.bytes("a") == Some(b"hello".as_slice());
    whole & cut & missing & none & grown & put & started & empty & kept
}

#[test]
fn a_sure_shelf_and_sink_never_fail(rt: HostRuntime) {
    let mut shelf = SureShelf::new(rt.alloc());
    let mut sink = SureSink::new(rt.alloc());
    let mut into = Vec::new(rt.alloc());
    let added = shelf.add("a", b"hello") == Ok(());
    let files = sure_files_hold(&mut shelf, &mut into);
    let put = (sink.put(b"ab") == Ok(())) & (sink.put(b"c") == Ok(()));
    let held = sink.bytes() == b"abc".as_slice();
    assert!(rt; added & files & put & held);
}

/// A path of this process's own in the folder of temporary files.
fn temp_path(rt: &HostRuntime, name: &str) -> Result<String, Fail> {
    let folder = env::temp_dir(rt)?;
    let process = process::id(rt.process());
    Ok(format!(in rt.alloc(); "{}/ss_base_{name}_{process}", folder.display())?)
}

/// A writer that takes two bytes at a time, and fails once it has taken as many as it may.
#[derive(Drop)]
struct Narrow {
    left: usize,
}

impl Write for Narrow {
    fn write(&mut self, buf: &[u8]) -> io::Result<usize> {
        let taken = buf.len().min(2);
        if self.left < taken {
            return Err(Error::from(ErrorKind::StorageFull));
        }
        self.left -= taken;
        Ok(taken)
    }

    fn flush(&mut self) -> io::Result<()> {
        Ok(())
    }
}

#[test]
fn a_short_write_goes_on_until_it_fails(rt: HostRuntime) {
    let mut narrow = HostSink::new(Narrow { left: 5 });
    let whole = narrow.put(b"abcd") == Ok(());
    let failed = narrow.put(b"ef") == Err(PutFault::Failed);
    assert!(rt; whole & failed);
}

/// Lengths of files: those round the length of one read, of a pipe and of the largest object.
const LENGTHS: [usize; 8] = [0, 1, 4_095, 4_096, 4_097, 65_537, 1_000_001, 3_000_000];

/// Makes the buffer `length` bytes long, of which no two parts are alike.
fn fill(bytes: &mut Vec<u8>, length: usize) -> bool {
    bytes.clear();
    for place in 0..length {
        if bytes.push((place % 251) as u8).is_err() {
            return false;
        }
    }
    true
}

/// Whether the system's own reading finds these bytes in a file.
fn file_holds<R: Files>(files: &R, name: &str, bytes: &[u8], into: &mut Vec<u8>) -> bool {
    into.clear();
    match File::open(files, name) {
        Ok(mut file) => {
            let read = file.read_to_end(into).is_ok();
            read & (into.as_slice() == bytes)
        }
        Err(_) => false,
    }
}

/// Whether a shelf loads a file whole, and cuts it at a limit one below its length.
fn shelf_loads<R: Files>(files: &R, name: &str, bytes: &[u8], into: &mut Vec<u8>) -> bool {
    let mut shelf = HostShelf::new(files);
    let length = bytes.len() as u64;
    let written = fs::write(files, name, bytes).is_ok();
    let whole = loads(&mut shelf, name, length, into, Ok(()), bytes);
    let below = length.saturating_sub(1);
    let cut = length == 0
        || loads(
            &mut shelf,
            name,
            below,
            into,
            Err(LoadFault::TooLong),
            bytes,
        );
    written & whole & cut
}

/// Whether a shelf makes a file of these bytes, in two parts.
fn shelf_appends<R: Files>(files: &R, name: &str, bytes: &[u8], into: &mut Vec<u8>) -> bool {
    let mut shelf = HostShelf::new(files);
    let (front, rest) = bytes.split_at(bytes.len() / 3);
    let started = shelf.start(name) == Ok(());
    let first = shelf.append(name, front) == Ok(());
    let second = shelf.append(name, rest) == Ok(());
    started & first & second & file_holds(files, name, bytes, into)
}

/// Whether a stream writes these bytes, in two parts.
fn sink_puts<R: Files>(files: &R, name: &str, bytes: &[u8], into: &mut Vec<u8>) -> bool {
    let Ok(file) = File::create(files, name) else {
        return false;
    };
    let mut sink = HostSink::new(file);
    let (front, rest) = bytes.split_at(bytes.len() / 3);
    let first = sink.put(front) == Ok(());
    let second = sink.put(rest) == Ok(());
    first & second & file_holds(files, name, bytes, into)
}

/// Whether files of each length are whole, in both directions.
fn files_are_whole<R: Files>(
    files: &R,
    name: &str,
    bytes: &mut Vec<u8>,
    into: &mut Vec<u8>,
) -> bool {
    let mut whole = true;
    for length in LENGTHS {
        let filled = fill(bytes, length);
        let loaded = shelf_loads(files, name, bytes.as_slice(), into);
        let appended = shelf_appends(files, name, bytes.as_slice(), into);
        let put = sink_puts(files, name, bytes.as_slice(), into);
        whole = whole & filled & loaded & appended & put;
    }
    whole
}

#[test]
fn real_files_are_whole(rt: HostRuntime) -> Result<(), Fail> {
    let path = temp_path(&rt, "whole")?;
    let mut bytes = Vec::new(rt.alloc());
    let mut into = Vec::new(rt.alloc());
    let whole = files_are_whole(&rt, path.as_str(), &mut bytes, &mut into);
    let removed = fs::remove_file(&rt, path.as_str()).is_ok();
    assert!(rt; whole & removed);
    Ok(())
}

/// Whether a stream to the named device fails.
fn sink_fails<R: Files>(files: &R, device: &str) -> bool {
    let mut options = OpenOptions::new();
    options.write(true);
    match options.open(files, device) {
        Ok(file) => HostSink::new(file).put(b"abc") == Err(PutFault::Failed),
        Err(_) => false,
    }
}

/// Whether a file is cut and emptied, and whether what the system refuses is a failure: a file that
/// is gone, a folder, an empty name, a device that is full.
fn failures_are_told<R: Files>(files: &R, name: &str, into: &mut Vec<u8>) -> bool {
    let mut shelf = HostShelf::new(files);
    let written = fs::write(files, name, b"abcde").is_ok();
    let cut = loads(&mut shelf, name, 1, into, Err(LoadFault::TooLong), b"ab");
    let emptied = shelf.start(name) == Ok(());
    let empty = loads(&mut shelf, name, 5, into, Ok(()), b"");
    let removed = fs::remove_file(files, name).is_ok();
    let gone = loads(&mut shelf, name, 5, into, Err(LoadFault::Failed), b"");
    let folder = loads(&mut shelf, "/", 5, into, Err(LoadFault::Failed), b"");
    let nameless = shelf.start("") == Err(PutFault::Failed);
    let full = shelf.append("/dev/full", b"abc") == Err(PutFault::Failed);
    let held = written & cut & emptied & empty & removed & gone & folder & nameless & full;
    held & sink_fails(files, "/dev/full")
}

#[test]
fn what_the_system_refuses_fails(rt: HostRuntime) -> Result<(), Fail> {
    let path = temp_path(&rt, "refused")?;
    let mut into = Vec::new(rt.alloc());
    assert!(rt; failures_are_told(&rt, path.as_str(), &mut into));
    Ok(())
}
