//! Each call that can want memory once, over memory.
use crate::{Borrowed, Fault, Found, FoundEach, Outside, OutsideShelf, find_each, find_file};
use ss_base::{MemShelf, MemSink, Shelf};
use std::alloc::Global;
use std::test::Fail;

/// Writes a file and both streams, and tells whether each part holds its own.
fn writes_each_part(alloc: Global) -> Result<bool, Fail> {
    let mut shelf = MemShelf::new(alloc);
    let mut prog = MemSink::new(alloc);
    let mut stat = MemSink::new(alloc);
    let mut outside = Borrowed {
        shelf: &mut shelf,
        prog: &mut prog,
        stat: &mut stat,
    };
    let started = outside.start("f") == Ok(());
    let appended = outside.append("f", b"ab") == Ok(());
    let output = outside.put_output(b"out") == Ok(());
    let report = outside.put_report(b"why") == Ok(());
    let grown = OutsideShelf {
        outside: &mut outside,
    }
    .append("f", b"c")
        == Ok(());
    Ok(
        started
            && appended
            && output
            && report
            && grown
            && shelf.bytes("f") == Some(b"abc".as_slice())
            && prog.bytes() == b"out".as_slice()
            && stat.bytes() == b"why".as_slice(),
    )
}

/// Finds one file and then three, of which the second is too long for the limit, and one that isn't
/// there; tells whether each answer is as it must be.
fn finds_files(alloc: Global) -> Result<bool, Fail> {
    let mut shelf = MemShelf::new(alloc);
    shelf.add("one", b"1")?;
    shelf.add("many", b"1234")?;
    let mut prog = MemSink::new(alloc);
    let mut stat = MemSink::new(alloc);
    let mut outside = Borrowed {
        shelf: &mut shelf,
        prog: &mut prog,
        stat: &mut stat,
    };
    let whole = find_file(alloc, "one", 1, &mut outside);
    let each = find_each(alloc, &["one", "one"], 1, &mut outside);
    let long = find_each(alloc, &["one", "many", "none"], 3, &mut outside);
    let missing = find_file(alloc, "none", 9, &mut outside);
    Ok(
        matches!(&whole, Ok(Found::Whole(bytes)) if bytes.as_slice() == b"1".as_slice())
            && matches!(&each, Ok(FoundEach::Whole(files)) if files.len() == 2)
            && matches!(&long, Ok(FoundEach::TooLong(1)))
            && matches!(&missing, Err(Fault::Shelf)),
    )
}

#[test]
fn writes_reach_their_part(rt: HostRuntime) -> Result<(), Fail> {
    assert!(rt; writes_each_part(rt.alloc())?);
    Ok(())
}

#[test]
fn files_are_found(rt: HostRuntime) -> Result<(), Fail> {
    assert!(rt; finds_files(rt.alloc())?);
    Ok(())
}
