//! Watches over a shelf in memory.
use crate::tests::{FIRST, FIRST_TEXT};
use crate::*;
use ss_base::{MemShelf, OutOfMemory, PutFault};
use std::alloc::{AllocError, Global};

/// A watch over the file `t`.
fn watch_of(alloc: Global) -> Result<TextWatch, AllocError> {
    let name = String::from_str(alloc, "t")?;
    Ok(TextWatch::new(alloc, name))
}

/// Shows a watch one dispatch in each of these cycles. Each takes two lines.
fn show(watch: &mut TextWatch, shelf: &mut MemShelf, from: u64, to: u64) -> Result<(), PutFault> {
    for cycle in from..to {
        let e = Event {
            cycle,
            row: cycle,
            mark: Mark::Dispatched,
        };
        match watch.put(&e, shelf) {
            Ok(()) => {}
            Err(fault) => return Err(fault),
        }
    }
    Ok(())
}

/// How many bytes the file has.
fn written(shelf: &MemShelf) -> usize {
    match shelf.bytes("t") {
        Some(bytes) => bytes.len(),
        None => 0,
    }
}

/// Whether a first piece comes with the event by which 65,536 bytes are reached, and the rest at the end.
fn pieces_come(alloc: Global, watch: &mut TextWatch) -> bool {
    let mut shelf = MemShelf::new(alloc);
    let early = show(watch, &mut shelf, 0, 4839).is_ok() & (written(&shelf) == 0);
    let piece = show(watch, &mut shelf, 4839, 5000).is_ok() & (written(&shelf) == 65540);
    let ended = watch.finish(5000, &EndWord::Budget, &mut shelf).is_ok();
    early & piece & ended & (written(&shelf) == 67794)
}

/// Whether a fault of the shelf is told at the event whose piece it refused, and not before.
fn fault_is_told(alloc: Global, watch: &mut TextWatch) -> Result<bool, OutOfMemory> {
    let mut shelf = MemShelf::new(alloc);
    shelf.fail_call(0)?;
    let early = show(watch, &mut shelf, 0, 4839).is_ok();
    let told = show(watch, &mut shelf, 4839, 4840) == Err(PutFault::Failed);
    Ok(early & told & (written(&shelf) < 65540))
}

/// Whether the first object's events are written as its text.
fn first_is_written(alloc: Global, watch: &mut TextWatch) -> bool {
    let mut shelf = MemShelf::new(alloc);
    for act in &FIRST {
        let (cycle, row, mark) = *act;
        if watch.put(&Event { cycle, row, mark }, &mut shelf).is_err() {
            return false;
        }
    }
    let ended = watch.finish(46, &EndWord::Exited(7), &mut shelf).is_ok();
    match shelf.bytes("t") {
        Some(bytes) => ended & (bytes == FIRST_TEXT),
        None => false,
    }
}

/// Whether three watches do so.
fn watches_write(alloc: Global) -> Result<bool, AllocError> {
    let mut first = watch_of(alloc)?;
    let mut long = watch_of(alloc)?;
    let mut failing = watch_of(alloc)?;
    let told = fault_is_told(alloc, &mut failing) == Ok(true);
    Ok(told & first_is_written(alloc, &mut first) & pieces_come(alloc, &mut long))
}

#[test]
fn watches_write_texts_in_pieces(rt: HostRuntime) {
    assert!(rt; watches_write(rt.alloc()) == Ok(true));
}
