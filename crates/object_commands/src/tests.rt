//! Each command once, over memory.
use crate::{asm, dis};
use answers::Answer;
use journal::Borrowed;
use ss_base::{MemShelf, MemSink};
use std::alloc::Global;
use std::test::Fail;

/// A source of one instruction.
const SOURCE: &[u8] = b".text 0x00400000\nADDIU $2,$0,1\n";

/// Its listing.
const LISTING: &[u8] = b"00400000 ADDIU $2,$0,1\n";

/// Makes an object of the source and lists it; tells whether both were answered, the object has the
/// 124 bytes of two headers and one instruction, and only the listing was put.
fn makes_and_lists(alloc: Global) -> Result<bool, Fail> {
    let mut shelf = MemShelf::new(alloc);
    shelf.add("s", SOURCE)?;
    let mut prog = MemSink::new(alloc);
    let mut stat = MemSink::new(alloc);
    let mut outside = Borrowed {
        shelf: &mut shelf,
        prog: &mut prog,
        stat: &mut stat,
    };
    let made = asm(alloc, "s", "o", &mut outside);
    let listed = dis(alloc, "o", &mut outside);
    Ok(
        matches!(&made, Ok(Answer::Made))
            && matches!(&listed, Ok(Answer::Made))
            && shelf.bytes("o").map(|bytes| bytes.len()) == Some(124)
            && prog.bytes() == LISTING
            && stat.bytes().is_empty(),
    )
}

#[test]
fn an_object_is_made_and_listed(rt: HostRuntime) -> Result<(), Fail> {
    assert!(rt; makes_and_lists(rt.alloc())?);
    Ok(())
}
