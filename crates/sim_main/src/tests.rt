//! Each command once, with ample memory. All else that whole commands do is shown by the cases of `pisa_cases`.
use crate::{Ending, simulate};
use ss_base::{MemShelf, MemSink};
use std::alloc::Global;
use std::test::Fail;

/// Performs a command over a shelf, and tells whether it ended as one without a fault.
fn ends_well(alloc: Global, line: &str, shelf: &mut MemShelf) -> Result<bool, Fail> {
    let mut words = Vec::new(alloc);
    for word in line.split(' ') {
        words.push(String::from_str(alloc, word)?)?;
    }
    let mut prog = MemSink::new(alloc);
    let mut stat = MemSink::new(alloc);
    let ending = simulate(alloc, &words, shelf, &mut prog, &mut stat);
    Ok(matches!(ending, Ending::Exited { code: 7 } | Ending::Made))
}

#[test]
fn each_command_has_enough_memory(rt: HostRuntime) -> Result<(), Fail> {
    let mut shelf = MemShelf::new(rt.alloc());
    shelf.add(
        "source",
        b".text 0x00400000\nADDIU $2,$0,1\nADDIU $4,$0,7\nSYSCALL\n",
    )?;
    let mut well = true;
    for line in [
        "asm source object",
        "dis object",
        "record -o trace object",
        "sim-safe -commits lines -trace trace object",
        "sim-safe -fastfwd 1 -chkpt point 2 -trace trace object",
        "sim-safe -restart point -commits lines -trace trace object",
    ] {
        well = ends_well(rt.alloc(), line, &mut shelf)? && well;
    }
    assert!(rt; well);
    Ok(())
}
