//! Both commands over files and streams in memory, with bytes that were worked out by hand.
use crate::*;
use answers::Answer;
use journal::Borrowed;
use sim_opts::{Request, read_words};
use ss_base::{MemShelf, MemSink};
use std::alloc::Global;
use std::test::Fail;

/// ADDIU $2,$0,1; ADDIU $4,$0,7; SYSCALL: a program that exits with 7.
const PROGRAM: [u8; 140] = [
    98, 1, 1, 0, 0, 0, 0, 0, 0, 0, 0, 0, 0, 0, 0, 0, 56, 0, 0, 0, 7, 1, 0, 0, 24, 0, 0, 0, 0, 0, 0,
    0, 0, 0, 0, 0, 0, 0, 64, 0, 0, 0, 64, 0, 0, 0, 0, 0, 0, 0, 0, 0, 0, 0, 0, 0, 0, 0, 0, 0, 0, 0,
    0, 0, 0, 0, 0, 0, 0, 0, 0, 0, 0, 0, 0, 0, 46, 116, 101, 120, 116, 0, 0, 0, 0, 0, 64, 0, 0, 0,
    64, 0, 24, 0, 0, 0, 116, 0, 0, 0, 0, 0, 0, 0, 0, 0, 0, 0, 0, 0, 0, 0, 32, 0, 0, 0, 67, 0, 0, 0,
    1, 0, 2, 0, 67, 0, 0, 0, 7, 0, 4, 0, 160, 0, 0, 0, 0, 0, 0, 0,
];

/// Its commit text.
const LINES: &[u8] =
    b"0 00400000 ADDIU r2=00000001\n1 00400008 ADDIU r4=00000007\n2 00400010 SYSCALL call=0 exit=7\n";

/// Its trace: one exit after two instructions, with the registers 2 and 4.
const TRACE: [u8; 56] = [
    80, 69, 88, 84, 48, 48, 48, 50, 1, 0, 0, 0, 0, 0, 0, 0, 2, 0, 0, 0, 0, 0, 0, 0, 16, 0, 64, 0,
    2, 2, 0, 0, 0, 0, 0, 0, 7, 0, 0, 0, 2, 0, 0, 0, 1, 0, 0, 0, 4, 0, 0, 0, 7, 0, 0, 0,
];

/// The same without the first line.
const LATER: &[u8] = b"1 00400008 ADDIU r4=00000007\n2 00400010 SYSCALL call=0 exit=7\n";

/// Its statistics.
const REPORT: &[u8] = b"sim_skipped 0\nsim_num_insn 3\nsim_num_loads 0\nsim_num_stores 0\n\
    sim_num_branches 0\nsim_num_calls 1\nsim_end exited 7\n";

/// Those of its last two steps, from a point.
const REST: &[u8] = b"sim_skipped 0\nsim_num_insn 2\nsim_num_loads 0\nsim_num_stores 0\n\
    sim_num_branches 0\nsim_num_calls 1\nsim_end exited 7\n";

/// Those of its last two steps, behind one that was skipped.
const BEHIND: &[u8] = b"sim_skipped 1\nsim_num_insn 2\nsim_num_loads 0\nsim_num_stores 0\n\
    sim_num_branches 0\nsim_num_calls 1\nsim_end exited 7\n";

/// Whether these words run the program to its exit, and put these statistics on the second stream and
/// nothing on the first one.
fn exits(alloc: Global, line: &str, shelf: &mut MemShelf, report: &[u8]) -> Result<bool, Fail> {
    let mut words = Vec::new(alloc);
    for word in line.split(' ') {
        words.push(String::from_str(alloc, word)?)?;
    }
    let mut prog = MemSink::new(alloc);
    let mut stat = MemSink::new(alloc);
    let mut outside = Borrowed {
        shelf,
        prog: &mut prog,
        stat: &mut stat,
    };
    let Ok(options) = read_words(alloc, &words) else {
        return Ok(false);
    };
    let answer = match options.request(alloc, words.len()) {
        Ok(Request::SimSafe(request)) => sim_safe(alloc, request, &mut outside),
        Ok(Request::Record(request)) => record(alloc, request, &mut outside),
        _ => return Ok(false),
    };
    let exited = matches!(answer, Ok(Answer::Exited { code: 7 }));
    Ok(exited && prog.bytes().is_empty() && stat.bytes() == report)
}

#[test]
fn a_program_is_run_and_recorded_in_one_piece_and_in_two(rt: HostRuntime) -> Result<(), Fail> {
    let mut shelf = MemShelf::new(rt.alloc());
    shelf.add("p", &PROGRAM)?;
    shelf.add("f", b"")?;
    let ran = exits(rt.alloc(), "sim-safe -commits c p", &mut shelf, REPORT)?;
    let recorded = exits(
        rt.alloc(),
        "record -o t -in f -file f p",
        &mut shelf,
        REPORT,
    )?;
    let left = exits(rt.alloc(), "sim-safe -chkpt q 1 p", &mut shelf, REPORT)?;
    let rest = exits(
        rt.alloc(),
        "sim-safe -restart q -commits d p",
        &mut shelf,
        REST,
    )?;
    let skipped = exits(
        rt.alloc(),
        "sim-safe -fastfwd 1 -commits e p",
        &mut shelf,
        BEHIND,
    )?;
    let whole = shelf.bytes("c") == Some(LINES) && shelf.bytes("t") == Some(&TRACE);
    let later = shelf.bytes("d") == Some(LATER) && shelf.bytes("e") == Some(LATER);
    assert!(rt; ran && recorded && left && rest && skipped && whole && later);
    Ok(())
}
