ghost use Rattle.std.specs.Prelude.{◌≡◌, is_none, Some, reverse};
ghost use Rattle.std.specs.List.{list_any};
ghost use Rattle.ruu_core.specs.Window.{is_above, is_live, first, may_retire};
ghost use Rattle.ruu_core.specs.Slots.{shown, slot_named};

use crate::ring::slot_at;
use crate::search::{either, is_above};
use crate::slot::Slot;
use crate::{Ruu, Station};
use arrayvec::ArrayVec;
use circular_buffer::HeapCircularBuffer;
use pisa_isa::{Instr, Op};
use sim_safe::CommitRecord;
use std::test::Fail;

/// An instruction by what it writes and reads.
#[derive(Clone, Copy)]
enum Code {
    /// Writes the register.
    Upper(u8),
    /// Writes the first register from the two others.
    Sum(u8, u8, u8),
    /// Loads the register from the address in the other.
    Loads(u8, u8),
    /// Stores the register to the address in the other.
    Stores(u8, u8),
    /// Multiplies two registers into HI and LO.
    Product(u8, u8),
    /// Moves LO to the register.
    Low(u8),
}

use Code::{Loads, Low, Product, Stores, Sum, Upper};

/// What becomes of a row: it is right, wrong, or wrong and inert.
#[derive(Clone, Copy)]
enum Path {
    Right,
    Wrong,
    Inert,
}

use Path::{Inert, Right, Wrong};

/// A call, with its answer where it has one.
#[derive(Clone, Copy)]
enum Call {
    Room(bool),
    Empty(bool),
    Enter(u64, u64, Path, Code),
    Ready(u64, Option<u64>, Option<u64>),
    Access(u64, Option<u64>, Option<u64>),
    Done(u64, Option<u64>, Option<u64>),
    Unissued(Option<u64>),
    Issue(u64, u64, u64),
    Read(u64, u64, u64),
    Data(u64, u64, bool),
    Written(u64, Option<u64>),
    Named(u64),
    Squash(u64, u32),
    Head(u64, Option<u64>),
    Retire(u64),
}

use Call::{
    Access, Data, Done, Empty, Enter, Head, Issue, Named, Read, Ready, Retire, Room, Squash,
    Unissued, Written,
};

fn coded(op: Op, rs: u8, rt: u8, rd: u8) -> Instr {
    Instr {
        op,
        rs,
        rt,
        rd,
        shamt: 0,
        imm: 0,
        target: 0,
    }
}

fn instr_of(code: Code) -> Instr {
    match code {
        Upper(rt) => coded(Op::Lui, 0, rt, 0),
        Sum(rd, rs, rt) => coded(Op::Addu, rs, rt, rd),
        Loads(rt, rs) => coded(Op::Lw, rs, rt, 0),
        Stores(rt, rs) => coded(Op::Sw, rs, rt, 0),
        Product(rs, rt) => coded(Op::Mult, rs, rt, 0),
        Low(rd) => coded(Op::Mflo, 0, 0, rd),
    }
}

/// What a right row did, as far as the unit asks.
fn commit_of(wrong: bool, row: u64, instr: Instr) -> Option<CommitRecord>
    ensures { is_none result ≡ wrong }
{
    if wrong {
        return None;
    }
    Some(CommitRecord {
        number: row,
        pc: 0x400000,
        instr,
        next: 0x400008,
        taken: false,
        regs: ArrayVec::new(),
        hi: None,
        lo: None,
        mem: None,
        access: None,
        call: None,
    })
}

/// Whether the row is above every row that was dispatched.
fn rises(unit: &Ruu, row: u64) -> bool
    ensures { result ≡ is_above unit.now.last row }
{
    is_above(unit.last, row)
}

/// Whether calls may name the cycle.
fn is_later(unit: &Ruu, cycle: u64) -> bool
    ensures { result ≡ is_above unit.now.past cycle }
{
    is_above(unit.past, cycle)
}

/// Whether a slot has the row.
fn is_among(slots: &HeapCircularBuffer<Slot>, row: u64) -> bool
    ensures { result ≡ list_any (slot_named row) (reverse slots.now.items) }
{
    let mut among = false;
    for at in 0..slots.len() {
        among = either(slot_at(slots, at).station.row == row, among);
    }
    among
}

/// Whether the row is live.
fn is_live(unit: &Ruu, row: u64) -> bool
    ensures { result ≡ is_live row unit.now.rows }
{
    is_among(&unit.slots, row)
}

fn may_leave(slot: &Slot) -> bool
    ensures { result ≡ may_retire (Some (shown slot.now)) }
{
    !slot.station.wrong && slot.finished().is_some()
}

/// Whether the first row may retire.
fn may_retire(unit: &Ruu) -> bool
    ensures { result ≡ may_retire (first unit.now.rows) }
{
    match unit.slots.front() {
        Some(slot) => may_leave(slot),
        None => false,
    }
}

fn enters(unit: &mut Ruu, row: u64, cycle: u64, path: Path, code: Code) -> bool {
    let instr = instr_of(code);
    let wrong = !matches!(path, Right);
    if !instr.well_formed() || !unit.room() || !rises(unit, row) || !is_later(unit, cycle) {
        return false;
    }
    let commit = commit_of(wrong, row, instr);
    let station = Station {
        row,
        pc: 0x400000,
        instr,
        inert: matches!(path, Inert),
        wrong,
        predicted: 0x400008,
        actual: 0x400008,
        top: 0,
        commit,
    };
    unit.dispatch(station, cycle);
    true
}

/// The number before, where there is one.
fn before(row: u64) -> Option<u64> {
    row.checked_sub(1)
}

fn issues(unit: &mut Ruu, row: u64, cycle: u64, done: u64) -> bool {
    let _room = unit.room();
    if done <= cycle || !is_later(unit, cycle) {
        return false;
    }
    match unit.next_ready(cycle, before(row)) {
        Some(found) => {
            if found == row {
                unit.issue(found, cycle, done);
            }
            found == row
        }
        None => false,
    }
}

fn reads(unit: &mut Ruu, row: u64, cycle: u64, done: u64) -> bool {
    let _room = unit.room();
    if done <= cycle || !is_later(unit, cycle) {
        return false;
    }
    match unit.next_access(cycle, before(row)) {
        Some(found) => {
            if found == row {
                unit.access(found, cycle, done);
            }
            found == row
        }
        None => false,
    }
}

fn retires(unit: &mut Ruu, row: u64) -> bool {
    may_retire(unit) && unit.retire().row == row
}

fn head_is(unit: &Ruu, cycle: u64, answer: Option<u64>) -> bool {
    is_later(unit, cycle)
        && match unit.head(cycle) {
            Some(station) => answer == Some(station.row),
            None => answer == None,
        }
}

/// Whether the call may be made and answers so.
fn plays(unit: &mut Ruu, call: &Call) -> bool {
    match call {
        Room(answer) => unit.room() == *answer,
        Empty(answer) => unit.is_empty() == *answer,
        Enter(row, cycle, path, code) => enters(unit, *row, *cycle, *path, *code),
        Ready(cycle, after, answer) => {
            is_later(unit, *cycle) && unit.next_ready(*cycle, *after) == *answer
        }
        Access(cycle, after, answer) => {
            is_later(unit, *cycle) && unit.next_access(*cycle, *after) == *answer
        }
        Done(cycle, after, answer) => {
            is_later(unit, *cycle) && unit.next_done(*cycle, *after) == *answer
        }
        Unissued(answer) => unit.first_unissued() == *answer,
        Issue(row, cycle, done) => issues(unit, *row, *cycle, *done),
        Read(row, cycle, done) => reads(unit, *row, *cycle, *done),
        Data(row, cycle, answer) => {
            is_later(unit, *cycle) && is_live(unit, *row) && unit.data_done(*row, *cycle) == *answer
        }
        Written(row, answer) => is_live(unit, *row) && unit.written_at(*row) == *answer,
        Named(row) => is_live(unit, *row) && unit.station(*row).row == *row,
        Squash(row, answer) => unit.squash_after(*row) == *answer,
        Head(cycle, answer) => head_is(unit, *cycle, *answer),
        Retire(row) => retires(unit, *row),
    }
}

fn agrees(mut unit: Ruu, calls: &[Call]) -> bool {
    for call in calls {
        if !plays(&mut unit, call) {
            return false;
        }
    }
    true
}

#[test]
fn a_reader_waits_for_its_producer(rt: HostRuntime) -> Result<(), Fail> {
    let calls = [
        Enter(0, 1, Right, Upper(8)),
        Enter(1, 1, Right, Sum(9, 8, 0)),
        Room(false),
        Ready(2, None, Some(0)),
        Ready(2, Some(0), None),
        Issue(0, 2, 3),
        Done(3, None, Some(0)),
        Ready(3, None, Some(1)),
        Head(3, None),
        Head(4, Some(0)),
        Squash(0, 1),
    ];
    let agreed = agrees(Ruu::new(rt.alloc(), 2)?, &calls);
    assert!(rt; agreed);
    Ok(())
}

/// The calls of `tools/machine-walks ruu_core`.
const WALK: [Call; 116] = [
    Empty(true),
    Room(true),
    Ready(1, None, None),
    Head(1, None),
    Squash(3, 0),
    Unissued(None),
    Access(2, None, None),
    Enter(0, 2, Right, Product(8, 8)),
    Enter(2, 2, Right, Low(8)),
    Enter(4, 2, Right, Low(9)),
    Written(4, None),
    Done(3, None, None),
    Enter(5, 3, Right, Upper(8)),
    Issue(0, 3, 4),
    Squash(2, 2),
    Issue(2, 4, 7),
    Enter(6, 4, Right, Low(8)),
    Written(6, None),
    Unissued(Some(6)),
    Enter(7, 5, Inert, Product(8, 0)),
    Ready(5, Some(7), None),
    Issue(6, 5, 8),
    Empty(false),
    Access(5, Some(6), None),
    Retire(0),
    Done(5, Some(6), None),
    Enter(8, 6, Inert, Product(9, 0)),
    Issue(7, 8, 9),
    Done(8, Some(2), Some(6)),
    Issue(8, 8, 11),
    Written(8, Some(11)),
    Squash(2, 3),
    Enter(9, 8, Right, Low(8)),
    Named(2),
    Squash(2, 1),
    Enter(10, 9, Right, Upper(8)),
    Head(9, Some(2)),
    Done(9, Some(2), None),
    Retire(2),
    Room(true),
    Ready(9, None, None),
    Written(10, None),
    Enter(12, 9, Right, Upper(9)),
    Data(10, 9, true),
    Enter(14, 9, Right, Sum(8, 8, 8)),
    Enter(16, 9, Right, Stores(8, 0)),
    Data(16, 9, false),
    Done(9, None, None),
    Written(16, None),
    Written(16, None),
    Empty(false),
    Empty(false),
    Written(16, None),
    Head(12, None),
    Done(12, Some(12), None),
    Issue(10, 13, 14),
    Unissued(Some(12)),
    Squash(10, 3),
    Enter(18, 13, Right, Sum(8, 8, 8)),
    Access(13, None, None),
    Issue(18, 14, 15),
    Enter(19, 14, Right, Upper(9)),
    Named(18),
    Issue(19, 15, 16),
    Done(15, Some(18), None),
    Enter(20, 16, Right, Loads(9, 9)),
    Retire(10),
    Done(16, None, Some(19)),
    Retire(18),
    Enter(21, 16, Right, Upper(8)),
    Enter(22, 16, Inert, Stores(8, 0)),
    Issue(20, 17, 18),
    Retire(19),
    Issue(21, 17, 18),
    Enter(23, 18, Inert, Stores(9, 9)),
    Room(false),
    Named(23),
    Read(20, 19, 20),
    Ready(19, None, Some(22)),
    Access(19, Some(21), None),
    Issue(22, 19, 22),
    Issue(23, 20, 21),
    Written(23, Some(21)),
    Squash(20, 3),
    Access(20, Some(20), None),
    Enter(24, 20, Right, Product(9, 8)),
    Access(20, Some(24), None),
    Enter(26, 20, Right, Upper(9)),
    Named(20),
    Data(26, 21, true),
    Issue(24, 21, 24),
    Enter(27, 21, Right, Stores(0, 0)),
    Retire(20),
    Issue(26, 21, 24),
    Squash(24, 2),
    Written(24, Some(24)),
    Enter(28, 24, Right, Sum(9, 0, 8)),
    Ready(24, Some(24), None),
    Squash(24, 1),
    Enter(29, 24, Wrong, Upper(9)),
    Enter(30, 24, Inert, Product(9, 8)),
    Enter(31, 24, Inert, Low(8)),
    Head(24, None),
    Access(24, None, None),
    Room(false),
    Issue(29, 25, 26),
    Retire(24),
    Done(25, Some(29), None),
    Enter(33, 25, Inert, Low(9)),
    Unissued(Some(30)),
    Ready(25, Some(31), None),
    Named(31),
    Access(28, Some(33), None),
    Issue(30, 28, 29),
    Issue(31, 28, 29),
    Access(28, Some(30), None),
];

#[test]
fn a_walk_of_calls_agrees(rt: HostRuntime) -> Result<(), Fail> {
    let agreed = agrees(Ruu::new(rt.alloc(), 4)?, &WALK);
    assert!(rt; agreed);
    Ok(())
}
