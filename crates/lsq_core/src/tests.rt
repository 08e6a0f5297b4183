ghost use Rattle.std.specs.Prelude.{◌≡◌};
ghost use Rattle.lsq_core.specs.Queue.{is_above, first_row};
ghost use Rattle.lsq_core.specs.Slots.{entry_of, entries_of, is_of, holds_of};

use crate::Lsq;
use crate::slots::{Slot, either, slot_at};
use circular_buffer::HeapCircularBuffer;
use std::test::Fail;

/// A call, with its answer where it has one.
#[derive(Clone, Copy)]
enum Call {
    Room(bool),
    Add(u64, bool, u32),
    Address(u64, u64),
    Data(u64, u64),
    Ask(u64, u64, Result<bool, u64>),
    Squash(u64),
    Retire(u64),
}

use Call::{Add, Address, Ask, Data, Retire, Room, Squash};

/// Whether the row is above every row that was added.
fn rises(queue: &Lsq, row: u64) -> bool
    ensures { result ≡ is_above queue.now.last row }
{
    match queue.last {
        Some(last) => last < row,
        None => true,
    }
}

fn is_held(slot: &Slot, row: u64, store: bool) -> bool
    ensures { result ≡ is_of store row (entry_of slot.now) }
{
    slot.row == row && slot.store == store
}

/// Whether a slot has a store of the row, or a load.
fn is_among(slots: &HeapCircularBuffer<Slot>, row: u64, store: bool) -> bool
    ensures { result ≡ holds_of store row (entries_of slots.now.items) }
{
    let mut held = false;
    for at in 0..slots.len() {
        let slot = slot_at(slots, at);
        held = either(is_held(&slot, row, store), held);
    }
    held
}

/// Whether a store of the row is held, or a load.
fn holds(queue: &Lsq, row: u64, store: bool) -> bool
    ensures { result ≡ holds_of store row queue.now.entries }
{
    is_among(&queue.slots, row, store)
}

/// The oldest row.
fn first(queue: &Lsq) -> Option<u64>
    ensures { result ≡ first_row queue.now.entries }
{
    match queue.slots.get(0) {
        Some(slot) => Some(slot.row),
        None => None,
    }
}

fn adds(queue: &mut Lsq, row: u64, store: bool, block: u32) -> bool {
    if !queue.room() || !rises(queue, row) {
        return false;
    }
    queue.add(row, store, block);
    true
}

fn learns_address(queue: &mut Lsq, row: u64, cycle: u64) -> bool {
    if !holds(queue, row, true) {
        return false;
    }
    queue.know_address(row, cycle);
    true
}

fn learns_data(queue: &mut Lsq, row: u64, cycle: u64) -> bool {
    if !holds(queue, row, true) {
        return false;
    }
    queue.know_data(row, cycle);
    true
}

fn asks(queue: &Lsq, row: u64, cycle: u64, answer: Result<bool, u64>) -> bool {
    holds(queue, row, false) && queue.load_may_issue(row, cycle) == answer
}

fn retires(queue: &mut Lsq, row: u64) -> bool {
    if first(queue) != Some(row) {
        return false;
    }
    queue.retire(row);
    true
}

/// Whether the call may be made and answers so.
fn plays(queue: &mut Lsq, call: &Call) -> bool {
    match call {
        Room(answer) => queue.room() == *answer,
        Add(row, store, block) => adds(queue, *row, *store, *block),
        Address(row, cycle) => learns_address(queue, *row, *cycle),
        Data(row, cycle) => learns_data(queue, *row, *cycle),
        Ask(row, cycle, answer) => asks(queue, *row, *cycle, *answer),
        Squash(row) => {
            queue.squash_after(*row);
            true
        }
        Retire(row) => retires(queue, *row),
    }
}

fn agrees(mut queue: Lsq, calls: &[Call]) -> bool {
    for call in calls {
        if !plays(&mut queue, call) {
            return false;
        }
    }
    true
}

#[test]
fn a_load_waits_for_the_store_of_its_block(rt: HostRuntime) -> Result<(), Fail> {
    let same = [
        Add(2, true, 0x2000000),
        Add(3, false, 0x2000000),
        Ask(3, 4, Err(2)),
        Address(2, 5),
        Data(2, 5),
        Ask(3, 4, Err(2)),
        Ask(3, 5, Ok(true)),
    ];
    let agreed = agrees(Lsq::new(rt.alloc(), 2)?, &same);
    assert!(rt; agreed);
    Ok(())
}

#[test]
fn a_load_of_another_block_waits_for_addresses(rt: HostRuntime) -> Result<(), Fail> {
    let other = [
        Add(2, true, 0x2000000),
        Add(3, false, 0x2000001),
        Ask(3, 4, Err(2)),
        Address(2, 5),
        Ask(3, 4, Err(2)),
        Ask(3, 5, Ok(false)),
    ];
    let agreed = agrees(Lsq::new(rt.alloc(), 2)?, &other);
    assert!(rt; agreed);
    Ok(())
}

/// The calls of `tools/machine-walks lsq_core`.
const WALK: [Call; 92] = [
    Room(true),
    Squash(7),
    Add(2, true, 512),
    Address(2, 0),
    Add(3, true, 512),
    Add(4, true, 512),
    Data(3, 2),
    Squash(0),
    Room(true),
    Room(true),
    Add(7, true, 513),
    Add(10, false, 513),
    Ask(10, 3, Err(7)),
    Address(7, 5),
    Address(7, 5),
    Address(7, 6),
    Add(13, true, 512),
    Ask(10, 7, Err(7)),
    Address(13, 7),
    Ask(10, 8, Err(7)),
    Squash(11),
    Add(14, true, 512),
    Ask(10, 10, Err(7)),
    Ask(10, 11, Err(7)),
    Ask(10, 11, Err(7)),
    Ask(10, 12, Err(7)),
    Address(14, 12),
    Address(7, 12),
    Address(14, 12),
    Ask(10, 11, Err(7)),
    Squash(12),
    Ask(10, 13, Err(7)),
    Add(17, false, 512),
    Data(7, 13),
    Address(7, 13),
    Data(7, 14),
    Ask(10, 15, Ok(true)),
    Data(7, 15),
    Ask(17, 16, Ok(false)),
    Address(7, 16),
    Address(7, 16),
    Ask(10, 15, Ok(true)),
    Ask(17, 17, Ok(false)),
    Address(7, 17),
    Data(7, 17),
    Address(7, 18),
    Data(7, 18),
    Ask(10, 18, Ok(true)),
    Data(7, 20),
    Room(false),
    Ask(10, 20, Ok(true)),
    Ask(17, 20, Ok(false)),
    Ask(17, 20, Ok(false)),
    Retire(7),
    Ask(10, 20, Ok(false)),
    Ask(10, 20, Ok(false)),
    Add(20, true, 513),
    Address(20, 22),
    Data(20, 22),
    Ask(10, 21, Ok(false)),
    Data(20, 23),
    Ask(10, 23, Ok(false)),
    Address(20, 24),
    Ask(10, 24, Ok(false)),
    Retire(10),
    Ask(17, 24, Ok(false)),
    Add(23, false, 512),
    Address(20, 24),
    Ask(23, 24, Ok(false)),
    Squash(21),
    Data(20, 25),
    Ask(17, 25, Ok(false)),
    Data(20, 25),
    Room(true),
    Add(24, false, 512),
    Retire(17),
    Add(25, false, 512),
    Room(false),
    Squash(21),
    Room(true),
    Data(20, 28),
    Squash(24),
    Add(27, false, 513),
    Ask(27, 28, Ok(true)),
    Retire(20),
    Ask(27, 29, Ok(false)),
    Ask(27, 30, Ok(false)),
    Ask(27, 30, Ok(false)),
    Add(30, true, 513),
    Add(31, false, 512),
    Address(30, 32),
    Retire(27),
];

#[test]
fn a_walk_of_calls_agrees(rt: HostRuntime) -> Result<(), Fail> {
    let agreed = agrees(Lsq::new(rt.alloc(), 3)?, &WALK);
    assert!(rt; agreed);
    Ok(())
}
