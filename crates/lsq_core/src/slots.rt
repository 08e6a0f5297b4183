//! The slots of the ring, and walks over them from the oldest to the newest.
ghost use Rattle.std.specs.Prelude.{◌≡◌, ◌<◌, ◌≤◌, ◌&&◌, ◌||◌, not, IsTrue, length, map, take, slice_get, slice_set, Some, None, if◌then◌else◌};
ghost use Rattle.circular_buffer.specs.Buffer.{buffer};
ghost use Rattle.lsq_core.specs.declared.slots.Slot.{Slot};
ghost use Rattle.lsq_core.specs.Queue.{is_by, or_else, set_once, forbids, forwards, answer};
ghost use Rattle.lsq_core.specs.Slots.{entry_of, entries_of, block_of, answer_for, learned, up_to, rises_from, place_of};

use circular_buffer::HeapCircularBuffer;

/// A held load or store.
#[derive(Clone, Copy, Debug)]
pub struct Slot {
    pub row: u64,
    pub store: bool,
    pub block: u32,
    pub address: Option<u64>,
    pub data_done: Option<u64>,
}

/// What is learned of a store.
#[derive(Clone, Copy, Debug)]
pub enum Part {
    Address,
    Data,
}

fn is_by(cycle: u64, mark: Option<u64>) -> bool
    ensures { result ≡ is_by cycle mark }
{
    match mark {
        Some(at) => at <= cycle,
        None => false,
    }
}

fn set_once(cycle: u64, mark: Option<u64>) -> Option<u64>
    ensures { result ≡ set_once cycle mark }
{
    match mark {
        Some(at) => Some(at),
        None => Some(cycle),
    }
}

fn forbidding(store: bool, address: bool, same: bool, data_done: bool) -> bool
    ensures { result ≡ (store && (not address || (same && not (address && data_done)))) }
{
    store && !(address && (data_done || !same))
}

/// The first of the two, or this row where it passes.
fn or_this(first: Option<u64>, passes: bool, row: u64) -> Option<u64>
    ensures { result ≡ or_else first (if passes then Some row else None) }
{
    match first {
        Some(older) => Some(older),
        None => { if passes { Some(row) } else { None } }
    }
}

pub fn either(a: bool, b: bool) -> bool
    ensures { result ≡ (a || b) }
{
    a || b
}

/// What a load behind these stores may do.
fn answered(forbidding: Option<u64>, forwarded: bool) -> Result<bool, u64>
    ensures { result ≡ answer forbidding forwarded }
{
    match forbidding {
        Some(row) => Err(row),
        None => Ok(forwarded),
    }
}

impl Slot {
    /// Whether it forbids a load of the block at the cycle.
    fn forbids(&self, cycle: u64, block: u32) -> bool
        ensures { result ≡ forbids cycle block (entry_of self.now) }
    {
        let address = is_by(cycle, self.address);
        let data_done = is_by(cycle, self.data_done);
        forbidding(self.store, address, self.block == block, data_done)
    }

    /// Whether it is a store of the block.
    fn forwards(&self, block: u32) -> bool
        ensures { result ≡ forwards block (entry_of self.now) }
    {
        self.store && self.block == block
    }

    /// Notes of the row since when a part of it is known, where that isn't noted yet.
    fn learn(&mut self, row: u64, cycle: u64, part: Part)
        ensures { self.new ≡ learned row cycle part self.old }
    {
        if self.row == row {
            match part {
                Part::Address => self.address = set_once(cycle, self.address),
                Part::Data => self.data_done = set_once(cycle, self.data_done),
            }
        }
    }
}

/// The slot at a place.
pub fn slot_at(slots: &HeapCircularBuffer<Slot>, at: usize) -> Slot
    requires { at < length slots.now.items }
    ensures { slice_get slots.now.items at ≡ Some result }
{
    match slots.get(at) {
        Some(slot) => *slot,
        None => unreachable!(),
    }
}

/// The block of the row, or 0 where it isn't held.
pub fn block_of(slots: &HeapCircularBuffer<Slot>, row: u64) -> u32
    ensures { result ≡ block_of row (entries_of slots.now.items) }
{
    let mut block = 0;
    for at in 0..slots.len() {
        let slot = slot_at(slots, at);
        if slot.row == row {
            block = slot.block;
        }
    }
    block
}

/// What a load of the row and block may do.
pub fn answer_for(
    slots: &HeapCircularBuffer<Slot>,
    row: u64,
    block: u32,
    cycle: u64,
) -> Result<bool, u64>
    ensures { result ≡ answer_for cycle block row (entries_of slots.now.items) }
{
    let mut forbidding = None;
    let mut forwarded = false;
    let mut answer = Ok(false);
    for at in 0..slots.len() {
        let slot = slot_at(slots, at);
        if slot.row == row {
            answer = answered(forbidding, forwarded);
        }
        forbidding = or_this(forbidding, slot.forbids(cycle, block), slot.row);
        forwarded = either(slot.forwards(block), forwarded);
    }
    answer
}

/// How many slots, from the oldest on, are not above the row.
pub fn count_up_to(slots: &HeapCircularBuffer<Slot>, row: u64) -> usize
    ensures within { result ≤ length slots.now.items }
    ensures entries { entries_of (take result slots.now.items) ≡ up_to row (entries_of slots.now.items) }
{
    let mut count = 0;
    for at in 0..slots.len() {
        if slot_at(slots, at).row <= row {
            count = at + 1;
        }
    }
    count
}

/// How many of the oldest slots are below the row, by halving.
fn place_of(slots: &HeapCircularBuffer<Slot>, row: u64) -> usize
    requires { IsTrue (rises_from 0 slots.now.items) }
    ensures { result ≡ place_of row slots.now.items }
{
    let mut low = 0;
    let mut high = slots.len();
    'halves: while low < high {
        let middle = low + (high - low) / 2;
        let slot = slot_at(slots, middle);
        if slot.row < row {
            low = middle + 1;
        } else {
            high = middle;
        }
    }
    low
}

fn learn_at(slots: &mut HeapCircularBuffer<Slot>, at: usize, row: u64, cycle: u64, part: Part)
    requires { at < length slots.old.items }
    ensures { (x : Slot) → slice_get slots.old.items at ≡ Some x
        → slots.new ≡ buffer (slice_set slots.old.items at (learned row cycle part x)) slots.old.capacity }
{
    match slots.get_mut(at) {
        Some(slot) => slot.learn(row, cycle, part),
        None => unreachable!(),
    }
}

/// Notes of the row since when a part of it is known.
pub fn learn(slots: &mut HeapCircularBuffer<Slot>, row: u64, cycle: u64, part: Part)
    requires { IsTrue (rises_from 0 slots.old.items) }
    ensures { slots.new ≡ buffer (map (learned row cycle part) slots.old.items) slots.old.capacity }
{
    let at = place_of(slots, row);
    if at < slots.len() {
        learn_at(slots, at, row, cycle, part);
    }
}
