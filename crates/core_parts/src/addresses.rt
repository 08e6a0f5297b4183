//! The effective addresses of the loads and stores in flight.
ghost use Rattle.std.specs.Prelude.{◌≡◌, ◌<◌, ◌≤◌, ◌∷◌, [], length, reverse, take, slice_get, Some, IfOk, option_copied};
ghost use Rattle.core_parts.specs.Addresses.{address_of, pushed, retired, squashed, up_to};

use circular_buffer::HeapCircularBuffer;
use ss_base::OutOfMemory;
use std::alloc::Global;
use std::marker::Model;

/// A load or store in flight.
#[derive(Clone, Copy, Debug, PartialEq, Eq)]
pub struct MemoryRow {
    /// The number of its row.
    pub row: u64,
    /// It is a store.
    pub store: bool,
    /// Its effective address.
    pub addr: u32,
}

/// The loads and stores in flight with their addresses, the oldest first.
#[derive(Drop)]
pub struct Addresses {
    ring: HeapCircularBuffer<MemoryRow>,
}

impl Model for Addresses {
    ghost use Rattle.core_parts.specs.Addresses.{AddressList, shown};

    ghost Value = { AddressList };

    ghost view = { λ a. shown a.ring };
}

/// The row at a place.
fn row_at(ring: &HeapCircularBuffer<MemoryRow>, at: usize) -> MemoryRow
    requires { at < length ring.now.items }
    ensures { slice_get ring.now.items at ≡ Some result }
{
    match ring.get(at) {
        Some(row) => *row,
        None => unreachable!(),
    }
}

/// The address of a row, or 0 where it isn't held.
fn address_in(ring: &HeapCircularBuffer<MemoryRow>, row: u64) -> u32
    ensures { result ≡ address_of row (reverse ring.now.items) }
{
    let mut addr = 0;
    for at in 0..ring.len() {
        let held = row_at(ring, at);
        if held.row == row {
            addr = held.addr;
        }
    }
    addr
}

/// How many rows, from the oldest on, are not above the row.
fn count_up_to(ring: &HeapCircularBuffer<MemoryRow>, row: u64) -> usize
    ensures within { result ≤ length ring.now.items }
    ensures rows { reverse (take result ring.now.items) ≡ up_to row (reverse ring.now.items) }
{
    let mut count = 0;
    for at in 0..ring.len() {
        if row_at(ring, at).row <= row {
            count = at + 1;
        }
    }
    count
}

impl Addresses {
    /// Room for `size` rows, with all the memory that it will ever need. None is held.
    ///
    /// # Errors
    /// `OutOfMemory` where there is too little memory.
    pub fn new(alloc: Global, size: u32) -> Result<Addresses, OutOfMemory>
        ensures { IfOk result (λ addresses. addresses ≡ record { rows = []; size = size }) }
    {
        Ok(Addresses {
            ring: HeapCircularBuffer::with_capacity(alloc, size as usize)?,
        })
    }

    /// How many rows are held.
    pub fn len(&self) -> usize
        ensures { result ≡ length self.now.rows }
    {
        self.ring.len()
    }

    /// The row at a place, counted from the oldest.
    pub fn get(&self, at: usize) -> Option<&MemoryRow>
        ensures { option_copied result ≡ slice_get (reverse self.now.rows) at }
    {
        self.ring.get(at)
    }

    /// The address of a row, or 0 where it isn't held.
    pub fn address_of(&self, row: u64) -> u32
        ensures { result ≡ address_of row self.now.rows }
    {
        address_in(&self.ring, row)
    }

    /// Adds a row, the youngest.
    #[tactic(auto, using(crate::proofs::Walks::pushes))]
    pub fn push(&mut self, row: MemoryRow)
        requires { length self.old.rows < self.old.size }
        ensures { self.new ≡ pushed row self.old }
    {
        match self.ring.try_push_back(row) {
            Ok(()) => {}
            Err(_row) => unreachable!(),
        }
    }

    /// The oldest row leaves, if there is one.
    #[tactic(auto, using(crate::proofs::Walks::retires))]
    pub fn retire(&mut self)
        ensures { self.new ≡ retired self.old }
    {
        let _oldest = self.ring.pop_front();
    }

    /// Drops the youngest rows that are above this one.
    #[tactic(auto, using(crate::proofs::Walks::squashes))]
    pub fn squash_after(&mut self, row: u64)
        ensures { self.new ≡ squashed row self.old }
    {
        let count = count_up_to(&self.ring, row);
        self.ring.truncate_back(count);
    }
}
