//! The queue.
ghost use Rattle.std.specs.Prelude.{◌≡◌, ◌^◌, ◌<◌, ◌↔◌, true, Some, IsTrue, IfOk};
ghost use Rattle.lsq_core.specs.Queue.{HasRoom, rises_to, is_above, holds_load, holds_store, first_row, load_answer, empty, added, with_address, with_data, squashed, retired};

use crate::slots::{self, Part, Slot};
use circular_buffer::HeapCircularBuffer;
use ss_base::OutOfMemory;
use std::alloc::Global;
use std::marker::Model;

/// The loads and stores in flight, the oldest first, and the last row that was added.
#[derive(Drop)]
pub struct Lsq {
    pub(crate) slots: HeapCircularBuffer<Slot>,
    pub(crate) last: Option<u64>,
}

impl Model for Lsq {
    ghost use Rattle.std.specs.Prelude.{◌≡◌, true};
    ghost use Rattle.lsq_core.specs.Queue.{Queue, rises_to};
    ghost use Rattle.lsq_core.specs.Slots.{entries_of, queue_of};

    ghost Value = { Queue };

    ghost view = { λ q. queue_of q.slots q.last };

    ghost invariant = { λ q. rises_to q.last (entries_of q.slots.items) ≡ true };
}

impl Lsq {
    /// An empty queue for `size` rows, with all the memory that it will ever need.
    ///
    /// # Errors
    /// `OutOfMemory` where there is too little memory.
    pub fn new(alloc: Global, size: u32) -> Result<Lsq, OutOfMemory>
        ensures { IfOk result (λ queue. queue ≡ empty size) }
    {
        Ok(Lsq {
            slots: HeapCircularBuffer::with_capacity(alloc, size as usize)?,
            last: None,
        })
    }

    /// Whether fewer rows are held than there may be. At every moment their numbers rise.
    pub fn room(&self) -> bool
        ensures room { IsTrue result ↔ HasRoom self.now }
        ensures rises { rises_to self.now.last self.now.entries ≡ true }
    {
        self.slots.len() < self.slots.capacity()
    }

    /// Adds a load or store of the block, the youngest.
    pub fn add(&mut self, row: u64, store: bool, block: u32)
        requires room { HasRoom self.old }
        requires rises { IsTrue (is_above self.old.last row) }
        ensures { self.new ≡ added row store block self.old }
    {
        let slot = Slot {
            row,
            store,
            block,
            address: None,
            data_done: None,
        };
        match self.slots.try_push_back(slot) {
            Ok(()) => self.last = Some(row),
            Err(_slot) => unreachable!(),
        }
    }

    /// The address of the store is known from the cycle on. A second call for the row changes nothing.
    pub fn know_address(&mut self, row: u64, cycle: u64)
        requires held { IsTrue (holds_store row self.old.entries) }
        ensures { self.new ≡ with_address row cycle self.old }
    {
        slots::learn(&mut self.slots, row, cycle, Part::Address);
    }

    /// The data of the store are done from the cycle on. A second call for the row changes nothing.
    pub fn know_data(&mut self, row: u64, cycle: u64)
        requires held { IsTrue (holds_store row self.old.entries) }
        ensures { self.new ≡ with_data row cycle self.old }
    {
        slots::learn(&mut self.slots, row, cycle, Part::Data);
    }

    /// Whether an older store has the load's block, where no older store forbids the load at the cycle.
    ///
    /// # Errors
    /// The row of the oldest store that forbids it.
    pub fn load_may_issue(&self, row: u64, cycle: u64) -> Result<bool, u64>
        requires { IsTrue (holds_load row self.now.entries) }
        ensures { result ≡ load_answer cycle row self.now.entries }
    {
        let block = slots::block_of(&self.slots, row);
        slots::answer_for(&self.slots, row, block, cycle)
    }

    /// Drops every row above this one.
    pub fn squash_after(&mut self, row: u64)
        ensures { self.new ≡ squashed row self.old }
    {
        let count = slots::count_up_to(&self.slots, row);
        self.slots.truncate_back(count);
    }

    /// The row leaves, which is the oldest.
    pub fn retire(&mut self, row: u64)
        requires { first_row self.old.entries ≡ Some row }
        ensures { self.new ≡ retired self.old }
    {
        let _oldest = self.slots.pop_front();
    }
}
