//! Tables of two-bit saturating counters, and the places of instructions in tables.
ghost use Rattle.std.specs.Prelude.{◌≡◌, ◌<◌, ◌≤◌, length, replicate, slice_index, slice_set, IfOk};
ghost use Rattle.bpred_tables.specs.Updates.{place_in, counted, says_taken};

use ss_base::OutOfMemory;
use std::alloc::Global;
use std::marker::Model;

/// The place of the instruction at `pc` in a table of `size` entries.
pub fn index_in(size: usize, pc: u32) -> usize
    requires { 0 < size }
    ensures index { result ≡ place_in size pc }
    ensures within { result < size }
{
    (pc / 8) as usize % size
}

/// Counters that saturate at 0 and 3.
#[derive(Debug, Drop)]
pub struct Counters {
    cells: Vec<u8>,
}

impl Model for Counters {
    ghost use Rattle.std.specs.Prelude.{List, ℕ, ◌≤◌, slice_index};

    ghost Value = { List ℕ };

    ghost view = { λ c. c.cells.items };

    ghost invariant = { λ c. (k : ℕ) → slice_index c.cells.items k ≤ 3 };
}

impl Counters {
    /// So many counters, each at 1.
    pub fn new(alloc: Global, size: u32) -> Result<Counters, OutOfMemory>
        ensures { IfOk result (λ counters. counters ≡ replicate size 1) }
    {
        Ok(Counters {
            cells: vec![in alloc; 1; size as usize]?,
        })
    }

    /// How many counters there are.
    pub fn len(&self) -> usize
        ensures { result ≡ length self.now }
    {
        self.cells.len()
    }

    /// Whether the counter at this place stands for taken.
    pub fn is_taken(&self, at: usize) -> bool
        requires { at < length self.now }
        ensures { result ≡ says_taken (slice_index self.now at) }
    {
        self.cells[at] >= 2
    }

    /// The counter at this place goes up at `true` and down at `false`; all others stay.
    pub fn count(&mut self, at: usize, up: bool)
        requires { at < length self.old }
        ensures { self.new ≡ slice_set self.old at (counted up (slice_index self.old at)) }
    {
        let cell = self.cells[at];
        self.cells[at] = stepped(cell, up);
    }
}

/// The next value of a counter.
fn stepped(counter: u8, up: bool) -> u8
    requires { counter ≤ 3 }
    ensures next { result ≡ counted up counter }
    ensures within { result ≤ 3 }
{
    if up {
        (counter + 1).min(3)
    } else {
        counter.saturating_sub(1)
    }
}
