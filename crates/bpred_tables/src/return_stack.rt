//! The stack of return addresses.
ghost use Rattle.std.specs.Prelude.{◌≡◌, ◌<◌, ◌≤◌, List, [], ◌∷◌, length, IfOk};
ghost use Rattle.bpred_tables.specs.Stack.{Call, Push, Pop, SetTop, StackStands, top_after, popped};

use ss_base::OutOfMemory;
use std::alloc::Global;
use std::marker::Model;

/// The addresses in a ring of cells, and the number of the top cell.
#[derive(Debug, Drop)]
pub struct Ras {
    addresses: Vec<u32>,
    top: u32,
}

impl Model for Ras {
    ghost use Rattle.std.specs.Prelude.{length, ◌<◌, ◌≤◌};
    ghost use Rattle.bpred_tables.specs.Stack.{Ring};

    ghost Value = { Ring };

    ghost view = { λ stack. record { cells = stack.addresses.items; top = stack.top } };

    ghost invariant = { λ stack. (length stack.addresses.items ≤ 1024)
        × (stack.top < length stack.addresses.items) };
}

impl Ras {
    /// A stack of `size` cells, all 0, with cell 0 as the top.
    pub fn new(alloc: Global, size: u32) -> Result<Ras, OutOfMemory>
        requires some { 1 ≤ size }
        requires limit { size ≤ 1024 }
        ensures size { IfOk result (λ ras. length ras.cells ≡ size) }
        ensures start { IfOk result (λ ras. StackStands ras []) }
    {
        Ok(Ras {
            addresses: vec![in alloc; 0; size as usize]?,
            top: 0,
        })
    }

    /// The next cell becomes the top and holds `address`; the other cells stay.
    pub fn push(&mut self, address: u32)
        ensures size { length self.new.cells ≡ length self.old.cells }
        ensures pushed { (calls : List Call) → StackStands self.old calls
            → StackStands self.new (Push address ∷ calls) }
    {
        let count = self.addresses.len() as u32;
        self.top = (self.top + 1) % count;
        self.addresses[self.top as usize] = address;
    }

    /// What the top holds. The cell before it becomes the top; all cells stay.
    pub fn pop(&mut self) -> u32
        ensures answer { (calls : List Call) → StackStands self.old calls
            → result ≡ popped (length self.old.cells) calls }
        ensures size { length self.new.cells ≡ length self.old.cells }
        ensures popped { (calls : List Call) → StackStands self.old calls
            → StackStands self.new (Pop ∷ calls) }
    {
        let address = self.addresses[self.top as usize];
        let count = self.addresses.len() as u32;
        self.top = (self.top + count - 1) % count;
        address
    }

    /// The number of the top cell, below the size, for a later `set_top`.
    pub fn top(&self) -> u32
        ensures answer { (calls : List Call) → StackStands self.now calls
            → result ≡ top_after (length self.now.cells) calls }
        ensures within { result < length self.now.cells }
    {
        self.top
    }

    /// The cell of this number becomes the top; all cells stay.
    pub fn set_top(&mut self, cell: u32)
        requires within { cell < length self.old.cells }
        ensures size { length self.new.cells ≡ length self.old.cells }
        ensures set { (calls : List Call) → StackStands self.old calls
            → StackStands self.new (SetTop cell ∷ calls) }
    {
        self.top = cell;
    }
}
