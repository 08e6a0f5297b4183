//! A row, and what is asked of it alone.
ghost use Rattle.std.specs.Prelude.{◌≡◌, ◌≤◌, ◌&&◌, ◌||◌, not, length, is_some, is_none, if◌then◌else◌};
ghost use Rattle.ooo_table.specs.Row.{is_at, is_before};
ghost use Rattle.ooo_table.specs.Execution.{unit_latency};

use arrayvec::ArrayVec;
use pisa_isa::{Instr, Place, UnitClass};
use std::marker::Model;

/// Places that an instruction reads or writes. Contracts see them as a list.
#[derive(Debug, Drop)]
pub struct Places {
    items: ArrayVec<Place, 3>,
}

impl Model for Places {
    ghost use Rattle.std.specs.Prelude.{List};
    ghost use Rattle.pisa_isa.specs.declared.places.Place.{Place};

    ghost Value = { List Place };

    ghost view = { λ p. p.items.items };
}

/// A fetched instruction with the cycles of what was done to it.
#[derive(Debug, Drop)]
pub struct Row {
    /// Its address.
    pub pc: u32,
    /// The address that was predicted to come next.
    pub predicted: u32,
    /// The top of the return stack right after the row's look-up.
    pub top: u32,
    /// Whether it is on the right path.
    pub right: bool,
    /// The cycle of its fetch.
    pub at: u64,
    /// The cycle at which its words are there.
    pub queued: u64,
    /// Its instruction, as the predictor sees it.
    pub instr: Instr,
    /// Whether it is right and can't be done.
    pub stops: bool,
    /// Whether it is right, and another instruction than the predicted one follows.
    pub mispredicted: bool,
    /// Whether it is right, and the program exits by it.
    pub exit: bool,
    /// Whether it is a branch or jump.
    pub control: bool,
    /// Whether it is taken.
    pub taken: bool,
    /// Whether it is a system call.
    pub call: bool,
    /// The address of the next instruction, where it is right or a branch or jump.
    pub next: u32,
    /// The unit of its main operation.
    pub unit: UnitClass,
    /// Whether it loads.
    pub load: bool,
    /// Whether it stores.
    pub store: bool,
    /// Its effective address, where it loads or stores.
    pub address: u32,
    /// The places that its main operation reads.
    pub main: Places,
    /// The places that it reads besides.
    pub second: Places,
    /// The places that it writes.
    pub writes: Places,
    /// The cycle of its dispatch.
    pub dispatched: Option<u64>,
    /// The cycle in which its main operation issued.
    pub issued: Option<u64>,
    /// The cycle in which its access issued.
    pub accessed: Option<u64>,
    /// The cycle at which its access is back.
    pub returned: Option<u64>,
    /// Whether an older store gave the value of its access.
    pub forwarded: bool,
    /// The cycle in which it committed.
    pub committed: Option<u64>,
    /// The cycle in which it was squashed.
    pub squashed: Option<u64>,
}

impl Places {
    /// These places.
    pub fn of(places: &[Place]) -> Places
        requires { length places.now ≤ 3 }
        ensures { result ≡ places.now }
    {
        let mut items = ArrayVec::new();
        for place in places {
            items.push(*place);
        }
        Places { items }
    }

    /// The places as a slice.
    pub fn as_slice(&self) -> &[Place]
        ensures { result.now ≡ self.now }
    {
        self.items.as_slice()
    }
}

/// Whether a mark is set to the cycle.
pub fn is_at(cycle: u64, mark: Option<u64>) -> bool
    ensures { result ≡ is_at cycle mark }
{
    match mark {
        Some(at) => at == cycle,
        None => false,
    }
}

/// Whether a mark is set to a cycle before.
pub fn is_before(cycle: u64, mark: Option<u64>) -> bool
    ensures { result ≡ is_before cycle mark }
{
    match mark {
        Some(at) => at < cycle,
        None => false,
    }
}

/// Whether a mark is set.
pub fn is_set(mark: Option<u64>) -> bool
    ensures { result ≡ is_some mark }
{
    match mark {
        Some(_) => true,
        None => false,
    }
}

/// Whether a mark isn't set.
pub fn is_unset(mark: Option<u64>) -> bool
    ensures { result ≡ is_none mark }
{
    match mark {
        Some(_) => false,
        None => true,
    }
}

pub fn either(a: bool, b: bool) -> bool
    ensures { result ≡ (a || b) }
{
    a || b
}

pub fn both(a: bool, b: bool) -> bool
    ensures { result ≡ (a && b) }
{
    a && b
}

/// From issue to write-back, in cycles.
pub fn unit_latency(unit: UnitClass) -> u64
    ensures { result ≡ unit_latency unit }
{
    match unit {
        UnitClass::Free | UnitClass::Alu => 1,
        UnitClass::Multiply => 3,
        UnitClass::Divide => 20,
    }
}

impl Row {
    ghost use Rattle.ooo_plain.specs.Kept.{written_of, is_live, is_waiting};

    /// Whether it loads or stores.
    pub fn uses_memory(&self) -> bool
        ensures { result ≡ (self.now.load || self.now.store) }
    {
        self.load || self.store
    }

    /// Whether it is written back in a cycle before.
    pub fn is_written_before(&self, cycle: u64) -> bool
        ensures { result ≡ is_before cycle (written_of self.now) }
    {
        match self.issued {
            None => false,
            Some(at) => u128::from(at) + u128::from(unit_latency(self.unit)) < u128::from(cycle),
        }
    }

    /// Whether it is written back in the cycle.
    pub fn is_written_at(&self, cycle: u64) -> bool
        ensures { result ≡ is_at cycle (written_of self.now) }
    {
        match self.issued {
            None => false,
            Some(at) => u128::from(at) + u128::from(unit_latency(self.unit)) == u128::from(cycle),
        }
    }

    /// Whether it is done before a cycle, if it isn't a store.
    pub fn is_finished_before(&self, cycle: u64) -> bool
        ensures { result ≡ is_before cycle (if self.now.load then self.now.returned else written_of self.now) }
    {
        if self.load {
            is_before(cycle, self.returned)
        } else {
            self.is_written_before(cycle)
        }
    }

    /// Whether it is dispatched, and neither committed nor squashed.
    pub fn is_live(&self) -> bool
        ensures { result ≡ is_live self.now }
    {
        self.dispatched.is_some() && self.committed.is_none() && self.squashed.is_none()
    }

    /// Whether it is live, and loads or stores.
    pub fn is_live_access(&self) -> bool
        ensures { result ≡ (is_live self.now && (self.now.load || self.now.store)) }
    {
        both(self.is_live(), self.uses_memory())
    }

    /// Whether it is neither dispatched nor squashed.
    pub fn is_waiting(&self) -> bool
        ensures { result ≡ is_waiting self.now }
    {
        self.dispatched.is_none() && self.squashed.is_none()
    }
}
