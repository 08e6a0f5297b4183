//! What a dispatched row is.
ghost use Rattle.std.specs.Prelude.{◌≡◌};
ghost use Rattle.pisa_isa.specs.Coding.{IsWellFormed};
ghost use Rattle.ruu_core.specs.Window.{is_load_kind, is_store_kind, is_load, is_store, main_reads, second_reads, writes};

use arrayvec::ArrayVec;
use pisa_isa::{self, AccessKind, Instr, Place};
use sim_safe::CommitRecord;

/// A dispatched row, as it is from its dispatch on.
#[derive(Debug, Drop)]
pub struct Station {
    /// Its number: how many rows were fetched before it.
    pub row: u64,
    /// Its address.
    pub pc: u32,
    /// Its instruction, which is well formed.
    pub instr: Instr,
    /// It is on a wrong path and would stop: it has no operands, no unit and no access.
    pub inert: bool,
    /// It is on a wrong path.
    pub wrong: bool,
    /// The address that was predicted to come next.
    pub predicted: u32,
    /// The address that does come next.
    pub actual: u32,
    /// The top of the return stack, to which a recovery goes back.
    pub top: u32,
    /// What it did, where it is on the right path, and else none.
    pub commit: Option<CommitRecord>,
}

fn is_load_kind(kind: AccessKind) -> bool
    ensures { result ≡ is_load_kind kind }
{
    match kind {
        AccessKind::Load => true,
        _ => false,
    }
}

fn is_store_kind(kind: AccessKind) -> bool
    ensures { result ≡ is_store_kind kind }
{
    match kind {
        AccessKind::Store => true,
        _ => false,
    }
}

impl Station {
    /// Whether it counts as a load.
    pub fn is_load(&self) -> bool
        ensures { result ≡ is_load self.now }
    {
        !self.inert && is_load_kind(pisa_isa::access(self.instr.op))
    }

    /// Whether it counts as a store.
    pub fn is_store(&self) -> bool
        ensures { result ≡ is_store self.now }
    {
        !self.inert && is_store_kind(pisa_isa::access(self.instr.op))
    }

    /// The places that its main operation reads.
    pub fn main_reads(&self) -> ArrayVec<Place, 3>
        ensures { result.items ≡ main_reads self.now }
    {
        if self.inert {
            ArrayVec::new()
        } else {
            pisa_isa::reads_main(&self.instr)
        }
    }

    /// The places that it reads besides: the data of a store, what a merging load keeps.
    pub fn second_reads(&self) -> ArrayVec<Place, 2>
        requires { IsWellFormed self.now.instr }
        ensures { result.items ≡ second_reads self.now }
    {
        if self.inert {
            ArrayVec::new()
        } else {
            pisa_isa::reads_second(&self.instr)
        }
    }

    /// The places that it writes.
    pub fn writes(&self) -> ArrayVec<Place, 2>
        requires { IsWellFormed self.now.instr }
        ensures { result.items ≡ writes self.now }
    {
        if self.inert {
            ArrayVec::new()
        } else {
            pisa_isa::writes(&self.instr)
        }
    }
}
