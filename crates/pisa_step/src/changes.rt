use arrayvec::ArrayVec;

/// A range of addresses that is never written: from `start` up to but not including `end`.
#[derive(Clone, Copy, Debug, PartialEq, Eq)]
pub struct TextRange {
    /// Its first address.
    pub start: u32,
    /// The first address behind it. Where it isn't above `start` the range is empty.
    pub end: u32,
}

/// A write of one to eight bytes.
#[derive(Debug, PartialEq, Eq, Drop)]
pub struct MemWrite {
    /// The address of the first byte.
    pub addr: u32,
    /// The bytes, lowest address first.
    pub bytes: ArrayVec<u8, 8>,
}

/// What an instruction changes.
#[derive(Debug, PartialEq, Eq, Drop)]
pub struct Changes {
    /// The address of the next instruction.
    pub next: u32,
    /// It is a jump, or a branch whose condition holds, also where the target is the instruction
    /// behind it.
    pub taken: bool,
    /// The registers that are written with their values: numbers from 1 to 31, rising.
    pub regs: ArrayVec<(u8, u32), 2>,
    /// The value that HI gets, or None where HI stays.
    pub hi: Option<u32>,
    /// The value that LO gets, or None where LO stays.
    pub lo: Option<u32>,
    /// The write to memory, or None where there is none.
    pub mem: Option<MemWrite>,
    /// The effective address of a load or store, or None for every other instruction.
    pub access: Option<u32>,
}
