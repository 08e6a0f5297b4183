//! What a trace is: records of calls, with what they read and wrote.
ghost use Rattle.std.specs.Prelude.{◌≡◌, ◌≢◌, ◌↔◌, ◌++◌, [], ◌∷◌, length, true, false, OnOk, OnErr};
ghost use Rattle.event_trace.specs.Grammar.{absent_trace};

use ss_base::{Bytes, OutOfMemory};
use std::alloc::Global;
use std::marker::Model;

/// What a call does besides its reads and writes of registers and memory.
#[derive(Clone, Copy, Debug, PartialEq, Eq)]
pub enum CallKind {
    /// Nothing else.
    Plain,
    /// The bytes of its input blocks are output of the program.
    Emit,
    /// The program ends.
    Exit,
}

/// Bytes of memory at an address.
#[derive(Debug, Drop)]
pub struct Block {
    /// The address of the first byte.
    pub addr: u32,
    /// The bytes, 1 to 65,536 in a trace that was read.
    pub bytes: Bytes,
}

/// Registers with their values, in the order of the file. Contracts see them as a list.
#[derive(Debug, Drop)]
pub struct Registers {
    items: Vec<(u8, u32)>,
}

/// Blocks in the order of the file. Contracts see them as a list.
#[derive(Debug, Drop)]
pub struct Blocks {
    items: Vec<Block>,
}

/// One recorded call.
#[derive(Debug, Drop)]
pub struct Record {
    /// How many instructions were done before the call.
    pub icnt: u64,
    /// The address of the call's instruction.
    pub pc: u32,
    /// What the call does.
    pub kind: CallKind,
    /// The exit code, 0 where the call is no exit.
    pub code: u32,
    /// The registers that the call read, rising.
    pub ins: Registers,
    /// The memory that it read.
    pub in_blocks: Blocks,
    /// The registers that it wrote, rising.
    pub outs: Registers,
    /// The memory that it wrote.
    pub out_blocks: Blocks,
}

/// Records in the order of the run. Contracts see them as a list.
#[derive(Debug, Drop)]
pub struct Records {
    items: Vec<Record>,
}

/// The recorded calls of a run.
#[derive(Debug, Drop)]
pub struct Trace {
    /// Whether there is a trace file. Without one no call is recorded.
    pub file: bool,
    /// The version of the file's format, 1 or 2.
    pub version: u8,
    /// Whether the trace is of a big-endian run.
    pub big: bool,
    /// The calls.
    pub records: Records,
}

impl Model for Registers {
    ghost use Rattle.std.specs.Prelude.{List, ℕ};

    ghost Value = { List (ℕ × ℕ) };

    ghost view = { λ r. r.items.items };
}

impl Registers {
    /// The registers of a `Vec`.
    pub fn from_vec(items: Vec<(u8, u32)>) -> Registers
        ensures { result ≡ items.items }
    {
        Registers { items }
    }

    /// The registers as a slice.
    pub fn as_slice(&self) -> &[(u8, u32)]
        ensures { result.now ≡ self.now }
    {
        self.items.as_slice()
    }
}

impl Model for Blocks {
    ghost use Rattle.std.specs.Prelude.{List};
    ghost use Rattle.event_trace.specs.declared.trace.Block.{Block};

    ghost Value = { List Block };

    ghost view = { λ b. b.items.items };
}

impl Blocks {
    /// The blocks of a `Vec`.
    pub fn from_vec(items: Vec<Block>) -> Blocks
        ensures { result ≡ items.items }
    {
        Blocks { items }
    }

    /// The blocks as a slice.
    pub fn as_slice(&self) -> &[Block]
        ensures { result.now ≡ self.now }
    {
        self.items.as_slice()
    }
}

impl Model for Records {
    ghost use Rattle.std.specs.Prelude.{List};
    ghost use Rattle.event_trace.specs.declared.trace.Record.{Record};

    ghost Value = { List Record };

    ghost view = { λ r. r.items.items };
}

impl Records {
    /// How many records there are.
    pub(crate) fn len(&self) -> usize
        ensures { result ≡ length self.now }
    {
        self.items.len()
    }

    /// Adds a record.
    pub(crate) fn push(&mut self, call: Record) -> Result<(), OutOfMemory>
        ensures ok { OnOk result (self.new ≡ self.old ++ call ∷ []) }
        ensures err { OnErr result (self.new ≡ self.old) }
    {
        self.items.push(call)?;
        Ok(())
    }

    /// The records of a `Vec`.
    pub fn from_vec(items: Vec<Record>) -> Records
        ensures { result ≡ items.items }
    {
        Records { items }
    }

    /// The records as a slice.
    pub fn as_slice(&self) -> &[Record]
        ensures { result.now ≡ self.now }
    {
        self.items.as_slice()
    }
}

impl Trace {
    /// What stands for a trace where no file was given: no records, version 1, little-endian. It
    /// takes no memory.
    pub fn absent(alloc: Global) -> Trace
        ensures { result ≡ absent_trace }
    {
        Trace {
            file: false,
            version: 1,
            big: false,
            records: Records::from_vec(Vec::new(alloc)),
        }
    }

    /// Whether the trace can belong to an object of this byte order. False exactly where there is a
    /// file and it is of the other order.
    pub fn agrees(&self, big: bool) -> bool
        ensures { result ≡ false ↔ (self.now.file ≡ true) × (self.now.big ≢ big) }
    {
        !self.file || self.big == big
    }
}
