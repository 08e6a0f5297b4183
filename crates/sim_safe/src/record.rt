//! What an instruction did, and what a step answers.
use arrayvec::ArrayVec;
use event_trace::CallKind;
use pisa_isa::{Instr, Op};
use pisa_step::{Cause, MemWrite};

/// What is noted of a system call.
#[derive(Clone, Copy, Debug, PartialEq, Eq)]
pub struct CallNote {
    /// The number of its record, counted from 0; 0 where there is no trace.
    pub used: u32,
    /// What it does besides its reads and writes.
    pub kind: CallKind,
    /// The exit code, 0 where it is no exit.
    pub code: u32,
}

/// What an instruction did.
#[derive(Debug, PartialEq, Eq, Drop)]
pub struct CommitRecord {
    /// How many instructions were done before it.
    pub number: u64,
    /// Its address.
    pub pc: u32,
    /// The instruction.
    pub instr: Instr,
    /// The address of the next instruction.
    pub next: u32,
    /// It is a jump, or a branch whose condition holds.
    pub taken: bool,
    /// The registers that it wrote with their values: numbers from 1 to 31, rising.
    pub regs: ArrayVec<(u8, u32), 8>,
    /// The value that HI got.
    pub hi: Option<u32>,
    /// The value that LO got.
    pub lo: Option<u32>,
    /// What a store wrote to memory.
    pub mem: Option<MemWrite>,
    /// The effective address of a load or store.
    pub access: Option<u32>,
    /// What is noted of a system call. The blocks that it wrote stay in the trace.
    pub call: Option<CallNote>,
}

impl CommitRecord {
    /// A record that is still to be written.
    pub(crate) fn blank() -> CommitRecord {
        CommitRecord {
            number: 0,
            pc: 0,
            instr: Instr {
                op: Op::Nop,
                rs: 0,
                rt: 0,
                rd: 0,
                shamt: 0,
                imm: 0,
                target: 0,
            },
            next: 0,
            taken: false,
            regs: ArrayVec::new(),
            hi: None,
            lo: None,
            mem: None,
            access: None,
            call: None,
        }
    }
}

/// What the next step does.
#[derive(Clone, Copy, Debug, PartialEq, Eq)]
pub enum Peek {
    /// It does this instruction, which is no system call.
    Plain(Instr),
    /// It does a system call, of which this is noted.
    Call(CallNote),
    /// It stops.
    Stop(Cause),
}

/// What a step did.
#[derive(Debug, PartialEq, Eq, Drop)]
pub enum Stepped {
    /// An instruction was done.
    Did(CommitRecord),
    /// Nothing was done, for this cause.
    Stop(Cause),
}

/// What a step did whose record is written in place.
#[derive(Drop)]
pub(crate) enum Progress {
    /// An instruction was done, and the record tells of it.
    Did,
    /// Nothing was done, for this cause.
    Stopped(Cause),
    /// A growth found no memory.
    OutOfMemory,
}
