//! What is counted of a run, and its lines of text.
ghost use Rattle.std.specs.Prelude.{◌≡◌, ◌++◌, OnOk, OnErr, if◌then◌else◌};
ghost use Rattle.ss_base.specs.Outside.{BeginsWith};
ghost use Rattle.sim_safe.specs.Statistics.{no_statistics, load_count, store_count, branch_count, counted, at_most, IsCountable, count_line, counts_text};
ghost use Rattle.sim_safe.specs.Step.{is_call};

use crate::commit::push_bytes;
use pisa_isa::{AccessKind, ControlKind, Instr, Op, access, control};
use ss_base::{OutOfMemory, push_decimal};

/// How many instructions of each sort were done.
#[derive(Clone, Copy, Debug, PartialEq, Eq)]
pub struct Statistics {
    /// All instructions.
    pub insn: u64,
    /// Loads.
    pub loads: u64,
    /// Stores.
    pub stores: u64,
    /// Instructions that direct control: conditional branches, jumps, calls and returns.
    pub branches: u64,
    /// System calls.
    pub calls: u64,
}

impl Statistics {
    /// Nothing is counted.
    pub fn none() -> Statistics
        ensures { result ≡ no_statistics }
    {
        Statistics {
            insn: 0,
            loads: 0,
            stores: 0,
            branches: 0,
            calls: 0,
        }
    }

    /// Counts an instruction that was done. A count stands still at its type's end.
    #[inline(always)]
    pub fn count(&mut self, i: &Instr)
        ensures counts { self.new ≡ at_most (counted i.now self.old) }
        ensures exact { IsCountable self.old → self.new ≡ counted i.now self.old }
    {
        *self = self.with(i);
    }

    /// The counts with one more instruction.
    #[inline(always)]
    fn with(&self, i: &Instr) -> Statistics
        ensures { result ≡ at_most (counted i.now self.now) }
    {
        let accessed = access(i.op);
        Statistics {
            insn: self.insn.saturating_add(1),
            loads: self.loads.saturating_add(loads_in(accessed)),
            stores: self.stores.saturating_add(stores_in(accessed)),
            branches: self.branches.saturating_add(branches_in(control(i))),
            calls: self.calls.saturating_add(calls_in(i.op)),
        }
    }

    /// Adds the lines of how many instructions were skipped and of the counts. Want of memory leaves
    /// `into` as it was.
    pub fn push(&self, skipped: u64, into: &mut Vec<u8>) -> Result<(), OutOfMemory>
        ensures ok { OnOk result (into.new.items ≡ into.old.items ++ counts_text skipped self.now) }
        ensures err { OnErr result (into.new.items ≡ into.old.items) }
    {
        let length = into.len();
        let pushed = push_counts(into, skipped, self);
        if pushed.is_err() {
            into.truncate(length);
        }
        pushed
    }
}

/// How many loads an access is.
fn loads_in(accessed: AccessKind) -> u64
    ensures { result ≡ load_count accessed }
{
    u64::from(accessed == AccessKind::Load)
}

/// How many stores an access is.
fn stores_in(accessed: AccessKind) -> u64
    ensures { result ≡ store_count accessed }
{
    u64::from(accessed == AccessKind::Store)
}

/// How many instructions that direct control one of a kind is.
fn branches_in(directs: ControlKind) -> u64
    ensures { result ≡ branch_count directs }
{
    u64::from(directs != ControlKind::Nothing)
}

/// How many system calls an operation is.
fn calls_in(op: Op) -> u64
    ensures { result ≡ (if is_call op then 1 else 0) }
{
    u64::from(op == Op::Syscall)
}

/// Adds a line with a name and a number, or a front of it.
fn push_count(into: &mut Vec<u8>, name: &[u8], count: u64) -> Result<(), OutOfMemory>
    ensures ok { OnOk result (into.new.items ≡ into.old.items ++ count_line name.now count) }
    ensures err { OnErr result (BeginsWith into.new.items into.old.items) }
{
    push_bytes(into, name)?;
    push_bytes(into, b" ")?;
    push_decimal(into, count)?;
    push_bytes(into, b"\n")
}

/// Adds the lines of counts, or a front of them.
#[tactic(auto, using(ss_base::specs::Begins::begins_front))]
fn push_counts(into: &mut Vec<u8>, skipped: u64, s: &Statistics) -> Result<(), OutOfMemory>
    ensures ok { OnOk result (into.new.items ≡ into.old.items ++ counts_text skipped s.now) }
    ensures err { OnErr result (BeginsWith into.new.items into.old.items) }
{
    push_count(into, b"sim_skipped", skipped)?;
    push_count(into, b"sim_num_insn", s.insn)?;
    push_count(into, b"sim_num_loads", s.loads)?;
    push_count(into, b"sim_num_stores", s.stores)?;
    push_count(into, b"sim_num_branches", s.branches)?;
    push_count(into, b"sim_num_calls", s.calls)
}
