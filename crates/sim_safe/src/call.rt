//! System calls by their records.
ghost use Rattle.std.specs.Prelude.{◌≡◌, ◌≢◌, ◌+◌, ◌^◌, ◌<◌, ◌≤◌, ℕ, length, map, OnOk, IsOk, IsSome, MatchOption, Some, None, true, slice_get};
ghost use Rattle.std.specs.List.{flat_map};
ghost use Rattle.pisa_isa.specs.declared.instr.Op.TheVariants as op;
ghost use Rattle.pisa_step.specs.Reader.{with_regs, bytes_with, regs_after};
ghost use Rattle.pisa_step.specs.Effect.{vec_of};
ghost use Rattle.event_trace.specs.Grammar.{AreRegisters, AreBlocks, InTurn, IsRegister, next_register, IsBlock, next_block, IsRecord};
ghost use Rattle.paged_mem.specs.Memory.{byte_of, is_reserved, IsReserved, IsRangeReserved};
ghost use Rattle.sim_safe.specs.State.{reader_of, state_of, range_of, Agrees};
ghost use Rattle.sim_safe.specs.Record.{IsRunTrace};
ghost use Rattle.sim_safe.specs.Replay.{FitsCall, HeldFor};
ghost use Rattle.sim_safe.specs.Call.{register_compared, block_compared, bytes_compared, comparisons, mismatch, block_in_text, with_blocks, exit_of};
ghost use Rattle.sim_safe.specs.Step.{Outcome, unless, call_recorded, served, replayed, unrecorded, called, exit_asked, outcome_of, StepStays, Does, AreBlocksReserved, TakesNoMemory};

use crate::arch::Arch;
use crate::record::{CallNote, CommitRecord, Stepped};
use arrayvec::ArrayVec;
use event_trace::{Block, CallKind, Record, Trace};
use pisa_isa::Instr;
use pisa_step::{Cause, Field, Machine};
use ss_base::OutOfMemory;

impl Arch {
    /// The first of registers that doesn't hold what a record says.
    fn register_mismatch(&self, registers: &[(u8, u32)]) -> Option<Cause>
        requires { InTurn IsRegister next_register 1 registers.now }
        ensures { result ≡ mismatch (map (register_compared (reader_of self.now)) registers.now) }
    {
        for (register, kept) in registers {
            let found = self.reg(*register);
            if *kept != found {
                return Some(Cause::TraceMismatch {
                    field: Field::Reg(*register),
                    kept: u64::from(*kept),
                    found: u64::from(found),
                });
            }
        }
        None
    }

    /// The first of bytes from an address on that isn't what a record says.
    fn byte_mismatch(&self, addr: u32, bytes: &[u8]) -> Option<Cause>
        requires { addr + length bytes.now ≤ 2 ^ 32 }
        ensures { result ≡ mismatch (bytes_compared (reader_of self.now) addr bytes.now) }
    {
        for (k, kept) in bytes.iter().enumerate() {
            let place = addr + k as u32;
            let found = self.byte(place);
            if *kept != found {
                return Some(Cause::TraceMismatch {
                    field: Field::Byte(place),
                    kept: u64::from(*kept),
                    found: u64::from(found),
                });
            }
        }
        None
    }

    /// The first byte of blocks, in order, that isn't what a record says.
    fn block_mismatch(&self, blocks: &[Block]) -> Option<Cause>
        requires { InTurn IsBlock next_block 0 blocks.now }
        ensures { result ≡ mismatch (flat_map (block_compared (reader_of self.now)) blocks.now) }
    {
        for block in blocks {
            if let Some(cause) = self.byte_mismatch(block.addr, block.bytes.as_slice()) {
                return Some(cause);
            }
        }
        None
    }

    /// The first field of a record that differs from the machine.
    #[tactic(auto, using(crate::proofs::Calls::mismatch_append))]
    fn mismatch(&self, r: &Record) -> Option<Cause>
        requires ins { AreRegisters r.now.ins }
        requires in_blocks { AreBlocks r.now.in_blocks }
        ensures { result ≡ mismatch (comparisons (state_of self.now) r.now) }
    {
        if r.icnt != self.icnt {
            return Some(Cause::TraceMismatch {
                field: Field::Count,
                kept: r.icnt,
                found: self.icnt,
            });
        }
        if r.pc != self.pc {
            return Some(Cause::TraceMismatch {
                field: Field::Pc,
                kept: u64::from(r.pc),
                found: u64::from(self.pc),
            });
        }
        match self.register_mismatch(r.ins.as_slice()) {
            Some(cause) => Some(cause),
            None => self.block_mismatch(r.in_blocks.as_slice()),
        }
    }

    /// The first of blocks that meets text.
    fn block_in_text(&self, blocks: &[Block]) -> Option<Cause>
        requires { InTurn IsBlock next_block 0 blocks.now }
        ensures { result ≡ block_in_text (range_of self.now.text) blocks.now }
    {
        for block in blocks {
            if self.meets_text(block.addr, block.bytes.as_slice().len()) {
                return Some(Cause::TextWrite { addr: block.addr });
            }
        }
        None
    }

    /// Why a call isn't done by its record, if it isn't.
    pub(crate) fn refusal(&self, r: &Record) -> Option<Cause>
        requires ins { AreRegisters r.now.ins }
        requires in_blocks { AreBlocks r.now.in_blocks }
        requires out_blocks { AreBlocks r.now.out_blocks }
        ensures { (otherwise : Outcome) → unless result otherwise ≡ unless (mismatch (comparisons (state_of self.now) r.now)) (unless (block_in_text (range_of self.now.text) r.now.out_blocks) otherwise) }
    {
        match self.mismatch(r) {
            Some(cause) => Some(cause),
            None => self.block_in_text(r.out_blocks.as_slice()),
        }
    }

    /// Reserves the pages of blocks, where they aren't reserved.
    fn reserve_blocks(&mut self, blocks: &[Block]) -> Result<(), OutOfMemory>
        requires { InTurn IsBlock next_block 0 blocks.now }
        ensures state { state_of self.new ≡ state_of self.old }
        ensures kept { (number : ℕ) → IsReserved self.old.pages number → IsReserved self.new.pages number }
        ensures ok { OnOk result (AreBlocksReserved self.new.pages blocks.now) }
        ensures held { AreBlocksReserved self.old.pages blocks.now → IsOk result }
    {
        for block in blocks {
            self.reserve(block.addr, block.bytes.as_slice().len() as u32)?;
        }
        Ok(())
    }

    /// Sets registers to values, in order.
    fn write_registers(&mut self, registers: &[(u8, u32)])
        requires { InTurn IsRegister next_register 1 registers.now }
        ensures reads { reader_of self.new ≡ with_regs (reader_of self.old) registers.now }
        ensures agrees { Agrees self.old self.new }
    {
        for (register, value) in registers {
            self.set_reg(*register, *value);
        }
    }

    /// Writes blocks, in order.
    fn write_blocks(&mut self, blocks: &[Block])
        requires blocks { InTurn IsBlock next_block 0 blocks.now }
        requires held { AreBlocksReserved self.old.pages blocks.now }
        ensures reads { reader_of self.new ≡ with_blocks (reader_of self.old) blocks.now }
        ensures agrees { Agrees self.old self.new }
    {
        for block in blocks {
            self.write(block.addr, block.bytes.as_slice());
        }
    }

    /// The record of a call that writes registers.
    fn call_record(&self, instr: Instr, note: CallNote, registers: &[(u8, u32)]) -> CommitRecord
        requires { length registers.now ≤ 8 }
        ensures { result ≡ call_recorded (state_of self.now) instr note registers.now }
    {
        CommitRecord {
            number: self.icnt,
            pc: self.pc,
            instr,
            next: self.pc.wrapping_add(8),
            taken: false,
            regs: collected(registers),
            hi: None,
            lo: None,
            mem: None,
            access: None,
            call: Some(note),
        }
    }

    /// Does a call by its record.
    fn serve(&mut self, r: &Record, instr: Instr) -> CommitRecord
        requires count { self.old.icnt + 1 < 2 ^ 62 }
        requires used { self.old.used + 1 < 2 ^ 32 }
        requires outs { AreRegisters r.now.outs }
        requires out_blocks { AreBlocks r.now.out_blocks }
        requires held { AreBlocksReserved self.old.pages r.now.out_blocks }
        ensures did { result ≡ call_recorded (state_of self.old) instr (record { used = self.old.used; kind = r.now.kind; code = r.now.code }) r.now.outs }
        ensures after { state_of self.new ≡ served (state_of self.old) r.now }
        ensures pages { is_reserved self.new.pages ≡ is_reserved self.old.pages }
    {
        let note = CallNote {
            used: self.used,
            kind: r.kind,
            code: r.code,
        };
        let did = self.call_record(instr, note, r.outs.as_slice());
        self.write_registers(r.outs.as_slice());
        self.write_blocks(r.out_blocks.as_slice());
        self.pc = self.pc.wrapping_add(8);
        self.icnt += 1;
        self.used += 1;
        self.ended = exit_code(r.kind, r.code);
        did
    }

    /// Does a call by its record, or stops.
    fn replay(&mut self, r: &Record, instr: Instr) -> Result<Stepped, OutOfMemory>
        requires count { self.old.icnt + 1 < 2 ^ 62 }
        requires used { self.old.used + 1 < 2 ^ 32 }
        requires record { FitsCall r.now }
        ensures step { Does (replayed (state_of self.old) instr r.now) self.old self.new result }
        ensures pages { (number : ℕ) → IsReserved self.old.pages number → IsReserved self.new.pages number }
        ensures memory { HeldFor self.old.pages r.now (replayed (state_of self.old) instr r.now) → IsOk result }
    {
        if let Some(cause) = self.refusal(r) {
            return Ok(Stepped::Stop(cause));
        }
        match self.reserve_blocks(r.out_blocks.as_slice()) {
            Ok(()) => Ok(Stepped::Did(self.serve(r, instr))),
            Err(_) => Err(OutOfMemory),
        }
    }

    /// The exit code of a call without a trace, if it is an exit.
    pub(crate) fn exits(&self) -> Option<u32>
        ensures { result ≡ exit_asked (state_of self.now) }
    {
        if self.reg(2) == 1 {
            Some(self.reg(4))
        } else {
            None
        }
    }

    /// Does a call without a trace: an exit, or nothing.
    fn call_unrecorded(&mut self, instr: Instr) -> Stepped
        requires { self.old.icnt + 1 < 2 ^ 62 }
        ensures step { outcome_of result (state_of self.new) ≡ unrecorded (state_of self.old) instr }
        ensures stays { StepStays result self.old self.new }
        ensures pages { self.new.pages ≡ self.old.pages }
    {
        let Some(code) = self.exits() else {
            return Stepped::Stop(Cause::TraceEnd { used: self.used });
        };
        let note = CallNote {
            used: 0,
            kind: CallKind::Exit,
            code,
        };
        let did = self.call_record(instr, note, &[]);
        self.pc = self.pc.wrapping_add(8);
        self.icnt += 1;
        self.ended = Some(code);
        Stepped::Did(did)
    }

    /// The next record of a trace, if one is left.
    pub(crate) fn next_record<'a>(&self, trace: &'a Trace) -> Option<&'a Record>
        requires trace { IsRunTrace trace.now }
        requires file { trace.now.file ≡ true }
        ensures next { MatchOption result (slice_get trace.now.records self.now.used ≡ None) (λ r. slice_get trace.now.records self.now.used ≡ Some r.now) }
        ensures used { IsSome result → self.now.used + 1 < 2 ^ 32 }
    {
        trace.records.as_slice().get(self.used as usize)
    }

    /// Does a call over a trace, or nothing.
    pub(crate) fn call(&mut self, trace: &Trace, instr: Instr) -> Result<Stepped, OutOfMemory>
        requires count { self.old.icnt + 1 < 2 ^ 62 }
        requires trace { IsRunTrace trace.now }
        ensures step { Does (called trace.now (state_of self.old) instr) self.old self.new result }
        ensures pages { (number : ℕ) → IsReserved self.old.pages number → IsReserved self.new.pages number }
        ensures memory { TakesNoMemory trace.now self.old.pages (called trace.now (state_of self.old) instr) → IsOk result }
    {
        if !trace.file {
            return Ok(self.call_unrecorded(instr));
        }
        match self.next_record(trace) {
            Some(r) => self.replay(r, instr),
            None => Ok(Stepped::Stop(Cause::TraceEnd { used: self.used })),
        }
    }
}

/// The exit code that a call of a kind leaves.
fn exit_code(kind: CallKind, code: u32) -> Option<u32>
    ensures { result ≡ exit_of kind code }
{
    match kind {
        CallKind::Plain | CallKind::Emit => None,
        CallKind::Exit => Some(code),
    }
}

/// A vector of register writes.
pub(crate) fn collected(registers: &[(u8, u32)]) -> ArrayVec<(u8, u32), 8>
    requires { length registers.now ≤ 8 }
    ensures { result ≡ vec_of registers.now }
{
    let mut all = ArrayVec::new();
    for item in registers {
        all.push(*item);
    }
    all
}
