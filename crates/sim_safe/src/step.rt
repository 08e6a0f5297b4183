//! One step of the machine.
ghost use Rattle.std.specs.Prelude.{◌≡◌, ◌≢◌, ◌+◌, ◌^◌, ◌<◌, ◌≤◌, ℕ, length, Some, OnOk, IsOk, IfOk, IfSome, MatchResult, None};
ghost use Rattle.std.specs.Option.{ForSome};
ghost use Rattle.pisa_isa.specs.declared.instr.Op.TheVariants as op;
ghost use Rattle.ecoff_load.specs.Fetch.{fetch};
ghost use Rattle.pisa_isa.specs.Coding.{IsWellFormed, decoded};
ghost use Rattle.pisa_step.specs.Effect.{effect_of, vec_of};
ghost use Rattle.pisa_step.specs.Proper.{IsProper};
ghost use Rattle.event_trace.specs.declared.trace.Trace.{Trace};
ghost use Rattle.paged_mem.specs.Memory.{is_reserved, IsReserved, IsRangeReserved};
ghost use Rattle.sim_safe.specs.Progress.{DoesInto, FoundMemory};
ghost use Rattle.sim_safe.specs.Record.{IsRunTrace};
ghost use Rattle.sim_safe.specs.State.{state_of, reader_of, range_of};
ghost use Rattle.sim_safe.specs.Step.{Halt, recorded, moved, executed, called, step_at, step_of, Steps, TakesNoMemory, StoreHeld};

use crate::arch::Arch;
use crate::record::{CommitRecord, Progress, Stepped};
use arrayvec::ArrayVec;
use event_trace::Trace;
use pisa_isa::{Instr, Op, decode};
use pisa_step::{Cause, Changes, MemWrite, apply, effect};
use ss_base::OutOfMemory;

impl Arch {
    /// What stands at the next address where it is decoded: an instruction, or words that code none.
    #[inline(always)]
    fn next_decoded(&self) -> Option<&Option<Instr>>
        ensures { IfSome result (λ found. (words : ℕ × ℕ) × (fetch self.now.text self.now.pc ≡ Some words) × (found.now ≡ decoded words.0 words.1)) }
    {
        let start = self.text.start;
        if self.pc < start || (self.pc - start) % 8 != 0 {
            return None;
        }
        self.instrs.as_slice().get(((self.pc - start) / 8) as usize)
    }

    /// The next instruction, of the words of the text, or why there is none.
    #[tactic(auto, unfolding(crate::specs::Step::step_of))]
    fn decode_next(&self) -> Result<Instr, Cause>
        requires { self.now.ended ≡ None }
        ensures step { MatchResult result
            (λ i. (trace : Trace) → step_of trace (state_of self.now) ≡ step_at trace (state_of self.now) i)
            (λ why. (trace : Trace) → step_of trace (state_of self.now) ≡ Halt why) }
        ensures formed { IfOk result IsWellFormed }
    {
        let Some((first, second)) = self.text.at(self.pc) else {
            return Err(Cause::BadFetch);
        };
        match decode(first, second) {
            Ok(instr) => Ok(instr),
            Err(_) => Err(Cause::Illegal),
        }
    }

    /// The next instruction, or why there is none.
    #[inline(always)]
    #[tactic(auto, unfolding(crate::specs::Step::step_of))]
    pub(crate) fn fetch(&self) -> Result<Instr, Cause>
        ensures step { MatchResult result
            (λ i. (trace : Trace) → step_of trace (state_of self.now) ≡ step_at trace (state_of self.now) i)
            (λ why. (trace : Trace) → step_of trace (state_of self.now) ≡ Halt why) }
        ensures formed { IfOk result IsWellFormed }
    {
        if let Some(code) = self.ended {
            return Err(Cause::Exited { code });
        }
        match self.next_decoded() {
            Some(Some(instr)) => Ok(*instr),
            Some(None) => Err(Cause::Illegal),
            None => self.decode_next(),
        }
    }

    /// Reserves the pages that an instruction writes, where they aren't reserved.
    #[inline(always)]
    pub(crate) fn reserve_for(&mut self, e: &Changes) -> Result<(), OutOfMemory>
        requires { ForSome e.now.mem (λ w. w.addr + length w.bytes.items ≤ 2 ^ 32) }
        ensures state { state_of self.new ≡ state_of self.old }
        ensures kept { (number : ℕ) → IsReserved self.old.pages number → IsReserved self.new.pages number }
        ensures ok { OnOk result (ForSome e.now.mem (λ w. IsRangeReserved self.new.pages w.addr (length w.bytes.items))) }
        ensures held { ForSome e.now.mem (λ w. IsRangeReserved self.old.pages w.addr (length w.bytes.items)) → IsOk result }
    {
        match &e.mem {
            Some(write) => self.reserve(write.addr, write.bytes.len() as u32),
            None => Ok(()),
        }
    }

    /// Makes the changes of an instruction, goes on behind it, and writes down what it did.
    #[inline(always)]
    fn commit(&mut self, instr: Instr, e: &Changes, record: &mut CommitRecord)
        requires count { self.old.icnt + 1 < 2 ^ 62 }
        requires proper { IsProper (range_of self.old.text) e.now }
        requires held { ForSome e.now.mem (λ w. IsRangeReserved self.old.pages w.addr (length w.bytes.items)) }
        ensures did { «record».new ≡ recorded (state_of self.old) instr e.now }
        ensures after { state_of self.new ≡ moved (state_of self.old) e.now }
        ensures pages { is_reserved self.new.pages ≡ is_reserved self.old.pages }
    {
        let (number, pc) = (self.icnt, self.pc);
        apply(self, e);
        self.pc = e.next;
        self.icnt = number + 1;
        set_registers(&mut record.regs, e.regs.as_slice());
        record.number = number;
        record.pc = pc;
        record.instr = instr;
        record.next = e.next;
        record.taken = e.taken;
        record.hi = e.hi;
        record.lo = e.lo;
        record.mem = copied(&e.mem);
        record.access = e.access;
        record.call = None;
    }

    /// Does an instruction that is no system call, or nothing.
    #[inline(always)]
    fn execute(&mut self, instr: Instr, record: &mut CommitRecord) -> Progress
        requires count { self.old.icnt + 1 < 2 ^ 62 }
        requires no_call { instr.op ≢ Op.Syscall }
        requires formed { IsWellFormed instr }
        ensures step { DoesInto (executed (state_of self.old) instr (effect_of (reader_of self.old) instr self.old.pc (range_of self.old.text))) self.old self.new «record».new result }
        ensures pages { (number : ℕ) → IsReserved self.old.pages number → IsReserved self.new.pages number }
        ensures memory { IfOk (effect_of (reader_of self.old) instr self.old.pc (range_of self.old.text)) (StoreHeld self.old.pages) → FoundMemory result }
    {
        let (pc, text) = (self.pc, self.text_range());
        let outcome = effect(self, &instr, pc, text);
        match &outcome {
            Err(cause) => Progress::Stopped(*cause),
            Ok(e) => match self.reserve_for(e) {
                Ok(()) => {
                    self.commit(instr, e, record);
                    Progress::Did
                }
                Err(_) => Progress::OutOfMemory,
            },
        }
    }

    /// Does a system call, or nothing.
    fn call_into(&mut self, trace: &Trace, instr: Instr, record: &mut CommitRecord) -> Progress
        requires count { self.old.icnt + 1 < 2 ^ 62 }
        requires trace { IsRunTrace trace.now }
        ensures step { DoesInto (called trace.now (state_of self.old) instr) self.old self.new «record».new result }
        ensures pages { (number : ℕ) → IsReserved self.old.pages number → IsReserved self.new.pages number }
        ensures memory { TakesNoMemory trace.now self.old.pages (called trace.now (state_of self.old) instr) → FoundMemory result }
    {
        match self.call(trace, instr) {
            Ok(Stepped::Did(did)) => {
                *record = did;
                Progress::Did
            }
            Ok(Stepped::Stop(cause)) => Progress::Stopped(cause),
            Err(_) => Progress::OutOfMemory,
        }
    }

    /// Does the next instruction over a trace and writes its record in place, or does nothing.
    #[inline(always)]
    pub(crate) fn step_into(&mut self, trace: &Trace, record: &mut CommitRecord) -> Progress
        requires count { self.old.icnt + 1 < 2 ^ 62 }
        requires trace { IsRunTrace trace.now }
        ensures step { DoesInto (step_of trace.now (state_of self.old)) self.old self.new «record».new result }
        ensures pages { (number : ℕ) → IsReserved self.old.pages number → IsReserved self.new.pages number }
        ensures memory { TakesNoMemory trace.now self.old.pages (step_of trace.now (state_of self.old)) → FoundMemory result }
    {
        match self.fetch() {
            Err(cause) => Progress::Stopped(cause),
            Ok(instr) => {
                if instr.op == Op::Syscall {
                    self.call_into(trace, instr, record)
                } else {
                    self.execute(instr, record)
                }
            }
        }
    }

    /// Does the next instruction over a trace, or nothing.
    ///
    /// A step that stops leaves everything as it was, and want of memory leaves the state as it
    /// was. Where all that it writes lies in reserved pages, it never wants memory.
    pub fn step(&mut self, trace: &Trace) -> Result<Stepped, OutOfMemory>
        requires count { self.old.icnt + 1 < 2 ^ 62 }
        requires trace { IsRunTrace trace.now }
        ensures step { Steps trace.now self.old self.new result }
        ensures pages { (number : ℕ) → IsReserved self.old.pages number → IsReserved self.new.pages number }
        ensures memory { TakesNoMemory trace.now self.old.pages (step_of trace.now (state_of self.old)) → IsOk result }
    {
        let mut did = CommitRecord::blank();
        match self.step_into(trace, &mut did) {
            Progress::Did => Ok(Stepped::Did(did)),
            Progress::Stopped(cause) => Ok(Stepped::Stop(cause)),
            Progress::OutOfMemory => Err(OutOfMemory),
        }
    }
}

/// Gives a vector these registers.
#[inline(always)]
fn set_registers(into: &mut ArrayVec<(u8, u32), 8>, registers: &[(u8, u32)])
    requires { length registers.now ≤ 8 }
    ensures { into.new ≡ vec_of registers.now }
{
    *into = ArrayVec::new();
    for item in registers {
        into.push(*item);
    }
}

/// The same write.
fn copied(mem: &Option<MemWrite>) -> Option<MemWrite>
    ensures { result ≡ mem.now }
{
    match mem {
        None => None,
        Some(write) => Some(MemWrite {
            addr: write.addr,
            bytes: bytes_of(write.bytes.as_slice()),
        }),
    }
}

/// A vector of the bytes of a slice.
fn bytes_of(bytes: &[u8]) -> ArrayVec<u8, 8>
    requires { length bytes.now ≤ 8 }
    ensures { result ≡ vec_of bytes.now }
{
    let mut all = ArrayVec::new();
    for byte in bytes {
        all.push(*byte);
    }
    all
}
