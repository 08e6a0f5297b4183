//! Steps that nobody observes, and of which no records are made.
ghost use Rattle.std.specs.Prelude.{◌≡◌, ◌≢◌, ◌+◌, ◌^◌, ◌<◌, ◌≤◌, ℕ, length, IfOk, IsOk};
ghost use Rattle.std.specs.Option.{ForSome};
ghost use Rattle.pisa_isa.specs.declared.instr.Op.TheVariants as op;
ghost use Rattle.pisa_isa.specs.Coding.{IsWellFormed};
ghost use Rattle.pisa_step.specs.Effect.{effect_of};
ghost use Rattle.pisa_step.specs.Proper.{IsProper};
ghost use Rattle.paged_mem.specs.Memory.{is_reserved, IsReserved, IsRangeReserved};
ghost use Rattle.sim_safe.specs.Progress.{FoundMemory};
ghost use Rattle.sim_safe.specs.Record.{IsRunTrace};
ghost use Rattle.sim_safe.specs.Run.{WriteReserved};
ghost use Rattle.sim_safe.specs.Skip.{Leaves, SkipState, SkipEnds};
ghost use Rattle.sim_safe.specs.State.{state_of, reader_of, range_of};
ghost use Rattle.sim_safe.specs.Step.{moved, executed, called, step_of, TakesNoMemory, StoreHeld};

use crate::arch::Arch;
use crate::record::{Progress, Stepped};
use event_trace::Trace;
use pisa_isa::{Instr, Op};
use pisa_step::{Changes, apply, effect};
use ss_base::OutOfMemory;

impl Arch {
    /// Makes the changes of an instruction, and goes on behind it.
    #[inline(always)]
    fn change(&mut self, e: &Changes)
        requires count { self.old.icnt + 1 < 2 ^ 62 }
        requires proper { IsProper (range_of self.old.text) e.now }
        requires held { ForSome e.now.mem (λ w. IsRangeReserved self.old.pages w.addr (length w.bytes.items)) }
        ensures after { state_of self.new ≡ moved (state_of self.old) e.now }
        ensures pages { is_reserved self.new.pages ≡ is_reserved self.old.pages }
    {
        let number = self.icnt;
        apply(self, e);
        self.pc = e.next;
        self.icnt = number + 1;
    }

    /// Does an instruction that is no system call, or nothing.
    #[inline(always)]
    fn pass(&mut self, instr: Instr) -> Progress
        requires count { self.old.icnt + 1 < 2 ^ 62 }
        requires no_call { instr.op ≢ Op.Syscall }
        requires formed { IsWellFormed instr }
        ensures step { Leaves (executed (state_of self.old) instr (effect_of (reader_of self.old) instr self.old.pc (range_of self.old.text))) self.old self.new result }
        ensures pages { (number : ℕ) → IsReserved self.old.pages number → IsReserved self.new.pages number }
        ensures memory { IfOk (effect_of (reader_of self.old) instr self.old.pc (range_of self.old.text)) (StoreHeld self.old.pages) → FoundMemory result }
    {
        let (pc, text) = (self.pc, self.text_range());
        let outcome = effect(self, &instr, pc, text);
        match &outcome {
            Err(cause) => Progress::Stopped(*cause),
            Ok(e) => match self.reserve_for(e) {
                Ok(()) => {
                    self.change(e);
                    Progress::Did
                }
                Err(_) => Progress::OutOfMemory,
            },
        }
    }

    /// Does a system call, or nothing.
    fn pass_call(&mut self, trace: &Trace, instr: Instr) -> Progress
        requires count { self.old.icnt + 1 < 2 ^ 62 }
        requires trace { IsRunTrace trace.now }
        ensures step { Leaves (called trace.now (state_of self.old) instr) self.old self.new result }
        ensures pages { (number : ℕ) → IsReserved self.old.pages number → IsReserved self.new.pages number }
        ensures memory { TakesNoMemory trace.now self.old.pages (called trace.now (state_of self.old) instr) → FoundMemory result }
    {
        match self.call(trace, instr) {
            Ok(Stepped::Did(_)) => Progress::Did,
            Ok(Stepped::Stop(cause)) => Progress::Stopped(cause),
            Err(_) => Progress::OutOfMemory,
        }
    }

    /// Does the next instruction over a trace, or nothing.
    #[inline(always)]
    fn pass_next(&mut self, trace: &Trace) -> Progress
        requires count { self.old.icnt + 1 < 2 ^ 62 }
        requires trace { IsRunTrace trace.now }
        ensures step { Leaves (step_of trace.now (state_of self.old)) self.old self.new result }
        ensures pages { (number : ℕ) → IsReserved self.old.pages number → IsReserved self.new.pages number }
        ensures memory { TakesNoMemory trace.now self.old.pages (step_of trace.now (state_of self.old)) → FoundMemory result }
    {
        match self.fetch() {
            Err(cause) => Progress::Stopped(cause),
            Ok(instr) => {
                if instr.op == Op::Syscall {
                    self.pass_call(trace, instr)
                } else {
                    self.pass(instr)
                }
            }
        }
    }

    /// Does up to `n` steps over a trace, and answers how many: fewer than `n` exactly where a step
    /// stops. No record of them is made.
    ///
    /// After want of memory the state is that after some of them. Where all that the steps write lies
    /// in reserved pages, it never wants any.
    pub fn skip(&mut self, trace: &Trace, n: u64) -> Result<u64, OutOfMemory>
        requires count { self.old.icnt + n < 2 ^ 62 }
        requires trace { IsRunTrace trace.now }
        ensures state { SkipState trace.now n (state_of self.old) (state_of self.new) result }
        ensures end { IfOk result (SkipEnds trace.now n (state_of self.old) (state_of self.new)) }
        ensures pages { (number : ℕ) → IsReserved self.old.pages number → IsReserved self.new.pages number }
        ensures memory { WriteReserved trace.now self.old.pages n (state_of self.old) → IsOk result }
    {
        for done in 0..n {
            match self.pass_next(trace) {
                Progress::Did => {}
                Progress::Stopped(_) => return Ok(done),
                Progress::OutOfMemory => return Err(OutOfMemory),
            }
        }
        Ok(n)
    }
}
