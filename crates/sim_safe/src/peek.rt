//! What the next step does, without its writes.
ghost use Rattle.std.specs.Prelude.{◌≡◌, ◌≢◌, true};
ghost use Rattle.pisa_isa.specs.declared.instr.Instr.{Instr};
ghost use Rattle.pisa_isa.specs.declared.instr.Op.TheVariants as op;
ghost use Rattle.pisa_isa.specs.Coding.{IsWellFormed};
ghost use Rattle.pisa_step.specs.Effect.{effect_of};
ghost use Rattle.sim_safe.specs.Record.{IsRunTrace};
ghost use Rattle.sim_safe.specs.Replay.{FitsCall};
ghost use Rattle.sim_safe.specs.State.{state_of, reader_of, range_of};
ghost use Rattle.sim_safe.specs.Step.{executed, replayed, unrecorded, called, step_of, peek_of};

use crate::arch::Arch;
use crate::record::{CallNote, Peek};
use event_trace::{CallKind, Record, Trace};
use pisa_isa::{Instr, Op};
use pisa_step::{Cause, effect};

impl Arch {
    /// What the next step over a trace does. It takes no memory.
    pub fn peek(&self, trace: &Trace) -> Peek
        requires { IsRunTrace trace.now }
        ensures { result ≡ peek_of (step_of trace.now (state_of self.now)) }
    {
        match self.fetch() {
            Err(cause) => Peek::Stop(cause),
            Ok(instr) => {
                if instr.op == Op::Syscall {
                    self.peek_call(trace)
                } else {
                    self.peek_plain(instr)
                }
            }
        }
    }

    /// What an instruction does that is no system call.
    fn peek_plain(&self, instr: Instr) -> Peek
        requires no_call { instr.op ≢ Op.Syscall }
        requires formed { IsWellFormed instr }
        ensures { result ≡ peek_of (executed (state_of self.now) instr (effect_of (reader_of self.now) instr self.now.pc (range_of self.now.text))) }
    {
        match effect(self, &instr, self.pc, self.text_range()) {
            Ok(_) => Peek::Plain(instr),
            Err(cause) => Peek::Stop(cause),
        }
    }

    /// What a system call does.
    fn peek_call(&self, trace: &Trace) -> Peek
        requires { IsRunTrace trace.now }
        ensures { (i : Instr) → result ≡ peek_of (called trace.now (state_of self.now) i) }
    {
        if !trace.file {
            return self.peek_unrecorded();
        }
        match self.next_record(trace) {
            Some(r) => self.peek_record(r),
            None => Peek::Stop(Cause::TraceEnd { used: self.used }),
        }
    }

    /// What a system call does without a trace.
    fn peek_unrecorded(&self) -> Peek
        ensures { (i : Instr) → result ≡ peek_of (unrecorded (state_of self.now) i) }
    {
        match self.exits() {
            Some(code) => Peek::Call(CallNote {
                used: 0,
                kind: CallKind::Exit,
                code,
            }),
            None => Peek::Stop(Cause::TraceEnd { used: self.used }),
        }
    }

    /// What a system call does by its record.
    fn peek_record(&self, r: &Record) -> Peek
        requires { FitsCall r.now }
        ensures { (i : Instr) → result ≡ peek_of (replayed (state_of self.now) i r.now) }
    {
        match self.refusal(r) {
            Some(cause) => Peek::Stop(cause),
            None => Peek::Call(CallNote {
                used: self.used,
                kind: r.kind,
                code: r.code,
            }),
        }
    }
}
