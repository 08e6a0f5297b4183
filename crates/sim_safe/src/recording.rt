//! Runs that are recorded: each call that finds no record left is answered by the closed world.
ghost use Rattle.std.specs.Prelude.{◌≡◌, ◌+◌, ◌^◌, ◌≤◌, ℕ, List, ◌∷◌, true, IfOk};
ghost use Rattle.paged_mem.specs.Memory.{IsReserved};
ghost use Rattle.event_trace.specs.Recorder.{next_count};
ghost use Rattle.sim_safe.specs.State.{state_of};
ghost use Rattle.sim_safe.specs.Record.{Item, IsRunTrace};
ghost use Rattle.sim_safe.specs.Observed.{RunCounts, RunMemory, RunTook};
ghost use Rattle.sim_safe.specs.Recording.{is_trace_end, is_end_of_trace, wants_record, AreRecorded, Prepares, Records, RecordState};
ghost use Rattle.sim_safe.specs.Step.{step_of};

use crate::arch::Arch;
use crate::observer::{Advance, Observer, RunEnd, RunFault};
use crate::record::Peek;
use event_trace::Recorder;
use pisa_step::Cause;
use ss_base::OutOfMemory;
use std::alloc::Global;

/// How a run that is recorded ends.
#[derive(Clone, Copy, Debug, PartialEq, Eq)]
pub enum RecordEnd {
    /// As the run over the recorded trace.
    Run(RunEnd),
    /// Before a call whose record would bring the trace above its limits.
    Full,
}

/// Whether a cause is that no record is left.
fn is_end(cause: Cause) -> bool
    ensures { result ≡ is_trace_end cause }
{
    matches!(cause, Cause::TraceEnd { .. })
}

/// Whether a call finds no record left.
fn wants(peek: Peek) -> bool
    ensures { result ≡ is_end_of_trace peek }
{
    match peek {
        Peek::Plain(_) | Peek::Call(_) => false,
        Peek::Stop(cause) => is_end(cause),
    }
}

impl Arch {
    /// Has the next step's call recorded, where the trace has no record for it. False where the
    /// trace is full. The recorder is then as it was, and so it is where memory runs out.
    #[tactic(auto, using(crate::proofs::Recorded::ready_without, crate::proofs::Recorded::ready_with, crate::proofs::Recorded::takes_file))]
    fn prepare(&self, alloc: Global, recorder: &mut Recorder) -> Result<bool, OutOfMemory>
        requires count { self.now.icnt ≤ 10 ^ 15 }
        requires rising { next_count 0 recorder.old.trace.records ≤ self.now.icnt }
        ensures ready { Prepares recorder.old recorder.new (state_of self.now) result }
        ensures file { recorder.new.trace.file ≡ true }
        ensures rising { IfOk result (λ _. next_count 0 recorder.new.trace.records ≤ self.now.icnt + 1) }
    {
        if !wants(self.peek(recorder.trace())) {
            return Ok(true);
        }
        let registers = self.registers();
        recorder.serve(alloc, self.icnt, self.pc, &registers, &self.mem)
    }

    /// Does up to `n` steps as `run` does over the trace of a recorder, which gets a record of each
    /// call that finds none left: so the run over the trace that it leaves does the same, shows the
    /// same, and ends in the same way.
    ///
    /// `Full` comes where the record of the next call would bring the trace above its limits. The
    /// run over the trace then stops at that call, since no record is left.
    ///
    /// After a fault the state is that after the steps that were done, and the run over the trace
    /// that is left does them again. They are the first steps of the whole recording, the one
    /// without a fault: the run over its trace begins with what was shown, and comes to this state.
    ///
    /// The recorder has answered the calls of the steps that were done, and its world is the one after
    /// them; a trace that was full, or memory that was wanting for a record, leaves it as it was. Where
    /// memory was wanting for a step's writes, it may have answered the call of that step, too.
    ///
    /// Where all that the steps write lies in reserved pages and each call finds its record, the run
    /// itself finds memory; over an observer that takes none it then never wants any.
    #[tactic(auto, using(crate::proofs::Steps::items_none, crate::proofs::Steps::reaches_none, crate::proofs::Steps::after_all, crate::proofs::Steps::end_all, crate::proofs::Recorders::goes_on_none))]
    pub fn record<O: Observer>(
        &mut self,
        alloc: Global,
        recorder: &mut Recorder,
        n: u64,
        o: &mut O,
    ) -> Result<RecordEnd, RunFault<O::Fault>>
        requires count { self.old.icnt + n ≤ 10 ^ 15 }
        requires rising { next_count 0 recorder.old.trace.records ≤ self.old.icnt }
        ensures trace { Records n recorder.old (state_of self.old) recorder.new (state_of self.new) result }
        ensures took { (start : O) (h : List Item) → O.took start h o.old → RunTook O.took O.cut recorder.new.trace n (state_of self.old) (state_of self.new) start h o.new result }
        ensures state { RecordState recorder.new.trace n (state_of self.old) (state_of self.new) result }
        ensures count { RunCounts O.means (O.faults o.old) (O.faults o.new) result }
        ensures pages { (number : ℕ) → IsReserved self.old.pages number → IsReserved self.new.pages number }
        ensures memory { RunMemory O.takes_no_memory O.means (AreRecorded recorder.new.trace self.old.pages n (state_of self.old)) o.old o.new result }
    {
        if n == 0 {
            return Ok(RecordEnd::Run(RunEnd::Limit));
        }
        for done in 0..n {
            match self.prepare(alloc, recorder) {
                Ok(true) => {}
                Ok(false) => return Ok(RecordEnd::Full),
                Err(_) => return Err(RunFault::OutOfMemory),
            }
            match self.advance(recorder.trace(), o) {
                Advance::Going => {}
                Advance::Ended(cause) => return Ok(RecordEnd::Run(RunEnd::Stop(cause))),
                Advance::Failed(fault) => return Err(fault),
            }
        }
        match self.ended() {
            Some(code) => Ok(RecordEnd::Run(RunEnd::Stop(Cause::Exited { code }))),
            None => Ok(RecordEnd::Run(RunEnd::Limit)),
        }
    }
}
