//! Runs of many steps, and those who watch them.
ghost use Rattle.std.specs.Prelude.{◌≡◌, ◌+◌, ◌^◌, ◌<◌, ℕ, List, [], ◌∷◌};
ghost use Rattle.sim_safe.specs.declared.observer.Meaning.{Meaning};
ghost use Rattle.sim_safe.specs.Record.{Item, IsRunTrace, item_of};
ghost use Rattle.paged_mem.specs.Memory.{IsReserved};
ghost use Rattle.sim_safe.specs.Observed.{SawCounts, Saw, SawWithoutMemory, RunCounts, RunMemory, RunTook, RunState};
ghost use Rattle.sim_safe.specs.Advance.{AdvanceCounts, AdvanceMemory, AdvanceState, AdvanceTook};
ghost use Rattle.sim_safe.specs.Run.{WriteReserved};
ghost use Rattle.sim_safe.specs.State.{state_of};
ghost use Rattle.sim_safe.specs.Step.{step_of, TakesNoMemory};

use crate::arch::Arch;
use crate::record::{CommitRecord, Progress};
use event_trace::Trace;
use pisa_step::Cause;

/// What a fault of an observer comes from.
#[derive(Clone, Copy, Debug, PartialEq, Eq)]
pub enum Meaning {
    /// A call of the shelf failed.
    Shelf,
    /// A put to a stream failed.
    Sink,
    /// A growth found no memory.
    Memory,
}

/// Watches a run: it is shown the record of each instruction that is done, in order.
pub trait Observer {
    /// Why it can't go on.
    type Fault;

    /// From the first value to the last it has taken this list, newest item first.
    ghost took: { Self → List Item → Self → Type 0 };

    /// From the first value to the last it was cut within this list.
    ghost cut: { Self → List Item → Self → Type 0 };

    /// How often the shelf failed, and how often the streams did.
    ghost faults: { Self → ℕ × ℕ };

    /// What a fault comes from.
    ghost means: { Self.Fault → Meaning };

    /// It takes no memory, now and from now on: no call fails with a fault that means memory. An
    /// observer that doesn't say may take some at each call.
    ghost takes_no_memory: { Self → Type 0 } = { λ _. ⊥ };

    /// Takes the record of an instruction that was done over a trace.
    fn saw(&mut self, r: &CommitRecord, trace: &Trace) -> Result<(), Self::Fault>
        requires { IsRunTrace trace.now }
        ensures took { (start : Self) (h : List Item) → took start h self.old → Saw took cut start (item_of trace.now r.now ∷ h) self.new result }
        ensures count { SawCounts means (faults self.old) (faults self.new) result }
        ensures memory { takes_no_memory self.old → SawWithoutMemory takes_no_memory means self.new result };

    /// A value that has taken nothing is as it was.
    ghost took_none: { (o : Self) → took o [] o };
}

/// How a run ends.
#[derive(Clone, Copy, Debug, PartialEq, Eq)]
pub enum RunEnd {
    /// As many instructions were done as it may do, and the last was no exit.
    Limit,
    /// It stopped.
    Stop(Cause),
}

/// Why a run was given up.
#[derive(Clone, Copy, Debug, PartialEq, Eq, Drop)]
pub enum RunFault<F> {
    /// The observer couldn't go on.
    Watch(F),
    /// A growth found no memory.
    OutOfMemory,
}

/// What one step of a run comes to.
#[derive(Drop)]
pub(crate) enum Advance<F> {
    Going,
    Ended(Cause),
    Failed(RunFault<F>),
}

impl Arch {
    /// Does one step, and shows it to an observer.
    pub(crate) fn advance<O: Observer>(&mut self, trace: &Trace, o: &mut O) -> Advance<O::Fault>
        requires count { self.old.icnt + 1 < 2 ^ 62 }
        requires trace { IsRunTrace trace.now }
        ensures took { (start : O) (h : List Item) → O.took start h o.old → AdvanceTook O.took O.cut trace.now (state_of self.old) (state_of self.new) start h o.new result }
        ensures state { AdvanceState trace.now (state_of self.old) (state_of self.new) result }
        ensures count { AdvanceCounts O.means (O.faults o.old) (O.faults o.new) result }
        ensures pages { (number : ℕ) → IsReserved self.old.pages number → IsReserved self.new.pages number }
        ensures memory { AdvanceMemory O.takes_no_memory O.means (TakesNoMemory trace.now self.old.pages (step_of trace.now (state_of self.old))) o.old o.new result }
    {
        let mut did = CommitRecord::blank();
        self.advance_with(trace, o, &mut did)
    }

    /// Does the same with a place for the record.
    #[inline(always)]
    fn advance_with<O: Observer>(
        &mut self,
        trace: &Trace,
        o: &mut O,
        did: &mut CommitRecord,
    ) -> Advance<O::Fault>
        requires count { self.old.icnt + 1 < 2 ^ 62 }
        requires trace { IsRunTrace trace.now }
        ensures took { (start : O) (h : List Item) → O.took start h o.old → AdvanceTook O.took O.cut trace.now (state_of self.old) (state_of self.new) start h o.new result }
        ensures state { AdvanceState trace.now (state_of self.old) (state_of self.new) result }
        ensures count { AdvanceCounts O.means (O.faults o.old) (O.faults o.new) result }
        ensures pages { (number : ℕ) → IsReserved self.old.pages number → IsReserved self.new.pages number }
        ensures memory { AdvanceMemory O.takes_no_memory O.means (TakesNoMemory trace.now self.old.pages (step_of trace.now (state_of self.old))) o.old o.new result }
    {
        match self.step_into(trace, did) {
            Progress::OutOfMemory => Advance::Failed(RunFault::OutOfMemory),
            Progress::Stopped(cause) => Advance::Ended(cause),
            Progress::Did => match o.saw(did, trace) {
                Ok(()) => Advance::Going,
                Err(fault) => Advance::Failed(RunFault::Watch(fault)),
            },
        }
    }

    /// Does up to `n` steps over a trace, and shows each instruction that is done to an observer.
    ///
    /// It ends with `Limit` where the budget of `n` instructions was used up without an exit at its
    /// end, and only there; with a budget of 0 always. After a fault the state is that after the
    /// steps that were done; the observer has taken their records, and where it failed itself, all
    /// but the last.
    ///
    /// Where all that the steps write lies in reserved pages, the run itself finds memory; over an
    /// observer that takes none it then never wants any.
    #[tactic(auto, using(crate::proofs::Steps::items_none, crate::proofs::Steps::reaches_none, crate::proofs::Steps::reaches_on, crate::proofs::Steps::onto_on, crate::proofs::Steps::items_stop, crate::proofs::Steps::after_stop, crate::proofs::Steps::end_stop, crate::proofs::Steps::after_all, crate::proofs::Steps::end_all))]
    pub fn run<O: Observer>(
        &mut self,
        trace: &Trace,
        n: u64,
        o: &mut O,
    ) -> Result<RunEnd, RunFault<O::Fault>>
        requires count { self.old.icnt + n < 2 ^ 62 }
        requires trace { IsRunTrace trace.now }
        ensures took { (start : O) (h : List Item) → O.took start h o.old → RunTook O.took O.cut trace.now n (state_of self.old) (state_of self.new) start h o.new result }
        ensures state { RunState trace.now n (state_of self.old) (state_of self.new) result }
        ensures count { RunCounts O.means (O.faults o.old) (O.faults o.new) result }
        ensures pages { (number : ℕ) → IsReserved self.old.pages number → IsReserved self.new.pages number }
        ensures memory { RunMemory O.takes_no_memory O.means (WriteReserved trace.now self.old.pages n (state_of self.old)) o.old o.new result }
    {
        if n == 0 {
            return Ok(RunEnd::Limit);
        }
        let mut did = CommitRecord::blank();
        for done in 0..n {
            match self.advance_with(trace, o, &mut did) {
                Advance::Going => {}
                Advance::Ended(cause) => return Ok(RunEnd::Stop(cause)),
                Advance::Failed(fault) => return Err(fault),
            }
        }
        match self.ended() {
            Some(code) => Ok(RunEnd::Stop(Cause::Exited { code })),
            None => Ok(RunEnd::Limit),
        }
    }
}
