//! What a watch is.
ghost use Rattle.std.specs.Prelude.{◌≡◌, ℕ, List, [], ◌∷◌};
ghost use Rattle.sim_safe.specs.declared.observer.Meaning.{Meaning};
ghost use Rattle.sim_safe.specs.Observed.{SawCounts, SawWithoutMemory};
ghost use Rattle.sim_safe.specs.Record.{IsRunTrace, item_of};
ghost use Rattle.core_watch.specs.Shown.{Shown, Happened, Committed, Takes};

use event_trace::Trace;
use ooo_table::Event;
use sim_safe::CommitRecord;

/// Watches the out-of-order machine: it is shown the events of each cycle in order, and behind the
/// event of a commit the record of its instruction.
pub trait Watch {
    /// Why it can't go on.
    type Fault;

    /// From the first value to the last it has taken this history, newest first.
    ghost took: { Self → List Shown → Self → Type 0 };

    /// From the first value to the last it was cut within the newest of this history.
    ghost cut: { Self → List Shown → Self → Type 0 };

    /// How often the shelf failed, and how often the streams did.
    ghost faults: { Self → ℕ × ℕ };

    /// What a fault comes from.
    ghost means: { Self.Fault → Meaning };

    /// It takes no memory, now and from now on: no call fails with a fault that means memory. A watch
    /// that doesn't say may take some at each call.
    ghost takes_no_memory: { Self → Type 0 } = { λ _. ⊥ };

    /// Takes an event.
    fn event(&mut self, e: &Event) -> Result<(), Self::Fault>
        ensures took { (start : Self) (h : List Shown) → took start h self.old → Takes took cut start (Happened e.now ∷ h) self.new result }
        ensures count { SawCounts means (faults self.old) (faults self.new) result }
        ensures memory { takes_no_memory self.old → SawWithoutMemory takes_no_memory means self.new result };

    /// Takes the record of an instruction that was committed, over the trace of the run.
    fn commit(&mut self, r: &CommitRecord, trace: &Trace) -> Result<(), Self::Fault>
        requires { IsRunTrace trace.now }
        ensures took { (start : Self) (h : List Shown) → took start h self.old → Takes took cut start (Committed (item_of trace.now r.now) ∷ h) self.new result }
        ensures count { SawCounts means (faults self.old) (faults self.new) result }
        ensures memory { takes_no_memory self.old → SawWithoutMemory takes_no_memory means self.new result };

    /// A value that has taken nothing is as it was.
    ghost took_none: { (o : Self) → took o [] o };
}
