//! Laws of steps and of recordings, each carried by a call whose contract is the law.
ghost use Rattle.std.specs.Prelude.{◌≡◌, ℕ, List, true};
ghost use Rattle.ecoff_load.specs.declared.image.Image.{Image};
ghost use Rattle.ecoff_load.specs.Object.{IsImage};
ghost use Rattle.event_trace.specs.declared.trace.Trace.{Trace};
ghost use Rattle.event_trace.specs.World.{WorldState};
ghost use Rattle.event_trace.specs.Recorder.{is_within_limits};
ghost use Rattle.sim_safe.specs.State.{State, HoldsText, start_state};
ghost use Rattle.sim_safe.specs.Step.{step_of};
ghost use Rattle.sim_safe.specs.Run.{items_of, after, end_of};
ghost use Rattle.sim_safe.specs.Commit.{outputs_of, emitted_by, records_between};
ghost use Rattle.sim_safe.specs.Recording.{recording, serve};
ghost use Rattle.sim_safe.specs.Laws.{StepKeeps, IsGrown, StopsForRecord, GoesOn};

/// Each step that is done counts one instruction, never gives back a used record, and leaves the
/// text, its bytes in memory and the byte order as they were. A register 0 that is 0 stays 0.
#[tactic(auto, using(crate::proofs::Keeping::steps_keep))]
pub fn steps_keep()
    ensures { (trace : Trace) (s : State) → StepKeeps s (step_of trace s) }
{}

/// A recording only adds records to a trace: those that were there stay, in their places, before
/// the new ones. A trace within the limits of recording stays within them.
#[tactic(auto, using(crate::proofs::Replays::recording_more, crate::proofs::Replays::recording_within))]
pub fn recordings_add_records()
    ensures adds { (n : ℕ) (w : WorldState) (t : Trace) (s : State) → IsGrown t (recording serve n w t s).0 }
    ensures within { (n : ℕ) (w : WorldState) (t : Trace) (s : State) → is_within_limits t ≡ true → is_within_limits (recording serve n w t s).0 ≡ true }
{}

/// A run goes on where it was cut: from the state after its first steps it does the others, and ends
/// as the whole.
pub fn runs_go_on()
    ensures { (trace : Trace) (k n : ℕ) (s : State) → GoesOn trace k n s }
{}

/// The text of a program stands in the memory with which the program starts, and stays there.
pub fn text_stays()
    ensures start { (image : Image) (args : List (List ℕ)) → IsImage image → HoldsText (start_state image args).reads.bytes image.text }
    ensures same { (trace : Trace) (n : ℕ) (s : State) → (after trace n s).text ≡ s.text }
    ensures after { (trace : Trace) (n : ℕ) (s : State) → HoldsText s.reads.bytes s.text → HoldsText (after trace n s).reads.bytes (after trace n s).text }
{}

/// What a run emits is what those recorded calls emit, in order, that it used.
pub fn runs_emit_by_records()
    ensures { (trace : Trace) (n : ℕ) (s : State) → outputs_of (items_of trace n s) ≡ emitted_by (records_between s.used (after trace n s).used trace.records) }
{}

/// Where a recording into the trace of a file ended since that was full, the run over it stops at a
/// call for which it has no record.
pub fn full_recordings_stop()
    ensures { (n : ℕ) (w : WorldState) (t u : Trace) (s : State) → t.file ≡ true → recording serve n w t s ≡ (u, true) → StopsForRecord (end_of u n s) }
{}
