//! Laws of points and of runs that go on from them, each carried by a call whose contract is the law.
ghost use Rattle.std.specs.Prelude.{◌≡◌, ◌↔◌, ℕ, Ok};
ghost use Rattle.ecoff_load.specs.declared.image.Text.{Text};
ghost use Rattle.event_trace.specs.declared.trace.Trace.{Trace};
ghost use Rattle.paged_mem.specs.Memory.{byte_of};
ghost use Rattle.sim_safe.specs.State.{State, Storage, state_of, HoldsText};
ghost use Rattle.sim_safe.specs.Run.{after};
ghost use Rattle.checkpoint.specs.State.{PointState};
ghost use Rattle.checkpoint.specs.Held.{IsPointOf, fit, Fits};
ghost use Rattle.checkpoint.specs.Restart.{IsRest};

use sim_safe::{runs_go_on, text_stays};

/// No check of a point with an object fails exactly where the point has the object's byte order and text.
pub fn checks_are_exact()
    ensures { (p : PointState) (text : Text) → (fit p text ≡ Ok tt) ↔ Fits p text }
{}

/// A point that was taken of a machine belongs to each object with the machine's text, where the bytes
/// of the text stand in the machine's memory.
pub fn taken_points_fit()
    ensures { (m : Storage) (p : PointState) → IsPointOf m p → HoldsText (byte_of m.pages) m.text → fit p m.text ≡ Ok tt }
{}

/// From a point that was taken after `k` steps of a run, the run over the same trace is the rest of the
/// uninterrupted run: the records with their numbers, the commit text, the output, the state and the
/// ending. The object is the same, whose text stands in memory where the uninterrupted run begins.
pub fn restarts_are_the_rest()
    ensures { (trace : Trace) (k n : ℕ) (s : State) (m : Storage) (p : PointState) → HoldsText s.reads.bytes s.text → state_of m ≡ after trace k s → IsPointOf m p → IsRest trace k n s p }
{
    runs_go_on();
    text_stays();
}
