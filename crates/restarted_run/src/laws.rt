//! What a run from a point is, each law as the contract of a function that does nothing else.
ghost use Rattle.std.specs.Prelude.{◌≡◌, ◌≢◌, ◌+◌, ◌≤◌, ◌^◌, ℕ, List, Bool, false, Ok};
ghost use Rattle.ecoff_load.specs.declared.image.Image.{Image};
ghost use Rattle.ecoff_load.specs.declared.image.Text.{Text};
ghost use Rattle.ecoff_load.specs.Object.{IsImage, IsObject, IsText};
ghost use Rattle.event_trace.specs.declared.trace.Trace.{Trace};
ghost use Rattle.event_trace.specs.Reading.{checked as checked_trace};
ghost use Rattle.sim_safe.specs.declared.observer.RunEnd.TheVariants as ends;
ghost use Rattle.sim_safe.specs.State.{State, start_state};
ghost use Rattle.sim_safe.specs.Record.{IsRunTrace};
ghost use Rattle.sim_safe.specs.Run.{after};
ghost use Rattle.checkpoint.specs.State.{PointState};
ghost use Rattle.checkpoint.specs.Held.{state_held, fit};
ghost use Rattle.checkpoint.specs.Reading.{checked as checked_point};
ghost use Rattle.cut_run.specs.Parts.{is_large_at};
ghost use Rattle.cut_run.specs.Plan.{Asked, cut_end};
ghost use Rattle.restarted_run.specs.Within.{IsWithin, HoldsProgram, AreBytes, WritesBytes, BringsBytes, FitsBlock};
ghost use Rattle.restarted_run.specs.Held.{HoldsState};
ghost use Rattle.restarted_run.specs.Rest.{BeginsAtPoint, IsRestOf};

use checkpoint::checks_are_exact;
use cut_run::points_hold_their_state;
use pisa_step::effects_write_where_they_can;
use sim_safe::{runs_go_on, steps_keep, text_stays};

/// What is read from bytes brings bytes: the recorded calls of a trace write no other, and an image has no
/// other.
pub fn what_is_read_is_bytes()
    ensures trace { (bytes : List ℕ) (trace : Trace) → AreBytes bytes → checked_trace bytes ≡ Ok trace → WritesBytes trace }
    ensures image { (bytes : List ℕ) (image : Image) → AreBytes bytes → IsObject bytes image → BringsBytes image }
{}

/// Each number of a state that a run reaches fits its place, and its text stands in memory, where both
/// hold of the state in which the run begins; and they hold of the state in which a program starts.
pub fn states_stay_within()
    ensures after { (trace : Trace) (n : ℕ) (s : State) → IsRunTrace trace → WritesBytes trace → IsWithin s → IsWithin (after trace n s) }
    ensures start { (image : Image) (args : List (List ℕ)) → IsImage image → BringsBytes image → FitsBlock image args → IsWithin (start_state image args) }
    ensures program { (trace : Trace) (n : ℕ) (s : State) → HoldsProgram s → HoldsProgram (after trace n s) }
    ensures loaded { (image : Image) (args : List (List ℕ)) → IsImage image → HoldsProgram (start_state image args) }
{
    effects_write_where_they_can();
    steps_keep();
    text_stays();
}

/// Both hold of a state that was restored from a point, which was read from bytes and belongs to the
/// object.
pub fn restored_states_are_within()
    ensures within { (bytes : List ℕ) (p : PointState) (text : Text) → AreBytes bytes → checked_point bytes ≡ Ok p → IsWithin (state_held p text) }
    ensures program { (p : PointState) (text : Text) → IsText text → fit p text ≡ Ok tt → HoldsProgram (state_held p text) }
{
    checks_are_exact();
}

/// The point of a state that fits its places is read back from its bytes as it was written, belongs to
/// the program's object, and holds the state.
pub fn points_hold_where_they_were_taken()
    ensures { (s : State) → IsWithin s → HoldsProgram s → s.icnt ≤ 10 ^ 15 → is_large_at s ≡ false → HoldsState s }
{
    checks_are_exact();
    points_hold_their_state();
}

/// A run from the state in which another one took its point is the rest of it: text, output, counts, state
/// and end. Its budget is what the other had left there, or neither ends at its budget.
pub fn restarted_runs_are_the_rest()
    ensures left { (trace : Trace) (s : State) (first : Asked) (t : State) (second : Asked) (k : ℕ) → BeginsAtPoint trace s first t second k
        → second.most + k ≡ first.most → IsRestOf trace s first t second }
    ensures ended { (trace : Trace) (s : State) (first : Asked) (t : State) (second : Asked) (k : ℕ) → BeginsAtPoint trace s first t second k
        → cut_end trace s first ≢ ends.Limit → cut_end trace t second ≢ ends.Limit → IsRestOf trace s first t second }
{
    runs_go_on();
    steps_keep();
}
