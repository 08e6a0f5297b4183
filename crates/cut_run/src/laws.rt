//! What cut runs come to, each law as the contract of a function that does nothing else.
ghost use Rattle.std.specs.Prelude.{◌≡◌, ◌++◌, ◌∷◌, [], ℕ, List, Some, false};
ghost use Rattle.event_trace.specs.declared.trace.Trace.{Trace};
ghost use Rattle.journal.specs.Write.{Start, output_of};
ghost use Rattle.journal.specs.Texts.{text_in};
ghost use Rattle.sim_safe.specs.State.{State};
ghost use Rattle.sim_safe.specs.Run.{items_of};
ghost use Rattle.sim_safe.specs.Commit.{text_of, outputs_of};
ghost use Rattle.checkpoint.specs.Held.{state_held};
ghost use Rattle.cut_run.specs.Point.{point_of, HasNoOthers};
ghost use Rattle.cut_run.specs.Plan.{Asked, to_skip, timed_items, is_too_long, cut_journal, PointElsewhere};

use sim_safe::runs_go_on;
use sim_watch::skips_put_out_their_output;

/// A run that skips and leaves a point puts out what the skipped steps and the others emit, in order; and a
/// file of its commit text that was made empty before gets the text of the others, unless it is the
/// point's file.
pub fn cut_runs_write_the_uncut_text()
    ensures output { (trace : Trace) (s : State) (asked : Asked) → is_too_long trace s asked ≡ false → output_of (cut_journal trace s asked) ≡ outputs_of (items_of trace (to_skip trace s asked) s) ++ outputs_of (timed_items trace s asked) }
    ensures text { (trace : Trace) (s : State) (asked : Asked) (file : List ℕ) → asked.commits ≡ Some file → PointElsewhere file asked.point → is_too_long trace s asked ≡ false → text_in (cut_journal trace s asked ++ Start file ∷ []) file ≡ Some (text_of (timed_items trace s asked)) }
{
    runs_go_on();
    skips_put_out_their_output();
}

/// The point of a state holds that state: what is restored from it goes on from there.
pub fn points_hold_their_state()
    ensures { (s : State) → HasNoOthers s → state_held (point_of s) s.text ≡ s }
{}
