//! What the journal of a run comes to, carried by a call whose contract is the law.
ghost use Rattle.std.specs.Prelude.{◌≡◌, ◌++◌, ◌∷◌, [], ℕ, List, Option, Some};
ghost use Rattle.journal.specs.Write.{Start, output_of};
ghost use Rattle.journal.specs.Texts.{text_in};
ghost use Rattle.event_trace.specs.declared.trace.Trace.{Trace};
ghost use Rattle.sim_safe.specs.State.{State};
ghost use Rattle.sim_safe.specs.Record.{Item};
ghost use Rattle.sim_safe.specs.Run.{items_of};
ghost use Rattle.sim_safe.specs.Commit.{text_of, outputs_of};
ghost use Rattle.sim_watch.specs.Watch.{run_journal};
ghost use Rattle.sim_watch.specs.Skip.{skip_journal};

use sim_safe::runs_emit_by_records;

/// The pieces that a run writes to a file, which was made empty before it, are its commit text, and
/// the blocks that it puts out are its output.
#[tactic(auto, using(crate::proofs::Texts::run_text, crate::proofs::Texts::run_outputs))]
pub fn runs_write_text_and_output()
    ensures text { (file : List ℕ) (is : List Item) → text_in (run_journal (Some file) is ++ Start file ∷ []) file ≡ Some (text_of is) }
    ensures output { (file : Option (List ℕ)) (is : List Item) → output_of (run_journal file is) ≡ outputs_of is }
{}

/// What is put out behind a skipped run is the output of its steps.
#[tactic(auto, using(crate::proofs::Skips::skip_output))]
pub fn skips_put_out_their_output()
    ensures { (trace : Trace) (n : ℕ) (s : State) → output_of (skip_journal trace n s) ≡ outputs_of (items_of trace n s) }
{
    runs_emit_by_records();
}
