//! What follows from the definitions, each law as the contract of a function that does nothing.
ghost use Rattle.std.specs.Prelude.{◌≡◌, ◌++◌, ℕ, List, [], ◌∷◌, Some, Result, Ok};
ghost use Rattle.ss_base.specs.declared.fault.PutFault.{PutFault};
ghost use Rattle.ss_base.specs.Outside.{Files, OthersStay, bytes_at};
ghost use Rattle.ooo_table.specs.declared.event.EndWord.{EndWord};
ghost use Rattle.ooo_table.specs.declared.event.Event.{Event};
ghost use Rattle.ooo_table.specs.declared.event.Log.{Log};
ghost use Rattle.pipetrace.specs.declared.watch.TextWatch.{TextWatch};
ghost use Rattle.pipetrace.specs.Text.{end_line, event_text, text_of};
ghost use Rattle.pipetrace.specs.Watch.{Pends, WritesPiece, WritesText, file_of, is_short, last_of, left_of, pending_of};
ghost use Rattle.pipetrace.specs.Watched.{HasTaken, TakesOrIsCut};
ghost use Rattle.pipetrace.specs.Grammar.{IsTextOf};
ghost use Rattle.pipetrace.specs.Fronts.{IsFirstBad};

/// A text is that of one log.
pub fn texts_have_one_log()
    ensures { (bytes : List ℕ) (a b : Log) → IsTextOf bytes a → IsTextOf bytes b → a ≡ b }
{}

/// Bytes have one first bad line at most.
pub fn bytes_have_one_first_bad_line()
    ensures { (bytes : List ℕ) (k m : ℕ) → IsFirstBad bytes k → IsFirstBad bytes m → k ≡ m }
{}

/// A watch that has taken events has taken one more after a `put` that went well; after one that did
/// not it was cut within them.
pub fn puts_take_events()
    ensures { (start : Files) (name : List ℕ) (es : List Event) (v w : TextWatch) (a b : Files) (e : Event) (r : Result (Unit {0}) PutFault) → HasTaken start name es v a
        → WritesPiece (is_short (pending_of v ++ event_text (last_of v) e)) a (file_of v) (pending_of v ++ event_text (last_of v) e) b r
        → Pends v (left_of (pending_of v ++ event_text (last_of v) e)) (Some e.cycle) w r
        → TakesOrIsCut start name (es ++ e ∷ []) w b r }
{}

/// A watch that has taken a log's events has written its text after a `finish` that went well.
#[tactic(auto, using(crate::proofs::Watching::finishes))]
pub fn finishes_write_the_text()
    ensures { (start : Files) (name : List ℕ) (log : Log) (v : TextWatch) (a b : Files) → HasTaken start name log.events v a
        → WritesText {T = Unit {0}} a (file_of v) (pending_of v ++ end_line log.cycles log.end) b (Ok tt)
        → (bytes_at b name ≡ bytes_at start name ++ text_of log) × OthersStay start name b }
{}
