//! The top call: all that the program does.
ghost use Rattle.std.specs.Prelude.{◌≡◌, ◌≢◌, ◌<◌, true, Ok, map, string_bytes};
ghost use Rattle.journal.specs.Write.{output_of, report_of};
ghost use Rattle.journal.specs.View.{Stays};
ghost use Rattle.journal.specs.Load.{AreHeld};
ghost use Rattle.journal.specs.Parts.{parts_view};
ghost use Rattle.journal.specs.Texts.{WholeFiles};
ghost use Rattle.journal.specs.Clauses.{LeavesFiles, LeavesOutput, LeavesReport, OutcomeWith, Gets, IfAnswered};
ghost use Rattle.sim_main.specs.Ending.{is_fault, answer_of};
ghost use Rattle.sim_main.specs.Outcome.{inputs_in, OutcomeIn, ComesIn};
ghost use Rattle.sim_main.specs.Answer.{CameBy, AnswersBy, EndsByWords, ComesAsFar, Counts, Quiet, HoldsOfPoint};

use crate::ending::{Ending, ending_by};
use crate::request::do_parts;
use ss_base::{Shelf, Sink};
use std::alloc::Global;

/// Does all that the program does: the command that `words` name, which are the words after the
/// program's name, with its files on `shelf`, the program's output on `prog`, and refusals and
/// statistics on `stat`.
///
/// Where nothing fails, what is answered and written is the outcome of the words, their configuration and
/// the files that both load. A failing shelf gives `ShelfFault` and a failing stream `SinkFault`; then, and after
/// want of memory, all writes before one place are done, at most a part of the write there, and none
/// behind it, in the one order of files and streams. A run that gave up did so at one number of
/// instructions. Where a run was recorded, the file holds a trace over which sim-safe, with the same
/// object, arguments and limit, does it again.
pub fn simulate<H: Shelf, P: Sink, R: Sink>(
    alloc: Global,
    words: &[String],
    shelf: &mut H,
    prog: &mut P,
    stat: &mut R,
) -> Ending
    // the one relation, of which the others are consequences: what was loaded and answered, and all that
    // was written, in its order
    ensures comes { CameBy (parts_view H.tells H.calm H.files H.faults P.tells P.contents P.faults P.calm R.tells R.contents R.faults R.calm) (shelf.old, prog.old, stat.old) (map string_bytes words.now) (shelf.new, prog.new, stat.new) result }

    // what is written
    ensures files { H.tells shelf.old → LeavesFiles (inputs_in (map string_bytes words.now) (H.files shelf.old)) (OutcomeIn (map string_bytes words.now) (H.files shelf.old)) (H.files shelf.old) (H.files shelf.new) (answer_of result) }
    ensures prog { H.tells shelf.old → P.tells prog.old → LeavesOutput (inputs_in (map string_bytes words.now) (H.files shelf.old)) (OutcomeIn (map string_bytes words.now) (H.files shelf.old)) (H.files shelf.old) (P.contents prog.old) (P.contents prog.new) (answer_of result) }
    ensures stat { H.tells shelf.old → R.tells stat.old → LeavesReport (inputs_in (map string_bytes words.now) (H.files shelf.old)) (OutcomeIn (map string_bytes words.now) (H.files shelf.old)) (H.files shelf.old) (R.contents stat.old) (R.contents stat.new) (answer_of result) }

    // where the command gave up, one number of instructions says how far the files and the first stream came
    ensures together { H.tells shelf.old → P.tells prog.old → is_fault result ≡ true → ComesAsFar (map string_bytes words.now) (H.files shelf.old) (H.files shelf.new) (P.contents prog.old) (P.contents prog.new) }

    // want of memory leaves the second stream as it was
    ensures memory { R.tells stat.old → result ≡ Ending.OutOfMemory → R.contents stat.new ≡ R.contents stat.old }

    // where a run was recorded, sim-safe does it again from the file that was written
    ensures replay { H.tells shelf.old → IfAnswered (answer_of result) (λ a. OutcomeWith (H.files shelf.old) (inputs_in (map string_bytes words.now) (H.files shelf.old)) (ComesIn (map string_bytes words.now) (H.files shelf.old) (Ok a)) (λ o. (a ≡ o.ending) × WholeFiles o.writes (H.files shelf.old) (H.files shelf.new))) }

    // where the second stream failed, all else is written whole
    ensures last { H.tells shelf.old → R.faults stat.old < R.faults stat.new → OutcomeWith (H.files shelf.old) (inputs_in (map string_bytes words.now) (H.files shelf.old)) (OutcomeIn (map string_bytes words.now) (H.files shelf.old)) (λ o. WholeFiles o.writes (H.files shelf.old) (H.files shelf.new) × Gets P.tells P.contents prog.old prog.new (output_of o.writes)) }

    // what holds whatever the shelf tells
    ensures ending { IfAnswered (answer_of result) (λ a. AnswersBy (H.tells shelf.old) (H.files shelf.old) (map string_bytes words.now) a (λ o. Gets P.tells P.contents prog.old prog.new (output_of o.writes) × Gets R.tells R.contents stat.old stat.new (report_of o.writes))) }
    ensures words { EndsByWords (H.tells shelf.old) (H.files shelf.old) (map string_bytes words.now) result }
    ensures count { Counts (H.faults shelf.old, P.faults prog.old, R.faults stat.old) (H.faults shelf.new, P.faults prog.new, R.faults stat.new) result }
    ensures quiet { HoldsOfPoint (H.tells shelf.old) (H.files shelf.old) (map string_bytes words.now) (λ point. Quiet point (P.faults prog.old) (P.faults prog.new) prog.old prog.new stat.old stat.new result) }

    // telling and calmness stay
    ensures stays { Stays (parts_view H.tells H.calm H.files H.faults P.tells P.contents P.faults P.calm R.tells R.contents R.faults R.calm) (shelf.old, prog.old, stat.old) (shelf.new, prog.new, stat.new) }
    ensures succeeds { H.calm shelf.old → H.tells shelf.old → AreHeld (H.files shelf.old) (inputs_in (map string_bytes words.now) (H.files shelf.old)) → result ≢ Ending.ShelfFault }
    ensures streams_succeed { P.calm prog.old → R.calm stat.old → result ≢ Ending.SinkFault }
{
    ending_by(do_parts(alloc, words, shelf, prog, stat))
}
