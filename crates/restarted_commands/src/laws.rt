//! What commands in pieces come to, carried by a call whose contract is the law.
ghost use Rattle.std.specs.Prelude.{ℕ, List};
ghost use Rattle.sim_opts.specs.Request.{Run};
ghost use Rattle.journal.specs.declared.loading.Found.{Found};
ghost use Rattle.journal.specs.Outcome.{Outcome};
ghost use Rattle.answers.specs.declared.answer.Answer.{Answer};
ghost use Rattle.ss_base.specs.Outside.{Files};
ghost use Rattle.restarted_commands.specs.Restarted.{InPieces, IsJoined};
ghost use Rattle.restarted_commands.specs.Files.{WordsInPieces};

use cut_run::cut_runs_write_the_uncut_text;
use restarted_run::{
    points_hold_where_they_were_taken, restarted_runs_are_the_rest, restored_states_are_within,
    states_stay_within, what_is_read_is_bytes,
};
use sim_safe::{steps_keep, text_stays};

/// A command that goes on from a point which an earlier one left is the rest of it: the commit text and the output of the
/// whole run are those of its front, up to the point, and then those of the rest; and it answers as the rest.
pub fn commands_in_pieces_write_the_whole()
    ensures { (whole front rest : Run) (loaded others : List Found) (w f r : Outcome Answer) (k : ℕ) → InPieces whole front rest loaded others w f r k → IsJoined whole front rest w f r }
{
    cut_runs_write_the_uncut_text();
    steps_keep();
    text_stays();
    what_is_read_is_bytes();
    states_stay_within();
    restored_states_are_within();
    points_hold_where_they_were_taken();
    restarted_runs_are_the_rest();
}

/// So it is with command lines over files, whose outcomes `simulate` comes to: what the rest finds are the object and the trace
/// as the whole found them, and the point's file as it was left.
pub fn command_lines_in_pieces_write_the_whole()
    ensures { (whole front rest : List (List ℕ)) (files later : Files) (w f r : Run) (x y z : Outcome Answer) (k : ℕ) → WordsInPieces whole front rest files later w f r x y z k → IsJoined w f r x y z }
{
    commands_in_pieces_write_the_whole();
}
