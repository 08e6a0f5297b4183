//! What commands answer.
ghost use Rattle.std.specs.Prelude.{◌≡◌};
ghost use Rattle.answers.specs.Answer.{stop_answer, run_answer};

use checkpoint::PointWhy;
use ecoff_load::ObjectWhy;
use event_trace::TraceWhy;
use pisa_step::Cause;
use sim_opts::WordWhy;
use sim_safe::RunEnd;
use ss_base::{Name, TextWhy};

/// What is not built yet.
#[derive(Clone, Copy, Debug, PartialEq, Eq)]
pub enum Unbuilt {
    /// The command that the words name.
    Words,
}

/// What a command answers that meets no fault.
#[derive(Debug, Drop)]
pub enum Answer {
    /// The program exited with this code.
    Exited { code: u32 },
    /// The command did its work, and no program ran.
    Made,
    /// The words are wrong at this place, counted from 0.
    Words { at: u32, why: WordWhy },
    /// The object is refused at this place of its file, counted from 0.
    Object { at: u64, why: ObjectWhy },
    /// The point is refused at this place of its file, counted from 0.
    Point { at: u64, why: PointWhy },
    /// The trace is refused at this place of its file, counted from 0.
    Trace { at: u64, why: TraceWhy },
    /// The run stopped at `pc`, after `icnt` instructions.
    Stopped { cause: Cause, pc: u32, icnt: u64 },
    /// The run did as many instructions as it may.
    Budget,
    /// The source is refused at this line, counted from 1, or as a whole at 0, or the configuration at
    /// this line.
    Text { line: u32, why: TextWhy },
    /// The file of this name is longer than it may be, or is that of a point which would have too many
    /// pages.
    TooLong { name: Name },
    /// What was asked for is not built yet.
    NotBuilt { what: Unbuilt },
}

/// The answer of a run that stopped for a cause.
fn answer_at_stop(cause: Cause, pc: u32, icnt: u64) -> Answer
    ensures { result ≡ stop_answer cause pc icnt }
{
    match cause {
        Cause::Exited { code } => Answer::Exited { code },
        Cause::BadFetch
        | Cause::Illegal
        | Cause::FloatingPoint { .. }
        | Cause::Misaligned { .. }
        | Cause::Overflow
        | Cause::DivideByZero
        | Cause::TextWrite { .. }
        | Cause::Break
        | Cause::TraceEnd { .. }
        | Cause::TraceMismatch { .. } => Answer::Stopped { cause, pc, icnt },
    }
}

/// The answer of a run that ended at `pc`, after `icnt` instructions.
pub fn answer_of_run(end: RunEnd, pc: u32, icnt: u64) -> Answer
    ensures { result ≡ run_answer end pc icnt }
{
    match end {
        RunEnd::Limit => Answer::Budget,
        RunEnd::Stop(cause) => answer_at_stop(cause, pc, icnt),
    }
}
