//! How commands end.
ghost use Rattle.std.specs.Prelude.{◌≡◌};
ghost use Rattle.sim_main.specs.Ending.{answer_ending, fault_ending, ending_of};

use answers::{Answer, Unbuilt};
use checkpoint::PointWhy;
use ecoff_load::ObjectWhy;
use event_trace::TraceWhy;
use journal::Fault;
use pisa_step::Cause;
use sim_opts::WordWhy;
use ss_base::{Name, TextWhy};

/// How a command ends.
#[derive(Debug, Drop)]
pub enum Ending {
    /// The program exited with this code.
    Exited { code: u32 },
    /// The command did its work, and no program ran.
    Made,
    /// The words are refused at this place, counted from 0, or 2^32 - 1 where that is less. What is wrong
    /// at the end has the number of words as its place.
    Words { at: u32, why: WordWhy },
    /// The object is refused at this place of its file, counted from 0.
    Object { at: u64, why: ObjectWhy },
    /// The trace is refused at this place of its file, counted from 0.
    Trace { at: u64, why: TraceWhy },
    /// The point is refused at this place of its file, counted from 0.
    Point { at: u64, why: PointWhy },
    /// A call of the shelf failed.
    ShelfFault,
    /// A put to one of the two streams failed.
    SinkFault,
    /// A growth found no memory.
    OutOfMemory,
    /// The run stopped at `pc`, after `icnt` instructions.
    Stopped { cause: Cause, pc: u32, icnt: u64 },
    /// The run did as many instructions as it may.
    Budget,
    /// The configuration is refused at this line, counted from 1, or the source, or the source as a whole
    /// at 0.
    Text { line: u32, why: TextWhy },
    /// The file of this name is longer than it may be.
    TooLong { name: Name },
    /// What was asked for is not built yet.
    NotBuilt { what: Unbuilt },
}

impl Ending {
    ghost use Rattle.sim_main.specs.Ending.{status_of, is_fault};

    /// The status with which the program ends.
    pub fn status(&self) -> u8
        ensures { result ≡ status_of self.now }
    {
        match self {
            Ending::Exited { .. } => 0,
            Ending::Made => 0,
            Ending::Words { .. } => 1,
            Ending::Object { .. } => 2,
            Ending::Trace { .. } => 3,
            Ending::Point { .. } => 4,
            Ending::ShelfFault => 5,
            Ending::SinkFault => 6,
            Ending::OutOfMemory => 7,
            Ending::Stopped { .. } => 8,
            Ending::Budget => 9,
            Ending::Text { .. } => 10,
            Ending::TooLong { .. } => 11,
            Ending::NotBuilt { .. } => 12,
        }
    }

    /// Whether it tells of a failing outside or of want of memory.
    pub fn is_fault(&self) -> bool
        ensures { result ≡ is_fault self.now }
    {
        matches!(
            self,
            Ending::ShelfFault | Ending::SinkFault | Ending::OutOfMemory
        )
    }
}

impl From<Answer> for Ending {
    ghost from_gives = { λ answer ending. ending ≡ answer_ending answer };

    fn from(answer: Answer) -> Ending {
        match answer {
            Answer::Exited { code } => Ending::Exited { code },
            Answer::Made => Ending::Made,
            Answer::Words { at, why } => Ending::Words { at, why },
            Answer::Object { at, why } => Ending::Object { at, why },
            Answer::Trace { at, why } => Ending::Trace { at, why },
            Answer::Point { at, why } => Ending::Point { at, why },
            Answer::Stopped { cause, pc, icnt } => Ending::Stopped { cause, pc, icnt },
            Answer::Budget => Ending::Budget,
            Answer::Text { line, why } => Ending::Text { line, why },
            Answer::TooLong { name } => Ending::TooLong { name },
            Answer::NotBuilt { what } => Ending::NotBuilt { what },
        }
    }
}

impl From<Fault> for Ending {
    ghost from_gives = { λ fault ending. ending ≡ fault_ending fault };

    fn from(fault: Fault) -> Ending {
        match fault {
            Fault::Shelf => Ending::ShelfFault,
            Fault::Prog | Fault::Stat => Ending::SinkFault,
            Fault::OutOfMemory => Ending::OutOfMemory,
        }
    }
}

/// The ending of what a command came to.
pub fn ending_by(came: Result<Answer, Fault>) -> Ending
    ensures { result ≡ ending_of came }
{
    match came {
        Ok(answer) => Ending::from(answer),
        Err(fault) => Ending::from(fault),
    }
}
