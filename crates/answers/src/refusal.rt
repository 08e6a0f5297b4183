//! Refusals: words or a file that aren't fit for a command, or no memory to judge them.
ghost use Rattle.std.specs.Prelude.{◌≡◌, IfOk};
ghost use Rattle.journal.specs.Outcome.{Ends};
ghost use Rattle.answers.specs.Answer.{refused};
ghost use Rattle.answers.specs.Judging.{word_refusal, object_refusal, point_refusal, trace_refusal, text_refusal, Refuses};
ghost use Rattle.answers.specs.declared.refusal.Refusal.TheVariants as refusals;

use crate::answer::Answer;
use crate::lines::push_fault_line;
use crate::report::put_answer;
use checkpoint::PointFault;
use ecoff_load::ObjectFault;
use event_trace::TraceFault;
use journal::{Fault, Outside};
use sim_opts::WordFault;
use ss_base::{AsmFault, Name, OutOfMemory};
use std::alloc::Global;

/// Why a command does not go on.
#[derive(Debug, Drop)]
pub enum Refusal {
    /// The words or a file are refused with this answer.
    Answer(Answer),
    /// A growth found no memory.
    OutOfMemory,
}

impl From<WordFault> for Refusal {
    ghost from_gives = { λ fault refusal. refusal ≡ word_refusal fault };

    fn from(fault: WordFault) -> Refusal {
        match fault {
            WordFault::Bad { at, why } => Refusal::Answer(Answer::Words { at, why }),
            WordFault::OutOfMemory => Refusal::OutOfMemory,
        }
    }
}

impl From<ObjectFault> for Refusal {
    ghost from_gives = { λ fault refusal. refusal ≡ object_refusal fault };

    fn from(fault: ObjectFault) -> Refusal {
        match fault {
            ObjectFault::Bad { at, why } => Refusal::Answer(Answer::Object { at, why }),
            ObjectFault::OutOfMemory => Refusal::OutOfMemory,
        }
    }
}

impl From<PointFault> for Refusal {
    ghost from_gives = { λ fault refusal. refusal ≡ point_refusal fault };

    fn from(fault: PointFault) -> Refusal {
        match fault {
            PointFault::Bad { at, why } => Refusal::Answer(Answer::Point { at, why }),
            PointFault::OutOfMemory => Refusal::OutOfMemory,
        }
    }
}

impl From<TraceFault> for Refusal {
    ghost from_gives = { λ fault refusal. refusal ≡ trace_refusal fault };

    fn from(fault: TraceFault) -> Refusal {
        match fault {
            TraceFault::Bad { at, why } => Refusal::Answer(Answer::Trace { at, why }),
            TraceFault::OutOfMemory => Refusal::OutOfMemory,
        }
    }
}

impl From<AsmFault> for Refusal {
    ghost from_gives = { λ fault refusal. refusal ≡ text_refusal fault };

    fn from(fault: AsmFault) -> Refusal {
        match fault {
            AsmFault::Bad { line, why } => Refusal::Answer(Answer::Text { line, why }),
            AsmFault::OutOfMemory => Refusal::OutOfMemory,
        }
    }
}

impl From<OutOfMemory> for Refusal {
    ghost from_gives = { λ _ refusal. refusal ≡ refusals.OutOfMemory };

    fn from(_error: OutOfMemory) -> Refusal {
        Refusal::OutOfMemory
    }
}

/// Answers with a refusal: its line goes to the second stream.
#[tactic(auto, using(journal::specs::Laws::gave_up_none))]
fn refuse_with<O: Outside>(alloc: Global, answer: Answer, outside: &mut O) -> Result<Answer, Fault>
    ensures { Ends O.view outside.old (refused answer) outside.new result }
{
    let mut line = Vec::new(alloc);
    match push_fault_line(&mut line, &answer) {
        Ok(()) => put_answer(line.as_slice(), answer, outside),
        Err(_) => Err(Fault::OutOfMemory),
    }
}

/// Refuses: the answer's line goes to the second stream. Where memory was wanted, nothing does.
#[tactic(auto, using(journal::specs::Laws::wrote_none))]
pub fn refuse<O: Outside>(alloc: Global, refusal: Refusal, outside: &mut O) -> Result<Answer, Fault>
    ensures { Refuses O.view outside.old refusal outside.new result }
{
    match refusal {
        Refusal::Answer(answer) => refuse_with(alloc, answer, outside),
        Refusal::OutOfMemory => Err(Fault::OutOfMemory),
    }
}

/// The answer that a file is too long.
fn long_answer(alloc: Global, name: &str) -> Result<Answer, OutOfMemory>
    ensures { IfOk result (λ answer. answer ≡ Answer.TooLong name.now) }
{
    let name = String::from_str(alloc, name)?;
    Ok(Answer::TooLong {
        name: Name::from_string(name),
    })
}

/// Refuses a file that is too long.
#[tactic(auto, using(journal::specs::Laws::gave_up_none))]
pub fn refuse_long<O: Outside>(alloc: Global, name: &str, outside: &mut O) -> Result<Answer, Fault>
    ensures { Ends O.view outside.old (refused (Answer.TooLong name.now)) outside.new result }
{
    match long_answer(alloc, name) {
        Ok(answer) => refuse_with(alloc, answer, outside),
        Err(_) => Err(Fault::OutOfMemory),
    }
}
