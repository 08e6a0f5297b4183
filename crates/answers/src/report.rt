//! Reports: the last words of a command, on the second stream.
ghost use Rattle.std.specs.Prelude.{◌≡◌, ◌++◌, ◌∷◌, [], OnOk};
ghost use Rattle.journal.specs.Write.{Report};
ghost use Rattle.journal.specs.Outcome.{Ends};
ghost use Rattle.answers.specs.Answer.{answered, run_answer};
ghost use Rattle.answers.specs.Report.{statistics_text};

use crate::answer::{Answer, answer_of_run};
use crate::lines::push_text;
use journal::{Fault, Outside};
use sim_safe::{RunEnd, Statistics, push_end};
use ss_base::OutOfMemory;
use std::alloc::Global;

/// Puts a text on the second stream, and answers.
pub fn put_answer<O: Outside>(text: &[u8], answer: Answer, outside: &mut O) -> Result<Answer, Fault>
    ensures { Ends O.view outside.old (answered answer (Report text.now ∷ [])) outside.new result }
{
    match outside.put_report(text) {
        Ok(()) => Ok(answer),
        Err(fault) => Err(fault),
    }
}

/// Adds the statistics of a run that skipped so many steps first and ended at `pc`, after `icnt`
/// instructions.
#[tactic(auto, unfolding(crate::specs::Report::statistics_text))]
fn push_statistics(
    into: &mut Vec<u8>,
    skipped: u64,
    statistics: &Statistics,
    end: RunEnd,
    pc: u32,
    icnt: u64,
) -> Result<(), OutOfMemory>
    ensures { OnOk result (into.new.items ≡ into.old.items ++ statistics_text skipped statistics.now end pc icnt) }
{
    statistics.push(skipped, into)?;
    push_text(into, "sim_end ")?;
    push_end(into, end, pc, icnt)?;
    push_text(into, "\n")
}

/// Reports a run that skipped so many steps first and ended so at `pc`, after `icnt` instructions: its
/// statistics, of the steps that weren't skipped, go to the second stream.
#[tactic(auto, using(journal::specs::Laws::gave_up_none))]
pub fn report_run<O: Outside>(
    alloc: Global,
    end: RunEnd,
    skipped: u64,
    statistics: &Statistics,
    pc: u32,
    icnt: u64,
    outside: &mut O,
) -> Result<Answer, Fault>
    ensures { Ends O.view outside.old (answered (run_answer end pc icnt) (Report (statistics_text skipped statistics.now end pc icnt) ∷ [])) outside.new result }
{
    let mut text = Vec::new(alloc);
    match push_statistics(&mut text, skipped, statistics, end, pc, icnt) {
        Ok(()) => put_answer(text.as_slice(), answer_of_run(end, pc, icnt), outside),
        Err(_) => Err(Fault::OutOfMemory),
    }
}
