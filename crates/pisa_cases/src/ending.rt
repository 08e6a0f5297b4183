//! The words for how a command ended.
use crate::fault::LineFault;
use sim_main::Ending;
use sim_safe::{RunEnd, push_end};
use std::alloc::Global;

/// The words of a run that stopped.
fn stop_words(alloc: Global, end: RunEnd, pc: u32, icnt: u64) -> Result<String, LineFault> {
    let mut bytes = Vec::new(alloc);
    push_end(&mut bytes, end, pc, icnt)?;
    Ok(String::from_utf8_lossy(alloc, &bytes)?)
}

/// The words of an ending that is that of no run.
fn other_words(alloc: Global, ending: &Ending) -> Result<String, LineFault> {
    let words = match ending {
        Ending::Words { at, why } => format!(in alloc; "words {at} {why:?}"),
        Ending::Object { at, why } => format!(in alloc; "object {at} {why:?}"),
        Ending::Trace { at, why } => format!(in alloc; "trace {at} {why:?}"),
        Ending::Point { at, why } => format!(in alloc; "point {at} {why:?}"),
        Ending::Text { line, why } => format!(in alloc; "text {line} {why:?}"),
        Ending::TooLong { name } => format!(in alloc; "too-long {}", name.as_str()),
        Ending::NotBuilt { what } => format!(in alloc; "not-built {what:?}"),
        Ending::Made => String::from_str(alloc, "made"),
        Ending::ShelfFault => String::from_str(alloc, "shelf-fault"),
        Ending::SinkFault => String::from_str(alloc, "sink-fault"),
        _ => String::from_str(alloc, "out-of-memory"),
    };
    Ok(words?)
}

/// The words for how a command ended: those of a run's end, else the ending's name and its fields.
pub fn ending_words(alloc: Global, ending: &Ending) -> Result<String, LineFault> {
    match ending {
        Ending::Exited { code } => Ok(format!(in alloc; "exited {code}")?),
        Ending::Budget => Ok(String::from_str(alloc, "budget")?),
        Ending::Stopped { cause, pc, icnt } => {
            stop_words(alloc, RunEnd::Stop(*cause), *pc, *icnt)
        }
        _ => other_words(alloc, ending),
    }
}
