//! Reading a log from its text, line by line.
ghost use Rattle.std.specs.Prelude.{◌≡◌, [], OnOk, IfErr};
ghost use Rattle.pipetrace.specs.declared.fault.PipeFault.TheVariants as faults;
ghost use Rattle.pipetrace.specs.Fronts.{Reads};
ghost use Rattle.pipetrace.specs.Grammar.{group};
ghost use Rattle.pipetrace.specs.Reading.{Gives, ReadsLines, after_act, after_cycle, after_end, after_line, is_later, next_line, with_act};

use crate::fault::PipeFault;
use crate::line::{Line, line_at};
use ooo_table::{EndWord, Event, Events, Log, Mark};
use std::alloc::Global;

/// What the last line was.
#[derive(Clone, Copy, Debug)]
pub enum Last {
    /// There was none.
    Nothing,
    /// A cycle began.
    Cycle(u64),
    /// An event.
    Act(Event),
    /// The end of the run.
    End { cycles: u64, end: EndWord },
}

/// The place of a mark among the groups of a cycle's events.
fn group(mark: Mark) -> u8
    ensures { result ≡ group mark }
{
    match mark {
        Mark::Committed => 0,
        Mark::Written => 1,
        Mark::Returned => 1,
        Mark::Squashed => 2,
        Mark::Issued => 3,
        Mark::Accessed => 3,
        Mark::Dispatched => 4,
        Mark::Fetched { .. } => 5,
    }
}

/// Whether an event may stand behind another one of its cycle.
fn is_later(before: Event, e: Event) -> bool
    ensures { result ≡ is_later before e }
{
    let first = group(before.mark);
    let second = group(e.mark);
    if first < second {
        return true;
    }
    if first == second {
        before.row < e.row
    } else {
        false
    }
}

fn after_cycle(before: Last, cycle: u64) -> Option<Last>
    ensures { result ≡ after_cycle before cycle }
{
    match before {
        Last::Nothing => Some(Last::Cycle(cycle)),
        Last::Act(e) => {
            if e.cycle < cycle {
                Some(Last::Cycle(cycle))
            } else {
                None
            }
        }
        Last::Cycle(_) => None,
        Last::End { .. } => None,
    }
}

fn after_act(before: Last, row: u64, mark: Mark) -> Option<Last>
    ensures { result ≡ after_act before row mark }
{
    match before {
        Last::Cycle(cycle) => Some(Last::Act(Event { cycle, row, mark })),
        Last::Act(e) => {
            let next = Event {
                cycle: e.cycle,
                row,
                mark,
            };
            if is_later(e, next) {
                Some(Last::Act(next))
            } else {
                None
            }
        }
        Last::Nothing => None,
        Last::End { .. } => None,
    }
}

fn after_end(before: Last, cycles: u64, end: EndWord) -> Option<Last>
    ensures { result ≡ after_end before cycles end }
{
    match before {
        Last::Nothing => Some(Last::End { cycles, end }),
        Last::Act(e) => {
            if e.cycle < cycles {
                Some(Last::End { cycles, end })
            } else {
                None
            }
        }
        Last::Cycle(_) => None,
        Last::End { .. } => None,
    }
}

/// A line behind the last one, if it may stand there.
fn after_line(before: Last, line: Line) -> Option<Last>
    ensures { result ≡ after_line before line }
{
    match line {
        Line::Cycle(cycle) => after_cycle(before, cycle),
        Line::Act { row, mark } => after_act(before, row, mark),
        Line::End { cycles, end } => after_end(before, cycles, end),
    }
}

/// Reads the next line, if it may stand behind the last one.
#[tactic(auto, unfolding(crate::specs::Reading::next_line))]
fn next_line(before: Last, bytes: &[u8]) -> Option<(Last, &[u8])>
    ensures { Gives (λ x. (x.0, x.1.now)) result (next_line before bytes.now) }
{
    let (line, rest) = line_at(bytes)?;
    let next = after_line(before, line)?;
    Some((next, rest))
}

/// Adds the event that a line tells.
fn push_act(events: &mut Vec<Event>, last: Last) -> Result<(), PipeFault>
    ensures ok { OnOk result (events.new.items ≡ with_act events.old.items last) }
    ensures err { IfErr result (λ fault. fault ≡ faults.OutOfMemory) }
{
    match last {
        Last::Act(e) => {
            events.push(e)?;
            Ok(())
        }
        Last::Nothing => Ok(()),
        Last::Cycle(_) => Ok(()),
        Last::End { .. } => Ok(()),
    }
}

/// Reads line by line, and answers the last one and how many there are.
#[tactic(auto, using(crate::proofs::Loops::loop_starts, crate::proofs::Loops::loop_next, crate::proofs::Loops::line_takes, crate::proofs::Loops::loop_stuck, crate::proofs::Loops::loop_ends))]
fn read_lines(events: &mut Vec<Event>, text: &[u8]) -> Result<(Last, u64), PipeFault>
    requires { events.old.items ≡ [] }
    ensures { ReadsLines text.now events.new.items result }
{
    let mut last = Last::Nothing;
    let mut rest = text;
    let mut lines: u64 = 0;
    while !rest.is_empty() {
        let Some((next, after)) = next_line(last, rest) else {
            return Err(PipeFault::Bad { line: lines + 1 });
        };
        match push_act(events, next) {
            Ok(()) => {}
            Err(fault) => return Err(fault),
        }
        last = next;
        rest = after;
        lines += 1;
    }
    Ok((last, lines))
}

/// Reads a log from its text.
///
/// `Bad` names the first line with which the bytes are no longer lines of a text, or the one that is
/// missing at their end; bytes behind the last newline are one line, and so is what stands behind the
/// line of the end. Memory is taken for events that were read, whatever the numbers in them announce.
#[tactic(auto, using(crate::proofs::Finds::end_is_text, crate::proofs::Finds::stuck_is_bad, crate::proofs::Loops::missing_first, crate::proofs::Loops::missing_event, crate::proofs::Loops::missing_end))]
pub fn read(alloc: Global, text: &[u8]) -> Result<Log, PipeFault>
    ensures { Reads text.now result }
{
    let mut events = Vec::new(alloc);
    let (last, lines) = match read_lines(&mut events, text) {
        Ok((last, lines)) => (last, lines),
        Err(fault) => return Err(fault),
    };
    match last {
        Last::End { cycles, end } => Ok(Log {
            events: Events::from_vec(events),
            cycles,
            end,
        }),
        Last::Nothing => Err(PipeFault::Bad { line: lines + 1 }),
        Last::Cycle(_) => Err(PipeFault::Bad { line: lines + 1 }),
        Last::Act(_) => Err(PipeFault::Bad { line: lines + 1 }),
    }
}
