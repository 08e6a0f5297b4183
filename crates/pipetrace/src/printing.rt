//! The text of an event and of a log.
ghost use Rattle.std.specs.Prelude.{◌≡◌, ◌++◌, None, codes, decimal, OnOk, OnErr, IfOk};
ghost use Rattle.ss_base.specs.Text.{hex8};
ghost use Rattle.ss_base.specs.Outside.{BeginsWith};
ghost use Rattle.ooo_table.specs.declared.event.Mark.TheVariants as marks;
ghost use Rattle.pipetrace.specs.Text.{mark_text, is_open, opening, event_text, events_text, word_text, end_line, text_of};

use ooo_table::{EndWord, Event, Log, Mark};
use pisa_step::Cause;
use sim_safe::{RunEnd, push_end};
use ss_base::{OutOfMemory, push_decimal, push_hex};
use std::alloc::Global;

/// Adds bytes.
fn push_bytes(into: &mut Vec<u8>, bytes: &[u8]) -> Result<(), OutOfMemory>
    ensures ok { OnOk result (into.new.items ≡ into.old.items ++ bytes.now) }
    ensures err { OnErr result (into.new.items ≡ into.old.items) }
{
    into.extend_from_slice(bytes)?;
    Ok(())
}

/// Adds a letter, a blank and a number, or a front of that.
fn push_number(into: &mut Vec<u8>, word: &[u8], number: u64) -> Result<(), OutOfMemory>
    ensures ok { OnOk result (into.new.items ≡ into.old.items ++ (word.now ++ decimal number)) }
    ensures err { OnErr result (BeginsWith into.new.items into.old.items) }
{
    push_bytes(into, word)?;
    push_decimal(into, number)
}

/// Adds a blank and an address, or a front of that.
fn push_address(into: &mut Vec<u8>, address: u32) -> Result<(), OutOfMemory>
    ensures ok { OnOk result (into.new.items ≡ into.old.items ++ (codes " " ++ hex8 address)) }
    ensures err { OnErr result (BeginsWith into.new.items into.old.items) }
{
    push_bytes(into, b" ")?;
    push_hex(into, address)
}

/// Adds what stands in the line of a fetch, or a front of that.
#[tactic(auto, using(ss_base::specs::Begins::begins_front))]
fn push_fetch(
    into: &mut Vec<u8>,
    row: u64,
    pc: u32,
    next: u32,
    queued: u64,
) -> Result<(), OutOfMemory>
    ensures ok { OnOk result (into.new.items ≡ into.old.items ++ mark_text row (marks.Fetched pc next queued)) }
    ensures err { OnErr result (BeginsWith into.new.items into.old.items) }
{
    push_number(into, b"+ ", row)?;
    push_address(into, pc)?;
    push_address(into, next)?;
    push_number(into, b" ", queued)
}

/// Adds what stands in the line of a row's mark, or a front of that.
fn push_mark(into: &mut Vec<u8>, row: u64, mark: Mark) -> Result<(), OutOfMemory>
    ensures ok { OnOk result (into.new.items ≡ into.old.items ++ mark_text row mark) }
    ensures err { OnErr result (BeginsWith into.new.items into.old.items) }
{
    match mark {
        Mark::Committed => push_number(into, b"C ", row),
        Mark::Written => push_number(into, b"W ", row),
        Mark::Returned => push_number(into, b"R ", row),
        Mark::Squashed => push_number(into, b"X ", row),
        Mark::Issued => push_number(into, b"I ", row),
        Mark::Accessed => push_number(into, b"A ", row),
        Mark::Dispatched => push_number(into, b"D ", row),
        Mark::Fetched { pc, next, queued } => push_fetch(into, row, pc, next, queued),
    }
}

/// Whether this is the cycle whose line was the last.
fn is_open(last: Option<u64>, cycle: u64) -> bool
    ensures { result ≡ is_open last cycle }
{
    match last {
        None => false,
        Some(last) => last == cycle,
    }
}

/// Adds the line of a cycle where it isn't the last one, or a front of that.
fn push_opening(into: &mut Vec<u8>, last: Option<u64>, cycle: u64) -> Result<(), OutOfMemory>
    ensures ok { OnOk result (into.new.items ≡ into.old.items ++ opening last cycle) }
    ensures err { OnErr result (BeginsWith into.new.items into.old.items) }
{
    if is_open(last, cycle) {
        return Ok(());
    }
    push_number(into, b"@ ", cycle)?;
    push_bytes(into, b"\n")
}

/// Adds the text of an event, or a front of it.
#[tactic(auto, using(ss_base::specs::Begins::begins_front))]
fn push_event(into: &mut Vec<u8>, e: &Event, last: Option<u64>) -> Result<(), OutOfMemory>
    ensures ok { OnOk result (into.new.items ≡ into.old.items ++ event_text last e.now) }
    ensures err { OnErr result (BeginsWith into.new.items into.old.items) }
{
    push_opening(into, last, e.cycle)?;
    push_mark(into, e.row, e.mark)?;
    push_bytes(into, b"\n")
}

/// Adds the text of an event behind the line of the cycle `last`: the line of its own cycle where
/// that is another one, and its line. Want of memory leaves `into` as it was.
pub fn event_text(e: &Event, last: Option<u64>, into: &mut Vec<u8>) -> Result<(), OutOfMemory>
    ensures ok { OnOk result (into.new.items ≡ into.old.items ++ event_text last e.now) }
    ensures err { OnErr result (into.new.items ≡ into.old.items) }
{
    let length = into.len();
    let pushed = push_event(into, e, last);
    if pushed.is_err() {
        into.truncate(length);
    }
    pushed
}

/// Adds how a run ended, in words.
fn push_word(into: &mut Vec<u8>, end: &EndWord) -> Result<(), OutOfMemory>
    ensures ok { OnOk result (into.new.items ≡ into.old.items ++ word_text end.now) }
    ensures err { OnErr result (into.new.items ≡ into.old.items) }
{
    match *end {
        EndWord::Exited(code) => push_end(into, RunEnd::Stop(Cause::Exited { code }), 0, 0),
        EndWord::Budget => push_end(into, RunEnd::Limit, 0, 0),
        EndWord::Stopped { pc, icnt, cause } => push_end(into, RunEnd::Stop(cause), pc, icnt),
    }
}

/// Adds the line of the end, or a front of it.
#[tactic(auto, using(ss_base::specs::Begins::begins_front))]
pub fn push_end_line(into: &mut Vec<u8>, cycles: u64, end: &EndWord) -> Result<(), OutOfMemory>
    ensures ok { OnOk result (into.new.items ≡ into.old.items ++ end_line cycles end.now) }
    ensures err { OnErr result (BeginsWith into.new.items into.old.items) }
{
    push_number(into, b". ", cycles)?;
    push_bytes(into, b" ")?;
    push_word(into, end)?;
    push_bytes(into, b"\n")
}

/// Adds the text of events.
#[tactic(auto, using(crate::proofs::Parts::event_next))]
fn push_events(into: &mut Vec<u8>, events: &[Event]) -> Result<(), OutOfMemory>
    ensures { OnOk result (into.new.items ≡ into.old.items ++ events_text None events.now) }
{
    let mut last = None;
    for e in events {
        push_event(into, e, last)?;
        last = Some(e.cycle);
    }
    Ok(())
}

/// The text of a log. It takes time and memory in proportion to the text.
pub fn print(alloc: Global, log: &Log) -> Result<Vec<u8>, OutOfMemory>
    ensures { IfOk result (λ bytes. bytes.items ≡ text_of log.now) }
{
    let mut bytes = Vec::new(alloc);
    push_events(&mut bytes, log.events.as_slice())?;
    push_end_line(&mut bytes, log.cycles, &log.end)?;
    Ok(bytes)
}
