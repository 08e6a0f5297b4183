//! The text of events and of the end, on its way to a file.
ghost use Rattle.std.specs.Prelude.{◌≡◌, ◌++◌, Some};
ghost use Rattle.std.specs.Option.{option_copied};
ghost use Rattle.pipetrace.specs.Text.{end_line, event_text};
ghost use Rattle.sim_watch.specs.Watch.{WritesLine, WritesOrCut, last_piece};

use journal::{Fault, Outside};
use ooo_table::{EndWord, Event};
use pipetrace::{event_text, push_end_line};
use sim_watch::write_long;

/// Adds the text of an event to what is pending, behind the line of the cycle `last`, and writes that
/// to the file where it is long.
#[inline(never)]
fn write_event<O: Outside>(
    outside: &mut O,
    file: &str,
    pending: &mut Vec<u8>,
    e: &Event,
    last: Option<u64>,
) -> Result<(), Fault>
    ensures { WritesLine O.view outside.old (Some file.now) pending.old.items (event_text last e.now) outside.new pending.new.items result }
{
    match event_text(e, last, pending) {
        Ok(()) => {}
        Err(_) => return Err(Fault::OutOfMemory),
    }
    write_long(outside, file, pending)
}

/// Does so where a file is named.
#[inline(always)]
pub fn write_event_if_named<O: Outside>(
    outside: &mut O,
    file: Option<&str>,
    pending: &mut Vec<u8>,
    e: &Event,
    last: Option<u64>,
) -> Result<(), Fault>
    ensures { WritesLine O.view outside.old (option_copied file.entry) pending.old.items (event_text last e.now) outside.new pending.new.items result }
{
    match file {
        Some(name) => write_event(outside, name, pending, e, last),
        None => Ok(()),
    }
}

/// Writes what is pending and the line of the end to a file. What is pending stays.
fn write_end<O: Outside>(
    outside: &mut O,
    file: &str,
    pending: &mut Vec<u8>,
    cycles: u64,
    end: &EndWord,
) -> Result<(), Fault>
    ensures writes { WritesOrCut O.view outside.old (last_piece (Some file.now) (pending.old.items ++ end_line cycles end.now)) outside.new result }
    ensures pending { pending.new.items ≡ pending.old.items }
{
    let length = pending.len();
    if push_end_line(pending, cycles, end).is_err() {
        pending.truncate(length);
        return Err(Fault::OutOfMemory);
    }
    let written = outside.append(file, pending.as_slice());
    pending.truncate(length);
    written
}

/// Does so where a file is named.
pub fn write_end_if_named<O: Outside>(
    outside: &mut O,
    file: Option<&str>,
    pending: &mut Vec<u8>,
    cycles: u64,
    end: &EndWord,
) -> Result<(), Fault>
    ensures writes { WritesOrCut O.view outside.old (last_piece (option_copied file.entry) (pending.old.items ++ end_line cycles end.now)) outside.new result }
    ensures pending { pending.new.items ≡ pending.old.items }
{
    match file {
        Some(name) => write_end(outside, name, pending, cycles, end),
        None => Ok(()),
    }
}
