//! A watch that writes the pipetrace of a run to a file, in pieces.
ghost use Rattle.std.specs.Prelude.{◌≡◌, ◌++◌, [], None, Some, IsTrue, string_bytes};
ghost use Rattle.pipetrace.specs.Text.{event_text, end_line};
ghost use Rattle.pipetrace.specs.Watch.{AnswersAsShelf, Leaves, Pends, WritesPiece, WritesText, file_of, is_short, last_of, left_of, pending_of};

use crate::printing::{event_text, push_end_line};
use ooo_table::{EndWord, Event};
use ss_base::{Name, PutFault, Shelf};
use std::alloc::Global;

/// Pending text is written once it has so many bytes.
const PIECE: usize = 65536;

/// Writes the text of events, as they come, behind what a file holds. It takes memory for what is
/// not written yet.
#[derive(Drop)]
pub struct TextWatch {
    name: Name,
    pending: Vec<u8>,
    last: Option<u64>,
}

/// Writes pending text to a file.
fn write<H: Shelf>(name: &str, pending: &mut Vec<u8>, shelf: &mut H) -> Result<(), PutFault>
    ensures shelf { AnswersAsShelf (H.tells shelf.old) (H.tells shelf.new) (H.calm shelf.old) (H.calm shelf.new) (H.faults shelf.old) (H.faults shelf.new) result }
    ensures file { H.tells shelf.old → WritesText (H.files shelf.old) name.now pending.old.items (H.files shelf.new) result }
    ensures left { Leaves pending.old.items [] pending.new.items result }
{
    match shelf.append(name, pending.as_slice()) {
        Ok(()) => {
            pending.clear();
            Ok(())
        }
        Err(fault) => Err(fault),
    }
}

/// Writes pending text to a file, where it is long.
fn write_long<H: Shelf>(name: &str, pending: &mut Vec<u8>, shelf: &mut H) -> Result<(), PutFault>
    ensures shelf { AnswersAsShelf (H.tells shelf.old) (H.tells shelf.new) (H.calm shelf.old) (H.calm shelf.new) (H.faults shelf.old) (H.faults shelf.new) result }
    ensures file { H.tells shelf.old → WritesPiece (is_short pending.old.items) (H.files shelf.old) name.now pending.old.items (H.files shelf.new) result }
    ensures idle { IsTrue (is_short pending.old.items) → shelf.new ≡ shelf.old }
    ensures left { Leaves pending.old.items (left_of pending.old.items) pending.new.items result }
{
    if pending.len() < PIECE {
        return Ok(());
    }
    write(name, pending, shelf)
}

impl TextWatch {
    /// A watch over the file of this name, to which nothing was written yet.
    pub fn new(alloc: Global, name: String) -> TextWatch
        ensures file { file_of result ≡ string_bytes name }
        ensures pending { pending_of result ≡ [] }
        ensures last { last_of result ≡ None }
    {
        TextWatch {
            name: Name::from_string(name),
            pending: Vec::new(alloc),
            last: None,
        }
    }

    /// Adds the text of an event to what is pending, and writes that where it has 65,536 bytes or
    /// more. After a fault a front of it may have been written; the watch is as before the call.
    pub fn put<H: Shelf>(&mut self, e: &Event, shelf: &mut H) -> Result<(), PutFault>
        ensures shelf { AnswersAsShelf (H.tells shelf.old) (H.tells shelf.new) (H.calm shelf.old) (H.calm shelf.new) (H.faults shelf.old) (H.faults shelf.new) result }
        ensures file { H.tells shelf.old → WritesPiece (is_short (pending_of self.old ++ event_text (last_of self.old) e.now)) (H.files shelf.old) (file_of self.old) (pending_of self.old ++ event_text (last_of self.old) e.now) (H.files shelf.new) result }
        ensures idle { IsTrue (is_short (pending_of self.old ++ event_text (last_of self.old) e.now)) → shelf.new ≡ shelf.old }
        ensures watch { Pends self.old (left_of (pending_of self.old ++ event_text (last_of self.old) e.now)) (Some e.now.cycle) self.new result }
    {
        let length = self.pending.len();
        if event_text(e, self.last, &mut self.pending).is_err() {
            return Err(PutFault::OutOfMemory);
        }
        match write_long(self.name.as_str(), &mut self.pending, shelf) {
            Ok(()) => {
                self.last = Some(e.cycle);
                Ok(())
            }
            Err(fault) => {
                self.pending.truncate(length);
                Err(fault)
            }
        }
    }

    /// Adds the line of the end to what is pending, and writes that, of whatever length. After a
    /// fault a front of it may have been written; the watch is as before the call.
    pub fn finish<H: Shelf>(
        &mut self,
        cycles: u64,
        end: &EndWord,
        shelf: &mut H,
    ) -> Result<(), PutFault>
        ensures shelf { AnswersAsShelf (H.tells shelf.old) (H.tells shelf.new) (H.calm shelf.old) (H.calm shelf.new) (H.faults shelf.old) (H.faults shelf.new) result }
        ensures file { H.tells shelf.old → WritesText (H.files shelf.old) (file_of self.old) (pending_of self.old ++ end_line cycles end.now) (H.files shelf.new) result }
        ensures watch { Pends self.old [] (last_of self.old) self.new result }
    {
        let length = self.pending.len();
        if push_end_line(&mut self.pending, cycles, end).is_err() {
            self.pending.truncate(length);
            return Err(PutFault::OutOfMemory);
        }
        match write(self.name.as_str(), &mut self.pending, shelf) {
            Ok(()) => Ok(()),
            Err(fault) => {
                self.pending.truncate(length);
                Err(fault)
            }
        }
    }
}
