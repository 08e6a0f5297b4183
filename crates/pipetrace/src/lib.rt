//! The pipetrace as text: events, logs, and their lines.
//!
//! `specs/` defines the text of an event, of a log, and which logs are in the grammar, apart from any
//! reader. `event_text` and `print` write exactly that text. `read` answers the one log of which the
//! bytes are the text, or the first line outside of the grammar. `TextWatch` writes the text of events
//! to a file as they come.
#![tactic(auto)]

mod end_word;
mod fault;
mod fields;
mod laws;
mod line;
mod printing;
mod reading;
#[cfg(test)]
mod tests;
mod watch;
#[cfg(test)]
mod watch_tests;

pub use fault::PipeFault;
pub use laws::{
    bytes_have_one_first_bad_line, finishes_write_the_text, puts_take_events, texts_have_one_log,
};
pub use ooo_table::{EndWord, Event, Events, Log, Mark, OooConfig};
pub use printing::{event_text, print, push_end_line};
pub use reading::read;
pub use watch::TextWatch;
