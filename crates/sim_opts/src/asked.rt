//! The one call that reads words.
ghost use Rattle.std.specs.Prelude.{◌≡◌, ◌^◌, ◌-◌, map, min, string_bytes};
ghost use Rattle.sim_opts.specs.Words.{is_unbuilt, read};
ghost use Rattle.sim_opts.specs.Options.{said_in, clash, Answers};

use crate::options::{Options, options_of};
use crate::table::is_unbuilt_name;
use crate::words::{Stop, WordWhy, read};
use std::alloc::Global;
use thiserror::Error;

/// Why words were refused.
#[derive(Clone, Copy, Debug, PartialEq, Eq, Error)]
pub enum WordFault {
    /// The first wrong place, counted from 0, or 2^32 - 1 where that is less, and the reason. What
    /// is wrong at the end has the number of words as its place.
    #[error("word {at}: {why:?}")]
    Bad { at: u32, why: WordWhy },
    /// A growth found no memory.
    #[error("out of memory")]
    OutOfMemory,
}

/// A place as it is told.
pub(crate) fn place_of(at: usize) -> u32
    ensures { result ≡ min at (2 ^ 32 - 1) }
{
    if at < u32::MAX as usize {
        at as u32
    } else {
        u32::MAX
    }
}

/// Whether the first word is the name of a command that is not built. Who reads words asks this first.
pub fn is_unbuilt(words: &[String]) -> bool
    ensures { result ≡ is_unbuilt (map string_bytes words.now) }
{
    match words.first() {
        Some(command) => is_unbuilt_name(command.as_str()),
        None => false,
    }
}

/// Whether options clash: two files that are written have one name.
pub fn clash(o: &Options) -> bool
    ensures { result ≡ clash (said_in o.now) }
{
    let Some(commits) = &o.commits else {
        return false;
    };
    let Some((point, _)) = &o.chkpt else {
        return false;
    };
    commits.as_str() == point.as_str()
}

/// What words ask for, which are those after the program's name, or their first wrong place and the
/// reason. It takes memory in proportion to the words.
pub fn read_words(alloc: Global, words: &[String]) -> Result<Options, WordFault>
    ensures { Answers (read (map string_bytes words.now)) result }
{
    match read(alloc, words) {
        Ok(reading) => match options_of(alloc, reading) {
            Ok(options) => Ok(options),
            Err(_) => Err(WordFault::OutOfMemory),
        },
        Err(Stop::Wrong(wrong)) => Err(WordFault::Bad {
            at: place_of(wrong.at),
            why: wrong.why,
        }),
        Err(Stop::NoMemory) => Err(WordFault::OutOfMemory),
    }
}
