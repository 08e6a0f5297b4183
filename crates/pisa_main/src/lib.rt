//! What the program `pisa` does with the words, files and streams of a runtime.
//!
//! `perform` is all that `main` calls. Its contract ties the words, the two streams and the status to
//! `simulate` and `Ending::status`, as far as std says anything of files and writers.
#![tactic(auto)]

mod laws;

ghost use Rattle.std.specs.Prelude.{◌≡◌, MatchResult, map, string_bytes};
ghost use Rattle.std.specs.IoError.{error_kind};
ghost use Rattle.pisa_main.specs.Performs.{wants_memory, EndsWithout, Ends, IsStatusOf};

pub use laws::words_that_are_no_text_are_no_command;
use sim_main::{Ending, simulate};
use ss_base::{HostShelf, Sink};
use std::alloc::Global;
use std::io;
use std::io::ErrorKind;
use std::rt::Files;

/// Whether words could not be collected for want of memory. Else one of them is no text.
fn wants_memory(error: &io::Error) -> bool
    ensures { result ≡ wants_memory (error_kind error.now) }
{
    match error.kind() {
        ErrorKind::OutOfMemory => true,
        _ => false,
    }
}

/// Performs the command that words name, over the files of `rt`.
fn command<F: Files, P: Sink, R: Sink>(
    alloc: Global,
    rt: &F,
    words: &[String],
    prog: &mut P,
    stat: &mut R,
) -> Ending
    ensures { Ends P.tells P.contents P.faults P.calm R.tells R.contents R.faults R.calm (map string_bytes words.now) prog.old prog.new stat.old stat.new result }
{
    let mut shelf = HostShelf::new(rt);
    simulate(alloc, words, &mut shelf, prog, stat)
}

/// What is done where words could not be collected. Words that are no text are refused as a word that is
/// no command.
fn without_words<F: Files, P: Sink, R: Sink>(
    alloc: Global,
    rt: &F,
    error: &io::Error,
    prog: &mut P,
    stat: &mut R,
) -> u8
    ensures { EndsWithout P.tells P.contents P.faults P.calm R.tells R.contents R.faults R.calm (wants_memory (error_kind error.now)) prog.old prog.new stat.old stat.new result }
{
    if wants_memory(error) {
        return Ending::OutOfMemory.status();
    }
    let unknown = [String::new(alloc)];
    command(alloc, rt, &unknown, prog, stat).status()
}

/// Performs the words of a command line, without the program's name, over the files of `rt`, with the
/// program's output on `prog` and refusals and statistics on `stat`. Answers the program's status.
///
/// Where memory ran out before all words were collected, both streams stay. Words that are no text are
/// refused at their start, since no command has such a name.
pub fn perform<F: Files, P: Sink, R: Sink>(
    alloc: Global,
    rt: &F,
    words: io::Result<Vec<String>>,
    prog: &mut P,
    stat: &mut R,
) -> u8
    ensures { MatchResult words (λ ws. IsStatusOf (Ends P.tells P.contents P.faults P.calm R.tells R.contents R.faults R.calm (map string_bytes ws.items) prog.old prog.new stat.old stat.new) result) (λ e. EndsWithout P.tells P.contents P.faults P.calm R.tells R.contents R.faults R.calm (wants_memory (error_kind e)) prog.old prog.new stat.old stat.new result) }
{
    match words {
        Ok(words) => command(alloc, rt, &words, prog, stat).status(),
        Err(error) => without_words(alloc, rt, &error, prog, stat),
    }
}
