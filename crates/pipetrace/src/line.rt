//! The lines of a pipetrace, each for itself.
ghost use Rattle.std.specs.Prelude.{◌≡◌};
ghost use Rattle.pipetrace.specs.Reading.{Gives, cycle_at, end_at, fetch_at, line_at, line_of, mark_of, row_at};

use crate::end_word::word_at;
use crate::fields::{address_at, behind, count_at};
use ooo_table::{EndWord, Mark};

/// A line.
#[derive(Clone, Copy, Debug)]
pub enum Line {
    /// A cycle begins.
    Cycle(u64),
    /// An event of the cycle that began last.
    Act { row: u64, mark: Mark },
    /// How many cycles were run, and how the run ended.
    End { cycles: u64, end: EndWord },
}

#[tactic(auto, unfolding(crate::specs::Reading::cycle_at))]
fn cycle_at(bytes: &[u8]) -> Option<(Line, &[u8])>
    ensures { Gives (λ x. (x.0, x.1.now)) result (cycle_at bytes.now) }
{
    let (cycle, rest) = count_at(bytes)?;
    Some((Line::Cycle(cycle), rest))
}

#[tactic(auto, unfolding(crate::specs::Reading::fetch_at))]
fn fetch_at(bytes: &[u8]) -> Option<(Line, &[u8])>
    ensures { Gives (λ x. (x.0, x.1.now)) result (fetch_at bytes.now) }
{
    let (row, rest) = count_at(bytes)?;
    let rest = behind(b" ", rest)?;
    let (pc, rest) = address_at(rest)?;
    let rest = behind(b" ", rest)?;
    let (next, rest) = address_at(rest)?;
    let rest = behind(b" ", rest)?;
    let (queued, rest) = count_at(rest)?;
    let mark = Mark::Fetched { pc, next, queued };
    Some((Line::Act { row, mark }, rest))
}

#[tactic(auto, unfolding(crate::specs::Reading::end_at))]
fn end_at(bytes: &[u8]) -> Option<(Line, &[u8])>
    ensures { Gives (λ x. (x.0, x.1.now)) result (end_at bytes.now) }
{
    let (cycles, rest) = count_at(bytes)?;
    let rest = behind(b" ", rest)?;
    let (end, rest) = word_at(rest)?;
    Some((Line::End { cycles, end }, rest))
}

/// The mark of a letter, for the lines that have a row alone.
fn mark_of(letter: u8) -> Option<Mark>
    ensures { result ≡ mark_of letter }
{
    match letter {
        b'C' => Some(Mark::Committed),
        b'W' => Some(Mark::Written),
        b'R' => Some(Mark::Returned),
        b'X' => Some(Mark::Squashed),
        b'I' => Some(Mark::Issued),
        b'A' => Some(Mark::Accessed),
        b'D' => Some(Mark::Dispatched),
        _ => None,
    }
}

#[tactic(auto, unfolding(crate::specs::Reading::row_at))]
fn row_at(letter: u8, bytes: &[u8]) -> Option<(Line, &[u8])>
    ensures { Gives (λ x. (x.0, x.1.now)) result (row_at letter bytes.now) }
{
    let mark = mark_of(letter)?;
    let (row, rest) = count_at(bytes)?;
    Some((Line::Act { row, mark }, rest))
}

/// What stands behind a letter and a blank.
#[tactic(auto, unfolding(crate::specs::Reading::line_of))]
fn line_of(letter: u8, bytes: &[u8]) -> Option<(Line, &[u8])>
    ensures { Gives (λ x. (x.0, x.1.now)) result (line_of letter bytes.now) }
{
    match letter {
        b'@' => cycle_at(bytes),
        b'+' => fetch_at(bytes),
        b'.' => end_at(bytes),
        _ => row_at(letter, bytes),
    }
}

/// A line with its newline.
#[tactic(auto, unfolding(crate::specs::Reading::line_at))]
pub fn line_at(bytes: &[u8]) -> Option<(Line, &[u8])>
    ensures { Gives (λ x. (x.0, x.1.now)) result (line_at bytes.now) }
{
    let (letter, rest) = bytes.split_first()?;
    let rest = behind(b" ", rest)?;
    let (line, rest) = line_of(*letter, rest)?;
    let rest = behind(b"\n", rest)?;
    Some((line, rest))
}
