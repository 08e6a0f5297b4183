//! The words of a line.
ghost use Rattle.std.specs.Prelude.{◌≡◌, ◌<◌, ◌≤◌, length, IfSome};
ghost use Rattle.std.specs.List.{position, position_or_len};
ghost use Rattle.std.specs.Option.{option_map};
ghost use Rattle.text_lines.specs.Lines.{before_comment, is_blank};
ghost use Rattle.text_lines.specs.Taking.{IsNextWord, AreOf};

use crate::lines::{is_blank, parted, trim_start};

/// What stands before the first `#` of a line.
pub fn before_comment(line: &[u8]) -> &[u8]
    ensures value { result.now ≡ before_comment line.now }
    ensures bytes { AreOf result.now line.now }
{
    match parted(b'#', line) {
        Some((front, _)) => front,
        None => line,
    }
}

/// The place of the first blank.
fn blank_place(bytes: &[u8]) -> Option<usize>
    ensures value { result ≡ position is_blank bytes.now }
    ensures inside { IfSome result (λ at. at < length bytes.now) }
{
    bytes.iter().position(|b| is_blank(*b))
}

/// How many bytes stand before the first blank.
fn word_length(bytes: &[u8]) -> usize
    ensures value { result ≡ position_or_len is_blank bytes.now }
    ensures inside { result ≤ length bytes.now }
{
    match blank_place(bytes) {
        Some(at) => at,
        None => bytes.len(),
    }
}

/// The first word of a line, and what stands behind it; `None` exactly where there is no word.
pub fn next_word(line: &[u8]) -> Option<(&[u8], &[u8])>
    ensures { IsNextWord line.now (option_map (λ p. (p.0.now, p.1.now)) result) }
{
    let rest = trim_start(line);
    if rest.is_empty() {
        return None;
    }
    Some(rest.split_at(word_length(rest)))
}
