//! The bytes of a line: strings and comments.
ghost use Rattle.std.specs.Prelude.{◌≡◌, ◌≤◌, length};
ghost use Rattle.std.specs.List.{list_all};
ghost use Rattle.pisa_asm.specs.declared.letters.Quoting.TheVariants.{Outside};
ghost use Rattle.std.specs.Option.{option_map};
ghost use Rattle.text_lines.specs.Lines.{is_blank};
ghost use Rattle.pisa_asm.specs.Letters.{after_byte, closed, begins_comment, code_length, code_of, trim, trim_end};

use text_lines::{is_blank, trim_start};

/// Where a byte of a line stands.
#[derive(Clone, Copy, Debug)]
enum Quoting {
    /// Outside a string.
    Outside,
    /// Inside a string.
    Inside,
    /// Inside a string, behind a backslash.
    Escaped,
}

/// Whether there are only blanks.
pub(crate) fn are_blank(bytes: &[u8]) -> bool
    ensures { result ≡ list_all is_blank bytes.now }
{
    bytes.iter().all(|b| is_blank(*b))
}

impl Quoting {
    /// Where the byte behind `b` stands.
    fn after(self, b: u8) -> Quoting
        ensures { result ≡ after_byte self b }
    {
        match self {
            Quoting::Outside => {
                if b == b'"' {
                    Quoting::Inside
                } else {
                    Quoting::Outside
                }
            }
            Quoting::Inside => {
                if b == b'"' {
                    Quoting::Outside
                } else if b == b'\\' {
                    Quoting::Escaped
                } else {
                    Quoting::Inside
                }
            }
            Quoting::Escaped => Quoting::Inside,
        }
    }

    /// Whether a comment begins with `b`.
    fn begins_comment(self, b: u8) -> bool
        ensures { result ≡ begins_comment self b }
    {
        matches!(self, Quoting::Outside) && b == b'#'
    }
}

/// How many bytes of a line stand before its comment.
fn code_length(line: &[u8]) -> usize
    ensures value { result ≡ code_length Outside line.now }
    ensures fits { result ≤ length line.now }
{
    let mut state = Quoting::Outside;
    for (i, b) in line.iter().enumerate() {
        if state.begins_comment(*b) {
            return i;
        }
        state = state.after(*b);
    }
    line.len()
}

/// A line without its comment.
pub(crate) fn code_of(line: &[u8]) -> &[u8]
    ensures { result.now ≡ code_of line.now }
{
    &line[..code_length(line)]
}

/// The bytes up to the last one that is no blank.
fn trim_end(bytes: &[u8]) -> &[u8]
    ensures { result.now ≡ trim_end bytes.now }
{
    let mut front = bytes;
    while let [rest @ .., last] = front {
        if !is_blank(*last) {
            break;
        }
        front = rest;
    }
    front
}

/// The bytes without the blanks round them.
pub(crate) fn trim(bytes: &[u8]) -> &[u8]
    ensures { result.now ≡ trim bytes.now }
{
    trim_end(trim_start(bytes))
}

/// What stands before a `)` at the end, `None` exactly where none stands there.
pub(crate) fn closed(bytes: &[u8]) -> Option<&[u8]>
    ensures { option_map (λ b. b.now) result ≡ closed bytes.now }
{
    match bytes {
        [front @ .., b')'] => Some(front),
        _ => None,
    }
}
