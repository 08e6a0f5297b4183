//! The lines of a text, and what may stand on them.
ghost use Rattle.std.specs.Prelude.{◌≡◌, ◌<◌, ◌∷◌, length, nat_eq, IfSome};
ghost use Rattle.std.specs.List.{list_all, position};
ghost use Rattle.std.specs.Option.{option_map};
ghost use Rattle.text_lines.specs.Lines.{lines_of, is_blank, is_allowed, parted, trim_start};

/// Whether a byte is a space, a tab or a carriage return.
pub fn is_blank(b: u8) -> bool
    ensures { result ≡ is_blank b }
{
    b == b' ' || b == b'\t' || b == b'\r'
}

/// Whether a byte is a blank or printable ASCII.
fn is_allowed(b: u8) -> bool
    ensures { result ≡ is_allowed b }
{
    is_blank(b) || (33 <= b && b <= 126)
}

/// Whether all bytes of a line are blanks or printable ASCII.
pub fn are_allowed(line: &[u8]) -> bool
    ensures { result ≡ list_all is_allowed line.now }
{
    line.iter().all(|b| is_allowed(*b))
}

/// The bytes from the first one on that is no blank.
pub fn trim_start(bytes: &[u8]) -> &[u8]
    ensures { result.now ≡ trim_start bytes.now }
{
    let mut rest = bytes;
    while let [first, others @ ..] = rest {
        if !is_blank(*first) {
            break;
        }
        rest = others;
    }
    rest
}

/// The place of the first `c`.
fn place_of(c: u8, bytes: &[u8]) -> Option<usize>
    ensures value { result ≡ position (λ b. nat_eq b c) bytes.now }
    ensures inside { IfSome result (λ at. at < length bytes.now) }
{
    bytes.iter().position(|b| *b == c)
}

/// What stands before and after the first `c`, `None` exactly where there is none.
pub fn parted(c: u8, bytes: &[u8]) -> Option<(&[u8], &[u8])>
    ensures value { option_map (λ p. (p.0.now, p.1.now)) result ≡ parted c bytes.now }
    ensures shorter { IfSome result (λ p. length p.1.now < length bytes.now) }
{
    match place_of(c, bytes) {
        None => None,
        Some(at) => Some((bytes.split_at(at).0, bytes.split_at(at + 1).1)),
    }
}

/// The first line of a text that is not empty, and what stands behind its newline.
pub fn next_line(text: &[u8]) -> (&[u8], &[u8])
    requires { 0 < length text.now }
    ensures lines { lines_of text.now ≡ result.0.now ∷ lines_of result.1.now }
    ensures shorter { length result.1.now < length text.now }
{
    match parted(b'\n', text) {
        Some(parts) => parts,
        None => (text, &[]),
    }
}
