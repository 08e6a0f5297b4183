//! What one word can stand for.
ghost use Rattle.std.specs.Prelude.{◌≡◌, ◌-◌, ◌^◌, map, min, string_bytes};
ghost use Rattle.std.specs.Char.{is_ascii_digit};
ghost use Rattle.std.specs.List.{list_all};
ghost use Rattle.sim_opts.specs.Word.{has_leading_zero, is_number, digits_of, begins_with_dash, start_block_length, fits_start_block};

/// The most digits of a number.
const MOST_DIGITS: usize = 13;

/// How many bytes a start block has at most.
const LONGEST_BLOCK: u64 = 16384;

/// Whether a text of more than one byte begins with 0.
fn has_leading_zero(text: &[u8]) -> bool
    ensures { result ≡ has_leading_zero text.now }
{
    text.len() > 1 && text[0] == b'0'
}

/// Whether all bytes are decimal digits.
fn are_digits(text: &[u8]) -> bool
    ensures { result ≡ list_all is_ascii_digit text.now }
{
    text.iter().all(|byte| byte.is_ascii_digit())
}

/// Whether a word is one to thirteen digits, of which the first is 0 only where it stands alone.
fn is_number(word: &str) -> bool
    ensures { result ≡ is_number word.now }
{
    let text = word.as_bytes();
    !text.is_empty() && text.len() <= MOST_DIGITS && !has_leading_zero(text) && are_digits(text)
}

/// The number that a word writes, if it writes one.
#[tactic(auto, using(crate::proofs::Numbers::parse_number))]
pub fn digits_of(word: &str) -> Option<u64>
    ensures { result ≡ digits_of word.now }
{
    if !is_number(word) {
        return None;
    }
    match word.parse::<u64>() {
        Ok(value) => Some(value),
        Err(_) => None,
    }
}

/// Whether a word begins with a dash.
pub fn begins_with_dash(word: &str) -> bool
    ensures { result ≡ begins_with_dash word.now }
{
    match word.as_bytes() {
        [first, ..] => *first == b'-',
        [] => false,
    }
}

/// How many bytes the start block of these arguments has, or 2^64 - 1 where that is less.
fn start_block_length(args: &[String]) -> u64
    ensures { result ≡ min (start_block_length (map string_bytes args.now)) (2 ^ 64 - 1) }
{
    let mut length = (args.len() as u64).saturating_add(3).saturating_mul(4);
    for arg in args {
        length = length.saturating_add(arg.len() as u64).saturating_add(1);
    }
    length
}

/// Whether the start block of these arguments has at most 16,384 bytes.
pub fn fits_start_block(args: &[String]) -> bool
    ensures { result ≡ fits_start_block (map string_bytes args.now) }
{
    start_block_length(args) <= LONGEST_BLOCK
}
