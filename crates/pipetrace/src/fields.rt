//! The fields of a line. Each reader takes the bytes from a place on, and answers a value and the
//! bytes behind it, or nothing where no such field stands there.
ghost use Rattle.std.specs.Prelude.{◌≡◌, ◌-◌, ◌<◌, ◌≤◌, ◌^◌, IfSome, length, min};
ghost use Rattle.pipetrace.specs.Reading.{Gives, address_at, behind, byte_at, count_at, decimal_on, digit_at, digit_count, half_at, is_numeral, number_at};

/// Every number of cycles, of a row or of instructions is below this.
const COUNTS: u64 = 0x4000_0000_0000_0000;

/// The bytes behind a word.
#[tactic(auto, using(crate::proofs::Words::strips))]
pub fn behind<'a>(word: &[u8], bytes: &'a [u8]) -> Option<&'a [u8]>
    ensures { Gives (λ rest. rest.now) result (behind word.now bytes.now) }
{
    bytes.strip_prefix(word)
}

/// How many digits stand in front.
fn digit_count(bytes: &[u8]) -> usize
    ensures count { result ≡ digit_count bytes.now }
    ensures within { result ≤ length bytes.now }
{
    for (i, b) in bytes.iter().enumerate() {
        if !b.is_ascii_digit() {
            return i;
        }
    }
    bytes.len()
}

/// Whether these are the digits of a number: one alone, or several of which the first isn't 0.
fn is_numeral(digits: &[u8]) -> bool
    ensures { result ≡ is_numeral digits.now }
{
    if digits.len() > 1 {
        digits[0] != b'0'
    } else {
        digits.len() == 1
    }
}

/// The number of decimal digits, or the greatest of its type where that is less.
fn decimal_value(digits: &[u8]) -> u64
    ensures { result ≡ min (decimal_on 0 digits.now) (2 ^ 64 - 1) }
{
    let mut value: u64 = 0;
    for b in digits {
        let digit = b.saturating_sub(b'0');
        value = value.saturating_mul(10).saturating_add(u64::from(digit));
    }
    value
}

/// A number below a limit, in decimal digits.
#[tactic(auto, unfolding(crate::specs::Reading::number_at))]
fn number_at(limit: u64, bytes: &[u8]) -> Option<(u64, &[u8])>
    ensures value { Gives (λ x. (x.0, x.1.now)) result (number_at limit bytes.now) }
    ensures below { IfSome result (λ x. x.0 < limit) }
{
    let (digits, rest) = bytes.split_at(digit_count(bytes));
    if !is_numeral(digits) {
        return None;
    }
    let value = decimal_value(digits);
    if value < limit {
        Some((value, rest))
    } else {
        None
    }
}

/// A number of cycles, of a row or of instructions.
pub fn count_at(bytes: &[u8]) -> Option<(u64, &[u8])>
    ensures { Gives (λ x. (x.0, x.1.now)) result (count_at bytes.now) }
{
    number_at(COUNTS, bytes)
}

/// A number below 2^32.
pub fn word_number_at(bytes: &[u8]) -> Option<(u32, &[u8])>
    ensures { Gives (λ x. (x.0, x.1.now)) result (number_at 4294967296 bytes.now) }
{
    let (value, rest) = number_at(0x1_0000_0000, bytes)?;
    Some((value as u32, rest))
}

/// A number below 256.
pub fn byte_number_at(bytes: &[u8]) -> Option<(u8, &[u8])>
    ensures { Gives (λ x. (x.0, x.1.now)) result (number_at 256 bytes.now) }
{
    let (value, rest) = number_at(0x100, bytes)?;
    Some((value as u8, rest))
}

/// A hexadecimal digit in lower case.
fn digit_at(bytes: &[u8]) -> Option<(u8, &[u8])>
    ensures value { Gives (λ x. (x.0, x.1.now)) result (digit_at bytes.now) }
    ensures below { IfSome result (λ x. x.0 < 16) }
{
    let (first, rest) = bytes.split_first()?;
    let b = *first;
    if b.is_ascii_digit() {
        return Some((b - b'0', rest));
    }
    if b < b'a' || b > b'f' {
        return None;
    }
    Some((b - (b'a' - 10), rest))
}

/// Two hexadecimal digits.
#[tactic(auto, unfolding(crate::specs::Reading::byte_at))]
fn byte_at(bytes: &[u8]) -> Option<(u16, &[u8])>
    ensures value { Gives (λ x. (x.0, x.1.now)) result (byte_at bytes.now) }
    ensures below { IfSome result (λ x. x.0 < 256) }
{
    let (high, rest) = digit_at(bytes)?;
    let (low, rest) = digit_at(rest)?;
    Some((16 * u16::from(high) + u16::from(low), rest))
}

/// Four hexadecimal digits.
#[tactic(auto, unfolding(crate::specs::Reading::half_at))]
pub fn half_at(bytes: &[u8]) -> Option<(u16, &[u8])>
    ensures { Gives (λ x. (x.0, x.1.now)) result (half_at bytes.now) }
{
    let (high, rest) = byte_at(bytes)?;
    let (low, rest) = byte_at(rest)?;
    Some((256 * high + low, rest))
}

/// Eight hexadecimal digits.
#[tactic(auto, unfolding(crate::specs::Reading::address_at))]
pub fn address_at(bytes: &[u8]) -> Option<(u32, &[u8])>
    ensures { Gives (λ x. (x.0, x.1.now)) result (address_at bytes.now) }
{
    let (high, rest) = half_at(bytes)?;
    let (low, rest) = half_at(rest)?;
    Some((65536 * u32::from(high) + u32::from(low), rest))
}
