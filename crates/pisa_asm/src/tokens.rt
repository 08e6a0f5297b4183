//! The tokens of a source: labels, numbers and registers.
ghost use Rattle.std.specs.Prelude.{◌≡◌, ◌^◌, ◌-◌, ◌<◌, ◌≤◌, ◌+◌, IfOk, min, max};
ghost use Rattle.std.specs.List.{list_all};
ghost use Rattle.pisa_asm.specs.Tokens.{decimal_on, hex_digit_value, hex_on, is_decimal, is_digit, is_hex, is_hex_digit, is_label, is_letter, is_name_byte, decimal_in, hex_in, is_within, limited_in, number_in, register_in, residue};

use ss_base::TextWhy;

/// A number of a source: its sign and its magnitude.
#[derive(Clone, Copy, Debug)]
pub(crate) struct Number {
    /// Whether it begins with a `-`.
    pub negative: bool,
    /// How far it is from 0.
    pub magnitude: u64,
}

fn is_digit(b: u8) -> bool
    ensures { result ≡ is_digit b }
{
    b'0' <= b && b <= b'9'
}

fn is_letter(b: u8) -> bool
    ensures { result ≡ is_letter b }
{
    (b'A' <= b && b <= b'Z') || (b'a' <= b && b <= b'z') || b == b'_'
}

fn is_name_byte(b: u8) -> bool
    ensures { result ≡ is_name_byte b }
{
    is_letter(b) || is_digit(b)
}

fn are_name_bytes(token: &[u8]) -> bool
    ensures { result ≡ list_all is_name_byte token.now }
{
    token.iter().all(|b| is_name_byte(*b))
}

fn are_digits(token: &[u8]) -> bool
    ensures { result ≡ list_all is_digit token.now }
{
    token.iter().all(|b| is_digit(*b))
}

fn are_hex_digits(token: &[u8]) -> bool
    ensures { result ≡ list_all is_hex_digit token.now }
{
    token.iter().all(|b| is_hex_digit(*b))
}

/// Whether a token can be a label.
pub(crate) fn is_label(token: &[u8]) -> bool
    ensures { result ≡ is_label token.now }
{
    let Some(first) = token.first() else {
        return false;
    };
    if !is_letter(*first) || token.len() > 32 {
        return false;
    }
    are_name_bytes(token)
}

/// Whether a token is decimal digits without a leading zero.
fn is_decimal(token: &[u8]) -> bool
    ensures { result ≡ is_decimal token.now }
{
    let Some(first) = token.first() else {
        return false;
    };
    if !are_digits(token) {
        return false;
    }
    b'1' <= *first || token.len() <= 1
}

/// The number of decimal digits, or the greatest of its type where that is less.
fn decimal_value(digits: &[u8]) -> u64
    ensures { result ≡ min (decimal_on 0 digits.now) (2 ^ 64 - 1) }
{
    let mut value: u64 = 0;
    for b in digits {
        let digit = b.saturating_sub(b'0');
        value = value.saturating_mul(10).saturating_add(u64::from(digit));
    }
    value
}

fn is_hex_digit(b: u8) -> bool
    ensures { result ≡ is_hex_digit b }
{
    is_digit(b) || (b'A' <= b && b <= b'F') || (b'a' <= b && b <= b'f')
}

/// The value of a hexadecimal digit.
fn hex_digit_value(b: u8) -> u8
    ensures { result ≡ hex_digit_value b }
{
    if b <= b'9' {
        b.saturating_sub(b'0')
    } else if b <= b'F' {
        b - (b'A' - 10)
    } else {
        b.saturating_sub(b'a' - 10)
    }
}

/// Whether a token is one to eight hexadecimal digits.
fn is_hex(digits: &[u8]) -> bool
    ensures { result ≡ is_hex digits.now }
{
    if digits.is_empty() || digits.len() > 8 {
        return false;
    }
    are_hex_digits(digits)
}

/// The number of hexadecimal digits, or the greatest of its type where that is less.
fn hex_value(digits: &[u8]) -> u64
    ensures { result ≡ min (hex_on 0 digits.now) (2 ^ 64 - 1) }
{
    let mut value: u64 = 0;
    for b in digits {
        let digit = hex_digit_value(*b);
        value = value.saturating_mul(16).saturating_add(u64::from(digit));
    }
    value
}

/// Decimal digits, behind a sign or none.
fn decimal_in(negative: bool, digits: &[u8]) -> Option<Number>
    ensures { result ≡ decimal_in negative digits.now }
{
    if !is_decimal(digits) {
        return None;
    }
    Some(Number {
        negative,
        magnitude: decimal_value(digits),
    })
}

/// Hexadecimal digits, behind their `0x`.
fn hex_in(digits: &[u8]) -> Option<Number>
    ensures { result ≡ hex_in digits.now }
{
    if !is_hex(digits) {
        return None;
    }
    Some(Number {
        negative: false,
        magnitude: hex_value(digits),
    })
}

/// The number that a token is, with a magnitude that is cut at the greatest of its type.
pub(crate) fn number_in(token: &[u8]) -> Option<Number>
    ensures { result ≡ number_in token.now }
{
    match token {
        [b'-', digits @ ..] => decimal_in(true, digits),
        [b'0', b'x', digits @ ..] => hex_in(digits),
        _ => decimal_in(false, token),
    }
}

impl Number {
    /// Whether the number is at least -low and at most high.
    pub(crate) fn is_within(self, low: u64, high: u64) -> bool
        ensures { result ≡ is_within low high self }
    {
        if self.negative {
            self.magnitude <= low
        } else {
            self.magnitude <= high
        }
    }

    /// The number modulo `modulus`.
    pub(crate) fn residue(self, modulus: u64) -> u64
        requires positive { 0 < modulus }
        requires within { self.magnitude < modulus }
        ensures value { result ≡ residue modulus self }
        ensures below { result < modulus }
    {
        if self.negative {
            (modulus - self.magnitude) % modulus
        } else {
            self.magnitude
        }
    }
}

/// The number that a token is, where it is at least -low and at most high.
pub(crate) fn limited_in(low: u32, high: u32, token: &[u8]) -> Result<Number, TextWhy>
    ensures value { result ≡ limited_in low high token.now }
    ensures bounded { IfOk result (λ n. n.magnitude ≤ max low high) }
{
    match number_in(token) {
        None => Err(TextWhy::Number),
        Some(number) => {
            if number.is_within(u64::from(low), u64::from(high)) {
                Ok(number)
            } else {
                Err(TextWhy::Range)
            }
        }
    }
}

/// The number of the register that a token is, where it is at most `last`.
pub(crate) fn register_in(last: u8, token: &[u8]) -> Result<u8, TextWhy>
    ensures { result ≡ register_in last token.now }
{
    let Some((first, digits)) = token.split_first() else {
        return Err(TextWhy::Form);
    };
    if *first != b'$' || !is_decimal(digits) {
        return Err(TextWhy::Form);
    }
    let number = decimal_value(digits);
    if number <= u64::from(last) {
        Ok(number as u8)
    } else {
        Err(TextWhy::Range)
    }
}
