//! Arithmetic on words.
ghost use Rattle.std.specs.Prelude.{◌≡◌, ◌/◌, ◌%◌, ◌^◌, ◌<◌, ◌*ℤ◌, MatchOption, false, true};
ghost use Rattle.pisa_step.specs.Words.{half_extended, is_in_word, word_of};
ghost use Rattle.pisa_step.specs.Arithmetic.{alu_of, exact_of, is_taken, one_if, product_of, quotient_of, remainder_of};

use crate::action::{Alu, Condition, Exact, Sign};

/// A half as a word, with its sign.
pub fn extend_half(half: u16) -> u32
    ensures { result ≡ half_extended half }
{
    (half.cast_signed() as i32).cast_unsigned()
}

impl Alu {
    /// The value of the function at two words.
    pub fn value(self, a: u32, b: u32) -> u32
        ensures { result ≡ alu_of self a b }
    {
        match self {
            Alu::Add => a.wrapping_add(b),
            Alu::Subtract => a.wrapping_sub(b),
            Alu::And => a & b,
            Alu::Or => a | b,
            Alu::Xor => a ^ b,
            Alu::Nor => !(a | b),
            Alu::ShiftLeft => a << (b % 32),
            Alu::ShiftRight => a >> (b % 32),
            Alu::ShiftRightSigned => (a.cast_signed() >> (b % 32)).cast_unsigned(),
            Alu::Less => one(a.cast_signed() < b.cast_signed()),
            Alu::LessUnsigned => one(a < b),
            Alu::Upper => b.wrapping_mul(65536),
        }
    }
}

/// 1 for yes and 0 for no.
fn one(test: bool) -> u32
    ensures { result ≡ one_if test }
{
    if test { 1 } else { 0 }
}

impl Exact {
    /// The signed value of the function at two words, or None where it is no word.
    pub fn value(self, a: u32, b: u32) -> Option<u32>
        ensures { MatchOption result (is_in_word (exact_of self a b) ≡ false)
            (λ word. (is_in_word (exact_of self a b) ≡ true) × (word ≡ word_of (exact_of self a b))) }
    {
        let (x, y) = (a.cast_signed(), b.cast_signed());
        let exact = match self {
            Exact::Add => x.checked_add(y),
            Exact::Subtract => x.checked_sub(y),
        };
        exact.map(|value| value.cast_unsigned())
    }
}

impl Sign {
    /// The upper and the lower word of a product.
    pub fn product(self, a: u32, b: u32) -> (u32, u32)
        ensures high { result.0 ≡ product_of self a b / 2 ^ 32 }
        ensures low { result.1 ≡ product_of self a b % 2 ^ 32 }
    {
        let product = self.wide_product(a, b);
        ((product >> 32) as u32, (product % (1 << 32)) as u32)
    }

    /// The 64 bits of a product.
    fn wide_product(self, a: u32, b: u32) -> u64
        ensures { result ≡ product_of self a b }
    {
        match self {
            Sign::Signed => signed_product(a.cast_signed(), b.cast_signed()).cast_unsigned(),
            Sign::Unsigned => a as u64 * b as u64,
        }
    }

    /// The quotient, toward zero, and what it leaves, with the dividend's sign.
    pub fn quotient(self, a: u32, b: u32) -> (u32, u32)
        requires { 0 < b }
        ensures quotient { result.0 ≡ quotient_of self a b }
        ensures remainder { result.1 ≡ remainder_of self a b }
    {
        match self {
            Sign::Signed => {
                let (x, y) = (a.cast_signed(), b.cast_signed());
                (
                    x.wrapping_div(y).cast_unsigned(),
                    x.wrapping_rem(y).cast_unsigned(),
                )
            }
            Sign::Unsigned => (a / b, a % b),
        }
    }
}

/// The product of two values of 32 bits.
fn signed_product(x: i32, y: i32) -> i64
    ensures { result ≡ x *ℤ y }
{
    x as i64 * y as i64
}

impl Condition {
    /// Whether a branch is taken, where `a` is the register in `rs` and `b` the one in `rt`.
    pub fn holds(self, a: u32, b: u32) -> bool
        ensures { result ≡ is_taken self a b }
    {
        match self {
            Condition::Equal => a == b,
            Condition::NotEqual => a != b,
            Condition::AtMostZero => a.cast_signed() <= 0,
            Condition::AboveZero => a.cast_signed() > 0,
            Condition::BelowZero => a.cast_signed() < 0,
            Condition::AtLeastZero => a.cast_signed() >= 0,
        }
    }
}
