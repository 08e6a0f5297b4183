//! Words and halves in memory.
ghost use Rattle.std.specs.Prelude.{◌≡◌, ◌+◌, ◌-◌, ◌%◌, ◌<◌, ◌≤◌, ◌^◌, ◌++◌, length};
ghost use Rattle.pisa_step.specs.Effect.{vec_of};
ghost use Rattle.pisa_step.specs.Memory.{half_bytes, loaded_of, loaded_size, meets, part_loaded, part_start, part_stored, over_low, over_high, stored_of, stored_size, word_bytes};
ghost use Rattle.pisa_step.specs.Words.{byte_extended};

use crate::action::{Loaded, Side, Stored};
use crate::changes::TextRange;
use crate::machine::Machine;
use crate::words::extend_half;
use arrayvec::ArrayVec;

/// A byte as a word, with its sign.
fn extend_byte(byte: u8) -> u32
    ensures { result ≡ byte_extended byte }
{
    (byte.cast_signed() as i32).cast_unsigned()
}

/// The bytes of a half, in a byte order.
fn bytes_of_half(big: bool, half: u16) -> [u8; 2]
    ensures { result ≡ half_bytes big half }
{
    if big {
        half.to_be_bytes()
    } else {
        half.to_le_bytes()
    }
}

/// The bytes of a word, in a byte order.
fn bytes_of_word(big: bool, word: u32) -> [u8; 4]
    ensures { result ≡ word_bytes big word }
{
    if big {
        word.to_be_bytes()
    } else {
        word.to_le_bytes()
    }
}

impl Loaded {
    /// Of how many bytes an address must be a multiple.
    pub fn size(self) -> u32
        ensures value { result ≡ loaded_size self }
        ensures positive { 0 < result }
    {
        match self {
            Loaded::Byte | Loaded::ByteUnsigned => 1,
            Loaded::Half | Loaded::HalfUnsigned => 2,
            Loaded::Word => 4,
        }
    }

    /// What a load gives.
    #[inline(always)]
    pub fn value<M: Machine>(self, m: &M, a: u32) -> u32
        requires { a + loaded_size self ≤ 2 ^ 32 }
        ensures { result ≡ loaded_of self (M.reads m.now) a }
    {
        match self {
            Loaded::Byte => extend_byte(m.byte(a)),
            Loaded::ByteUnsigned => m.byte(a) as u32,
            Loaded::Half => extend_half(m.half(a)),
            Loaded::HalfUnsigned => u32::from(m.half(a)),
            Loaded::Word => m.word(a),
        }
    }
}

/// A vector of the bytes of a slice.
#[inline(always)]
fn collected(bytes: &[u8]) -> ArrayVec<u8, 8>
    requires { length bytes.now ≤ 8 }
    ensures { result ≡ vec_of bytes.now }
{
    let mut all = ArrayVec::new();
    let _fits = all.try_extend_from_slice(bytes);
    all
}

impl Stored {
    /// Of how many bytes an address must be a multiple.
    pub fn size(self) -> u32
        ensures value { result ≡ stored_size self }
        ensures positive { 0 < result }
    {
        match self {
            Stored::Byte => 1,
            Stored::Half => 2,
            Stored::Word => 4,
            Stored::Pair | Stored::Zero => 8,
        }
    }

    /// What a store writes, where `rt` is its register.
    #[inline(always)]
    pub fn bytes<M: Machine>(self, m: &M, rt: u8) -> ArrayVec<u8, 8>
        requires register { rt < 32 }
        requires pair { self ≡ Stored.Pair → rt < 31 }
        ensures { result ≡ vec_of (stored_of self (M.reads m.now) rt) }
    {
        let value = m.reg(rt);
        match self {
            Stored::Byte => collected(&[(value & 0xff) as u8]),
            Stored::Half => collected(&bytes_of_half(m.big(), (value & 0xffff) as u16)),
            Stored::Word => collected(&bytes_of_word(m.big(), value)),
            Stored::Pair => pair(m.big(), value, m.reg(rt + 1)),
            Stored::Zero => collected(&[0; 8]),
        }
    }
}

/// The bytes of two words, in a byte order.
fn pair(big: bool, first: u32, second: u32) -> ArrayVec<u8, 8>
    ensures { result ≡ vec_of (word_bytes big first ++ word_bytes big second) }
{
    let [a, b, c, d] = bytes_of_word(big, first);
    let [e, f, g, h] = bytes_of_word(big, second);
    collected(&[a, b, c, d, e, f, g, h])
}

/// Whether one of so many bytes from an address on lies in text.
pub fn meets_text(text: TextRange, addr: u32, count: usize) -> bool
    requires { addr + count ≤ 2 ^ 32 }
    ensures { result ≡ meets text addr count }
{
    let end = u64::from(addr) + count as u64;
    u64::from(addr.max(text.start)) < end.min(u64::from(text.end))
}

impl Side {
    /// What a part load gives: `place` is the place of the address in its word, `word` the word there.
    pub fn merged(self, big: bool, place: u32, word: u32, old: u32) -> u32
        requires { place < 4 }
        ensures { result ≡ part_loaded self big place word old }
    {
        match (self, big) {
            (Side::Left, false) => join_low(3 - place, word, old),
            (Side::Right, false) => join_high(place, word, old),
            (Side::Left, true) => join_low(place, word, old),
            (Side::Right, true) => join_high(3 - place, word, old),
        }
    }

    /// What a part store writes.
    pub fn part(self, big: bool, place: u32, value: u32) -> ArrayVec<u8, 8>
        requires { place < 4 }
        ensures { result ≡ vec_of (part_stored self big place value) }
    {
        let place = place as usize;
        match (self, big) {
            (Side::Left, false) => collected(&value.to_le_bytes()[3 - place..]),
            (Side::Right, false) => collected(&value.to_le_bytes()[..4 - place]),
            (Side::Left, true) => collected(&value.to_be_bytes()[..4 - place]),
            (Side::Right, true) => collected(&value.to_be_bytes()[3 - place..]),
        }
    }

    /// Where a part store writes.
    pub fn start(self, big: bool, a: u32) -> u32
        ensures { result ≡ part_start self big a }
    {
        match (self, big) {
            (Side::Left, false) | (Side::Right, true) => a - a % 4,
            (Side::Left, true) | (Side::Right, false) => a,
        }
    }
}

/// A word moved up by `count` bytes, joined with as many low bytes of the old value.
fn join_low(count: u32, word: u32, old: u32) -> u32
    requires { count < 4 }
    ensures { result ≡ over_low count word old }
{
    match count {
        0 => word,
        1 => word % 0x100_0000 * 0x100 + old % 0x100,
        2 => word % 0x1_0000 * 0x1_0000 + old % 0x1_0000,
        _ => word % 0x100 * 0x100_0000 + old % 0x100_0000,
    }
}

/// A word moved down by `count` bytes, joined with as many high bytes of the old value.
fn join_high(count: u32, word: u32, old: u32) -> u32
    requires { count < 4 }
    ensures { result ≡ over_high count word old }
{
    match count {
        0 => word,
        1 => word / 0x100 + old / 0x100_0000 * 0x100_0000,
        2 => word / 0x1_0000 + old / 0x1_0000 * 0x1_0000,
        _ => word / 0x100_0000 + old / 0x100 * 0x100,
    }
}
