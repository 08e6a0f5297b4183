//! Halves and words in either byte order.

ghost use Rattle.std.specs.Prelude.{◌≡◌, ◌+◌, ◌≤◌, ◌++◌, length, OnOk};
ghost use Rattle.ecoff_load.specs.Words.{half_in, word_in, half_bytes, word_bytes};

use ss_base::{get16, get32};
use std::alloc::AllocError;

/// The number in the two bytes from `at` on, in the given byte order.
pub fn get_half(bytes: &[u8], at: usize, big: bool) -> u16
    requires { at + 2 ≤ length bytes.now }
    ensures { result ≡ half_in big bytes.now at }
{
    if big {
        u16::from(bytes[at + 1]) + 0x100 * u16::from(bytes[at])
    } else {
        get16(bytes, at)
    }
}

/// The number in the four bytes from `at` on, in the given byte order.
pub fn get_word(bytes: &[u8], at: usize, big: bool) -> u32
    requires { at + 4 ≤ length bytes.now }
    ensures { result ≡ word_in big bytes.now at }
{
    if big {
        u32::from(bytes[at + 3])
            + 0x100 * u32::from(bytes[at + 2])
            + 0x1_0000 * u32::from(bytes[at + 1])
            + 0x100_0000 * u32::from(bytes[at])
    } else {
        get32(bytes, at)
    }
}

/// Adds the two bytes of a number in the given byte order.
pub fn push_half(bytes: &mut Vec<u8>, half: u16, big: bool) -> Result<(), AllocError>
    ensures { OnOk result (bytes.new.items ≡ bytes.old.items ++ half_bytes big half) }
{
    if big {
        bytes.extend_from_slice(&half.to_be_bytes())
    } else {
        bytes.extend_from_slice(&half.to_le_bytes())
    }
}

/// Adds the four bytes of a number in the given byte order.
pub fn push_word(bytes: &mut Vec<u8>, word: u32, big: bool) -> Result<(), AllocError>
    ensures { OnOk result (bytes.new.items ≡ bytes.old.items ++ word_bytes big word) }
{
    if big {
        bytes.extend_from_slice(&word.to_be_bytes())
    } else {
        bytes.extend_from_slice(&word.to_le_bytes())
    }
}
