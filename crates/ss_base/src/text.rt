ghost use Rattle.std.specs.Prelude.{◌≡◌, ◌+◌, ◌-◌, ◌%◌, ◌<◌, ◌≤◌, ◌++◌, length, decimal, OnOk, OnErr};
ghost use Rattle.ss_base.specs.Text.{hex_digit, hex8, hex_bytes, half_at, word_at, double_at};

use crate::fault::OutOfMemory;
use itoa::Buffer;

/// Adds the decimal digits of a number.
pub fn push_decimal(into: &mut Vec<u8>, n: u64) -> Result<(), OutOfMemory>
    ensures ok { OnOk result (into.new.items ≡ into.old.items ++ decimal n) }
    ensures err { OnErr result (into.new.items ≡ into.old.items) }
{
    let mut buffer = Buffer::new();
    into.extend_from_slice(buffer.format(n).as_bytes())?;
    Ok(())
}

/// The hexadecimal digit of a number below 16.
fn digit(n: u8) -> u8
    requires { n < 16 }
    ensures { result ≡ hex_digit n }
{
    if n < 10 { b'0' + n } else { b'a' - 10 + n }
}

/// The hexadecimal digit of the four low bits.
fn low_digit(n: u32) -> u8
    ensures { result ≡ hex_digit (n % 16) }
{
    digit((n % 16) as u8)
}

/// Adds the eight lower-case hexadecimal digits of a number.
pub fn push_hex(into: &mut Vec<u8>, n: u32) -> Result<(), OutOfMemory>
    ensures ok { OnOk result (into.new.items ≡ into.old.items ++ hex8 n) }
    ensures err { OnErr result (into.new.items ≡ into.old.items) }
{
    let digits = [
        low_digit(n / 0x1000_0000),
        low_digit(n / 0x100_0000),
        low_digit(n / 0x10_0000),
        low_digit(n / 0x1_0000),
        low_digit(n / 0x1000),
        low_digit(n / 0x100),
        low_digit(n / 0x10),
        low_digit(n),
    ];
    into.extend_from_slice(&digits)?;
    Ok(())
}

/// Adds two lower-case hexadecimal digits for each byte.
pub fn push_hex_bytes(into: &mut Vec<u8>, bytes: &[u8]) -> Result<(), OutOfMemory>
    ensures ok { OnOk result (into.new.items ≡ into.old.items ++ hex_bytes bytes.now) }
    ensures err { OnErr result (into.new.items ≡ into.old.items) }
{
    let before = into.len();
    for byte in bytes {
        let digits = [digit(*byte / 16), digit(*byte % 16)];
        if into.extend_from_slice(&digits).is_err() {
            into.truncate(before);
            return Err(OutOfMemory);
        }
    }
    Ok(())
}

/// The little-endian number in the two bytes from `at` on.
pub fn get16(bytes: &[u8], at: usize) -> u16
    requires { at + 2 ≤ length bytes.now }
    ensures { result ≡ half_at bytes.now at }
{
    u16::from(bytes[at]) + 0x100 * u16::from(bytes[at + 1])
}

/// The little-endian number in the four bytes from `at` on.
pub fn get32(bytes: &[u8], at: usize) -> u32
    requires { at + 4 ≤ length bytes.now }
    ensures { result ≡ word_at bytes.now at }
{
    u32::from(bytes[at])
        + 0x100 * u32::from(bytes[at + 1])
        + 0x1_0000 * u32::from(bytes[at + 2])
        + 0x100_0000 * u32::from(bytes[at + 3])
}

/// The little-endian number in the eight bytes from `at` on.
pub fn get64(bytes: &[u8], at: usize) -> u64
    requires { at + 8 ≤ length bytes.now }
    ensures { result ≡ double_at bytes.now at }
{
    u64::from(get32(bytes, at)) + 0x1_0000_0000 * u64::from(get32(bytes, at + 4))
}
