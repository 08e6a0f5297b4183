//! The lines that list bytes.
ghost use Rattle.std.specs.Prelude.{◌≡◌, OnErr};

use crate::assembling::assemble;
use crate::fault::LineFault;
use ss_base::{MemShelf, push_decimal, push_hex};
use std::alloc::Global;

/// A line's first word, and what follows the blank behind it.
pub fn cut(line: &str) -> (&str, &str) {
    match line.split_once(' ') {
        Some((word, rest)) => (word, rest),
        None => (line, ""),
    }
}

/// The number that decimal digits form.
pub fn number(text: &str) -> Result<u64, LineFault> {
    text.parse::<u64>().map_err(|_| LineFault::Number)
}

/// The value of a hexadecimal digit.
fn digit(byte: u8) -> Option<u8> {
    match byte {
        b'0'..=b'9' => Some(byte - b'0'),
        b'a'..=b'f' => Some(byte - b'a' + 10),
        _ => None,
    }
}

/// Adds the bytes that pairs of digits stand for; blanks are passed over.
fn push_pairs(bytes: &mut Vec<u8>, text: &str) -> Result<(), LineFault> {
    let mut first = None;
    for byte in text.as_bytes() {
        if *byte == b' ' {
            continue;
        }
        let Some(low) = digit(*byte) else {
            return Err(LineFault::Hex);
        };
        match first {
            None => first = Some(low),
            Some(high) => {
                bytes.push((high & 15) << 4 | low & 15)?;
                first = None;
            }
        }
    }
    if first.is_some() {
        return Err(LineFault::Hex);
    }
    Ok(())
}

/// Adds the bytes that were defined under a name.
fn push_defined(bytes: &mut Vec<u8>, name: &str, defined: &MemShelf) -> Result<(), LineFault> {
    let Some(held) = defined.bytes(name) else {
        return Err(LineFault::Undefined);
    };
    bytes.extend_from_slice(held)?;
    Ok(())
}

/// Adds a text and the newline behind it.
fn push_line(bytes: &mut Vec<u8>, text: &str) -> Result<(), LineFault> {
    bytes.extend_from_slice(text.as_bytes())?;
    bytes.push(b'\n')?;
    Ok(())
}

/// Adds what a line with this mark lists.
fn push_marked(
    bytes: &mut Vec<u8>,
    mark: &str,
    rest: &str,
    defined: &MemShelf,
) -> Result<(), LineFault> {
    match mark {
        "|" => push_line(bytes, rest),
        "+" => Ok(bytes.extend_from_slice(rest.as_bytes())?),
        "=" => push_pairs(bytes, rest),
        "&" => push_defined(bytes, rest, defined),
        _ => Err(LineFault::Word),
    }
}

/// Adds a unit so often.
fn push_copies(bytes: &mut Vec<u8>, unit: &[u8], count: u64) -> Result<(), LineFault> {
    for _ in 0..count {
        bytes.extend_from_slice(unit)?;
    }
    Ok(())
}

/// Adds what a line lists so often as the number in front of it says.
fn push_repeated(
    alloc: Global,
    bytes: &mut Vec<u8>,
    rest: &str,
    defined: &MemShelf,
) -> Result<(), LineFault> {
    let (count, line) = cut(rest);
    let (mark, rest) = cut(line);
    let mut unit = Vec::new(alloc);
    push_marked(&mut unit, mark, rest, defined)?;
    push_copies(bytes, &unit, number(count)?)
}

/// Adds a line that begins with an address.
fn push_addressed(bytes: &mut Vec<u8>, pc: u32, text: &str) -> Result<(), LineFault> {
    push_hex(bytes, pc)?;
    bytes.push(b' ')?;
    push_line(bytes, text)
}

/// Adds a line that begins with a number, where there is one, and an address.
fn push_numbered(
    bytes: &mut Vec<u8>,
    icnt: Option<u64>,
    pc: u32,
    text: &str,
) -> Result<(), LineFault> {
    if let Some(icnt) = icnt {
        push_decimal(bytes, icnt)?;
        bytes.push(b' ')?;
    }
    push_addressed(bytes, pc, text)
}

/// The number that decimal digits form, none for a hyphen.
fn number_or_none(text: &str) -> Result<Option<u64>, LineFault> {
    if text == "-" {
        return Ok(None);
    }
    Ok(Some(number(text)?))
}

/// The number that hexadecimal digits form.
fn address(text: &str) -> Result<u32, LineFault> {
    u32::from_str_radix(text, 16).map_err(|_| LineFault::Number)
}

/// Adds so many lines for instructions that follow each other.
fn push_lines(
    bytes: &mut Vec<u8>,
    count: u64,
    first: Option<u64>,
    start: u32,
    text: &str,
) -> Result<(), LineFault> {
    let mut icnt = first;
    let mut pc = start;
    for _ in 0..count {
        push_numbered(bytes, icnt, pc, text)?;
        icnt = icnt.map(|number| number.saturating_add(1));
        pc = pc.wrapping_add(8);
    }
    Ok(())
}

/// Adds so many lines for instructions that follow each other, as a line says.
fn push_instructions(bytes: &mut Vec<u8>, rest: &str) -> Result<(), LineFault> {
    let (count, rest) = cut(rest);
    let (icnt, rest) = cut(rest);
    let (pc, text) = cut(rest);
    push_lines(
        bytes,
        number(count)?,
        number_or_none(icnt)?,
        address(pc)?,
        text,
    )
}

/// Keeps only the first bytes.
fn keep(bytes: &mut Vec<u8>, rest: &str) -> Result<(), LineFault> {
    let count = number(rest)?;
    if count > bytes.len() as u64 {
        return Err(LineFault::Place);
    }
    bytes.truncate(count as usize);
    Ok(())
}

/// Puts bytes in the place of those that stand from a place on.
fn put(bytes: &mut Vec<u8>, place: u64, new: &[u8]) -> Result<(), LineFault> {
    for (index, byte) in new.iter().enumerate() {
        let Some(slot) = bytes.get_mut((place as usize).saturating_add(index)) else {
            return Err(LineFault::Place);
        };
        *slot = *byte;
    }
    Ok(())
}

/// Changes bytes that were listed before.
fn patch(alloc: Global, bytes: &mut Vec<u8>, rest: &str) -> Result<(), LineFault> {
    let (place, digits) = cut(rest);
    let mut new = Vec::new(alloc);
    push_pairs(&mut new, digits)?;
    put(bytes, number(place)?, &new)
}

/// Whether a line that begins with this word lists bytes, or changes those that were listed.
pub fn is_listing(word: &str) -> bool {
    matches!(
        word,
        "|" | "+" | "=" | "&" | "*" | "@" | "!" | "front" | "assemble"
    )
}

/// Does what a line says that lists or changes bytes.
pub fn list(
    alloc: Global,
    bytes: &mut Vec<u8>,
    word: &str,
    rest: &str,
    defined: &MemShelf,
) -> Result<(), LineFault> {
    match word {
        "*" => push_repeated(alloc, bytes, rest, defined),
        "@" => push_instructions(bytes, rest),
        "!" => patch(alloc, bytes, rest),
        "front" => keep(bytes, rest),
        "assemble" => assemble(alloc, bytes),
        _ => push_marked(bytes, word, rest, defined),
    }
}
