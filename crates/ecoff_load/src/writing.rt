//! The writer of objects.

ghost use Rattle.std.specs.Prelude.{◌≡◌, ◌+◌, ◌*◌, ◌^◌, ◌<◌, ◌≤◌, ◌++◌, length, OnOk, IfOk};
ghost use Rattle.ecoff_load.specs.Sections.{kind_flags};
ghost use Rattle.ecoff_load.specs.Object.{IsImage, IsObject, magic};
ghost use Rattle.ecoff_load.specs.Layout.{file_header, optional_header, section_header, part_name, pointer_of, part_headers, parts_bytes, headers, object_bytes, object_length};

use crate::format::{BIG_MAGIC, FRONT, LITTLE_MAGIC, OPTIONAL_HEADER, SECTION_HEADER, TEXT};
use crate::image::{Image, Kind, Part};
use crate::words::{push_half, push_word};
use ss_base::OutOfMemory;
use std::alloc::Global;

/// The number that an optional header begins with.
const OPTIONAL_MAGIC: u16 = 0x107;

/// How many bytes stand before the contents of the sections.
fn headers_length(parts: usize) -> usize
    requires { parts ≤ 15 }
    ensures { result ≡ 76 + 40 * (parts + 1) }
{
    FRONT + SECTION_HEADER * (parts + 1)
}

/// How many bytes the object of an image has.
pub fn object_length(image: &Image) -> u64
    requires { IsImage image.now }
    ensures { result ≡ object_length image.now }
{
    let parts = image.parts.as_slice();
    let mut length = headers_length(parts.len()) as u64;
    length += image.text.bytes.as_slice().len() as u64;
    for part in parts {
        length += part.bytes.as_slice().len() as u64;
    }
    length
}

fn magic(big: bool) -> u16
    ensures { result ≡ magic big }
{
    if big { BIG_MAGIC } else { LITTLE_MAGIC }
}

fn put_file_header(bytes: &mut Vec<u8>, big: bool, count: u16) -> Result<(), OutOfMemory>
    ensures { OnOk result (bytes.new.items ≡ bytes.old.items ++ file_header big count) }
{
    push_half(bytes, magic(big), big)?;
    push_half(bytes, count, big)?;
    bytes.extend_from_slice(&[0; 12])?;
    push_half(bytes, OPTIONAL_HEADER, big)?;
    bytes.extend_from_slice(&[0; 2])?;
    Ok(())
}

fn put_optional_header(
    bytes: &mut Vec<u8>,
    big: bool,
    size: u32,
    entry: u32,
    start: u32,
) -> Result<(), OutOfMemory>
    ensures { OnOk result (bytes.new.items ≡ bytes.old.items ++ optional_header big size entry start) }
{
    push_half(bytes, OPTIONAL_MAGIC, big)?;
    bytes.extend_from_slice(&[0; 2])?;
    push_word(bytes, size, big)?;
    bytes.extend_from_slice(&[0; 8])?;
    push_word(bytes, entry, big)?;
    push_word(bytes, start, big)?;
    bytes.extend_from_slice(&[0; 32])?;
    Ok(())
}

/// What is written of a section's header besides its name.
#[derive(Clone, Copy, Debug, PartialEq, Eq)]
struct Fields {
    addr: u32,
    size: u32,
    pointer: u32,
    flags: u32,
}

fn put_section_header(
    bytes: &mut Vec<u8>,
    big: bool,
    name: &[u8],
    fields: Fields,
) -> Result<(), OutOfMemory>
    ensures { OnOk result (bytes.new.items ≡ bytes.old.items ++ section_header big name.now fields.addr fields.size fields.pointer fields.flags) }
{
    bytes.extend_from_slice(name)?;
    push_word(bytes, fields.addr, big)?;
    push_word(bytes, fields.addr, big)?;
    push_word(bytes, fields.size, big)?;
    push_word(bytes, fields.pointer, big)?;
    bytes.extend_from_slice(&[0; 12])?;
    push_word(bytes, fields.flags, big)?;
    Ok(())
}

/// The name of a section, filled up with zeros.
fn name(kind: Kind) -> [u8; 8]
    ensures { result ≡ part_name kind }
{
    match kind {
        Kind::Data => *b".data\0\0\0",
        Kind::Rdata => *b".rdata\0\0",
        Kind::Sdata => *b".sdata\0\0",
        Kind::Bss => *b".bss\0\0\0\0",
        Kind::Sbss => *b".sbss\0\0\0",
    }
}

/// The flags of a section.
fn flags(kind: Kind) -> u32
    ensures { result ≡ kind_flags kind }
{
    match kind {
        Kind::Data => 0x40,
        Kind::Bss => 0x80,
        Kind::Rdata => 0x100,
        Kind::Sdata => 0x200,
        Kind::Sbss => 0x400,
    }
}

/// The place in the file of a part whose bytes would begin at `at`.
fn pointer(kind: Kind, at: u32) -> u32
    ensures { result ≡ pointer_of kind at }
{
    if kind.brings_bytes() { at } else { 0 }
}

/// Adds the headers of parts whose bytes lie from `at` on.
fn put_part_headers(
    bytes: &mut Vec<u8>,
    big: bool,
    at: u32,
    parts: &[Part],
) -> Result<(), OutOfMemory>
    requires { at + length (parts_bytes parts.now) < 2 ^ 32 }
    ensures { OnOk result (bytes.new.items ≡ bytes.old.items ++ part_headers big at parts.now) }
{
    let mut at = at;
    for part in parts {
        let fields = Fields {
            addr: part.addr,
            size: part.size,
            pointer: pointer(part.kind, at),
            flags: flags(part.kind),
        };
        put_section_header(bytes, big, &name(part.kind), fields)?;
        at += part.bytes.as_slice().len() as u32;
    }
    Ok(())
}

fn put_contents(bytes: &mut Vec<u8>, parts: &[Part]) -> Result<(), OutOfMemory>
    ensures { OnOk result (bytes.new.items ≡ bytes.old.items ++ parts_bytes parts.now) }
{
    for part in parts {
        bytes.extend_from_slice(part.bytes.as_slice())?;
    }
    Ok(())
}

/// Adds all headers of the object of an image.
fn put_headers(bytes: &mut Vec<u8>, image: &Image) -> Result<(), OutOfMemory>
    requires image { IsImage image.now }
    requires length { object_length image.now < 2 ^ 32 }
    ensures { OnOk result (bytes.new.items ≡ bytes.old.items ++ headers image.now) }
{
    let big = image.text.big;
    let size = image.text.bytes.as_slice().len() as u32;
    let parts = image.parts.as_slice();
    let pointer = headers_length(parts.len()) as u32;
    put_file_header(bytes, big, parts.len() as u16 + 1)?;
    put_optional_header(bytes, big, size, image.entry, image.text.start)?;
    let text = Fields {
        addr: image.text.start,
        size,
        pointer,
        flags: TEXT,
    };
    put_section_header(bytes, big, b".text\0\0\0", text)?;
    put_part_headers(bytes, big, pointer + size, parts)?;
    Ok(())
}

/// The object of an image: its headers, and the bytes of the text and of the parts in their order,
/// without gaps. Reading it gives the image.
pub fn write(alloc: Global, image: &Image) -> Result<Vec<u8>, OutOfMemory>
    requires image { IsImage image.now }
    requires length { object_length image.now < 2 ^ 32 }
    // Reading the answer gives the image.
    ensures object { IfOk result (λ bytes. IsObject bytes.items image.now) }
    // Which of its objects it is.
    ensures layout { IfOk result (λ bytes. bytes.items ≡ object_bytes image.now) }
    ensures length { IfOk result (λ bytes. length bytes.items ≡ object_length image.now) }
{
    let mut bytes = Vec::new(alloc);
    put_headers(&mut bytes, image)?;
    bytes.extend_from_slice(image.text.bytes.as_slice())?;
    put_contents(&mut bytes, image.parts.as_slice())?;
    Ok(bytes)
}
