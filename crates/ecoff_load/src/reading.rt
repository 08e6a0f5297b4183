//! The reader of objects.

ghost use Rattle.std.specs.Prelude.{◌≡◌, ◌+◌, ◌*◌, ◌<◌, ◌≤◌, ◌++◌, ◌↔◌, ℕ, List, [], None, true, length, slice_index, OnOk, IfOk, IfErr, if◌then◌else◌};
ghost use Rattle.std.specs.List.{AllByRecursion, filter_map, cons_option};
ghost use Rattle.ecoff_load.specs.Sections.{sections_from, brings_bytes};
ghost use Rattle.ecoff_load.specs.Object.{IsImage, IsObject, section_bytes};
ghost use Rattle.ecoff_load.specs.Checks.{refusal, Reads, Gives, Placed};
ghost use Rattle.ecoff_load.specs.Reading.{InFile, part_of, ReadsBySteps};
ghost use Rattle.ecoff_load.specs.declared.image.Image.{Image};

use crate::fault::ObjectFault;
use crate::format::{FRONT, SECTION_HEADER};
use crate::image::{Image, Kind, Part, Parts, Text};
use crate::judging::judge;
use crate::section::Section;
use crate::words::get_word;
use ss_base::Bytes;
use std::alloc::{AllocError, Global};

/// Where the entry stands in the file.
const ENTRY: usize = 36;

fn copy(alloc: Global, bytes: &[u8], section: Section) -> Result<Vec<u8>, AllocError>
    requires { section.pointer + section.size ≤ length bytes.now }
    ensures { IfOk result (λ copied. copied.items ≡ section_bytes bytes.now section) }
{
    let from = section.pointer as usize;
    Vec::from_slice(alloc, &bytes[from..from + section.size as usize])
}

/// The bytes of a part, none where it starts as zeros.
fn part_bytes(
    alloc: Global,
    bytes: &[u8],
    section: Section,
    kind: Kind,
) -> Result<Vec<u8>, AllocError>
    requires { brings_bytes kind ≡ true → section.pointer + section.size ≤ length bytes.now }
    ensures { IfOk result (λ copied. copied.items ≡ (if brings_bytes kind then section_bytes bytes.now section else [])) }
{
    if kind.brings_bytes() {
        copy(alloc, bytes, section)
    } else {
        Ok(Vec::new(alloc))
    }
}

/// Adds the part that a section is, where it is one.
fn push_part(
    parts: &mut Vec<Part>,
    alloc: Global,
    bytes: &[u8],
    section: Section,
) -> Result<(), AllocError>
    requires { InFile (length bytes.now) section }
    ensures { OnOk result (parts.new.items ≡ parts.old.items ++ cons_option (part_of bytes.now section) []) }
{
    match section.kind() {
        None => Ok(()),
        Some(kind) => {
            let copied = part_bytes(alloc, bytes, section, kind)?;
            parts.push(Part {
                kind,
                addr: section.addr,
                size: section.size,
                bytes: Bytes::from_vec(copied),
            })?;
            Ok(())
        }
    }
}

/// The parts that the sections are.
fn copy_parts(alloc: Global, bytes: &[u8], big: bool, count: u16) -> Result<Vec<Part>, AllocError>
    requires headers { 76 + 40 * count ≤ length bytes.now }
    requires in_file { AllByRecursion (InFile (length bytes.now)) (sections_from big bytes.now count 76) }
    ensures { IfOk result (λ parts. parts.items ≡ filter_map (part_of bytes.now) (sections_from big bytes.now count 76)) }
{
    let mut parts = Vec::new(alloc);
    let mut at = FRONT;
    for _ in 0..count {
        push_part(&mut parts, alloc, bytes, Section::read(bytes, at, big))?;
        at += SECTION_HEADER;
    }
    Ok(parts)
}

/// Judges the bytes, and then copies what they bring.
fn read_judged(alloc: Global, bytes: &[u8]) -> Result<Image, ObjectFault>
    ensures { ReadsBySteps bytes.now result }
{
    let headers = judge(bytes)?;
    let text = copy(alloc, bytes, headers.text)?;
    let parts = copy_parts(alloc, bytes, headers.big, headers.count)?;
    Ok(Image {
        entry: get_word(bytes, ENTRY, headers.big),
        text: Text {
            start: headers.text.addr,
            big: headers.big,
            bytes: Bytes::from_vec(text),
        },
        parts: Parts::from_vec(parts),
    })
}

/// Reads an object. Memory is taken only once no check fails, and no more than the text and the
/// parts have bytes in the file.
pub fn read(alloc: Global, bytes: &[u8]) -> Result<Image, ObjectFault>
    // What is read is an image of which the bytes are an object; a refusal has the place and the
    // reason of the first check that fails. Memory is wanted only where no check fails.
    ensures exact { Reads bytes.now result }
    // The bytes of an object are read as its image, unless memory runs out.
    ensures only { (image : Image) → IsObject bytes.now image → Gives result image }
    // What is read can be run and written.
    ensures image { IfOk result IsImage }
    // Only Short stands at the file's end.
    ensures place { IfErr result (Placed (length bytes.now)) }
{
    read_judged(alloc, bytes)
}

/// No bytes are an object of two images.
pub fn one_image()
    ensures { (bytes : List ℕ) (one other : Image) → IsObject bytes one → IsObject bytes other → one ≡ other }
{}

/// No check of bytes fails exactly where they are an object of an image.
pub fn checks_are_exact()
    ensures { (bytes : List ℕ) → ((i : ℕ) → slice_index bytes i < 256) → (refusal bytes ≡ None) ↔ ((image : Image) × IsObject bytes image) }
{}
