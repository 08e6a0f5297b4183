//! The checks of an object, in their order.

ghost use Rattle.std.specs.Prelude.{◌≡◌, ◌+◌, ◌*◌, ◌^◌, ◌<◌, ◌≤◌, [], ◌∷◌, length, false, Option, Some, None, if◌then◌else◌};
ghost use Rattle.std.specs.List.{find};
ghost use Rattle.ecoff_load.specs.Words.{half_in};
ghost use Rattle.ecoff_load.specs.Sections.{sections, sections_from, is_text, part_kind};
ghost use Rattle.ecoff_load.specs.Checks.{first_failing, is_big, header_checks, range_check, file_check, text_checks, part_checks, section_checks, sections_checks, lies_on, overlap_check, overlap_checks, refusal};
ghost use Rattle.ecoff_load.specs.Reading.{Judges, Tells, first_of};
ghost use Rattle.ecoff_load.specs.declared.section.Section.{Section};

use crate::fault::{ObjectWhy, Refusal};
use crate::format::{
    BIG_MAGIC, FILE_HEADER, FRONT, LEAST_TEXT, LITTLE_MAGIC, MEMORY_END, MOST_SECTIONS, MOST_TEXT,
    OPTIONAL_HEADER, SECTION_HEADER,
};
use crate::image::Kind;
use crate::section::Section;
use crate::words::get_half;

/// Where the number of sections stands in the file.
const SECTIONS: usize = 2;

/// Where the size of the optional header stands in the file.
const OPTIONAL_SIZE: usize = 16;

/// Where a section's address stands in its header.
const ADDR: usize = 12;

/// Where a section's size stands in its header.
const SIZE: usize = 16;

/// Where a section's flags stand in its header.
const FLAGS: usize = 36;

/// What the judged headers of an object say.
#[derive(Clone, Copy, Debug, PartialEq, Eq)]
pub struct Headers {
    /// Whether the object is big-endian.
    pub big: bool,
    /// How many sections it has.
    pub count: u16,
    /// Its text section.
    pub text: Section,
}

fn refused(at: usize, why: ObjectWhy) -> Refusal
    ensures { result ≡ record { at = at; why = why } }
{
    Refusal { at: at as u64, why }
}

/// Judges what stands before the section headers, and the length of all headers.
#[tactic(auto, unfolding(crate::specs::Checks::header_checks))]
fn judge_headers(bytes: &[u8]) -> Result<(bool, u16), Refusal>
    ensures { Judges result (first_failing (header_checks bytes.now))
        (λ x. (x.0 ≡ is_big bytes.now) × (x.1 ≡ half_in x.0 bytes.now 2) × (76 + 40 * x.1 ≤ length bytes.now)) }
{
    let size = bytes.len();
    if size < FILE_HEADER {
        return Err(refused(size, ObjectWhy::Short));
    }
    let big = get_half(bytes, 0, true) == BIG_MAGIC;
    if !big && get_half(bytes, 0, false) != LITTLE_MAGIC {
        return Err(refused(0, ObjectWhy::Magic));
    }
    let count = get_half(bytes, SECTIONS, big);
    if count < 1 || count > MOST_SECTIONS {
        return Err(refused(SECTIONS, ObjectWhy::Sections));
    }
    if get_half(bytes, OPTIONAL_SIZE, big) != OPTIONAL_HEADER {
        return Err(refused(OPTIONAL_SIZE, ObjectWhy::OptHeader));
    }
    if size < FRONT + SECTION_HEADER * count as usize {
        return Err(refused(size, ObjectWhy::Short));
    }
    Ok((big, count))
}

/// Judges that a section ends where programs have memory.
fn judge_range(section: Section) -> Result<(), Refusal>
    requires { section.at + 40 < 2 ^ 64 }
    ensures { Tells result (first_failing (range_check section ∷ [])) }
{
    if u64::from(section.addr) + u64::from(section.size) > MEMORY_END {
        return Err(refused(section.at + ADDR, ObjectWhy::Range));
    }
    Ok(())
}

/// Judges that a section ends where programs have memory, and then that its bytes are in the file.
fn judge_bounds(section: Section, size: usize) -> Result<(), Refusal>
    requires { section.at + 40 < 2 ^ 64 }
    ensures { Tells result (first_failing (range_check section ∷ file_check size section ∷ [])) }
{
    judge_range(section)?;
    if u64::from(section.pointer) + u64::from(section.size) > size as u64 {
        return Err(refused(size, ObjectWhy::Short));
    }
    Ok(())
}

/// Judges a text section, behind another one or not.
fn judge_text(section: Section, size: usize, second: bool) -> Result<(), Refusal>
    requires { section.at + 40 < 2 ^ 64 }
    ensures { Tells result (first_failing (text_checks size second section)) }
{
    if second {
        return Err(refused(section.at + FLAGS, ObjectWhy::TextTwice));
    }
    if section.addr % 8 != 0 {
        return Err(refused(section.at + ADDR, ObjectWhy::TextAlign));
    }
    let bytes = section.size as usize;
    if bytes < LEAST_TEXT || bytes > MOST_TEXT {
        return Err(refused(section.at + SIZE, ObjectWhy::TextSize));
    }
    judge_bounds(section, size)
}

/// Judges a section of the kind that its flags name, or one that is passed over.
fn judge_part(section: Section, size: usize, kind: Option<Kind>) -> Result<(), Refusal>
    requires { section.at + 40 < 2 ^ 64 }
    ensures { Tells result (first_failing (part_checks size section kind)) }
{
    match kind {
        None => Ok(()),
        Some(kind) => {
            if kind.brings_bytes() {
                judge_bounds(section, size)
            } else {
                judge_range(section)
            }
        }
    }
}

fn judge_section(section: Section, size: usize, second: bool) -> Result<(), Refusal>
    requires { section.at + 40 < 2 ^ 64 }
    ensures { Tells result (first_failing (section_checks size second section)) }
{
    if section.is_text() {
        judge_text(section, size, second)
    } else {
        judge_part(section, size, section.kind())
    }
}

/// The first text section of some that were looked at and one more.
fn first_text(text: Option<Section>, section: Section) -> Option<Section>
    ensures { result ≡ first_of text (if is_text section then Some section else None) }
{
    match text {
        Some(first) => Some(first),
        None => {
            if section.is_text() {
                Some(section)
            } else {
                None
            }
        }
    }
}

/// Judges the sections in turn. The answer is the text section, where there is one.
fn judge_sections(bytes: &[u8], big: bool, count: u16) -> Result<Option<Section>, Refusal>
    requires { 76 + 40 * count ≤ length bytes.now }
    ensures { let all = sections_from big bytes.now count 76 in
        Judges result (first_failing (sections_checks (length bytes.now) false all)) (λ text. text ≡ find is_text all) }
{
    let mut text = None;
    let mut at = FRONT;
    for _ in 0..count {
        let section = Section::read(bytes, at, big);
        judge_section(section, bytes.len(), text.is_some())?;
        text = first_text(text, section);
        at += SECTION_HEADER;
    }
    Ok(text)
}

/// Whether the bytes of a section would lie on the text's.
fn lies_on(text: Section, section: Section) -> bool
    ensures { result ≡ lies_on text section }
{
    let text_end = u64::from(text.addr) + u64::from(text.size);
    let end = u64::from(section.addr) + u64::from(section.size);
    section.size > 0 && u64::from(text.addr) < end && u64::from(section.addr) < text_end
}

/// Judges that a section which brings bytes lies beside the text.
fn judge_overlap(text: Section, section: Section) -> Result<(), Refusal>
    requires { section.at + 40 < 2 ^ 64 }
    ensures { Tells result (first_failing (overlap_check text section (part_kind section.flags))) }
{
    match section.kind() {
        None => Ok(()),
        Some(kind) => {
            if kind.brings_bytes() && lies_on(text, section) {
                return Err(refused(section.at + ADDR, ObjectWhy::Overlap));
            }
            Ok(())
        }
    }
}

/// Judges that the sections which bring bytes lie beside the text.
fn judge_overlaps(bytes: &[u8], big: bool, count: u16, text: Section) -> Result<(), Refusal>
    requires { 76 + 40 * count ≤ length bytes.now }
    ensures { Tells result (first_failing (overlap_checks (Some text) (sections_from big bytes.now count 76))) }
{
    let mut at = FRONT;
    for _ in 0..count {
        judge_overlap(text, Section::read(bytes, at, big))?;
        at += SECTION_HEADER;
    }
    Ok(())
}

/// Judges an object by all its checks. It takes no memory.
pub fn judge(bytes: &[u8]) -> Result<Headers, Refusal>
    ensures { Judges result (refusal bytes.now) (λ h. (h.big ≡ is_big bytes.now) × (h.count ≡ half_in h.big bytes.now 2)
        × (76 + 40 * h.count ≤ length bytes.now) × (find is_text (sections h.big bytes.now) ≡ Some h.text)) }
{
    let (big, count) = judge_headers(bytes)?;
    match judge_sections(bytes, big, count)? {
        None => Err(refused(SECTIONS, ObjectWhy::NoText)),
        Some(text) => {
            judge_overlaps(bytes, big, count, text)?;
            Ok(Headers { big, count, text })
        }
    }
}
