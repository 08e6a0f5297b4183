//! From a source to its image.
ghost use Rattle.std.specs.Prelude.{◌≡◌, ◌+◌, ◌<◌, ◌≤◌, ◌^◌, ℕ, List, Ok, length, reverse, IfOk};
ghost use Rattle.pisa_asm.specs.Kept.{fault_at, Comes, Finds, Matches, StepsTo};
ghost use Rattle.pisa_asm.specs.LabelMaps.{Holds};
ghost use Rattle.text_lines.specs.Lines.{lines_of};
ghost use Rattle.std.specs.Option.{option_map};
ghost use Rattle.pisa_asm.specs.Sheets.{pieces_of};
ghost use Rattle.pisa_asm.specs.Views.{stated_of};
ghost use Rattle.pisa_asm.specs.Passes.{Answers, Found, after_line, described, entry_after, entry_of, first_pass, image_with, kind_of, laid_out, no_layout, no_sheet, nothing_found, part_onto, parts_in, second_pass, text_in, text_or};

use crate::labels::Labels;
use crate::passes::{begins_at, filled, read, words_on};
use crate::sheet::{Piece, Sheet};
use crate::statements::{Command, Section, Statement, Stop};
use ecoff_load::{Image, Kind, Part, Parts, Text, object_length};
use ss_base::{AsmFault, TextWhy};
use std::alloc::{AllocError, Global};
use text_lines::next_line;

/// What the first pass found: sections, labels, and the label of the entry.
#[derive(Debug, Drop)]
struct Findings<'a> {
    sheet: Sheet,
    labels: Labels<'a>,
    entry: Option<&'a [u8]>,
}

impl Stop {
    /// The fault of a line.
    fn at(self, line: u32) -> AsmFault
        ensures { result ≡ fault_at line self }
    {
        match self {
            Stop::NoMemory => AsmFault::OutOfMemory,
            Stop::Wrong(why) => AsmFault::Bad { line, why },
        }
    }
}

/// The label of the entry after a statement.
fn entry_after<'a>(statement: &Statement<'a>, entry: Option<&'a [u8]>) -> Option<&'a [u8]>
    ensures { option_map (λ l. l.now) result ≡ entry_after (option_map (λ l. l.now) entry.entry) (stated_of statement.now) statement.now.command }
{
    match statement.command {
        Command::Entry => statement.filled.label,
        _ => entry,
    }
}

impl<'a> Findings<'a> {
    /// Nothing.
    fn new(alloc: Global) -> Findings<'a>
        ensures { Matches result nothing_found }
    {
        Findings {
            sheet: Sheet::new(alloc),
            labels: Labels::new(alloc),
            entry: None,
        }
    }

    /// With the label and the statement of a line.
    fn noting(
        self,
        alloc: Global,
        label: Option<&'a [u8]>,
        statement: Statement<'a>,
    ) -> Result<Findings<'a>, AllocError>
        ensures { (found : Found) → Matches self.entry found → IfOk result (λ kept. Matches kept (after_line found (option_map (λ l. l.now) label.entry) (stated_of statement.entry))) }
    {
        let Findings {
            sheet,
            labels,
            entry,
        } = self;
        let labels = match labels.with(label, begins_at(&statement, &sheet)) {
            Ok(labels) => labels,
            Err(error) => return Err(error),
        };
        let entry = entry_after(&statement, entry);
        match sheet.moved(alloc, false, &statement, &statement.filled) {
            Ok(sheet) => Ok(Findings {
                sheet,
                labels,
                entry,
            }),
            Err(error) => Err(error),
        }
    }

    /// With a line, or the first reason in the order of reasons why it is wrong.
    fn after(self, alloc: Global, bytes: &'a [u8]) -> Result<Findings<'a>, Stop>
        ensures { (found : Found) → Matches self.entry found → StepsTo result found bytes.now }
    {
        let line = words_on(bytes);
        let is_twice = self.labels.has(line.label);
        match read(alloc, &self.sheet, self.entry.is_some(), is_twice, bytes) {
            Ok(statement) => match self.noting(alloc, line.label, statement) {
                Ok(findings) => Ok(findings),
                Err(_) => Err(Stop::NoMemory),
            },
            Err(stop) => Err(stop),
        }
    }
}

/// The first pass: sections, labels and the entry, or the first wrong line with its reason. It finds
/// all reasons but those that need the address of a label.
fn first_pass(alloc: Global, text: &[u8]) -> Result<Findings<'_>, AsmFault>
    requires { length text.now < 2 ^ 32 }
    ensures { Finds result (first_pass 1 nothing_found (lines_of text.now)) }
{
    let mut findings = Findings::new(alloc);
    let mut rest = text;
    let mut number: u64 = 1;
    'lines: while rest.len() > 0 {
        let (line, others) = next_line(rest);
        match findings.after(alloc, line) {
            Ok(next) => findings = next,
            Err(stop) => return Err(stop.at(number as u32)),
        }
        rest = others;
        number += 1;
    }
    Ok(findings)
}

/// The second pass: the sections, with their bytes where that is asked, or the first line with a
/// label that is unknown or whose address does not fit its place.
fn second_pass(
    alloc: Global,
    make: bool,
    labels: &Labels<'_>,
    text: &[u8],
) -> Result<Sheet, AsmFault>
    requires { length text.now < 2 ^ 32 }
    ensures { (known : List (List ℕ × ℕ)) → Holds labels.now known → Comes result (second_pass make known 1 no_sheet (lines_of text.now)) }
{
    let mut sheet = Sheet::new(alloc);
    let mut rest = text;
    let mut number: u64 = 1;
    'lines: while rest.len() > 0 {
        let (line, others) = next_line(rest);
        match filled(alloc, make, labels, sheet, line) {
            Ok(next) => sheet = next,
            Err(stop) => return Err(stop.at(number as u32)),
        }
        rest = others;
        number += 1;
    }
    Ok(sheet)
}

impl Section {
    /// The kind of a section that is not text.
    fn kind(self) -> Option<Kind>
        ensures { result ≡ kind_of self }
    {
        match self {
            Section::Text => None,
            Section::Data => Some(Kind::Data),
            Section::Rdata => Some(Kind::Rdata),
            Section::Sdata => Some(Kind::Sdata),
            Section::Bss => Some(Kind::Bss),
            Section::Sbss => Some(Kind::Sbss),
        }
    }
}

/// The text of an image, and its other parts with the last one first.
#[derive(Debug, Drop)]
struct Laid {
    text: Option<Text>,
    parts: Vec<Part>,
}

impl Laid {
    /// With the section that stands before.
    fn behind(self, piece: Piece) -> Result<Laid, AllocError>
        ensures text { IfOk result (λ laid. laid.text ≡ text_or (kind_of piece.section) piece self.text) }
        ensures parts { IfOk result (λ laid. reverse laid.parts.items ≡ part_onto (kind_of piece.section) piece (reverse self.parts.items)) }
    {
        let mut parts = self.parts;
        match piece.section.kind() {
            None => Ok(Laid {
                text: Some(Text {
                    start: piece.start,
                    big: false,
                    bytes: piece.bytes.into_bytes(),
                }),
                parts,
            }),
            Some(kind) => {
                let part = Part {
                    kind,
                    addr: piece.start,
                    size: piece.size.min(0xffff_ffff) as u32,
                    bytes: piece.bytes.into_bytes(),
                };
                match parts.push(part) {
                    Ok(()) => Ok(Laid {
                        text: self.text,
                        parts,
                    }),
                    Err(error) => Err(AllocError::from(error)),
                }
            }
        }
    }
}

/// The text and the other parts of an image with these sections.
fn lay(alloc: Global, pieces: Vec<Piece>) -> Result<Laid, AllocError>
    ensures text { IfOk result (λ laid. laid.text ≡ text_in pieces.items) }
    ensures parts { IfOk result (λ laid. laid.parts.items ≡ parts_in pieces.items) }
{
    let mut laid = Laid {
        text: None,
        parts: Vec::new(alloc),
    };
    let mut pieces = pieces;
    'pieces: while let Some(piece) = pieces.pop() {
        match laid.behind(piece) {
            Ok(next) => laid = next,
            Err(error) => return Err(error),
        }
    }
    laid.parts.reverse();
    Ok(laid)
}

/// The address of the entry: its label's, or the text's start.
fn entry_of(labels: &Labels<'_>, entry: Option<&[u8]>, start: u32) -> u32
    ensures { (known : List (List ℕ × ℕ)) → Holds labels.now known → result ≡ entry_of known (option_map (λ l. l.now) entry.entry) start }
{
    match entry {
        None => start,
        Some(name) => match labels.get(name) {
            None => start,
            Some(address) => address,
        },
    }
}

/// The fault of a source whose image no object can hold.
fn no_layout() -> AsmFault
    ensures { result ≡ no_layout }
{
    AsmFault::Bad {
        line: 0,
        why: TextWhy::Layout,
    }
}

/// The image of these parts.
fn image_with(laid: Laid, labels: &Labels<'_>, entry: Option<&[u8]>) -> Result<Image, AsmFault>
    ensures { (known : List (List ℕ × ℕ)) → Holds labels.now known → Comes result (image_with laid.text laid.parts.items known (option_map (λ l. l.now) entry.entry)) }
{
    let Laid { text, parts } = laid;
    match text {
        None => Err(no_layout()),
        Some(text) => Ok(Image {
            entry: entry_of(labels, entry, text.start),
            text,
            parts: Parts::from_vec(parts),
        }),
    }
}

/// The image of a sheet.
fn image_of(
    alloc: Global,
    sheet: Sheet,
    labels: &Labels<'_>,
    entry: Option<&[u8]>,
) -> Result<Image, AsmFault>
    ensures { (known : List (List ℕ × ℕ)) → Holds labels.now known → Comes result (image_with (text_in (pieces_of sheet)) (parts_in (pieces_of sheet)) known (option_map (λ l. l.now) entry.entry)) }
{
    let pieces = match sheet.into_pieces() {
        Ok(pieces) => pieces.into_vec(),
        Err(_) => return Err(AsmFault::OutOfMemory),
    };
    match lay(alloc, pieces) {
        Ok(laid) => image_with(laid, labels, entry),
        Err(_) => Err(AsmFault::OutOfMemory),
    }
}

/// The image of a source of which the first pass found this, and whose labels the second pass
/// knows. Bytes are made only where each section is short enough for an object.
fn laid_out(alloc: Global, findings: &Findings<'_>, text: &[u8]) -> Result<Image, AsmFault>
    requires { length text.now < 2 ^ 32 }
    ensures { (found : Found) → Matches findings.now found → Comes result (laid_out found (lines_of text.now)) }
{
    if !findings.sheet.is_short() {
        return Err(no_layout());
    }
    match second_pass(alloc, true, &findings.labels, text) {
        Ok(sheet) => image_of(alloc, sheet, &findings.labels, findings.entry),
        Err(fault) => Err(fault),
    }
}

/// The image that a text describes, or the first fault of a pass. Whether an object can hold it is
/// not judged yet.
#[tactic(auto, unfolding(crate::specs::Passes::described))]
fn describe(alloc: Global, text: &[u8]) -> Result<Image, AsmFault>
    requires { length text.now < 2 ^ 32 }
    ensures { Comes result (described text.now) }
{
    let findings = match first_pass(alloc, text) {
        Ok(findings) => findings,
        Err(fault) => return Err(fault),
    };
    match second_pass(alloc, false, &findings.labels, text) {
        Ok(_) => laid_out(alloc, &findings, text),
        Err(fault) => Err(fault),
    }
}

/// An image, where an object of at most 16,777,216 bytes can hold it.
fn judged(image: Image) -> Result<Image, AsmFault>
    ensures { Answers (Ok image) result }
{
    if !image.fits() {
        return Err(no_layout());
    }
    if object_length(&image) > 16_777_216 {
        return Err(no_layout());
    }
    Ok(image)
}

/// The image of a source, for an object of at most 16,777,216 bytes, or its first wrong line with
/// the first reason in the order of reasons. The first pass finds, line by line, all reasons but
/// those that need the address of a label, the second pass those, and last comes `Layout` at line 0
/// where no such object can hold the image. It needs memory in proportion to the source and the
/// object.
pub fn assemble(alloc: Global, text: &[u8]) -> Result<Image, AsmFault>
    requires { length text.now < 2 ^ 32 }
    ensures { Answers (described text.now) result }
{
    match describe(alloc, text) {
        Ok(image) => judged(image),
        Err(fault) => Err(fault),
    }
}
