//! Sections as statements fill them.
ghost use Rattle.std.specs.Prelude.{◌≡◌, ◌%◌, ◌^◌, ◌++◌, [], Some, OnOk, IfOk, None, replicate, option_to_list};
ghost use Rattle.std.specs.Int.{w32, to_le_bytes};
ghost use Rattle.std.specs.List.{list_all, list_any};
ghost use Rattle.pisa_isa.specs.Coding.{number_of, second_word};
ghost use Rattle.pisa_asm.specs.Passes.{are_short, is_short, made_bytes};
ghost use Rattle.pisa_asm.specs.Sheets.{brings, bytes_of, end_of, end_of_open, grown, has_section, is_current, is_section, may_stand, moved, pieces_of, size_of, takes, takes_bytes, takes_instructions, text_end};
ghost use Rattle.pisa_asm.specs.Views.{said_of, stated_of};

use crate::operands::Filled;
use crate::statements::{Command, Section, Statement};
use pisa_isa::{Instr, number};
use ss_base::Bytes;
use std::alloc::{AllocError, Global};
use std::marker::Model;

/// Bytes that grow. Contracts see them as a list.
#[derive(Debug, Drop)]
pub(crate) struct Buffer {
    items: Vec<u8>,
}

impl Model for Buffer {
    ghost use Rattle.std.specs.Prelude.{List, ℕ};

    ghost Value = { List ℕ };

    ghost view = { λ b. b.items.items };
}

impl Buffer {
    /// No bytes.
    fn new(alloc: Global) -> Buffer
        ensures { result ≡ [] }
    {
        Buffer {
            items: Vec::new(alloc),
        }
    }

    /// Adds bytes.
    pub(crate) fn push_all(&mut self, bytes: &[u8]) -> Result<(), AllocError>
        ensures { OnOk result (self.new ≡ self.old ++ bytes.now) }
    {
        self.items.extend_from_slice(bytes)
    }

    /// Adds zeros.
    pub(crate) fn push_zeros(&mut self, count: u32) -> Result<(), AllocError>
        ensures { OnOk result (self.new ≡ self.old ++ replicate count 0) }
    {
        let zeros = vec![in *self.items.allocator(); 0u8; count as usize]?;
        self.items.extend_from_slice(zeros.as_slice())
    }

    /// The bytes, as an image holds them.
    pub(crate) fn into_bytes(self) -> Bytes
        ensures { result ≡ self }
    {
        Bytes::from_vec(self.items)
    }
}

/// A section: its address, how many bytes it has, and those of them that an object brings.
#[derive(Debug, Drop)]
pub(crate) struct Piece {
    /// Which section it is.
    pub section: Section,
    /// The address of its first byte.
    pub start: u32,
    /// How many bytes it has.
    pub size: u64,
    /// Its bytes, once they are made.
    pub bytes: Buffer,
}

/// Sections in the order in which they were opened. Contracts see them as a list.
#[derive(Debug, Drop)]
pub(crate) struct Pieces {
    items: Vec<Piece>,
}

impl Model for Pieces {
    ghost use Rattle.std.specs.Prelude.{List};
    ghost use Rattle.pisa_asm.specs.declared.sheet.Piece.{Piece};

    ghost Value = { List Piece };

    ghost view = { λ p. p.items.items };
}

impl Pieces {
    /// No sections.
    fn new(alloc: Global) -> Pieces
        ensures { result ≡ [] }
    {
        Pieces {
            items: Vec::new(alloc),
        }
    }

    /// Whether a section is among them.
    fn have(&self, section: Section) -> bool
        ensures { result ≡ list_any (λ piece. is_section piece.section section) self.now }
    {
        self.items.iter().any(|piece| piece.section.is(section))
    }

    /// Whether each is short enough for an object.
    fn are_short(&self) -> bool
        ensures { result ≡ list_all is_short self.now }
    {
        self.items.iter().all(|piece| piece.is_short())
    }

    /// The sections and one more.
    fn with(self, piece: Option<Piece>) -> Result<Pieces, AllocError>
        ensures { IfOk result (λ pieces. pieces ≡ self ++ option_to_list piece) }
    {
        let mut items = self.items;
        if let Some(piece) = piece {
            match items.push(piece) {
                Ok(()) => {}
                Err(error) => return Err(AllocError::from(error)),
            }
        }
        Ok(Pieces { items })
    }

    /// The sections as a vector.
    pub(crate) fn into_vec(self) -> Vec<Piece>
        ensures { result.items ≡ self }
    {
        self.items
    }
}

/// The sections so far, and the one that is open.
#[derive(Debug, Drop)]
pub(crate) struct Sheet {
    /// Those that were opened before, in their order.
    pub closed: Pieces,
    /// The open one.
    pub current: Option<Piece>,
}

impl Section {
    /// Whether two sections are the same.
    fn is(self, other: Section) -> bool
        ensures { result ≡ is_section self other }
    {
        self as u8 == other as u8
    }

    /// Whether instructions may stand there.
    fn takes_instructions(self) -> bool
        ensures { result ≡ takes_instructions self }
    {
        matches!(self, Section::Text)
    }

    /// Whether numbers and strings may stand there.
    fn takes_bytes(self) -> bool
        ensures { result ≡ takes_bytes self }
    {
        matches!(self, Section::Data | Section::Rdata | Section::Sdata)
    }

    /// Whether an object brings its bytes.
    pub(crate) fn brings(self) -> bool
        ensures { result ≡ brings self }
    {
        !matches!(self, Section::Bss | Section::Sbss)
    }
}

impl Command {
    /// Whether a statement may stand in a section.
    fn may_stand_in(self, section: Section) -> bool
        ensures { result ≡ takes self section }
    {
        match self {
            Command::Instruction(_) => section.takes_instructions(),
            Command::Space => !section.takes_instructions(),
            Command::Word | Command::Half | Command::Byte | Command::Ascii => section.takes_bytes(),
            _ => true,
        }
    }
}

impl Piece {
    /// Whether an object that is short enough can have so many bytes in this section.
    fn is_short(&self) -> bool
        ensures { result ≡ is_short self.now }
    {
        let most = if self.section.brings() {
            16_777_216
        } else {
            0xffff_ffff
        };
        self.size <= most
    }

    /// The address behind its bytes, modulo 2^32.
    fn end(&self) -> u32
        ensures { result ≡ end_of self.now }
    {
        ((u128::from(self.start) + u128::from(self.size)) % 0x1_0000_0000) as u32
    }
}

impl Piece {
    /// The section with the bytes of a statement more, whose operands say this. They are made
    /// where that is asked, and kept where an object brings them.
    fn grown(
        self,
        make: bool,
        statement: &Statement<'_>,
        said: &Filled<'_>,
    ) -> Result<Piece, AllocError>
        ensures { IfOk result (λ piece. Some piece ≡ grown (size_of (stated_of statement.now) statement.now.command) (made_bytes make (said_of said.now) (stated_of statement.now)) (Some self)) }
    {
        let size = self.size.saturating_add(statement.size());
        if !make || !self.section.brings() {
            return Ok(Piece { size, ..self });
        }
        let mut bytes = self.bytes;
        match statement.push(said, &mut bytes) {
            Ok(()) => Ok(Piece {
                section: self.section,
                start: self.start,
                size,
                bytes,
            }),
            Err(error) => Err(error),
        }
    }
}

impl Sheet {
    /// No sections.
    pub(crate) fn new(alloc: Global) -> Sheet
        ensures { result ≡ record { closed = []; current = None } }
    {
        Sheet {
            closed: Pieces::new(alloc),
            current: None,
        }
    }

    /// Whether a statement may stand where it does.
    pub(crate) fn may_hold(&self, command: Command) -> bool
        ensures { result ≡ may_stand command self.now.current }
    {
        match command {
            Command::Nothing | Command::Open(_) | Command::Entry => true,
            _ => match &self.current {
                None => false,
                Some(piece) => command.may_stand_in(piece.section),
            },
        }
    }

    /// The address behind the bytes of the open section.
    pub(crate) fn end(&self) -> u32
        ensures { result ≡ end_of_open self.now.current }
    {
        match &self.current {
            None => 0,
            Some(piece) => piece.end(),
        }
    }

    /// The address of the next instruction, where text is open.
    pub(crate) fn text_end(&self) -> Option<u32>
        ensures { result ≡ text_end self.now.current }
    {
        match &self.current {
            None => None,
            Some(piece) => {
                if piece.section.takes_instructions() {
                    Some(piece.end())
                } else {
                    None
                }
            }
        }
    }

    /// Whether a section was opened.
    pub(crate) fn has(&self, section: Section) -> bool
        ensures { result ≡ has_section section self.now }
    {
        if self.closed.have(section) {
            true
        } else {
            self.is_current(section)
        }
    }

    /// Whether a section is the open one.
    fn is_current(&self, section: Section) -> bool
        ensures { result ≡ is_current section self.now.current }
    {
        match &self.current {
            None => false,
            Some(piece) => piece.section.is(section),
        }
    }

    /// The sheet after a statement, whose operands say this. Its bytes are made where that is asked.
    pub(crate) fn moved(
        self,
        alloc: Global,
        make: bool,
        statement: &Statement<'_>,
        said: &Filled<'_>,
    ) -> Result<Sheet, AllocError>
        ensures { IfOk result (λ sheet. sheet ≡ moved self (stated_of statement.now) (made_bytes make (said_of said.now) (stated_of statement.now)) statement.now.command) }
    {
        let Sheet { closed, current } = self;
        match statement.command {
            Command::Open(section) => match closed.with(current) {
                Ok(closed) => Ok(Sheet {
                    closed,
                    current: Some(Piece {
                        section,
                        start: statement.filled.number,
                        size: 0,
                        bytes: Buffer::new(alloc),
                    }),
                }),
                Err(error) => Err(error),
            },
            _ => match current {
                None => Ok(Sheet {
                    closed,
                    current: None,
                }),
                Some(piece) => match piece.grown(make, statement, said) {
                    Ok(piece) => Ok(Sheet {
                        closed,
                        current: Some(piece),
                    }),
                    Err(error) => Err(error),
                },
            },
        }
    }

    /// Whether each section is short enough for an object.
    pub(crate) fn is_short(&self) -> bool
        ensures { result ≡ are_short self.now }
    {
        if !self.closed.are_short() {
            return false;
        }
        match &self.current {
            None => true,
            Some(piece) => piece.is_short(),
        }
    }

    /// All sections, in the order in which they were opened.
    pub(crate) fn into_pieces(self) -> Result<Pieces, AllocError>
        ensures { IfOk result (λ pieces. pieces ≡ pieces_of self) }
    {
        let Sheet { closed, current } = self;
        closed.with(current)
    }
}

impl Statement<'_> {
    /// How many bytes the statement brings.
    fn size(&self) -> u64
        ensures { result ≡ size_of (stated_of self.now) self.now.command }
    {
        match self.command {
            Command::Instruction(_) => 8,
            Command::Word => 4,
            Command::Half => 2,
            Command::Byte => 1,
            Command::Ascii => self.string.len() as u64,
            Command::Space => u64::from(self.filled.number),
            _ => 0,
        }
    }

    /// Adds the bytes of the statement, whose operands say this.
    fn push(&self, said: &Filled<'_>, bytes: &mut Buffer) -> Result<(), AllocError>
        ensures { OnOk result (bytes.new ≡ bytes.old ++ bytes_of (said_of said.now) self.now.string.items self.now.command) }
    {
        let number = said.number;
        match self.command {
            Command::Instruction(_) => push_instruction(&said.instr, bytes),
            Command::Word => bytes.push_all(&number.to_le_bytes()),
            Command::Half => bytes.push_all(&((number % 0x1_0000) as u16).to_le_bytes()),
            Command::Byte => bytes.push_all(&[(number % 0x100) as u8]),
            Command::Ascii => bytes.push_all(self.string.as_slice()),
            Command::Space => bytes.push_zeros(number),
            _ => bytes.push_all(&[]),
        }
    }
}

/// The second word of an instruction.
fn second_word(i: &Instr) -> u32
    ensures { result ≡ second_word i.now % 2 ^ 32 }
{
    let fields = u64::from(i.rs) * 0x100_0000
        + u64::from(i.rt) * 0x1_0000
        + u64::from(i.rd) * 0x100
        + u64::from(i.shamt)
        + u64::from(i.imm)
        + u64::from(i.target);
    (fields % 0x1_0000_0000) as u32
}

/// Adds the two words of an instruction.
fn push_instruction(i: &Instr, bytes: &mut Buffer) -> Result<(), AllocError>
    ensures { OnOk result (bytes.new ≡ bytes.old ++ to_le_bytes w32 (number_of i.now.op) ++ to_le_bytes w32 (second_word i.now % 2 ^ 32)) }
{
    bytes.push_all(&u32::from(number(i.op)).to_le_bytes())?;
    bytes.push_all(&second_word(i).to_le_bytes())
}
