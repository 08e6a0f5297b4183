//! One line of a source: its label and its statement.
ghost use Rattle.std.specs.Prelude.{◌≡◌, ◌<◌, ◌≤◌, IfSome, bytes_eq, length, find, position, None, false};
ghost use Rattle.std.specs.Option.{option_map};
ghost use Rattle.pisa_isa.specs.Texts.{name_of};
ghost use Rattle.text_lines.specs.Lines.{is_blank};
ghost use Rattle.pisa_asm.specs.Statements.{bare, command_named, directive_named, escape, integer_ops, nothing_said, operation_named, places, statement_by, string_from, string_in, words_in, words_of, words_with};
ghost use Rattle.pisa_asm.specs.declared.statements.Command.TheVariants.{Ascii as ascii};
ghost use Rattle.pisa_asm.specs.declared.statements.Stop.TheVariants as stops;
ghost use Rattle.pisa_asm.specs.Views.{Gives, said_of, stated_of, words_seen};

use crate::letters::are_blank;
use crate::operands::{Filled, say};
use crate::slots::{Slot, slots_of};
use crate::tokens::is_label;
use pisa_isa::{Instr, Op, name, operands};
use ss_base::TextWhy;
use std::alloc::{AllocError, AllocFailed, Global};
use text_lines::{is_blank, parted, trim_start};

/// A section of an object.
#[derive(Clone, Copy, Debug)]
pub(crate) enum Section {
    /// Instructions.
    Text,
    /// Data that is read and written.
    Data,
    /// Data that is only read.
    Rdata,
    /// Small data.
    Sdata,
    /// Data that starts as zeros.
    Bss,
    /// Small data that starts as zeros.
    Sbss,
}

/// What a statement does.
#[derive(Clone, Copy, Debug)]
pub(crate) enum Command {
    /// Nothing: there is no statement.
    Nothing,
    /// It opens a section.
    Open(Section),
    /// It names the label at which the program begins.
    Entry,
    /// It brings a word.
    Word,
    /// It brings a half word.
    Half,
    /// It brings a byte.
    Byte,
    /// It brings the bytes of a string.
    Ascii,
    /// It brings zeros.
    Space,
    /// It brings an instruction.
    Instruction(Op),
}

/// The operations that a source can name.
static INTEGER_OPS: [Op; 71] = [
    Op::Nop,
    Op::J,
    Op::Jal,
    Op::Jr,
    Op::Jalr,
    Op::Beq,
    Op::Bne,
    Op::Blez,
    Op::Bgtz,
    Op::Bltz,
    Op::Bgez,
    Op::Lb,
    Op::Lbu,
    Op::Lh,
    Op::Lhu,
    Op::Lw,
    Op::Dlw,
    Op::Lwl,
    Op::Lwr,
    Op::Sb,
    Op::Sh,
    Op::Sw,
    Op::Dsw,
    Op::Dsz,
    Op::Swl,
    Op::Swr,
    Op::Add,
    Op::Addi,
    Op::Addu,
    Op::Addiu,
    Op::Sub,
    Op::Subu,
    Op::Mult,
    Op::Multu,
    Op::Div,
    Op::Divu,
    Op::Mfhi,
    Op::Mthi,
    Op::Mflo,
    Op::Mtlo,
    Op::And,
    Op::Andi,
    Op::Or,
    Op::Ori,
    Op::Xor,
    Op::Xori,
    Op::Nor,
    Op::Sll,
    Op::Sllv,
    Op::Srl,
    Op::Srlv,
    Op::Sra,
    Op::Srav,
    Op::Slt,
    Op::Slti,
    Op::Sltu,
    Op::Sltiu,
    Op::Syscall,
    Op::Break,
    Op::Lui,
    Op::LbRr,
    Op::LbuRr,
    Op::LhRr,
    Op::LhuRr,
    Op::LwRr,
    Op::SbRr,
    Op::ShRr,
    Op::SwRr,
    Op::DlwRr,
    Op::DswRr,
    Op::DszRr,
];

/// Those operations as a slice.
fn integer_ops() -> &'static [Op]
    ensures { result.now ≡ integer_ops }
{
    &INTEGER_OPS
}

/// The operation with a name.
#[tactic(auto, unfolding(crate::specs::Statements::operation_named))]
fn operation_named(text: &[u8]) -> Option<Op>
    ensures { result ≡ operation_named text.now }
{
    integer_ops()
        .iter()
        .copied()
        .find(|op| name(*op).as_str().as_bytes() == text)
}

/// Whether a name is this one.
fn is(name: &[u8], word: &str) -> bool
    ensures { result ≡ bytes_eq name.now word.now }
{
    name == word.as_bytes()
}

/// The statement with a name, where it is no instruction.
#[tactic(auto, unfolding(crate::specs::Statements::directive_named))]
fn directive_named(name: &[u8]) -> Option<Command>
    ensures { result ≡ directive_named name.now }
{
    if is(name, ".text") {
        Some(Command::Open(Section::Text))
    } else if is(name, ".data") {
        Some(Command::Open(Section::Data))
    } else if is(name, ".rdata") {
        Some(Command::Open(Section::Rdata))
    } else if is(name, ".sdata") {
        Some(Command::Open(Section::Sdata))
    } else if is(name, ".bss") {
        Some(Command::Open(Section::Bss))
    } else if is(name, ".sbss") {
        Some(Command::Open(Section::Sbss))
    } else if is(name, ".entry") {
        Some(Command::Entry)
    } else if is(name, ".word") {
        Some(Command::Word)
    } else if is(name, ".half") {
        Some(Command::Half)
    } else if is(name, ".byte") {
        Some(Command::Byte)
    } else if is(name, ".ascii") {
        Some(Command::Ascii)
    } else if is(name, ".space") {
        Some(Command::Space)
    } else {
        None
    }
}

/// What a name stands for, `None` exactly where there is no such statement.
pub(crate) fn command_named(name: &[u8]) -> Option<Command>
    ensures { result ≡ command_named name.now }
{
    if name.is_empty() {
        return Some(Command::Nothing);
    }
    match directive_named(name) {
        Some(command) => Some(command),
        None => match operation_named(name) {
            Some(op) => Some(Command::Instruction(op)),
            None => None,
        },
    }
}

impl Command {
    /// The places of its operands.
    fn places(self) -> &'static [Slot]
        ensures { result.now ≡ places self }
    {
        match self {
            Command::Nothing | Command::Ascii => &[],
            Command::Open(_) => &[Slot::Start],
            Command::Entry => &[Slot::Name],
            Command::Word => &[Slot::Word],
            Command::Half => &[Slot::Half],
            Command::Byte => &[Slot::Byte],
            Command::Space => &[Slot::Count],
            Command::Instruction(op) => slots_of(operands(op)),
        }
    }

    /// What is said before any operand.
    fn nothing_said(self) -> Filled<'static>
        ensures { said_of result ≡ nothing_said self }
    {
        let op = match self {
            Command::Instruction(op) => op,
            _ => Op::Nop,
        };
        Filled {
            instr: bare(op),
            number: 0,
            label: None,
        }
    }
}

/// An instruction of which no field is given yet.
fn bare(op: Op) -> Instr
    ensures { result ≡ bare op }
{
    Instr {
        op,
        rs: 0,
        rt: 0,
        rd: 0,
        shamt: 0,
        imm: 0,
        target: 0,
    }
}

/// The byte that an escape stands for.
fn escape(b: u8) -> Option<u8>
    ensures { result ≡ escape b }
{
    match b {
        b'n' => Some(b'\n'),
        b't' => Some(b'\t'),
        b'0' => Some(0),
        b'\\' => Some(b'\\'),
        b'"' => Some(b'"'),
        _ => None,
    }
}

/// A line: its label, the name of its statement, and the text of its operands.
#[derive(Clone, Copy, Debug)]
pub(crate) struct Line<'a> {
    /// The label, where there is one.
    pub label: Option<&'a [u8]>,
    /// The name of the statement, empty where there is none.
    pub name: &'a [u8],
    /// The text behind the name.
    pub operands: &'a [u8],
}

/// The place of the first blank.
fn blank_at(text: &[u8]) -> Option<usize>
    ensures value { result ≡ position is_blank text.now }
    ensures inside { IfSome result (λ at. at < length text.now) }
{
    text.iter().position(|b| is_blank(*b))
}

/// A name, and what stands behind it.
fn words_of(text: &[u8]) -> (&[u8], &[u8])
    ensures { (result.0.now, result.1.now) ≡ words_of text.now }
{
    match blank_at(text) {
        None => (text, &[]),
        Some(at) => text.split_at(at),
    }
}

/// A line of these words.
fn line_of<'a>(label: Option<&'a [u8]>, text: &'a [u8]) -> Line<'a>
    ensures { words_seen result ≡ words_with (option_map (λ l. l.now) label.entry) (words_of text.now) }
{
    let (name, operands) = words_of(text);
    Line {
        label,
        name,
        operands,
    }
}

/// The words of a line without its comment.
pub(crate) fn words_in(code: &[u8]) -> Line<'_>
    ensures { words_seen result ≡ words_in code.now }
{
    let text = trim_start(code);
    let Some((front, rest)) = parted(b':', text) else {
        return line_of(None, text);
    };
    if is_label(front) {
        line_of(Some(front), trim_start(rest))
    } else {
        line_of(None, text)
    }
}

/// Why a statement was not read.
#[derive(Clone, Copy, Debug)]
pub(crate) enum Stop {
    /// A growth found no memory.
    NoMemory,
    /// The first reason.
    Wrong(TextWhy),
}

impl From<AllocError> for Stop {
    ghost from_gives = { λ _ stop. stop ≡ stops.NoMemory };

    fn from(_error: AllocError) -> Stop {
        Stop::NoMemory
    }
}

impl<T: Drop> From<AllocFailed<T>> for Stop {
    ghost from_gives = { λ _ stop. stop ≡ stops.NoMemory };

    fn from(_error: AllocFailed<T>) -> Stop {
        Stop::NoMemory
    }
}

/// The bytes of a string behind its quote, up to the quote that ends it.
fn string_from(alloc: Global, text: &[u8]) -> Result<Vec<u8>, Stop>
    ensures { Gives (λ v. v.items) result (string_from false text.now) }
{
    let mut bytes = Vec::new(alloc);
    let mut behind = false;
    for (i, b) in text.iter().enumerate() {
        if behind {
            match escape(*b) {
                None => return Err(Stop::Wrong(TextWhy::Form)),
                Some(byte) => bytes.push(byte)?,
            }
            behind = false;
        } else if *b == b'"' {
            if are_blank(text.split_at(i + 1).1) {
                return Ok(bytes);
            }
            return Err(Stop::Wrong(TextWhy::Extra));
        } else if *b == b'\\' {
            behind = true;
        } else {
            bytes.push(*b)?;
        }
    }
    Err(Stop::Wrong(TextWhy::Form))
}

/// A string in quotes.
fn string_in(alloc: Global, text: &[u8]) -> Result<Vec<u8>, Stop>
    ensures { Gives (λ v. v.items) result (string_in text.now) }
{
    let Some((first, rest)) = text.split_first() else {
        return Err(Stop::Wrong(TextWhy::Missing));
    };
    match *first {
        b',' => Err(Stop::Wrong(TextWhy::Missing)),
        b'"' => string_from(alloc, rest),
        _ => Err(Stop::Wrong(TextWhy::Form)),
    }
}

/// A statement: what it does, what its operands say, and the bytes of its string.
#[derive(Debug, Drop)]
pub(crate) struct Statement<'a> {
    /// What it does.
    pub command: Command,
    /// What its operands say.
    pub filled: Filled<'a>,
    /// The bytes of its string, none where it is another statement.
    pub string: Vec<u8>,
}

/// The statement of a string.
fn string_statement<'a>(alloc: Global, text: &'a [u8]) -> Result<Statement<'a>, Stop>
    ensures { Gives stated_of result (statement_by None ascii text.now) }
{
    match string_in(alloc, trim_start(text)) {
        Ok(string) => Ok(Statement {
            command: Command::Ascii,
            filled: Command::Ascii.nothing_said(),
            string,
        }),
        Err(stop) => Err(stop),
    }
}

/// A statement at `pc`, which is `None` outside text, from what it does and the text of its
/// operands.
pub(crate) fn statement_by<'a>(
    alloc: Global,
    pc: Option<u32>,
    command: Command,
    text: &'a [u8],
) -> Result<Statement<'a>, Stop>
    ensures { Gives stated_of result (statement_by pc command text.now) }
{
    if matches!(command, Command::Ascii) {
        return string_statement(alloc, text);
    }
    match say(pc, command.places(), text, command.nothing_said()) {
        Ok(filled) => Ok(Statement {
            command,
            filled,
            string: Vec::new(alloc),
        }),
        Err(why) => Err(Stop::Wrong(why)),
    }
}
