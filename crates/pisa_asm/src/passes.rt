//! The passes over a source.
ghost use Rattle.std.specs.Prelude.{◌≡◌, ◌+◌, ◌<◌, ◌≤◌, ◌^◌, ◌∷◌, [], ℕ, List, length, is_some};
ghost use Rattle.std.specs.Option.{option_map};
ghost use Rattle.pisa_asm.specs.LabelMaps.{Holds};
ghost use Rattle.pisa_asm.specs.Passes.{begins_at, filled, in_place, is_second, label_may_stand, read, resolved, statement_on, target_at, value_at, words_on};
ghost use Rattle.pisa_asm.specs.Views.{Gives, said_of, seen, stated_of, words_seen};

use crate::labels::Labels;
use crate::letters::code_of;
use crate::operands::{Filled, branch_field, jump_field};
use crate::sheet::Sheet;
use crate::statements::{Command, Line, Statement, Stop, command_named, statement_by, words_in};
use pisa_isa::{Instr, Operands, operands};
use ss_base::TextWhy;
use std::alloc::Global;
use text_lines::are_allowed;

/// The words of a line.
pub(crate) fn words_on(line: &[u8]) -> Line<'_>
    ensures { words_seen result ≡ words_on line.now }
{
    words_in(code_of(line))
}

/// The statement of a line, which stands at `pc` where text is open.
fn statement_on<'a>(alloc: Global, pc: Option<u32>, line: &Line<'a>) -> Result<Statement<'a>, Stop>
    ensures { Gives stated_of result (statement_on pc (words_seen line.now)) }
{
    match command_named(line.name) {
        None => Err(Stop::Wrong(TextWhy::Mnemonic)),
        Some(command) => statement_by(alloc, pc, command, line.operands),
    }
}

/// Whether a section is opened, or the entry named, a second time.
fn is_second(command: Option<Command>, sheet: &Sheet, has_entry: bool) -> bool
    ensures { result ≡ is_second command sheet.now has_entry }
{
    match command {
        Some(Command::Open(section)) => sheet.has(section),
        Some(Command::Entry) => has_entry,
        _ => false,
    }
}

/// Whether the label of a line stands in a section, or on the line that opens one.
fn label_may_stand(line: &Line<'_>, command: Command, sheet: &Sheet) -> bool
    ensures { result ≡ label_may_stand (words_seen line.now).label command sheet.now.current }
{
    if line.label.is_none() {
        return true;
    }
    match command {
        Command::Open(_) => true,
        _ => sheet.current.is_some(),
    }
}

/// A statement where it may stand.
fn in_place<'a>(
    line: &Line<'_>,
    sheet: &Sheet,
    statement: Statement<'a>,
) -> Result<Statement<'a>, Stop>
    ensures { Gives stated_of result (in_place (words_seen line.now).label sheet.now (stated_of statement.entry)) }
{
    if !sheet.may_hold(statement.command) {
        return Err(Stop::Wrong(TextWhy::Section));
    }
    if label_may_stand(line, statement.command, sheet) {
        Ok(statement)
    } else {
        Err(Stop::Wrong(TextWhy::Section))
    }
}

/// The statement of a line, or the first reason in the order of reasons. Whether its label is known
/// already, and whether the entry was named, is given.
pub(crate) fn read<'a>(
    alloc: Global,
    sheet: &Sheet,
    has_entry: bool,
    is_twice: bool,
    bytes: &'a [u8],
) -> Result<Statement<'a>, Stop>
    ensures { Gives stated_of result (read sheet.now has_entry is_twice bytes.now) }
{
    if !are_allowed(bytes) {
        return Err(Stop::Wrong(TextWhy::Char));
    }
    let line = words_on(bytes);
    if is_twice || is_second(command_named(line.name), sheet, has_entry) {
        return Err(Stop::Wrong(TextWhy::Twice));
    }
    match statement_on(alloc, sheet.text_end(), &line) {
        Ok(statement) => in_place(&line, sheet, statement),
        Err(stop) => Err(stop),
    }
}

/// The address at which a line's bytes begin.
pub(crate) fn begins_at(statement: &Statement<'_>, sheet: &Sheet) -> u32
    ensures { result ≡ begins_at (stated_of statement.now) statement.now.command sheet.now }
{
    match statement.command {
        Command::Open(_) => statement.filled.number,
        _ => sheet.end(),
    }
}

/// An instruction's target at an address.
fn target_at<'a>(
    operands: Operands,
    pc: u32,
    address: u32,
    said: Filled<'a>,
) -> Result<Filled<'a>, TextWhy>
    ensures { seen result ≡ target_at operands pc address (said_of said.entry) }
{
    match operands {
        Operands::Target => match jump_field(pc, address) {
            None => Err(TextWhy::Range),
            Some(target) => Ok(Filled {
                instr: Instr {
                    target,
                    ..said.instr
                },
                ..said
            }),
        },
        _ => match branch_field(pc, address) {
            None => Err(TextWhy::Range),
            Some(imm) => Ok(Filled {
                instr: Instr { imm, ..said.instr },
                ..said
            }),
        },
    }
}

/// An address in the place of its label.
fn value_at<'a>(
    command: Command,
    pc: u32,
    address: u32,
    said: Filled<'a>,
) -> Result<Filled<'a>, TextWhy>
    ensures { seen result ≡ value_at command pc address (said_of said.entry) }
{
    let most = match command {
        Command::Instruction(op) => return target_at(operands(op), pc, address, said),
        Command::Half => 0xffff,
        Command::Byte => 0xff,
        _ => 0xffff_ffff,
    };
    if address <= most {
        Ok(Filled {
            number: address,
            ..said
        })
    } else {
        Err(TextWhy::Range)
    }
}

/// What operands say, with an address in the place of the label where there is one.
fn resolved<'a>(
    labels: &Labels<'_>,
    command: Command,
    pc: u32,
    said: Filled<'a>,
) -> Result<Filled<'a>, TextWhy>
    ensures { (known : List (List ℕ × ℕ)) → Holds labels.now known → seen result ≡ resolved known (said_of said.entry).label command pc (said_of said.entry) }
{
    match said.label {
        None => Ok(said),
        Some(name) => match labels.get(name) {
            None => Err(TextWhy::Label),
            Some(address) => value_at(command, pc, address, said),
        },
    }
}

/// The sheet after a line, with its bytes or without.
pub(crate) fn filled(
    alloc: Global,
    make: bool,
    labels: &Labels<'_>,
    sheet: Sheet,
    bytes: &[u8],
) -> Result<Sheet, Stop>
    ensures { (known : List (List ℕ × ℕ)) → Holds labels.now known → Gives (λ s. s) result (filled make known sheet bytes.now) }
{
    let line = words_on(bytes);
    let statement = match statement_on(alloc, sheet.text_end(), &line) {
        Ok(statement) => statement,
        Err(stop) => return Err(stop),
    };
    let pc = sheet.end();
    match resolved(labels, statement.command, pc, statement.filled) {
        Err(why) => Err(Stop::Wrong(why)),
        Ok(said) => match sheet.moved(alloc, make, &statement, &said) {
            Ok(next) => Ok(next),
            Err(_) => Err(Stop::NoMemory),
        },
    }
}
