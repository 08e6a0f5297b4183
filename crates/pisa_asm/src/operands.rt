//! The operands of a statement: what a token says at its place.
ghost use Rattle.std.specs.Prelude.{◌≡◌, ◌<◌, ◌≤◌, ◌^◌, IfSome, ℕ, List, [], ◌∷◌, Result};
ghost use Rattle.std.specs.Option.{option_map};
ghost use Rattle.text_lines.specs.Lines.{parted};
ghost use Rattle.pisa_asm.specs.Letters.{closed, operands_in};
ghost use Rattle.pisa_asm.specs.Operands.{Said, addressed, based, beside, branch_field, first_of, indexed, jump_field, labelled, operand_says, say, slot_says, summed, then_, valued, with_imm, with_number};
ghost use Rattle.pisa_asm.specs.Tokens.{number_in as number_in_spec, limited_in as limited_in_spec, residue};
ghost use Rattle.pisa_isa.specs.Fields.{takes_pair};
ghost use Rattle.pisa_isa.specs.Table.{row_of};
ghost use Rattle.ss_base.specs.declared.text_fault.TextWhy.{TextWhy as Why};
ghost use Rattle.pisa_asm.specs.declared.slots.Slot.TheVariants as slot;
ghost use Rattle.pisa_asm.specs.Views.{combined, going, said_of, seen};

use crate::letters::{are_blank, closed, trim};
use crate::slots::Slot;
use crate::tokens::{is_label, limited_in, number_in, register_in};
use pisa_isa::{Instr, Op, branch_target, jump_target};
use ss_base::TextWhy;
use text_lines::parted;

/// What operands say: the fields of an instruction, or a number, and a label that stands for a
/// target or a value.
#[derive(Clone, Copy, Debug)]
pub(crate) struct Filled<'a> {
    /// The instruction; another statement leaves it as it is.
    pub instr: Instr,
    /// The number of a statement that is no instruction.
    pub number: u32,
    /// The label that stands where a target or a value may.
    pub label: Option<&'a [u8]>,
}

/// Of two reasons the first in their order.
fn earlier(why: TextWhy, other: TextWhy) -> TextWhy
    ensures { result ≡ first_of why other }
{
    if why as u8 <= other as u8 { why } else { other }
}

/// The field with which a branch at `pc` goes to a target, `None` exactly where no field does.
pub(crate) fn branch_field(pc: u32, target: u32) -> Option<u16>
    ensures { result ≡ branch_field pc target }
{
    let distance = u64::from(target) + 0x2_0000_0000 - (u64::from(pc) + 8);
    let field = (distance / 4 % 0x1_0000) as u16;
    if branch_target(pc, field) == target {
        Some(field)
    } else {
        None
    }
}

/// The field with which a jump at `pc` goes to a target, `None` exactly where no field does.
pub(crate) fn jump_field(pc: u32, target: u32) -> Option<u32>
    ensures value { result ≡ jump_field pc target }
    ensures below { IfSome result (λ field. field < 2 ^ 26) }
{
    let field = target / 4 % 0x400_0000;
    if jump_target(pc, field) == target {
        Some(field)
    } else {
        None
    }
}

/// A label, where a token is one.
fn labelled<'a>(filled: Filled<'a>, token: &'a [u8]) -> Result<Filled<'a>, TextWhy>
    ensures { seen result ≡ labelled (said_of filled.entry) token.now }
{
    if is_label(token) {
        Ok(Filled {
            label: Some(token),
            ..filled
        })
    } else {
        Err(TextWhy::Form)
    }
}

/// The target of a branch: a number that its field reaches, where the branch stands in text, or a
/// label.
fn branch<'a>(pc: Option<u32>, token: &'a [u8], filled: Filled<'a>) -> Result<Filled<'a>, TextWhy>
    ensures { seen result ≡ slot_says pc slot.Branch token.now (said_of filled.entry) }
{
    let Some(number) = number_in(token) else {
        return labelled(filled, token);
    };
    let Some(pc) = pc else {
        return Ok(filled);
    };
    if !number.is_within(0, 0xffff_ffff) {
        return Err(TextWhy::Range);
    }
    match branch_field(pc, number.magnitude as u32) {
        None => Err(TextWhy::Range),
        Some(imm) => Ok(Filled {
            instr: Instr {
                imm,
                ..filled.instr
            },
            ..filled
        }),
    }
}

/// The target of a jump, in the same way.
fn jump<'a>(pc: Option<u32>, token: &'a [u8], filled: Filled<'a>) -> Result<Filled<'a>, TextWhy>
    ensures { seen result ≡ slot_says pc slot.Jump token.now (said_of filled.entry) }
{
    let Some(number) = number_in(token) else {
        return labelled(filled, token);
    };
    let Some(pc) = pc else {
        return Ok(filled);
    };
    if !number.is_within(0, 0xffff_ffff) {
        return Err(TextWhy::Range);
    }
    match jump_field(pc, number.magnitude as u32) {
        None => Err(TextWhy::Range),
        Some(target) => Ok(Filled {
            instr: Instr {
                target,
                ..filled.instr
            },
            ..filled
        }),
    }
}

/// A number within limits, modulo `modulus`, or a label.
fn valued<'a>(
    low: u32,
    high: u32,
    modulus: u64,
    token: &'a [u8],
    filled: Filled<'a>,
) -> Result<Filled<'a>, TextWhy>
    requires low { low < modulus }
    requires high { high < modulus }
    requires most { modulus ≤ 2 ^ 32 }
    ensures { seen result ≡ valued (number_in_spec token.now) low high modulus (said_of filled.entry) token.now }
{
    let Some(number) = number_in(token) else {
        return labelled(filled, token);
    };
    if !number.is_within(u64::from(low), u64::from(high)) {
        return Err(TextWhy::Range);
    }
    Ok(Filled {
        number: number.residue(modulus) as u32,
        ..filled
    })
}

/// The two parts of an address.
fn based<'a>(offset: &[u8], base: &[u8], filled: Filled<'a>) -> Result<Filled<'a>, TextWhy>
    ensures { seen result ≡ based (Some base.now) offset.now (said_of filled.entry) }
{
    match limited_in(32768, 32767, offset) {
        Ok(number) => match register_in(31, base) {
            Ok(rs) => Ok(Filled {
                instr: Instr {
                    rs,
                    imm: number.residue(0x1_0000) as u16,
                    ..filled.instr
                },
                ..filled
            }),
            Err(why) => Err(why),
        },
        Err(why) => match register_in(31, base) {
            Ok(_) => Err(why),
            Err(other) => Err(earlier(why, other)),
        },
    }
}

/// An address: an offset, and a register in parentheses.
fn address<'a>(token: &'a [u8], filled: Filled<'a>) -> Result<Filled<'a>, TextWhy>
    ensures { seen result ≡ addressed (parted 40 token.now) (said_of filled.entry) }
{
    let Some((offset, rest)) = parted(b'(', token) else {
        return Err(TextWhy::Form);
    };
    if offset.is_empty() {
        return Err(TextWhy::Form);
    }
    let Some(base) = closed(rest) else {
        return Err(TextWhy::Form);
    };
    based(offset, base, filled)
}

/// Two registers with a `+` between them.
fn indexed<'a>(inner: &'a [u8], filled: Filled<'a>) -> Result<Filled<'a>, TextWhy>
    ensures { seen result ≡ indexed (parted 43 inner.now) (said_of filled.entry) }
{
    let Some((base, index)) = parted(b'+', inner) else {
        return Err(TextWhy::Form);
    };
    match (register_in(31, base), register_in(31, index)) {
        (Ok(rs), Ok(rd)) => Ok(Filled {
            instr: Instr {
                rs,
                rd,
                ..filled.instr
            },
            ..filled
        }),
        (Ok(_), Err(why)) | (Err(why), Ok(_)) => Err(why),
        (Err(why), Err(other)) => Err(earlier(why, other)),
    }
}

/// An indexed address: two registers with a `+` between them, in parentheses.
fn sum<'a>(token: &'a [u8], filled: Filled<'a>) -> Result<Filled<'a>, TextWhy>
    ensures { seen result ≡ summed (parted 40 token.now) (said_of filled.entry) }
{
    let Some((front, rest)) = parted(b'(', token) else {
        return Err(TextWhy::Form);
    };
    if !front.is_empty() {
        return Err(TextWhy::Form);
    }
    match closed(rest) {
        None => Err(TextWhy::Form),
        Some(inner) => indexed(inner, filled),
    }
}

/// A register as one of the fields.
fn rs<'a>(token: &[u8], filled: Filled<'a>) -> Result<Filled<'a>, TextWhy>
    ensures { seen result ≡ slot_says None slot.Rs token.now (said_of filled.entry) }
{
    match register_in(31, token) {
        Ok(rs) => Ok(Filled {
            instr: Instr { rs, ..filled.instr },
            ..filled
        }),
        Err(why) => Err(why),
    }
}

/// Whether rt names two registers, its own and the next.
fn takes_pair(op: Op) -> bool
    ensures { result ≡ takes_pair (row_of op).kind }
{
    matches!(op, Op::Dlw | Op::Dsw | Op::DlwRr | Op::DswRr)
}

fn rt<'a>(token: &[u8], filled: Filled<'a>) -> Result<Filled<'a>, TextWhy>
    ensures { seen result ≡ slot_says None slot.Rt token.now (said_of filled.entry) }
{
    let last = if takes_pair(filled.instr.op) { 30 } else { 31 };
    match register_in(last, token) {
        Ok(rt) => Ok(Filled {
            instr: Instr { rt, ..filled.instr },
            ..filled
        }),
        Err(why) => Err(why),
    }
}

fn rd<'a>(token: &[u8], filled: Filled<'a>) -> Result<Filled<'a>, TextWhy>
    ensures { seen result ≡ slot_says None slot.Rd token.now (said_of filled.entry) }
{
    match register_in(31, token) {
        Ok(rd) => Ok(Filled {
            instr: Instr { rd, ..filled.instr },
            ..filled
        }),
        Err(why) => Err(why),
    }
}

/// A number from -`low` to `high` in `imm`.
fn immediate<'a>(
    low: u32,
    high: u32,
    token: &[u8],
    filled: Filled<'a>,
) -> Result<Filled<'a>, TextWhy>
    requires low { low < 2 ^ 16 }
    requires high { high < 2 ^ 16 }
    ensures { seen result ≡ then_ (limited_in_spec low high token.now) (λ n. with_imm (said_of filled.entry) (residue (2 ^ 16) n)) }
{
    match limited_in(low, high, token) {
        Ok(number) => Ok(Filled {
            instr: Instr {
                imm: number.residue(0x1_0000) as u16,
                ..filled.instr
            },
            ..filled
        }),
        Err(why) => Err(why),
    }
}

fn shift<'a>(token: &[u8], filled: Filled<'a>) -> Result<Filled<'a>, TextWhy>
    ensures { seen result ≡ slot_says None slot.Shift token.now (said_of filled.entry) }
{
    match limited_in(0, 31, token) {
        Ok(number) => Ok(Filled {
            instr: Instr {
                shamt: number.magnitude as u8,
                ..filled.instr
            },
            ..filled
        }),
        Err(why) => Err(why),
    }
}

/// A number from 0 to `high` that is no field of an instruction.
fn counted<'a>(high: u32, token: &[u8], filled: Filled<'a>) -> Result<Filled<'a>, TextWhy>
    ensures { seen result ≡ then_ (limited_in_spec 0 high token.now) (λ n. with_number (said_of filled.entry) n.magnitude) }
{
    match limited_in(0, high, token) {
        Ok(number) => Ok(Filled {
            number: number.magnitude as u32,
            ..filled
        }),
        Err(why) => Err(why),
    }
}

/// What a token says at a place, in a statement at `pc`, which is `None` outside text.
fn slot_says<'a>(
    pc: Option<u32>,
    slot: Slot,
    token: &'a [u8],
    filled: Filled<'a>,
) -> Result<Filled<'a>, TextWhy>
    ensures { seen result ≡ slot_says pc slot token.now (said_of filled.entry) }
{
    match slot {
        Slot::Rs => rs(token, filled),
        Slot::Rt => rt(token, filled),
        Slot::Rd => rd(token, filled),
        Slot::Shift => shift(token, filled),
        Slot::Signed => immediate(32768, 32767, token, filled),
        Slot::Unsigned => immediate(0, 65535, token, filled),
        Slot::Branch => branch(pc, token, filled),
        Slot::Jump => jump(pc, token, filled),
        Slot::Address => address(token, filled),
        Slot::Sum => sum(token, filled),
        Slot::Start => counted(0xffff_ffff, token, filled),
        Slot::Count => counted(4_194_304, token, filled),
        Slot::Word => valued(0x8000_0000, 0xffff_ffff, 0x1_0000_0000, token, filled),
        Slot::Half => valued(32768, 65535, 0x1_0000, token, filled),
        Slot::Byte => valued(128, 255, 0x100, token, filled),
        Slot::Name => labelled(filled, token),
    }
}

/// The same, where an empty operand is a missing one.
fn operand_says<'a>(
    pc: Option<u32>,
    slot: Slot,
    token: &'a [u8],
    filled: Filled<'a>,
) -> Result<Filled<'a>, TextWhy>
    ensures { seen result ≡ operand_says pc slot token.now (said_of filled.entry) }
{
    if token.is_empty() {
        return Err(TextWhy::Missing);
    }
    slot_says(pc, slot, token, filled)
}

/// Operands that are judged one after the other.
#[derive(Clone, Copy, Debug)]
struct Judge<'a, 's> {
    /// The places of the operands that are still to come.
    slots: &'s [Slot],
    /// What the operands so far say.
    filled: Filled<'a>,
    /// The first reason, in the order of reasons, that was found so far.
    worst: Option<TextWhy>,
}

impl<'a, 's> Judge<'a, 's> {
    /// With the next operand.
    fn taking(self, pc: Option<u32>, token: &'a [u8]) -> Judge<'a, 's>
        ensures { (tokens : List (List ℕ)) → going result pc tokens ≡ going self.entry pc (token.now ∷ tokens) }
    {
        let [slot, others @ ..] = self.slots else {
            if token.is_empty() {
                return self.noting(TextWhy::Missing);
            }
            return self.noting(TextWhy::Extra);
        };
        let next = Judge {
            slots: others,
            ..self
        };
        match operand_says(pc, *slot, token, self.filled) {
            Ok(filled) => Judge { filled, ..next },
            Err(why) => next.noting(why),
        }
    }

    /// What the operands say, where no more are to come.
    fn end(self, pc: Option<u32>) -> Result<Filled<'a>, TextWhy>
        ensures { seen result ≡ going self.entry pc [] }
    {
        if self.slots.is_empty() {
            self.found()
        } else {
            self.noting(TextWhy::Missing).found()
        }
    }

    /// What the operands so far say.
    fn found(self) -> Result<Filled<'a>, TextWhy>
        ensures { seen result ≡ combined self.entry.worst (Ok (said_of self.entry.filled)) }
    {
        match self.worst {
            None => Ok(self.filled),
            Some(why) => Err(why),
        }
    }

    /// With a further reason.
    fn noting(self, why: TextWhy) -> Judge<'a, 's>
        ensures slots { result.slots.now ≡ self.entry.slots.now }
        ensures filled { result.filled ≡ self.entry.filled }
        ensures worst { (said : Result Said Why) → combined result.worst said ≡ combined self.entry.worst (beside why said) }
    {
        let first = match self.worst {
            None => why,
            Some(worst) => earlier(worst, why),
        };
        Judge {
            slots: self.slots,
            filled: self.filled,
            worst: Some(first),
        }
    }
}

/// What the operands of a text say at their places, in a statement at `pc`, which is `None` outside
/// text. Each has to be right, none may be missing, and none may be left; the first reason in the
/// order of reasons is told.
pub(crate) fn say<'a>(
    pc: Option<u32>,
    slots: &[Slot],
    text: &'a [u8],
    start: Filled<'a>,
) -> Result<Filled<'a>, TextWhy>
    ensures { seen result ≡ say pc slots.now (operands_in text.now) (said_of start.entry) }
{
    let mut judge = Judge {
        slots,
        filled: start,
        worst: None,
    };
    if are_blank(text) {
        return judge.end(pc);
    }
    let mut rest = text;
    'pieces: while let Some((piece, others)) = parted(b',', rest) {
        judge = judge.taking(pc, trim(piece));
        rest = others;
    }
    judge.taking(pc, trim(rest)).end(pc)
}
