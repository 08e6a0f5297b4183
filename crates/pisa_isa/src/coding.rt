//! The coding of instructions in two words.
ghost use Rattle.std.specs.Prelude.{◌≡◌, ℕ, ◌↔◌, IsTrue, IfOk, Some};
ghost use Rattle.std.specs.Result.{result_ok};
ghost use Rattle.pisa_isa.specs.Fields.{uses, highest_rt};
ghost use Rattle.pisa_isa.specs.Coding.{Codes, Decodes, Finds, IsInRange, IsWellFormed, bits, decoded, field_of, instr_of, number_of, opcode_of, second_word};

use crate::fields::{Fields, is_in_range, used_or_zero};
use crate::instr::{Illegal, IllegalWhy, Instr, Op};
use crate::lookup::operation;
use crate::table::{Kind, Operands, number_of};

impl Instr {
    /// Whether each field that the operation uses is in its range, and each other field is 0.
    ///
    /// Registers are at most 31, and `rt` at most 30 where it names a pair; a shift amount is at
    /// most 31, and a target is below 2^26.
    pub fn well_formed(&self) -> bool
        ensures { IsTrue result ↔ IsWellFormed self.now }
    {
        let fields = Operands::of(self.op).fields();
        let rs = is_in_range(fields.rs, 31, self.rs as u32);
        let rt = is_in_range(
            fields.rt,
            Kind::of(self.op).highest_rt() as u32,
            self.rt as u32,
        );
        let rd = is_in_range(fields.rd, 31, self.rd as u32);
        let shamt = is_in_range(fields.shamt, 31, self.shamt as u32);
        let imm = is_in_range(fields.imm, 0xffff, self.imm as u32);
        let target = is_in_range(fields.target, 0x3ff_ffff, self.target);
        rs && rt && rd && shamt && imm && target
    }
}

/// The opcode: the lower half of the first word.
fn opcode_of(first: u32) -> u16
    ensures { result ≡ opcode_of first }
{
    (first & 0xffff) as u16
}

/// The bits of a word for `imm`, where it is used.
fn imm_of(used: bool, second: u32) -> u16
    ensures { result ≡ field_of used (bits second 0 16) }
{
    if used { (second & 0xffff) as u16 } else { 0 }
}

/// The bits of a word for `target`, where it is used.
fn target_of(used: bool, second: u32) -> u32
    ensures { result ≡ field_of used (bits second 0 26) }
{
    if used { second & 0x3ff_ffff } else { 0 }
}

/// The bytes of a word for `rs`, `rt`, `rd` and `shamt`.
fn bytes_of(second: u32) -> (u8, u8, u8, u8)
    ensures rs { result.0 ≡ bits second 24 8 }
    ensures rt { result.1 ≡ bits second 16 8 }
    ensures rd { result.2 ≡ bits second 8 8 }
    ensures shamt { result.3 ≡ bits second 0 8 }
{
    (
        (second >> 24) as u8,
        (second >> 16 & 0xff) as u8,
        (second >> 8 & 0xff) as u8,
        (second & 0xff) as u8,
    )
}

/// The instruction of an operation and a second word, whatever the ranges of its fields.
fn unchecked(op: Op, fields: Fields, second: u32) -> Instr
    requires { fields ≡ uses op }
    ensures { result ≡ instr_of op second }
{
    let (rs, rt, rd, shamt) = bytes_of(second);
    Instr {
        op,
        rs: used_or_zero(fields.rs, rs),
        rt: used_or_zero(fields.rt, rt),
        rd: used_or_zero(fields.rd, rd),
        shamt: used_or_zero(fields.shamt, shamt),
        imm: imm_of(fields.imm, second),
        target: target_of(fields.target, second),
    }
}

/// The first fault of the ranges of an instruction, whose `rt` may be at most `limit`.
fn check_ranges(i: &Instr, limit: u8) -> Result<(), IllegalWhy>
    requires { limit ≡ highest_rt i.now.op }
    ensures { Finds i.now result }
{
    if i.rs > 31 || i.rt > limit || i.rd > 31 {
        return Err(IllegalWhy::Register);
    }
    if i.shamt > 31 {
        return Err(IllegalWhy::Shift);
    }
    Ok(())
}

/// The instruction that two words code, or the first reason why they code none.
///
/// The lower half of the first word is the opcode, and its upper half, the annotation, is ignored,
/// as are the fields of the second word that the operation does not use.
pub fn decode(first: u32, second: u32) -> Result<Instr, Illegal>
    ensures coding { Decodes first second result }
    ensures value { result_ok result ≡ decoded first second }
    ensures well_formed { IfOk result IsWellFormed }
    ensures in_range { IfOk result IsInRange }
{
    let opcode = opcode_of(first);
    let Some(op) = operation(opcode) else {
        return Err(Illegal {
            opcode,
            why: IllegalWhy::Opcode,
        });
    };
    let i = unchecked(op, Operands::of(op).fields(), second);
    match check_ranges(&i, Kind::of(op).highest_rt()) {
        Ok(()) => Ok(i),
        Err(why) => Err(Illegal { opcode, why }),
    }
}

/// The second word of an instruction, with each unused bit 0.
#[tactic(auto, using(crate::specs::CodingLaws::bounds))]
fn joined_fields(i: &Instr) -> u32
    requires { IsWellFormed i.now }
    ensures { result ≡ second_word i.now }
{
    let rs = (i.rs as u32) << 24;
    let rt = (i.rt as u32) << 16;
    let rd = (i.rd as u32) << 8;
    rs + rt + rd + i.shamt as u32 + i.imm as u32 + i.target
}

/// The two words of an instruction, with annotation 0 and each unused bit 0.
pub fn encode(i: &Instr) -> (u32, u32)
    requires { IsWellFormed i.now }
    ensures first { result.0 ≡ number_of i.now.op }
    ensures second { result.1 ≡ second_word i.now }
    ensures coding { Codes result.0 result.1 i.now }
    ensures round_trip { decoded result.0 result.1 ≡ Some i.now }
{
    (number_of(i.op) as u32, joined_fields(i))
}
