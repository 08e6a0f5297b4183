//! The assembly text of an instruction.
ghost use Rattle.std.specs.Prelude.{◌≡◌, ◌+◌, ◌%◌, ◌^◌, ◌<◌, ◌≤◌, ◌++◌, [], ◌∷◌, decimal};
ghost use Rattle.arrayvec.specs.ArrayString.{array_string_len};
ghost use Rattle.ss_base.specs.Text.{hex8, hex_digit};
ghost use Rattle.pisa_isa.specs.Coding.{IsWellFormed};
ghost use Rattle.pisa_asm.specs.declared.slots.Slot.TheVariants as slot;
ghost use Rattle.pisa_asm.specs.Printed.{instruction_text, operand_texts, register_text, signed_text, slot_text, target_text};

use crate::slots::{Slot, slots_of};
use arrayvec::ArrayString;
use itoa::Buffer;
use pisa_isa::{Instr, branch_target, jump_target, name, operands};

/// Adds the decimal digits of a number of 16 bits.
fn push_decimal(text: &mut ArrayString<64>, n: u16)
    requires { array_string_len text.old + 5 ≤ 64 }
    ensures bytes { text.new.bytes ≡ text.old.bytes ++ decimal n }
    ensures grows { array_string_len text.new ≤ array_string_len text.old + 5 }
{
    let mut buffer = Buffer::new();
    text.push_str(buffer.format(n));
}

/// Adds a register.
fn push_register(text: &mut ArrayString<64>, r: u8)
    requires { array_string_len text.old + 4 ≤ 64 }
    ensures bytes { text.new.bytes ≡ text.old.bytes ++ register_text r }
    ensures grows { array_string_len text.new ≤ array_string_len text.old + 4 }
{
    let mut buffer = Buffer::new();
    text.push_str("$");
    text.push_str(buffer.format(r));
}

/// Adds a number of 16 bits as a signed one.
fn push_signed(text: &mut ArrayString<64>, imm: u16)
    requires { array_string_len text.old + 6 ≤ 64 }
    ensures bytes { text.new.bytes ≡ text.old.bytes ++ signed_text imm }
    ensures grows { array_string_len text.new ≤ array_string_len text.old + 6 }
{
    if imm < 0x8000 {
        push_decimal(text, imm);
    } else {
        text.push_str("-");
        push_decimal(text, (0x1_0000 - u32::from(imm)) as u16);
    }
}

/// Adds the hexadecimal digit of the four low bits.
fn push_digit(text: &mut ArrayString<64>, n: u32)
    requires { array_string_len text.old + 1 ≤ 64 }
    ensures bytes { text.new.bytes ≡ text.old.bytes ++ hex_digit (n % 16) ∷ [] }
    ensures grows { array_string_len text.new ≡ array_string_len text.old + 1 }
{
    let low = (n % 16) as u8;
    let digit = if low < 10 {
        b'0' + low
    } else {
        b'a' - 10 + low
    };
    text.push(char::from(digit));
}

/// Adds `0x` and the eight hexadecimal digits of an address.
fn push_target(text: &mut ArrayString<64>, target: u32)
    requires { array_string_len text.old + 10 ≤ 64 }
    ensures bytes { text.new.bytes ≡ text.old.bytes ++ target_text target }
    ensures grows { array_string_len text.new ≤ array_string_len text.old + 10 }
{
    text.push_str("0x");
    push_digit(text, target / 0x1000_0000);
    push_digit(text, target / 0x100_0000);
    push_digit(text, target / 0x10_0000);
    push_digit(text, target / 0x1_0000);
    push_digit(text, target / 0x1000);
    push_digit(text, target / 0x100);
    push_digit(text, target / 0x10);
    push_digit(text, target);
}

/// Adds an address: an offset, and a register in parentheses.
fn push_address(text: &mut ArrayString<64>, i: &Instr)
    requires { array_string_len text.old + 12 ≤ 64 }
    ensures bytes { text.new.bytes ≡ text.old.bytes ++ slot_text 0 i.now slot.Address }
    ensures grows { array_string_len text.new ≤ array_string_len text.old + 12 }
{
    push_signed(text, i.imm);
    text.push_str("(");
    push_register(text, i.rs);
    text.push_str(")");
}

/// Adds an indexed address: two registers in parentheses.
fn push_sum(text: &mut ArrayString<64>, i: &Instr)
    requires { array_string_len text.old + 11 ≤ 64 }
    ensures bytes { text.new.bytes ≡ text.old.bytes ++ slot_text 0 i.now slot.Sum }
    ensures grows { array_string_len text.new ≤ array_string_len text.old + 11 }
{
    text.push_str("(");
    push_register(text, i.rs);
    text.push_str("+");
    push_register(text, i.rd);
    text.push_str(")");
}

/// Adds what stands at a place of an instruction's operands.
fn push_slot(text: &mut ArrayString<64>, i: &Instr, pc: u32, slot: Slot)
    requires room { array_string_len text.old + 12 ≤ 64 }
    requires target { i.now.target < 2 ^ 26 }
    ensures bytes { text.new.bytes ≡ text.old.bytes ++ slot_text pc i.now slot }
    ensures grows { array_string_len text.new ≤ array_string_len text.old + 12 }
{
    match slot {
        Slot::Rs => push_register(text, i.rs),
        Slot::Rt => push_register(text, i.rt),
        Slot::Rd => push_register(text, i.rd),
        Slot::Shift => push_decimal(text, u16::from(i.shamt)),
        Slot::Signed => push_signed(text, i.imm),
        Slot::Unsigned => push_decimal(text, i.imm),
        Slot::Branch => push_target(text, branch_target(pc, i.imm)),
        Slot::Jump => push_target(text, jump_target(pc, i.target)),
        Slot::Address => push_address(text, i),
        Slot::Sum => push_sum(text, i),
        _ => {}
    }
}

/// The line that assembles at `pc` to this instruction: its name, and its operands with numbers in
/// decimal and targets as `0x` and eight digits. An operation of floating point has its name alone.
pub fn disassemble(i: &Instr, pc: u32) -> ArrayString<64>
    requires { IsWellFormed i.now }
    ensures { result.bytes ≡ instruction_text i.now pc }
{
    let mut text = ArrayString::new();
    text.push_str(name(i.op).as_str());
    let slots = slots_of(operands(i.op));
    let mut separator = ' ';
    for slot in slots {
        text.push(separator);
        push_slot(&mut text, i, pc, *slot);
        separator = ',';
    }
    text
}
