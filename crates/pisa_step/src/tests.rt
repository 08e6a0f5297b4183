//! Effects on a small machine, against values that were worked out by hand or by another program.
ghost use Rattle.std.specs.Prelude.{◌≡◌, ◌≢◌, ◌↔◌, IsTrue};

mod flat;

use crate::{Cause, Changes, Machine, TextRange, apply, effect};
use flat::{BASE, Flat, has_room};
use pisa_isa::{Instr, Op};

/// Where the instructions stand.
const PC: u32 = 0x0040_0000;

/// Whether an operation is a system call.
fn is_call(op: Op) -> bool
    ensures { IsTrue result ↔ (op ≡ Op.Syscall) }
{
    op == Op::Syscall
}

/// An instruction with register fields alone.
fn instr(op: Op, rs: u8, rt: u8, rd: u8) -> Instr {
    Instr {
        op,
        rs,
        rt,
        rd,
        shamt: 0,
        imm: 0,
        target: 0,
    }
}

/// An instruction on register 4 with an immediate value and a target register.
fn with_imm(op: Op, imm: u16, rt: u8) -> Instr {
    Instr {
        imm,
        ..instr(op, 4, rt, 0)
    }
}

/// Text of four instructions.
const TEXT: TextRange = TextRange {
    start: PC,
    end: PC + 32,
};

/// The effect of an instruction at `PC`, or None where it has none to ask for.
fn answer(m: &Flat, i: &Instr, text: TextRange) -> Option<Result<Changes, Cause>> {
    if is_call(i.op) || !i.well_formed() {
        return None;
    }
    Some(effect(m, i, PC, text))
}

/// Whether an instruction goes on and writes this register alone with this value.
fn writes(m: &Flat, i: &Instr, register: u8, value: u32) -> bool {
    let Some(Ok(changes)) = answer(m, i, TEXT) else {
        return false;
    };
    changes.next == PC + 8
        && changes.mem.is_none()
        && changes.regs.as_slice() == [(register, value)].as_slice()
}

/// Makes the changes of an instruction, and answers whether there were any to make.
fn step(m: &mut Flat, i: &Instr) -> bool {
    if is_call(i.op) || !i.well_formed() {
        return false;
    }
    match effect(m, i, PC, TEXT) {
        Ok(changes) => {
            let fits = has_room(m, &changes);
            if fits {
                apply(m, &changes);
            }
            fits
        }
        Err(_) => false,
    }
}

/// A machine with the bytes 11 22 33 44 at `BASE`, its address in register 4 and a value in 8.
fn with_word(big: bool) -> Flat {
    let mut m = Flat::new(big);
    m.set_bytes(BASE, &[0x11, 0x22, 0x33, 0x44]);
    m.set_reg(4, BASE);
    m.set_reg(8, 0xaabb_ccdd);
    m
}

/// Each part load gives the old bytes and the loaded ones, at each place in both byte orders.
#[test]
fn part_loads_join(rt: HostRuntime) {
    let rows = [
        (Op::Lwl, 0, 0x11bb_ccdd, 0x1122_3344),
        (Op::Lwl, 1, 0x2211_ccdd, 0x2233_44dd),
        (Op::Lwl, 2, 0x3322_11dd, 0x3344_ccdd),
        (Op::Lwl, 3, 0x4433_2211, 0x44bb_ccdd),
        (Op::Lwr, 0, 0x4433_2211, 0xaabb_cc11),
        (Op::Lwr, 1, 0xaa44_3322, 0xaabb_1122),
        (Op::Lwr, 2, 0xaabb_4433, 0xaa11_2233),
        (Op::Lwr, 3, 0xaabb_cc44, 0x1122_3344),
    ];
    let mut wrong = None;
    for (op, imm, in_little, in_big) in rows {
        let i = with_imm(op, imm, 8);
        if !writes(&with_word(false), &i, 8, in_little)
            || !writes(&with_word(true), &i, 8, in_big)
        {
            wrong = Some((op, imm));
        }
    }
    assert_eq!(rt; wrong, None);
}

/// Memory of four bytes from `BASE` on after an instruction, or None where it stops or changes more.
fn after(big: bool, op: Op, imm: u16) -> Option<u32> {
    let mut m = with_word(big);
    if !step(&mut m, &with_imm(op, imm, 8)) || m.tag != 77 {
        return None;
    }
    Some(u32::from_be_bytes([
        m.byte(BASE),
        m.byte(BASE + 1),
        m.byte(BASE + 2),
        m.byte(BASE + 3),
    ]))
}

/// Each store writes its bytes and no others, at each place in both byte orders.
#[test]
fn stores_write_their_bytes(rt: HostRuntime) {
    let rows = [
        (Op::Swl, 0, 0xaa22_3344, 0xaabb_ccdd),
        (Op::Swl, 1, 0xbbaa_3344, 0x11aa_bbcc),
        (Op::Swl, 2, 0xccbb_aa44, 0x1122_aabb),
        (Op::Swl, 3, 0xddcc_bbaa, 0x1122_33aa),
        (Op::Swr, 0, 0xddcc_bbaa, 0xdd22_3344),
        (Op::Swr, 1, 0x11dd_ccbb, 0xccdd_3344),
        (Op::Swr, 2, 0x1122_ddcc, 0xbbcc_dd44),
        (Op::Swr, 3, 0x1122_33dd, 0xaabb_ccdd),
        (Op::Sb, 1, 0x11dd_3344, 0x11dd_3344),
        (Op::Sh, 2, 0x1122_ddcc, 0x1122_ccdd),
        (Op::Sw, 0, 0xddcc_bbaa, 0xaabb_ccdd),
        (Op::Dsw, 0, 0xddcc_bbaa, 0xaabb_ccdd),
    ];
    let mut wrong = None;
    for (op, imm, in_little, in_big) in rows {
        if after(false, op, imm) != Some(in_little) || after(true, op, imm) != Some(in_big) {
            wrong = Some((op, imm));
        }
    }
    assert_eq!(rt; wrong, None);
}

/// A machine with two values, in registers 4 and 5.
fn with_values(a: u32, b: u32) -> Flat {
    let mut m = Flat::new(false);
    m.set_reg(4, a);
    m.set_reg(5, b);
    m
}

/// Values of two registers.
#[test]
fn values_are_computed(rt: HostRuntime) {
    let of_registers = [
        (Op::Add, 0x7fff_fffe, 1, 0x7fff_ffff),
        (Op::Addu, 0x7fff_ffff, 1, 0x8000_0000),
        (Op::Addu, 0xffff_ffff, 2, 1),
        (Op::Sub, 0x8000_0001, 1, 0x8000_0000),
        (Op::Subu, 0x8000_0000, 1, 0x7fff_ffff),
        (Op::Subu, 0, 0x8000_0000, 0x8000_0000),
        (Op::And, 0x1234_5678, 0x0f0f_0f0f, 0x0204_0608),
        (Op::Or, 0x1234_5678, 0x0f0f_0f0f, 0x1f3f_5f7f),
        (Op::Xor, 0x1234_5678, 0x0f0f_0f0f, 0x1d3b_5977),
        (Op::Nor, 0x1234_5678, 0x0f0f_0f0f, 0xe0c0_a080),
        (Op::Sllv, 0x0f0f_0f0f, 0x1234_5678, 0x2b3c_0000),
        (Op::Srlv, 0xffff_ffff, 0x8000_0000, 1),
        (Op::Srav, 0x0000_003f, 0x8000_0000, 0xffff_ffff),
        (Op::Srav, 0x0000_0024, 0x8000_0000, 0xf800_0000),
        (Op::Slt, 0x8000_0000, 0x7fff_ffff, 1),
        (Op::Slt, 0, 0x8000_0000, 0),
        (Op::Sltu, 0x8000_0000, 0x7fff_ffff, 0),
        (Op::Sltu, 0, 0x8000_0000, 1),
    ];
    let mut wrong = None;
    for (op, a, b, want) in of_registers {
        if !writes(&with_values(a, b), &instr(op, 4, 5, 6), 6, want) {
            wrong = Some((op, a, b));
        }
    }
    assert_eq!(rt; wrong, None);
}

/// Values of a register and an immediate.
#[test]
fn immediate_values_are_computed(rt: HostRuntime) {
    let of_immediates = [
        (Op::Addi, 0x8000_0001, 0xffff, 0x8000_0000),
        (Op::Addiu, 0x7fff_ffff, 1, 0x8000_0000),
        (Op::Addiu, 0, 0x8000, 0xffff_8000),
        (Op::Andi, 0xffff_ffff, 0x8001, 0x8001),
        (Op::Ori, 0x1234_0000, 0x8001, 0x1234_8001),
        (Op::Xori, 0xffff_ffff, 0x8001, 0xffff_7ffe),
        (Op::Slti, 0xffff_8000, 0x8001, 1),
        (Op::Slti, 1, 0x8000, 0),
        (Op::Sltiu, 1, 0x8000, 1),
        (Op::Sltiu, 0xffff_ffff, 0xffff, 0),
    ];
    let mut wrong = None;
    for (op, a, imm, want) in of_immediates {
        if !writes(&with_values(a, 0), &with_imm(op, imm, 7), 7, want) {
            wrong = Some((op, a, imm));
        }
    }
    assert_eq!(rt; wrong, None);
}

/// Values of a register and a shift amount, and of LUI.
#[test]
fn shifted_values_are_computed(rt: HostRuntime) {
    let of_shifts = [
        (Op::Sll, 0x8000_0001, 31, 0x8000_0000),
        (Op::Srl, 0x8000_0001, 31, 1),
        (Op::Sra, 0x8000_0001, 31, 0xffff_ffff),
        (Op::Sra, 0x7fff_ffff, 30, 1),
    ];
    let upper = Instr {
        imm: 0x8001,
        ..instr(Op::Lui, 0, 9, 0)
    };
    let mut right = writes(&with_values(1, 2), &upper, 9, 0x8001_0000);
    for (op, b, shamt, want) in of_shifts {
        let i = Instr {
            shamt,
            ..instr(op, 0, 5, 6)
        };
        right = right && writes(&with_values(0, b), &i, 6, want);
    }
    assert!(rt; right);
}

/// Whether an operation puts these values into HI and LO, and the moves take them out and put
/// others in.
fn makes(op: Op, a: u32, b: u32, hi: u32, lo: u32) -> bool {
    let mut m = with_values(a, b);
    let made = step(&mut m, &instr(op, 4, 5, 0))
        && step(&mut m, &instr(Op::Mfhi, 0, 0, 6))
        && step(&mut m, &instr(Op::Mflo, 0, 0, 7))
        && (m.reg(6), m.reg(7)) == (hi, lo);
    made && step(&mut m, &instr(Op::Mthi, 4, 0, 0))
        && step(&mut m, &instr(Op::Mtlo, 5, 0, 0))
        && (m.hi(), m.lo()) == (a, b)
}

/// Products and quotients with their signs, and the moves of HI and LO.
#[test]
fn products_and_quotients(rt: HostRuntime) {
    let rows = [
        (Op::Mult, 0x8000_0000, 0xffff_ffff, 0, 0x8000_0000),
        (
            Op::Multu,
            0x8000_0000,
            0xffff_ffff,
            0x7fff_ffff,
            0x8000_0000,
        ),
        (Op::Mult, 7, 0xffff_fffe, 0xffff_ffff, 0xffff_fff2),
        (Op::Multu, 7, 0xffff_fffe, 6, 0xffff_fff2),
        (Op::Mult, 0x8000_0000, 0x8000_0000, 0x4000_0000, 0),
        (Op::Div, 0x8000_0000, 0xffff_ffff, 0, 0x8000_0000),
        (Op::Div, 0xffff_fff9, 2, 0xffff_ffff, 0xffff_fffd),
        (Op::Div, 7, 0xffff_fffe, 1, 0xffff_fffd),
        (Op::Divu, 0xffff_fff9, 2, 1, 0x7fff_fffc),
        (Op::Divu, 0x8000_0000, 0xffff_ffff, 0x8000_0000, 0),
    ];
    let mut wrong = None;
    for (op, a, b, hi, lo) in rows {
        if !makes(op, a, b, hi, lo) {
            wrong = Some((op, a, b));
        }
    }
    assert_eq!(rt; wrong, None);
}

/// Whether an instruction stops for this cause.
fn stops(m: &Flat, i: &Instr, text: TextRange, cause: Cause) -> bool {
    answer(m, i, text) == Some(Err(cause))
}

/// Each cause, and a misaligned store into text, whose address is told first.
#[test]
fn causes_stop(rt: HostRuntime) {
    let nothing = instr(Op::Nop, 0, 0, 0);
    let rows = [
        (
            0,
            0,
            Instr {
                op: Op::AddS,
                ..nothing
            },
            Cause::FloatingPoint { opcode: 0x70 },
        ),
        (
            0,
            0,
            Instr {
                op: Op::Break,
                ..nothing
            },
            Cause::Break,
        ),
        (0x7fff_ffff, 1, instr(Op::Add, 4, 5, 6), Cause::Overflow),
        (0x8000_0000, 1, instr(Op::Sub, 4, 5, 0), Cause::Overflow),
        (
            0x7fff_ffff,
            0,
            Instr {
                imm: 1,
                ..instr(Op::Addi, 4, 6, 0)
            },
            Cause::Overflow,
        ),
        (1, 0, instr(Op::Div, 4, 5, 0), Cause::DivideByZero),
        (1, 0, instr(Op::Divu, 4, 5, 0), Cause::DivideByZero),
        (
            BASE + 1,
            0,
            instr(Op::Lh, 4, 6, 0),
            Cause::Misaligned { addr: BASE + 1 },
        ),
        (
            BASE + 2,
            0,
            instr(Op::Lw, 4, 6, 0),
            Cause::Misaligned { addr: BASE + 2 },
        ),
        (
            BASE + 4,
            0,
            instr(Op::Dlw, 4, 6, 0),
            Cause::Misaligned { addr: BASE + 4 },
        ),
        (
            BASE,
            2,
            instr(Op::SwRr, 4, 6, 5),
            Cause::Misaligned { addr: BASE + 2 },
        ),
        (
            BASE,
            4,
            instr(Op::DszRr, 4, 0, 5),
            Cause::Misaligned { addr: BASE + 4 },
        ),
        (
            PC + 31,
            0,
            instr(Op::Sb, 4, 6, 0),
            Cause::TextWrite { addr: PC + 31 },
        ),
        (PC, 0, instr(Op::Sw, 4, 6, 0), Cause::TextWrite { addr: PC }),
        (
            PC + 6,
            0,
            instr(Op::Swl, 4, 6, 0),
            Cause::TextWrite { addr: PC + 4 },
        ),
        (
            PC + 1,
            0,
            instr(Op::Sh, 4, 6, 0),
            Cause::Misaligned { addr: PC + 1 },
        ),
        (
            PC + 4,
            0,
            instr(Op::Dsz, 4, 0, 0),
            Cause::Misaligned { addr: PC + 4 },
        ),
    ];
    let mut right = true;
    for (a, b, i, cause) in rows {
        right = right && stops(&with_values(a, b), &i, TEXT, cause);
    }
    assert!(rt; right);
}

/// Whether an instruction goes on.
fn goes_on(m: &Flat, i: &Instr, text: TextRange) -> bool {
    matches!(answer(m, i, text), Some(Ok(_)))
}

/// Writes next to text go on, one that ends in it stops with its first byte, and so does none where
/// text is empty.
#[test]
fn text_is_kept(rt: HostRuntime) {
    let pair = instr(Op::Dsw, 4, 6, 0);
    let rows = [
        (0x2008, 0x2010, 0x2000, false),
        (0x2008, 0x2010, 0x2008, true),
        (0x2008, 0x2010, 0x2010, false),
        (0x2004, 0x2006, 0x2000, true),
        (0x2004, 0x2004, 0x2000, false),
        (0xffff_fff0, 0xffff_ffff, 0xffff_fff8, true),
        (0x2008, 0x2010, 0xffff_fff8, false),
    ];
    let mut wrong = None;
    for (start, end, a, is_refused) in rows {
        let m = with_values(a, 0);
        let text = TextRange { start, end };
        let refused = stops(&m, &pair, text, Cause::TextWrite { addr: a });
        if refused != is_refused || refused == goes_on(&m, &pair, text) {
            wrong = Some((start, end, a));
        }
    }
    assert_eq!(rt; wrong, None);
}

/// Whether an instruction goes on to this address, is taken or not, and keeps this return address.
fn goes_to(m: &Flat, i: &Instr, next: u32, taken: bool, link: Option<(u8, u32)>) -> bool {
    let Some(Ok(changes)) = answer(m, i, TEXT) else {
        return false;
    };
    (changes.next, changes.taken) == (next, taken)
        && changes.access.is_none()
        && changes.regs.as_slice().first().copied() == link
}

/// Branches and jumps: where they go, whether they are taken, and what they keep.
#[test]
fn control_goes_on(rt: HostRuntime) {
    let nothing = instr(Op::Nop, 0, 0, 0);
    let branch = |op: Op, imm: u16| Instr {
        imm,
        ..instr(op, 4, 0, 0)
    };
    let rows = [
        (0, nothing, PC + 8, false, None),
        (
            5,
            Instr {
                op: Op::J,
                target: 0x3ff_ffff,
                ..nothing
            },
            0x0fff_fffc,
            true,
            None,
        ),
        (
            5,
            Instr {
                op: Op::Jal,
                target: 2,
                ..nothing
            },
            8,
            true,
            Some((31, PC + 8)),
        ),
        (5, instr(Op::Jr, 4, 0, 0), 5, true, None),
        (5, instr(Op::Jalr, 4, 0, 4), 5, true, Some((4, PC + 8))),
        (
            5,
            Instr {
                imm: 0,
                ..instr(Op::Beq, 4, 4, 0)
            },
            PC + 8,
            true,
            None,
        ),
        (
            0,
            Instr {
                imm: 0xffff,
                ..instr(Op::Beq, 4, 5, 0)
            },
            PC + 4,
            true,
            None,
        ),
        (
            5,
            Instr {
                imm: 1,
                ..instr(Op::Beq, 4, 5, 0)
            },
            PC + 8,
            false,
            None,
        ),
        (
            5,
            Instr {
                imm: 0x7fff,
                ..instr(Op::Bne, 4, 5, 0)
            },
            PC + 0x2_0004,
            true,
            None,
        ),
        (0, branch(Op::Blez, 2), PC + 16, true, None),
        (1, branch(Op::Blez, 2), PC + 8, false, None),
        (0, branch(Op::Bgtz, 2), PC + 8, false, None),
        (0x7fff_ffff, branch(Op::Bgtz, 2), PC + 16, true, None),
        (0x8000_0000, branch(Op::Bltz, 2), PC + 16, true, None),
        (0, branch(Op::Bltz, 2), PC + 8, false, None),
        (0, branch(Op::Bgez, 2), PC + 16, true, None),
        (0xffff_ffff, branch(Op::Bgez, 2), PC + 8, false, None),
    ];
    let mut wrong = None;
    for (a, i, next, taken, link) in rows {
        if !goes_to(&with_values(a, 0), &i, next, taken, link) {
            wrong = Some((i.op, a));
        }
    }
    assert_eq!(rt; wrong, None);
}

/// Whether a load of a value that a pair was stored with gives another, the pair comes back, and
/// zeros take its place.
fn loads(big: bool, op: Op, value: u32, want: u32) -> bool {
    let mut m = with_word(big);
    m.set_reg(8, value);
    m.set_reg(9, 0x0102_0304);
    m.set_bytes(BASE + 8, &[0x55]);
    let loaded = step(&mut m, &instr(Op::Dsw, 4, 8, 0))
        && step(&mut m, &instr(op, 4, 10, 0))
        && step(&mut m, &instr(Op::Dlw, 4, 0, 0))
        && step(&mut m, &instr(Op::DlwRr, 4, 11, 0));
    loaded
        && (m.reg(0), m.reg(1), m.reg(10)) == (0, 0x0102_0304, want)
        && (m.reg(11), m.reg(12)) == (value, 0x0102_0304)
        && step(&mut m, &instr(Op::Dsz, 4, 0, 0))
        && (m.byte(BASE), m.byte(BASE + 7), m.byte(BASE + 8)) == (0, 0, 0x55)
}

/// Loads extend, pairs go by the register and not by the byte order, and register 0 stays 0.
#[test]
fn loads_and_pairs(rt: HostRuntime) {
    let rows = [
        (Op::Lb, 0x8091_a2b3, 0xffff_ffb3, 0xffff_ff80),
        (Op::Lbu, 0x8091_a2b3, 0xb3, 0x80),
        (Op::Lh, 0x8091_a2b3, 0xffff_a2b3, 0xffff_8091),
        (Op::Lhu, 0x8091_a2b3, 0xa2b3, 0x8091),
        (Op::Lw, 0x8091_a2b3, 0x8091_a2b3, 0x8091_a2b3),
    ];
    let mut wrong = None;
    for (op, value, in_little, in_big) in rows {
        if !loads(false, op, value, in_little) || !loads(true, op, value, in_big) {
            wrong = Some(op);
        }
    }
    assert_eq!(rt; wrong, None);
}
