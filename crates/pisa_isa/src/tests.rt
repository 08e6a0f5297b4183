//! The expected values were worked out apart from the crate, from the definition of each operation.
use crate::Place::{Hi, Lo, Reg};
use crate::{
    AccessKind, ControlKind, Illegal, IllegalWhy, Instr, Op, Operands, Place, UnitClass, access,
    branch_target, control, decode, encode, is_float, jump_target, name, number, operands,
    reads_main, reads_second, unit, writes,
};

/// What is expected of some operations where the used fields are `rs` 3, `rt` 5, `rd` 9, `shamt` 7,
/// `imm` 0x8001 and `target` 0x1234567.
struct Case {
    /// The operations, with their names and opcodes.
    operations: &'static [(Op, &'static str, u16)],
    operands: Operands,
    /// `rs`, `rt`, `rd`, `shamt`, `imm` and `target`.
    fields: (u8, u8, u8, u8, u16, u32),
    /// The second word.
    second: u32,
    /// The bits of the second word in no used field.
    unused: u32,
    main: &'static [Place],
    late: &'static [Place],
    written: &'static [Place],
    classes: (UnitClass, AccessKind, ControlKind),
    float: bool,
}

static CASES: [Case; 31] = [
    Case {
        operations: &[
            (Op::Nop, "NOP", 0x00),
            (Op::Syscall, "SYSCALL", 0xa0),
            (Op::Break, "BREAK", 0xa1),
        ],
        operands: Operands::Empty,
        fields: (0, 0, 0, 0, 0, 0),
        second: 0x00000000,
        unused: 0xffffffff,
        main: &[],
        late: &[],
        written: &[],
        classes: (UnitClass::Free, AccessKind::Nothing, ControlKind::Nothing),
        float: false,
    },
    Case {
        operations: &[(Op::J, "J", 0x01)],
        operands: Operands::Target,
        fields: (0, 0, 0, 0, 0x0, 0x1234567),
        second: 0x01234567,
        unused: 0xfc000000,
        main: &[],
        late: &[],
        written: &[],
        classes: (UnitClass::Free, AccessKind::Nothing, ControlKind::Jump),
        float: false,
    },
    Case {
        operations: &[(Op::Jal, "JAL", 0x02)],
        operands: Operands::Target,
        fields: (0, 0, 0, 0, 0x0, 0x1234567),
        second: 0x01234567,
        unused: 0xfc000000,
        main: &[],
        late: &[],
        written: &[Reg(31)],
        classes: (UnitClass::Free, AccessKind::Nothing, ControlKind::Call),
        float: false,
    },
    Case {
        operations: &[(Op::Jr, "JR", 0x03)],
        operands: Operands::Rs,
        fields: (3, 0, 0, 0, 0, 0),
        second: 0x03000000,
        unused: 0x00ffffff,
        main: &[Reg(3)],
        late: &[],
        written: &[],
        classes: (UnitClass::Alu, AccessKind::Nothing, ControlKind::Jump),
        float: false,
    },
    Case {
        operations: &[(Op::Jalr, "JALR", 0x04)],
        operands: Operands::RdRs,
        fields: (3, 0, 9, 0, 0, 0),
        second: 0x03000900,
        unused: 0x00ff00ff,
        main: &[Reg(3)],
        late: &[],
        written: &[Reg(9)],
        classes: (UnitClass::Alu, AccessKind::Nothing, ControlKind::Call),
        float: false,
    },
    Case {
        operations: &[(Op::Beq, "BEQ", 0x05), (Op::Bne, "BNE", 0x06)],
        operands: Operands::RsRtBranch,
        fields: (3, 5, 0, 0, 0x8001, 0x0),
        second: 0x03058001,
        unused: 0x00000000,
        main: &[Reg(3), Reg(5)],
        late: &[],
        written: &[],
        classes: (UnitClass::Alu, AccessKind::Nothing, ControlKind::Cond),
        float: false,
    },
    Case {
        operations: &[
            (Op::Blez, "BLEZ", 0x07),
            (Op::Bgtz, "BGTZ", 0x08),
            (Op::Bltz, "BLTZ", 0x09),
            (Op::Bgez, "BGEZ", 0x0a),
        ],
        operands: Operands::RsBranch,
        fields: (3, 0, 0, 0, 0x8001, 0x0),
        second: 0x03008001,
        unused: 0x00ff0000,
        main: &[Reg(3)],
        late: &[],
        written: &[],
        classes: (UnitClass::Alu, AccessKind::Nothing, ControlKind::Cond),
        float: false,
    },
    Case {
        operations: &[
            (Op::Lb, "LB", 0x20),
            (Op::Lbu, "LBU", 0x22),
            (Op::Lh, "LH", 0x24),
            (Op::Lhu, "LHU", 0x26),
            (Op::Lw, "LW", 0x28),
        ],
        operands: Operands::RtOffset,
        fields: (3, 5, 0, 0, 0x8001, 0x0),
        second: 0x03058001,
        unused: 0x00000000,
        main: &[Reg(3)],
        late: &[],
        written: &[Reg(5)],
        classes: (UnitClass::Alu, AccessKind::Load, ControlKind::Nothing),
        float: false,
    },
    Case {
        operations: &[(Op::Dlw, "DLW", 0x29)],
        operands: Operands::RtOffset,
        fields: (3, 5, 0, 0, 0x8001, 0x0),
        second: 0x03058001,
        unused: 0x00000000,
        main: &[Reg(3)],
        late: &[],
        written: &[Reg(5), Reg(6)],
        classes: (UnitClass::Alu, AccessKind::Load, ControlKind::Nothing),
        float: false,
    },
    Case {
        operations: &[(Op::Lwl, "LWL", 0x2c), (Op::Lwr, "LWR", 0x2d)],
        operands: Operands::RtOffset,
        fields: (3, 5, 0, 0, 0x8001, 0x0),
        second: 0x03058001,
        unused: 0x00000000,
        main: &[Reg(3)],
        late: &[Reg(5)],
        written: &[Reg(5)],
        classes: (UnitClass::Alu, AccessKind::Load, ControlKind::Nothing),
        float: false,
    },
    Case {
        operations: &[
            (Op::LbRr, "LB_RR", 0xc0),
            (Op::LbuRr, "LBU_RR", 0xc1),
            (Op::LhRr, "LH_RR", 0xc2),
            (Op::LhuRr, "LHU_RR", 0xc3),
            (Op::LwRr, "LW_RR", 0xc4),
        ],
        operands: Operands::RtIndexed,
        fields: (3, 5, 9, 0, 0, 0),
        second: 0x03050900,
        unused: 0x000000ff,
        main: &[Reg(3), Reg(9)],
        late: &[],
        written: &[Reg(5)],
        classes: (UnitClass::Alu, AccessKind::Load, ControlKind::Nothing),
        float: false,
    },
    Case {
        operations: &[(Op::DlwRr, "DLW_RR", 0xce)],
        operands: Operands::RtIndexed,
        fields: (3, 5, 9, 0, 0, 0),
        second: 0x03050900,
        unused: 0x000000ff,
        main: &[Reg(3), Reg(9)],
        late: &[],
        written: &[Reg(5), Reg(6)],
        classes: (UnitClass::Alu, AccessKind::Load, ControlKind::Nothing),
        float: false,
    },
    Case {
        operations: &[
            (Op::Sb, "SB", 0x30),
            (Op::Sh, "SH", 0x32),
            (Op::Sw, "SW", 0x34),
            (Op::Swl, "SWL", 0x39),
            (Op::Swr, "SWR", 0x3a),
        ],
        operands: Operands::RtOffset,
        fields: (3, 5, 0, 0, 0x8001, 0x0),
        second: 0x03058001,
        unused: 0x00000000,
        main: &[Reg(3)],
        late: &[Reg(5)],
        written: &[],
        classes: (UnitClass::Alu, AccessKind::Store, ControlKind::Nothing),
        float: false,
    },
    Case {
        operations: &[(Op::Dsw, "DSW", 0x35)],
        operands: Operands::RtOffset,
        fields: (3, 5, 0, 0, 0x8001, 0x0),
        second: 0x03058001,
        unused: 0x00000000,
        main: &[Reg(3)],
        late: &[Reg(5), Reg(6)],
        written: &[],
        classes: (UnitClass::Alu, AccessKind::Store, ControlKind::Nothing),
        float: false,
    },
    Case {
        operations: &[(Op::Dsz, "DSZ", 0x38)],
        operands: Operands::Offset,
        fields: (3, 0, 0, 0, 0x8001, 0x0),
        second: 0x03008001,
        unused: 0x00ff0000,
        main: &[Reg(3)],
        late: &[],
        written: &[],
        classes: (UnitClass::Alu, AccessKind::Store, ControlKind::Nothing),
        float: false,
    },
    Case {
        operations: &[
            (Op::SbRr, "SB_RR", 0xc6),
            (Op::ShRr, "SH_RR", 0xc7),
            (Op::SwRr, "SW_RR", 0xc8),
        ],
        operands: Operands::RtIndexed,
        fields: (3, 5, 9, 0, 0, 0),
        second: 0x03050900,
        unused: 0x000000ff,
        main: &[Reg(3), Reg(9)],
        late: &[Reg(5)],
        written: &[],
        classes: (UnitClass::Alu, AccessKind::Store, ControlKind::Nothing),
        float: false,
    },
    Case {
        operations: &[(Op::DswRr, "DSW_RR", 0xd0)],
        operands: Operands::RtIndexed,
        fields: (3, 5, 9, 0, 0, 0),
        second: 0x03050900,
        unused: 0x000000ff,
        main: &[Reg(3), Reg(9)],
        late: &[Reg(5), Reg(6)],
        written: &[],
        classes: (UnitClass::Alu, AccessKind::Store, ControlKind::Nothing),
        float: false,
    },
    Case {
        operations: &[(Op::DszRr, "DSZ_RR", 0xd1)],
        operands: Operands::Indexed,
        fields: (3, 0, 9, 0, 0, 0),
        second: 0x03000900,
        unused: 0x00ff00ff,
        main: &[Reg(3), Reg(9)],
        late: &[],
        written: &[],
        classes: (UnitClass::Alu, AccessKind::Store, ControlKind::Nothing),
        float: false,
    },
    Case {
        operations: &[
            (Op::Add, "ADD", 0x40),
            (Op::Addu, "ADDU", 0x42),
            (Op::Sub, "SUB", 0x44),
            (Op::Subu, "SUBU", 0x45),
            (Op::And, "AND", 0x4e),
            (Op::Or, "OR", 0x50),
            (Op::Xor, "XOR", 0x52),
            (Op::Nor, "NOR", 0x54),
            (Op::Slt, "SLT", 0x5b),
            (Op::Sltu, "SLTU", 0x5d),
        ],
        operands: Operands::RdRsRt,
        fields: (3, 5, 9, 0, 0, 0),
        second: 0x03050900,
        unused: 0x000000ff,
        main: &[Reg(3), Reg(5)],
        late: &[],
        written: &[Reg(9)],
        classes: (UnitClass::Alu, AccessKind::Nothing, ControlKind::Nothing),
        float: false,
    },
    Case {
        operations: &[
            (Op::Addi, "ADDI", 0x41),
            (Op::Addiu, "ADDIU", 0x43),
            (Op::Slti, "SLTI", 0x5c),
            (Op::Sltiu, "SLTIU", 0x5e),
        ],
        operands: Operands::RtRsSigned,
        fields: (3, 5, 0, 0, 0x8001, 0x0),
        second: 0x03058001,
        unused: 0x00000000,
        main: &[Reg(3)],
        late: &[],
        written: &[Reg(5)],
        classes: (UnitClass::Alu, AccessKind::Nothing, ControlKind::Nothing),
        float: false,
    },
    Case {
        operations: &[(Op::Mult, "MULT", 0x46), (Op::Multu, "MULTU", 0x47)],
        operands: Operands::RsRt,
        fields: (3, 5, 0, 0, 0, 0),
        second: 0x03050000,
        unused: 0x0000ffff,
        main: &[Reg(3), Reg(5)],
        late: &[],
        written: &[Hi, Lo],
        classes: (
            UnitClass::Multiply,
            AccessKind::Nothing,
            ControlKind::Nothing,
        ),
        float: false,
    },
    Case {
        operations: &[(Op::Div, "DIV", 0x48), (Op::Divu, "DIVU", 0x49)],
        operands: Operands::RsRt,
        fields: (3, 5, 0, 0, 0, 0),
        second: 0x03050000,
        unused: 0x0000ffff,
        main: &[Reg(3), Reg(5)],
        late: &[],
        written: &[Hi, Lo],
        classes: (UnitClass::Divide, AccessKind::Nothing, ControlKind::Nothing),
        float: false,
    },
    Case {
        operations: &[(Op::Mfhi, "MFHI", 0x4a)],
        operands: Operands::Rd,
        fields: (0, 0, 9, 0, 0, 0),
        second: 0x00000900,
        unused: 0xffff00ff,
        main: &[Hi],
        late: &[],
        written: &[Reg(9)],
        classes: (UnitClass::Alu, AccessKind::Nothing, ControlKind::Nothing),
        float: false,
    },
    Case {
        operations: &[(Op::Mflo, "MFLO", 0x4c)],
        operands: Operands::Rd,
        fields: (0, 0, 9, 0, 0, 0),
        second: 0x00000900,
        unused: 0xffff00ff,
        main: &[Lo],
        late: &[],
        written: &[Reg(9)],
        classes: (UnitClass::Alu, AccessKind::Nothing, ControlKind::Nothing),
        float: false,
    },
    Case {
        operations: &[(Op::Mthi, "MTHI", 0x4b)],
        operands: Operands::Rs,
        fields: (3, 0, 0, 0, 0, 0),
        second: 0x03000000,
        unused: 0x00ffffff,
        main: &[Reg(3)],
        late: &[],
        written: &[Hi],
        classes: (UnitClass::Alu, AccessKind::Nothing, ControlKind::Nothing),
        float: false,
    },
    Case {
        operations: &[(Op::Mtlo, "MTLO", 0x4d)],
        operands: Operands::Rs,
        fields: (3, 0, 0, 0, 0, 0),
        second: 0x03000000,
        unused: 0x00ffffff,
        main: &[Reg(3)],
        late: &[],
        written: &[Lo],
        classes: (UnitClass::Alu, AccessKind::Nothing, ControlKind::Nothing),
        float: false,
    },
    Case {
        operations: &[
            (Op::Andi, "ANDI", 0x4f),
            (Op::Ori, "ORI", 0x51),
            (Op::Xori, "XORI", 0x53),
        ],
        operands: Operands::RtRsUnsigned,
        fields: (3, 5, 0, 0, 0x8001, 0x0),
        second: 0x03058001,
        unused: 0x00000000,
        main: &[Reg(3)],
        late: &[],
        written: &[Reg(5)],
        classes: (UnitClass::Alu, AccessKind::Nothing, ControlKind::Nothing),
        float: false,
    },
    Case {
        operations: &[
            (Op::Sll, "SLL", 0x55),
            (Op::Srl, "SRL", 0x57),
            (Op::Sra, "SRA", 0x59),
        ],
        operands: Operands::RdRtShift,
        fields: (0, 5, 9, 7, 0, 0),
        second: 0x00050907,
        unused: 0xff000000,
        main: &[Reg(5)],
        late: &[],
        written: &[Reg(9)],
        classes: (UnitClass::Alu, AccessKind::Nothing, ControlKind::Nothing),
        float: false,
    },
    Case {
        operations: &[
            (Op::Sllv, "SLLV", 0x56),
            (Op::Srlv, "SRLV", 0x58),
            (Op::Srav, "SRAV", 0x5a),
        ],
        operands: Operands::RdRtRs,
        fields: (3, 5, 9, 0, 0, 0),
        second: 0x03050900,
        unused: 0x000000ff,
        main: &[Reg(3), Reg(5)],
        late: &[],
        written: &[Reg(9)],
        classes: (UnitClass::Alu, AccessKind::Nothing, ControlKind::Nothing),
        float: false,
    },
    Case {
        operations: &[(Op::Lui, "LUI", 0xa2)],
        operands: Operands::RtUnsigned,
        fields: (0, 5, 0, 0, 0x8001, 0x0),
        second: 0x00058001,
        unused: 0xff000000,
        main: &[],
        late: &[],
        written: &[Reg(5)],
        classes: (UnitClass::Alu, AccessKind::Nothing, ControlKind::Nothing),
        float: false,
    },
    Case {
        operations: &[
            (Op::Bc1f, "BC1F", 0x0b),
            (Op::Bc1t, "BC1T", 0x0c),
            (Op::LS, "L_S", 0x2a),
            (Op::LD, "L_D", 0x2b),
            (Op::SS, "S_S", 0x36),
            (Op::SD, "S_D", 0x37),
            (Op::LSRr, "L_S_RR", 0xc5),
            (Op::LDRr, "L_D_RR", 0xcf),
            (Op::AddS, "ADD_S", 0x70),
            (Op::AddD, "ADD_D", 0x71),
            (Op::SubS, "SUB_S", 0x72),
            (Op::SubD, "SUB_D", 0x73),
            (Op::MulS, "MUL_S", 0x74),
            (Op::MulD, "MUL_D", 0x75),
            (Op::DivS, "DIV_S", 0x76),
            (Op::DivD, "DIV_D", 0x77),
            (Op::AbsS, "ABS_S", 0x78),
            (Op::AbsD, "ABS_D", 0x79),
            (Op::FmovS, "FMOV_S", 0x7a),
            (Op::FmovD, "FMOV_D", 0x7b),
            (Op::FnegS, "FNEG_S", 0x7c),
            (Op::FnegD, "FNEG_D", 0x7d),
            (Op::CvtSD, "CVT_S_D", 0x80),
            (Op::CvtSW, "CVT_S_W", 0x81),
            (Op::CvtDS, "CVT_D_S", 0x82),
            (Op::CvtDW, "CVT_D_W", 0x83),
            (Op::CvtWS, "CVT_W_S", 0x84),
            (Op::CvtWD, "CVT_W_D", 0x85),
            (Op::CEqS, "C_EQ_S", 0x90),
            (Op::CEqD, "C_EQ_D", 0x91),
            (Op::CLtS, "C_LT_S", 0x92),
            (Op::CLtD, "C_LT_D", 0x93),
            (Op::CLeS, "C_LE_S", 0x94),
            (Op::CLeD, "C_LE_D", 0x95),
            (Op::FsqrtS, "FSQRT_S", 0x96),
            (Op::FsqrtD, "FSQRT_D", 0x97),
            (Op::Mfc1, "MFC1", 0xa3),
            (Op::Dmfc1, "DMFC1", 0xa4),
            (Op::Cfc1, "CFC1", 0xa5),
            (Op::Mtc1, "MTC1", 0xa6),
            (Op::Dmtc1, "DMTC1", 0xa7),
            (Op::Ctc1, "CTC1", 0xa8),
        ],
        operands: Operands::Empty,
        fields: (0, 0, 0, 0, 0, 0),
        second: 0x00000000,
        unused: 0xffffffff,
        main: &[],
        late: &[],
        written: &[],
        classes: (UnitClass::Free, AccessKind::Nothing, ControlKind::Nothing),
        float: true,
    },
];

/// The instruction of an operation with the fields of a case.
fn instr(op: Op, case: &Case) -> Instr {
    let (rs, rt, rd, shamt, imm, target) = case.fields;
    Instr {
        op,
        rs,
        rt,
        rd,
        shamt,
        imm,
        target,
    }
}

/// Whether an instruction is coded by these words, also where bits that say nothing are set.
fn is_coded(i: &Instr, case: &Case, opcode: u16) -> bool {
    let first = opcode as u32;
    i.well_formed()
        && encode(i) == (first, case.second)
        && decode(first, case.second) == Ok(*i)
        && decode(first | 0xbeef_0000, case.second | case.unused) == Ok(*i)
}

/// Whether these are the places of an instruction.
fn has_places(i: &Instr, main: &[Place], late: &[Place], written: &[Place]) -> bool {
    i.well_formed()
        && reads_main(i).as_slice() == main
        && reads_second(i).as_slice() == late
        && writes(i).as_slice() == written
}

/// Whether an instruction has this name, this opcode and the classes of a case.
fn is_classed(i: &Instr, case: &Case, text: &str, opcode: u16) -> bool {
    name(i.op).as_str() == text
        && number(i.op) == opcode
        && operands(i.op) == case.operands
        && (unit(i.op), access(i.op), control(i)) == case.classes
        && is_float(i.op) == case.float
}

/// Whether an operation is what a case says.
fn agrees(op: Op, text: &str, opcode: u16, case: &Case) -> bool {
    let i = instr(op, case);
    is_coded(&i, case, opcode)
        && has_places(&i, case.main, case.late, case.written)
        && is_classed(&i, case, text, opcode)
}

#[test]
fn each_operation_has_its_row(rt: HostRuntime) {
    let mut count = 0_u32;
    let mut wrong = None;
    for case in &CASES {
        for (op, text, opcode) in case.operations {
            count = count.wrapping_add(1);
            if !agrees(*op, text, *opcode, case) {
                wrong = Some(*op);
            }
        }
    }
    assert_eq!(rt; (count, wrong), (113, None));
}

/// Whether an opcode belongs to an operation.
fn is_opcode(opcode: u32) -> bool {
    match opcode {
        0x00..=0x0c | 0x20 | 0x22 | 0x24 | 0x26 | 0x28..=0x2d => true,
        0x30 | 0x32 | 0x34..=0x3a | 0x40..=0x5e | 0x70..=0x7d => true,
        0x80..=0x85 | 0x90..=0x97 | 0xa0..=0xa8 | 0xc0..=0xc8 | 0xce..=0xd1 => true,
        _ => false,
    }
}

/// Whether an opcode is decoded to its operation where it has one, and else refused.
fn is_judged(opcode: u32) -> bool {
    match decode(opcode, 0) {
        Ok(i) => is_opcode(opcode) && number(i.op) as u32 == opcode,
        Err(illegal) => {
            !is_opcode(opcode)
                && illegal.opcode as u32 == opcode
                && illegal.why == IllegalWhy::Opcode
        }
    }
}

#[test]
fn each_opcode_is_decoded_or_refused(rt: HostRuntime) {
    let mut wrong = None;
    for opcode in (0..=256).chain([0x1000, 0x8040, 0xffff]) {
        if !is_judged(opcode) {
            wrong = Some(opcode);
        }
    }
    assert_eq!(rt; wrong, None);
}

/// Words that code no instruction, with the opcode and the reason.
static REFUSED: [(u32, u32, u16, IllegalWhy); 14] = [
    // ADD with rs, rt or rd 32, and with a register of 255.
    (0x0000_0040, 0x2001_0200, 0x40, IllegalWhy::Register),
    (0x0000_0040, 0x0120_0200, 0x40, IllegalWhy::Register),
    (0x0000_0040, 0x0101_2000, 0x40, IllegalWhy::Register),
    (0x0000_0040, 0xff01_0200, 0x40, IllegalWhy::Register),
    // SLL with a shift of 32 or 255, and with a register of 32 beside it.
    (0x0000_0055, 0x0001_0220, 0x55, IllegalWhy::Shift),
    (0x0000_0055, 0x0001_02ff, 0x55, IllegalWhy::Shift),
    (0x0000_0055, 0x0020_0220, 0x55, IllegalWhy::Register),
    // DLW, DSW and their indexed forms with rt 31.
    (0x0000_0029, 0x001f_0000, 0x29, IllegalWhy::Register),
    (0x0000_0035, 0x001f_0000, 0x35, IllegalWhy::Register),
    (0x0000_00ce, 0x001f_0000, 0xce, IllegalWhy::Register),
    (0x0000_00d0, 0x001f_0000, 0xd0, IllegalWhy::Register),
    // No operation, whatever the fields and the annotation.
    (0x0000_0021, 0xffff_ffff, 0x21, IllegalWhy::Opcode),
    (0x0040_0100, 0x2020_2020, 0x100, IllegalWhy::Opcode),
    (0xffff_ffff, 0x0000_0000, 0xffff, IllegalWhy::Opcode),
];

/// The last values that are allowed: register 31, rt 30 of a pair, a shift of 31.
static ALLOWED: [(u32, u32); 3] = [
    (0x40, 0x1f1f_1f00),
    (0x29, 0x1f1e_ffff),
    (0x55, 0xff1f_1f1f),
];

#[test]
fn words_are_refused_for_the_first_reason(rt: HostRuntime) {
    let mut wrong = None;
    for (first, second, opcode, why) in REFUSED {
        if decode(first, second) != Err(Illegal { opcode, why }) {
            wrong = Some((first, second));
        }
    }
    for (first, second) in ALLOWED {
        if decode(first, second).is_err() {
            wrong = Some((first, second));
        }
    }
    assert_eq!(rt; wrong, None);
}

/// Words with the places of their instruction: read first, read second, written.
type Placed = (
    u32,
    u32,
    &'static [Place],
    &'static [Place],
    &'static [Place],
);

static PLACED: [Placed; 9] = [
    // ADD with rs and rt the same, with rd one of them, with all registers 0.
    (0x40, 0x0404_0600, &[Reg(4)], &[], &[Reg(6)]),
    (0x40, 0x0405_0400, &[Reg(4), Reg(5)], &[], &[Reg(4)]),
    (0x40, 0x0000_0000, &[], &[], &[]),
    // DLW and DSW with rt 0 and 30.
    (0x29, 0x0400_0000, &[Reg(4)], &[], &[Reg(1)]),
    (0x35, 0x041e_0000, &[Reg(4)], &[Reg(30), Reg(31)], &[]),
    // LWL into its own address register; SW_RR with index and data the same.
    (0x2c, 0x0404_0000, &[Reg(4)], &[Reg(4)], &[Reg(4)]),
    (0xc8, 0x0506_0600, &[Reg(5), Reg(6)], &[Reg(6)], &[]),
    // JALR through and into register 31, and into register 0.
    (0x04, 0x1f00_1f00, &[Reg(31)], &[], &[Reg(31)]),
    (0x04, 0x1f00_0000, &[Reg(31)], &[], &[]),
];

/// Whether two words code an instruction that has these places.
fn is_placed(row: &Placed) -> bool {
    let (first, second, main, late, written) = row;
    decode(*first, *second).is_ok_and(|i| has_places(&i, main, late, written))
}

#[test]
fn places_leave_out_register_0_and_repetitions(rt: HostRuntime) {
    let mut wrong = None;
    for row in &PLACED {
        if !is_placed(row) {
            wrong = Some((row.0, row.1));
        }
    }
    assert_eq!(rt; wrong, None);
}

#[test]
fn a_jump_to_register_31_is_a_return(rt: HostRuntime) {
    let back = decode(0x03, 0x1f00_0000).is_ok_and(|i| control(&i) == ControlKind::Return);
    assert!(rt; back);
}

/// Branches and jumps: the address, the field and where they go.
#[test]
fn targets_are_reached_from_their_addresses(rt: HostRuntime) {
    let mut wrong = None;
    for (pc, imm, target) in [
        (0x0040_0140, 0x0003, 0x0040_0154),
        (0x0040_0140, 0xfffe, 0x0040_0140),
        (0x0040_0140, 0x8000, 0x003e_0148),
        (0x0040_0140, 0x7fff, 0x0042_0144),
        (0x0000_0000, 0x8000, 0xfffe_0008),
        (0xffff_fff8, 0x0002, 0x0000_0008),
    ] {
        if branch_target(pc, imm) != target {
            wrong = Some(pc);
        }
    }
    for (pc, field, target) in [
        (0x0040_0140, 0x0010_0060, 0x0040_0180),
        (0x1040_0140, 0x03ff_ffff, 0x1fff_fffc),
        (0xf000_0000, 0x0000_0000, 0xf000_0000),
    ] {
        if jump_target(pc, field) != target {
            wrong = Some(pc);
        }
    }
    assert_eq!(rt; wrong, None);
}
