use thiserror::Error;

/// An operation of PISA, in the order of the numbers.
///
/// A variant is the printed name without its underscores: `LbRr` is printed as `LB_RR`.
#[derive(Clone, Copy, Debug, PartialEq, Eq)]
pub enum Op {
    Nop,
    J,
    Jal,
    Jr,
    Jalr,
    Beq,
    Bne,
    Blez,
    Bgtz,
    Bltz,
    Bgez,
    Bc1f,
    Bc1t,
    Lb,
    Lbu,
    Lh,
    Lhu,
    Lw,
    Dlw,
    LS,
    LD,
    Lwl,
    Lwr,
    Sb,
    Sh,
    Sw,
    Dsw,
    SS,
    SD,
    Dsz,
    Swl,
    Swr,
    Add,
    Addi,
    Addu,
    Addiu,
    Sub,
    Subu,
    Mult,
    Multu,
    Div,
    Divu,
    Mfhi,
    Mthi,
    Mflo,
    Mtlo,
    And,
    Andi,
    Or,
    Ori,
    Xor,
    Xori,
    Nor,
    Sll,
    Sllv,
    Srl,
    Srlv,
    Sra,
    Srav,
    Slt,
    Slti,
    Sltu,
    Sltiu,
    AddS,
    AddD,
    SubS,
    SubD,
    MulS,
    MulD,
    DivS,
    DivD,
    AbsS,
    AbsD,
    FmovS,
    FmovD,
    FnegS,
    FnegD,
    CvtSD,
    CvtSW,
    CvtDS,
    CvtDW,
    CvtWS,
    CvtWD,
    CEqS,
    CEqD,
    CLtS,
    CLtD,
    CLeS,
    CLeD,
    FsqrtS,
    FsqrtD,
    Syscall,
    Break,
    Lui,
    Mfc1,
    Dmfc1,
    Cfc1,
    Mtc1,
    Dmtc1,
    Ctc1,
    LbRr,
    LbuRr,
    LhRr,
    LhuRr,
    LwRr,
    LSRr,
    SbRr,
    ShRr,
    SwRr,
    DlwRr,
    LDRr,
    DswRr,
    DszRr,
}

/// An instruction. Each field that its operation does not use is 0.
#[derive(Clone, Copy, Debug, PartialEq, Eq)]
pub struct Instr {
    /// The operation.
    pub op: Op,
    /// The first source register, 0 to 31.
    pub rs: u8,
    /// The second source register, or the destination where there is no `rd`, 0 to 31.
    /// It is at most 30 where it names a pair of registers.
    pub rt: u8,
    /// The destination register, or the index register of an indexed access, 0 to 31.
    pub rd: u8,
    /// How far a shift goes, 0 to 31 bits.
    pub shamt: u8,
    /// The 16 bits of an immediate value, signed or unsigned as the operation reads it.
    pub imm: u16,
    /// The target of a jump in words of four bytes, below 2^26.
    pub target: u32,
}

/// Two words that code no instruction.
#[derive(Clone, Copy, Debug, PartialEq, Eq, Error)]
#[error("illegal instruction with opcode {opcode:#x}")]
pub struct Illegal {
    /// The opcode: the lower half of the first word.
    pub opcode: u16,
    /// The first reason that holds.
    pub why: IllegalWhy,
}

/// Why two words code no instruction. The first reason that holds is told.
#[derive(Clone, Copy, Debug, PartialEq, Eq)]
pub enum IllegalWhy {
    /// No operation has this opcode.
    Opcode,
    /// A register field that the operation uses is above 31, or above 30 where it names a pair.
    Register,
    /// The operation uses a shift amount, and it is above 31.
    Shift,
}
