//! Which fields of an instruction an operation uses, and which values they may have.
ghost use Rattle.std.specs.Prelude.{◌≡◌, ◌≤◌, ◌↔◌, IsTrue};
ghost use Rattle.pisa_isa.specs.Fields.{fields_of, last_rt, takes_pair};
ghost use Rattle.pisa_isa.specs.Coding.{AtMost, field_of};

use crate::table::{Kind, Operands};

/// The fields that an operation uses.
#[derive(Clone, Copy, Debug, PartialEq, Eq)]
pub struct Fields {
    /// It uses `rs`.
    pub rs: bool,
    /// It uses `rt`.
    pub rt: bool,
    /// It uses `rd`.
    pub rd: bool,
    /// It uses `shamt`.
    pub shamt: bool,
    /// It uses `imm`.
    pub imm: bool,
    /// It uses `target`.
    pub target: bool,
}

/// No fields.
const NONE: Fields = Fields {
    rs: false,
    rt: false,
    rd: false,
    shamt: false,
    imm: false,
    target: false,
};

impl Operands {
    /// The fields that stand among the operands.
    pub(crate) fn fields(self) -> Fields
        ensures { result ≡ fields_of self }
    {
        let rs = true;
        let rt = true;
        let rd = true;
        let imm = true;
        match self {
            Operands::Empty => NONE,
            Operands::Target => Fields {
                target: true,
                ..NONE
            },
            Operands::Rs => Fields { rs, ..NONE },
            Operands::Rd => Fields { rd, ..NONE },
            Operands::RdRs | Operands::Indexed => Fields { rs, rd, ..NONE },
            Operands::RsRt => Fields { rs, rt, ..NONE },
            Operands::RsBranch | Operands::Offset => Fields { rs, imm, ..NONE },
            Operands::RsRtBranch
            | Operands::RtOffset
            | Operands::RtRsSigned
            | Operands::RtRsUnsigned => Fields {
                rs,
                rt,
                imm,
                ..NONE
            },
            Operands::RtIndexed | Operands::RdRsRt | Operands::RdRtRs => Fields {
                rs,
                rt,
                rd,
                ..NONE
            },
            Operands::RdRtShift => Fields {
                rt,
                rd,
                shamt: true,
                ..NONE
            },
            Operands::RtUnsigned => Fields { rt, imm, ..NONE },
        }
    }
}

impl Kind {
    /// The last register that `rt` may name: one lower where it names a pair.
    pub fn highest_rt(self) -> u8
        ensures { result ≡ last_rt (takes_pair self) }
    {
        match self {
            Kind::LoadPair | Kind::StorePair => 30,
            _ => 31,
        }
    }
}

/// A register field that is used, and else 0.
pub fn used_or_zero(used: bool, field: u8) -> u8
    ensures { result ≡ field_of used field }
{
    if used { field } else { 0 }
}

/// Whether a field that is used is at most `most`, and one that is not used is 0.
pub fn is_in_range(used: bool, most: u32, field: u32) -> bool
    ensures { IsTrue result ↔ AtMost used most field }
{
    if used { field <= most } else { field == 0 }
}
