//! The places among the operands of a statement.
ghost use Rattle.std.specs.Prelude.{◌≡◌, ◌≤◌, length};
ghost use Rattle.pisa_asm.specs.Operands.{slots_of};

use pisa_isa::Operands;

/// A place among the operands of a statement.
#[derive(Clone, Copy, Debug)]
pub(crate) enum Slot {
    /// The register `rs`.
    Rs,
    /// The register `rt`.
    Rt,
    /// The register `rd`.
    Rd,
    /// A shift amount.
    Shift,
    /// A signed number in `imm`.
    Signed,
    /// An unsigned number in `imm`.
    Unsigned,
    /// The target of a branch.
    Branch,
    /// The target of a jump.
    Jump,
    /// An address: an offset in `imm`, and the register `rs` in parentheses.
    Address,
    /// An address: the registers `rs` and `rd` with a `+` between them, in parentheses.
    Sum,
    /// The address of a section.
    Start,
    /// A number of bytes.
    Count,
    /// A word of data.
    Word,
    /// A half word of data.
    Half,
    /// A byte of data.
    Byte,
    /// A label.
    Name,
}

/// The places among an instruction's operands, in the order of the text.
pub(crate) fn slots_of(operands: Operands) -> &'static [Slot]
    ensures value { result.now ≡ slots_of operands }
    ensures few { length result.now ≤ 3 }
{
    match operands {
        Operands::Empty => &[],
        Operands::Target => &[Slot::Jump],
        Operands::Rs => &[Slot::Rs],
        Operands::Rd => &[Slot::Rd],
        Operands::RdRs => &[Slot::Rd, Slot::Rs],
        Operands::RsRt => &[Slot::Rs, Slot::Rt],
        Operands::RsBranch => &[Slot::Rs, Slot::Branch],
        Operands::RsRtBranch => &[Slot::Rs, Slot::Rt, Slot::Branch],
        Operands::Offset => &[Slot::Address],
        Operands::Indexed => &[Slot::Sum],
        Operands::RtOffset => &[Slot::Rt, Slot::Address],
        Operands::RtIndexed => &[Slot::Rt, Slot::Sum],
        Operands::RdRsRt => &[Slot::Rd, Slot::Rs, Slot::Rt],
        Operands::RdRtRs => &[Slot::Rd, Slot::Rt, Slot::Rs],
        Operands::RdRtShift => &[Slot::Rd, Slot::Rt, Slot::Shift],
        Operands::RtRsSigned => &[Slot::Rt, Slot::Rs, Slot::Signed],
        Operands::RtRsUnsigned => &[Slot::Rt, Slot::Rs, Slot::Unsigned],
        Operands::RtUnsigned => &[Slot::Rt, Slot::Unsigned],
    }
}
