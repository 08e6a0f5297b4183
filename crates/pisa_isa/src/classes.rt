//! The functional unit, the memory access and the control of instructions, and their names.
ghost use Rattle.std.specs.Prelude.{◌≡◌};
ghost use Rattle.pisa_isa.specs.Classes.{access_by, access_of, control_by, control_of, is_float_op, is_floating, operands_of, unit_of};
ghost use Rattle.pisa_isa.specs.Coding.{number_of};
ghost use Rattle.pisa_isa.specs.Texts.{name_of};

use crate::instr::{Instr, Op};
use crate::table::{Kind, Operands, name_of, number_of};
use arrayvec::ArrayString;

/// The functional unit that an operation takes.
#[derive(Clone, Copy, Debug, PartialEq, Eq)]
pub enum UnitClass {
    /// It takes no unit.
    Free,
    /// An integer ALU. Loads and stores form their address there.
    Alu,
    /// The multiplier.
    Multiply,
    /// The divider.
    Divide,
}

/// How an operation reaches memory.
#[derive(Clone, Copy, Debug, PartialEq, Eq)]
pub enum AccessKind {
    /// It does not. Floating-point loads and stores count here, since they are never executed.
    Nothing,
    /// It reads memory.
    Load,
    /// It writes memory.
    Store,
}

/// How an instruction directs control.
#[derive(Clone, Copy, Debug, PartialEq, Eq)]
pub enum ControlKind {
    /// The next instruction in memory follows. Floating-point branches count here.
    Nothing,
    /// A branch on a condition.
    Cond,
    /// A jump that is neither a call nor a return.
    Jump,
    /// A jump that keeps its return address.
    Call,
    /// A jump to the address in register 31.
    Return,
}

impl Kind {
    /// How an operation of this kind reaches memory.
    fn access(self) -> AccessKind
        ensures { result ≡ access_by self }
    {
        match self {
            Kind::Load | Kind::LoadPair | Kind::LoadMerge => AccessKind::Load,
            Kind::Store | Kind::StorePair | Kind::StoreZero => AccessKind::Store,
            _ => AccessKind::Nothing,
        }
    }

    /// How an instruction of this kind directs control, by its register `rs`.
    fn control(self, rs: u8) -> ControlKind
        ensures { result ≡ control_by self rs }
    {
        match self {
            Kind::Branch => ControlKind::Cond,
            Kind::Call => ControlKind::Call,
            Kind::JumpRegister if rs == 31 => ControlKind::Return,
            Kind::Jump | Kind::JumpRegister => ControlKind::Jump,
            _ => ControlKind::Nothing,
        }
    }
}

/// The functional unit that an operation takes.
pub fn unit(op: Op) -> UnitClass
    ensures { result ≡ unit_of op }
{
    UnitClass::of(op)
}

/// How an operation reaches memory.
pub fn access(op: Op) -> AccessKind
    ensures { result ≡ access_of op }
{
    Kind::of(op).access()
}

/// How an instruction directs control: JR of register 31 is a return, of any other a jump.
pub fn control(i: &Instr) -> ControlKind
    ensures { result ≡ control_of i.now }
{
    Kind::of(i.op).control(i.rs)
}

/// Whether an operation is one of floating point.
pub fn is_float(op: Op) -> bool
    ensures { result ≡ is_float_op op }
{
    matches!(Kind::of(op), Kind::Float)
}

/// The operands of an operation in assembly text. Those of floating point have none.
pub fn operands(op: Op) -> Operands
    ensures { result ≡ operands_of op }
{
    Operands::of(op)
}

/// The printed name of an operation, in capitals, as `LB_RR`.
pub fn name(op: Op) -> ArrayString<8>
    ensures { result.bytes ≡ name_of op }
{
    let mut text = ArrayString::new();
    text.push_str(name_of(op));
    text
}

/// The opcode of an operation.
pub fn number(op: Op) -> u16
    ensures { result ≡ number_of op }
{
    number_of(op)
}
