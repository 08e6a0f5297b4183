//! The places that an instruction reads and writes.
ghost use Rattle.std.specs.Prelude.{◌≡◌, ◌+◌, ◌<◌, ◌≤◌, [], ◌∷◌, ◌++◌};
ghost use Rattle.arrayvec.specs.ArrayVec.{array_vec_len};
ghost use Rattle.pisa_isa.specs.Coding.{IsWellFormed};
ghost use Rattle.pisa_isa.specs.Fields.{uses};
ghost use Rattle.pisa_isa.specs.Places.{destination, late_source, is_rt, is_rd, members, registers, sources, listed_register, reads_main_of, reads_second_of, writes_of};
ghost use Rattle.pisa_isa.specs.declared.places.Place.TheVariants as variants;

use crate::fields::{Fields, used_or_zero};
use crate::instr::Instr;
use crate::table::{Kind, Operands};
use arrayvec::ArrayVec;

/// A place of the register state that an instruction reads or writes.
#[derive(Clone, Copy, Debug, PartialEq, Eq)]
pub enum Place {
    /// A general register by its number, 1 to 31. Register 0 is no place, since it is always 0.
    Reg(u8),
    /// The upper half of a product, or a remainder.
    Hi,
    /// The lower half of a product, or a quotient.
    Lo,
}

impl Default for Place {
    ghost is_default = { λ p. p ≡ variants.Reg 0 };

    /// Register 0, which fills the unused cells of an `ArrayVec` and is never read there.
    fn default() -> Place {
        Place::Reg(0)
    }
}

/// Places that are read or written together.
#[derive(Clone, Copy, Debug, PartialEq, Eq)]
pub enum Group {
    /// No place.
    Nothing,
    /// The register in `rd`.
    Rd,
    /// The register in `rt`.
    Rt,
    /// The register in `rt` and the next.
    RtPair,
    /// Register 31.
    ReturnAddress,
    /// HI alone.
    Hi,
    /// LO alone.
    Lo,
    /// HI and LO.
    HiLo,
}

/// No place.
fn none() -> ArrayVec<Place, 2>
    ensures { result.items ≡ [] }
{
    ArrayVec::new()
}

/// One place.
fn one(place: Place) -> ArrayVec<Place, 2>
    ensures { result.items ≡ place ∷ [] }
{
    let mut places = ArrayVec::new();
    places.push(place);
    places
}

/// Two places in this order.
fn two(first: Place, second: Place) -> ArrayVec<Place, 2>
    ensures { result.items ≡ first ∷ second ∷ [] }
{
    let mut places = ArrayVec::new();
    places.push(first);
    places.push(second);
    places
}

/// The place of a register, or none for register 0.
fn register(number: u8) -> ArrayVec<Place, 2>
    ensures { result.items ≡ registers (number ∷ []) }
{
    if number == 0 {
        none()
    } else {
        one(Place::Reg(number))
    }
}

/// The places of a register and the next.
fn pair(number: u8) -> ArrayVec<Place, 2>
    requires { number < 255 }
    ensures { result.items ≡ registers (number ∷ (number + 1) ∷ []) }
{
    if number == 0 {
        one(Place::Reg(1))
    } else {
        two(Place::Reg(number), Place::Reg(number + 1))
    }
}

/// Adds the place of a register where it is to be listed.
fn push_register(places: &mut ArrayVec<Place, 3>, listed: bool, number: u8)
    requires { array_vec_len places.old < 3 }
    ensures items { places.new.items ≡ places.old.items ++ listed_register listed number }
    ensures len { array_vec_len places.new ≤ array_vec_len places.old + 1 }
{
    if listed {
        places.push(Place::Reg(number));
    }
}

/// The places of three registers, each once, where it comes first. Register 0 is no place.
fn three_registers(first: u8, second: u8, third: u8) -> ArrayVec<Place, 3>
    ensures { result.items ≡ registers (first ∷ second ∷ third ∷ []) }
{
    let mut places = ArrayVec::new();
    push_register(&mut places, first != 0, first);
    push_register(&mut places, second != 0 && second != first, second);
    push_register(
        &mut places,
        third != 0 && third != first && third != second,
        third,
    );
    places
}

impl Group {
    /// The places of this group in an instruction.
    fn members(self, i: &Instr) -> ArrayVec<Place, 2>
        requires { i.now.rt < 255 }
        ensures { result.items ≡ members i.now self }
    {
        match self {
            Group::Nothing => none(),
            Group::Rd => register(i.rd),
            Group::Rt => register(i.rt),
            Group::RtPair => pair(i.rt),
            Group::ReturnAddress => one(Place::Reg(31)),
            Group::Hi => one(Place::Hi),
            Group::Lo => one(Place::Lo),
            Group::HiLo => two(Place::Hi, Place::Lo),
        }
    }

    /// Whether the field `rt` names this group.
    fn is_rt(self) -> bool
        ensures { result ≡ is_rt self }
    {
        matches!(self, Group::Rt | Group::RtPair)
    }

    /// Whether the field `rd` names this group.
    fn is_rd(self) -> bool
        ensures { result ≡ is_rd self }
    {
        matches!(self, Group::Rd)
    }
}

impl Kind {
    /// What is written, by whether `rd` is among the operands.
    fn destination(self, has_rd: bool) -> Group
        ensures { result ≡ destination self has_rd }
    {
        match self {
            Kind::Compute | Kind::FromHi | Kind::FromLo if has_rd => Group::Rd,
            Kind::Compute | Kind::FromHi | Kind::FromLo => Group::Rt,
            Kind::Call if has_rd => Group::Rd,
            Kind::Call => Group::ReturnAddress,
            Kind::Load | Kind::LoadMerge => Group::Rt,
            Kind::LoadPair => Group::RtPair,
            Kind::ToHi => Group::Hi,
            Kind::ToLo => Group::Lo,
            Kind::ToHiLo => Group::HiLo,
            Kind::Plain
            | Kind::Jump
            | Kind::JumpRegister
            | Kind::Branch
            | Kind::Store
            | Kind::StorePair
            | Kind::StoreZero
            | Kind::Float => Group::Nothing,
        }
    }

    /// What is read after the address: the data of a store, and the old value that a merging load
    /// keeps.
    fn late_source(self) -> Group
        ensures { result ≡ late_source self }
    {
        match self {
            Kind::Store | Kind::LoadMerge => Group::Rt,
            Kind::StorePair => Group::RtPair,
            _ => Group::Nothing,
        }
    }
}

/// One place of three.
fn one_of_three(place: Place) -> ArrayVec<Place, 3>
    ensures { result.items ≡ place ∷ [] }
{
    let mut places = ArrayVec::new();
    places.push(place);
    places
}

/// The registers of the used fields, without what is written and without late sources.
fn sources(i: &Instr, fields: Fields, written: Group, late: Group) -> ArrayVec<Place, 3>
    requires { fields ≡ uses i.now.op }
    ensures { result.items ≡ registers (sources i.now written late) }
{
    let rt = fields.rt && !written.is_rt() && !late.is_rt();
    let rd = fields.rd && !written.is_rd();
    three_registers(
        used_or_zero(fields.rs, i.rs),
        used_or_zero(rt, i.rt),
        used_or_zero(rd, i.rd),
    )
}

/// The places that an instruction reads first, in the order `rs`, `rt`, `rd`, each once.
///
/// They are the registers of the used fields that are neither only written nor read late; for a
/// load or a store they are those of its address. MFHI reads HI and MFLO reads LO. Register 0 never
/// stands here.
pub fn reads_main(i: &Instr) -> ArrayVec<Place, 3>
    ensures { result.items ≡ reads_main_of i.now }
{
    match Kind::of(i.op) {
        Kind::FromHi => one_of_three(Place::Hi),
        Kind::FromLo => one_of_three(Place::Lo),
        kind => {
            let fields = Operands::of(i.op).fields();
            sources(i, fields, kind.destination(fields.rd), kind.late_source())
        }
    }
}

/// The places that an instruction reads once its address is known: the data of a store, and the
/// old `rt` of LWL and LWR. Register 0 never stands here.
pub fn reads_second(i: &Instr) -> ArrayVec<Place, 2>
    requires { IsWellFormed i.now }
    ensures { result.items ≡ reads_second_of i.now }
{
    Kind::of(i.op).late_source().members(i)
}

/// The places that an instruction writes, a pair in rising order and HI before LO. Register 0
/// never stands here.
pub fn writes(i: &Instr) -> ArrayVec<Place, 2>
    requires { IsWellFormed i.now }
    ensures { result.items ≡ writes_of i.now }
{
    let has_rd = Operands::of(i.op).fields().rd;
    Kind::of(i.op).destination(has_rd).members(i)
}
