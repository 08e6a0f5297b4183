//! Making the changes of an instruction.
ghost use Rattle.std.specs.Prelude.{◌≡◌, ◌+◌, ◌<◌, ◌≤◌, ◌^◌, All, length, unwrap_or};
ghost use Rattle.std.specs.Option.{ForSome};
ghost use Rattle.pisa_step.specs.Reader.{with_hi, with_lo, with_regs};
ghost use Rattle.pisa_step.specs.Effect.{changed, with_write};

use crate::changes::{Changes, MemWrite};
use crate::machine::Machine;

/// Makes the changes of an instruction: what is read afterwards is what they say, all else that is
/// read stays, and so does all else that the machine holds.
pub fn apply<M: Machine>(m: &mut M, e: &Changes)
    requires registers { All (λ w. w.0 < 32) e.now.regs.items }
    requires range { ForSome e.now.mem (λ w. w.addr + length w.bytes.items ≤ 2 ^ 32) }
    requires room { ForSome e.now.mem (λ w. M.has_room m.old w.addr (length w.bytes.items)) }
    ensures reads { M.reads m.new ≡ changed (M.reads m.old) e.now }
    ensures agrees { M.agrees m.old m.new }
{
    write(m, &e.mem);
    write_hi(m, e.hi);
    write_lo(m, e.lo);
    write_registers(m, e.regs.as_slice());
}

/// Makes a write to memory, if there is one.
fn write<M: Machine>(m: &mut M, mem: &Option<MemWrite>)
    requires range { ForSome mem.now (λ w. w.addr + length w.bytes.items ≤ 2 ^ 32) }
    requires room { ForSome mem.now (λ w. M.has_room m.old w.addr (length w.bytes.items)) }
    ensures reads { M.reads m.new ≡ with_write (M.reads m.old) mem.now }
    ensures agrees { M.agrees m.old m.new }
{
    if let Some(write) = mem {
        m.set_bytes(write.addr, write.bytes.as_slice());
    }
}

/// Sets HI, if there is a value for it.
fn write_hi<M: Machine>(m: &mut M, value: Option<u32>)
    ensures reads { M.reads m.new ≡ with_hi (M.reads m.old) (unwrap_or value (M.reads m.old).hi) }
    ensures agrees { M.agrees m.old m.new }
{
    if let Some(value) = value {
        m.set_hi(value);
    }
}

/// Sets LO, if there is a value for it.
fn write_lo<M: Machine>(m: &mut M, value: Option<u32>)
    ensures reads { M.reads m.new ≡ with_lo (M.reads m.old) (unwrap_or value (M.reads m.old).lo) }
    ensures agrees { M.agrees m.old m.new }
{
    if let Some(value) = value {
        m.set_lo(value);
    }
}

/// Sets registers, at most two, to values, in order.
fn write_registers<M: Machine>(m: &mut M, regs: &[(u8, u32)])
    requires registers { All (λ w. w.0 < 32) regs.now }
    requires fits { length regs.now ≤ 2 }
    ensures reads { M.reads m.new ≡ with_regs (M.reads m.old) regs.now }
    ensures agrees { M.agrees m.old m.new }
{
    match regs {
        [] => {}
        [(register, value)] => m.set_reg(*register, *value),
        [(first, low), (second, high), ..] => {
            m.set_reg(*first, *low);
            m.set_reg(*second, *high);
        }
    }
}
