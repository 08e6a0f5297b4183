//! The state under an overlay, as a machine.
ghost use Rattle.std.specs.Prelude.{◌≡◌, ◌+◌, ◌<◌, ◌≤◌, ◌^◌, ◌∷◌, List, All, length, refl};
ghost use Rattle.std.proofs.Common.{◌∙◌, sym};
ghost use Rattle.pisa_step.specs.declared.changes.Changes.{Changes};
ghost use Rattle.pisa_step.specs.Effect.{changed};
ghost use Rattle.pisa_step.specs.Reader.{with_reg, with_hi, with_lo, with_bytes};
ghost use Rattle.spec_state.specs.Overlay.{HasRoom, StandsFor, WritesInBlock};
ghost use Rattle.spec_state.specs.View.{Agrees, applied_in, view_of};

use crate::overlay::Overlay;
use pisa_step::{Changes, Machine};
use sim_safe::Arch;

/// A state under an overlay: it reads as the state with what was written over it, and writes the
/// overlay alone.
#[derive(Drop)]
pub struct SpecView<'a> {
    /// The state, which is never changed.
    pub base: &'a Arch,
    /// What was written over it.
    pub over: &'a mut Overlay,
}

impl<'a> SpecView<'a> {
    /// Makes the changes of an instruction, as one effect.
    pub fn apply(&mut self, e: &Changes)
        requires registers { All (λ w. w.0 < 32) e.now.regs.items }
        requires count { applied_in self.old < self.old.over.now.size }
        requires block { WritesInBlock e.now }
        ensures stands { (effects : List Changes) → StandsFor self.old.over.now effects → StandsFor self.new.over.now (e.now ∷ effects) }
        ensures reads { view_of self.new ≡ changed (view_of self.old) e.now }
        ensures agrees { Agrees self.old self.new }
        ensures counts { applied_in self.new ≡ applied_in self.old + 1 }
    {
        self.over.apply(e);
    }
}

impl<'a> Machine for SpecView<'a> {
    ghost reads = { view_of };

    ghost has_room = { λ v. HasRoom v.over.now };

    ghost agrees = { Agrees };

    ghost zero_reads_zero = { λ v. refl };

    ghost agrees_with_itself = { λ v. record { base = refl; over = refl; size = refl } };

    ghost agrees_back = { λ a b same. record { base = sym same.base; over = sym same.over; size = sym same.size } };

    ghost agrees_in_turn = { λ a b c first second. record { base = second.base ∙ first.base; over = second.over ∙ first.over; size = second.size ∙ first.size } };

    fn reg(&self, r: u8) -> u32 {
        match self.over.reg(r) {
            Some(value) => value,
            None => self.base.reg(r),
        }
    }

    fn hi(&self) -> u32 {
        match self.over.hi() {
            Some(value) => value,
            None => self.base.hi(),
        }
    }

    fn lo(&self) -> u32 {
        match self.over.lo() {
            Some(value) => value,
            None => self.base.lo(),
        }
    }

    fn byte(&self, addr: u32) -> u8 {
        match self.over.byte(addr) {
            Some(byte) => byte,
            None => self.base.byte(addr),
        }
    }

    fn big(&self) -> bool {
        self.base.big()
    }

    /// Whether another effect may be applied, and the range lies in one aligned block of 8 bytes.
    fn room(&self, addr: u32, len: u32) -> bool {
        self.over.has_room() && len <= 8 - addr % 8
    }

    /// Sets a register, 0 to 31. This counts as no effect.
    fn set_reg(&mut self, r: u8, v: u32)
        requires { r < 32 }
        ensures reads { view_of self.new ≡ with_reg (view_of self.old) r v }
        ensures agrees { Agrees self.old self.new }
        ensures counts { applied_in self.new ≡ applied_in self.old }
    {
        self.over.set_reg(r, v);
    }

    /// Sets HI. This counts as no effect.
    fn set_hi(&mut self, v: u32)
        ensures reads { view_of self.new ≡ with_hi (view_of self.old) v }
        ensures agrees { Agrees self.old self.new }
        ensures counts { applied_in self.new ≡ applied_in self.old }
    {
        self.over.set_hi(v);
    }

    /// Sets LO. This counts as no effect.
    fn set_lo(&mut self, v: u32)
        ensures reads { view_of self.new ≡ with_lo (view_of self.old) v }
        ensures agrees { Agrees self.old self.new }
        ensures counts { applied_in self.new ≡ applied_in self.old }
    {
        self.over.set_lo(v);
    }

    /// Sets the bytes from `addr` on. This counts as one effect.
    fn set_bytes(&mut self, addr: u32, bytes: &[u8])
        requires range { addr + length bytes.now ≤ 2 ^ 32 }
        requires room { HasRoom self.old.over.now addr (length bytes.now) }
        ensures reads { view_of self.new ≡ with_bytes (view_of self.old) addr bytes.now }
        ensures agrees { Agrees self.old self.new }
        ensures counts { applied_in self.new ≡ applied_in self.old + 1 }
    {
        self.over.set_bytes(addr, bytes);
    }
}
