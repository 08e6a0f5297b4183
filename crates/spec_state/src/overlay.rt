//! What was written over a state.
ghost use Rattle.std.specs.Prelude.{◌≡◌, ◌<◌, ◌≤◌, ◌↔◌, ◌∷◌, ℕ, [], All, IfOk, IsTrue, None, length, slice_index_or, unwrap_or};
ghost use Rattle.std.specs.Option.{ForSome};
ghost use Rattle.pisa_step.specs.Effect.{changed, with_write};
ghost use Rattle.pisa_step.specs.Reader.{bytes_with, with_reg, with_hi, with_lo, with_bytes, with_regs};
ghost use Rattle.spec_state.specs.Overlay.{StandsFor, Writes, bytes_over};

use arrayvec::ArrayVec;
use pisa_step::{Changes, MemWrite};
use ss_base::OutOfMemory;
use std::alloc::Global;
use std::marker::Model;

/// What was written over a state since the last rollback: registers and bytes, with how many effects
/// wrote them.
#[derive(Drop)]
pub struct Overlay {
    size: u32,
    applied: u32,
    /// Writes of memory, the oldest first, at most one of each effect.
    writes: Vec<MemWrite>,
    /// Registers 1 to 31. Register 0 is never written.
    regs: [Option<u32>; 31],
    hi: Option<u32>,
    lo: Option<u32>,
}

impl Model for Overlay {
    ghost use Rattle.std.specs.Prelude.{◌≤◌, length, reverse, vec_capacity};
    ghost use Rattle.spec_state.specs.Overlay.{Overlaid};

    ghost Value = { Overlaid };

    ghost view = { λ o. record { size = o.size; applied = o.applied; writes = reverse o.writes.items; regs = o.regs; hi = o.hi; lo = o.lo } };

    ghost invariant = { λ o. record {
      within : o.applied ≤ o.size;
      counted : length o.writes.items ≤ o.applied;
      held : o.size ≤ vec_capacity o.writes;
    } };
}

/// The byte that a write puts at an address, if it writes there.
fn byte_written(write: &MemWrite, addr: u32) -> Option<u8>
    ensures { (bytes : ℕ → ℕ) → bytes_with bytes write.now.addr write.now.bytes.items addr ≡ unwrap_or result (bytes addr) }
{
    let at = addr.checked_sub(write.addr)?;
    write.bytes.as_slice().get(at as usize).copied()
}

/// A write of these bytes.
fn write_of(addr: u32, bytes: &[u8]) -> MemWrite
    requires { length bytes.now ≤ 8 }
    ensures addr { result.addr ≡ addr }
    ensures bytes { result.bytes.items ≡ bytes.now }
{
    let mut all = ArrayVec::new();
    for byte in bytes {
        all.push(*byte);
    }
    MemWrite { addr, bytes: all }
}

impl Overlay {
    /// An overlay for `size` effects on which nothing is written, with all the memory that it will
    /// ever need.
    ///
    /// # Errors
    /// `OutOfMemory` where there is too little memory.
    pub fn new(alloc: Global, size: u32) -> Result<Overlay, OutOfMemory>
        ensures nothing { IfOk result (λ o. StandsFor o []) }
        ensures size { IfOk result (λ o. o.size ≡ size) }
    {
        Ok(Overlay {
            size,
            applied: 0,
            writes: Vec::with_capacity(alloc, size as usize)?,
            regs: [None; 31],
            hi: None,
            lo: None,
        })
    }

    /// How many effects were applied since the last rollback, never more than the size.
    pub fn applied(&self) -> u32
        ensures applied { result ≡ self.now.applied }
        ensures within { result ≤ self.now.size }
    {
        self.applied
    }

    /// Takes back all that was written.
    pub fn rollback(&mut self)
        ensures nothing { StandsFor self.new [] }
        ensures size { self.new.size ≡ self.old.size }
    {
        self.applied = 0;
        self.writes.clear();
        self.regs = [None; 31];
        self.hi = None;
        self.lo = None;
    }

    /// Whether another effect may be applied.
    pub(crate) fn has_room(&self) -> bool
        ensures { IsTrue result ↔ (self.now.applied < self.now.size) }
    {
        self.applied < self.size
    }

    /// The value of a register, 0 to 31, where it was written.
    pub(crate) fn reg(&self, r: u8) -> Option<u32>
        requires { r < 32 }
        ensures { result ≡ slice_index_or (None ∷ self.now.regs) r None }
    {
        if r == 0 {
            None
        } else {
            self.regs[r as usize - 1]
        }
    }

    /// HI, where it was written.
    pub(crate) fn hi(&self) -> Option<u32>
        ensures { result ≡ self.now.hi }
    {
        self.hi
    }

    /// LO, where it was written.
    pub(crate) fn lo(&self) -> Option<u32>
        ensures { result ≡ self.now.lo }
    {
        self.lo
    }

    /// The byte at an address, where one was written: the newest.
    pub(crate) fn byte(&self, addr: u32) -> Option<u8>
        ensures { (bytes : ℕ → ℕ) → bytes_over bytes self.now.writes addr ≡ unwrap_or result (bytes addr) }
    {
        for k in (0..self.writes.len()).rev() {
            if let Some(byte) = byte_written(&self.writes[k], addr) {
                return Some(byte);
            }
        }
        None
    }

    /// Writes a register, 0 to 31.
    pub(crate) fn set_reg(&mut self, r: u8, v: u32)
        requires { r < 32 }
        ensures { Writes (λ s. with_reg s r v) 0 self.old self.new }
    {
        if r != 0 {
            self.regs[r as usize - 1] = Some(v);
        }
    }

    /// Writes registers, in order.
    fn set_regs(&mut self, regs: &[(u8, u32)])
        requires { All (λ w. w.0 < 32) regs.now }
        ensures { Writes (λ s. with_regs s regs.now) 0 self.old self.new }
    {
        for (register, value) in regs {
            self.set_reg(*register, *value);
        }
    }

    /// Writes HI.
    pub(crate) fn set_hi(&mut self, v: u32)
        ensures { Writes (λ s. with_hi s v) 0 self.old self.new }
    {
        self.hi = Some(v);
    }

    /// Writes LO.
    pub(crate) fn set_lo(&mut self, v: u32)
        ensures { Writes (λ s. with_lo s v) 0 self.old self.new }
    {
        self.lo = Some(v);
    }

    /// Writes the bytes from an address on, as one effect.
    pub(crate) fn set_bytes(&mut self, addr: u32, bytes: &[u8])
        requires count { self.old.applied < self.old.size }
        requires short { length bytes.now ≤ 8 }
        ensures { Writes (λ s. with_bytes s addr bytes.now) 1 self.old self.new }
    {
        match self.writes.push(write_of(addr, bytes)) {
            Ok(()) => self.applied += 1,
            Err(_) => unreachable!(),
        }
    }

    /// Writes what an instruction changes, as one effect.
    pub(crate) fn apply(&mut self, e: &Changes)
        requires registers { All (λ w. w.0 < 32) e.now.regs.items }
        requires count { self.old.applied < self.old.size }
        requires short { ForSome e.now.mem (λ w. length w.bytes.items ≤ 8) }
        ensures { Writes (λ s. changed s e.now) 1 self.old self.new }
    {
        self.apply_write(&e.mem);
        self.apply_hi(e.hi);
        self.apply_lo(e.lo);
        self.set_regs(e.regs.as_slice());
    }

    /// Counts one effect, with its write of memory if it has one.
    fn apply_write(&mut self, mem: &Option<MemWrite>)
        requires count { self.old.applied < self.old.size }
        requires short { ForSome mem.now (λ w. length w.bytes.items ≤ 8) }
        ensures { Writes (λ s. with_write s mem.now) 1 self.old self.new }
    {
        match mem {
            Some(write) => self.set_bytes(write.addr, write.bytes.as_slice()),
            None => self.applied += 1,
        }
    }

    /// Writes HI, if there is a value for it.
    fn apply_hi(&mut self, value: Option<u32>)
        ensures { Writes (λ s. with_hi s (unwrap_or value s.hi)) 0 self.old self.new }
    {
        if let Some(value) = value {
            self.set_hi(value);
        }
    }

    /// Writes LO, if there is a value for it.
    fn apply_lo(&mut self, value: Option<u32>)
        ensures { Writes (λ s. with_lo s (unwrap_or value s.lo)) 0 self.old self.new }
    {
        if let Some(value) = value {
            self.set_lo(value);
        }
    }
}
