//! A machine with a small flat memory.
ghost use Rattle.std.specs.Prelude.{ℕ, ◌≡◌, ◌+◌, ◌-◌, ◌≤◌, ◌^◌, ◌∷◌, refl, IsTrue, length, nat_lt, slice_index, if◌then◌else◌};
ghost use Rattle.std.proofs.Common.{◌∙◌, sym};
ghost use Rattle.std.specs.Option.{ForSome};
ghost use Rattle.pisa_step.specs.Reader.{bytes_with};

use crate::{Changes, Machine};

/// The address of the first byte of memory.
pub const BASE: u32 = 0x1000_0000;

/// A machine with 64 bytes of memory from `BASE` on, in which every other byte reads 0.
#[derive(Drop)]
pub struct Flat {
    regs: [u32; 31],
    hi: u32,
    lo: u32,
    memory: [u8; 64],
    big: bool,
    /// What no instruction changes.
    pub tag: u32,
}

impl Flat {
    /// A machine of zeros in a byte order.
    pub fn new(big: bool) -> Flat {
        Flat {
            regs: [0; 31],
            hi: 0,
            lo: 0,
            memory: [0; 64],
            big,
            tag: 77,
        }
    }
}

impl Machine for Flat {
    ghost reads = { λ m. record {
      regs = λ r. slice_index (0 ∷ m.regs) r;
      hi = m.hi;
      lo = m.lo;
      bytes = λ a. (if nat_lt a 268435456 then 0 else slice_index m.memory (a - 268435456));
      big = m.big;
    } };

    ghost has_room = { λ m addr len. (268435456 ≤ addr) × (addr + len ≤ 268435520) };

    ghost agrees = { λ a b. b.tag ≡ a.tag };

    ghost zero_reads_zero = { λ m. refl };

    ghost agrees_with_itself = { λ m. refl };

    ghost agrees_back = { λ a b same. sym same };

    ghost agrees_in_turn = { λ a b c first second. second ∙ first };

    fn reg(&self, r: u8) -> u32 {
        if r == 0 { 0 } else { self.regs[r as usize - 1] }
    }

    fn hi(&self) -> u32 {
        self.hi
    }

    fn lo(&self) -> u32 {
        self.lo
    }

    fn byte(&self, addr: u32) -> u8 {
        if (BASE..BASE + 64).contains(&addr) {
            self.memory[(addr - BASE) as usize]
        } else {
            0
        }
    }

    fn big(&self) -> bool {
        self.big
    }

    fn room(&self, addr: u32, len: u32) -> bool {
        BASE <= addr && addr as u64 + len as u64 <= BASE as u64 + 64
    }

    fn set_reg(&mut self, r: u8, v: u32) {
        if r != 0 {
            self.regs[r as usize - 1] = v;
        }
    }

    fn set_hi(&mut self, v: u32) {
        self.hi = v;
    }

    fn set_lo(&mut self, v: u32) {
        self.lo = v;
    }

    fn set_bytes(&mut self, addr: u32, bytes: &[u8]) {
        paste(&mut self.memory, (addr - BASE) as usize, bytes);
    }
}

/// Puts bytes over others.
fn paste(memory: &mut [u8; 64], at: usize, bytes: &[u8])
    requires { at + length bytes.now ≤ 64 }
    ensures { (k : ℕ) → slice_index memory.new k ≡ bytes_with (λ j. slice_index memory.old j) at bytes.now k }
{
    memory[at..at + bytes.len()].copy_from_slice(bytes);
}

/// Whether there is room for the write of an instruction, if it has one.
pub fn has_room(m: &Flat, e: &Changes) -> bool
    requires { ForSome e.now.mem (λ w. w.addr + length w.bytes.items ≤ 2 ^ 32) }
    ensures { IsTrue result → ForSome e.now.mem (λ w. (268435456 ≤ w.addr) × (w.addr + length w.bytes.items ≤ 268435520)) }
{
    match &e.mem {
        Some(write) => m.room(write.addr, write.bytes.len() as u32),
        None => true,
    }
}
