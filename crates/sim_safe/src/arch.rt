//! The state of the machine, and what instructions read and write of it.
ghost use Rattle.std.specs.Prelude.{◌≡◌, ◌+◌, ◌≤◌, ◌^◌, ◌∷◌, ℕ, length, slice_index, OnOk, IsOk};
ghost use Rattle.paged_mem.specs.Memory.{IsReserved, IsRangeReserved};
ghost use Rattle.std.proofs.Common.{◌∙◌, sym, refl};
ghost use Rattle.ecoff_load.specs.Object.{IsText};
ghost use Rattle.pisa_step.specs.declared.changes.TextRange.{TextRange};
ghost use Rattle.pisa_step.specs.Memory.{meets};
ghost use Rattle.pisa_step.specs.Reader.{with_bytes};
ghost use Rattle.sim_safe.specs.State.{reader_of, state_of, range_of, HasRoom, Agrees};
ghost use Rattle.sim_safe.specs.Agreement.{agrees_same, agrees_sym, agrees_trans};

use ecoff_load::Text;
use paged_mem::PagedMem;
use pisa_isa::Instr;
use pisa_step::{Machine, TextRange};
use ss_base::OutOfMemory;
use std::marker::Model;

/// The state of the machine. Contracts see what it holds, and by `state_of` the definition's state.
#[derive(Drop)]
pub struct Arch {
    pub(crate) pc: u32,
    /// Registers 1 to 31. Register 0 is 0 and isn't kept.
    pub(crate) regs: [u32; 31],
    pub(crate) hi: u32,
    pub(crate) lo: u32,
    pub(crate) mem: PagedMem,
    pub(crate) icnt: u64,
    pub(crate) used: u32,
    pub(crate) ended: Option<u32>,
    pub(crate) text: Text,
    /// What each instruction of the text is, None where its words code none. A step decodes one that
    /// isn't in the list.
    pub(crate) instrs: Vec<Option<Instr>>,
}

impl Model for Arch {
    ghost use Rattle.sim_safe.specs.State.{Storage};
    ghost use Rattle.sim_safe.specs.Decoded.{Holds};

    ghost Value = { Storage };

    ghost view = { λ a. record { pc = a.pc; regs = a.regs; hi = a.hi; lo = a.lo; pages = a.mem; icnt = a.icnt; used = a.used; ended = a.ended; text = a.text } };

    ghost invariant = { λ a. Holds a.text a.instrs.items };
}

impl Arch {
    /// The address of the next instruction.
    pub fn pc(&self) -> u32
        ensures { result ≡ self.now.pc }
    {
        self.pc
    }

    /// How many instructions were done.
    pub fn icnt(&self) -> u64
        ensures { result ≡ self.now.icnt }
    {
        self.icnt
    }

    /// How many recorded calls were used.
    pub fn used(&self) -> u32
        ensures { result ≡ self.now.used }
    {
        self.used
    }

    /// The exit code, `None` exactly before an exit.
    pub fn ended(&self) -> Option<u32>
        ensures { result ≡ self.now.ended }
    {
        self.ended
    }

    /// The program's text, as an object brought it.
    pub fn text(&self) -> &Text
        ensures same { result.now ≡ self.now.text }
        ensures fits { IsText self.now.text }
    {
        &self.text
    }

    /// The 32 registers.
    pub fn registers(&self) -> [u32; 32]
        ensures all { result ≡ 0 ∷ self.now.regs }
        ensures reads { slice_index result ≡ (reader_of self.now).regs }
    {
        let mut all = [0; 32];
        all[1..].copy_from_slice(&self.regs);
        all
    }

    /// The memory. The text can be read in it.
    pub fn mem(&self) -> &PagedMem
        ensures { result.now ≡ self.now.pages }
    {
        &self.mem
    }

    /// The addresses of the text, which are never written.
    pub(crate) fn text_range(&self) -> TextRange
        ensures { result ≡ range_of self.now.text }
    {
        let start = self.text.start;
        TextRange {
            start,
            end: start + self.text.bytes.as_slice().len() as u32,
        }
    }

    /// Whether one of so many bytes from an address on lies in text.
    pub(crate) fn meets_text(&self, addr: u32, count: usize) -> bool
        requires { addr + count ≤ 2 ^ 32 }
        ensures { result ≡ meets (range_of self.now.text) addr count }
    {
        let text = self.text_range();
        let end = u64::from(addr) + count as u64;
        u64::from(addr.max(text.start)) < end.min(u64::from(text.end))
    }

    /// Reserves the pages of a range, where they aren't reserved.
    pub(crate) fn reserve(&mut self, addr: u32, len: u32) -> Result<(), OutOfMemory>
        requires { addr + len ≤ 2 ^ 32 }
        ensures state { state_of self.new ≡ state_of self.old }
        ensures kept { (number : ℕ) → IsReserved self.old.pages number → IsReserved self.new.pages number }
        ensures ok { OnOk result (IsRangeReserved self.new.pages addr len) }
        ensures held { IsRangeReserved self.old.pages addr len → IsOk result }
    {
        if self.mem.reserved(addr, len) {
            return Ok(());
        }
        self.mem.reserve(addr, len)
    }

    /// Writes bytes from an address on, in reserved pages.
    pub(crate) fn write(&mut self, addr: u32, bytes: &[u8])
        requires range { addr + length bytes.now ≤ 2 ^ 32 }
        requires held { IsRangeReserved self.old.pages addr (length bytes.now) }
        ensures reads { reader_of self.new ≡ with_bytes (reader_of self.old) addr bytes.now }
        ensures agrees { Agrees self.old self.new }
    {
        self.mem.write(addr, bytes);
    }
}

impl Machine for Arch {
    ghost reads = { reader_of };

    ghost has_room = { HasRoom };

    ghost agrees = { Agrees };

    ghost zero_reads_zero = { λ m. refl };

    ghost agrees_with_itself = { agrees_same };

    ghost agrees_back = { agrees_sym };

    ghost agrees_in_turn = { agrees_trans };

    fn reg(&self, r: u8) -> u32 {
        if r == 0 { 0 } else { self.regs[r as usize - 1] }
    }

    fn hi(&self) -> u32 {
        self.hi
    }

    fn lo(&self) -> u32 {
        self.lo
    }

    fn byte(&self, addr: u32) -> u8 {
        self.mem.byte(addr)
    }

    fn big(&self) -> bool {
        self.text.big
    }

    fn half(&self, addr: u32) -> u16 {
        let bytes = self.mem.half_bytes(addr);
        if self.text.big {
            u16::from_be_bytes(bytes)
        } else {
            u16::from_le_bytes(bytes)
        }
    }

    fn word(&self, addr: u32) -> u32 {
        let bytes = self.mem.word_bytes(addr);
        if self.text.big {
            u32::from_be_bytes(bytes)
        } else {
            u32::from_le_bytes(bytes)
        }
    }

    /// Whether all pages of the range are reserved and none of its bytes lies in the text.
    #[tactic(auto, using(crate::proofs::Rooms::no_room, crate::proofs::Rooms::has_room))]
    fn room(&self, addr: u32, len: u32) -> bool {
        if self.meets_text(addr, len as usize) {
            return false;
        }
        self.mem.reserved(addr, len)
    }

    fn set_reg(&mut self, r: u8, v: u32) {
        if r != 0 {
            self.regs[r as usize - 1] = v;
        }
    }

    fn set_hi(&mut self, v: u32) {
        self.hi = v;
    }

    fn set_lo(&mut self, v: u32) {
        self.lo = v;
    }

    fn set_bytes(&mut self, addr: u32, bytes: &[u8]) {
        self.write(addr, bytes);
    }
}
