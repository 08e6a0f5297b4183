//! Going on from a state that is handed in.
ghost use Rattle.std.specs.Prelude.{◌≡◌, ◌∷◌, slice_index};
ghost use Rattle.ecoff_load.specs.Object.{IsText};
ghost use Rattle.paged_mem.specs.Memory.{byte_of};
ghost use Rattle.sim_safe.specs.State.{state_of, state_with, HoldsText};

use crate::arch::Arch;
use crate::decoded::decoded;
use ecoff_load::Text;
use paged_mem::PagedMem;
use ss_base::OutOfMemory;
use std::alloc::Global;

impl Arch {
    /// The machine in exactly this state, with a memory in which the text stands. It takes no memory.
    ///
    /// Its steps decode each instruction anew until `decode_text` has decoded them all.
    pub fn resume(
        alloc: Global,
        text: Text,
        mem: PagedMem,
        regs: [u32; 32],
        hi: u32,
        lo: u32,
        pc: u32,
        icnt: u64,
        used: u32,
        ended: Option<u32>,
    ) -> Arch
        requires zero { slice_index regs 0 ≡ 0 }
        requires text { IsText text }
        requires content { HoldsText (byte_of mem) text }
        ensures state { state_of result ≡ state_with text mem regs hi lo pc icnt used ended }
        ensures pages { result.pages ≡ mem }
    {
        Arch {
            pc,
            regs: behind_zero(&regs),
            hi,
            lo,
            mem,
            icnt,
            used,
            ended,
            text,
            instrs: Vec::new(alloc),
        }
    }

    /// Decodes the text once, so that steps find their instructions. The machine stays as it is, also
    /// where memory is wanting.
    pub fn decode_text(&mut self, alloc: Global) -> Result<(), OutOfMemory>
        ensures { self.new ≡ self.old }
    {
        let instrs = decoded(alloc, &self.text)?;
        self.instrs = instrs;
        Ok(())
    }
}

/// Registers 1 to 31.
fn behind_zero(regs: &[u32; 32]) -> [u32; 31]
    requires { slice_index regs.now 0 ≡ 0 }
    ensures { slice_index (0 ∷ result) ≡ slice_index regs.now }
{
    let mut kept = [0; 31];
    kept.copy_from_slice(&regs[1..]);
    kept
}
