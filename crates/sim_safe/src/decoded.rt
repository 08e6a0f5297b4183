//! The text of a program, decoded before the program runs.
ghost use Rattle.std.specs.Prelude.{◌≡◌, ◌+◌, ◌≤◌, ◌^◌, IfOk};
ghost use Rattle.ecoff_load.specs.Object.{IsText};
ghost use Rattle.ecoff_load.specs.Fetch.{fetch};
ghost use Rattle.sim_safe.specs.Decoded.{coded_by, AreDecoded};

use ecoff_load::Text;
use pisa_isa::{Instr, decode};
use ss_base::OutOfMemory;
use std::alloc::Global;

/// The instruction at an address, if its words code one.
fn instruction_at(text: &Text, pc: u32) -> Option<Instr>
    ensures { result ≡ coded_by (fetch text.now pc) }
{
    let Some((first, second)) = text.at(pc) else {
        return None;
    };
    decode(first, second).ok()
}

/// The instructions of a text, in order.
#[tactic(auto, using(crate::proofs::Decoding::first_none, crate::proofs::Decoding::first_more, crate::proofs::Decoding::first_all))]
pub(crate) fn decoded(alloc: Global, text: &Text) -> Result<Vec<Option<Instr>>, OutOfMemory>
    requires { IsText text.now }
    ensures { IfOk result (λ instrs. AreDecoded text.now instrs.items) }
{
    let count = text.bytes.as_slice().len() / 8;
    let mut instrs = Vec::with_capacity(alloc, count)?;
    for k in 0..count {
        let pc = text.start + 8 * k as u32;
        instrs.push(instruction_at(text, pc))?;
    }
    Ok(instrs)
}
