//! Copies of a state.
ghost use Rattle.std.specs.Prelude.{◌≡◌, ◌∷◌, IfOk, slice_index};
ghost use Rattle.paged_mem.specs.Memory.{byte_of};
ghost use Rattle.sim_safe.specs.State.{state_of, HoldsText};
ghost use Rattle.plain_machine.specs.Copied.{copied_at};

use ecoff_load::Text;
use pisa_step::Machine;
use sim_safe::Arch;
use ss_base::{Bytes, OutOfMemory};
use std::alloc::Global;

/// A copy of a text.
fn copied_text(alloc: Global, text: &Text) -> Result<Text, OutOfMemory>
    ensures { IfOk result (λ copy. copy ≡ text.now) }
{
    let bytes = Vec::from_slice(alloc, text.bytes.as_slice())?;
    Ok(Text {
        start: text.start,
        big: text.big,
        bytes: Bytes::from_vec(bytes),
    })
}

/// What is read of one state, at an address, with the counts of another state of the same program.
pub fn copied(alloc: Global, read: &Arch, counted: &Arch, pc: u32) -> Result<Arch, OutOfMemory>
    requires text { HoldsText (byte_of read.now.pages) read.now.text }
    requires same { read.now.text ≡ counted.now.text }
    ensures state { IfOk result (λ copy. state_of copy ≡ copied_at pc read.now counted.now) }
    ensures pages { IfOk result (λ copy. copy.pages ≡ read.now.pages) }
{
    let text = copied_text(alloc, read.text())?;
    let mem = read.mem().try_clone()?;
    Ok(Arch::resume(
        alloc,
        text,
        mem,
        read.registers(),
        read.hi(),
        read.lo(),
        pc,
        counted.icnt(),
        counted.used(),
        counted.ended(),
    ))
}
