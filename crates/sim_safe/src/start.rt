//! The start of a program.
ghost use Rattle.std.specs.Prelude.{◌≡◌, ◌+◌, ◌≤◌, ◌^◌, ℕ, List, length, map, string_bytes, IfOk, OnOk, IfErr};
ghost use Rattle.std.specs.List.{AllByRecursion};
ghost use Rattle.ecoff_load.specs.Object.{IsImage};
ghost use Rattle.ecoff_load.specs.Start.{block, RefusesStart};
ghost use Rattle.pisa_step.specs.Reader.{bytes_with};
ghost use Rattle.paged_mem.specs.Memory.{byte_of, IsReserved, IsRangeReserved};
ghost use Rattle.sim_safe.specs.Decoded.{AreDecoded};
ghost use Rattle.sim_safe.specs.State.{state_of, start_state, image_memory, laid, ArePartsReserved, IsLaidOut};

use crate::arch::Arch;
use crate::decoded::decoded;
use ecoff_load::{Image, Part, StartFault, start_block};
use paged_mem::PagedMem;
use pisa_isa::Instr;
use ss_base::OutOfMemory;
use std::alloc::Global;

/// The address of the start block, which register 29 holds at the start.
const BLOCK: u32 = 0x7fff_8000;

impl Arch {
    /// The state in which a program starts with its arguments, the first of which is its own name.
    ///
    /// Refused with `TooLong` exactly where the start block has more than 16,384 bytes.
    pub fn start(alloc: Global, image: Image, args: &[String]) -> Result<Arch, StartFault>
        requires { IsImage image }
        ensures state { IfOk result (λ a. state_of a ≡ start_state image (map string_bytes args.now)) }
        ensures pages { IfOk result (λ a. IsLaidOut a image (map string_bytes args.now)) }
        ensures fits { OnOk result (length (block image.text.big (map string_bytes args.now)) ≤ 16384) }
        ensures fault { IfErr result (RefusesStart (block image.text.big (map string_bytes args.now))) }
    {
        let bytes = match start_block(alloc, args, image.text.big) {
            Ok(bytes) => bytes,
            Err(fault) => return Err(fault),
        };
        let Ok(mem) = start_memory(alloc, &image, bytes.as_slice()) else {
            return Err(StartFault::OutOfMemory);
        };
        let Ok(instrs) = decoded(alloc, &image.text) else {
            return Err(StartFault::OutOfMemory);
        };
        Ok(Arch::at_entry(image, mem, instrs))
    }

    /// A machine at a program's entry, with a memory and the text decoded.
    fn at_entry(image: Image, mem: PagedMem, instrs: Vec<Option<Instr>>) -> Arch
        requires image { IsImage image }
        requires decoded { AreDecoded image.text instrs.items }
        ensures state { (args : List (List ℕ)) → byte_of mem ≡ bytes_with (image_memory image) 0x7fff8000 (block image.text.big args) → state_of result ≡ start_state image args }
        ensures pages { result.pages ≡ mem }
    {
        let Image {
            entry,
            text,
            parts: _,
        } = image;
        let mut regs = [0; 31];
        regs[28] = BLOCK;
        Arch {
            pc: entry,
            regs,
            hi: 0,
            lo: 0,
            mem,
            icnt: 0,
            used: 0,
            ended: None,
            text,
            instrs,
        }
    }
}

/// The memory of a program with its text, its parts and its start block.
fn start_memory(alloc: Global, image: &Image, block: &[u8]) -> Result<PagedMem, OutOfMemory>
    requires image { IsImage image.now }
    requires block { length block.now ≤ 16384 }
    ensures bytes { IfOk result (λ m. byte_of m ≡ bytes_with (image_memory image.now) 0x7fff8000 block.now) }
    ensures text { IfOk result (λ m. IsRangeReserved m image.now.text.start (length image.now.text.bytes)) }
    ensures parts { IfOk result (λ m. ArePartsReserved m image.now.parts) }
    ensures block { IfOk result (λ m. IsRangeReserved m 0x7fff8000 (length block.now)) }
{
    let mut mem = PagedMem::new(alloc);
    put(&mut mem, image.text.start, image.text.bytes.as_slice())?;
    put_parts(&mut mem, image.parts.as_slice())?;
    put(&mut mem, BLOCK, block)?;
    Ok(mem)
}

/// Reserves the pages of bytes and writes them.
fn put(mem: &mut PagedMem, addr: u32, bytes: &[u8]) -> Result<(), OutOfMemory>
    requires { addr + length bytes.now ≤ 2 ^ 31 }
    ensures bytes { OnOk result (byte_of mem.new ≡ bytes_with (byte_of mem.old) addr bytes.now) }
    ensures held { OnOk result (IsRangeReserved mem.new addr (length bytes.now)) }
    ensures kept { (number : ℕ) → IsReserved mem.old number → IsReserved mem.new number }
{
    mem.reserve(addr, bytes.len() as u32)?;
    mem.write(addr, bytes);
    Ok(())
}

/// Writes the bytes of parts in order.
fn put_parts(mem: &mut PagedMem, parts: &[Part]) -> Result<(), OutOfMemory>
    requires { AllByRecursion (λ p. p.addr + length p.bytes ≤ 2 ^ 31) parts.now }
    ensures bytes { OnOk result (byte_of mem.new ≡ laid (byte_of mem.old) parts.now) }
    ensures held { OnOk result (ArePartsReserved mem.new parts.now) }
    ensures kept { (number : ℕ) → IsReserved mem.old number → IsReserved mem.new number }
{
    for part in parts {
        put(mem, part.addr, part.bytes.as_slice())?;
    }
    Ok(())
}
