//! Taking a point of a machine.
ghost use Rattle.std.specs.Prelude.{◌≡◌, ◌+◌, ◌*◌, ◌^◌, ◌<◌, ◌≤◌, ℕ, length, drop, slice_index, IfOk};
ghost use Rattle.std.specs.List.{AllByRecursion};
ghost use Rattle.paged_mem.specs.Memory.{byte_of, HasByte};
ghost use Rattle.checkpoint.specs.Grammar.{IsCode, IsHead, ArePages};
ghost use Rattle.checkpoint.specs.Held.{head_taken, IsPointOf};

use crate::point::{Head, Page, Point};
use ecoff_load::Text;
use paged_mem::PagedMem;
use pisa_step::Machine;
use sim_safe::Arch;
use ss_base::OutOfMemory;
use std::alloc::Global;

/// The bytes of a page that has one other than 0.
fn bytes_of(mem: &PagedMem, number: u32) -> &[u8]
    requires { HasByte mem.now number }
    ensures whole { length result.now ≡ 4096 }
    ensures bytes { (k : ℕ) → k < 4096 → slice_index result.now k ≡ byte_of mem.now (4096 * number + k) }
{
    match mem.page(number) {
        Some(bytes) => bytes,
        None => &[],
    }
}

/// A copy of a page that has a byte other than 0.
fn copied(alloc: Global, mem: &PagedMem, number: u32) -> Result<Page, OutOfMemory>
    requires { HasByte mem.now number }
    ensures number { IfOk result (λ page. page.0 ≡ number) }
    ensures whole { IfOk result (λ page. length page.1 ≡ 4096) }
    ensures bytes { IfOk result (λ page. (k : ℕ) → k < 4096 → slice_index page.1 k ≡ byte_of mem.now (4096 * number + k)) }
{
    let bytes = Vec::from_slice(alloc, bytes_of(mem, number))?;
    Ok(Page { number, bytes })
}

/// The pages of a memory that have a byte other than 0.
fn pages_of(alloc: Global, mem: &PagedMem) -> Result<Vec<Page>, OutOfMemory>
    ensures pages { IfOk result (λ pages. ArePages pages.items) }
    ensures bytes { IfOk result (λ pages. byte_of pages.items ≡ byte_of mem.now) }
{
    let mut pages = Vec::new(alloc);
    let mut from = 0;
    while let Some(number) = mem.page_from(from) {
        let page = copied(alloc, mem, number)?;
        pages.push(page)?;
        from = number + 1;
    }
    Ok(pages)
}

/// All registers but register 0.
fn behind_zero(all: &[u32; 32]) -> [u32; 31]
    ensures same { result ≡ drop 1 all.now }
    ensures count { length result ≡ 31 }
    ensures below { AllByRecursion (λ r. r < 2 ^ 32) result }
{
    let mut regs = [0; 31];
    regs.copy_from_slice(&all[1..]);
    regs
}

/// Registers 1 to 31.
fn registers(arch: &Arch) -> [u32; 31]
    ensures same { result ≡ arch.now.regs }
    ensures count { length result ≡ 31 }
    ensures below { AllByRecursion (λ r. r < 2 ^ 32) result }
{
    let all = arch.registers();
    behind_zero(&all)
}

/// An exit code as it stands.
fn exit_code(ended: Option<u32>) -> Option<u32>
    ensures same { result ≡ ended }
    ensures fits { IsCode result }
{
    match ended {
        None => None,
        Some(code) => Some(code),
    }
}

/// The address of a text.
fn start(text: &Text) -> u32
    ensures { result ≡ text.now.start }
{
    text.start
}

/// All but the pages.
fn head(arch: &Arch) -> Head
    ensures fits { IsHead result }
    ensures state { result ≡ head_taken arch.now }
{
    let text = arch.text();
    let regs = registers(arch);
    Head {
        version: 2,
        big: arch.big(),
        icnt: arch.icnt(),
        pc: arch.pc(),
        regs,
        hi: arch.hi(),
        lo: arch.lo(),
        used: arch.used(),
        ended: exit_code(arch.ended()),
        text_start: start(text),
        text_length: text.bytes.as_slice().len() as u32,
    }
}

/// A point of the machine as it stands, in version 2.
pub fn take(alloc: Global, arch: &Arch) -> Result<Point, OutOfMemory>
    ensures { IfOk result (λ p. IsPointOf arch.now p) }
{
    let pages = pages_of(alloc, arch.mem())?;
    let head = head(arch);
    Ok(Point { head, pages })
}
