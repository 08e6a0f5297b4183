//! Going on from a point: whether it belongs to an object, and the machine that goes on.
ghost use Rattle.std.specs.Prelude.{◌≡◌, ◌+◌, ◌*◌, ◌^◌, ◌<◌, ◌≤◌, ◌∷◌, ℕ, length, IfOk, IfErr, OnOk, Ok};
ghost use Rattle.ecoff_load.specs.Object.{IsText, IsImage};
ghost use Rattle.paged_mem.specs.Memory.{byte_of, overlaid};
ghost use Rattle.checkpoint.specs.Grammar.{ArePages};
ghost use Rattle.sim_safe.specs.State.{state_of, state_with, HoldsText};
ghost use Rattle.checkpoint.specs.Held.{stands, order_place, head_fit, text_fit, fit, state_held, IsRefusal};

use crate::fault::{PointFault, PointWhy};
use crate::point::{Head, Page, Point};
use ecoff_load::{Image, Text};
use paged_mem::{PAGE_SIZE, PagedMem};
use sim_safe::Arch;
use ss_base::OutOfMemory;
use std::alloc::Global;

/// Where a point says its byte order.
fn place_of_order(version: u8) -> u64
    ensures { result ≡ order_place version }
{
    if version == 2 { 180 } else { 0 }
}

/// Judges a point's head with the text of an object.
#[tactic(auto, unfolding(crate::specs::Held::head_fit))]
fn judge_head(head: &Head, text: &Text) -> Result<(), PointFault>
    ensures { result ≡ head_fit head.now text.now }
{
    if head.big != text.big {
        return Err(PointFault::Bad {
            at: place_of_order(head.version),
            why: PointWhy::OtherOrder,
        });
    }
    if head.text_start != text.start {
        return Err(PointFault::Bad {
            at: 168,
            why: PointWhy::Text,
        });
    }
    if head.text_length as usize != text.bytes.as_slice().len() {
        return Err(PointFault::Bad {
            at: 172,
            why: PointWhy::Text,
        });
    }
    Ok(())
}

/// Whether the bytes of a text stand in memory.
fn has_text(mem: &PagedMem, text: &Text) -> bool
    requires { text.now.start + length text.now.bytes ≤ 2 ^ 32 }
    ensures { result ≡ stands (byte_of mem.now) text.now.start text.now.bytes }
{
    let bytes = text.bytes.as_slice();
    for k in 0..bytes.len() {
        if mem.byte(text.start + k as u32) != bytes[k] {
            return false;
        }
    }
    true
}

/// Judges whether the bytes of the text are the object's.
#[tactic(auto, unfolding(crate::specs::Held::text_fit))]
fn judge_text(mem: &PagedMem, text: &Text) -> Result<(), PointFault>
    requires { text.now.start + length text.now.bytes ≤ 2 ^ 32 }
    ensures { result ≡ text_fit (byte_of mem.now) text.now }
{
    if has_text(mem, text) {
        Ok(())
    } else {
        Err(PointFault::Bad {
            at: 176,
            why: PointWhy::OtherText,
        })
    }
}

fn put_page(mem: &mut PagedMem, page: &Page) -> Result<(), OutOfMemory>
    requires number { page.now.0 < 2 ^ 20 }
    requires whole { length page.now.1 ≡ 4096 }
    ensures { OnOk result (byte_of mem.new ≡ overlaid (byte_of mem.old) (4096 * page.now.0) page.now.1) }
{
    let bytes = page.bytes.as_slice();
    let addr = PAGE_SIZE * page.number;
    mem.reserve(addr, bytes.len() as u32)?;
    mem.write(addr, bytes);
    Ok(())
}

/// A memory of these pages, in which every other byte is 0.
fn memory(alloc: Global, pages: &[Page]) -> Result<PagedMem, OutOfMemory>
    requires { ArePages pages.now }
    ensures { IfOk result (λ mem. byte_of mem ≡ byte_of pages.now) }
{
    let mut mem = PagedMem::new(alloc);
    for page in pages {
        put_page(&mut mem, page)?;
    }
    Ok(mem)
}

/// Registers 0 to 31.
fn registers(head: &Head) -> [u32; 32]
    ensures { result ≡ 0 ∷ head.now.regs }
{
    let mut regs = [0; 32];
    regs[1..].copy_from_slice(&head.regs);
    regs
}

/// The machine of a head that belongs to the text, with its memory. The text is decoded.
fn machine(alloc: Global, head: &Head, mem: PagedMem, text: Text) -> Result<Arch, OutOfMemory>
    requires text { IsText text }
    requires content { HoldsText (byte_of mem) text }
    ensures { IfOk result (λ a. state_of a ≡ state_with text mem (0 ∷ head.now.regs) head.now.hi head.now.lo head.now.pc head.now.icnt head.now.used head.now.ended) }
{
    let mut arch = Arch::resume(
        alloc,
        text,
        mem,
        registers(head),
        head.hi,
        head.lo,
        head.pc,
        head.icnt,
        head.used,
        head.ended,
    );
    arch.decode_text(alloc)?;
    Ok(arch)
}

/// The machine that goes on from a point of the object's program, in the state that the point holds
/// and with the object's text. Refused is a point of the other byte order, with a text elsewhere or of
/// another length, or whose text has other bytes.
pub fn restore(alloc: Global, p: Point, image: Image) -> Result<Arch, PointFault>
    requires { IsImage image }
    ensures state { IfOk result (λ a. state_of a ≡ state_held p image.text) }
    ensures fits { OnOk result (fit p image.text ≡ Ok tt) }
    ensures text { IfOk result (λ a. HoldsText (byte_of a.pages) a.text) }
    ensures fault { IfErr result (IsRefusal (fit p image.text)) }
{
    let Image {
        entry: _,
        text,
        parts: _,
    } = image;
    let Point { head, pages } = p;
    match judge_head(&head, &text) {
        Ok(()) => {}
        Err(fault) => return Err(fault),
    }
    let mem = match memory(alloc, pages.as_slice()) {
        Ok(mem) => mem,
        Err(_) => return Err(PointFault::OutOfMemory),
    };
    match judge_text(&mem, &text) {
        Ok(()) => {}
        Err(fault) => return Err(fault),
    }
    match machine(alloc, &head, mem, text) {
        Ok(arch) => Ok(arch),
        Err(_) => Err(PointFault::OutOfMemory),
    }
}
