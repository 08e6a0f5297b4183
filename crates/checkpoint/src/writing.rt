//! The bytes of a point.
ghost use Rattle.std.specs.Prelude.{◌≡◌, ◌++◌, ◌≤◌, ◌^◌, length, OnOk, IfOk};
ghost use Rattle.std.specs.Int.{w32, to_le_bytes};
ghost use Rattle.std.specs.List.{flat_map};
ghost use Rattle.event_trace.specs.Grammar.{IsVersion, order_number, order_bytes};
ghost use Rattle.checkpoint.specs.Grammar.{ended_words, head_words, head_bytes, page_bytes, point_bytes, IsPoint};

use crate::point::{Head, Page, Point};
use ss_base::OutOfMemory;
use std::alloc::Global;

/// Adds words, the lowest byte of each first.
fn put_words(into: &mut Vec<u8>, words: &[u32]) -> Result<(), OutOfMemory>
    ensures { OnOk result (into.new.items ≡ into.old.items ++ flat_map (to_le_bytes w32) words.now) }
{
    for word in words {
        into.extend_from_slice(&word.to_le_bytes())?;
    }
    Ok(())
}

/// Adds whether the program has exited, and its code.
fn put_ended(into: &mut Vec<u8>, ended: Option<u32>) -> Result<(), OutOfMemory>
    ensures { OnOk result (into.new.items ≡ into.old.items ++ flat_map (to_le_bytes w32) (ended_words ended)) }
{
    match ended {
        None => put_words(into, &[0, 0]),
        Some(code) => put_words(into, &[1, code]),
    }
}

/// Adds the words behind the number of instructions.
fn put_head_words(into: &mut Vec<u8>, head: &Head, count: u32) -> Result<(), OutOfMemory>
    ensures { OnOk result (into.new.items ≡ into.old.items ++ flat_map (to_le_bytes w32) (head_words head.now count)) }
{
    put_words(into, &[head.pc, 0])?;
    put_words(into, &head.regs)?;
    put_words(into, &[head.hi, head.lo, head.used])?;
    put_ended(into, head.ended)?;
    put_words(into, &[head.text_start, head.text_length, count])
}

fn order(big: bool) -> u32
    ensures { result ≡ order_number big }
{
    if big { 1 } else { 0 }
}

/// Adds the byte order, which version 1 doesn't have.
fn put_order(into: &mut Vec<u8>, head: &Head) -> Result<(), OutOfMemory>
    ensures { OnOk result (into.new.items ≡ into.old.items ++ order_bytes head.now.version head.now.big) }
{
    if head.version == 2 {
        into.extend_from_slice(&order(head.big).to_le_bytes())?;
    }
    Ok(())
}

/// Adds what stands before so many pages.
fn put_head(into: &mut Vec<u8>, head: &Head, count: u32) -> Result<(), OutOfMemory>
    requires { IsVersion head.now.version head.now.big }
    ensures { OnOk result (into.new.items ≡ into.old.items ++ head_bytes head.now count) }
{
    into.extend_from_slice(b"PCHK000")?;
    into.push(48 + head.version)?;
    into.extend_from_slice(&head.icnt.to_le_bytes())?;
    put_head_words(into, head, count)?;
    put_order(into, head)?;
    Ok(())
}

fn put_page(into: &mut Vec<u8>, page: &Page) -> Result<(), OutOfMemory>
    ensures { OnOk result (into.new.items ≡ into.old.items ++ page_bytes page.now) }
{
    into.extend_from_slice(&page.number.to_le_bytes())?;
    into.extend_from_slice(page.bytes.as_slice())?;
    Ok(())
}

fn put_pages(into: &mut Vec<u8>, pages: &[Page]) -> Result<(), OutOfMemory>
    ensures { OnOk result (into.new.items ≡ into.old.items ++ flat_map page_bytes pages.now) }
{
    for page in pages {
        put_page(into, page)?;
    }
    Ok(())
}

/// The bytes of a point, in the point's own version. What was read is written as it stood in the file.
pub fn write(alloc: Global, p: &Point) -> Result<Vec<u8>, OutOfMemory>
    requires pages { length p.now.pages ≤ 65536 }
    requires icnt { p.now.head.icnt ≤ 10 ^ 15 }
    ensures point { IsPoint p.now }
    ensures bytes { IfOk result (λ bytes. bytes.items ≡ point_bytes p.now) }
{
    let pages = p.pages.as_slice();
    let mut bytes = Vec::with_capacity(alloc, 184 + 4100 * pages.len())?;
    put_head(&mut bytes, &p.head, pages.len() as u32)?;
    put_pages(&mut bytes, pages)?;
    Ok(bytes)
}
