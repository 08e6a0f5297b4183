//! Reading a point from its bytes.
ghost use Rattle.std.specs.Prelude.{◌≡◌, ◌-◌, ◌^◌, ◌<◌, length, IfOk, IfErr, Ok};
ghost use Rattle.checkpoint.specs.State.{PointState};
ghost use Rattle.checkpoint.specs.Grammar.{IsHead, ArePages, IsPoint, point_bytes};
ghost use Rattle.checkpoint.specs.Reading.{Gives, Answers, is_zero, page_at, pages_at, point_at, checked, Placed};

use crate::fault::{PointFault, PointWhy, Stop};
use crate::head_reading::{SHORT, read_start, refused};
use crate::point::{Head, Page, Point};
use paged_mem::PAGE_SIZE;
use ss_base::get32;
use std::alloc::Global;

/// How many pages memory has.
const PAGES: u32 = 0x10_0000;

/// How many bytes a page has.
const LENGTH: usize = PAGE_SIZE as usize;

/// Whether each byte is 0.
fn is_zero(bytes: &[u8]) -> bool
    ensures { result ≡ is_zero bytes.now }
{
    for byte in bytes {
        if *byte != 0 {
            return false;
        }
    }
    true
}

/// The page that begins here, and the bytes after it. A number below `least` is refused.
#[tactic(auto, unfolding(crate::specs::Reading::page_at))]
fn read_page(alloc: Global, bytes: &[u8], least: u32) -> Result<(Page, &[u8]), Stop>
    ensures value { Gives (λ x. (x.0, x.1.now)) result (page_at least bytes.now) }
    ensures bound { IfOk result (λ x. x.0.0 < 2 ^ 20) }
{
    if bytes.len() < 4 {
        return Err(SHORT);
    }
    let number = get32(bytes, 0);
    if number < least || number >= PAGES {
        return Err(refused(bytes, 0, PointWhy::Order));
    }
    if bytes.len() < 4 + LENGTH {
        return Err(SHORT);
    }
    let (content, rest) = bytes.split_at(4).1.split_at(LENGTH);
    if is_zero(content) {
        return Err(refused(bytes, 4, PointWhy::ZeroPage));
    }
    let bytes = Vec::from_slice(alloc, content)?;
    Ok((Page { number, bytes }, rest))
}

/// As many pages as the count says. Memory is taken page by page, as the bytes bring them.
fn read_pages(alloc: Global, count: u32, bytes: &[u8]) -> Result<(Vec<Page>, &[u8]), Stop>
    ensures { Gives (λ x. (x.0.items, x.1.now)) result (pages_at count 0 bytes.now) }
{
    let mut pages = Vec::new(alloc);
    let mut rest = bytes;
    let mut least = 0;
    for _ in 0..count {
        let (page, after) = read_page(alloc, rest, least)?;
        least = page.number + 1;
        pages.push(page)?;
        rest = after;
    }
    Ok((pages, rest))
}

/// A head and pages as a point.
fn joined(head: Head, pages: Vec<Page>) -> Point
    requires head { IsHead head }
    requires pages { ArePages pages.items }
    ensures { result ≡ record { head = head; pages = pages.items } }
{
    Point { head, pages }
}

/// The point that all of the bytes are.
#[tactic(auto, unfolding(crate::specs::Reading::point_at))]
fn read_all(alloc: Global, bytes: &[u8]) -> Result<Point, Stop>
    ensures { Gives (λ p. p) result (point_at bytes.now) }
{
    let (start, rest) = read_start(bytes)?;
    let (pages, rest) = read_pages(alloc, start.count, rest)?;
    if rest.len() > 0 {
        return Err(refused(rest, 0, PointWhy::Extra));
    }
    Ok(joined(start.head, pages))
}

fn read_checked(alloc: Global, bytes: &[u8]) -> Result<Point, PointFault>
    ensures { Answers result (checked bytes.now) }
{
    match read_all(alloc, bytes) {
        Ok(point) => Ok(point),
        Err(Stop::NoMemory) => Err(PointFault::OutOfMemory),
        Err(Stop::Refused { left, why }) => Err(PointFault::Bad {
            at: bytes.len().saturating_sub(left) as u64,
            why,
        }),
    }
}

/// Reads a point, all of the bytes. It may need as much memory as they have, whatever count of
/// pages they name.
pub fn read(alloc: Global, bytes: &[u8]) -> Result<Point, PointFault>
    // What is read is a point, and these are its bytes.
    ensures found { IfOk result (λ p. IsPoint p × (bytes.now ≡ point_bytes p)) }
    // The bytes of a point are read as it, unless memory runs out.
    ensures only { (p : PointState) → IsPoint p → bytes.now ≡ point_bytes p → Answers result (Ok p) }
    // A refusal has the place and the reason of the first check that fails.
    ensures exact { Answers result (checked bytes.now) }
    // Only Short stands at the file's end, and no reason that needs the object is told.
    ensures place { IfErr result (Placed (length bytes.now)) }
{
    read_checked(alloc, bytes)
}

/// No bytes are those of two points.
pub fn one_point()
    ensures { (p q : PointState) → IsPoint p → IsPoint q → point_bytes p ≡ point_bytes q → p ≡ q }
{}
