//! Reading what stands before the pages.
ghost use Rattle.std.specs.Prelude.{◌≡◌, ◌-◌, ◌≤◌, length, OnOk};
ghost use Rattle.checkpoint.specs.declared.fault.Stop.TheVariants as stops;
ghost use Rattle.checkpoint.specs.Reading.{Gives, judged, version_of, words_at, ended_of, head_of, head_check, order_checks, start_at};

use crate::fault::{PointWhy, Stop};
use crate::point::Head;
use ss_base::{get32, get64};

/// "PCHK0001" and "PCHK0002" as little-endian numbers.
const MAGIC_1: u64 = 0x3130_3030_4b48_4350;

const MAGIC_2: u64 = 0x3230_3030_4b48_4350;

/// How many instructions a run has at most.
const MOST_INSTRUCTIONS: u64 = 1_000_000_000_000_000;

/// How many pages a point in a file has at most.
const MOST_PAGES: u32 = 65_536;

/// The file ends inside a field.
pub const SHORT: Stop = Stop::Refused {
    left: 0,
    why: PointWhy::Short,
};

/// What stands before the pages.
#[derive(Clone, Copy, Debug)]
pub(crate) struct Start {
    pub head: Head,
    /// How many pages follow.
    pub count: u32,
}

/// Refuses the field that begins at `offset`.
pub(crate) fn refused(bytes: &[u8], offset: usize, why: PointWhy) -> Stop
    requires { offset ≤ length bytes.now }
    ensures { result ≡ stops.Refused (length bytes.now - offset) why }
{
    Stop::Refused {
        left: bytes.len() - offset,
        why,
    }
}

/// The version that the first eight bytes name, 0 where they name none.
fn version(bytes: &[u8]) -> u8
    requires { 8 ≤ length bytes.now }
    ensures { result ≡ version_of bytes.now }
{
    let magic = get64(bytes, 0);
    if magic == MAGIC_1 {
        1
    } else if magic == MAGIC_2 {
        2
    } else {
        0
    }
}

/// Judges the fields before the pages but for the byte order.
#[tactic(auto, unfolding(crate::specs::Reading::head_check))]
fn check_head(bytes: &[u8]) -> Result<(), Stop>
    ensures checks { Gives (λ _. tt) result (head_check bytes.now) }
    ensures length { OnOk result (180 ≤ length bytes.now) }
{
    if bytes.len() < 8 {
        return Err(SHORT);
    }
    if version(bytes) == 0 {
        return Err(refused(bytes, 0, PointWhy::Magic));
    }
    if bytes.len() < 16 {
        return Err(SHORT);
    }
    if get64(bytes, 8) > MOST_INSTRUCTIONS {
        return Err(refused(bytes, 8, PointWhy::Count));
    }
    if bytes.len() < 24 {
        return Err(SHORT);
    }
    if get32(bytes, 20) > 0 {
        return Err(refused(bytes, 20, PointWhy::Register));
    }
    if bytes.len() < 164 {
        return Err(SHORT);
    }
    let ended = get32(bytes, 160);
    if ended > 1 {
        return Err(refused(bytes, 160, PointWhy::Ended));
    }
    if bytes.len() < 168 {
        return Err(SHORT);
    }
    if ended == 0 && get32(bytes, 164) > 0 {
        return Err(refused(bytes, 164, PointWhy::Ended));
    }
    if bytes.len() < 180 {
        return Err(SHORT);
    }
    if get32(bytes, 176) > MOST_PAGES {
        return Err(refused(bytes, 176, PointWhy::Pages));
    }
    Ok(())
}

/// Judges the byte order, which version 2 has.
fn check_order(bytes: &[u8]) -> Result<(), Stop>
    requires { 180 ≤ length bytes.now }
    ensures checks { Gives (λ _. tt) result (judged bytes.now (order_checks bytes.now)) }
    ensures length { OnOk result (184 ≤ length bytes.now) }
{
    if bytes.len() < 184 {
        return Err(SHORT);
    }
    if get32(bytes, 180) > 1 {
        return Err(refused(bytes, 180, PointWhy::ByteOrder));
    }
    Ok(())
}

/// Registers 1 to 31.
fn registers(bytes: &[u8]) -> [u32; 31]
    requires { 180 ≤ length bytes.now }
    ensures { result ≡ words_at 31 bytes.now 24 }
{
    let mut regs = [0; 31];
    for k in 0..31 {
        regs[k] = get32(bytes, 24 + 4 * k);
    }
    regs
}

fn exit_code(ended: u32, code: u32) -> Option<u32>
    ensures { result ≡ ended_of ended code }
{
    if ended == 0 { None } else { Some(code) }
}

fn head(bytes: &[u8], version: u8, big: bool) -> Head
    requires { 180 ≤ length bytes.now }
    ensures { result ≡ head_of version big bytes.now }
{
    Head {
        version,
        big,
        icnt: get64(bytes, 8),
        pc: get32(bytes, 16),
        regs: registers(bytes),
        hi: get32(bytes, 148),
        lo: get32(bytes, 152),
        used: get32(bytes, 156),
        ended: exit_code(get32(bytes, 160), get32(bytes, 164)),
        text_start: get32(bytes, 168),
        text_length: get32(bytes, 172),
    }
}

/// The head and the number of pages, and the bytes after them.
#[tactic(auto, unfolding(crate::specs::Reading::start_at))]
pub(crate) fn read_start(bytes: &[u8]) -> Result<(Start, &[u8]), Stop>
    ensures { Gives (λ x. (x.0, x.1.now)) result (start_at bytes.now) }
{
    check_head(bytes)?;
    let count = get32(bytes, 176);
    if version(bytes) == 1 {
        let head = head(bytes, 1, false);
        return Ok((Start { head, count }, bytes.split_at(180).1));
    }
    check_order(bytes)?;
    let head = head(bytes, 2, get32(bytes, 180) == 1);
    Ok((Start { head, count }, bytes.split_at(184).1))
}
