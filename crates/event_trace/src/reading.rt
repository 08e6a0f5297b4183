//! Reading a trace from its bytes.
ghost use Rattle.std.specs.Prelude.{◌≡◌, ◌-◌, ◌≤◌, length, IfOk, IfErr, Ok};
ghost use Rattle.event_trace.specs.declared.trace.Trace.{Trace};
ghost use Rattle.event_trace.specs.Grammar.{next_record, IsTrace, trace_bytes};
ghost use Rattle.event_trace.specs.Reading.{Gives, Answers, items_at, record_at, version_of, start_at, trace_at, checked, Placed};

use crate::fault::{Stop, TraceFault, TraceWhy};
use crate::record_reading::{SHORT, read_record, refused};
use crate::trace::{Record, Records, Trace};
use ss_base::{get32, get64};
use std::alloc::Global;

/// "PEXT0001" and "PEXT0002" as little-endian numbers.
const MAGIC_1: u64 = 0x3130_3030_5458_4550;

const MAGIC_2: u64 = 0x3230_3030_5458_4550;

/// How many records a trace has at most.
const MOST_RECORDS: u32 = 1_000_000;

/// What stands before the records.
#[derive(Clone, Copy, Debug)]
struct Start {
    version: u8,
    big: bool,
    count: u32,
}

/// The version that the first eight bytes name, 0 where they name none.
fn version(bytes: &[u8]) -> u8
    requires { 8 ≤ length bytes.now }
    ensures { result ≡ version_of bytes.now }
{
    let magic = get64(bytes, 0);
    if magic == MAGIC_1 {
        1
    } else if magic == MAGIC_2 {
        2
    } else {
        0
    }
}

#[tactic(auto, unfolding(crate::specs::Reading::start_at))]
fn read_start(bytes: &[u8]) -> Result<(Start, &[u8]), Stop>
    ensures { Gives (λ x. (x.0, x.1.now)) result (start_at bytes.now) }
{
    if bytes.len() < 8 {
        return Err(SHORT);
    }
    let version = version(bytes);
    if version == 0 {
        return Err(refused(bytes, 0, TraceWhy::Magic));
    }
    if bytes.len() < 12 {
        return Err(SHORT);
    }
    let count = get32(bytes, 8);
    if count > MOST_RECORDS {
        return Err(refused(bytes, 8, TraceWhy::Count));
    }
    if version == 1 {
        let start = Start {
            version: 1,
            big: false,
            count,
        };
        return Ok((start, bytes.split_at(12).1));
    }
    if bytes.len() < 16 {
        return Err(SHORT);
    }
    let order = get32(bytes, 12);
    if order > 1 {
        return Err(refused(bytes, 12, TraceWhy::ByteOrder));
    }
    let start = Start {
        version: 2,
        big: order == 1,
        count,
    };
    Ok((start, bytes.split_at(16).1))
}

/// As many records as the count says. Memory is taken record by record, as the bytes bring them.
fn read_records(alloc: Global, count: u32, bytes: &[u8]) -> Result<(Vec<Record>, &[u8]), Stop>
    ensures { Gives (λ x. (x.0.items, x.1.now)) result (items_at record_at next_record count 0 bytes.now) }
{
    let mut items = Vec::new(alloc);
    let mut rest = bytes;
    let mut least = 0;
    for _ in 0..count {
        let (item, after) = read_record(alloc, rest, least)?;
        least = item.icnt + 1;
        items.push(item)?;
        rest = after;
    }
    Ok((items, rest))
}

#[tactic(auto, unfolding(crate::specs::Reading::trace_at))]
fn read_all(alloc: Global, bytes: &[u8]) -> Result<Trace, Stop>
    ensures { Gives (λ t. t) result (trace_at bytes.now) }
{
    let (start, rest) = read_start(bytes)?;
    let (records, rest) = read_records(alloc, start.count, rest)?;
    if rest.len() > 0 {
        return Err(refused(rest, 0, TraceWhy::Extra));
    }
    Ok(Trace {
        file: true,
        version: start.version,
        big: start.big,
        records: Records::from_vec(records),
    })
}

/// The trace that the bytes stand for, or the first check that fails.
fn read_checked(alloc: Global, bytes: &[u8]) -> Result<Trace, TraceFault>
    ensures { Answers result (checked bytes.now) }
{
    match read_all(alloc, bytes) {
        Ok(trace) => Ok(trace),
        Err(Stop::NoMemory) => Err(TraceFault::OutOfMemory),
        Err(Stop::Refused { left, why }) => Err(TraceFault::Bad {
            at: bytes.len().saturating_sub(left) as u64,
            why,
        }),
    }
}

/// Reads a trace, all of the bytes. It may need memory in proportion to them, whatever counts they
/// name.
pub fn read(alloc: Global, bytes: &[u8]) -> Result<Trace, TraceFault>
    // What is read is a trace, and these are its bytes.
    ensures found { IfOk result (λ t. IsTrace t × (bytes.now ≡ trace_bytes t)) }
    // The bytes of a trace are read as it, unless memory runs out.
    ensures only { (t : Trace) → IsTrace t → bytes.now ≡ trace_bytes t → Answers result (Ok t) }
    // A refusal has the place and the reason of the first check that fails.
    ensures exact { Answers result (checked bytes.now) }
    // Only Short stands at the file's end, and OtherOrder is never told.
    ensures place { IfErr result (Placed (length bytes.now)) }
{
    read_checked(alloc, bytes)
}

/// No bytes are those of two traces.
pub fn one_trace()
    ensures { (s t : Trace) → IsTrace s → IsTrace t → trace_bytes s ≡ trace_bytes t → s ≡ t }
{}
