//! Reading one record, its head and its lists.
ghost use Rattle.std.specs.Prelude.{◌≡◌, ◌+◌, ◌-◌, ◌^◌, ◌≤◌, length, OnOk, IfOk};
ghost use Rattle.ss_base.specs.Text.{double_at};
ghost use Rattle.event_trace.specs.declared.fault.Stop.TheVariants as stops;
ghost use Rattle.event_trace.specs.Grammar.{next_register, next_block};
ghost use Rattle.event_trace.specs.Reading.{Gives, items_at, register_at, block_at, kind_of, fields_check, exit_check, head_at, record_at};

use crate::fault::{Stop, TraceWhy};
use crate::trace::{Block, Blocks, CallKind, Record, Registers};
use ss_base::{Bytes, get32, get64};
use std::alloc::Global;

/// The bytes of a record before its lists.
const HEAD: usize = 24;

/// How many instructions a run has at most.
const MOST_INSTRUCTIONS: u64 = 1_000_000_000_000_000;

/// Where memory ends: no block goes beyond it.
const MEMORY_END: u64 = 0x1_0000_0000;

/// The file ends inside a field.
pub const SHORT: Stop = Stop::Refused {
    left: 0,
    why: TraceWhy::Short,
};

/// What stands in a record's head.
#[derive(Clone, Copy, Debug)]
struct Head {
    icnt: u64,
    pc: u32,
    kind: CallKind,
    ins: u8,
    in_blocks: u8,
    outs: u8,
    out_blocks: u8,
    code: u32,
}

fn kind(number: u8) -> CallKind
    ensures { result ≡ kind_of number }
{
    match number {
        0 => CallKind::Plain,
        1 => CallKind::Emit,
        _ => CallKind::Exit,
    }
}

/// Refuses the field that begins at `offset` of a record's head.
pub fn refused(bytes: &[u8], offset: usize, why: TraceWhy) -> Stop
    requires { offset ≤ length bytes.now }
    ensures { result ≡ stops.Refused (length bytes.now - offset) why }
{
    Stop::Refused {
        left: bytes.len() - offset,
        why,
    }
}

/// Judges a record's head but for the outputs of exits and the codes of other calls.
#[tactic(auto, unfolding(crate::specs::Reading::fields_check))]
fn check_fields(bytes: &[u8], least: u64) -> Result<(), Stop>
    requires { 24 ≤ length bytes.now }
    ensures checks { Gives (λ _. tt) result (fields_check least bytes.now) }
    ensures bound { OnOk result (double_at bytes.now 0 ≤ 10 ^ 15) }
{
    let icnt = get64(bytes, 0);
    if icnt < least || icnt > MOST_INSTRUCTIONS {
        return Err(refused(bytes, 0, TraceWhy::Order));
    }
    if bytes[12] > 2 {
        return Err(refused(bytes, 12, TraceWhy::Kind));
    }
    if bytes[13] > 8 {
        return Err(refused(bytes, 13, TraceWhy::Many));
    }
    if bytes[14] > 16 {
        return Err(refused(bytes, 14, TraceWhy::Many));
    }
    if bytes[15] > 8 {
        return Err(refused(bytes, 15, TraceWhy::Many));
    }
    if bytes[16] > 16 {
        return Err(refused(bytes, 16, TraceWhy::Many));
    }
    if bytes[17] != 0 || bytes[18] != 0 || bytes[19] != 0 {
        return Err(refused(bytes, 17, TraceWhy::Pad));
    }
    Ok(())
}

/// Judges that an exit has no outputs, and another call no code.
#[tactic(auto, unfolding(crate::specs::Reading::exit_check))]
fn check_exit(bytes: &[u8]) -> Result<(), Stop>
    requires { 24 ≤ length bytes.now }
    ensures { Gives (λ _. tt) result (exit_check bytes.now) }
{
    if bytes[12] == 2 {
        if bytes[15] > 0 || bytes[16] > 0 {
            return Err(refused(bytes, 15, TraceWhy::Exit));
        }
    } else if get32(bytes, 20) > 0 {
        return Err(refused(bytes, 20, TraceWhy::Exit));
    }
    Ok(())
}

#[tactic(auto, unfolding(crate::specs::Reading::head_at))]
fn read_head(bytes: &[u8], least: u64) -> Result<(Head, &[u8]), Stop>
    ensures value { Gives (λ x. (x.0, x.1.now)) result (head_at least bytes.now) }
    ensures bound { IfOk result (λ x. x.0.icnt ≤ 10 ^ 15) }
{
    if bytes.len() < HEAD {
        return Err(SHORT);
    }
    check_fields(bytes, least)?;
    check_exit(bytes)?;
    let head = Head {
        icnt: get64(bytes, 0),
        pc: get32(bytes, 8),
        kind: kind(bytes[12]),
        ins: bytes[13],
        in_blocks: bytes[14],
        outs: bytes[15],
        out_blocks: bytes[16],
        code: get32(bytes, 20),
    };
    Ok((head, bytes.split_at(HEAD).1))
}

#[tactic(auto, unfolding(crate::specs::Reading::register_at))]
fn read_register(bytes: &[u8], least: u32) -> Result<((u8, u32), &[u8]), Stop>
    ensures { Gives (λ x. (x.0, x.1.now)) result (register_at least bytes.now) }
{
    if bytes.len() < 4 {
        return Err(SHORT);
    }
    let number = get32(bytes, 0);
    if number < least || number > 31 {
        return Err(refused(bytes, 0, TraceWhy::Register));
    }
    if bytes.len() < 8 {
        return Err(SHORT);
    }
    Ok(((number as u8, get32(bytes, 4)), bytes.split_at(8).1))
}

#[tactic(auto, unfolding(crate::specs::Reading::block_at))]
fn read_block(alloc: Global, bytes: &[u8]) -> Result<(Block, &[u8]), Stop>
    ensures { Gives (λ x. (x.0, x.1.now)) result (block_at 0 bytes.now) }
{
    if bytes.len() < 8 {
        return Err(SHORT);
    }
    let addr = get32(bytes, 0);
    let length = get32(bytes, 4);
    if length < 1 || length > 65536 || u64::from(addr) + u64::from(length) > MEMORY_END {
        return Err(refused(bytes, 0, TraceWhy::Block));
    }
    let (_, rest) = bytes.split_at(8);
    let length = length as usize;
    if rest.len() < length {
        return Err(SHORT);
    }
    let (front, rest) = rest.split_at(length);
    let block = Block {
        addr,
        bytes: Bytes::from_vec(Vec::from_slice(alloc, front)?),
    };
    Ok((block, rest))
}

fn read_registers(alloc: Global, count: u8, bytes: &[u8]) -> Result<(Vec<(u8, u32)>, &[u8]), Stop>
    ensures { Gives (λ x. (x.0.items, x.1.now)) result (items_at register_at next_register count 1 bytes.now) }
{
    let mut items = Vec::new(alloc);
    let mut rest = bytes;
    let mut least = 1;
    for _ in 0..count {
        let (item, after) = read_register(rest, least)?;
        items.push(item)?;
        least = u32::from(item.0) + 1;
        rest = after;
    }
    Ok((items, rest))
}

fn read_blocks(alloc: Global, count: u8, bytes: &[u8]) -> Result<(Vec<Block>, &[u8]), Stop>
    ensures { Gives (λ x. (x.0.items, x.1.now)) result (items_at block_at next_block count 0 bytes.now) }
{
    let mut items = Vec::new(alloc);
    let mut rest = bytes;
    for _ in 0..count {
        let (item, after) = read_block(alloc, rest)?;
        items.push(item)?;
        rest = after;
    }
    Ok((items, rest))
}

/// The record that begins here, and the bytes after it. Fewer than `least` instructions are refused.
#[tactic(auto, unfolding(crate::specs::Reading::record_at))]
pub fn read_record(alloc: Global, bytes: &[u8], least: u64) -> Result<(Record, &[u8]), Stop>
    ensures value { Gives (λ x. (x.0, x.1.now)) result (record_at least bytes.now) }
    ensures bound { IfOk result (λ x. x.0.icnt ≤ 10 ^ 15) }
{
    let (head, rest) = read_head(bytes, least)?;
    let (ins, rest) = read_registers(alloc, head.ins, rest)?;
    let (in_blocks, rest) = read_blocks(alloc, head.in_blocks, rest)?;
    let (outs, rest) = read_registers(alloc, head.outs, rest)?;
    let (out_blocks, rest) = read_blocks(alloc, head.out_blocks, rest)?;
    let record = Record {
        icnt: head.icnt,
        pc: head.pc,
        kind: head.kind,
        code: head.code,
        ins: Registers::from_vec(ins),
        in_blocks: Blocks::from_vec(in_blocks),
        outs: Registers::from_vec(outs),
        out_blocks: Blocks::from_vec(out_blocks),
    };
    Ok((record, rest))
}
