//! The bytes of a trace.
ghost use Rattle.std.specs.Prelude.{◌≡◌, ◌++◌, ◌≤◌, [], ◌∷◌, length, OnOk, IfOk};
ghost use Rattle.std.specs.List.{flat_map};
ghost use Rattle.event_trace.specs.Grammar.{register_bytes, block_bytes, kind_number, counts_bytes, head_bytes, record_bytes, order_number, order_bytes, start_bytes, trace_bytes, InTurn, IsBlock, next_block, AreBlocks, IsRecord, next_record, IsVersion, IsTrace};

use crate::trace::{Block, CallKind, Record, Trace};
use ss_base::OutOfMemory;
use std::alloc::Global;

fn number(kind: CallKind) -> u8
    ensures { result ≡ kind_number kind }
{
    match kind {
        CallKind::Plain => 0,
        CallKind::Emit => 1,
        CallKind::Exit => 2,
    }
}

fn put_registers(into: &mut Vec<u8>, items: &[(u8, u32)]) -> Result<(), OutOfMemory>
    ensures { OnOk result (into.new.items ≡ into.old.items ++ flat_map register_bytes items.now) }
{
    for item in items {
        into.extend_from_slice(&u32::from(item.0).to_le_bytes())?;
        into.extend_from_slice(&item.1.to_le_bytes())?;
    }
    Ok(())
}

fn put_blocks(into: &mut Vec<u8>, blocks: &[Block]) -> Result<(), OutOfMemory>
    requires { InTurn IsBlock next_block 0 blocks.now }
    ensures { OnOk result (into.new.items ≡ into.old.items ++ flat_map block_bytes blocks.now) }
{
    for block in blocks {
        let bytes = block.bytes.as_slice();
        into.extend_from_slice(&block.addr.to_le_bytes())?;
        into.extend_from_slice(&(bytes.len() as u32).to_le_bytes())?;
        into.extend_from_slice(bytes)?;
    }
    Ok(())
}

/// Adds the kind, the number of items in each list, and three zero bytes.
fn put_counts(into: &mut Vec<u8>, call: &Record) -> Result<(), OutOfMemory>
    requires ins { length call.now.ins ≤ 8 }
    requires in_blocks { length call.now.in_blocks ≤ 16 }
    requires outs { length call.now.outs ≤ 8 }
    requires out_blocks { length call.now.out_blocks ≤ 16 }
    ensures { OnOk result (into.new.items ≡ into.old.items ++ counts_bytes call.now ++ 0 ∷ 0 ∷ 0 ∷ []) }
{
    let ins = call.ins.as_slice().len() as u8;
    let in_blocks = call.in_blocks.as_slice().len() as u8;
    let outs = call.outs.as_slice().len() as u8;
    let out_blocks = call.out_blocks.as_slice().len() as u8;
    into.extend_from_slice(&[number(call.kind), ins, in_blocks, outs, out_blocks, 0, 0, 0])?;
    Ok(())
}

/// Adds the 24 bytes before a record's lists.
fn put_head(into: &mut Vec<u8>, call: &Record) -> Result<(), OutOfMemory>
    requires ins { length call.now.ins ≤ 8 }
    requires in_blocks { length call.now.in_blocks ≤ 16 }
    requires outs { length call.now.outs ≤ 8 }
    requires out_blocks { length call.now.out_blocks ≤ 16 }
    ensures { OnOk result (into.new.items ≡ into.old.items ++ head_bytes call.now) }
{
    into.extend_from_slice(&call.icnt.to_le_bytes())?;
    into.extend_from_slice(&call.pc.to_le_bytes())?;
    put_counts(into, call)?;
    into.extend_from_slice(&call.code.to_le_bytes())?;
    Ok(())
}

pub(crate) fn put_record(into: &mut Vec<u8>, call: &Record) -> Result<(), OutOfMemory>
    requires ins { length call.now.ins ≤ 8 }
    requires in_blocks { AreBlocks call.now.in_blocks }
    requires outs { length call.now.outs ≤ 8 }
    requires out_blocks { AreBlocks call.now.out_blocks }
    ensures { OnOk result (into.new.items ≡ into.old.items ++ record_bytes call.now) }
{
    put_head(into, call)?;
    put_registers(into, call.ins.as_slice())?;
    put_blocks(into, call.in_blocks.as_slice())?;
    put_registers(into, call.outs.as_slice())?;
    put_blocks(into, call.out_blocks.as_slice())?;
    Ok(())
}

fn order(big: bool) -> u32
    ensures { result ≡ order_number big }
{
    if big { 1 } else { 0 }
}

/// Adds the byte order, which version 1 doesn't have.
fn put_order(into: &mut Vec<u8>, trace: &Trace) -> Result<(), OutOfMemory>
    ensures { OnOk result (into.new.items ≡ into.old.items ++ order_bytes trace.now.version trace.now.big) }
{
    if trace.version == 2 {
        into.extend_from_slice(&order(trace.big).to_le_bytes())?;
    }
    Ok(())
}

/// Adds what stands before the records.
fn put_start(into: &mut Vec<u8>, trace: &Trace) -> Result<(), OutOfMemory>
    requires version { IsVersion trace.now.version trace.now.big }
    requires count { length trace.now.records ≤ 1000000 }
    ensures { OnOk result (into.new.items ≡ into.old.items ++ start_bytes trace.now) }
{
    into.extend_from_slice(b"PEXT000")?;
    into.push(48 + trace.version)?;
    let records = trace.records.as_slice();
    into.extend_from_slice(&(records.len() as u32).to_le_bytes())?;
    put_order(into, trace)?;
    Ok(())
}

fn put_records(into: &mut Vec<u8>, calls: &[Record]) -> Result<(), OutOfMemory>
    requires { InTurn IsRecord next_record 0 calls.now }
    ensures { OnOk result (into.new.items ≡ into.old.items ++ flat_map record_bytes calls.now) }
{
    for call in calls {
        put_record(into, call)?;
    }
    Ok(())
}

/// The bytes of a trace. What was read is written as it stood in the file.
pub fn write(alloc: Global, trace: &Trace) -> Result<Vec<u8>, OutOfMemory>
    requires { IsTrace trace.now }
    ensures { IfOk result (λ bytes. bytes.items ≡ trace_bytes trace.now) }
{
    let mut bytes = Vec::new(alloc);
    put_start(&mut bytes, trace)?;
    put_records(&mut bytes, trace.records.as_slice())?;
    Ok(bytes)
}
