//! The records that the calls of the closed world are answered with.
ghost use Rattle.std.specs.Prelude.{◌≡◌, [], length, ◌+◌, ◌^◌, ◌≤◌, slice_index, IfOk};
ghost use Rattle.paged_mem.specs.Memory.{byte_of};
ghost use Rattle.event_trace.specs.declared.trace.CallKind.TheVariants as kinds;
ghost use Rattle.event_trace.specs.World.{answered, refused, blocks_of, bytes_from, path_bytes, reads_number, reads_one, reads_two, reads_three, exit_record, write_count, write_record};

use crate::trace::{Block, Blocks, CallKind, Record, Registers};
use paged_mem::PagedMem;
use ss_base::{Bytes, OutOfMemory};
use std::alloc::Global;

/// How many bytes one call reads or writes at most.
pub const MOST_BYTES: u32 = 65_536;

/// Where memory ends.
pub const MEMORY_END: u64 = 0x1_0000_0000;

/// How many bytes a path has at most, with its zero byte.
const MOST_PATH: u64 = 256;

fn registers(alloc: Global, items: &[(u8, u32)]) -> Result<Registers, OutOfMemory>
    ensures { IfOk result (λ r. r ≡ items.now) }
{
    Ok(Registers::from_vec(Vec::from_slice(alloc, items)?))
}

/// The number of a call.
pub fn read_number(alloc: Global, regs: &[u32; 32]) -> Result<Registers, OutOfMemory>
    ensures { IfOk result (λ r. r ≡ reads_number (slice_index regs.now)) }
{
    registers(alloc, &[(2, regs[2])])
}

/// The number of a call, and its argument.
pub fn read_one(alloc: Global, regs: &[u32; 32]) -> Result<Registers, OutOfMemory>
    ensures { IfOk result (λ r. r ≡ reads_one (slice_index regs.now)) }
{
    registers(alloc, &[(2, regs[2]), (4, regs[4])])
}

/// The number of a call, and its two arguments.
pub fn read_two(alloc: Global, regs: &[u32; 32]) -> Result<Registers, OutOfMemory>
    ensures { IfOk result (λ r. r ≡ reads_two (slice_index regs.now)) }
{
    registers(alloc, &[(2, regs[2]), (4, regs[4]), (5, regs[5])])
}

/// The number of a call, and its three arguments.
pub fn read_three(alloc: Global, regs: &[u32; 32]) -> Result<Registers, OutOfMemory>
    ensures { IfOk result (λ r. r ≡ reads_three (slice_index regs.now)) }
{
    registers(
        alloc,
        &[(2, regs[2]), (4, regs[4]), (5, regs[5]), (6, regs[6])],
    )
}

/// Bytes at an address as a block, where there are any.
pub fn blocks(alloc: Global, addr: u32, bytes: Vec<u8>) -> Result<Blocks, OutOfMemory>
    ensures { IfOk result (λ b. b ≡ blocks_of addr bytes.items) }
{
    let mut items = Vec::new(alloc);
    if bytes.len() > 0 {
        items.push(Block {
            addr,
            bytes: Bytes::from_vec(bytes),
        })?;
    }
    Ok(Blocks::from_vec(items))
}

/// Bytes of memory.
#[tactic(auto, using(crate::proofs::Served::bytes_more, crate::proofs::Served::bytes_none))]
pub fn copy_bytes(
    alloc: Global,
    mem: &PagedMem,
    addr: u32,
    count: u32,
) -> Result<Vec<u8>, OutOfMemory>
    requires { addr + count ≤ 2 ^ 32 }
    ensures { IfOk result (λ v. v.items ≡ bytes_from (byte_of mem.now) addr count) }
{
    let mut bytes = Vec::new(alloc);
    for i in 0..count {
        bytes.push(mem.byte(addr + i))?;
    }
    Ok(bytes)
}

/// The bytes among which a path has to end.
pub fn copy_path(alloc: Global, mem: &PagedMem, addr: u32) -> Result<Vec<u8>, OutOfMemory>
    ensures { IfOk result (λ v. v.items ≡ path_bytes (byte_of mem.now) addr) }
{
    let count = MOST_PATH.min(MEMORY_END - u64::from(addr));
    copy_bytes(alloc, mem, addr, count as u32)
}

/// A call of a kind that gives registers 2 and 7 their values, with the memory that it read.
pub fn answer(
    alloc: Global,
    icnt: u64,
    pc: u32,
    ins: Registers,
    value: u32,
    flag: u32,
) -> Result<Record, OutOfMemory>
    ensures { IfOk result (λ r. r ≡ answered icnt pc kinds.Plain ins [] value flag []) }
{
    Ok(Record {
        icnt,
        pc,
        kind: CallKind::Plain,
        code: 0,
        ins,
        in_blocks: Blocks::from_vec(Vec::new(alloc)),
        outs: registers(alloc, &[(2, value), (7, flag)])?,
        out_blocks: Blocks::from_vec(Vec::new(alloc)),
    })
}

/// A call that was refused for a reason.
pub fn refuse(
    alloc: Global,
    icnt: u64,
    pc: u32,
    ins: Registers,
    reason: u32,
) -> Result<Record, OutOfMemory>
    ensures { IfOk result (λ r. r ≡ refused icnt pc ins reason) }
{
    answer(alloc, icnt, pc, ins, reason, 1)
}

/// A call that opens a file, with its path.
pub fn answer_path(
    alloc: Global,
    icnt: u64,
    pc: u32,
    regs: &[u32; 32],
    path: Vec<u8>,
    value: u32,
    flag: u32,
) -> Result<Record, OutOfMemory>
    ensures { IfOk result (λ r. r ≡ answered icnt pc kinds.Plain (reads_two (slice_index regs.now)) (blocks_of (slice_index regs.now 4) path.items) value flag []) }
{
    Ok(Record {
        icnt,
        pc,
        kind: CallKind::Plain,
        code: 0,
        ins: read_two(alloc, regs)?,
        in_blocks: blocks(alloc, regs[4], path)?,
        outs: registers(alloc, &[(2, value), (7, flag)])?,
        out_blocks: Blocks::from_vec(Vec::new(alloc)),
    })
}

/// A call that reads these bytes to an address. It takes memory for them alone.
pub fn read_bytes(
    alloc: Global,
    icnt: u64,
    pc: u32,
    ins: Registers,
    addr: u32,
    bytes: &[u8],
) -> Result<Record, OutOfMemory>
    requires { length bytes.now ≤ 65536 }
    ensures { IfOk result (λ r. r ≡ answered icnt pc kinds.Plain ins [] (length bytes.now) 0 (blocks_of addr bytes.now)) }
{
    Ok(Record {
        icnt,
        pc,
        kind: CallKind::Plain,
        code: 0,
        ins,
        in_blocks: Blocks::from_vec(Vec::new(alloc)),
        outs: registers(alloc, &[(2, bytes.len() as u32), (7, 0)])?,
        out_blocks: blocks(alloc, addr, Vec::from_slice(alloc, bytes)?)?,
    })
}

/// The program ends.
#[tactic(auto, unfolding(crate::specs::World::exit_record))]
pub fn exit(alloc: Global, icnt: u64, pc: u32, regs: &[u32; 32]) -> Result<Record, OutOfMemory>
    ensures { IfOk result (λ r. r ≡ exit_record icnt pc (slice_index regs.now)) }
{
    Ok(Record {
        icnt,
        pc,
        kind: CallKind::Exit,
        code: regs[4],
        ins: read_one(alloc, regs)?,
        in_blocks: Blocks::from_vec(Vec::new(alloc)),
        outs: Registers::from_vec(Vec::new(alloc)),
        out_blocks: Blocks::from_vec(Vec::new(alloc)),
    })
}

/// Puts out `count` bytes.
fn write_some(
    alloc: Global,
    icnt: u64,
    pc: u32,
    regs: &[u32; 32],
    mem: &PagedMem,
    count: u32,
) -> Result<Record, OutOfMemory>
    ensures { IfOk result (λ r. r ≡ write_count icnt pc (slice_index regs.now) (byte_of mem.now) count) }
{
    let ins = read_three(alloc, regs)?;
    if u64::from(regs[5]) + u64::from(count) > MEMORY_END {
        return refuse(alloc, icnt, pc, ins, 14);
    }
    let bytes = copy_bytes(alloc, mem, regs[5], count)?;
    Ok(Record {
        icnt,
        pc,
        kind: CallKind::Emit,
        code: 0,
        ins,
        in_blocks: blocks(alloc, regs[5], bytes)?,
        outs: registers(alloc, &[(2, count), (7, 0)])?,
        out_blocks: Blocks::from_vec(Vec::new(alloc)),
    })
}

/// Puts out bytes of memory at one of the two output descriptors.
#[tactic(auto, unfolding(crate::specs::World::write_record))]
pub fn write_out(
    alloc: Global,
    icnt: u64,
    pc: u32,
    regs: &[u32; 32],
    mem: &PagedMem,
) -> Result<Record, OutOfMemory>
    ensures { IfOk result (λ r. r ≡ write_record icnt pc (slice_index regs.now) (byte_of mem.now)) }
{
    if regs[4] == 1 || regs[4] == 2 {
        return write_some(alloc, icnt, pc, regs, mem, regs[6].min(MOST_BYTES));
    }
    refuse(alloc, icnt, pc, read_three(alloc, regs)?, 9)
}

/// A call of a number that is none of the calls.
pub fn unknown(alloc: Global, icnt: u64, pc: u32, regs: &[u32; 32]) -> Result<Record, OutOfMemory>
    ensures { IfOk result (λ r. r ≡ refused icnt pc (reads_number (slice_index regs.now)) 22) }
{
    refuse(alloc, icnt, pc, read_number(alloc, regs)?, 22)
}
