//! Recording: the closed world together with the trace of the calls that it answered.
ghost use Rattle.std.specs.Prelude.{◌≡◌, ◌+◌, ◌^◌, ◌≤◌, ◌++◌, ℕ, [], ◌∷◌, length, slice_index, IfOk, OnOk};
ghost use Rattle.paged_mem.specs.Memory.{byte_of};
ghost use Rattle.event_trace.specs.Grammar.{IsTrace, IsRecord, record_bytes, AreBlocks, trace_bytes};
ghost use Rattle.event_trace.specs.World.{served};
ghost use Rattle.event_trace.specs.Recorder.{RecorderState, Takes, Adds, empty_trace, next_count};

use crate::trace::{Record, Records, Trace};
use crate::world::World;
use crate::writing::put_record;
use paged_mem::PagedMem;
use ss_base::OutOfMemory;
use std::alloc::Global;
use std::marker::Model;

/// How many records a recorded trace has at most.
const MOST_RECORDS: usize = 1_000_000;

/// How many bytes a recorded trace has at most.
const MOST_BYTES: u64 = 67_108_864;

/// The bytes of a trace of version 2 that has no records.
const NO_RECORDS: u64 = 16;

/// The world that answers the calls of a run, and the trace of those that it answered. Contracts
/// see the two.
#[derive(Drop)]
pub struct Recorder {
    world: World,
    trace: Trace,
    size: u64,
}

impl Model for Recorder {
    ghost use Rattle.std.specs.Prelude.{◌≡◌, ◌≤◌};
    ghost use Rattle.event_trace.specs.Grammar.{IsTrace};
    ghost use Rattle.event_trace.specs.Recorder.{RecorderState, trace_size};

    ghost Value = { RecorderState };

    ghost view = { λ r. record { world = r.world; trace = r.trace } };

    ghost invariant = { λ r. record {
      trace : IsTrace r.trace;
      version : r.trace.version ≡ 2;
      size : r.size ≡ trace_size r.trace;
      limit : r.size ≤ 67108864;
    } };
}

/// How many bytes a record has in a trace.
fn record_length(alloc: Global, call: &Record) -> Result<u64, OutOfMemory>
    requires in_blocks { AreBlocks call.now.in_blocks }
    requires out_blocks { AreBlocks call.now.out_blocks }
    requires ins { length call.now.ins ≤ 8 }
    requires outs { length call.now.outs ≤ 8 }
    ensures { IfOk result (λ n. n ≡ length (record_bytes call.now)) }
{
    let mut bytes = Vec::new(alloc);
    put_record(&mut bytes, call)?;
    Ok(bytes.len() as u64)
}

impl Recorder {
    /// A world and a trace without records, of version 2 and this byte order.
    #[tactic(auto, unfolding(crate::specs::Recorder::trace_size))]
    pub fn new(alloc: Global, world: World, big: bool) -> Recorder
        ensures { result ≡ record { world = world; trace = empty_trace big } }
    {
        Recorder {
            world,
            trace: Trace {
                file: true,
                version: 2,
                big,
                records: Records::from_vec(Vec::new(alloc)),
            },
            size: NO_RECORDS,
        }
    }

    /// The trace so far.
    pub fn trace(&self) -> &Trace
        ensures same { result.now ≡ self.now.trace }
        ensures valid { IsTrace result.now }
    {
        &self.trace
    }

    /// Answers a call by the world and adds its record to the trace: `icnt` instructions were done
    /// before it, at least as many as the next record may have, and at most 10^15; it stands at
    /// `pc` and finds these registers and this memory.
    ///
    /// False exactly where the record would bring the trace above 67,108,864 bytes or 1,000,000
    /// records. The world and the trace are then as before, and so they are where memory runs out.
    pub fn serve(
        &mut self,
        alloc: Global,
        icnt: u64,
        pc: u32,
        regs: &[u32; 32],
        mem: &PagedMem,
    ) -> Result<bool, OutOfMemory>
        requires count { icnt ≤ 10 ^ 15 }
        requires rising { next_count 0 self.old.trace.records ≤ icnt }
        ensures served { Takes (served self.old.world icnt pc (slice_index regs.now) (byte_of mem.now)) self.old self.new result }
        ensures rising { IfOk result (λ _. next_count 0 self.new.trace.records ≤ icnt + 1) }
    {
        let before = match self.world.progress(alloc) {
            Ok(before) => before,
            Err(fault) => return Err(fault),
        };
        let call = match self.world.serve(alloc, icnt, pc, regs, mem) {
            Ok(call) => call,
            Err(fault) => return Err(fault),
        };
        match self.add(alloc, call) {
            Ok(true) => Ok(true),
            Ok(false) => {
                self.world.set_back(before);
                Ok(false)
            }
            Err(fault) => {
                self.world.set_back(before);
                Err(fault)
            }
        }
    }

    /// Adds a record to the trace, unless it would bring the trace above its limits.
    #[tactic(auto, using(crate::proofs::Recording::trace_more, crate::proofs::Recording::length_more, crate::proofs::Recording::within_by, crate::proofs::Recording::beyond_count, crate::proofs::Recording::beyond_size, crate::proofs::Recording::next_more))]
    fn add(&mut self, alloc: Global, call: Record) -> Result<bool, OutOfMemory>
        requires { IsRecord (next_count 0 self.old.trace.records) call }
        ensures adds { Adds call self.old self.new result }
    {
        let more = match record_length(alloc, &call) {
            Ok(more) => more,
            Err(fault) => return Err(fault),
        };
        let size = self.size.saturating_add(more);
        if size > MOST_BYTES {
            return Ok(false);
        }
        if self.trace.records.len() >= MOST_RECORDS {
            return Ok(false);
        }
        match self.trace.records.push(call) {
            Ok(()) => {
                self.size = size;
                Ok(true)
            }
            Err(fault) => Err(fault),
        }
    }
}
