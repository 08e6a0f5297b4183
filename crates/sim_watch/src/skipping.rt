//! A run of which no records are made, and whose output is written behind it.
ghost use Rattle.std.specs.Prelude.{◌≡◌, ◌+◌, ◌^◌, ◌<◌, Some};
ghost use Rattle.sim_safe.specs.State.{State, state_of};
ghost use Rattle.sim_safe.specs.Record.{IsRunTrace};
ghost use Rattle.sim_safe.specs.Commit.{blocks_by, records_between};
ghost use Rattle.sim_safe.specs.Run.{end_of};
ghost use Rattle.sim_safe.specs.Skip.{SkipEnds};
ghost use Rattle.sim_watch.specs.Watch.{WritesOrCut};
ghost use Rattle.sim_watch.specs.Skip.{record_blocks, records_journal, skip_journal, SkipComes};

use crate::watch::emit;
use event_trace::{Block, CallKind, Record, Trace};
use journal::{Fault, Outside};
use pisa_step::Cause;
use sim_safe::{Arch, Peek, RunEnd, steps_keep};

/// What a skipped run came to.
#[derive(Clone, Copy, Debug, PartialEq, Eq)]
pub struct Skipped {
    /// How many steps were done.
    pub done: u64,
    /// How it ended.
    pub end: RunEnd,
}

/// The blocks that a recorded call emits.
fn emitted_blocks(call: &Record) -> &[Block]
    ensures { result.now ≡ record_blocks call.now }
{
    match call.kind {
        CallKind::Emit => call.in_blocks.as_slice(),
        CallKind::Plain | CallKind::Exit => &[],
    }
}

/// The records from a number on and before another one.
fn between(records: &[Record], from: u32, to: u32) -> &[Record]
    ensures { result.now ≡ records_between from to records.now }
{
    let behind = &records[records.len().min(from as usize)..];
    let count = to.saturating_sub(from) as usize;
    &behind[..behind.len().min(count)]
}

/// Puts on the first stream what recorded calls emit, in order.
fn emit_records<O: Outside>(outside: &mut O, records: &[Record]) -> Result<(), Fault>
    ensures { WritesOrCut O.view outside.old (records_journal records.now) outside.new result }
{
    for record in records {
        match emit(outside, emitted_blocks(record)) {
            Ok(()) => {}
            Err(fault) => return Err(fault),
        }
    }
    Ok(())
}

/// How up to `n` steps ended of which so many were done, by the machine that they leave.
fn end_behind(arch: &Arch, trace: &Trace, n: u64, done: u64) -> RunEnd
    requires { IsRunTrace trace.now }
    ensures { (s : State) → SkipEnds trace.now n s (state_of arch.now) done → result ≡ end_of trace.now n s }
{
    if n == 0 {
        return RunEnd::Limit;
    }
    if done < n {
        return match arch.peek(trace) {
            Peek::Stop(cause) => RunEnd::Stop(cause),
            Peek::Plain(_) | Peek::Call(_) => RunEnd::Limit,
        };
    }
    match arch.ended() {
        Some(code) => RunEnd::Stop(Cause::Exited { code }),
        None => RunEnd::Limit,
    }
}

/// Does up to `n` steps over a trace, and answers how many and how they ended. No record of them is
/// made. Behind them the first stream gets what they emit, block by block: the input blocks of the
/// emitting calls that they used.
///
/// After a fault `arch` is as some of the steps leave it, and nothing behind the write that failed
/// was done.
pub fn watched_skip<O: Outside>(
    arch: &mut Arch,
    trace: &Trace,
    n: u64,
    outside: &mut O,
) -> Result<Skipped, Fault>
    requires count { arch.old.icnt + n < 2 ^ 62 }
    requires trace { IsRunTrace trace.now }
    ensures writes { WritesOrCut O.view outside.old (skip_journal trace.now n (state_of arch.old)) outside.new result }
    ensures ends { SkipComes trace.now n (state_of arch.old) (state_of arch.new) result }
{
    // each step that is done counts one instruction
    steps_keep();
    let from = arch.used();
    let done = match arch.skip(trace, n) {
        Ok(done) => done,
        Err(_) => return Err(Fault::OutOfMemory),
    };
    let end = end_behind(arch, trace, n, done);
    let records = between(trace.records.as_slice(), from, arch.used());
    match emit_records(outside, records) {
        Ok(()) => Ok(Skipped { done, end }),
        Err(fault) => Err(fault),
    }
}
