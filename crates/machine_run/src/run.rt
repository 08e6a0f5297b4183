//! The whole run.
ghost use Rattle.std.specs.Prelude.{◌≡◌, ◌^◌, ◌≤◌, ◌&&◌, ◌||◌, nat_lt, is_some, if◌then◌else◌, Some, None};
ghost use Rattle.sim_safe.specs.Record.{IsRunTrace};
ghost use Rattle.sim_safe.specs.State.{state_of};
ghost use Rattle.sim_watch.specs.Watch.{WritesOrCut};
ghost use Rattle.cut_run.specs.Plan.{limited};
ghost use Rattle.machine_run.specs.Plan.{IsAllowed, asked_by, machine_journal, word_for};
ghost use Rattle.machine_run.specs.Comes.{RunComes};

use crate::plan::{MachineConfig, MachinePlan, MachineRun};
use crate::timed::{Limits, timed_part};
use event_trace::Trace;
use journal::{Fault, Outside};
use ooo_table::EndWord;
use pisa_step::Cause;
use sim_safe::{Arch, RunEnd, steps_keep};
use sim_watch::watched_skip;
use std::alloc::Global;

/// A run ends where so many instructions are done.
const MOST_INSTRUCTIONS: u64 = 1_000_000_000_000_000;

/// The most steps that a run of up to `n` does.
fn limited(arch: &Arch, n: u64) -> u64
    ensures { result ≡ limited (state_of arch.now) n }
{
    n.min(MOST_INSTRUCTIONS.saturating_sub(arch.icnt()))
}

/// Whether a run ends in the part that is skipped: fewer steps were done than were to be, or the program has exited behind
/// them.
fn ends_early(arch: &Arch, to_skip: u64, done: u64) -> bool
    ensures { result ≡ (nat_lt 0 to_skip && (nat_lt done to_skip || is_some arch.now.ended)) }
{
    to_skip > 0 && (done < to_skip || arch.ended().is_some())
}

/// How the end of a functional run is told that left this state.
fn word_for(arch: &Arch, end: RunEnd) -> EndWord
    ensures { result ≡ word_for (state_of arch.now) end }
{
    match end {
        RunEnd::Limit => EndWord::Budget,
        RunEnd::Stop(Cause::Exited { code }) => EndWord::Exited(code),
        RunEnd::Stop(cause) => EndWord::Stopped {
            pc: arch.pc(),
            icnt: arch.icnt(),
            cause,
        },
    }
}

/// What the machine may do behind the skipped steps, in which the run ended so where it is over.
fn limits(arch: &Arch, is_over: bool, end: RunEnd, plan: &MachinePlan<'_>) -> Limits
    ensures { result ≡ record { max_inst = if is_over then 0 else limited (state_of arch.now) plan.now.max_inst; max_cycles = plan.now.max_cycles; over = if is_over then Some (word_for (state_of arch.now) end) else None } }
{
    Limits {
        max_inst: if is_over {
            0
        } else {
            limited(arch, plan.max_inst)
        },
        max_cycles: plan.max_cycles,
        over: if is_over {
            Some(word_for(arch, end))
        } else {
            None
        },
    }
}

/// Skips the steps that a plan asks for, then runs the machine, and answers what that came to. The files of the plan get what
/// is written behind what they hold.
///
/// # Errors
/// A fault of the files or streams, or want of memory. Nothing behind the write that failed was done then.
pub fn machine_run<O: Outside>(
    alloc: Global,
    mut arch: Arch,
    trace: &Trace,
    config: &MachineConfig,
    plan: &MachinePlan<'_>,
    outside: &mut O,
) -> Result<MachineRun, Fault>
    requires allowed { IsAllowed config.now }
    requires count { (arch.icnt ≤ 10 ^ 15) × (plan.now.max_cycles ≤ 10 ^ 13) }
    requires trace { IsRunTrace trace.now }
    ensures writes { WritesOrCut O.view outside.old (machine_journal config.now trace.now (state_of arch) (asked_by plan.now)) outside.new result }
    ensures comes { RunComes config.now trace.now (state_of arch) (asked_by plan.now) result }
{
    steps_keep();
    let to_skip = limited(&arch, plan.skip);
    let skipped = match watched_skip(&mut arch, trace, to_skip, outside) {
        Ok(skipped) => skipped,
        Err(fault) => return Err(fault),
    };
    let is_over = ends_early(&arch, to_skip, skipped.done);
    let limits = limits(&arch, is_over, skipped.end, plan);
    match timed_part(alloc, arch, trace, config, &limits, plan, outside) {
        Ok(timed) => Ok(MachineRun {
            skipped: skipped.done,
            statistics: timed.statistics,
            caches: timed.caches,
            end: timed.end,
        }),
        Err(fault) => Err(fault),
    }
}
