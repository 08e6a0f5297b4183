//! The timed part of a run: the machine behind the skipped steps.
ghost use Rattle.std.specs.Prelude.{◌≡◌, ◌^◌, ◌≤◌, IfOk};
ghost use Rattle.sim_safe.specs.Record.{IsRunTrace};
ghost use Rattle.sim_safe.specs.State.{state_of};
ghost use Rattle.sim_watch.specs.Watch.{WritesOrCut};
ghost use Rattle.sim_outorder.specs.Running.{IsReady, StandsFor};
ghost use Rattle.machine_watch.specs.Watch.{names_of, nothing_pending, pending_of};
ghost use Rattle.machine_run.specs.Plan.{IsAllowed, given_at, names_in};
ghost use Rattle.machine_run.specs.Timed.{CountsTimed, EndsTimed, StandsForSome, TimedComes, WritesTimed, timed_journal};
ghost use Rattle.event_trace.specs.declared.trace.Trace.{Trace};

use crate::plan::{CacheCounts, MachineConfig, MachinePlan};
use bpred_unit::Predictor;
use core_ends::histories_are_so_far;
use core_statistics::CoreStats;
use event_trace::Trace;
use journal::{Fault, Outside};
use machine_watch::MachineWatch;
use mem_hier::Hier;
use ooo_table::EndWord;
use shown_run::runs_keep_the_headline;
use sim_outorder::{Core, CoreFault};
use sim_safe::Arch;
use ss_base::OutOfMemory;
use std::alloc::Global;
use timed_run::timed_run;

/// What the timed part of a run came to.
#[derive(Clone, Copy, Debug, PartialEq, Eq)]
pub struct Timed {
    /// What was counted in it.
    pub statistics: CoreStats,
    /// What the caches and TLBs have counted.
    pub caches: CacheCounts,
    /// How the run ended.
    pub end: EndWord,
}

/// The budgets of a timed part, and how a run ended that was over before it.
#[derive(Clone, Copy, Debug, PartialEq, Eq)]
pub struct Limits {
    /// How many instructions commit at most.
    pub max_inst: u64,
    /// How many cycles come at most.
    pub max_cycles: u64,
    /// How the run ended in the steps before, if it did.
    pub over: Option<EndWord>,
}

/// Runs a machine under its budgets, shows it to a watch that was shown nothing, and finishes that.
fn observe<O: Outside>(
    core: &mut Core,
    trace: &Trace,
    limits: &Limits,
    watch: &mut MachineWatch<'_, '_, '_, '_, '_, O>,
) -> Result<EndWord, Fault>
    requires ready { IsReady core.old × (core.old.cycle ≡ 0) × (limits.now.max_inst ≤ 10 ^ 15) × (limits.now.max_cycles ≤ 10 ^ 13) }
    requires trace { IsRunTrace trace.now }
    requires some { StandsForSome trace.now core.old }
    requires pending { pending_of watch.old ≡ nothing_pending }
    ensures same { watch.new.outside.ghost_name ≡ watch.old.outside.ghost_name }
    ensures writes { WritesTimed O.view (names_of watch.old) trace.now limits.now core.old watch.old.outside.now watch.new.outside.now result }
    ensures ends { EndsTimed trace.now limits.now core.old core.new result }
{
    runs_keep_the_headline();
    let told = match timed_run(core, trace, limits.max_inst, limits.max_cycles, watch) {
        Ok(word) => word,
        Err(CoreFault::Watch(fault)) => return Err(watch.fault.unwrap_or(fault)),
        Err(CoreFault::OutOfMemory) => return Err(Fault::OutOfMemory),
    };
    let end = limits.over.unwrap_or(told);
    let cycles = core.stats().cycles;
    match watch.finish(cycles, &end) {
        Ok(()) => Ok(end),
        Err(fault) => Err(fault),
    }
}

/// The same over parts that stand apart.
fn observe_parts<O: Outside>(
    alloc: Global,
    core: &mut Core,
    trace: &Trace,
    limits: &Limits,
    plan: &MachinePlan<'_>,
    outside: &mut O,
) -> Result<EndWord, Fault>
    requires ready { IsReady core.old × (core.old.cycle ≡ 0) × (limits.now.max_inst ≤ 10 ^ 15) × (limits.now.max_cycles ≤ 10 ^ 13) }
    requires trace { IsRunTrace trace.now }
    requires some { StandsForSome trace.now core.old }
    ensures writes { WritesTimed O.view (names_in plan.now) trace.now limits.now core.old outside.old outside.new result }
    ensures ends { EndsTimed trace.now limits.now core.old core.new result }
{
    let mut lines = Vec::new(alloc);
    let mut text = Vec::new(alloc);
    let mut watch = MachineWatch::new(outside, &plan.commits, &plan.ptrace, &mut lines, &mut text);
    match observe(core, trace, limits, &mut watch) {
        Ok(end) => Ok(end),
        Err(fault) => Err(fault),
    }
}

/// The same, and what was counted then.
fn timed_core<O: Outside>(
    alloc: Global,
    core: &mut Core,
    trace: &Trace,
    limits: &Limits,
    plan: &MachinePlan<'_>,
    outside: &mut O,
) -> Result<Timed, Fault>
    requires ready { IsReady core.old × (core.old.cycle ≡ 0) × (limits.now.max_inst ≤ 10 ^ 15) × (limits.now.max_cycles ≤ 10 ^ 13) }
    requires trace { IsRunTrace trace.now }
    requires some { StandsForSome trace.now core.old }
    ensures writes { WritesTimed O.view (names_in plan.now) trace.now limits.now core.old outside.old outside.new result }
    ensures comes { CountsTimed trace.now limits.now core.old result }
{
    histories_are_so_far();
    match observe_parts(alloc, core, trace, limits, plan, outside) {
        Ok(end) => Ok(Timed {
            statistics: core.stats(),
            caches: CacheCounts::of(core.hier()),
            end,
        }),
        Err(fault) => Err(fault),
    }
}

/// Makes a machine that starts from a state, with a new hierarchy and predictor.
#[tactic(auto, using(crate::proofs::Starts::no_references, crate::proofs::Starts::all_stand))]
fn machine(alloc: Global, arch: Arch, config: &MachineConfig) -> Result<Core, OutOfMemory>
    requires allowed { IsAllowed config.now }
    requires count { arch.icnt ≤ 10 ^ 15 }
    ensures ready { IfOk result (λ core. IsReady core × (core.cycle ≡ 0)) }
    ensures stands { IfOk result (λ core. (trace : Trace) → StandsFor (given_at config.now trace (state_of arch)) core) }
{
    let hier = Hier::new(alloc, &config.hier)?;
    let predictor = Predictor::new(alloc, &config.pred)?;
    Core::new(alloc, arch, &config.ooo, hier, predictor)
}

/// Runs a machine from a state on, with a new hierarchy and predictor, and writes what it shows.
pub fn timed_part<O: Outside>(
    alloc: Global,
    arch: Arch,
    trace: &Trace,
    config: &MachineConfig,
    limits: &Limits,
    plan: &MachinePlan<'_>,
    outside: &mut O,
) -> Result<Timed, Fault>
    requires allowed { IsAllowed config.now }
    requires count { (arch.icnt ≤ 10 ^ 15) × (limits.now.max_inst ≤ 10 ^ 15) × (limits.now.max_cycles ≤ 10 ^ 13) }
    requires trace { IsRunTrace trace.now }
    ensures writes { WritesOrCut O.view outside.old (timed_journal (given_at config.now trace.now (state_of arch)) limits.now (names_in plan.now)) outside.new result }
    ensures comes { TimedComes (given_at config.now trace.now (state_of arch)) limits.now result }
{
    match machine(alloc, arch, config) {
        Ok(mut core) => timed_core(alloc, &mut core, trace, limits, plan, outside),
        Err(_) => Err(Fault::OutOfMemory),
    }
}
