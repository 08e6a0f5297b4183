//! What a machine is made of, what is asked of its run, and what that comes to.
ghost use Rattle.std.specs.Prelude.{◌≡◌, List};
ghost use Rattle.mem_hier.specs.declared.config.HierConfig.{HierConfig};
ghost use Rattle.mem_hier.specs.Replay.{Reference};
ghost use Rattle.mem_hier.specs.Stands.{StandsFor};
ghost use Rattle.machine_run.specs.Counts.{caches_counted};

use bpred_unit::PredConfig;
use cache_core::Counts;
use core_statistics::CoreStats;
use mem_hier::{Hier, HierConfig, Which};
use ooo_table::{EndWord, OooConfig};

/// What sim-outorder's machine is made of.
#[derive(Clone, Copy, Debug, PartialEq, Eq)]
pub struct MachineConfig {
    /// Its sizes, and its rules on issue.
    pub ooo: OooConfig,
    /// Its caches and TLBs.
    pub hier: HierConfig,
    /// Its predictor.
    pub pred: PredConfig,
}

/// What is asked of a run of the machine.
#[derive(Clone, Copy, Debug, PartialEq, Eq)]
pub struct MachinePlan<'a> {
    /// How many steps are skipped first.
    pub skip: u64,
    /// How many instructions commit behind them at most.
    pub max_inst: u64,
    /// How many cycles the machine runs at most.
    pub max_cycles: u64,
    /// The file of the commit text. There is no such text where there is none.
    pub commits: Option<&'a str>,
    /// The file of the pipetrace, which is to be another one. There is no such text where there is none.
    pub ptrace: Option<&'a str>,
}

/// How often what happened in each cache and TLB. `None` where there is none of its own.
#[derive(Clone, Copy, Debug, PartialEq, Eq)]
pub struct CacheCounts {
    /// The first level of fetches.
    pub il1: Option<Counts>,
    /// The first level of loads and stores.
    pub dl1: Option<Counts>,
    /// The second level of fetches.
    pub il2: Option<Counts>,
    /// The second level of loads and stores.
    pub dl2: Option<Counts>,
    /// The TLB of fetches.
    pub itlb: Option<Counts>,
    /// The TLB of loads and stores.
    pub dtlb: Option<Counts>,
}

impl CacheCounts {
    /// What a hierarchy has counted since it was made.
    pub fn of(hier: &Hier) -> CacheCounts
        ensures { (c : HierConfig) (h : List Reference) → StandsFor hier.now c h → result ≡ caches_counted c h }
    {
        CacheCounts {
            il1: hier.counts(Which::Il1),
            dl1: hier.counts(Which::Dl1),
            il2: hier.counts(Which::Il2),
            dl2: hier.counts(Which::Dl2),
            itlb: hier.counts(Which::Itlb),
            dtlb: hier.counts(Which::Dtlb),
        }
    }
}

/// What a run of the machine came to.
#[derive(Clone, Copy, Debug, PartialEq, Eq)]
pub struct MachineRun {
    /// How many steps were skipped.
    pub skipped: u64,
    /// What was counted behind them.
    pub statistics: CoreStats,
    /// What the caches and TLBs have counted, which were empty behind the skipped steps.
    pub caches: CacheCounts,
    /// How it ended.
    pub end: EndWord,
}
