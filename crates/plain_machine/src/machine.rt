//! The machine.
ghost use Rattle.std.specs.Prelude.{◌≡◌, ◌+◌, ◌^◌, ◌<◌, ◌≤◌, IfOk, Ok};
ghost use Rattle.sim_safe.specs.Record.{IsRunTrace};
ghost use Rattle.mem_hier.specs.Stands.{references_of};
ghost use Rattle.ooo_table.specs.Limits.{IsAllowed};
ghost use Rattle.ooo_table.specs.Machine.{Given, setting_of};
ghost use Rattle.plain_machine.specs.Fits.{HoldsItsText};
ghost use Rattle.plain_machine.specs.Standing.{IsSettled};
ghost use Rattle.plain_machine.specs.Cycle.{Begins, IsReady, LeftReady, Cycles, Shows, written_after, goes_on};

use crate::cycle::{PlainTurn, whole_cycle};
use crate::events::events_of;
use bpred_unit::Predictor;
use event_trace::Trace;
use mem_hier::Hier;
use ooo_plain::Row;
use ooo_plain::next_fetch::NextFetch;
use ooo_table::{Events, OooConfig};
use sim_safe::Arch;
use ss_base::OutOfMemory;
use std::alloc::Global;

/// The out-of-order machine as the list of all its rows, the newest first.
#[derive(Drop)]
pub struct Plain {
    pub(crate) alloc: Global,
    pub(crate) config: OooConfig,
    pub(crate) rows: Vec<Row>,
    pub(crate) next: NextFetch,
    pub(crate) hier: Hier,
    pub(crate) predictor: Predictor,
    /// The state behind the newest right row.
    pub(crate) arch: Arch,
    /// The top of the return stack behind the look-up of that row.
    pub(crate) top: Option<u32>,
    /// What wrong rows have made of a copy of the state, if one has acted since the last recovery.
    pub(crate) copy: Option<Arch>,
    /// How many cycles are over or have ended the run.
    pub(crate) cycles: u64,
    /// Write-backs of cycles before this one have happened.
    pub(crate) written: u64,
    /// Whether the next cycle may come.
    pub(crate) running: bool,
}

/// The hierarchy, settled.
fn settled(mut hier: Hier) -> Hier
    ensures { IsSettled hier result }
{
    hier.settle();
    hier
}

/// Before which cycle write-backs have happened, after one that ended so.
fn written_after(turn: PlainTurn, cycle: u64) -> u64
    requires { cycle < 2 ^ 25 }
    ensures { result ≡ written_after turn cycle }
{
    match turn {
        PlainTurn::Going => cycle + 1,
        PlainTurn::Committed(_) => cycle,
        PlainTurn::Stopped => cycle + 1,
    }
}

/// Whether the next cycle may come.
fn goes_on(turn: PlainTurn) -> bool
    ensures { result ≡ goes_on turn }
{
    match turn {
        PlainTurn::Going => true,
        PlainTurn::Committed(_) => false,
        PlainTurn::Stopped => false,
    }
}

impl Plain {
    /// The machine before its first cycle, with a hierarchy, which is settled, and a predictor. The text stands in the
    /// memory of the state.
    pub fn new(
        alloc: Global,
        arch: Arch,
        config: &OooConfig,
        hier: Hier,
        predictor: Predictor,
    ) -> Plain
        requires allowed { IsAllowed config.now }
        requires counts { (references_of hier < 2 ^ 59) × (arch.icnt ≤ 2 ^ 61) }
        requires text { HoldsItsText arch }
        ensures ready { IsReady result }
        ensures begins { Begins config.now arch hier predictor result }
    {
        Plain {
            alloc,
            config: *config,
            rows: Vec::new(alloc),
            next: NextFetch {
                pc: arch.pc(),
                earliest: 0,
                right: true,
            },
            hier: settled(hier),
            predictor,
            arch,
            top: None,
            copy: None,
            cycles: 0,
            written: 0,
            running: true,
        }
    }

    /// Runs one cycle, in a run that ends with its `most`-th commit, with the commit of an exit, or where the machine
    /// stops.
    ///
    /// # Errors
    /// `OutOfMemory` where there is too little memory. The machine can't go on then.
    pub fn cycle(&mut self, trace: &Trace, most: u64) -> Result<PlainTurn, OutOfMemory>
        requires ready { IsReady self.old × (self.old.cycles < 2 ^ 25) }
        requires trace { IsRunTrace trace.now }
        ensures ready { LeftReady self.old self.new result }
        ensures cycle { Cycles trace.now most self.old self.new result }
    {
        let cycle = self.cycles;
        match whole_cycle(self, trace, cycle, most) {
            Ok(turn) => {
                self.cycles = cycle + 1;
                self.written = written_after(turn, cycle);
                self.running = goes_on(turn);
                Ok(turn)
            }
            Err(fault) => {
                self.running = false;
                Err(fault)
            }
        }
    }

    /// The events of the last cycle, in order.
    ///
    /// # Errors
    /// `OutOfMemory` where there is too little memory.
    pub fn events(&self) -> Result<Events, OutOfMemory>
        requires { 0 < self.now.cycles }
        ensures { Shows self.now result }
    {
        events_of(
            self.alloc,
            self.rows.as_slice(),
            self.cycles - 1,
            self.written,
        )
    }

    /// How many cycles are over, with the one in which the run ended.
    pub fn cycles(&self) -> u64
        ensures { result ≡ self.now.cycles }
    {
        self.cycles
    }

    /// All rows that were ever fetched, the newest first.
    pub fn rows(&self) -> &[Row]
        ensures { result.now ≡ self.now.rows.items }
    {
        self.rows.as_slice()
    }
}
