//! Both machines, side by side.
ghost use Rattle.std.specs.Prelude.{◌≡◌, IfSome};
ghost use Rattle.ecoff_load.specs.Object.{IsImage};
ghost use Rattle.sim_safe.specs.Record.{IsRunTrace};
ghost use Rattle.plain_machine.specs.Cycle as plainly;
ghost use Rattle.plain_machine.specs.Fits.{HoldsItsText};
ghost use Rattle.sim_outorder.specs.Running.{IsReady};

use crate::configs::Setup;
use bpred_unit::Predictor;
use core_watch::Watch;
use ecoff_load::Image;
use event_trace::Trace;
use mem_hier::Hier;
use ooo_table::Event;
use pisa_step::Cause;
use plain_machine::{Plain, PlainTurn};
use sim_outorder::{Core, Turn};
use sim_safe::{Arch, CommitRecord, text_stays};
use std::alloc::Global;
use worked_tables::predictor;

/// The most cycles of a run.
const CYCLES: u64 = 1_000;

/// More commits than a run has.
const BUDGET: u64 = 1_000_000;

/// Compares the events that it is shown with those that are wanted.
#[derive(Clone, Copy)]
struct Compared<'a> {
    wanted: &'a [Event],
    shown: usize,
    wrong: bool,
}

impl Watch for Compared<'_> {
    ghost use Rattle.sim_safe.specs.declared.observer.Meaning.TheVariants as meaning;

    type Fault = ();

    ghost took = { λ a h b. Unit {0} };

    ghost cut = { λ a h b. Unit {0} };

    ghost faults = { λ o. (0, 0) };

    ghost means = { λ f. meaning.Memory };

    ghost took_none = { λ o. tt };

    fn event(&mut self, e: &Event) -> Result<(), ()> {
        match self.wanted.get(self.shown) {
            Some(wanted) if *wanted == *e => self.shown = self.shown.saturating_add(1),
            _ => self.wrong = true,
        }
        Ok(())
    }

    fn commit(&mut self, _r: &CommitRecord, _trace: &Trace) -> Result<(), ()> {
        Ok(())
    }
}

/// A program before its first instruction, whose text stands in memory.
fn started(alloc: Global, image: Image) -> Option<Arch>
    requires { IsImage image }
    ensures { IfSome result HoldsItsText }
{
    text_stays();
    match Arch::start(alloc, image, &[]) {
        Ok(arch) => Some(arch),
        Err(_) => None,
    }
}

/// The state in which a source starts.
fn state(alloc: Global, source: &[u8]) -> Option<Arch>
    ensures { IfSome result (λ arch. HoldsItsText arch × (arch.icnt ≡ 0)) }
{
    if source.len() > 10_000 {
        return None;
    }
    let Ok(image) = pisa_asm::assemble(alloc, source) else {
        return None;
    };
    let Some(arch) = started(alloc, image) else {
        return None;
    };
    if arch.icnt() > 0 { None } else { Some(arch) }
}

/// The plain machine before its first cycle.
fn plain(alloc: Global, setup: &Setup<'_>, source: &[u8]) -> Option<Plain>
    ensures { IfSome result (λ plain. plainly.IsReady plain × (plain.cycles ≡ 0)) }
{
    let config = setup.config;
    if !config.is_allowed() {
        return None;
    }
    if !setup.hier.is_allowed() {
        return None;
    }
    let Some(arch) = state(alloc, source) else {
        return None;
    };
    let Ok(hier) = Hier::new(alloc, &setup.hier) else {
        return None;
    };
    let Ok(predictor) = Predictor::new(alloc, &predictor(setup.kind)) else {
        return None;
    };
    Some(Plain::new(alloc, arch, &config, hier, predictor))
}

/// The machine before its first cycle.
fn core(alloc: Global, setup: &Setup<'_>, source: &[u8]) -> Option<Core>
    ensures { IfSome result (λ core. IsReady core × (core.cycle ≡ 0)) }
{
    let config = setup.config;
    if !config.is_allowed() || !setup.hier.is_allowed() {
        return None;
    }
    let Some(arch) = state(alloc, source) else {
        return None;
    };
    let Ok(hier) = Hier::new(alloc, &setup.hier) else {
        return None;
    };
    let Ok(predictor) = Predictor::new(alloc, &predictor(setup.kind)) else {
        return None;
    };
    Core::new(alloc, arch, &config, hier, predictor).ok()
}

/// Whether both machines end alike where one does.
fn ends_alike(plain: PlainTurn, core: Turn) -> bool {
    match (plain, core) {
        (PlainTurn::Committed(_), Turn::Ended(Cause::Exited { code: _ })) => true,
        (PlainTurn::Stopped, Turn::Ended(Cause::Exited { code: _ })) => false,
        (PlainTurn::Stopped, Turn::Ended(_)) => true,
        _ => false,
    }
}

/// Whether both machines show the same events cycle by cycle, and end alike. No where they don't end.
fn agree(mut plain: Plain, mut core: Core, trace: &Trace) -> bool
    requires plain { plainly.IsReady plain × (plain.cycles ≡ 0) }
    requires core { IsReady core × (core.cycle ≡ 0) }
    requires trace { IsRunTrace trace.now }
{
    for k in 0..CYCLES {
        let Ok(turn) = plain.cycle(trace, BUDGET) else {
            return false;
        };
        let Ok(events) = plain.events() else {
            return false;
        };
        let mut watch = Compared {
            wanted: events.as_slice(),
            shown: 0,
            wrong: false,
        };
        let Ok(end) = core.cycle(trace, BUDGET, &mut watch) else {
            return false;
        };
        if watch.wrong || watch.shown != watch.wanted.len() {
            return false;
        }
        let PlainTurn::Going = turn else {
            return ends_alike(turn, end);
        };
        let Turn::Going = end else {
            return false;
        };
    }
    false
}

/// Whether both machines run a source alike under a configuration. No where a machine can't be made.
pub fn is_alike(alloc: Global, setup: &Setup<'_>, source: &[u8]) -> bool {
    let Some(plain) = plain(alloc, setup, source) else {
        return false;
    };
    let Some(core) = core(alloc, setup, source) else {
        return false;
    };
    let trace = Trace::absent(alloc);
    agree(plain, core, &trace)
}
