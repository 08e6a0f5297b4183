//! Runs under budgets of commits and of cycles, on a machine with one of everything. The ends follow from the worked table of
//! the first object, whose instructions commit in cycles 4, 5 and 8, and from the rules for a program that runs off its text:
//! its one instruction commits in cycle 4, in which the machine then stops.
use super::{BARE, FIRST, MACHINE, TEXT, Table, machine};
use crate::tables;
use bpred_unit::PredKind;
use core_watch::Watch;
use event_trace::Trace;
use ooo_table::{EndWord, Event, OooConfig};
use pisa_step::Cause;
use sim_safe::CommitRecord;
use std::alloc::Global;
use timed_run::timed_run;

const RUNS_OFF: &[u8] = b".text 0x00400000\n ADDIU $9,$0,1\n";

const STOPPED: EndWord = EndWord::Stopped {
    pc: TEXT + 8,
    icnt: 1,
    cause: Cause::BadFetch,
};

/// A program with its budgets, and how its run ends under them.
#[derive(Clone, Copy)]
struct Run {
    source: &'static [u8],
    max_inst: u64,
    max_cycles: u64,
    end: EndWord,
    cycles: u64,
    commits: u64,
}

/// A run of a program under these budgets, with its end, its cycles and its commits.
fn run_of(
    source: &'static [u8],
    budgets: (u64, u64),
    end: EndWord,
    cycles: u64,
    commits: u64,
) -> Run {
    Run {
        source,
        max_inst: budgets.0,
        max_cycles: budgets.1,
        end,
        cycles,
        commits,
    }
}

/// Counts the records that it is shown.
#[derive(Drop)]
struct Counted {
    records: u64,
}

impl Watch for Counted {
    ghost use Rattle.sim_safe.specs.declared.observer.Meaning.TheVariants as meaning;

    type Fault = ();

    ghost took = { λ a h b. Unit {0} };

    ghost cut = { λ a h b. Unit {0} };

    ghost faults = { λ o. (0, 0) };

    ghost means = { λ f. meaning.Memory };

    ghost took_none = { λ o. tt };

    fn event(&mut self, _e: &Event) -> Result<(), ()> {
        Ok(())
    }

    fn commit(&mut self, _r: &CommitRecord, _trace: &Trace) -> Result<(), ()> {
        self.records = self.records.saturating_add(1);
        Ok(())
    }
}

/// Whether a run ends so.
fn ends_so(alloc: Global, run: &Run) -> bool {
    let table = Table {
        source: run.source,
        config: OooConfig {
            ifq: 1,
            decode: 1,
            issue: 1,
            commit: 1,
            ruu: 2,
            lsq: 2,
            ports: 1,
            ..MACHINE
        },
        hier: BARE,
        kind: PredKind::Bimod,
        code: 7,
        lines: &tables::FIRST_OBJECT,
        counts: tables::FIRST_OBJECT_COUNTS,
    };
    let Some(mut core) = machine(alloc, &table) else {
        return false;
    };
    let mut watch = Counted { records: 0 };
    let trace = Trace::absent(alloc);
    let max_inst = run.max_inst.min(1_000);
    let max_cycles = run.max_cycles.min(1_000);
    let told = match timed_run(&mut core, &trace, max_inst, max_cycles, &mut watch) {
        Ok(word) => word == run.end,
        Err(_) => false,
    };
    let stats = core.stats();
    told && stats.cycles == run.cycles && stats.insn == run.commits && watch.records == run.commits
}

/// Whether all runs do.
fn all_end_so(alloc: Global) -> bool {
    let runs = [
        run_of(FIRST, (1000, 1000), EndWord::Exited(7), 9, 3),
        run_of(FIRST, (1000, 9), EndWord::Exited(7), 9, 3),
        run_of(FIRST, (1000, 8), EndWord::Budget, 8, 2),
        run_of(FIRST, (3, 1000), EndWord::Exited(7), 9, 3),
        run_of(FIRST, (2, 1000), EndWord::Budget, 6, 2),
        run_of(FIRST, (2, 6), EndWord::Budget, 6, 2),
        run_of(FIRST, (0, 1000), EndWord::Budget, 0, 0),
        run_of(FIRST, (1000, 0), EndWord::Budget, 0, 0),
        run_of(RUNS_OFF, (1000, 1000), STOPPED, 5, 1),
        run_of(RUNS_OFF, (1, 1000), EndWord::Budget, 5, 1),
        run_of(RUNS_OFF, (1000, 4), EndWord::Budget, 4, 0),
    ];
    runs.iter().all(|run| ends_so(alloc, run))
}

#[test]
fn runs_end_at_their_budgets_or_by_themselves(rt: HostRuntime) {
    let so = all_end_so(rt.alloc());
    assert!(rt; so);
}
