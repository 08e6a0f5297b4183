//! Short programs on the machine, against the worked tables.
ghost use Rattle.std.specs.Prelude.{◌≡◌, ◌<◌, IfSome};
ghost use Rattle.ecoff_load.specs.Object.{IsImage};
ghost use Rattle.sim_safe.specs.Record.{IsRunTrace};
ghost use Rattle.plain_machine.specs.Cycle.{IsReady};
ghost use Rattle.plain_machine.specs.Fits.{HoldsItsText};

use bpred_unit::Predictor;
use ecoff_load::Image;
use event_trace::Trace;
use mem_hier::Hier;
use ooo_table::Event;
use plain_machine::{Plain, PlainTurn};
use sim_safe::{Arch, text_stays};
use std::alloc::Global;
use worked_tables::{Line, Table, branches, first_object, has, mark_count, predictor, straight};

/// How many marks of a table were shown, and how many others.
#[derive(Clone, Copy)]
struct Found {
    shown: u64,
    wrong: u64,
}

/// A program before its first instruction, whose text stands in memory.
fn started(alloc: Global, image: Image) -> Option<Arch>
    requires { IsImage image }
    ensures { IfSome result HoldsItsText }
{
    text_stays();
    match Arch::start(alloc, image, &[]) {
        Ok(arch) => Some(arch),
        Err(_) => None,
    }
}

/// The machine of a table before its first cycle.
fn machine(alloc: Global, table: &Table<'_>) -> Option<Plain>
    ensures { IfSome result (λ plain. IsReady plain × (plain.cycles ≡ 0)) }
{
    if table.source.len() > 1_000 {
        return None;
    }
    let Ok(image) = pisa_asm::assemble(alloc, table.source) else {
        return None;
    };
    let Some(arch) = started(alloc, image) else {
        return None;
    };
    let config = table.config;
    if !config.is_allowed() {
        return None;
    }
    if !table.hier.is_allowed() || arch.icnt() > 0 {
        return None;
    }
    let Ok(hier) = Hier::new(alloc, &table.hier) else {
        return None;
    };
    let Ok(predictor) = Predictor::new(alloc, &predictor(table.kind)) else {
        return None;
    };
    Some(Plain::new(alloc, arch, &config, hier, predictor))
}

/// Counts the events that are marks of the table, and those that aren't.
fn compare(events: &[Event], lines: &[Line], found: Found) -> Found {
    let mut found = found;
    for e in events {
        match lines.get(e.row as usize) {
            Some(line) if has(line, e) => found.shown = found.shown.saturating_add(1),
            _ => found.wrong = found.wrong.saturating_add(1),
        }
    }
    found
}

/// Runs a machine to its end, and counts the marks that it shows.
fn run(mut plain: Plain, trace: &Trace, lines: &[Line]) -> Option<Found>
    requires ready { IsReady plain × (plain.cycles ≡ 0) }
    requires trace { IsRunTrace trace.now }
{
    let mut found = Found { shown: 0, wrong: 0 };
    for k in 0..100u64 {
        let Ok(turn) = plain.cycle(trace, 1000) else {
            return None;
        };
        let Ok(events) = plain.events() else {
            return None;
        };
        found = compare(events.as_slice(), lines, found);
        match turn {
            PlainTurn::Going => {}
            PlainTurn::Committed(_) => return Some(found),
            PlainTurn::Stopped => return None,
        }
    }
    None
}

/// Whether a table comes out of the machine, each mark once and no other.
fn agrees(alloc: Global, table: &Table<'_>) -> bool {
    let Some(plain) = machine(alloc, table) else {
        return false;
    };
    let trace = Trace::absent(alloc);
    let wanted = table
        .lines
        .iter()
        .fold(0u64, |sum, line| sum.saturating_add(mark_count(line)));
    match run(plain, &trace, table.lines) {
        Some(found) => found.wrong == 0 && found.shown == wanted,
        None => false,
    }
}

/// Whether all tables do.
fn all_agree(alloc: Global, tables: &[Table<'_>]) -> bool {
    tables.iter().all(|table| agrees(alloc, table))
}

#[test]
fn worked_tables_come_out_of_the_machine(rt: HostRuntime) {
    let first = all_agree(rt.alloc(), &first_object());
    let branching = all_agree(rt.alloc(), &branches());
    let others = all_agree(rt.alloc(), &straight());
    assert!(rt; first && branching && others);
}
