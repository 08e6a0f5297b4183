//! The issue stage: the turns of the rows.
ghost use Rattle.std.specs.Prelude.{◌≡◌, ◌<◌, ◌≤◌, ◌^◌, ◌+◌, ◌∷◌, ℕ, List, length, take, drop, ◌-◌};
ghost use Rattle.mem_hier.specs.Replay.{Reference};
ghost use Rattle.mem_hier.specs.Stands.{StandsFor, last_cycle_of, references_of};
ghost use Rattle.ooo_table.specs.Row as table;
ghost use Rattle.ooo_table.specs.References.{load_references};
ghost use Rattle.ooo_table.specs.Table.{Table};
ghost use Rattle.ooo_table.specs.Machine.{Given, setting_of};
ghost use Rattle.ooo_plain.specs.Kept.{AreKept};
ghost use Rattle.ooo_plain.specs.Held.{AreHeld};
ghost use Rattle.ooo_plain.specs.Asked.{Asked};
ghost use Rattle.ooo_plain.specs.IssueStage.{AccessLeft, IssueTurned, IssueSwept, Issues};

use crate::issue::{Held, accesses, is_forwarded, issues};
use crate::references::wait;
use crate::row::Row;
use mem_hier::Hier;
use ooo_table::OooConfig;

/// The access of the row at a place.
fn access(hier: &mut Hier, rows: &mut [Row], at: usize, cycle: u64)
    requires at { at < length rows.old }
    requires order { (last_cycle_of hier.old ≤ cycle) × (cycle < 2 ^ 62) }
    requires references { references_of hier.old < 2 ^ 60 }
    ensures left { (g : Given) (base : List Reference) (olds : List table.Row) (r : table.Row) → AreKept (setting_of g) (drop at rows.old) (r ∷ olds)
        → StandsFor hier.old g.hier (load_references (setting_of g) cycle olds base) → AccessLeft g cycle base at rows.old rows.new hier.new olds r }
    ensures younger { take at rows.new ≡ take at rows.old }
    ensures many { length rows.new ≡ length rows.old }
    ensures asked { Asked hier.old hier.new cycle 1 }
{
    let all = &rows[..];
    let older = &all[at + 1..];
    let this = &all[at];
    let forwarded = is_forwarded(older, this);
    let taken = wait(hier, forwarded, this.address, cycle);
    let row = &mut rows[at];
    row.accessed = Some(cycle);
    row.returned = Some(cycle + taken);
    row.forwarded = forwarded;
}

/// The turn of the row at a place.
fn issue_turn(
    config: &OooConfig,
    held: &Held,
    hier: &mut Hier,
    rows: &mut [Row],
    at: usize,
    cycle: u64,
)
    requires at { at < length rows.old }
    requires order { (last_cycle_of hier.old ≤ cycle) × (cycle < 2 ^ 62) }
    requires references { references_of hier.old < 2 ^ 60 }
    ensures turned { (g : Given) (base : List Reference) (start : List table.Row) → config.now ≡ g.config → AreHeld (setting_of g) cycle start held.now
        → IssueTurned g cycle base start at rows.old rows.new hier.old hier.new }
    ensures asked { Asked hier.old hier.new cycle 1 }
{
    let all = &rows[..];
    let older = &all[at + 1..];
    let this = &all[at];
    if issues(config, held, older, this, cycle) {
        rows[at].issued = Some(cycle);
    } else if accesses(config, held, older, this, cycle) {
        access(hier, rows, at, cycle);
    }
}

/// The turns of the rows from a place on.
fn issue_from(
    config: &OooConfig,
    held: &Held,
    hier: &mut Hier,
    rows: &mut [Row],
    at: usize,
    cycle: u64,
)
    requires at { at ≤ length rows.old }
    requires order { (last_cycle_of hier.old ≤ cycle) × (cycle < 2 ^ 62) }
    requires references { references_of hier.old + length rows.old ≤ 2 ^ 60 + at }
    ensures swept { (g : Given) (base : List Reference) (start : List table.Row) → config.now ≡ g.config → AreHeld (setting_of g) cycle start held.now
        → IssueSwept g cycle base start at rows.old rows.new hier.old hier.new }
    ensures asked { Asked hier.old hier.new cycle (length rows.old - at) }
{
    if at < rows.len() {
        issue_from(config, held, hier, rows, at + 1, cycle);
        issue_turn(config, held, hier, rows, at, cycle);
    }
}

/// Each row in row order.
pub fn issue(config: &OooConfig, hier: &mut Hier, rows: &mut [Row], cycle: u64)
    requires order { (last_cycle_of hier.old ≤ cycle) × (cycle < 2 ^ 62) }
    requires references { references_of hier.old + length rows.old ≤ 2 ^ 60 }
    ensures issues { (g : Given) (t : Table) → config.now ≡ g.config → Issues g cycle t rows.old rows.new hier.old hier.new }
    ensures asked { Asked hier.old hier.new cycle (length rows.old) }
{
    let held = Held::of(rows, cycle);
    issue_from(config, &held, hier, rows, 0, cycle);
}
