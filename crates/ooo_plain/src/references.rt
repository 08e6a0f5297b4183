//! What the hierarchy and the predictor are told in a cycle.
ghost use Rattle.std.specs.Prelude.{◌≡◌, ◌<◌, ◌≤◌, ◌^◌, ◌+◌, ◌∷◌, ℕ, List, length, if◌then◌else◌};
ghost use Rattle.mem_hier.specs.Replay.{Reference, Load, latency_of};
ghost use Rattle.mem_hier.specs.Stands.{StandsFor, last_cycle_of, references_of};
ghost use Rattle.ooo_table.specs.Row as table;
ghost use Rattle.ooo_table.specs.References.{store_references};
ghost use Rattle.ooo_table.specs.Machine.{Given, setting_of};
ghost use Rattle.ooo_plain.specs.Kept.{kept, AreKept};
ghost use Rattle.ooo_plain.specs.Asked.{Asked, referred_if};

use crate::row::{Row, both, is_at};
use mem_hier::Hier;

/// What an access takes: one cycle where it is forwarded, else the latency of its reference.
pub fn wait(hier: &mut Hier, forwarded: bool, addr: u32, cycle: u64) -> u64
    requires order { last_cycle_of hier.old ≤ cycle }
    requires cycle { cycle < 2 ^ 62 }
    requires references { references_of hier.old < 2 ^ 60 }
    ensures latency { (g : Given) (h : List Reference) → StandsFor hier.old g.hier h → result ≡ (if forwarded then 1 else latency_of g.hier h (Load addr cycle)) }
    ensures stands { (g : Given) (h : List Reference) → StandsFor hier.old g.hier h → StandsFor hier.new g.hier (referred_if forwarded (Load addr cycle) h) }
    ensures asked { Asked hier.old hier.new cycle 1 }
    ensures short { result < 2 ^ 32 }
{
    if forwarded {
        1
    } else {
        u64::from(hier.load(addr, cycle))
    }
}

/// Tells the hierarchy of the row, where it is a store that committed in the cycle.
fn refer_store(row: &Row, hier: &mut Hier, cycle: u64)
    requires order { last_cycle_of hier.old ≤ cycle }
    requires cycle { cycle < 2 ^ 62 }
    requires references { references_of hier.old < 2 ^ 60 }
    ensures stands { (g : Given) (r : table.Row) (olds : List table.Row) (h : List Reference) → row.now ≡ kept (setting_of g) r
        → StandsFor hier.old g.hier (store_references (setting_of g) cycle olds h) → StandsFor hier.new g.hier (store_references (setting_of g) cycle (r ∷ olds) h) }
    ensures asked { Asked hier.old hier.new cycle 1 }
{
    let commits = both(row.store, is_at(cycle, row.committed));
    if commits {
        hier.store(row.address, cycle);
    }
}

/// Tells the hierarchy of the stores that committed in the cycle, in row order.
pub fn refer_stores(rows: &[Row], hier: &mut Hier, cycle: u64)
    requires order { last_cycle_of hier.old ≤ cycle }
    requires cycle { cycle < 2 ^ 62 }
    requires references { references_of hier.old + length rows.now ≤ 2 ^ 60 }
    ensures stands { (g : Given) (olds : List table.Row) (h : List Reference) → AreKept (setting_of g) rows.now olds → StandsFor hier.old g.hier h
        → StandsFor hier.new g.hier (store_references (setting_of g) cycle olds h) }
    ensures asked { Asked hier.old hier.new cycle (length rows.now) }
{
    if let [row, older @ ..] = rows {
        refer_stores(older, hier, cycle);
        refer_store(row, hier, cycle);
    }
}
