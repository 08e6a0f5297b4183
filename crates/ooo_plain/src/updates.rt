//! What the predictor is told in a cycle, before its look-ups.
ghost use Rattle.std.specs.Prelude.{◌≡◌, ◌∷◌, ℕ, List};
ghost use Rattle.bpred_unit.specs.History.{Event};
ghost use Rattle.bpred_unit.specs.Stands.{StandsFor, cells_of};
ghost use Rattle.ooo_table.specs.Row as table;
ghost use Rattle.ooo_table.specs.References.{updates_of};
ghost use Rattle.ooo_table.specs.Machine.{Given, setting_of};
ghost use Rattle.ooo_plain.specs.Kept.{kept, AreKept};

use crate::row::{Row, both, is_at};
use bpred_unit::Predictor;

/// Updates the predictor by the row, where it is a branch or jump that committed in the cycle.
fn update(row: &Row, predictor: &mut Predictor, cycle: u64)
    ensures stands { (g : Given) (r : table.Row) (olds : List table.Row) (h : List Event) → row.now ≡ kept (setting_of g) r
        → StandsFor predictor.old g.pred (updates_of (setting_of g) cycle olds h) → StandsFor predictor.new g.pred (updates_of (setting_of g) cycle (r ∷ olds) h) }
    ensures cells { cells_of predictor.new ≡ cells_of predictor.old }
{
    let told = both(is_at(cycle, row.committed), row.control);
    if told {
        predictor.update(row.pc, &row.instr, row.taken, row.next);
    }
}

/// Updates the predictor by the branches and jumps that committed in the cycle, in row order.
pub fn update_all(rows: &[Row], predictor: &mut Predictor, cycle: u64)
    ensures stands { (g : Given) (olds : List table.Row) (h : List Event) → AreKept (setting_of g) rows.now olds → StandsFor predictor.old g.pred h
        → StandsFor predictor.new g.pred (updates_of (setting_of g) cycle olds h) }
    ensures cells { cells_of predictor.new ≡ cells_of predictor.old }
{
    if let [row, older @ ..] = rows {
        update_all(older, predictor, cycle);
        update(row, predictor, cycle);
    }
}
