//! The combining predictor.
ghost use Rattle.std.specs.Prelude.{◌≡◌, ◌<◌, ◌≤◌, [], length, slice_index, slice_set, IfOk, if◌then◌else◌};
ghost use Rattle.bpred_tables.specs.Updates.{Combining, same, counted};
ghost use Rattle.bpred_tables.specs.Tables.{BimodalStands, TwoLevelStands, CombiningStands, pair_of, levels_of};

use crate::bimodal::Bimod;
use crate::counters::{Counters, index_in};
use crate::directions::Direction;
use crate::two_level::TwoLevel;
use ss_base::OutOfMemory;
use std::alloc::Global;
use std::marker::Model;

/// Counts at a chooser which of two answers was right, where they differ.
fn judge(choosers: &mut Counters, at: usize, bimodal: bool, two_level: bool, taken: bool)
    requires { at < length choosers.old }
    ensures { choosers.new ≡ (if same bimodal two_level then choosers.old
        else slice_set choosers.old at
        (counted (same two_level taken) (slice_index choosers.old at))) }
{
    if bimodal != two_level {
        choosers.count(at, two_level == taken);
    }
}

/// A bimodal and a two-level predictor, and counters that choose between them.
#[derive(Debug, Drop)]
pub struct Comb {
    bimodal: Bimod,
    two_level: TwoLevel,
    choosers: Counters,
}

impl Model for Comb {
    ghost use Rattle.std.specs.Prelude.{◌<◌, length};
    ghost use Rattle.bpred_tables.specs.Tables.{ThreeTables};

    ghost Value = { ThreeTables };

    ghost view = { λ c. record {
      bimodal = c.bimodal;
      two_level = c.two_level;
      choosers = c.choosers;
    } };

    ghost invariant = { λ c. 0 < length c.choosers };
}

impl Comb {
    /// Two new predictors, and `size` choosers, each at 1. Both predictors are dropped where memory
    /// is wanting.
    pub fn new(alloc: Global, b: Bimod, t: TwoLevel, size: u32) -> Result<Comb, OutOfMemory>
        requires new_bimodal { BimodalStands b [] }
        requires new_two_level { TwoLevelStands t [] }
        requires size { 1 ≤ size }
        ensures sizes { IfOk result (λ c.
            pair_of c ≡ record { bimodal_size = length b; levels = levels_of t; choosers = size }) }
        ensures start { IfOk result (λ c. CombiningStands c []) }
    {
        Ok(Comb {
            bimodal: b,
            two_level: t,
            choosers: Counters::new(alloc, size)?,
        })
    }
}

impl Direction for Comb {
    ghost scheme = { λ c. Combining (pair_of c) };

    ghost stands_for = { CombiningStands };

    fn predict(&self, pc: u32) -> bool {
        if self.choosers.is_taken(index_in(self.choosers.len(), pc)) {
            self.two_level.predict(pc)
        } else {
            self.bimodal.predict(pc)
        }
    }

    fn update(&mut self, pc: u32, taken: bool) {
        let bimodal = self.bimodal.predict(pc);
        let two_level = self.two_level.predict(pc);
        let at = index_in(self.choosers.len(), pc);
        judge(&mut self.choosers, at, bimodal, two_level, taken);
        self.bimodal.update(pc, taken);
        self.two_level.update(pc, taken);
    }
}
