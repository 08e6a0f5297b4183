//! The bimodal predictor.
ghost use Rattle.std.specs.Prelude.{◌≡◌, ◌<◌, ◌≤◌, [], length, IfOk};
ghost use Rattle.bpred_tables.specs.Updates.{Bimodal};
ghost use Rattle.bpred_tables.specs.Tables.{BimodalStands};

use crate::counters::{Counters, index_in};
use crate::directions::Direction;
use ss_base::OutOfMemory;
use std::alloc::Global;
use std::marker::Model;

/// One table of two-bit counters, by the instruction's number.
#[derive(Debug, Drop)]
pub struct Bimod {
    counters: Counters,
}

impl Model for Bimod {
    ghost use Rattle.std.specs.Prelude.{List, ℕ, ◌<◌, length};

    ghost Value = { List ℕ };

    ghost view = { λ b. b.counters };

    ghost invariant = { λ b. 0 < length b.counters };
}

impl Bimod {
    /// A table of `size` counters, each at 1, of no updates.
    pub fn new(alloc: Global, size: u32) -> Result<Bimod, OutOfMemory>
        requires { 1 ≤ size }
        ensures size { IfOk result (λ bimod. length bimod ≡ size) }
        ensures start { IfOk result (λ bimod. BimodalStands bimod []) }
    {
        Ok(Bimod {
            counters: Counters::new(alloc, size)?,
        })
    }
}

impl Direction for Bimod {
    ghost scheme = { λ bimod. Bimodal (length bimod) };

    ghost stands_for = { BimodalStands };

    fn predict(&self, pc: u32) -> bool {
        self.counters.is_taken(index_in(self.counters.len(), pc))
    }

    fn update(&mut self, pc: u32, taken: bool) {
        let at = index_in(self.counters.len(), pc);
        self.counters.count(at, taken);
    }
}
