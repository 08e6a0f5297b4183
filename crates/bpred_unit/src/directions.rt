//! The direction predictor of a configuration.
ghost use Rattle.std.specs.Prelude.{◌≡◌, [], IfOk};
ghost use Rattle.bpred_unit.specs.Limits.{IsAllowed};
ghost use Rattle.bpred_tables.specs.Tables.{TwoLevelStands};
ghost use Rattle.bpred_tables.specs.Tables as tables;
ghost use Rattle.bpred_unit.specs.History.{scheme_of, levels_of};
ghost use Rattle.bpred_unit.specs.Stands.{scheme_in, DirectionsStand};

use crate::config::{PredConfig, PredKind};
use bpred_tables::{Bimod, Comb, Direction, Fixed, TwoLevel};
use ss_base::OutOfMemory;
use std::alloc::Global;

/// One of the four direction predictors.
#[derive(Debug, Drop)]
pub(crate) enum Directions {
    Fixed(Fixed),
    Bimod(Bimod),
    TwoLevel(TwoLevel),
    Comb(Comb),
}

impl Directions {
    /// The direction predictor of this configuration, of no updates.
    pub(crate) fn new(alloc: Global, c: &PredConfig) -> Result<Directions, OutOfMemory>
        requires { IsAllowed c.now }
        ensures scheme { IfOk result (λ d. scheme_in d ≡ scheme_of c.now) }
        ensures start { IfOk result (λ d. DirectionsStand d []) }
    {
        match c.kind {
            PredKind::NotTaken => Ok(Directions::Fixed(Fixed { taken: false })),
            PredKind::Taken => Ok(Directions::Fixed(Fixed { taken: true })),
            PredKind::Bimod => Ok(Directions::Bimod(Bimod::new(alloc, c.bimod)?)),
            PredKind::TwoLevel => Ok(Directions::TwoLevel(new_two_level(alloc, c)?)),
            PredKind::Comb => {
                let bimodal = Bimod::new(alloc, c.bimod)?;
                let two_level = new_two_level(alloc, c)?;
                Ok(Directions::Comb(Comb::new(alloc, bimodal, two_level, c.meta)?))
            }
        }
    }
}

impl Direction for Directions {
    ghost scheme = { scheme_in };

    ghost stands_for = { DirectionsStand };

    fn predict(&self, pc: u32) -> bool {
        match self {
            Directions::Fixed(fixed) => fixed.predict(pc),
            Directions::Bimod(bimodal) => bimodal.predict(pc),
            Directions::TwoLevel(two_level) => two_level.predict(pc),
            Directions::Comb(combining) => combining.predict(pc),
        }
    }

    fn update(&mut self, pc: u32, taken: bool) {
        match self {
            Directions::Fixed(fixed) => fixed.update(pc, taken),
            Directions::Bimod(bimodal) => bimodal.update(pc, taken),
            Directions::TwoLevel(two_level) => two_level.update(pc, taken),
            Directions::Comb(combining) => combining.update(pc, taken),
        }
    }
}

/// The two-level predictor of this configuration.
fn new_two_level(alloc: Global, c: &PredConfig) -> Result<TwoLevel, OutOfMemory>
    requires { IsAllowed c.now }
    ensures sizes { IfOk result (λ t. tables.levels_of t ≡ levels_of c.now) }
    ensures start { IfOk result (λ t. TwoLevelStands t []) }
{
    TwoLevel::new(alloc, c.l1, c.l2, c.width, c.xor)
}
