//! The predictor: look-up, update and recovery.
ghost use Rattle.std.specs.Prelude.{◌≡◌, Bool, List, [], ◌∷◌, ◌&&◌, length, IfOk, if◌then◌else◌};
ghost use Rattle.std.specs.Option.{unwrap_or};
ghost use Rattle.bpred_tables.specs.Updates as branch;
ghost use Rattle.bpred_tables.specs.Updates.{predicted};
ghost use Rattle.bpred_tables.specs.Buffer.{Entry, BufferStands, target_of};
ghost use Rattle.bpred_unit.specs.declared.config.PredConfig.{PredConfig};
ghost use Rattle.bpred_unit.specs.Limits.{IsAllowed};
ghost use Rattle.bpred_unit.specs.History.{Event, LookUp, Update, Recover, is_held, is_expected, look_of, following};
ghost use Rattle.bpred_unit.specs.Stands.{StandsFor, DirectionsStand, scheme_in, cells_of, IsTop};

use crate::config::PredConfig;
use crate::directions::Directions;
use crate::returns::{Returns, following};
use bpred_tables::{Btb, Direction};
use pisa_isa::{ControlKind, Instr, control};
use ss_base::OutOfMemory;
use std::alloc::Global;

/// What a look-up answers.
#[derive(Clone, Copy, Debug, PartialEq, Eq)]
pub struct Look {
    /// The address at which fetching goes on.
    pub next: u32,
    /// The direction that is predicted for a conditional branch. True for other transfers, else false.
    pub taken: bool,
    /// The top of the return stack after the look-up, for a later recovery; 0 without a stack.
    pub top: u32,
}

/// A predictor of the next address.
///
/// All answers are those of the look-ups, updates and recoveries so far. `docs/predictors.md` has the rules.
#[derive(Debug, Drop)]
pub struct Predictor {
    directions: Directions,
    buffer: Btb,
    returns: Returns,
}

impl Predictor {
    /// A predictor of this configuration that was told nothing. It takes all the memory that it will ever need.
    ///
    /// # Errors
    /// `OutOfMemory` where there is too little memory.
    pub fn new(alloc: Global, c: &PredConfig) -> Result<Predictor, OutOfMemory>
        requires { IsAllowed c.now }
        ensures { IfOk result (λ predictor. StandsFor predictor c.now []) }
    {
        Ok(Predictor {
            directions: Directions::new(alloc, c)?,
            buffer: Btb::new(alloc, c.btb_sets, c.btb_ways)?,
            returns: Returns::new(alloc, c.ras)?,
        })
    }

    /// Looks up the instruction at `pc` before it is done. Calls and returns change the return stack.
    pub fn lookup(&mut self, pc: u32, i: &Instr) -> Look
        ensures answer { (c : PredConfig) (h : List Event) → StandsFor self.old c h → result ≡ look_of c h pc i.now }
        ensures stands { (c : PredConfig) (h : List Event) → StandsFor self.old c h → StandsFor self.new c (LookUp pc i.now ∷ h) }
        ensures cells { cells_of self.new ≡ cells_of self.old }
        ensures top { IsTop (cells_of self.new) result.top }
    {
        let kind = control(i);
        let taken = self.is_taken(kind, pc);
        let next = match self.returns.look(kind, pc) {
            Some(address) => address,
            None => self.target(taken, pc),
        };
        Look {
            next,
            taken,
            top: self.returns.top(),
        }
    }

    /// Tells that the instruction at `pc` was done, whether it was taken, and which address followed.
    pub fn update(&mut self, pc: u32, i: &Instr, taken: bool, next: u32)
        ensures stands { (c : PredConfig) (h : List Event) → StandsFor self.old c h → StandsFor self.new c (Update pc i.now taken next ∷ h) }
        ensures cells { cells_of self.new ≡ cells_of self.old }
    {
        let kind = control(i);
        if kind == ControlKind::Cond {
            self.directions.update(pc, taken);
        }
        if taken && self.is_held(kind) {
            self.buffer.update(pc, next);
        }
    }

    /// Puts back the top of the return stack that a look-up answered: below its size, and 0 without a stack. All cells
    /// stay, so that what was pushed since then is still there.
    pub fn recover(&mut self, top: u32)
        requires { IsTop (cells_of self.old) top }
        ensures stands { (c : PredConfig) (h : List Event) → StandsFor self.old c h → StandsFor self.new c (Recover top ∷ h) }
        ensures cells { cells_of self.new ≡ cells_of self.old }
    {
        self.returns.set_top(top);
    }

    /// Whether an instruction of this kind is expected to be taken.
    fn is_taken(&self, kind: ControlKind, pc: u32) -> bool
        ensures { (updates : List branch.Update) → DirectionsStand self.now.directions updates
            → result ≡ is_expected kind (predicted (scheme_in self.now.directions) updates pc) }
    {
        match kind {
            ControlKind::Nothing => false,
            ControlKind::Cond => self.directions.predict(pc),
            ControlKind::Jump | ControlKind::Call | ControlKind::Return => true,
        }
    }

    /// Where the instruction at `pc` leads by the buffer, if it is taken.
    fn target(&self, taken: bool, pc: u32) -> u32
        ensures { (updates : List Entry) → BufferStands self.now.buffer updates
            → result ≡ (if taken then unwrap_or (target_of (length self.now.buffer.sets) self.now.buffer.ways updates pc) (following pc)
            else following pc) }
    {
        if taken {
            self.buffer.target(pc).unwrap_or(following(pc))
        } else {
            following(pc)
        }
    }

    /// Whether the buffer holds transfers of this kind.
    fn is_held(&self, kind: ControlKind) -> bool
        ensures { result ≡ is_held (cells_of self.now) kind }
    {
        match kind {
            ControlKind::Nothing => false,
            ControlKind::Return => !self.returns.is_there(),
            ControlKind::Cond | ControlKind::Jump | ControlKind::Call => true,
        }
    }
}
