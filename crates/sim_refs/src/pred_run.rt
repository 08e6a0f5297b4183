//! A predictor that is fed the records of a run.
ghost use Rattle.std.specs.Prelude.{◌≡◌, ◌+◌, ◌^◌, ◌<◌, ◌==◌, List, [], ◌∷◌, length, IfOk, if◌then◌else◌};
ghost use Rattle.sim_safe.specs.declared.record.CommitRecord.{CommitRecord};
ghost use Rattle.sim_safe.specs.Statistics.{branch_count};
ghost use Rattle.bpred_unit.specs.declared.config.PredConfig.{PredConfig};
ghost use Rattle.bpred_unit.specs.Limits.{IsAllowed};
ghost use Rattle.bpred_unit.specs.History.{Event, LookUp, Update, look_of};
ghost use Rattle.bpred_unit.specs.Stands as unit;
ghost use Rattle.sim_refs.specs.Predictions.{cond_count, same_way, where_so, no_counts, counted, counts_of, at_most};
ghost use Rattle.sim_refs.specs.PredRuns.{StandsFor};

use bpred_unit::{Look, PredConfig, Predictor};
use pisa_isa::{ControlKind, control};
use sim_safe::CommitRecord;
use ss_base::OutOfMemory;
use std::alloc::Global;

/// What is counted of the branches and jumps of a run. A count stands still at its type's end.
#[derive(Clone, Copy, Debug, PartialEq, Eq)]
pub struct PredCounts {
    /// All instructions that direct control: conditional branches, jumps, calls and returns.
    pub control: u64,
    /// Conditional branches.
    pub cond: u64,
    /// Those of all that were taken.
    pub taken: u64,
    /// Conditional branches whose direction was predicted.
    pub dir_hits: u64,
    /// Those of all whose next address was predicted.
    pub addr_hits: u64,
}

/// How many instructions that direct control one of a kind is.
fn controls_in(kind: ControlKind) -> u64
    ensures { result ≡ branch_count kind }
{
    u64::from(kind != ControlKind::Nothing)
}

/// How many conditional branches one of a kind is.
fn conds_in(kind: ControlKind) -> u64
    ensures { result ≡ cond_count kind }
{
    u64::from(kind == ControlKind::Cond)
}

/// Whether both are taken or neither.
fn is_same_way(predicted: bool, taken: bool) -> bool
    ensures { result ≡ same_way predicted taken }
{
    predicted == taken
}

/// A count of what is so.
fn where_so(so: bool, n: u64) -> u64
    ensures { result ≡ where_so so n }
{
    if so { n } else { 0 }
}

impl PredCounts {
    /// Nothing is counted.
    fn none() -> PredCounts
        ensures { result ≡ no_counts }
    {
        PredCounts {
            control: 0,
            cond: 0,
            taken: 0,
            dir_hits: 0,
            addr_hits: 0,
        }
    }

    /// The counts with one more instruction, of this kind, for which the look-up answered `look`.
    fn with(&self, kind: ControlKind, r: &CommitRecord, look: &Look) -> PredCounts
        ensures { result ≡ at_most (counted kind r.now look.now self.now) }
    {
        let controls = controls_in(kind);
        let conds = conds_in(kind);
        let dir_hits = where_so(is_same_way(look.taken, r.taken), conds);
        let addr_hits = where_so(look.next == r.next, controls);
        PredCounts {
            control: self.control.saturating_add(controls),
            cond: self.cond.saturating_add(conds),
            taken: self.taken.saturating_add(where_so(r.taken, controls)),
            dir_hits: self.dir_hits.saturating_add(dir_hits),
            addr_hits: self.addr_hits.saturating_add(addr_hits),
        }
    }
}

/// Looks an instruction up, and then tells what it did.
fn predict(predictor: &mut Predictor, r: &CommitRecord) -> Look
    ensures answer { (c : PredConfig) (h : List Event) → unit.StandsFor predictor.old c h → result ≡ look_of c h r.now.pc r.now.instr }
    ensures stands { (c : PredConfig) (h : List Event) → unit.StandsFor predictor.old c h → unit.StandsFor predictor.new c (Update r.now.pc r.now.instr r.now.taken r.now.next ∷ (LookUp r.now.pc r.now.instr ∷ h)) }
{
    let look = predictor.lookup(r.pc, &r.instr);
    predictor.update(r.pc, &r.instr, r.taken, r.next);
    look
}

/// The predictor of a run, which is asked about each branch and jump that was done.
///
/// All counts are those of the records so far. `docs/predictors.md` has the rules.
#[derive(Debug, Drop)]
pub struct PredRun {
    predictor: Predictor,
    counts: PredCounts,
}

impl PredRun {
    /// A run of this configuration that was fed nothing. It takes all the memory that it will ever need.
    ///
    /// # Errors
    /// `OutOfMemory` where there is too little memory.
    pub fn new(alloc: Global, c: &PredConfig) -> Result<PredRun, OutOfMemory>
        requires { IsAllowed c.now }
        ensures { IfOk result (λ run. StandsFor run c.now []) }
    {
        Ok(PredRun {
            predictor: Predictor::new(alloc, c)?,
            counts: PredCounts::none(),
        })
    }

    /// Takes the record of an instruction that was done. A branch or jump is looked up, and then the predictor is told what
    /// it did.
    pub fn feed(&mut self, r: &CommitRecord)
        ensures { (c : PredConfig) (h : List CommitRecord) → StandsFor self.old c h → StandsFor self.new c (r.now ∷ h) }
    {
        let kind = control(&r.instr);
        if kind != ControlKind::Nothing {
            let look = predict(&mut self.predictor, r);
            self.counts = self.counts.with(kind, r, &look);
        }
    }

    /// The counts of the records so far.
    pub fn counts(&self) -> PredCounts
        ensures counts { (c : PredConfig) (h : List CommitRecord) → StandsFor self.now c h → result ≡ at_most (counts_of c h) }
        ensures exact { (c : PredConfig) (h : List CommitRecord) → length h < 2 ^ 64 → StandsFor self.now c h → result ≡ counts_of c h }
    {
        self.counts
    }
}
