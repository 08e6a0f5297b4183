//! A hierarchy that is fed the records of a run.
ghost use Rattle.std.specs.Prelude.{◌≡◌, ◌^◌, ◌<◌, ◌≤◌, List, [], ◌∷◌, length, IfOk};
ghost use Rattle.sim_safe.specs.declared.record.CommitRecord.{CommitRecord};
ghost use Rattle.mem_hier.specs.declared.config.HierConfig.{HierConfig};
ghost use Rattle.mem_hier.specs.Limits.{IsAllowed};
ghost use Rattle.mem_hier.specs.Replay.{Reference};
ghost use Rattle.mem_hier.specs.Stands as hierarchy;
ghost use Rattle.sim_refs.specs.References.{data_referred, referred, references_of};
ghost use Rattle.sim_refs.specs.CacheRuns.{StandsFor, MayRefer, Refers, most_records};

use mem_hier::{Hier, HierConfig};
use pisa_isa::{AccessKind, access};
use sim_safe::CommitRecord;
use ss_base::OutOfMemory;
use std::alloc::Global;
use std::marker::Model;

/// So many records a run is fed, each of which makes up to two references.
const MOST_RECORDS: u64 = 1 << 59;

/// The caches and TLBs of a run, which get the references of each instruction that was done.
///
/// All counts are those of the records so far. `docs/caches.md` has the rules.
#[derive(Drop)]
pub struct CacheRun {
    hier: Hier,
    records: u64,
}

impl Model for CacheRun {
    ghost use Rattle.sim_refs.specs.CacheRuns.{Fed, IsSound};

    ghost Value = { Fed };

    ghost view = { λ r. record { hier = r.hier; records = r.records } };

    ghost invariant = { λ r. IsSound (record { hier = r.hier; records = r.records }) };
}

/// Makes the reference of a load or store in cycle 0.
fn refer_to_data(hier: &mut Hier, kind: AccessKind, addr: Option<u32>)
    requires { MayRefer hier.old 1 }
    ensures stands { (c : HierConfig) (h : List Reference) → hierarchy.StandsFor hier.old c h → hierarchy.StandsFor hier.new c (data_referred kind addr h) }
    ensures refers { Refers hier.old hier.new 1 }
{
    match (kind, addr) {
        (AccessKind::Load, Some(addr)) => {
            let _latency = hier.load(addr, 0);
        }
        (AccessKind::Store, Some(addr)) => hier.store(addr, 0),
        _ => {}
    }
}

/// Makes the references of an instruction that was done, in cycle 0.
fn refer(hier: &mut Hier, r: &CommitRecord)
    requires { MayRefer hier.old 2 }
    ensures stands { (c : HierConfig) (h : List Reference) → hierarchy.StandsFor hier.old c h → hierarchy.StandsFor hier.new c (referred r.now h) }
    ensures refers { Refers hier.old hier.new 2 }
{
    let _latency = hier.fetch(r.pc, 0);
    refer_to_data(hier, access(r.instr.op), r.access);
}

impl CacheRun {
    /// A run of this configuration that was fed nothing. It takes all the memory that it will ever need.
    ///
    /// # Errors
    /// `OutOfMemory` where there is too little memory.
    pub fn new(alloc: Global, c: &HierConfig) -> Result<CacheRun, OutOfMemory>
        requires { IsAllowed c.now }
        ensures { IfOk result (λ run. StandsFor run c.now []) }
    {
        Ok(CacheRun {
            hier: Hier::new(alloc, c)?,
            records: 0,
        })
    }

    /// Takes the record of an instruction that was done, and makes its references. A run that was fed 2^59 records stays
    /// as it is.
    pub fn feed(&mut self, r: &CommitRecord)
        ensures stands { (c : HierConfig) (h : List CommitRecord) → length h < most_records → StandsFor self.old c h → StandsFor self.new c (r.now ∷ h) }
        ensures full { most_records ≤ self.old.records → self.new ≡ self.old }
    {
        if self.records < MOST_RECORDS {
            self.records += 1;
            refer(&mut self.hier, r);
        }
    }

    /// The hierarchy, which stands for the references of the records so far.
    pub fn hier(&self) -> &Hier
        ensures { (c : HierConfig) (h : List CommitRecord) → StandsFor self.now c h → hierarchy.StandsFor result.now c (references_of h) }
    {
        &self.hier
    }
}
