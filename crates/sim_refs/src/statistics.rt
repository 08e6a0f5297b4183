//! The lines of what is counted.
ghost use Rattle.std.specs.Prelude.{◌≡◌, ◌++◌, List, Option, OnOk, OnErr};
ghost use Rattle.ss_base.specs.Outside.{BeginsWith};
ghost use Rattle.sim_safe.specs.Statistics.{count_line};
ghost use Rattle.mem_hier.specs.declared.config.HierConfig.{HierConfig};
ghost use Rattle.mem_hier.specs.Replay.{Reference, counts_at};
ghost use Rattle.mem_hier.specs.Stands as hierarchy;
ghost use Rattle.sim_refs.specs.Statistics.{cache_lines, cache_text, caches_text, predictions_text};

use crate::pred_run::PredCounts;
use cache_core::Counts;
use mem_hier::{Hier, Which};
use ss_base::{OutOfMemory, push_decimal};

/// Adds bytes.
fn push_bytes(into: &mut Vec<u8>, bytes: &[u8]) -> Result<(), OutOfMemory>
    ensures ok { OnOk result (into.new.items ≡ into.old.items ++ bytes.now) }
    ensures err { OnErr result (into.new.items ≡ into.old.items) }
{
    into.extend_from_slice(bytes)?;
    Ok(())
}

/// Adds a line with a name and a number, or a front of it.
fn push_count(into: &mut Vec<u8>, name: &[u8], count: u64) -> Result<(), OutOfMemory>
    ensures ok { OnOk result (into.new.items ≡ into.old.items ++ count_line name.now count) }
    ensures err { OnErr result (BeginsWith into.new.items into.old.items) }
{
    push_bytes(into, name)?;
    push_bytes(into, b" ")?;
    push_decimal(into, count)?;
    push_bytes(into, b"\n")
}

/// Adds a line with a name, what is counted of what has it, and a number, or a front of it.
fn push_count_of(
    into: &mut Vec<u8>,
    name: &[u8],
    what: &[u8],
    count: u64,
) -> Result<(), OutOfMemory>
    ensures ok { OnOk result (into.new.items ≡ into.old.items ++ count_line (name.now ++ what.now) count) }
    ensures err { OnErr result (BeginsWith into.new.items into.old.items) }
{
    push_bytes(into, name)?;
    push_count(into, what, count)
}

/// Adds the lines of a cache or TLB of this name, or a front of them.
fn push_cache(into: &mut Vec<u8>, name: &[u8], n: &Counts) -> Result<(), OutOfMemory>
    ensures ok { OnOk result (into.new.items ≡ into.old.items ++ cache_lines name.now n.now) }
    ensures err { OnErr result (BeginsWith into.new.items into.old.items) }
{
    push_count_of(into, name, b".accesses", n.accesses)?;
    push_count_of(into, name, b".hits", n.hits)?;
    push_count_of(into, name, b".misses", n.misses)?;
    push_count_of(into, name, b".replacements", n.replacements)?;
    push_count_of(into, name, b".writebacks", n.writebacks)
}

/// The same where it has a cache of its own, and nothing else.
fn push_own(into: &mut Vec<u8>, name: &[u8], counts: Option<Counts>) -> Result<(), OutOfMemory>
    ensures ok { OnOk result (into.new.items ≡ into.old.items ++ cache_text name.now counts) }
    ensures err { OnErr result (BeginsWith into.new.items into.old.items) }
{
    match counts {
        Some(n) => push_cache(into, name, &n),
        None => Ok(()),
    }
}

/// Adds the lines of all caches and TLBs, or a front of them.
fn push_all(into: &mut Vec<u8>, hier: &Hier) -> Result<(), OutOfMemory>
    ensures ok { (c : HierConfig) (h : List Reference) → hierarchy.StandsFor hier.now c h
        → OnOk result (into.new.items ≡ into.old.items ++ caches_text (counts_at c h)) }
    ensures err { OnErr result (BeginsWith into.new.items into.old.items) }
{
    push_own(into, b"il1", hier.counts(Which::Il1))?;
    push_own(into, b"dl1", hier.counts(Which::Dl1))?;
    push_own(into, b"il2", hier.counts(Which::Il2))?;
    push_own(into, b"dl2", hier.counts(Which::Dl2))?;
    push_own(into, b"itlb", hier.counts(Which::Itlb))?;
    push_own(into, b"dtlb", hier.counts(Which::Dtlb))
}

/// Adds the lines of all caches and TLBs of a hierarchy: five for each that has a cache of its own. Want of memory leaves
/// `into` as it was.
pub fn push_caches(hier: &Hier, into: &mut Vec<u8>) -> Result<(), OutOfMemory>
    ensures ok { (c : HierConfig) (h : List Reference) → hierarchy.StandsFor hier.now c h
        → OnOk result (into.new.items ≡ into.old.items ++ caches_text (counts_at c h)) }
    ensures err { OnErr result (into.new.items ≡ into.old.items) }
{
    let length = into.len();
    let pushed = push_all(into, hier);
    if pushed.is_err() {
        into.truncate(length);
    }
    pushed
}

impl PredCounts {
    /// Adds the lines of the counts. Want of memory leaves `into` as it was.
    pub fn push(&self, into: &mut Vec<u8>) -> Result<(), OutOfMemory>
        ensures ok { OnOk result (into.new.items ≡ into.old.items ++ predictions_text self.now) }
        ensures err { OnErr result (into.new.items ≡ into.old.items) }
    {
        let length = into.len();
        let pushed = self.push_lines(into);
        if pushed.is_err() {
            into.truncate(length);
        }
        pushed
    }

    /// The same, or a front of them.
    fn push_lines(&self, into: &mut Vec<u8>) -> Result<(), OutOfMemory>
        ensures ok { OnOk result (into.new.items ≡ into.old.items ++ predictions_text self.now) }
        ensures err { OnErr result (BeginsWith into.new.items into.old.items) }
    {
        push_count(into, b"bpred.control", self.control)?;
        push_count(into, b"bpred.cond", self.cond)?;
        push_count(into, b"bpred.taken", self.taken)?;
        push_count(into, b"bpred.dir_hits", self.dir_hits)?;
        push_count(into, b"bpred.addr_hits", self.addr_hits)
    }
}
