//! The buffer of branch targets.
ghost use Rattle.std.specs.Prelude.{◌≡◌, ◌<◌, ◌≤◌, not, List, [], ◌∷◌, length, take, filter, find, option_map, ◌==◌, IfOk};
ghost use Rattle.bpred_tables.specs.Buffer.{Entry, BufferStands, target_of};

use crate::counters::index_in;
use arrayvec::ArrayVec;
use ss_base::OutOfMemory;
use std::alloc::Global;
use std::marker::Model;

/// What a place of a set holds: a transfer of control and where it led.
#[derive(Clone, Copy, Debug, Default)]
struct Slot {
    pc: u32,
    target: u32,
}

/// The entries of one set, the newest first.
type Set = ArrayVec<Slot, 16>;

/// Takes out the entries of `pc`.
fn take_out(set: &mut Set, pc: u32)
    ensures { set.new.items ≡ filter (λ e. not (e.pc == pc)) set.old.items }
{
    set.retain(|entry| entry.pc != pc);
}

/// Puts an entry at the front, in place of one of its pc, and drops what then lies beyond the ways.
fn enter(set: &mut Set, ways: usize, entry: Slot)
    requires least { 1 ≤ ways }
    requires most { ways ≤ 16 }
    ensures { set.new.items
        ≡ take ways (entry ∷ filter (λ e. not (e.pc == entry.pc)) set.old.items) }
{
    take_out(set, entry.pc);
    set.truncate(ways - 1);
    set.insert(0, entry);
}

/// The target that these entries hold for `pc`.
fn find_target(entries: &[Slot], pc: u32) -> Option<u32>
    ensures { result ≡ option_map (λ e. e.target) (find (λ e. e.pc == pc) entries.now) }
{
    entries
        .iter()
        .find(|entry| entry.pc == pc)
        .map(|entry| entry.target)
}

/// Sets of entries, each a pc with its last target.
#[derive(Debug, Drop)]
pub struct Btb {
    sets: Vec<Set>,
    ways: usize,
}

impl Model for Btb {
    ghost use Rattle.std.specs.Prelude.{◌<◌, ◌≤◌, length, map};
    ghost use Rattle.bpred_tables.specs.Buffer.{Buffer};

    ghost Value = { Buffer };

    ghost view = { λ b. record {
      sets = map (λ s. map (λ e. record { pc = e.pc; target = e.target }) s.items) b.sets.items;
      ways = b.ways;
    } };

    ghost invariant = { λ b. (0 < length b.sets.items) × (1 ≤ b.ways) × (b.ways ≤ 16) };
}

impl Btb {
    /// An empty buffer of `sets` sets, each with room for `ways` entries.
    pub fn new(alloc: Global, sets: u32, ways: u32) -> Result<Btb, OutOfMemory>
        requires sets { 1 ≤ sets }
        requires least { 1 ≤ ways }
        requires most { ways ≤ 16 }
        ensures sizes { IfOk result (λ btb. (length btb.sets ≡ sets) × (btb.ways ≡ ways)) }
        ensures start { IfOk result (λ btb. BufferStands btb []) }
    {
        let mut empty = Vec::with_capacity(alloc, sets as usize)?;
        for _ in 0..sets {
            empty.push(Set::new())?;
        }
        Ok(Btb {
            sets: empty,
            ways: ways as usize,
        })
    }

    /// The last target of the transfer at `pc`: `None` exactly where its set holds no entry of `pc`.
    /// Nothing changes.
    pub fn target(&self, pc: u32) -> Option<u32>
        ensures { (updates : List Entry) → BufferStands self.now updates
            → result ≡ target_of (length self.now.sets) self.now.ways updates pc }
    {
        find_target(self.sets[index_in(self.sets.len(), pc)].as_slice(), pc)
    }

    /// The transfer at `pc` led to `target`: its entry comes to the front of its set, and the last one
    /// beyond the ways is dropped.
    pub fn update(&mut self, pc: u32, target: u32)
        ensures sizes { (length self.new.sets ≡ length self.old.sets)
            × (self.new.ways ≡ self.old.ways) }
        ensures updated { (updates : List Entry) → BufferStands self.old updates
            → BufferStands self.new (record { pc = pc; target = target } ∷ updates) }
    {
        let at = index_in(self.sets.len(), pc);
        enter(&mut self.sets[at], self.ways, Slot { pc, target });
    }
}
