//! What a row is asked for.
ghost use Rattle.std.specs.Prelude.{◌≡◌, ◌&&◌, ◌||◌, is_none, nat_lt};
ghost use Rattle.ruu_core.specs.Window.{is_above};
ghost use Rattle.ruu_core.specs.Slots.{slot_passes};

use crate::slot::{Slot, are_fed, is_at, is_by};

/// A question about rows.
#[derive(Clone, Copy, Debug)]
pub enum Search {
    /// Its main operation may issue at the cycle.
    Ready(u64),
    /// Its access may issue at the cycle.
    Access(u64),
    /// It writes back or returns at the cycle.
    Completion(u64),
    /// Its main operation hasn't issued.
    Unissued,
}

pub fn either(a: bool, b: bool) -> bool
    ensures { result ≡ (a || b) }
{
    a || b
}

fn is_ready(slot: &Slot, cycle: u64) -> bool
    ensures { result ≡ slot_passes (Search.Ready cycle) slot.now }
{
    if slot.issued.is_none() && slot.dispatched < cycle {
        are_fed(&slot.main, cycle)
    } else {
        false
    }
}

fn may_access(slot: &Slot, cycle: u64) -> bool
    ensures { result ≡ slot_passes (Search.Access cycle) slot.now }
{
    if is_by(cycle, slot.written) && slot.accessed.is_none() && slot.station.is_load() {
        are_fed(&slot.second, cycle)
    } else {
        false
    }
}

fn completes(slot: &Slot, cycle: u64) -> bool
    ensures { result ≡ slot_passes (Search.Completion cycle) slot.now }
{
    let written = is_at(cycle, slot.written);
    let returned = is_at(cycle, slot.returned);
    either(written, returned)
}

/// Whether the number is above the other, where there is one.
pub fn is_above(after: Option<u64>, row: u64) -> bool
    ensures { result ≡ is_above after row }
{
    match after {
        Some(other) => other < row,
        None => true,
    }
}

impl Search {
    /// Whether a slot passes.
    pub fn passes(self, slot: &Slot) -> bool
        ensures { result ≡ slot_passes self slot.now }
    {
        match self {
            Search::Ready(cycle) => is_ready(slot, cycle),
            Search::Access(cycle) => may_access(slot, cycle),
            Search::Completion(cycle) => completes(slot, cycle),
            Search::Unissued => slot.issued.is_none(),
        }
    }

    /// Whether a slot passes that is above the row.
    pub fn passes_above(self, after: Option<u64>, slot: &Slot) -> bool
        ensures { result ≡ (is_above after slot.now.station.row && slot_passes self slot.now) }
    {
        if is_above(after, slot.station.row) {
            self.passes(slot)
        } else {
            false
        }
    }
}
