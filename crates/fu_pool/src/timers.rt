//! The units of one pool.
ghost use Rattle.std.specs.Prelude.{◌≡◌, ◌<◌, ◌≤◌, ◌↔◌, length, IsTrue, replicate, position, nat_le};
ghost use Rattle.std.specs.List.{list_any};
ghost use Rattle.fu_pool.specs.Takes.{busy, IsTaken};

use std::marker::Model;

/// Whether a unit is free at the cycle.
fn any_free(units: &[u64], cycle: u64) -> bool
    ensures { result ≡ list_any (λ unit. nat_le unit cycle) units.now }
{
    units.iter().any(|unit| *unit <= cycle)
}

/// The first unit that is free at the cycle.
fn first_free(units: &[u64], cycle: u64) -> Option<usize>
    ensures { result ≡ position (λ unit. nat_le unit cycle) units.now }
{
    units.iter().position(|unit| *unit <= cycle)
}

/// The units of a pool, each by the cycle from which it is free.
#[derive(Drop)]
pub struct Timers {
    free_at: [u64; 8],
    count: usize,
}

impl Model for Timers {
    ghost use Rattle.std.specs.Prelude.{List, ℕ, take, ◌≤◌};

    ghost Value = { List ℕ };

    ghost view = { λ s. take s.count s.free_at };

    ghost invariant = { λ s. s.count ≤ 8 };
}

impl Timers {
    /// So many units, all free.
    pub fn new(count: u32) -> Timers
        requires { count ≤ 8 }
        ensures { result ≡ replicate count 0 }
    {
        Timers {
            free_at: [0; 8],
            count: count as usize,
        }
    }

    /// Whether a unit is left at the cycle.
    pub fn is_free(&self, cycle: u64) -> bool
        ensures { IsTrue result ↔ (busy cycle self.now < length self.now) }
    {
        any_free(&self.free_at[..self.count], cycle)
    }

    /// A unit that is free at the cycle is held until another.
    pub fn take(&mut self, cycle: u64, until: u64)
        requires { busy cycle self.old < length self.old }
        ensures { IsTaken cycle until self.old self.new }
    {
        match first_free(&self.free_at[..self.count], cycle) {
            Some(place) => self.free_at[place] = until,
            None => unreachable!(),
        }
    }
}
