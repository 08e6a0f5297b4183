//! The three pools.
ghost use Rattle.std.specs.Prelude.{◌≡◌, ◌+◌, ◌^◌, ◌<◌, ◌≤◌, ◌↔◌, [], ◌∷◌, List, length, IsTrue};
ghost use Rattle.fu_pool.specs.Takes.{Take, held, units_in, IsFree, StandsFor, HoldsMore};

use crate::timers::Timers;
use std::marker::Model;

/// A kind of unit.
#[derive(Clone, Copy, Debug, PartialEq, Eq, Drop)]
pub enum Pool {
    /// Units for arithmetic, logic and addresses.
    Alu,
    /// Units that multiply and divide.
    Mult,
    /// Ports to memory.
    Port,
}

/// The units of the three pools.
#[derive(Drop)]
pub struct Pools {
    alus: Timers,
    mults: Timers,
    ports: Timers,
    last: u64,
}

impl Model for Pools {
    ghost use Rattle.fu_pool.specs.Takes.{Units};

    ghost Value = { Units };

    ghost view = { λ p. record { alus = p.alus; mults = p.mults; ports = p.ports; last = p.last } };
}

impl Pools {
    /// So many units of each pool, at most 8, all free.
    pub fn new(alus: u32, mults: u32, ports: u32) -> Pools
        requires limits { (alus ≤ 8) × (mults ≤ 8) × (ports ≤ 8) }
        ensures sizes { (units_in result Pool.Alu ≡ alus) × (units_in result Pool.Mult ≡ mults)
            × (units_in result Pool.Port ≡ ports) }
        ensures start { result.last ≡ 0 }
        ensures stands { StandsFor result [] }
    {
        Pools {
            alus: Timers::new(alus),
            mults: Timers::new(mults),
            ports: Timers::new(ports),
            last: 0,
        }
    }

    /// Whether fewer units of the pool are held at the cycle than there are.
    pub fn is_free(&self, p: Pool, cycle: u64) -> bool
        requires { self.now.last ≤ cycle }
        ensures test { IsTrue result ↔ IsFree self.now p cycle }
        ensures takes { (takes : List Take) → StandsFor self.now takes
            → IsTrue result ↔ (held p cycle takes < units_in self.now p) }
    {
        match p {
            Pool::Alu => self.alus.is_free(cycle),
            Pool::Mult => self.mults.is_free(cycle),
            Pool::Port => self.ports.is_free(cycle),
        }
    }

    /// Holds a unit of the pool from the cycle on, for `hold` cycles.
    pub fn take(&mut self, p: Pool, cycle: u64, hold: u32)
        requires in_time { self.old.last ≤ cycle }
        requires free { IsFree self.old p cycle }
        requires small { cycle < 2 ^ 62 }
        ensures last { self.new.last ≡ cycle }
        ensures sizes { (q : Pool) → units_in self.new q ≡ units_in self.old q }
        ensures more { HoldsMore p cycle hold self.old self.new }
        ensures stands { (takes : List Take) → StandsFor self.old takes
            → StandsFor self.new (record { pool = p; cycle = cycle; hold = hold } ∷ takes) }
    {
        let until = cycle + hold as u64;
        match p {
            Pool::Alu => self.alus.take(cycle, until),
            Pool::Mult => self.mults.take(cycle, until),
            Pool::Port => self.ports.take(cycle, until),
        }
        self.last = cycle;
    }
}
