//! The counts.
ghost use Rattle.std.specs.Prelude.{◌≡◌, count_by};
ghost use Rattle.core_statistics.specs.Counted.{raised, no_counts, is_hit, is_forwarding, with_commit, with_recovery, with_issues, with_dispatches, with_fetches, with_cycle};

use core_parts::Issued;
use pisa_isa::ControlKind;
use ruu_core::Station;
use sim_safe::Statistics;

/// What is counted of the timed part of a run, wrong paths among it where it says so.
#[derive(Clone, Copy, Debug, PartialEq, Eq)]
pub struct CoreStats {
    /// Committed instructions.
    pub insn: u64,
    /// Loads among them.
    pub loads: u64,
    /// Stores among them.
    pub stores: u64,
    /// Branches and jumps among them.
    pub branches: u64,
    /// System calls among them.
    pub calls: u64,
    /// Cycles.
    pub cycles: u64,
    /// Rows of any path that were fetched.
    pub fetched: u64,
    /// Rows of any path that were dispatched.
    pub dispatched: u64,
    /// Rows that were squashed.
    pub squashed: u64,
    /// Recoveries from a wrong path.
    pub recoveries: u64,
    /// Loads of any path that got their value from an older store.
    pub forwarded: u64,
    /// Committed branches and jumps whose predicted address was the next one.
    pub addr_hits: u64,
}

/// Whether a row that commits is a branch or jump whose predicted address was the next one.
fn is_hit(s: &Station) -> bool
    ensures { result ≡ is_hit s.now }
{
    pisa_isa::control(&s.instr) != ControlKind::Nothing && s.predicted == s.actual
}

/// Whether an older store gives the value of what issued.
fn is_forwarding(issued: &Issued) -> bool
    ensures { result ≡ is_forwarding issued.now }
{
    match *issued {
        Issued::Access(_, forwarded) => forwarded,
        Issued::Main(_) => false,
    }
}

impl CoreStats {
    /// Nothing is counted.
    pub fn none() -> CoreStats
        ensures { result ≡ no_counts }
    {
        CoreStats {
            insn: 0,
            loads: 0,
            stores: 0,
            branches: 0,
            calls: 0,
            cycles: 0,
            fetched: 0,
            dispatched: 0,
            squashed: 0,
            recoveries: 0,
            forwarded: 0,
            addr_hits: 0,
        }
    }

    /// Counts a row that commits.
    pub fn count_commit(&mut self, s: &Station)
        ensures { self.new ≡ with_commit s.now self.old }
    {
        let mut done = Statistics {
            insn: self.insn,
            loads: self.loads,
            stores: self.stores,
            branches: self.branches,
            calls: self.calls,
        };
        done.count(&s.instr);
        self.insn = done.insn;
        self.loads = done.loads;
        self.stores = done.stores;
        self.branches = done.branches;
        self.calls = done.calls;
        self.addr_hits = self.addr_hits.saturating_add(u64::from(is_hit(s)));
    }

    /// Counts a recovery by which so many rows were squashed.
    pub fn count_recovery(&mut self, squashed: u64)
        ensures { self.new ≡ with_recovery squashed self.old }
    {
        self.recoveries = self.recoveries.saturating_add(1);
        self.squashed = self.squashed.saturating_add(squashed);
    }

    /// Counts what issued in a cycle.
    pub fn count_issues(&mut self, issued: &[Issued])
        ensures { self.new ≡ with_issues issued.now self.old }
    {
        let forwarded = issued.iter().filter(|x| is_forwarding(x)).count();
        self.forwarded = self.forwarded.saturating_add(forwarded as u64);
    }

    /// Counts so many rows that were dispatched.
    pub fn count_dispatches(&mut self, dispatched: u64)
        ensures { self.new ≡ with_dispatches dispatched self.old }
    {
        self.dispatched = self.dispatched.saturating_add(dispatched);
    }

    /// Counts so many rows that were fetched.
    pub fn count_fetches(&mut self, fetched: u64)
        ensures { self.new ≡ with_fetches fetched self.old }
    {
        self.fetched = self.fetched.saturating_add(fetched);
    }

    /// Counts a cycle.
    pub fn count_cycle(&mut self)
        ensures { self.new ≡ with_cycle self.old }
    {
        self.cycles = self.cycles.saturating_add(1);
    }
}
