//! The sizes and rules of the machine.
ghost use Rattle.std.specs.Prelude.{◌↔◌, IsTrue};
ghost use Rattle.mem_hier.specs.Limits.{IsBetween};
ghost use Rattle.ooo_table.specs.Limits.{HasWidths, HasPools, IsAllowed};

/// The sizes of the out-of-order machine, and two rules on issue. `docs/machine-timing.md` has the machine.
#[derive(Clone, Copy, Debug, PartialEq, Eq)]
pub struct OooConfig {
    /// How many fetched rows may wait for their dispatch: 1 to 64.
    pub ifq: u32,
    /// The most rows that are fetched, and the most that are dispatched, in one cycle: 1 to 32.
    pub decode: u32,
    /// The most operations that issue in one cycle: 1 to 32.
    pub issue: u32,
    /// The most rows that commit in one cycle: 1 to 32.
    pub commit: u32,
    /// The most live rows: 2 to 256.
    pub ruu: u32,
    /// The most live loads and stores: 2 to 256.
    pub lsq: u32,
    /// The cycles from a recovery until the next fetch: 1 to 1,000.
    pub penalty: u32,
    /// The ALUs: 1 to 8.
    pub alus: u32,
    /// The multipliers, which divide as well: 1 to 8.
    pub mults: u32,
    /// The memory ports: 1 to 8.
    pub ports: u32,
    /// Whether no main operation issues before those of all older live rows.
    pub in_order: bool,
    /// Whether rows on a wrong path issue.
    pub wrong_issue: bool,
}

/// Whether a number is within these limits.
fn is_between(low: u32, high: u32, n: u32) -> bool
    ensures { IsTrue result ↔ IsBetween low high n }
{
    low <= n && n <= high
}

impl OooConfig {
    fn has_widths(&self) -> bool
        ensures { IsTrue result ↔ HasWidths self.now }
    {
        let front = is_between(1, 64, self.ifq) && is_between(1, 32, self.decode);
        let back = is_between(1, 32, self.issue) && is_between(1, 32, self.commit);
        front && back
    }

    fn has_pools(&self) -> bool
        ensures { IsTrue result ↔ HasPools self.now }
    {
        let units = is_between(1, 8, self.alus) && is_between(1, 8, self.mults);
        units && is_between(1, 8, self.ports)
    }

    /// Whether a machine may have this configuration: each number is within its limits.
    pub fn is_allowed(&self) -> bool
        ensures { IsTrue result ↔ IsAllowed self.now }
    {
        let rows = is_between(2, 256, self.ruu) && is_between(2, 256, self.lsq);
        let rest = rows && is_between(1, 1000, self.penalty);
        self.has_widths() && self.has_pools() && rest
    }
}
