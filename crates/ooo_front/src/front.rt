//! The front end.
ghost use Rattle.std.specs.Prelude.{◌≡◌, ◌+◌, ◌-◌, ◌^◌, ◌<◌, ◌≤◌, ◌↔◌, List, [], ◌∷◌, ◌++◌, length, reverse, All, IsNone, IfOk, option_copied, if◌then◌else◌};
ghost use Rattle.mem_hier.specs.declared.config.HierConfig.{HierConfig};
ghost use Rattle.mem_hier.specs.Replay.{Reference, Fetch, latency_of, fetch_hit_of};
ghost use Rattle.mem_hier.specs.Stands.{StandsFor, references_of, last_cycle_of};
ghost use Rattle.bpred_unit.specs.declared.config.PredConfig.{PredConfig};
ghost use Rattle.ooo_front.specs.Fetching.{Stage, may_fetch, with_row, next_row, fetch_one, fetch_cycle, queued_at, with_reference};
ghost use Rattle.ooo_front.specs.Path.{AreInOrder, IsPath};
ghost use Rattle.ooo_front.specs.Stands.{Stands, MayFollow, MayFetchOne, MayWait, IsNext, Refers, LooksUp, Counts, started, oldest, queued_before, with_rows, redirected};

use crate::row::{FetchRow, looked_up};
use arrayvec::ArrayVec;
use bpred_unit::Predictor;
use circular_buffer::HeapCircularBuffer;
use ecoff_load::Text;
use mem_hier::Hier;
use ss_base::OutOfMemory;
use std::alloc::Global;
use std::marker::Model;

/// The rows that were fetched and wait, the oldest first, and where fetching goes on.
///
/// `docs/machine-timing.md` has the rules.
#[derive(Drop)]
pub struct Front {
    queue: HeapCircularBuffer<FetchRow>,
    width: u32,
    row: u64,
    pc: u32,
    earliest: u64,
    cycle: u64,
}

impl Model for Front {
    ghost use Rattle.ooo_front.specs.Fetching.{FrontEnd};

    ghost Value = { FrontEnd };

    ghost use Rattle.ooo_front.specs.Shown.{shown, IsSoundInside};

    ghost view = { shown };

    ghost invariant = { IsSoundInside };
}

/// The cycle in which a row is queued that is fetched in this cycle. For an instruction in text a fetch reference is
/// made, and what its first level takes for a lookup isn't waited for.
fn queue_cycle(hier: &mut Hier, pc: u32, cycle: u64, is_text: bool) -> u64
    requires order { last_cycle_of hier.old ≤ cycle }
    requires cycle { cycle < 2 ^ 62 }
    requires references { references_of hier.old < 2 ^ 60 }
    ensures answer { (c : HierConfig) (h : List Reference) → StandsFor hier.old c h
        → result ≡ (if is_text then cycle + (latency_of c h (Fetch pc cycle) - fetch_hit_of c) else cycle) }
    ensures stands { (c : HierConfig) (h : List Reference) → StandsFor hier.old c h
        → StandsFor hier.new c (if is_text then Fetch pc cycle ∷ h else h) }
    ensures refers { Refers hier.old hier.new 1 cycle }
    ensures later { cycle ≤ result }
{
    if is_text {
        let latency = hier.fetch(pc, cycle);
        cycle + u64::from(latency.saturating_sub(hier.fetch_hit()))
    } else {
        cycle
    }
}

impl Front {
    /// A front for up to `ifq` waiting rows, which fetches up to `width` rows in a cycle and begins at `pc` in cycle 0. It
    /// takes all the memory that it will ever need.
    ///
    /// # Errors
    /// `OutOfMemory` where there is too little memory.
    pub fn new(alloc: Global, ifq: u32, width: u32, pc: u32) -> Result<Front, OutOfMemory>
        requires { width ≤ 32 }
        ensures { IfOk result (λ front. front ≡ started ifq width pc) }
    {
        Ok(Front {
            queue: HeapCircularBuffer::with_capacity(alloc, ifq as usize)?,
            width,
            row: 0,
            pc,
            earliest: 0,
            cycle: 0,
        })
    }

    /// Fetches what the cycle fetches, and answers it, the first row first.
    ///
    /// The cycle is above that of the call before, and below 2^62.
    pub fn fetch_cycle(
        &mut self,
        cycle: u64,
        text: &Text,
        hier: &mut Hier,
        pred: &mut Predictor,
    ) -> ArrayVec<FetchRow, 32>
        requires { MayFollow self.old hier.old cycle }
        ensures fetched { (c : HierConfig) (p : PredConfig) (s : Stage) → Stands self.old hier.old pred.old c p s
            → Stands self.new hier.new pred.new c p (fetch_cycle c p text.now cycle s) }
        ensures rows { self.new.rows ≡ reverse result.items ++ self.old.rows }
        ensures counts { Counts self.old self.new result.items cycle }
        ensures asks { Refers hier.old hier.new (length result.items) cycle × LooksUp pred.old pred.new result.items }
    {
        self.begin(cycle);
        let mut rows = ArrayVec::new();
        for _ in 0..self.width {
            if !self.may_fetch(cycle) {
                return rows;
            }
            rows.push(self.fetch_one(cycle, text, hier, pred));
        }
        rows
    }

    /// The oldest waiting row, where it is queued before the cycle. None exactly where no row is. The rows that wait are
    /// one predicted path at every moment: their numbers rise, and none is queued before an older one.
    pub fn head(&self, cycle: u64) -> Option<&FetchRow>
        ensures row { option_copied result ≡ queued_before cycle (oldest self.now.rows) }
        ensures none { IsNone result ↔ All (λ (r : FetchRow). cycle ≤ r.queued) self.now.rows }
        ensures order { AreInOrder self.now.rows }
        ensures path { IsPath self.now.rows self.now.row self.now.pc self.now.earliest }
    {
        match self.queue.front() {
            Some(row) => { if row.queued < cycle { Some(row) } else { None } }
            None => None,
        }
    }

    /// The number of the next row, which is how many rows were fetched so far.
    pub fn next_number(&self) -> u64
        ensures { result ≡ self.now.row }
    {
        self.row
    }

    /// Takes the oldest row out.
    pub fn pop(&mut self) -> FetchRow
        requires { 0 < length self.old.rows }
        ensures { self.old ≡ with_rows (self.new.rows ++ result ∷ []) self.new }
    {
        match self.queue.pop_front() {
            Some(row) => row,
            None => unreachable!(),
        }
    }

    /// Drops all rows, and answers how many. Fetching goes on at `pc`, in the cycle `earliest` or later. Numbers of rows
    /// go on.
    pub fn redirect(&mut self, pc: u32, earliest: u64) -> u32
        ensures front { self.new ≡ redirected pc earliest self.old }
        ensures dropped { result ≡ length self.old.rows }
    {
        let dropped = self.queue.len() as u32;
        self.queue.clear();
        self.pc = pc;
        self.earliest = earliest;
        dropped
    }

    /// From now on each cycle is above this one.
    fn begin(&mut self, cycle: u64)
        requires { cycle < 2 ^ 62 }
        ensures { self.new ≡ record self.old { cycle = cycle + 1 } }
    {
        self.cycle = cycle + 1;
    }

    /// Whether a row may be fetched in the cycle.
    fn may_fetch(&self, cycle: u64) -> bool
        ensures { result ≡ may_fetch cycle self.now }
    {
        self.earliest <= cycle && self.queue.len() < self.queue.capacity()
    }

    /// The row waits, and the next row is the one behind it.
    fn put(&mut self, row: FetchRow)
        requires { MayWait self.old row }
        ensures { self.new ≡ with_row row self.old }
    {
        match self.queue.try_push_back(row) {
            Ok(()) => {
                self.row = row.row + 1;
                self.pc = row.next;
                self.earliest = row.earliest_after();
            }
            Err(_row) => unreachable!(),
        }
    }

    /// Fetches the next row in the cycle.
    fn fetch_one(
        &mut self,
        cycle: u64,
        text: &Text,
        hier: &mut Hier,
        pred: &mut Predictor,
    ) -> FetchRow
        requires { MayFetchOne self.old hier.old cycle }
        ensures stands { (c : HierConfig) (p : PredConfig) (s : Stage) → Stands self.old hier.old pred.old c p s
            → Stands self.new hier.new pred.new c p (fetch_one c p text.now cycle s) }
        ensures front { self.new ≡ with_row result self.old }
        ensures next { IsNext self.old result cycle }
        ensures asks { Refers hier.old hier.new 1 cycle × LooksUp pred.old pred.new (result ∷ []) }
    {
        let pc = self.pc;
        let words = text.at(pc);
        let (a, b) = words.unwrap_or((0, 0));
        let queued = queue_cycle(hier, pc, cycle, words.is_some());
        let look = pred.lookup(pc, &looked_up(a, b));
        let row = FetchRow {
            row: self.row,
            pc,
            a,
            b,
            next: look.next,
            top: look.top,
            fetched: cycle,
            queued,
        };
        self.put(row);
        row
    }
}
