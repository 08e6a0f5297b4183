//! The unit.
ghost use Rattle.std.specs.Prelude.{◌≡◌, ◌<◌, ◌↔◌, true, [], Some, IsTrue, IsSome, IfOk, option_map, option_copied};
ghost use Rattle.ruu_core.specs.Window.{HasRoom, MayEnter, rises_to, is_above, is_by, is_ready, may_access, completes, is_unissued, second_done, next, least, passes, is_live, row_of, written_of, first, head_of, may_retire, later, empty, dispatched, at_row, issuing, accessing, squashed, dropped_by, retired};

use crate::ring;
use crate::search::Search;
use crate::slot::{Event, Slot, are_fed};
use crate::station::Station;
use circular_buffer::HeapCircularBuffer;
use ss_base::OutOfMemory;
use std::alloc::Global;
use std::marker::Model;

/// The live rows, the oldest first, the last row that was dispatched, and when the retired ones were done.
#[derive(Drop)]
pub struct Ruu {
    pub(crate) slots: HeapCircularBuffer<Slot>,
    pub(crate) last: Option<u64>,
    pub(crate) past: Option<u64>,
}

impl Model for Ruu {
    ghost use Rattle.ruu_core.specs.Window.{Window};
    ghost use Rattle.ruu_core.specs.Slots.{window_of, IsSound};

    ghost Value = { Window };

    ghost view = { λ u. window_of u.slots u.last u.past };

    ghost invariant = { λ u. IsSound u.slots u.last };
}

/// The later of two cycles.
fn later(a: Option<u64>, b: Option<u64>) -> Option<u64>
    ensures { result ≡ later a b }
{
    match a {
        None => b,
        Some(first) => match b {
            None => Some(first),
            Some(second) => Some(first.max(second)),
        },
    }
}

impl Ruu {
    /// An empty unit for `size` rows, with all the memory that it will ever need.
    ///
    /// # Errors
    /// `OutOfMemory` where there is too little memory.
    pub fn new(alloc: Global, size: u32) -> Result<Ruu, OutOfMemory>
        ensures { IfOk result (λ unit. unit ≡ empty size) }
    {
        Ok(Ruu {
            slots: HeapCircularBuffer::with_capacity(alloc, size as usize)?,
            last: None,
            past: None,
        })
    }

    /// Whether fewer rows are live than there may be. At every moment their numbers rise.
    pub fn room(&self) -> bool
        ensures room { IsTrue result ↔ HasRoom self.now }
        ensures rises { rises_to self.now.last self.now.rows ≡ true }
    {
        self.slots.len() < self.slots.capacity()
    }

    /// Whether no row is live.
    pub fn is_empty(&self) -> bool
        ensures { IsTrue result ↔ (self.now.rows ≡ []) }
    {
        self.slots.is_empty()
    }

    /// A row enters at the cycle, the youngest.
    pub fn dispatch(&mut self, s: Station, cycle: u64)
        requires { MayEnter self.old s cycle }
        ensures { self.new ≡ dispatched s cycle self.old }
    {
        let row = s.row;
        let main = ring::sources(&self.slots, s.main_reads().as_slice());
        let second = ring::sources(&self.slots, s.second_reads().as_slice());
        let writes = s.writes();
        let slot = Slot {
            station: s,
            dispatched: cycle,
            issued: None,
            written: None,
            accessed: None,
            returned: None,
            writes,
            main,
            second,
        };
        match self.slots.try_push_back(slot) {
            Ok(()) => self.last = Some(row),
            Err(_slot) => unreachable!(),
        }
    }

    /// The least row above `after` whose main operation may issue at the cycle: it was dispatched before,
    /// hasn't issued, and the producers of what it reads first are done by the cycle. None exactly
    /// where there is none.
    pub fn next_ready(&self, cycle: u64, after: Option<u64>) -> Option<u64>
        requires { IsTrue (is_above self.now.past cycle) }
        ensures { result ≡ next (is_ready cycle) after self.now.rows }
    {
        ring::least(&self.slots, Search::Ready(cycle), after)
    }

    /// The least row above `after` that is a load whose access may issue at the cycle: its W is by then, it
    /// has no access yet, and the producers of what it reads besides are done by the cycle. None
    /// exactly where there is none.
    pub fn next_access(&self, cycle: u64, after: Option<u64>) -> Option<u64>
        requires { IsTrue (is_above self.now.past cycle) }
        ensures { result ≡ next (may_access cycle) after self.now.rows }
    {
        ring::least(&self.slots, Search::Access(cycle), after)
    }

    /// The least row above `after` that has its W or its MW at this cycle, if there is one.
    pub fn next_done(&self, cycle: u64, after: Option<u64>) -> Option<u64>
        requires { IsTrue (is_above self.now.past cycle) }
        ensures { result ≡ next (completes cycle) after self.now.rows }
    {
        ring::least(&self.slots, Search::Completion(cycle), after)
    }

    /// The least row whose main operation hasn't issued. None exactly where there is none.
    pub fn first_unissued(&self) -> Option<u64>
        ensures { result ≡ least is_unissued self.now.rows }
    {
        ring::least(&self.slots, Search::Unissued, None)
    }

    /// Whether the producers of what the row reads besides are done by the cycle.
    pub fn data_done(&self, row: u64, cycle: u64) -> bool
        requires live { IsTrue (is_live row self.now.rows) }
        requires time { IsTrue (is_above self.now.past cycle) }
        ensures { result ≡ passes (second_done (is_by cycle)) row self.now.rows }
    {
        are_fed(&ring::named(&self.slots, row).second, cycle)
    }

    /// What the row is.
    pub fn station(&self, row: u64) -> &Station
        requires { IsTrue (is_live row self.now.rows) }
        ensures { option_map (λ r. r.station) (row_of row self.now.rows) ≡ Some result.now }
    {
        &ring::named(&self.slots, row).station
    }

    /// The row's W. None exactly where its main operation hasn't issued.
    pub fn written_at(&self, row: u64) -> Option<u64>
        requires { IsTrue (is_live row self.now.rows) }
        ensures { result ≡ written_of row self.now.rows }
    {
        ring::named(&self.slots, row).written
    }

    /// The row's main operation issues at the cycle, and writes back at `done`.
    pub fn issue(&mut self, row: u64, cycle: u64, done: u64)
        requires ready { IsTrue (passes (is_ready cycle) row self.old.rows) }
        requires time { IsTrue (is_above self.old.past cycle) }
        requires after { cycle < done }
        ensures { self.new ≡ at_row row (issuing cycle done) self.old }
    {
        ring::note_from(&mut self.slots, row, &Event::Issued(row, cycle, done));
    }

    /// The row's access issues at the cycle, and returns at `done`.
    pub fn access(&mut self, row: u64, cycle: u64, done: u64)
        requires ready { IsTrue (passes (may_access cycle) row self.old.rows) }
        requires time { IsTrue (is_above self.old.past cycle) }
        requires after { cycle < done }
        ensures { self.new ≡ at_row row (accessing cycle done) self.old }
    {
        ring::note_from(&mut self.slots, row, &Event::Accessed(row, cycle, done));
    }

    /// Drops every row above the named one, and answers how many.
    pub fn squash_after(&mut self, row: u64) -> u32
        ensures rows { self.new ≡ squashed row self.old }
        ensures dropped { result ≡ dropped_by row self.old }
    {
        let count = ring::count_up_to(&self.slots, row);
        let dropped = self.slots.len() - count;
        self.slots.truncate_back(count);
        dropped as u32
    }

    /// The first row, where it is right and was done before the cycle. None exactly where there is none, or it is
    /// wrong or wasn't done before.
    pub fn head(&self, cycle: u64) -> Option<&Station>
        requires { IsTrue (is_above self.now.past cycle) }
        ensures { option_copied result ≡ head_of cycle (first self.now.rows) }
    {
        match self.slots.front() {
            Some(slot) => {
                if slot.commits(cycle) {
                    Some(&slot.station)
                } else {
                    None
                }
            }
            None => None,
        }
    }

    /// The first row leaves. From then on the cycles that calls name are above the one at which it was done.
    pub fn retire(&mut self) -> Station
        requires { IsTrue (may_retire (first self.old.rows)) }
        ensures rows { self.new ≡ retired self.old }
        ensures station { option_map (λ r. r.station) (first self.old.rows) ≡ Some result }
        ensures recorded { IsSome result.commit }
    {
        match self.slots.pop_front() {
            Some(slot) => {
                self.past = later(self.past, slot.finished());
                ring::note(&mut self.slots, &Event::Retired(slot.station.row));
                slot.station
            }
            None => unreachable!(),
        }
    }
}
