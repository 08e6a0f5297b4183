//! A slot of the ring: a row with its marks, and with what it waits for.
ghost use Rattle.std.specs.Prelude.{◌≡◌, ◌&&◌, ◌||◌, not, false, is_none, map, nat_lt, if◌then◌else◌};
ghost use Rattle.std.specs.List.{list_any};
ghost use Rattle.ruu_core.specs.Window.{is_at, is_by, is_before, same_place, finished};
ghost use Rattle.ruu_core.specs.Slots.{shown, source_of, no_source, is_fed, are_fed, source_after, sources_after, marked, slot_after};

use crate::station::Station;
use arrayvec::ArrayVec;
use pisa_isa::Place;

/// The row that produces what is read, if there is one in flight, and when it is done.
#[derive(Clone, Copy, Debug)]
pub struct Source {
    pub row: Option<u64>,
    pub load: bool,
    pub done: Option<u64>,
}

/// What happens to a row: the number of the row, the cycle, and the cycle at which it is done.
#[derive(Clone, Copy, Debug)]
pub enum Event {
    Issued(u64, u64, u64),
    Accessed(u64, u64, u64),
    Retired(u64),
}

impl Event {
    /// The row to which it happens. Sources of other rows stay.
    fn row(&self) -> u64
        ensures { (x : Source) → is_at result x.row ≡ false → source_after self.now x ≡ x }
    {
        match *self {
            Event::Issued(row, _, _) => row,
            Event::Accessed(row, _, _) => row,
            Event::Retired(row) => row,
        }
    }
}

/// A dispatched row with its marks, the places that it writes, and the sources of what it reads.
#[derive(Drop)]
pub struct Slot {
    pub station: Station,
    pub dispatched: u64,
    pub issued: Option<u64>,
    pub written: Option<u64>,
    pub accessed: Option<u64>,
    pub returned: Option<u64>,
    pub writes: ArrayVec<Place, 2>,
    pub main: [Source; 3],
    pub second: [Source; 3],
}

/// Whether a mark is set to the cycle.
pub fn is_at(cycle: u64, mark: Option<u64>) -> bool
    ensures { result ≡ is_at cycle mark }
{
    match mark {
        Some(at) => at == cycle,
        None => false,
    }
}

/// Whether a mark is set to the cycle or before.
pub fn is_by(cycle: u64, mark: Option<u64>) -> bool
    ensures { result ≡ is_by cycle mark }
{
    match mark {
        Some(at) => at <= cycle,
        None => false,
    }
}

/// Whether a mark is set before the cycle.
fn is_before(cycle: u64, mark: Option<u64>) -> bool
    ensures { result ≡ is_before cycle mark }
{
    match mark {
        Some(at) => at < cycle,
        None => false,
    }
}

fn same_place(a: Place, b: Place) -> bool
    ensures { result ≡ same_place a b }
{
    match a {
        Place::Reg(m) => match b {
            Place::Reg(n) => m == n,
            _ => false,
        },
        Place::Hi => matches!(b, Place::Hi),
        Place::Lo => matches!(b, Place::Lo),
    }
}

impl Source {
    /// Nothing is waited for.
    pub const NONE: Source = Source {
        row: None,
        load: false,
        done: None,
    };

    fn is_fed(&self, cycle: u64) -> bool
        ensures { result ≡ is_fed (is_by cycle) self.now }
    {
        self.row.is_none() || is_by(cycle, self.done)
    }

    /// Takes over what happens to a row, where that row is its own.
    #[inline(never)]
    fn renew(&mut self, event: &Event)
        ensures { self.new ≡ source_after event.now self.old }
    {
        match *event {
            Event::Issued(row, _, done) => {
                if is_at(row, self.row) && !self.load {
                    self.done = Some(done);
                }
            }
            Event::Accessed(row, _, done) => {
                if is_at(row, self.row) && self.load {
                    self.done = Some(done);
                }
            }
            Event::Retired(row) => {
                if is_at(row, self.row) {
                    self.row = None;
                }
            }
        }
    }

    /// Notes what happens to the row.
    #[inline(always)]
    fn note(&mut self, row: u64, event: &Event)
        requires { (x : Source) → is_at row x.row ≡ false → source_after event.now x ≡ x }
        ensures { self.new ≡ source_after event.now self.old }
    {
        if is_at(row, self.row) {
            self.renew(event);
        }
    }
}

/// Whether all that is waited for is done by the cycle.
pub fn are_fed(sources: &[Source], cycle: u64) -> bool
    ensures { result ≡ are_fed (is_by cycle) sources.now }
{
    sources.iter().all(|source| source.is_fed(cycle))
}

/// Notes in all of them what happens to the row.
#[inline(always)]
fn note_all(sources: &mut [Source], row: u64, event: &Event)
    requires { (x : Source) → is_at row x.row ≡ false → source_after event.now x ≡ x }
    ensures { sources.new ≡ map (source_after event.now) sources.old }
{
    for source in sources.iter_mut() {
        source.note(row, event);
    }
}

impl Slot {
    /// When it is finished: a load at its return, any other row when it writes back.
    pub fn finished(&self) -> Option<u64>
        ensures { result ≡ finished (shown self.now) }
    {
        if self.station.is_load() {
            self.returned
        } else {
            self.written
        }
    }

    /// Whether it is right and finished before the cycle.
    pub fn commits(&self, cycle: u64) -> bool
        ensures { result ≡ (not self.now.station.wrong && is_before cycle (finished (shown self.now))) }
    {
        !self.station.wrong && is_before(cycle, self.finished())
    }

    /// Whether it writes the place.
    pub fn writes_place(&self, place: Place) -> bool
        ensures { result ≡ list_any (λ w. same_place w place) self.now.writes.items }
    {
        self.writes
            .iter()
            .any(|written| same_place(*written, place))
    }

    /// What a reader of its places waits for.
    pub fn source(&self) -> Source
        ensures { result ≡ source_of self.now }
    {
        Source {
            row: Some(self.station.row),
            load: self.station.is_load(),
            done: self.finished(),
        }
    }

    fn mark(&mut self, event: &Event)
        ensures { self.new ≡ marked event.now self.old }
    {
        match *event {
            Event::Issued(row, cycle, done) => {
                if self.station.row == row {
                    self.issued = Some(cycle);
                    self.written = Some(done);
                }
            }
            Event::Accessed(row, cycle, done) => {
                if self.station.row == row {
                    self.accessed = Some(cycle);
                    self.returned = Some(done);
                }
            }
            Event::Retired(_) => {}
        }
    }

    /// Notes what happens to a row.
    pub fn note(&mut self, event: &Event)
        ensures { self.new ≡ slot_after event.now self.old }
    {
        let row = event.row();
        self.mark(event);
        note_all(&mut self.main, row, event);
        note_all(&mut self.second, row, event);
    }

    /// Notes what happens to a row, where it isn't a younger one.
    pub fn note_from(&mut self, row: u64, event: &Event)
        ensures { self.new ≡ (if nat_lt self.old.station.row row then self.old else slot_after event.now self.old) }
    {
        if row <= self.station.row {
            self.note(event);
        }
    }
}
