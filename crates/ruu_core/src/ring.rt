//! Walks over the ring.
ghost use Rattle.std.specs.Prelude.{◌≡◌, ◌<◌, ◌≤◌, length, find, map, take, reverse, slice_get, slice_set, Some, IsTrue, option_copied, nat_lt, if◌then◌else◌};
ghost use Rattle.std.specs.List.{list_any};
ghost use Rattle.circular_buffer.specs.Buffer.{buffer};
ghost use Rattle.ruu_core.specs.declared.slot.Slot.{Slot};
ghost use Rattle.ruu_core.specs.Slots.{least_of, source_behind, source_for, sources_behind, slot_after, slot_named, up_to, rises_from, place_of, place_behind};

use crate::search::Search;
use crate::slot::{Event, Slot, Source};
use circular_buffer::HeapCircularBuffer;
use pisa_isa::Place;

/// The slot at a place.
pub fn slot_at(slots: &HeapCircularBuffer<Slot>, at: usize) -> &Slot
    requires { at < length slots.now.items }
    ensures { slice_get slots.now.items at ≡ Some result.now }
{
    match slots.get(at) {
        Some(slot) => slot,
        None => unreachable!(),
    }
}

/// How many of the oldest slots are below the row, by halving.
fn halved(slots: &HeapCircularBuffer<Slot>, row: u64) -> usize
    requires { IsTrue (rises_from 0 slots.now.items) }
    ensures { result ≡ place_of row slots.now.items }
{
    let mut low = 0;
    let mut high = slots.len();
    'halves: while low < high {
        let middle = low + (high - low) / 2;
        let slot = slot_at(slots, middle);
        if slot.station.row < row {
            low = middle + 1;
        } else {
            high = middle;
        }
    }
    low
}

/// How many of the oldest slots are below the row.
fn place_of(slots: &HeapCircularBuffer<Slot>, row: u64) -> usize
    requires { IsTrue (rises_from 0 slots.now.items) }
    ensures { result ≡ place_of row slots.now.items }
{
    let first = match slots.front() {
        Some(slot) => slot.station.row,
        None => 0,
    };
    let guess = row.saturating_sub(first) as usize; // where no row between them was dropped
    match slots.get(guess) {
        Some(slot) if slot.station.row == row => guess,
        _ => halved(slots, row),
    }
}

/// How many of the oldest slots are below the row, if there is one.
fn place_behind(slots: &HeapCircularBuffer<Slot>, after: Option<u64>) -> usize
    requires { IsTrue (rises_from 0 slots.now.items) }
    ensures { result ≡ place_behind after slots.now.items }
{
    match after {
        Some(row) => place_of(slots, row),
        None => 0,
    }
}

/// The least row of these slots, the oldest first, that is above a number and passes.
fn least_among(slots: &[Slot], what: Search, after: Option<u64>) -> Option<u64>
    ensures { result ≡ least_of what after slots.now }
{
    for slot in slots {
        if what.passes_above(after, slot) {
            return Some(slot.station.row);
        }
    }
    None
}

/// The least row above a number that passes.
pub fn least(slots: &HeapCircularBuffer<Slot>, what: Search, after: Option<u64>) -> Option<u64>
    requires { IsTrue (rises_from 0 slots.now.items) }
    ensures { result ≡ least_of what after slots.now.items }
{
    let from = place_behind(slots, after);
    let (older, newer) = slots.as_slices();
    if from < older.len() {
        match least_among(older.split_at(from).1, what, after) {
            Some(row) => Some(row),
            None => least_among(newer, what, after),
        }
    } else {
        least_among(newer.split_at(from - older.len()).1, what, after)
    }
}

/// The slot of a live row.
pub fn named(slots: &HeapCircularBuffer<Slot>, row: u64) -> &Slot
    requires live { IsTrue (list_any (slot_named row) slots.now.items) }
    requires rises { IsTrue (rises_from 0 slots.now.items) }
    ensures { find (slot_named row) slots.now.items ≡ Some result.now }
{
    slot_at(slots, place_of(slots, row))
}

/// What a reader of the place behind all slots waits for: the newest that writes it.
fn source(slots: &HeapCircularBuffer<Slot>, place: Place) -> Source
    ensures { result ≡ source_behind place (reverse slots.now.items) }
{
    let count = slots.len();
    for at in (0..count).rev() {
        let writer = slot_at(slots, at);
        if writer.writes_place(place) {
            return writer.source();
        }
    }
    Source::NONE
}

fn source_for(slots: &HeapCircularBuffer<Slot>, place: Option<&Place>) -> Source
    ensures { result ≡ source_for (option_copied place.entry) (reverse slots.now.items) }
{
    match place {
        Some(place) => source(slots, *place),
        None => Source::NONE,
    }
}

/// What a reader of up to three places behind all slots waits for.
pub fn sources(slots: &HeapCircularBuffer<Slot>, places: &[Place]) -> [Source; 3]
    ensures { result ≡ sources_behind places.now (reverse slots.now.items) }
{
    [
        source_for(slots, places.get(0)),
        source_for(slots, places.get(1)),
        source_for(slots, places.get(2)),
    ]
}

/// How many slots, from the oldest on, are not above the row.
pub fn count_up_to(slots: &HeapCircularBuffer<Slot>, row: u64) -> usize
    ensures within { result ≤ length slots.now.items }
    ensures slots { reverse (take result slots.now.items) ≡ up_to row (reverse slots.now.items) }
{
    let mut count = 0;
    for at in 0..slots.len() {
        if slot_at(slots, at).station.row <= row {
            count = at + 1;
        }
    }
    count
}

fn note_at(slots: &mut HeapCircularBuffer<Slot>, at: usize, event: &Event)
    requires { at < length slots.old.items }
    ensures { (x : Slot) → slice_get slots.old.items at ≡ Some x
        → slots.new ≡ buffer (slice_set slots.old.items at (slot_after event.now x)) slots.old.capacity }
{
    match slots.get_mut(at) {
        Some(slot) => slot.note(event),
        None => unreachable!(),
    }
}

/// Tells every slot what happens to a row.
pub fn note(slots: &mut HeapCircularBuffer<Slot>, event: &Event)
    ensures { slots.new ≡ buffer (map (slot_after event.now) slots.old.items) slots.old.capacity }
{
    for at in 0..slots.len() {
        note_at(slots, at, event);
    }
}

fn note_from_at(slots: &mut HeapCircularBuffer<Slot>, at: usize, row: u64, event: &Event)
    requires { at < length slots.old.items }
    ensures { (x : Slot) → slice_get slots.old.items at ≡ Some x
        → slots.new ≡ buffer (slice_set slots.old.items at (if nat_lt x.station.row row then x else slot_after event.now x)) slots.old.capacity }
{
    match slots.get_mut(at) {
        Some(slot) => slot.note_from(row, event),
        None => unreachable!(),
    }
}

/// Tells the slots from a row on what happens to it.
pub fn note_from(slots: &mut HeapCircularBuffer<Slot>, row: u64, event: &Event)
    requires { IsTrue (rises_from 0 slots.old.items) }
    ensures { slots.new ≡ buffer (map (λ x. if nat_lt x.station.row row then x else slot_after event.now x) slots.old.items) slots.old.capacity }
{
    let from = place_of(slots, row);
    for at in from..slots.len() {
        note_from_at(slots, at, row, event);
    }
}
