//! What the queue learns of stores.
ghost use Rattle.std.specs.Prelude.{◌≡◌, ◌<◌, true, length, reverse, slice_get, Some};
ghost use Rattle.lsq_core.specs.Queue.{holds_store};
ghost use Rattle.ruu_core.specs.Window.{is_above, is_by, is_live};
ghost use Rattle.core_parts.specs.Fits.{address_tags, queue_tags, unit_tags};
ghost use Rattle.core_recovery.specs.Recovery.{address_noted, data_noted, store_learned, learned, learned_of};

use core_parts::{Addresses, MemoryRow};
use lsq_core::Lsq;
use ruu_core::Ruu;

/// Whether a mark is set to the cycle or before.
fn is_by(cycle: u64, mark: Option<u64>) -> bool
    ensures { result ≡ is_by cycle mark }
{
    match mark {
        Some(at) => at <= cycle,
        None => false,
    }
}

/// Notes the address of a store, if it is known.
fn note_address(queue: &mut Lsq, known: bool, row: u64, cycle: u64)
    requires { holds_store row queue.old.entries ≡ true }
    ensures { queue.new ≡ address_noted known row cycle queue.old }
{
    if known {
        queue.know_address(row, cycle);
    }
}

/// Notes the data of a store, if they are done.
fn note_data(queue: &mut Lsq, done: bool, row: u64, cycle: u64)
    requires { holds_store row queue.old.entries ≡ true }
    ensures { queue.new ≡ data_noted done row cycle queue.old }
{
    if done {
        queue.know_data(row, cycle);
    }
}

/// Notes what is known of a store by the cycle.
fn learn_store(queue: &mut Lsq, unit: &Ruu, row: u64, cycle: u64)
    requires held { holds_store row queue.old.entries ≡ true }
    requires live { is_live row unit.now.rows ≡ true }
    requires time { is_above unit.now.past cycle ≡ true }
    ensures { queue.new ≡ store_learned cycle unit.now.rows row queue.old }
{
    let known = is_by(cycle, unit.written_at(row));
    let done = unit.data_done(row, cycle);
    note_address(queue, known, row, cycle);
    note_data(queue, done, row, cycle);
}

/// Notes what is known by the cycle, where the row is a store.
fn learn_row(queue: &mut Lsq, unit: &Ruu, row: &MemoryRow, cycle: u64)
    requires held { row.now.store ≡ true → holds_store row.now.row queue.old.entries ≡ true }
    requires live { is_live row.now.row unit.now.rows ≡ true }
    requires time { is_above unit.now.past cycle ≡ true }
    ensures { queue.new ≡ learned cycle unit.now.rows row.now queue.old }
{
    if row.store {
        learn_store(queue, unit, row.row, cycle);
    }
}

/// The row at a place.
fn row_at(addresses: &Addresses, at: usize) -> &MemoryRow
    requires { at < length addresses.now.rows }
    ensures { slice_get (reverse addresses.now.rows) at ≡ Some result.now }
{
    match addresses.get(at) {
        Some(row) => row,
        None => unreachable!(),
    }
}

/// Notes what is known of all stores by the cycle.
pub fn learn(queue: &mut Lsq, unit: &Ruu, addresses: &Addresses, cycle: u64)
    requires queue { queue_tags queue.old.entries ≡ unit_tags unit.now.rows }
    requires addresses { address_tags addresses.now.rows ≡ unit_tags unit.now.rows }
    requires time { is_above unit.now.past cycle ≡ true }
    ensures { queue.new ≡ learned_of cycle unit.now.rows (reverse addresses.now.rows) queue.old }
{
    for at in 0..addresses.len() {
        learn_row(queue, unit, row_at(addresses, at), cycle);
    }
}
