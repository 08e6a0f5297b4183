//! What a row that commits does besides leaving the unit.
ghost use Rattle.std.specs.Prelude.{◌≡◌, ◌<◌, ◌≤◌, ◌^◌, true, Some};
ghost use Rattle.bpred_unit.specs.Stands.{cells_of};
ghost use Rattle.fu_pool.specs.declared.pools.Pool.TheVariants as pool;
ghost use Rattle.fu_pool.specs.Takes.{IsFree};
ghost use Rattle.lsq_core.specs.Queue.{first_row};
ghost use Rattle.mem_hier.specs.Stands.{references_of, last_cycle_of};
ghost use Rattle.ooo_table.specs.Machine.{is_control};
ghost use Rattle.pisa_isa.specs.Classes.{control_of};
ghost use Rattle.ruu_core.specs.Window.{is_store};
ghost use Rattle.core_commit.specs.Turn.{stored_address, was_taken, is_memory, Refers, Teaches, left_queue, left_addresses};

use bpred_unit::Predictor;
use core_parts::Addresses;
use fu_pool::{Pool, Pools};
use lsq_core::Lsq;
use mem_hier::Hier;
use pisa_isa::ControlKind;
use ruu_core::Station;

/// The address to which a row stores, 0 where it has none.
fn stored_address(s: &Station) -> u32
    ensures { result ≡ stored_address s.now }
{
    match &s.commit {
        Some(did) => match did.access {
            Some(addr) => addr,
            None => 0,
        },
        None => 0,
    }
}

/// Whether a row was taken.
fn was_taken(s: &Station) -> bool
    ensures { result ≡ was_taken s.now }
{
    match &s.commit {
        Some(did) => did.taken,
        None => false,
    }
}

/// Whether an instruction of this kind is a branch or jump.
fn is_control(kind: ControlKind) -> bool
    ensures { result ≡ is_control kind }
{
    match kind {
        ControlKind::Nothing => false,
        ControlKind::Cond => true,
        ControlKind::Jump => true,
        ControlKind::Call => true,
        ControlKind::Return => true,
    }
}

/// Whether a row is a load or store.
fn is_memory(s: &Station) -> bool
    ensures { result ≡ is_memory s.now }
{
    let load = s.is_load();
    let store = s.is_store();
    load || store
}

/// A load or store leaves the queue.
pub fn leave_queue(queue: &mut Lsq, addresses: &mut Addresses, s: &Station)
    requires { is_memory s.now ≡ true → first_row queue.old.entries ≡ Some s.now.row }
    ensures queue { queue.new ≡ left_queue (is_memory s.now) queue.old }
    ensures addresses { addresses.new ≡ left_addresses (is_memory s.now) addresses.old }
{
    if is_memory(s) {
        queue.retire(s.row);
        addresses.retire();
    }
}

/// A store takes a port and makes its reference.
pub fn refer(pools: &mut Pools, hier: &mut Hier, s: &Station, cycle: u64)
    requires free { is_store s.now ≡ true → IsFree pools.old pool.Port cycle }
    requires time { (pools.old.last ≤ cycle) × (last_cycle_of hier.old ≤ cycle) × (cycle < 2 ^ 62) }
    requires references { references_of hier.old < 2 ^ 60 }
    ensures { Refers (is_store s.now) cycle (stored_address s.now) pools.old pools.new hier.old hier.new }
{
    if s.is_store() {
        pools.take(Pool::Port, cycle, 1);
        hier.store(stored_address(s), cycle);
    }
}

/// A branch or jump updates the predictor.
pub fn teach(predictor: &mut Predictor, s: &Station)
    ensures teaches { Teaches (is_control (control_of s.now.instr)) s.now predictor.old predictor.new }
    ensures cells { cells_of predictor.new ≡ cells_of predictor.old }
{
    if is_control(pisa_isa::control(&s.instr)) {
        predictor.update(s.pc, &s.instr, was_taken(s), s.actual);
    }
}
