//! The row enters.
ghost use Rattle.std.specs.Prelude.{◌≡◌, ◌+◌, ◌<◌, ◌&&◌, ◌++◌, ◌∷◌, [], length, true, IsTrue, if◌then◌else◌};
ghost use Rattle.std.specs.Option.{ForSome};
ghost use Rattle.pisa_isa.specs.Coding.{IsWellFormed};
ghost use Rattle.lsq_core.specs.Queue.{holds_store, with_data};
ghost use Rattle.ooo_front.specs.Stands.{with_rows};
ghost use Rattle.ruu_core.specs.Window as window;
ghost use Rattle.ruu_core.specs.Window.{MayEnter, is_by, is_live, is_store, passes, second_done, dispatched};
ghost use Rattle.sim_safe.specs.Record.{IsRunTrace};
ghost use Rattle.sim_safe.specs.State.{state_of, reader_of};
ghost use Rattle.sim_safe.specs.Step.{TakesNoMemory, step_of};
ghost use Rattle.core_parts.specs.Addresses.{pushed};
ghost use Rattle.core_parts.specs.Fits.{Fits};
ghost use Rattle.core_dispatch.specs.Verdict.{CanAct, CanBeMade};
ghost use Rattle.core_dispatch.specs.Turn.{right_station, wrong_station, access_in, is_memory, entry_at, entry_of, with_entry, entered_queue, address_at, entered_addresses, TakesEntry, RightTurn, WrongTurn, MakesAny, HasRight, HasWrong, Keeps, WantsNone};

use crate::verdict::{WrongAct, is_call};
use core_parts::{Addresses, Dispatched, MemoryRow, Parts};
use event_trace::Trace;
use lsq_core::Lsq;
use ooo_front::{FetchRow, Front};
use pisa_step::Changes;
use ruu_core::{Ruu, Station};
use sim_safe::{Arch, CommitRecord, Stepped};
use spec_state::{Overlay, SpecView};

/// The station of a right row, by what it did.
fn right_station(head: &FetchRow, did: CommitRecord) -> Station
    ensures { result ≡ right_station head.now did }
{
    Station {
        row: head.row,
        pc: head.pc,
        instr: did.instr,
        inert: false,
        wrong: false,
        predicted: head.next,
        actual: did.next,
        top: head.top,
        commit: Some(did),
    }
}

/// The station of a wrong row.
fn wrong_station(head: &FetchRow, act: &WrongAct) -> Station
    ensures { result ≡ wrong_station head.now act.now }
{
    Station {
        row: head.row,
        pc: head.pc,
        instr: act.instr,
        inert: act.changes.is_none(),
        wrong: true,
        predicted: head.next,
        actual: head.next,
        top: head.top,
        commit: None,
    }
}

/// The effective address of an instruction with these changes, 0 where it has none.
fn access_in(changes: &Option<Changes>) -> u32
    ensures { result ≡ access_in changes.now }
{
    match changes {
        None => 0,
        Some(e) => match e.access {
            None => 0,
            Some(addr) => addr,
        },
    }
}

/// Whether the row is a store whose data are done by the cycle.
fn is_fed_store(unit: &Ruu, row: u64, store: bool, cycle: u64) -> bool
    requires live { IsTrue (is_live row unit.now.rows) }
    requires time { IsTrue (window.is_above unit.now.past cycle) }
    ensures { result ≡ (store && passes (second_done (is_by cycle)) row unit.now.rows) }
{
    if store {
        unit.data_done(row, cycle)
    } else {
        false
    }
}

/// The queue knows of the row's data, if they are done.
fn know(queue: &mut Lsq, row: u64, known: bool, cycle: u64)
    requires { known ≡ true → holds_store row queue.old.entries ≡ true }
    ensures { queue.new ≡ (if known then with_data row cycle queue.old else queue.old) }
{
    if known {
        queue.know_data(row, cycle);
    }
}

/// A load or store enters the queue.
fn enter_queue(unit: &Ruu, queue: &mut Lsq, addresses: &mut Addresses, held: MemoryRow, cycle: u64)
    requires live { IsTrue (is_live held.row unit.now.rows) }
    requires time { IsTrue (window.is_above unit.now.past cycle) }
    requires room { TakesEntry queue.old addresses.old held.row }
    ensures queue { queue.new ≡ with_entry (entry_at held.row held.store held.addr (passes (second_done (is_by cycle)) held.row unit.now.rows) cycle) queue.old }
    ensures addresses { addresses.new ≡ pushed held addresses.old }
{
    let _room = queue.room(); // says that the numbers of the rows that are held rise
    let fed = is_fed_store(unit, held.row, held.store, cycle);
    queue.add(held.row, held.store, held.addr / 8);
    addresses.push(held);
    know(queue, held.row, fed, cycle);
}

/// The row enters the queue where it is a load or store.
fn enter_queue_if(
    memory: bool,
    unit: &Ruu,
    queue: &mut Lsq,
    addresses: &mut Addresses,
    held: MemoryRow,
    cycle: u64,
)
    requires live { IsTrue (is_live held.row unit.now.rows) }
    requires time { IsTrue (window.is_above unit.now.past cycle) }
    requires room { memory ≡ true → TakesEntry queue.old addresses.old held.row }
    ensures queue { queue.new ≡ entered_queue memory (entry_at held.row held.store held.addr (passes (second_done (is_by cycle)) held.row unit.now.rows) cycle) queue.old }
    ensures addresses { addresses.new ≡ entered_addresses memory held addresses.old }
{
    if memory {
        enter_queue(unit, queue, addresses, held, cycle);
    }
}

/// Whether a row is a load or store.
fn is_memory(s: &Station) -> bool
    ensures { result ≡ is_memory s.now }
{
    let load = s.is_load();
    let store = s.is_store();
    load || store
}

/// A row enters the unit and, if it is a load or store, the queue.
fn enter(
    unit: &mut Ruu,
    queue: &mut Lsq,
    addresses: &mut Addresses,
    s: Station,
    addr: u32,
    cycle: u64,
)
    requires unit { MayEnter unit.old s cycle }
    requires queue { is_memory s ≡ true → TakesEntry queue.old addresses.old s.row }
    ensures unit { unit.new ≡ dispatched s cycle unit.old }
    ensures queue { queue.new ≡ entered_queue (is_memory s) (entry_of cycle unit.old s addr) queue.old }
    ensures addresses { addresses.new ≡ entered_addresses (is_memory s) (address_at s addr) addresses.old }
{
    let memory = is_memory(&s);
    let store = s.is_store();
    let held = MemoryRow {
        row: s.row,
        store,
        addr,
    };
    unit.dispatch(s, cycle);
    enter_queue_if(memory, unit, queue, addresses, held, cycle);
}

/// The oldest waiting row leaves the front.
fn leave_front(front: &mut Front, cycle: u64) -> FetchRow
    requires { 0 < length front.old.rows }
    ensures row { front.old ≡ with_rows (front.new.rows ++ result ∷ []) front.new }
    ensures number { result.row + length front.old.rows ≡ front.old.row }
{
    let _head = front.head(cycle); // says that the numbers of the waiting rows follow one another
    front.pop()
}

/// Makes the changes over the state, if there are any.
fn make(arch: &Arch, overlay: &mut Overlay, changes: &Option<Changes>)
    requires room { overlay.old.applied < overlay.old.size }
    requires can { ForSome changes.now CanBeMade }
    ensures { MakesAny (reader_of arch.now) changes.now overlay.old overlay.new }
{
    match changes {
        None => {}
        Some(e) => SpecView {
            base: arch,
            over: overlay,
        }
        .apply(e),
    }
}

/// The right row is dispatched and does the next step.
#[tactic(auto, using(crate::proofs::Admit::keeps_done, crate::proofs::Admit::keeps_same))]
pub fn enter_right(parts: &mut Parts, trace: &Trace, cycle: u64) -> Dispatched
    requires fits { Fits cycle 64 parts.old }
    requires trace { IsRunTrace trace.now }
    requires right { HasRight trace.now cycle parts.old }
    ensures turn { RightTurn trace.now cycle parts.old parts.new result }
    ensures keeps { Keeps parts.old.arch parts.new.arch }
    ensures memory { TakesNoMemory trace.now parts.old.arch.pages (step_of trace.now (state_of parts.old.arch)) → WantsNone result }
{
    match parts.arch.step(trace) {
        Err(_) => Dispatched::OutOfMemory,
        Ok(Stepped::Stop(_)) => unreachable!(),
        Ok(Stepped::Did(did)) => {
            let head = leave_front(&mut parts.front, cycle);
            let call = is_call(did.instr.op);
            let addr = did.access.unwrap_or(0);
            parts.wrong = head.next != did.next;
            let s = right_station(&head, did);
            enter(
                &mut parts.unit,
                &mut parts.queue,
                &mut parts.addresses,
                s,
                addr,
                cycle,
            );
            Dispatched::Row(head.row, call)
        }
    }
}

/// The wrong row is dispatched and acts over the state.
#[tactic(auto, using(crate::proofs::Admit::keeps_all))]
pub fn enter_wrong(parts: &mut Parts, act: &WrongAct, cycle: u64) -> Dispatched
    requires fits { Fits cycle 64 parts.old }
    requires wrong { HasWrong act.now cycle parts.old }
    requires can { CanAct act.now }
    ensures turn { WrongTurn act.now cycle parts.old parts.new result }
    ensures keeps { Keeps parts.old.arch parts.new.arch }
    ensures memory { WantsNone result }
{
    let head = leave_front(&mut parts.front, cycle);
    make(&parts.arch, &mut parts.overlay, &act.changes);
    enter(
        &mut parts.unit,
        &mut parts.queue,
        &mut parts.addresses,
        wrong_station(&head, act),
        access_in(&act.changes),
        cycle,
    );
    Dispatched::Row(head.row, false)
}
