//! Rows, by what their instructions do.
ghost use Rattle.std.specs.Prelude.{◌≡◌, ◌==◌, ◌&&◌, ◌||◌, not, is_some, if◌then◌else◌};
ghost use Rattle.pisa_isa.specs.Coding.{IsWellFormed};
ghost use Rattle.sim_safe.specs.State.{State};
ghost use Rattle.sim_safe.specs.Step.{is_call, outcome_of};
ghost use Rattle.ooo_table.specs.Execution.{is_load, is_store, address};
ghost use Rattle.ooo_table.specs.Machine.{is_control, memory_use, done_as, halted_as, executed_as};
ghost use Rattle.plain_machine.specs.Performed.{row_by, IsFormed};

use ooo_plain::{Places, Row};
use pisa_isa::{AccessKind, ControlKind, Instr, Op, UnitClass};
use sim_safe::{CommitRecord, Stepped};

/// What is settled of a row when it is fetched, but for the state on which it acts.
#[derive(Clone, Copy, Debug)]
pub struct Fetched {
    /// Its address.
    pub pc: u32,
    /// The address that was predicted to come next.
    pub predicted: u32,
    /// The top of the return stack right after the row's look-up.
    pub top: u32,
    /// Whether it is on the right path.
    pub right: bool,
    /// The cycle of its fetch.
    pub at: u64,
    /// The cycle at which its words are there.
    pub queued: u64,
    /// Its instruction, as the predictor sees it.
    pub instr: Instr,
}

/// Whether an operation is a system call.
pub fn is_call(op: Op) -> bool
    ensures { result ≡ is_call op }
{
    match op {
        Op::Syscall => true,
        _ => false,
    }
}

/// Whether instructions of this kind are branches or jumps.
fn is_control(kind: ControlKind) -> bool
    ensures { result ≡ is_control kind }
{
    match kind {
        ControlKind::Nothing => false,
        ControlKind::Cond => true,
        ControlKind::Jump => true,
        ControlKind::Call => true,
        ControlKind::Return => true,
    }
}

/// Whether it loads: an access of this kind, at this address.
fn loads(kind: AccessKind, access: Option<u32>) -> bool
    ensures { result ≡ is_load (memory_use kind access) }
{
    match (kind, access) {
        (AccessKind::Load, Some(_)) => true,
        _ => false,
    }
}

/// Whether it stores.
fn stores(kind: AccessKind, access: Option<u32>) -> bool
    ensures { result ≡ is_store (memory_use kind access) }
{
    match (kind, access) {
        (AccessKind::Store, Some(_)) => true,
        _ => false,
    }
}

/// Its effective address, 0 where it neither loads nor stores.
fn address(kind: AccessKind, access: Option<u32>) -> u32
    ensures { result ≡ address (memory_use kind access) }
{
    match (kind, access) {
        (AccessKind::Load, Some(at)) => at,
        (AccessKind::Store, Some(at)) => at,
        _ => 0,
    }
}

/// Whether a row is mispredicted.
fn is_mispredicted(right: bool, stops: bool, predicted: u32, next: u32) -> bool
    ensures { result ≡ (right && not stops && not (predicted == next)) }
{
    let follows = predicted == next;
    right && !stops && !follows
}

/// The address of the next instruction, where it is kept.
fn next_if(kept: bool, next: u32) -> u32
    ensures { result ≡ (if kept then next else 0) }
{
    if kept { next } else { 0 }
}

fn either(a: bool, b: bool) -> bool
    ensures { result ≡ (a || b) }
{
    a || b
}

fn both(a: bool, b: bool) -> bool
    ensures { result ≡ (a && b) }
{
    a && b
}

/// The row of an instruction that was done. The program has exited by it, or not.
fn done_row(f: &Fetched, did: &CommitRecord, exits: bool) -> Row
    requires { IsWellFormed did.now.instr }
    ensures { (after : State) → exits ≡ is_some after.ended → result ≡ row_by f.now (done_as did.now after) }
{
    let control = is_control(pisa_isa::control(&did.instr));
    let kind = pisa_isa::access(did.instr.op);
    Row {
        pc: f.pc,
        predicted: f.predicted,
        top: f.top,
        right: f.right,
        at: f.at,
        queued: f.queued,
        instr: f.instr,
        stops: both(f.right, false),
        mispredicted: is_mispredicted(f.right, false, f.predicted, did.next),
        exit: both(f.right, exits),
        control,
        taken: did.taken,
        call: is_call(did.instr.op),
        next: next_if(either(f.right, control), did.next),
        unit: pisa_isa::unit(did.instr.op),
        load: loads(kind, did.access),
        store: stores(kind, did.access),
        address: address(kind, did.access),
        main: Places::of(pisa_isa::reads_main(&did.instr).as_slice()),
        second: Places::of(pisa_isa::reads_second(&did.instr).as_slice()),
        writes: Places::of(pisa_isa::writes(&did.instr).as_slice()),
        dispatched: None,
        issued: None,
        accessed: None,
        returned: None,
        forwarded: false,
        committed: None,
        squashed: None,
    }
}

/// The row of an instruction that can't be done.
fn halted_row(f: &Fetched) -> Row
    ensures { (at : State) → f.now.pc ≡ at.pc → result ≡ row_by f.now (halted_as f.now.instr at) }
{
    Row {
        pc: f.pc,
        predicted: f.predicted,
        top: f.top,
        right: f.right,
        at: f.at,
        queued: f.queued,
        instr: f.instr,
        stops: both(f.right, true),
        mispredicted: is_mispredicted(f.right, true, f.predicted, f.pc),
        exit: both(f.right, false),
        control: false,
        taken: false,
        call: is_call(f.instr.op),
        next: next_if(either(f.right, false), f.pc),
        unit: UnitClass::Free,
        load: false,
        store: false,
        address: 0,
        main: Places::of(&[]),
        second: Places::of(&[]),
        writes: Places::of(&[]),
        dispatched: None,
        issued: None,
        accessed: None,
        returned: None,
        forwarded: false,
        committed: None,
        squashed: None,
    }
}

/// The row of an instruction that was done or can't be done.
pub fn row_of(f: &Fetched, step: &Stepped, exits: bool) -> Row
    requires { IsFormed step.now }
    ensures { (at now : State) → f.now.pc ≡ at.pc → exits ≡ is_some now.ended
        → result ≡ row_by f.now (executed_as f.now.instr at (outcome_of step.now now)) }
{
    match step {
        Stepped::Did(did) => done_row(f, did, exits),
        Stepped::Stop(_) => halted_row(f),
    }
}
