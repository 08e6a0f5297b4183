//! What a turn comes to.
ghost use Rattle.std.specs.Prelude.{◌≡◌, ◌≢◌, not, length, nat_lt, Some, if◌then◌else◌, ◌&&◌, ◌||◌};
ghost use Rattle.std.specs.Option.{ForSome};
ghost use Rattle.ecoff_load.specs.Fetch.{fetch};
ghost use Rattle.ecoff_load.specs.Object.{IsText};
ghost use Rattle.pisa_isa.specs.declared.instr.Op.TheVariants as op;
ghost use Rattle.pisa_isa.specs.Coding.{IsWellFormed};
ghost use Rattle.pisa_step.specs.Effect.{effect_of};
ghost use Rattle.ruu_core.specs.Window.{is_load_kind, is_store_kind};
ghost use Rattle.sim_safe.specs.Decoded.{coded_by};
ghost use Rattle.sim_safe.specs.Record.{IsRunTrace};
ghost use Rattle.sim_safe.specs.State.{state_of, reader_of, range_of};
ghost use Rattle.sim_safe.specs.Step.{is_call, step_of};
ghost use Rattle.spec_state.specs.Overlay.{seen};
ghost use Rattle.ooo_front.specs.declared.row.FetchRow.{FetchRow};
ghost use Rattle.core_dispatch.specs.declared.verdict.Verdict.TheVariants as stops;
ghost use Rattle.core_dispatch.specs.Verdict.{has_access, is_empty, has_place, right_verdict, ok, act_by, wrong_act, wrong_verdict, verdict_at, verdict_of, CanBeMade, CanAct, Admits};

use core_parts::Parts;
use ecoff_load::Text;
use event_trace::Trace;
use lsq_core::Lsq;
use pisa_isa::{AccessKind, Instr, Op, decode};
use pisa_step::{Cause, Changes, TextRange, effect};
use sim_safe::{Arch, Peek};
use spec_state::{Overlay, SpecView, effects_lie_in_blocks};

/// What a wrong row does.
#[derive(Drop)]
pub struct WrongAct {
    /// Its instruction, NOP where none stands at its address.
    pub instr: Instr,
    /// What it changes, none where it can't be done or is a call.
    pub changes: Option<Changes>,
}

/// What a turn comes to.
#[derive(Drop)]
pub enum Verdict {
    /// No row is dispatched.
    Stays,
    /// The machine stops at the oldest waiting row, for this cause.
    Stops(Cause),
    /// That row is dispatched and does the next step.
    Right,
    /// It is dispatched and acts over the state.
    Wrong(WrongAct),
}

/// The instruction of rows at whose address none stands.
const NOP: Instr = Instr {
    op: Op::Nop,
    rs: 0,
    rt: 0,
    rd: 0,
    shamt: 0,
    imm: 0,
    target: 0,
};

/// Whether an instruction is a load or store.
fn has_access(i: &Instr) -> bool
    ensures { result ≡ has_access i.now }
{
    match pisa_isa::access(i.op) {
        AccessKind::Nothing => false,
        AccessKind::Load => true,
        AccessKind::Store => true,
    }
}

/// Whether an operation is a system call.
pub fn is_call(op: Op) -> bool
    ensures { result ≡ is_call op }
{
    match op {
        Op::Syscall => true,
        _ => false,
    }
}

/// Whether the queue has a place for a row that is a load or store.
fn queue_has_place(queue: &Lsq, memory: bool) -> bool
    ensures { result ≡ (not memory || nat_lt (length queue.now.entries) queue.now.size) }
{
    if memory { queue.room() } else { true }
}

/// Whether width and places are left for a row, and no call came before it.
fn has_place(parts: &Parts, dispatched: u32, called: bool, memory: bool) -> bool
    ensures { result ≡ has_place dispatched called parts.now memory }
{
    let width = dispatched < parts.config.decode;
    let unit = parts.unit.room();
    let queue = queue_has_place(&parts.queue, memory);
    width && unit && queue && !called
}

/// Whether no row is live.
fn is_empty(parts: &Parts) -> bool
    ensures { result ≡ is_empty parts.now }
{
    parts.unit.is_empty()
}

/// Whether both hold.
fn both(a: bool, b: bool) -> bool
    ensures { result ≡ (a && b) }
{
    a && b
}

/// The verdict on a right row.
fn right_verdict(parts: &Parts, trace: &Trace, dispatched: u32, called: bool) -> Verdict
    requires { IsRunTrace trace.now }
    ensures { result ≡ right_verdict dispatched called parts.now (step_of trace.now (state_of parts.now.arch)) }
{
    let empty = is_empty(parts);
    match parts.arch.peek(trace) {
        Peek::Stop(cause) => stops_if(empty, cause),
        Peek::Plain(instr) => {
            let memory = has_access(&instr);
            right_if(has_place(parts, dispatched, called, memory))
        }
        Peek::Call(_) => {
            let place = has_place(parts, dispatched, called, false);
            right_if(both(place, empty))
        }
    }
}

/// The machine stops, or no row is dispatched.
fn stops_if(empty: bool, cause: Cause) -> Verdict
    ensures { result ≡ (if empty then stops.Stops cause else stops.Stays) }
{
    if empty {
        Verdict::Stops(cause)
    } else {
        Verdict::Stays
    }
}

/// The row does the next step, or none is dispatched.
fn right_if(may: bool) -> Verdict
    ensures { result ≡ (if may then stops.Right else stops.Stays) }
{
    if may { Verdict::Right } else { Verdict::Stays }
}

/// The addresses of a text.
fn text_range(text: &Text) -> TextRange
    requires { IsText text.now }
    ensures { result ≡ range_of text.now }
{
    let start = text.start;
    TextRange {
        start,
        end: start + text.bytes.as_slice().len() as u32,
    }
}

/// The instruction at an address, if one stands there.
fn instruction_at(text: &Text, pc: u32) -> Option<Instr>
    ensures value { result ≡ coded_by (fetch text.now pc) }
    ensures formed { ForSome result IsWellFormed }
{
    match text.at(pc) {
        None => None,
        Some((first, second)) => match decode(first, second) {
            Ok(instr) => Some(instr),
            Err(_) => None,
        },
    }
}

/// What an instruction changes on the state under the overlay, none where it can't be done.
fn changes_of(arch: &Arch, overlay: &mut Overlay, i: &Instr, pc: u32) -> Option<Changes>
    requires no_call { i.now.op ≢ op.Syscall }
    requires formed { IsWellFormed i.now }
    requires text { IsText arch.now.text }
    ensures changes { result ≡ ok (effect_of (seen (reader_of arch.now) overlay.old) i.now pc (range_of arch.now.text)) }
    ensures made { ForSome result CanBeMade }
    ensures stays { overlay.new ≡ overlay.old }
{
    effects_lie_in_blocks();
    let range = text_range(arch.text());
    let view = SpecView {
        base: arch,
        over: overlay,
    };
    match effect(&view, i, pc, range) {
        Ok(changes) => Some(changes),
        Err(_) => None,
    }
}

/// What a wrong row with this instruction does.
fn act_by(arch: &Arch, overlay: &mut Overlay, i: Instr, pc: u32) -> WrongAct
    requires formed { IsWellFormed i }
    requires text { IsText arch.now.text }
    ensures act { result ≡ act_by (range_of arch.now.text) (seen (reader_of arch.now) overlay.old) pc (Some i) }
    ensures can { CanAct result }
    ensures stays { overlay.new ≡ overlay.old }
{
    if is_call(i.op) {
        WrongAct {
            instr: i,
            changes: None,
        }
    } else {
        let changes = changes_of(arch, overlay, &i, pc);
        WrongAct { instr: i, changes }
    }
}

/// What a wrong row at this address does.
fn wrong_act(parts: &mut Parts, pc: u32) -> WrongAct
    requires { IsText parts.old.arch.text }
    ensures act { result ≡ wrong_act parts.old pc }
    ensures can { CanAct result }
    ensures stays { parts.new ≡ parts.old }
{
    match instruction_at(parts.arch.text(), pc) {
        None => WrongAct {
            instr: NOP,
            changes: None,
        },
        Some(i) => act_by(&parts.arch, &mut parts.overlay, i, pc),
    }
}

/// The verdict on a wrong row.
fn wrong_verdict(parts: &Parts, act: WrongAct, dispatched: u32, called: bool) -> Verdict
    requires { CanAct act }
    ensures verdict { result ≡ wrong_verdict dispatched called parts.now act }
    ensures can { Admits result }
{
    let over = parts.arch.ended().is_some();
    let call = is_call(act.instr.op);
    let access = has_access(&act.instr);
    let memory = act.changes.is_some() && access;
    let place = has_place(parts, dispatched, called, memory);
    if !over && !call && place {
        Verdict::Wrong(act)
    } else {
        Verdict::Stays
    }
}

/// The verdict on this row.
fn verdict_at(parts: &mut Parts, trace: &Trace, pc: u32, dispatched: u32, called: bool) -> Verdict
    requires trace { IsRunTrace trace.now }
    requires text { IsText parts.old.arch.text }
    ensures verdict { (h : FetchRow) → h.pc ≡ pc → result ≡ verdict_at trace.now dispatched called parts.old (Some h) }
    ensures can { Admits result }
    ensures stays { parts.new ≡ parts.old }
{
    if parts.wrong {
        let act = wrong_act(parts, pc);
        wrong_verdict(parts, act, dispatched, called)
    } else {
        right_verdict(parts, trace, dispatched, called)
    }
}

/// What the turn comes to in the cycle, after so many dispatches, of a call among them or of none.
pub fn verdict_of(
    parts: &mut Parts,
    trace: &Trace,
    cycle: u64,
    dispatched: u32,
    called: bool,
) -> Verdict
    requires trace { IsRunTrace trace.now }
    requires text { IsText parts.old.arch.text }
    ensures verdict { result ≡ verdict_of trace.now cycle dispatched called parts.old }
    ensures can { Admits result }
    ensures stays { parts.new ≡ parts.old }
{
    let head = match parts.front.head(cycle) {
        None => return Verdict::Stays,
        Some(head) => *head,
    };
    verdict_at(parts, trace, head.pc, dispatched, called)
}
