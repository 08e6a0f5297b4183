//! What the bytes of objects, points and traces stand for, or why a command refuses them.
ghost use Rattle.std.specs.Prelude.{◌≡◌, ◌≤◌, ◌^◌, IfOk, Ok, true};
ghost use Rattle.ecoff_load.specs.Object.{IsImage, IsObject};
ghost use Rattle.sim_safe.specs.Record.{IsRunTrace};
ghost use Rattle.sim_safe.specs.State.{state_of};
ghost use Rattle.answers.specs.Judging.{order_place, state_at, Judges, JudgesOrder, JudgesObject, JudgesPoint, JudgesTrace, IsTraceOf};

use crate::answer::Answer;
use crate::refusal::Refusal;
use ecoff_load::Image;
use event_trace::{Trace, TraceWhy};
use sim_safe::Arch;
use ss_base::Bytes;
use std::alloc::Global;

/// Judges an object.
pub fn judge_object(alloc: Global, object: &[u8]) -> Result<Image, Refusal>
    ensures judged { Judges result (λ image. IsObject object.now image) (λ o. JudgesObject object.now o (λ _. ⊥)) }
    ensures image { IfOk result IsImage }
{
    match ecoff_load::read(alloc, object) {
        Ok(image) => Ok(image),
        Err(fault) => Err(Refusal::from(fault)),
    }
}

/// Judges a point beside an object, and gives the machine that goes on from it. The bytes are let go
/// before its memory is made.
pub fn judge_point(alloc: Global, bytes: Bytes, image: Image) -> Result<Arch, Refusal>
    requires { IsImage image }
    ensures judged { Judges result (λ a. state_at bytes image.text ≡ Ok (state_of a)) (λ o. JudgesPoint bytes image o (λ _. ⊥)) }
    ensures count { IfOk result (λ a. a.icnt ≤ 10 ^ 15) }
{
    let point = match checkpoint::read(alloc, bytes.as_slice()) {
        Ok(point) => point,
        Err(fault) => return Err(Refusal::from(fault)),
    };
    drop(bytes);
    match checkpoint::restore(alloc, point, image) {
        Ok(arch) => Ok(arch),
        Err(fault) => Err(Refusal::from(fault)),
    }
}

/// Where a trace names its byte order.
fn order_place(trace: &Trace) -> u64
    ensures { result ≡ order_place trace.now }
{
    if trace.version == 2 { 12 } else { 0 }
}

/// Refuses a trace that is not of an object's byte order.
fn judge_order(trace: Trace, big: bool) -> Result<Trace, Refusal>
    requires { trace.file ≡ true }
    ensures judged { Judges result (λ t. (t ≡ trace) × (trace.big ≡ big)) (λ o. JudgesOrder trace big o (λ _. ⊥)) }
{
    if trace.agrees(big) {
        return Ok(trace);
    }
    Err(Refusal::Answer(Answer::Trace {
        at: order_place(&trace),
        why: TraceWhy::OtherOrder,
    }))
}

/// Judges a trace beside an object of a byte order.
pub fn judge_trace(alloc: Global, bytes: &[u8], big: bool) -> Result<Trace, Refusal>
    ensures judged { Judges result (IsTraceOf bytes.now big) (λ o. JudgesTrace bytes.now big o (λ _. ⊥)) }
    ensures trace { IfOk result IsRunTrace }
{
    match event_trace::read(alloc, bytes) {
        Ok(trace) => judge_order(trace, big),
        Err(fault) => Err(Refusal::from(fault)),
    }
}
