//! What a fetched row does: a right one is the next step of the state, a wrong one acts on a copy.
ghost use Rattle.std.specs.Prelude.{◌≡◌, ◌+◌, ◌<◌, ◌^◌, true, false, IfOk, None, Some, if◌then◌else◌};
ghost use Rattle.std.specs.Option.{ForSome};
ghost use Rattle.sim_safe.specs.Record.{IsRunTrace};
ghost use Rattle.sim_safe.specs.State.{state_of};
ghost use Rattle.ooo_table.specs.Row as table;
ghost use Rattle.ooo_table.specs.Machine.{Given, setting_of};
ghost use Rattle.plain_machine.specs.Copied.{acting};
ghost use Rattle.plain_machine.specs.Performed.{fetched_as, Performs, has_effect};
ghost use Rattle.plain_machine.specs.Fits.{IsCopyOf, HoldsItsText, StateKeeps};

use crate::copied::copied;
use crate::row::{Fetched, is_call, row_of};
use event_trace::Trace;
use ooo_plain::Row;
use sim_safe::{Arch, Stepped};
use ss_base::OutOfMemory;
use std::alloc::Global;

/// A right row does the next step of the state.
#[tactic(auto, using(crate::proofs::Performs::formed, crate::proofs::Performs::keeps_same, crate::proofs::Performs::keeps_step))]
pub fn perform_right(arch: &mut Arch, trace: &Trace, f: &Fetched) -> Result<Row, OutOfMemory>
    requires count { arch.old.icnt + 1 < 2 ^ 62 }
    requires trace { IsRunTrace trace.now }
    ensures row { IfOk result (λ row. (g : Given) (s : table.Fetched) → g.trace ≡ trace.now → s.state.text ≡ g.start.text
        → f.now ≡ fetched_as (setting_of g) s → s.right ≡ true → s.state ≡ state_of arch.old → s.pc ≡ s.state.pc
        → Performs g s row arch.new None) }
    ensures keeps { HoldsItsText arch.old → StateKeeps arch.old arch.new }
{
    let step = arch.step(trace)?;
    Ok(row_of(f, &step, arch.ended().is_some()))
}

/// Whether a wrong row has an effect: it can be done and is no system call.
fn has_effect(step: &Stepped) -> bool
    ensures { result ≡ has_effect step.now }
{
    match step {
        Stepped::Did(did) => !is_call(did.instr.op),
        Stepped::Stop(_) => false,
    }
}

/// The copy on which the wrong row at an address acts.
fn copy_at(alloc: Global, arch: &Arch, copy: &Option<Arch>, pc: u32) -> Result<Arch, OutOfMemory>
    requires text { HoldsItsText arch.now }
    requires copy { ForSome copy.now (IsCopyOf arch.now) }
    ensures state { IfOk result (λ new. state_of new ≡ record (acting arch.now copy.now) { pc = pc }) }
    ensures copy { IfOk result (IsCopyOf arch.now) }
{
    match copy {
        Some(before) => copied(alloc, before, arch, pc),
        None => copied(alloc, arch, arch, pc),
    }
}

/// The copy is the one that the row left, where it has an effect.
fn keep_if(copy: &mut Option<Arch>, left: Arch, effect: bool)
    ensures { copy.new ≡ (if effect then Some left else copy.old) }
{
    if effect {
        *copy = Some(left);
    }
}

/// A wrong row acts on a copy of the state, or of what the wrong rows before it made of that.
#[tactic(auto, using(crate::proofs::Performs::formed))]
pub fn perform_wrong(
    alloc: Global,
    arch: &Arch,
    copy: &mut Option<Arch>,
    trace: &Trace,
    f: &Fetched,
) -> Result<Row, OutOfMemory>
    requires count { arch.now.icnt + 1 < 2 ^ 62 }
    requires trace { IsRunTrace trace.now }
    requires text { HoldsItsText arch.now }
    requires copy { ForSome copy.old (IsCopyOf arch.now) }
    ensures row { IfOk result (λ row. (g : Given) (s : table.Fetched) → g.trace ≡ trace.now → s.state.text ≡ g.start.text
        → f.now ≡ fetched_as (setting_of g) s → s.right ≡ false → s.state ≡ acting arch.now copy.old
        → Performs g s row arch.now copy.new) }
    ensures copy { ForSome copy.new (IsCopyOf arch.now) }
{
    let mut acting = copy_at(alloc, arch, copy, f.pc)?;
    let step = acting.step(trace)?;
    let row = row_of(f, &step, acting.ended().is_some());
    keep_if(copy, acting, has_effect(&step));
    Ok(row)
}
