//! The fetch stage.
ghost use Rattle.std.specs.Prelude.{◌≡◌, ◌+◌, ◌-◌, ◌^◌, ◌<◌, ◌≤◌, ◌∷◌, ℕ, List, IfOk, OnOk, Some, if◌then◌else◌};
ghost use Rattle.std.specs.Option.{ForSome};
ghost use Rattle.sim_safe.specs.Record.{IsRunTrace};
ghost use Rattle.mem_hier.specs.declared.config.HierConfig.{HierConfig};
ghost use Rattle.mem_hier.specs.Replay.{Reference, Fetch, latency_of, fetch_hit_of};
ghost use Rattle.mem_hier.specs.Stands.{StandsFor, last_cycle_of, references_of};
ghost use Rattle.ooo_table.specs.Row as table;
ghost use Rattle.ooo_table.specs.Fetch.{fetch_one, fetch_up_to, fetch};
ghost use Rattle.ooo_table.specs.Machine.{Given, setting_of, instruction_at};
ghost use Rattle.ooo_table.specs.Table.{Table};
ghost use Rattle.ooo_plain.specs.Asked.{Asked};
ghost use Rattle.plain_machine.specs.Fits.{Fits, HoldsItsText, IsCopyOf};
ghost use Rattle.plain_machine.specs.Performed.{Performs};
ghost use Rattle.plain_machine.specs.Standing.{StandsWithin};
ghost use Rattle.plain_machine.specs.Fetching.{IsNext, PerformKeeps, Settles, SettleKeeps};

use crate::machine::Plain;
use crate::perform::{perform_right, perform_wrong};
use crate::row::Fetched;
use ecoff_load::Text;
use event_trace::Trace;
use mem_hier::Hier;
use ooo_plain::Row;
use ooo_plain::next_fetch::{may_fetch, next_fetch_after};
use pisa_isa::{Instr, Op, decode};
use ss_base::OutOfMemory;

/// The instruction of rows at whose address none stands.
const NOP: Instr = Instr {
    op: Op::Nop,
    rs: 0,
    rt: 0,
    rd: 0,
    shamt: 0,
    imm: 0,
    target: 0,
};

/// The instruction that is looked up at an address: NOP where the words there code none.
fn instruction_at(text: &Text, pc: u32) -> Instr
    ensures { result ≡ instruction_at text.now pc }
{
    let (first, second) = text.at(pc).unwrap_or((0, 0));
    match decode(first, second) {
        Ok(instr) => instr,
        Err(_) => NOP,
    }
}

/// When the words at an address are there. Where an instruction stands there the reference is made, and what the first
/// level takes for a lookup isn't waited for.
fn queue_cycle(hier: &mut Hier, is_text: bool, pc: u32, cycle: u64) -> u64
    requires order { last_cycle_of hier.old ≤ cycle }
    requires cycle { cycle < 2 ^ 62 }
    requires references { references_of hier.old < 2 ^ 60 }
    ensures answer { (c : HierConfig) (h : List Reference) → StandsFor hier.old c h
        → result ≡ (if is_text then cycle + (latency_of c h (Fetch pc cycle) - fetch_hit_of c) else cycle) }
    ensures stands { (c : HierConfig) (h : List Reference) → StandsFor hier.old c h
        → StandsFor hier.new c (if is_text then Fetch pc cycle ∷ h else h) }
    ensures asked { Asked hier.old hier.new cycle 1 }
{
    if is_text {
        let latency = hier.fetch(pc, cycle);
        cycle + u64::from(latency.saturating_sub(hier.fetch_hit()))
    } else {
        cycle
    }
}

/// What the fetched row does.
fn perform(plain: &mut Plain, trace: &Trace, f: &Fetched) -> Result<Row, OutOfMemory>
    requires count { plain.old.arch.icnt + 1 < 2 ^ 62 }
    requires trace { IsRunTrace trace.now }
    requires text { HoldsItsText plain.old.arch }
    requires copy { ForSome plain.old.copy (IsCopyOf plain.old.arch) }
    ensures row { IfOk result (λ row. (g : Given) (s : table.Fetched) → g.trace ≡ trace.now → IsNext g s f.now plain.old → Performs g s row plain.new.arch plain.new.copy) }
    ensures keeps { PerformKeeps f.now.right plain.old plain.new }
{
    if f.right {
        perform_right(&mut plain.arch, trace, f)
    } else {
        perform_wrong(plain.alloc, &plain.arch, &mut plain.copy, trace, f)
    }
}

/// What is settled of the next row, which is fetched in the cycle, with its reference and its look-up.
fn settle(plain: &mut Plain, cycle: u64) -> Fetched
    requires { Fits cycle (2 ^ 32 - 2) 31 plain.old }
    ensures settles { (g : Given) (t : Table) → StandsWithin g cycle t plain.old → Settles g cycle t plain.new result }
    ensures keeps { SettleKeeps cycle plain.old plain.new result }
{
    let pc = plain.next.pc;
    let is_text = plain.arch.text().at(pc).is_some();
    let instr = instruction_at(plain.arch.text(), pc);
    let queued = queue_cycle(&mut plain.hier, is_text, pc, cycle);
    let look = plain.predictor.lookup(pc, &instr);
    Fetched {
        pc,
        predicted: look.next,
        top: look.top,
        right: plain.next.right,
        at: cycle,
        queued,
        instr,
    }
}

/// The top of the return stack behind the newest right row, where this one was fetched.
fn top_behind(f: &Fetched, before: Option<u32>) -> Option<u32>
    ensures { result ≡ (if f.now.right then Some f.now.top else before) }
{
    if f.right { Some(f.top) } else { before }
}

/// Fetches the next row in the cycle.
fn fetch_one(plain: &mut Plain, trace: &Trace, cycle: u64) -> Result<(), OutOfMemory>
    requires fits { Fits cycle (2 ^ 32 - 2) 31 plain.old }
    requires trace { IsRunTrace trace.now }
    ensures stands { OnOk result ((g : Given) (t : Table) → g.trace ≡ trace.now → StandsWithin g cycle t plain.old → StandsWithin g cycle (fetch_one (setting_of g) cycle t) plain.new) }
    ensures fits { OnOk result ((made fetched : ℕ) → Fits cycle made fetched plain.old → Fits cycle (made + 1) (fetched + 1) plain.new) }
{
    let f = settle(plain, cycle);
    let row = perform(plain, trace, &f)?;
    plain.top = top_behind(&f, plain.top);
    plain.next = next_fetch_after(&row, cycle);
    plain.rows.insert(0, row)?;
    Ok(())
}

/// Fetches up to so many rows in the cycle.
fn fetch_up_to(plain: &mut Plain, trace: &Trace, most: u32, cycle: u64) -> Result<(), OutOfMemory>
    requires fits { (most ≤ 32) × Fits cycle (2 ^ 32 - 1 - most) (32 - most) plain.old }
    requires trace { IsRunTrace trace.now }
    ensures stands { OnOk result ((g : Given) (t : Table) → g.trace ≡ trace.now → StandsWithin g cycle t plain.old → StandsWithin g cycle (fetch_up_to (setting_of g) most cycle t) plain.new) }
    ensures fits { OnOk result (Fits cycle (2 ^ 32 - 1) 32 plain.new) }
{
    if most == 0 {
        return Ok(());
    }
    if !may_fetch(&plain.config, plain.rows.as_slice(), &plain.next, cycle) {
        return Ok(());
    }
    fetch_one(plain, trace, cycle)?;
    fetch_up_to(plain, trace, most - 1, cycle)
}

/// Fetches the rows of the cycle.
pub fn fetch(plain: &mut Plain, trace: &Trace, cycle: u64) -> Result<(), OutOfMemory>
    requires fits { Fits cycle (2 ^ 31) 0 plain.old }
    requires trace { IsRunTrace trace.now }
    ensures stands { OnOk result ((g : Given) (t : Table) → g.trace ≡ trace.now → StandsWithin g cycle t plain.old → StandsWithin g cycle (fetch (setting_of g) cycle t) plain.new) }
    ensures fits { OnOk result (Fits cycle (2 ^ 32 - 1) 32 plain.new) }
{
    let width = plain.config.decode;
    fetch_up_to(plain, trace, width, cycle)
}
