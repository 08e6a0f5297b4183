//! How a run ended, in words.
ghost use Rattle.std.specs.Prelude.{◌≡◌, ◌++◌, codes, decimal, OnOk, OnErr};
ghost use Rattle.ss_base.specs.Text.{hex8};
ghost use Rattle.ss_base.specs.Outside.{BeginsWith};
ghost use Rattle.sim_safe.specs.Ends.{field_text, cause_text, stop_text, end_text};

use crate::commit::{push_at, push_bytes};
use crate::observer::RunEnd;
use pisa_step::{Cause, Field};
use ss_base::{OutOfMemory, push_decimal};

/// Adds a word and a number, or a front of that.
fn push_number(into: &mut Vec<u8>, word: &[u8], number: u64) -> Result<(), OutOfMemory>
    ensures ok { OnOk result (into.new.items ≡ into.old.items ++ (word.now ++ decimal number)) }
    ensures err { OnErr result (BeginsWith into.new.items into.old.items) }
{
    push_bytes(into, word)?;
    push_decimal(into, number)
}

/// Adds the name of a field of a recorded call, or a front of that.
fn push_field(into: &mut Vec<u8>, field: Field) -> Result<(), OutOfMemory>
    ensures ok { OnOk result (into.new.items ≡ into.old.items ++ field_text field) }
    ensures err { OnErr result (BeginsWith into.new.items into.old.items) }
{
    match field {
        Field::Count => push_bytes(into, b"count"),
        Field::Pc => push_bytes(into, b"pc"),
        Field::Reg(register) => push_number(into, b"r", u64::from(register)),
        Field::Byte(addr) => {
            push_at(into, b"[", addr)?;
            push_bytes(into, b"]")
        }
    }
}

/// Adds a field of a recorded call with its values in the record and in the machine, or a front of
/// that.
#[tactic(auto, using(ss_base::specs::Begins::begins_front))]
fn push_mismatch(into: &mut Vec<u8>, field: Field, kept: u64, found: u64) -> Result<(), OutOfMemory>
    ensures ok { OnOk result (into.new.items ≡ into.old.items ++ (codes "trace-mismatch " ++ field_text field ++ codes " " ++ decimal kept ++ codes " " ++ decimal found)) }
    ensures err { OnErr result (BeginsWith into.new.items into.old.items) }
{
    push_bytes(into, b"trace-mismatch ")?;
    push_field(into, field)?;
    push_bytes(into, b" ")?;
    push_decimal(into, kept)?;
    push_bytes(into, b" ")?;
    push_decimal(into, found)
}

/// Adds the cause of a stop, or a front of that.
fn push_cause(into: &mut Vec<u8>, cause: Cause) -> Result<(), OutOfMemory>
    ensures ok { OnOk result (into.new.items ≡ into.old.items ++ cause_text cause) }
    ensures err { OnErr result (BeginsWith into.new.items into.old.items) }
{
    match cause {
        Cause::Exited { code } => push_number(into, b"exited ", u64::from(code)),
        Cause::BadFetch => push_bytes(into, b"bad-fetch"),
        Cause::Illegal => push_bytes(into, b"illegal"),
        Cause::FloatingPoint { opcode } => push_at(into, b"floating-point ", u32::from(opcode)),
        Cause::Misaligned { addr } => push_at(into, b"misaligned ", addr),
        Cause::Overflow => push_bytes(into, b"overflow"),
        Cause::DivideByZero => push_bytes(into, b"divide-by-zero"),
        Cause::TextWrite { addr } => push_at(into, b"text-write ", addr),
        Cause::Break => push_bytes(into, b"break"),
        Cause::TraceEnd { used } => push_number(into, b"trace-end ", u64::from(used)),
        Cause::TraceMismatch { field, kept, found } => push_mismatch(into, field, kept, found),
    }
}

/// Adds where a run stopped and why, or a front of that.
#[tactic(auto, using(ss_base::specs::Begins::begins_front))]
fn push_stopped(into: &mut Vec<u8>, cause: Cause, pc: u32, icnt: u64) -> Result<(), OutOfMemory>
    ensures ok { OnOk result (into.new.items ≡ into.old.items ++ (codes "stopped " ++ hex8 pc ++ codes " " ++ decimal icnt ++ codes " " ++ cause_text cause)) }
    ensures err { OnErr result (BeginsWith into.new.items into.old.items) }
{
    push_at(into, b"stopped ", pc)?;
    push_bytes(into, b" ")?;
    push_decimal(into, icnt)?;
    push_bytes(into, b" ")?;
    push_cause(into, cause)
}

/// Adds a stop at an address after some instructions, or a front of that.
fn push_stop(into: &mut Vec<u8>, cause: Cause, pc: u32, icnt: u64) -> Result<(), OutOfMemory>
    ensures ok { OnOk result (into.new.items ≡ into.old.items ++ stop_text cause pc icnt) }
    ensures err { OnErr result (BeginsWith into.new.items into.old.items) }
{
    match cause {
        Cause::Exited { .. } => push_cause(into, cause),
        _ => push_stopped(into, cause, pc, icnt),
    }
}

/// Adds how a run ended, or a front of that.
fn push_run_end(into: &mut Vec<u8>, end: RunEnd, pc: u32, icnt: u64) -> Result<(), OutOfMemory>
    ensures ok { OnOk result (into.new.items ≡ into.old.items ++ end_text end pc icnt) }
    ensures err { OnErr result (BeginsWith into.new.items into.old.items) }
{
    match end {
        RunEnd::Limit => push_bytes(into, b"budget"),
        RunEnd::Stop(cause) => push_stop(into, cause, pc, icnt),
    }
}

/// Adds how a run ended at an address after some instructions: `exited CODE`, `budget`, or
/// `stopped PC ICNT CAUSE`. Want of memory leaves `into` as it was.
pub fn push_end(into: &mut Vec<u8>, end: RunEnd, pc: u32, icnt: u64) -> Result<(), OutOfMemory>
    ensures ok { OnOk result (into.new.items ≡ into.old.items ++ end_text end pc icnt) }
    ensures err { OnErr result (into.new.items ≡ into.old.items) }
{
    let length = into.len();
    let pushed = push_run_end(into, end, pc, icnt);
    if pushed.is_err() {
        into.truncate(length);
    }
    pushed
}
