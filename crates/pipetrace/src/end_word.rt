//! How a run ended, read from its words.
ghost use Rattle.pipetrace.specs.Reading.{Gives, address_cause_at, arithmetic_cause_at, cause_at, exit_at, fetch_cause_at, field_at, floating_at, misaligned_at, mismatch_at, place_at, register_at, stop_at, text_write_at, trace_cause_at, trace_end_at, word_at, word_cause_at};

use crate::fields::{address_at, behind, byte_number_at, count_at, half_at, word_number_at};
use ooo_table::EndWord;
use pisa_step::{Cause, Field};

#[tactic(auto, unfolding(crate::specs::Reading::register_at))]
fn register_at(bytes: &[u8]) -> Option<(Field, &[u8])>
    ensures { Gives (λ x. (x.0, x.1.now)) result (register_at bytes.now) }
{
    let rest = behind(b"r", bytes)?;
    let (register, rest) = byte_number_at(rest)?;
    Some((Field::Reg(register), rest))
}

#[tactic(auto, unfolding(crate::specs::Reading::place_at))]
fn place_at(bytes: &[u8]) -> Option<(Field, &[u8])>
    ensures { Gives (λ x. (x.0, x.1.now)) result (place_at bytes.now) }
{
    let rest = behind(b"[", bytes)?;
    let (addr, rest) = address_at(rest)?;
    let rest = behind(b"]", rest)?;
    Some((Field::Byte(addr), rest))
}

#[tactic(auto, unfolding(crate::specs::Reading::field_at))]
fn field_at(bytes: &[u8]) -> Option<(Field, &[u8])>
    ensures { Gives (λ x. (x.0, x.1.now)) result (field_at bytes.now) }
{
    if let Some(rest) = behind(b"count", bytes) {
        return Some((Field::Count, rest));
    }
    if let Some(rest) = behind(b"pc", bytes) {
        return Some((Field::Pc, rest));
    }
    match register_at(bytes) {
        Some((field, rest)) => Some((field, rest)),
        None => place_at(bytes),
    }
}

#[tactic(auto, unfolding(crate::specs::Reading::mismatch_at))]
fn mismatch_at(bytes: &[u8]) -> Option<(Cause, &[u8])>
    ensures { Gives (λ x. (x.0, x.1.now)) result (mismatch_at bytes.now) }
{
    let rest = behind(b"trace-mismatch ", bytes)?;
    let (field, rest) = field_at(rest)?;
    let rest = behind(b" ", rest)?;
    let (kept, rest) = count_at(rest)?;
    let rest = behind(b" ", rest)?;
    let (found, rest) = count_at(rest)?;
    Some((Cause::TraceMismatch { field, kept, found }, rest))
}

#[tactic(auto, unfolding(crate::specs::Reading::trace_end_at))]
fn trace_end_at(bytes: &[u8]) -> Option<(Cause, &[u8])>
    ensures { Gives (λ x. (x.0, x.1.now)) result (trace_end_at bytes.now) }
{
    let rest = behind(b"trace-end ", bytes)?;
    let (used, rest) = word_number_at(rest)?;
    Some((Cause::TraceEnd { used }, rest))
}

/// An opcode has 16 bits, so the first four of its digits are zeros.
#[tactic(auto, unfolding(crate::specs::Reading::floating_at))]
fn floating_at(bytes: &[u8]) -> Option<(Cause, &[u8])>
    ensures { Gives (λ x. (x.0, x.1.now)) result (floating_at bytes.now) }
{
    let rest = behind(b"floating-point 0000", bytes)?;
    let (opcode, rest) = half_at(rest)?;
    Some((Cause::FloatingPoint { opcode }, rest))
}

#[tactic(auto, unfolding(crate::specs::Reading::misaligned_at))]
fn misaligned_at(bytes: &[u8]) -> Option<(Cause, &[u8])>
    ensures { Gives (λ x. (x.0, x.1.now)) result (misaligned_at bytes.now) }
{
    let rest = behind(b"misaligned ", bytes)?;
    let (addr, rest) = address_at(rest)?;
    Some((Cause::Misaligned { addr }, rest))
}

#[tactic(auto, unfolding(crate::specs::Reading::text_write_at))]
fn text_write_at(bytes: &[u8]) -> Option<(Cause, &[u8])>
    ensures { Gives (λ x. (x.0, x.1.now)) result (text_write_at bytes.now) }
{
    let rest = behind(b"text-write ", bytes)?;
    let (addr, rest) = address_at(rest)?;
    Some((Cause::TextWrite { addr }, rest))
}

#[tactic(auto, unfolding(crate::specs::Reading::fetch_cause_at))]
fn fetch_cause_at(bytes: &[u8]) -> Option<(Cause, &[u8])>
    ensures { Gives (λ x. (x.0, x.1.now)) result (fetch_cause_at bytes.now) }
{
    if let Some(rest) = behind(b"bad-fetch", bytes) {
        return Some((Cause::BadFetch, rest));
    }
    let rest = behind(b"illegal", bytes)?;
    Some((Cause::Illegal, rest))
}

#[tactic(auto, unfolding(crate::specs::Reading::arithmetic_cause_at))]
fn arithmetic_cause_at(bytes: &[u8]) -> Option<(Cause, &[u8])>
    ensures { Gives (λ x. (x.0, x.1.now)) result (arithmetic_cause_at bytes.now) }
{
    if let Some(rest) = behind(b"overflow", bytes) {
        return Some((Cause::Overflow, rest));
    }
    let rest = behind(b"divide-by-zero", bytes)?;
    Some((Cause::DivideByZero, rest))
}

/// A cause that is a word alone.
#[tactic(auto, unfolding(crate::specs::Reading::word_cause_at))]
fn word_cause_at(bytes: &[u8]) -> Option<(Cause, &[u8])>
    ensures { Gives (λ x. (x.0, x.1.now)) result (word_cause_at bytes.now) }
{
    if let Some(rest) = behind(b"break", bytes) {
        return Some((Cause::Break, rest));
    }
    match fetch_cause_at(bytes) {
        Some((cause, rest)) => Some((cause, rest)),
        None => arithmetic_cause_at(bytes),
    }
}

#[tactic(auto, unfolding(crate::specs::Reading::address_cause_at))]
fn address_cause_at(bytes: &[u8]) -> Option<(Cause, &[u8])>
    ensures { Gives (λ x. (x.0, x.1.now)) result (address_cause_at bytes.now) }
{
    if let Some((cause, rest)) = floating_at(bytes) {
        return Some((cause, rest));
    }
    match misaligned_at(bytes) {
        Some((cause, rest)) => Some((cause, rest)),
        None => text_write_at(bytes),
    }
}

#[tactic(auto, unfolding(crate::specs::Reading::trace_cause_at))]
fn trace_cause_at(bytes: &[u8]) -> Option<(Cause, &[u8])>
    ensures { Gives (λ x. (x.0, x.1.now)) result (trace_cause_at bytes.now) }
{
    match trace_end_at(bytes) {
        Some((cause, rest)) => Some((cause, rest)),
        None => mismatch_at(bytes),
    }
}

#[tactic(auto, unfolding(crate::specs::Reading::cause_at))]
fn cause_at(bytes: &[u8]) -> Option<(Cause, &[u8])>
    ensures { Gives (λ x. (x.0, x.1.now)) result (cause_at bytes.now) }
{
    if let Some((cause, rest)) = word_cause_at(bytes) {
        return Some((cause, rest));
    }
    match address_cause_at(bytes) {
        Some((cause, rest)) => Some((cause, rest)),
        None => trace_cause_at(bytes),
    }
}

#[tactic(auto, unfolding(crate::specs::Reading::stop_at))]
fn stop_at(bytes: &[u8]) -> Option<(EndWord, &[u8])>
    ensures { Gives (λ x. (x.0, x.1.now)) result (stop_at bytes.now) }
{
    let rest = behind(b"stopped ", bytes)?;
    let (pc, rest) = address_at(rest)?;
    let rest = behind(b" ", rest)?;
    let (icnt, rest) = count_at(rest)?;
    let rest = behind(b" ", rest)?;
    let (cause, rest) = cause_at(rest)?;
    Some((EndWord::Stopped { pc, icnt, cause }, rest))
}

#[tactic(auto, unfolding(crate::specs::Reading::exit_at))]
fn exit_at(bytes: &[u8]) -> Option<(EndWord, &[u8])>
    ensures { Gives (λ x. (x.0, x.1.now)) result (exit_at bytes.now) }
{
    let rest = behind(b"exited ", bytes)?;
    let (code, rest) = word_number_at(rest)?;
    Some((EndWord::Exited(code), rest))
}

/// How a run ended.
#[tactic(auto, unfolding(crate::specs::Reading::word_at))]
pub fn word_at(bytes: &[u8]) -> Option<(EndWord, &[u8])>
    ensures { Gives (λ x. (x.0, x.1.now)) result (word_at bytes.now) }
{
    if let Some(rest) = behind(b"budget", bytes) {
        return Some((EndWord::Budget, rest));
    }
    match exit_at(bytes) {
        Some((end, rest)) => Some((end, rest)),
        None => stop_at(bytes),
    }
}
