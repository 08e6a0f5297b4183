//! The start block of a program.

ghost use Rattle.std.specs.Prelude.{◌≡◌, ◌+◌, ◌*◌, ◌-◌, ◌^◌, ◌≤◌, ◌++◌, List, ℕ, length, map, min, string_bytes, IfOk, IfErr, OnOk};
ghost use Rattle.std.specs.List.{flat_map, range_with_len};
ghost use Rattle.ecoff_load.specs.Words.{word_bytes};
ghost use Rattle.ecoff_load.specs.Start.{ended_strings, words_length, pointer_to, block, RefusesStart};

use crate::words::push_word;
use std::alloc::{AllocError, Global};
use thiserror::Error;

/// Why a program was not put at its start.
#[derive(Clone, Copy, Debug, PartialEq, Eq, Error)]
pub enum StartFault {
    /// The block of arguments has this many bytes, or 2^64 - 1 where that is less: more than 16,384.
    #[error("the arguments are too long")]
    TooLong { length: u64 },
    /// A growth found no memory.
    #[error("out of memory")]
    OutOfMemory,
}

/// The address of the start block's first byte.
const START: u32 = 0x7fff_8000;

/// How many bytes a start block has at most.
const MOST: u64 = 16384;

/// The start block of a program: argc, the pointers to the arguments, and two zeros, as words in
/// the byte order, and then the arguments, each ended by a zero byte. It is made to stand at
/// 0x7fff8000.
pub fn start_block(alloc: Global, args: &[String], big: bool) -> Result<Vec<u8>, StartFault>
    ensures value { IfOk result (λ bytes. bytes.items ≡ block big (map string_bytes args.now)) }
    ensures fits { OnOk result (length (block big (map string_bytes args.now)) ≤ 16384) }
    ensures fault { IfErr result (RefusesStart (block big (map string_bytes args.now))) }
{
    let length = block_length(args);
    if length > MOST {
        return Err(StartFault::TooLong { length });
    }
    match lay_out(alloc, args, big) {
        Ok(bytes) => Ok(bytes),
        Err(_) => Err(StartFault::OutOfMemory),
    }
}

// How many bytes the block has, or 2^64 - 1 where that is less.
fn block_length(args: &[String]) -> u64
    ensures { let texts = map string_bytes args.now in
        result ≡ min (words_length texts + length (ended_strings texts)) (2 ^ 64 - 1) }
{
    let mut length = (args.len() as u64).saturating_add(3).saturating_mul(4);
    for arg in args {
        length = length.saturating_add(arg.len() as u64).saturating_add(1);
    }
    length
}

fn lay_out(alloc: Global, args: &[String], big: bool) -> Result<Vec<u8>, AllocError>
    requires { let texts = map string_bytes args.now in
        words_length texts + length (ended_strings texts) ≤ 16384 }
    ensures { IfOk result (λ bytes. bytes.items ≡ block big (map string_bytes args.now)) }
{
    let mut bytes = Vec::new(alloc);
    push_word(&mut bytes, args.len() as u32, big)?;
    push_pointers(&mut bytes, args, big)?;
    push_word(&mut bytes, 0, big)?;
    push_word(&mut bytes, 0, big)?;
    push_strings(&mut bytes, args)?;
    Ok(bytes)
}

fn push_pointers(bytes: &mut Vec<u8>, args: &[String], big: bool) -> Result<(), AllocError>
    requires { let texts = map string_bytes args.now in
        words_length texts + length (ended_strings texts) ≤ 16384 }
    ensures { OnOk result (bytes.new.items ≡ bytes.old.items
        ++ flat_map (word_bytes big) (map (pointer_to (map string_bytes args.now)) (range_with_len 0 (length args.now)))) }
{
    let mut pointer = START + 4 * (args.len() as u32 + 3);
    for arg in args {
        push_word(bytes, pointer, big)?;
        pointer += arg.len() as u32 + 1;
    }
    Ok(())
}

fn push_strings(bytes: &mut Vec<u8>, args: &[String]) -> Result<(), AllocError>
    ensures { OnOk result (bytes.new.items ≡ bytes.old.items ++ ended_strings (map string_bytes args.now)) }
{
    for arg in args {
        bytes.extend_from_slice(arg.as_bytes())?;
        bytes.push(0)?;
    }
    Ok(())
}

#[cfg(test)]
mod tests;
