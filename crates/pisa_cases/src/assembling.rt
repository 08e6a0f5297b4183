//! Objects of the sources that a case has.
use crate::fault::LineFault;
use sim_main::{Ending, simulate};
use ss_base::{MemShelf, MemSink};
use std::alloc::{AllocError, Global};

/// The words of a command over fixed names.
fn asm_words(alloc: Global) -> Result<Vec<String>, AllocError> {
    let mut words = Vec::new(alloc);
    for word in ["asm", "source", "object"] {
        words.push(String::from_str(alloc, word)?)?;
    }
    Ok(words)
}

/// Performs them over a shelf, and tells whether an object was made.
fn is_made(alloc: Global, words: &[String], shelf: &mut MemShelf) -> bool {
    let mut prog = MemSink::new(alloc);
    let mut stat = MemSink::new(alloc);
    let ending = simulate(alloc, words, shelf, &mut prog, &mut stat);
    matches!(ending, Ending::Made)
}

/// Puts the object of a source in the source's place.
pub fn assemble(alloc: Global, bytes: &mut Vec<u8>) -> Result<(), LineFault> {
    let mut shelf = MemShelf::new(alloc);
    shelf.add("source", bytes)?;
    if !is_made(alloc, &asm_words(alloc)?, &mut shelf) {
        return Err(LineFault::Source);
    }
    bytes.clear();
    if let Some(object) = shelf.bytes("object") {
        bytes.extend_from_slice(object)?;
    }
    Ok(())
}
