//! The memory of the simulated machine: a byte at each address below 2^32, in pages of 4,096 bytes.
//!
//! A byte that was never written is 0. A range is reserved before it is written, and that alone may
//! find no memory: it changes no byte, and a write to reserved pages changes the written bytes
//! alone and cannot fail. Contracts see a memory as its reserved pages with their bytes; the
//! definitions in `specs/Memory.antt` read it as a function from address to byte and as a test of
//! page numbers, and nothing else of it can be told.
#![tactic(auto)]

mod directory;
mod leaf;
mod memory;
mod page;
mod span;
#[cfg(test)]
mod tests;

pub use memory::PagedMem;
pub use page::PAGE_SIZE;
