//! What the simulators need of the outside: files by name, output streams, and numbers as text.
//!
//! Files and streams are traits, `Shelf` and `Sink`, whose contracts say what each call does to
//! what is held, when a call may fail, and how failures are counted. The crate promises that a
//! call fails only where its count of faults rose, that a fault leaves a front of what was to be
//! written, that files other than the named one stay, and that what is `calm` does not fail from
//! then on. `MemShelf` and `MemSink` hold what they were given and fail at chosen calls;
//! `SureShelf` and `SureSink` never fail; `HostShelf` and `HostSink` reach real files and streams.
#![tactic(auto)]

mod bytes;
mod fault;
mod host;
mod memory;
mod outside;
mod sure;
#[cfg(test)]
mod tests;
mod text;
mod text_fault;

pub use bytes::{Bytes, Name};
pub use fault::{LoadFault, OutOfMemory, PutFault};
pub use host::{HostShelf, HostSink};
pub use memory::{MemShelf, MemSink};
pub use outside::{Shelf, Sink};
pub use sure::{SureShelf, SureSink};
pub use text::{get16, get32, get64, push_decimal, push_hex, push_hex_bytes};
pub use text_fault::{AsmFault, TextWhy};
