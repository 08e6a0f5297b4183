ghost use Rattle.std.specs.Prelude.{◌≡◌, ◌≢◌, ◌+◌, ◌≤◌, ◌<◌, None, [], IsSome, IsTrue, OnOk, length, unwrap_or};
ghost use Rattle.std.specs.Io.KnownBytes.{IsAtEnd};
ghost use Rattle.ss_base.specs.Outside.{HasLength};
ghost use Rattle.ss_base.specs.Known.{WritesWhole, ReadsWhole};

use crate::fault::{LoadFault, PutFault};
use crate::outside::{Shelf, Sink};
use std::fs::{File, OpenOptions};
use std::io::{Read, Write};
use std::rt::Files;

/// The real files of a runtime. It tells nothing of what they hold.
#[derive(Drop)]
pub struct HostShelf<'a, R> {
    rt: &'a R,
    faults: u64,
}

/// A stream over a writer. It tells what the writer tells.
#[derive(Drop)]
pub struct HostSink<W> {
    out: W,
    faults: u64,
}

/// Writes bytes, and answers whether all were written.
fn write_whole<W: Write>(out: &mut W, bytes: &[u8]) -> bool
    ensures bytes { WritesWhole (W.contents out.old) (W.contents out.new) bytes.now result }
    ensures none { bytes.now ≡ [] → IsTrue result }
{
    let mut rest = bytes;
    for _ in 0..u64::MAX {
        if rest.is_empty() {
            return true;
        }
        match out.write(rest) {
            Ok(0) => return false,
            Ok(count) => rest = &rest[count..],
            Err(_) => return false,
        }
    }
    rest.is_empty()
}

impl<W: Write + Drop> HostSink<W> {
    /// A stream that writes to `out`. Its count of faults is 0.
    pub fn new(out: W) -> HostSink<W>
        ensures faults { ⟦<HostSink<W> as Sink>⟧.faults result ≡ 0 }
        ensures telling { IsSome (W.contents out) → ⟦<HostSink<W> as Sink>⟧.tells result }
        ensures contents { ⟦<HostSink<W> as Sink>⟧.contents result ≡ unwrap_or (W.contents out) [] }
    {
        HostSink { out, faults: 0 }
    }
}

impl<W: Write + Drop> Sink for HostSink<W> {
    ghost tells = { λ s. IsSome (W.contents s.out) };

    ghost contents = { λ s. unwrap_or (W.contents s.out) [] };

    ghost faults = { λ s. s.faults };

    ghost calm = { λ _. ⊥ };

    fn put(&mut self, bytes: &[u8]) -> Result<(), PutFault> {
        if write_whole(&mut self.out, bytes) {
            return Ok(());
        }
        self.faults = self.faults.saturating_add(1);
        Err(PutFault::Failed)
    }
}

impl<'a, R: Files> HostShelf<'a, R> {
    /// The files that `rt` reaches. Its count of faults is 0.
    pub fn new(rt: &'a R) -> HostShelf<'a, R>
        ensures { ⟦<HostShelf<'a, R> as Shelf>⟧.faults result ≡ 0 }
    {
        HostShelf { rt, faults: 0 }
    }
}

/// Reads the rest of a file of at most `limit` bytes.
fn read_whole<F: Read>(file: &mut F, limit: u64, into: &mut Vec<u8>) -> Result<(), LoadFault>
    requires { length into.old.items ≡ 0 }
    ensures length { HasLength limit into.new.items result }
    ensures bytes { ReadsWhole (F.remaining file.old) limit into.new.items result }
    ensures end { OnOk result (IsAtEnd (F.remaining file.new)) }
{
    let mut buffer = [0u8; 4096];
    for _ in 0..u64::MAX {
        let Ok(count) = file.read(&mut buffer) else {
            return Err(LoadFault::Failed);
        };
        if count == 0 {
            return Ok(());
        }
        into.extend_from_slice(&buffer[..count])?;
        if into.len() as u64 > limit {
            into.truncate(limit as usize + 1);
            return Err(LoadFault::TooLong);
        }
    }
    Err(LoadFault::Failed)
}

impl<'a, R: Files> Shelf for HostShelf<'a, R> {
    ghost tells = { λ _. ⊥ };

    ghost files = { λ _ _. None };

    ghost faults = { λ s. s.faults };

    ghost calm = { λ _. ⊥ };

    fn load(&mut self, name: &str, limit: u64, into: &mut Vec<u8>) -> Result<(), LoadFault> {
        into.clear();
        let loaded = match File::open(self.rt, name) {
            Ok(mut file) => read_whole(&mut file, limit, into),
            Err(_) => Err(LoadFault::Failed),
        };
        if loaded == Err(LoadFault::Failed) {
            self.faults = self.faults.saturating_add(1);
        }
        loaded
    }

    fn start(&mut self, name: &str) -> Result<(), PutFault> {
        if File::create(self.rt, name).is_ok() {
            return Ok(());
        }
        self.faults = self.faults.saturating_add(1);
        Err(PutFault::Failed)
    }

    fn append(&mut self, name: &str, bytes: &[u8]) -> Result<(), PutFault> {
        let mut options = OpenOptions::new();
        options.append(true).create(true);
        if let Ok(mut file) = options.open(self.rt, name) {
            if write_whole(&mut file, bytes) {
                return Ok(());
            }
        }
        self.faults = self.faults.saturating_add(1);
        Err(PutFault::Failed)
    }
}
