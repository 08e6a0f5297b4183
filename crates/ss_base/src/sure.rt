//! Files and a stream in memory that never fail.
ghost use Rattle.std.specs.Prelude.{◌≡◌, ◌≢◌, ℕ, List, [], OnOk, OnErr, Some, None};
ghost use Rattle.std.specs.Option.{option_copied};
ghost use Rattle.ss_base.specs.Outside.{PutCounts, LoadCounts, Adds, Starts, Appends, Loads, HasLength, bytes_at, SameFiles, OthersStay};
ghost use Rattle.ss_base.specs.Memory.{files_of};

use crate::fault::{LoadFault, OutOfMemory, PutFault};
use crate::memory::{copy_file, grown_file, put_file};
use crate::outside::{Shelf, Sink};
use std::alloc::Global;
use std::collections::BTreeMap;

/// A stream in memory of which no call fails.
#[derive(Drop)]
pub struct SureSink {
    bytes: Vec<u8>,
}

impl SureSink {
    /// A stream that holds nothing.
    pub fn new(alloc: Global) -> SureSink
        ensures { ⟦<SureSink as Sink>⟧.contents result ≡ [] }
    {
        SureSink {
            bytes: Vec::new(alloc),
        }
    }

    /// What the stream holds.
    pub fn bytes(&self) -> &[u8]
        ensures { result.now ≡ ⟦<SureSink as Sink>⟧.contents self.now }
    {
        self.bytes.as_slice()
    }
}

impl Sink for SureSink {
    ghost tells = { λ _. Unit {0} };

    ghost contents = { λ s. s.bytes.items };

    ghost faults = { λ _. 0 };

    ghost calm = { λ _. Unit {0} };

    fn put(&mut self, bytes: &[u8]) -> Result<(), PutFault>
        ensures contents { Adds (⟦<SureSink as Sink>⟧.contents self.old) bytes.now (⟦<SureSink as Sink>⟧.contents self.new) result }
        ensures never { result ≢ Err PutFault.Failed }
    {
        self.bytes.extend_from_slice(bytes)?;
        Ok(())
    }
}

/// Files in memory of which no call fails. A name that isn't held reads as an empty file.
#[derive(Drop)]
pub struct SureShelf {
    files: BTreeMap<String, Vec<u8>>,
    alloc: Global,
}

impl SureShelf {
    /// A shelf that holds no file.
    pub fn new(alloc: Global) -> SureShelf
        ensures { (name : List ℕ) → ⟦<SureShelf as Shelf>⟧.files result name ≡ None }
    {
        SureShelf {
            files: BTreeMap::new(alloc),
            alloc,
        }
    }

    /// Puts a file in place of one of that name. This is no call of the trait.
    pub fn add(&mut self, name: &str, bytes: &[u8]) -> Result<(), OutOfMemory>
        ensures ok { OnOk result (⟦<SureShelf as Shelf>⟧.files self.new name.now ≡ Some bytes.now) }
        ensures err { OnErr result (SameFiles (⟦<SureShelf as Shelf>⟧.files self.old) (⟦<SureShelf as Shelf>⟧.files self.new)) }
        ensures others { OthersStay (⟦<SureShelf as Shelf>⟧.files self.old) name.now (⟦<SureShelf as Shelf>⟧.files self.new) }
    {
        let file = Vec::from_slice(self.alloc, bytes)?;
        put_file(&mut self.files, self.alloc, name, file)?;
        Ok(())
    }

    /// The bytes of a file, `None` exactly where no file of that name is held.
    pub fn bytes(&self, name: &str) -> Option<&[u8]>
        ensures { option_copied result ≡ ⟦<SureShelf as Shelf>⟧.files self.now name.now }
    {
        match self.files.get(name) {
            Some(file) => Some(file.as_slice()),
            None => None,
        }
    }
}

impl Shelf for SureShelf {
    ghost tells = { λ _. Unit {0} };

    ghost files = { λ s. files_of s.files };

    ghost faults = { λ _. 0 };

    ghost calm = { λ _. Unit {0} };

    fn load(&mut self, name: &str, limit: u64, into: &mut Vec<u8>) -> Result<(), LoadFault>
        ensures length { HasLength limit into.new.items result }
        ensures bytes { Loads (bytes_at (⟦<SureShelf as Shelf>⟧.files self.old) name.now) limit into.new.items result }
        ensures same { SameFiles (⟦<SureShelf as Shelf>⟧.files self.old) (⟦<SureShelf as Shelf>⟧.files self.new) }
        ensures never { result ≢ Err LoadFault.Failed }
    {
        into.clear();
        match self.files.get(name) {
            Some(file) => copy_file(file.as_slice(), limit, into),
            None => Ok(()),
        }
    }

    fn start(&mut self, name: &str) -> Result<(), PutFault>
        ensures file { Starts (⟦<SureShelf as Shelf>⟧.files self.old) name.now (⟦<SureShelf as Shelf>⟧.files self.new) result }
        ensures others { OthersStay (⟦<SureShelf as Shelf>⟧.files self.old) name.now (⟦<SureShelf as Shelf>⟧.files self.new) }
        ensures never { result ≢ Err PutFault.Failed }
        ensures unchanged { OnErr result (SameFiles (⟦<SureShelf as Shelf>⟧.files self.old) (⟦<SureShelf as Shelf>⟧.files self.new)) }
    {
        put_file(&mut self.files, self.alloc, name, Vec::new(self.alloc))?;
        Ok(())
    }

    fn append(&mut self, name: &str, bytes: &[u8]) -> Result<(), PutFault>
        ensures file { Appends (⟦<SureShelf as Shelf>⟧.files self.old) name.now bytes.now (⟦<SureShelf as Shelf>⟧.files self.new) result }
        ensures others { OthersStay (⟦<SureShelf as Shelf>⟧.files self.old) name.now (⟦<SureShelf as Shelf>⟧.files self.new) }
        ensures never { result ≢ Err PutFault.Failed }
        ensures unchanged { OnErr result (SameFiles (⟦<SureShelf as Shelf>⟧.files self.old) (⟦<SureShelf as Shelf>⟧.files self.new)) }
    {
        let grown = grown_file(&self.files, self.alloc, name, bytes)?;
        put_file(&mut self.files, self.alloc, name, grown)?;
        Ok(())
    }
}
