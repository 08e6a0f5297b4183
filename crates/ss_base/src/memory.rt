ghost use Rattle.std.specs.Prelude.{◌≡◌, ◌≢◌, ℕ, ◌+◌, ◌-◌, ◌^◌, ◌<◌, ◌≤◌, ◌↔◌, ◌⊎◌, List, [], ◌∷◌, ◌++◌, min, IsTrue, Contains, OnOk, OnErr};
ghost use Rattle.std.specs.Bool.{OnTrue, OnFalse};
ghost use Rattle.std.specs.Prelude.{Some, None, IfOk, IsSome};
ghost use Rattle.std.specs.Option.{option_copied};
ghost use Rattle.std.specs.BTreeMap.{get_by_text};
ghost use Rattle.ss_base.specs.Outside.{PutCounts, LoadCounts, Adds, Starts, Appends, Loads, HasLength, bytes_at, SameFiles, OthersStay};
ghost use Rattle.ss_base.specs.Memory.{files_of, NoneListed, number_after};

use crate::fault::{LoadFault, OutOfMemory, PutFault};
use crate::outside::{Shelf, Sink};
use std::alloc::{AllocError, Global};
use std::collections::BTreeMap;

/// Which calls are to fail, the number of the next call, and how many failed.
#[derive(Drop)]
struct Calls {
    failing: Vec<u64>,
    next: u64,
    faults: u64,
}

impl Calls {
    fn new(alloc: Global) -> Calls
        ensures failing { result.failing.items ≡ [] }
        ensures next { result.next ≡ 0 }
        ensures faults { result.faults ≡ 0 }
    {
        Calls {
            failing: Vec::new(alloc),
            next: 0,
            faults: 0,
        }
    }

    /// Lists one more call that is to fail.
    fn fail_call(&mut self, n: u64) -> Result<(), OutOfMemory>
        ensures ok { OnOk result (self.new.failing.items ≡ self.old.failing.items ++ n ∷ []) }
        ensures err { OnErr result (self.new.failing.items ≡ self.old.failing.items) }
        ensures next { self.new.next ≡ self.old.next }
        ensures faults { self.new.faults ≡ self.old.faults }
    {
        self.failing.push(n)?;
        Ok(())
    }

    /// Counts one more failure.
    fn fault(&mut self)
        ensures failing { self.new.failing.items ≡ self.old.failing.items }
        ensures next { self.new.next ≡ self.old.next }
        ensures later { self.old.faults ≤ self.new.faults }
        ensures faults { self.new.faults ≡ min (self.old.faults + 1) (2 ^ 64 - 1) }
    {
        self.faults = self.faults.saturating_add(1);
    }

    /// Counts a call, and answers whether it is to fail.
    fn fails(&mut self) -> bool
        ensures listed { IsTrue result ↔ Contains self.old.failing.items self.old.next }
        ensures calm { NoneListed self.old.failing.items self.old.next → NoneListed self.new.failing.items self.new.next }
        ensures failing { self.new.failing.items ≡ self.old.failing.items }
        ensures next { self.new.next ≡ number_after self.old.next }
        ensures later { self.old.faults ≤ self.new.faults }
        ensures failed { OnTrue result (self.new.faults ≡ min (self.old.faults + 1) (2 ^ 64 - 1)) }
        ensures passed { OnFalse result (self.new.faults ≡ self.old.faults) }
    {
        let failed = self.failing.contains(&self.next);
        self.next = self.next.saturating_add(1);
        if failed {
            self.faults = self.faults.saturating_add(1);
        }
        failed
    }
}

/// A stream in memory, of which chosen calls fail.
#[derive(Drop)]
pub struct MemSink {
    bytes: Vec<u8>,
    calls: Calls,
}

impl MemSink {
    ghost use Rattle.ss_base.specs.Listed.{sink_listed, sink_next};

    /// A stream that holds nothing, and of which no call fails.
    pub fn new(alloc: Global) -> MemSink
        ensures contents { ⟦<MemSink as Sink>⟧.contents result ≡ [] }
        ensures faults { ⟦<MemSink as Sink>⟧.faults result ≡ 0 }
        ensures calm { ⟦<MemSink as Sink>⟧.calm result }
        ensures listed { sink_listed result ≡ [] }
        ensures next { sink_next result ≡ 0 }
    {
        MemSink {
            bytes: Vec::new(alloc),
            calls: Calls::new(alloc),
        }
    }

    /// Lists call `n` of the trait, counted from 0, as one that is to fail.
    pub fn fail_call(&mut self, n: u64) -> Result<(), OutOfMemory>
        ensures ok { OnOk result (sink_listed self.new ≡ sink_listed self.old ++ n ∷ []) }
        ensures err { OnErr result (sink_listed self.new ≡ sink_listed self.old) }
        ensures next { sink_next self.new ≡ sink_next self.old }
        ensures contents { ⟦<MemSink as Sink>⟧.contents self.new ≡ ⟦<MemSink as Sink>⟧.contents self.old }
        ensures faults { ⟦<MemSink as Sink>⟧.faults self.new ≡ ⟦<MemSink as Sink>⟧.faults self.old }
    {
        self.calls.fail_call(n)
    }

    /// What the stream holds.
    pub fn bytes(&self) -> &[u8]
        ensures { result.now ≡ ⟦<MemSink as Sink>⟧.contents self.now }
    {
        self.bytes.as_slice()
    }
}

impl Sink for MemSink {
    ghost use Rattle.ss_base.specs.Listed.{sink_listed, sink_next};

    ghost tells = { λ _. Unit {0} };

    ghost contents = { λ s. s.bytes.items };

    ghost faults = { λ s. s.calls.faults };

    ghost calm = { λ s. NoneListed s.calls.failing.items s.calls.next };

    fn put(&mut self, bytes: &[u8]) -> Result<(), PutFault>
        ensures count { PutCounts (⟦<MemSink as Sink>⟧.faults self.old) (⟦<MemSink as Sink>⟧.faults self.new) result }
        ensures telling { ⟦<MemSink as Sink>⟧.tells self.old → ⟦<MemSink as Sink>⟧.tells self.new }
        ensures contents { ⟦<MemSink as Sink>⟧.tells self.old → Adds (⟦<MemSink as Sink>⟧.contents self.old) bytes.now (⟦<MemSink as Sink>⟧.contents self.new) result }
        ensures calm { ⟦<MemSink as Sink>⟧.calm self.old → ⟦<MemSink as Sink>⟧.calm self.new }
        ensures succeeds { ⟦<MemSink as Sink>⟧.calm self.old → result ≢ Err PutFault.Failed }
        ensures listed { (result ≡ Err PutFault.Failed) ↔ Contains (sink_listed self.old) (sink_next self.old) }
        ensures unchanged { OnErr result (⟦<MemSink as Sink>⟧.contents self.new ≡ ⟦<MemSink as Sink>⟧.contents self.old) }
        ensures stays { sink_listed self.new ≡ sink_listed self.old }
        ensures next { sink_next self.new ≡ number_after (sink_next self.old) }
    {
        if self.calls.fails() {
            return Err(PutFault::Failed);
        }
        self.bytes.extend_from_slice(bytes)?;
        Ok(())
    }
}

/// Files in memory, of which chosen calls fail.
#[derive(Drop)]
pub struct MemShelf {
    files: BTreeMap<String, Vec<u8>>,
    alloc: Global,
    calls: Calls,
}

/// Puts a file in place of one of that name.
pub(crate) fn put_file(
    files: &mut BTreeMap<String, Vec<u8>>,
    alloc: Global,
    name: &str,
    bytes: Vec<u8>,
) -> Result<(), AllocError>
    ensures ok { OnOk result (get_by_text files.new name.now ≡ Some bytes) }
    ensures others { (other : List ℕ) → other ≢ name.now → get_by_text files.new other ≡ get_by_text files.old other }
    ensures err { OnErr result ((other : List ℕ) → get_by_text files.new other ≡ get_by_text files.old other) }
{
    let key = String::from_str(alloc, name)?;
    files.insert(key, bytes)?;
    Ok(())
}

/// The bytes of a file with more bytes at their end.
pub(crate) fn grown_file(
    files: &BTreeMap<String, Vec<u8>>,
    alloc: Global,
    name: &str,
    bytes: &[u8],
) -> Result<Vec<u8>, AllocError>
    ensures { IfOk result (λ file. file.items ≡ bytes_at (files_of files.now) name.now ++ bytes.now) }
{
    let mut grown = Vec::new(alloc);
    if let Some(file) = files.get(name) {
        grown.extend_from_slice(file.as_slice())?;
    }
    grown.extend_from_slice(bytes)?;
    Ok(grown)
}

/// Copies the bytes of a file, of which there may be at most `limit`.
pub(crate) fn copy_file(file: &[u8], limit: u64, into: &mut Vec<u8>) -> Result<(), LoadFault>
    requires { into.old.items ≡ [] }
    ensures loads { Loads file.now limit into.new.items result }
    ensures length { HasLength limit into.new.items result }
    ensures quiet { result ≢ Err LoadFault.Failed }
{
    if file.len() as u64 <= limit {
        into.extend_from_slice(file)?;
        return Ok(());
    }
    into.extend_from_slice(&file[..limit as usize + 1])?;
    Err(LoadFault::TooLong)
}

impl MemShelf {
    ghost use Rattle.ss_base.specs.Listed.{shelf_listed, shelf_next};

    /// A shelf that holds no file, and of which no call fails.
    pub fn new(alloc: Global) -> MemShelf
        ensures files { (name : List ℕ) → ⟦<MemShelf as Shelf>⟧.files result name ≡ None }
        ensures faults { ⟦<MemShelf as Shelf>⟧.faults result ≡ 0 }
        ensures calm { ⟦<MemShelf as Shelf>⟧.calm result }
        ensures listed { shelf_listed result ≡ [] }
        ensures next { shelf_next result ≡ 0 }
    {
        MemShelf {
            files: BTreeMap::new(alloc),
            alloc,
            calls: Calls::new(alloc),
        }
    }

    /// Puts a file in place of one of that name. This is no call of the trait.
    pub fn add(&mut self, name: &str, bytes: &[u8]) -> Result<(), OutOfMemory>
        ensures ok { OnOk result (⟦<MemShelf as Shelf>⟧.files self.new name.now ≡ Some bytes.now) }
        ensures err { OnErr result (SameFiles (⟦<MemShelf as Shelf>⟧.files self.old) (⟦<MemShelf as Shelf>⟧.files self.new)) }
        ensures others { OthersStay (⟦<MemShelf as Shelf>⟧.files self.old) name.now (⟦<MemShelf as Shelf>⟧.files self.new) }
        ensures faults { ⟦<MemShelf as Shelf>⟧.faults self.new ≡ ⟦<MemShelf as Shelf>⟧.faults self.old }
        ensures calm { ⟦<MemShelf as Shelf>⟧.calm self.old → ⟦<MemShelf as Shelf>⟧.calm self.new }
        ensures listed { shelf_listed self.new ≡ shelf_listed self.old }
        ensures next { shelf_next self.new ≡ shelf_next self.old }
    {
        let file = Vec::from_slice(self.alloc, bytes)?;
        put_file(&mut self.files, self.alloc, name, file)?;
        Ok(())
    }

    /// Lists call `n` of the trait, counted from 0, as one that is to fail.
    pub fn fail_call(&mut self, n: u64) -> Result<(), OutOfMemory>
        ensures ok { OnOk result (shelf_listed self.new ≡ shelf_listed self.old ++ n ∷ []) }
        ensures err { OnErr result (shelf_listed self.new ≡ shelf_listed self.old) }
        ensures next { shelf_next self.new ≡ shelf_next self.old }
        ensures files { SameFiles (⟦<MemShelf as Shelf>⟧.files self.old) (⟦<MemShelf as Shelf>⟧.files self.new) }
        ensures faults { ⟦<MemShelf as Shelf>⟧.faults self.new ≡ ⟦<MemShelf as Shelf>⟧.faults self.old }
    {
        self.calls.fail_call(n)
    }

    /// The bytes of a file, `None` exactly where no file of that name is held.
    pub fn bytes(&self, name: &str) -> Option<&[u8]>
        ensures { option_copied result ≡ ⟦<MemShelf as Shelf>⟧.files self.now name.now }
    {
        match self.files.get(name) {
            Some(file) => Some(file.as_slice()),
            None => None,
        }
    }
}

impl Shelf for MemShelf {
    ghost use Rattle.ss_base.specs.Listed.{shelf_listed, shelf_next};

    ghost tells = { λ _. Unit {0} };

    ghost files = { λ s. files_of s.files };

    ghost faults = { λ s. s.calls.faults };

    ghost calm = { λ s. NoneListed s.calls.failing.items s.calls.next };

    fn load(&mut self, name: &str, limit: u64, into: &mut Vec<u8>) -> Result<(), LoadFault>
        ensures count { LoadCounts (⟦<MemShelf as Shelf>⟧.faults self.old) (⟦<MemShelf as Shelf>⟧.faults self.new) result }
        ensures length { HasLength limit into.new.items result }
        ensures telling { ⟦<MemShelf as Shelf>⟧.tells self.old → ⟦<MemShelf as Shelf>⟧.tells self.new }
        ensures bytes { ⟦<MemShelf as Shelf>⟧.tells self.old → Loads (bytes_at (⟦<MemShelf as Shelf>⟧.files self.old) name.now) limit into.new.items result }
        ensures same { ⟦<MemShelf as Shelf>⟧.tells self.old → SameFiles (⟦<MemShelf as Shelf>⟧.files self.old) (⟦<MemShelf as Shelf>⟧.files self.new) }
        ensures calm { ⟦<MemShelf as Shelf>⟧.calm self.old → ⟦<MemShelf as Shelf>⟧.calm self.new }
        ensures succeeds { ⟦<MemShelf as Shelf>⟧.calm self.old → ⟦<MemShelf as Shelf>⟧.tells self.old → IsSome (⟦<MemShelf as Shelf>⟧.files self.old name.now) → result ≢ Err LoadFault.Failed }
        ensures listed { Contains (shelf_listed self.old) (shelf_next self.old) → result ≡ Err LoadFault.Failed }
        ensures missing { ⟦<MemShelf as Shelf>⟧.files self.old name.now ≡ None → result ≡ Err LoadFault.Failed }
        ensures failed { result ≡ Err LoadFault.Failed → Contains (shelf_listed self.old) (shelf_next self.old) ⊎ (⟦<MemShelf as Shelf>⟧.files self.old name.now ≡ None) }
        ensures nothing { result ≡ Err LoadFault.Failed → into.new.items ≡ [] }
        ensures stays { shelf_listed self.new ≡ shelf_listed self.old }
        ensures next { shelf_next self.new ≡ number_after (shelf_next self.old) }
    {
        into.clear();
        if self.calls.fails() {
            return Err(LoadFault::Failed);
        }
        match self.files.get(name) {
            Some(file) => copy_file(file.as_slice(), limit, into),
            None => {
                self.calls.fault();
                Err(LoadFault::Failed)
            }
        }
    }

    fn start(&mut self, name: &str) -> Result<(), PutFault>
        ensures count { PutCounts (⟦<MemShelf as Shelf>⟧.faults self.old) (⟦<MemShelf as Shelf>⟧.faults self.new) result }
        ensures telling { ⟦<MemShelf as Shelf>⟧.tells self.old → ⟦<MemShelf as Shelf>⟧.tells self.new }
        ensures file { ⟦<MemShelf as Shelf>⟧.tells self.old → Starts (⟦<MemShelf as Shelf>⟧.files self.old) name.now (⟦<MemShelf as Shelf>⟧.files self.new) result }
        ensures others { ⟦<MemShelf as Shelf>⟧.tells self.old → OthersStay (⟦<MemShelf as Shelf>⟧.files self.old) name.now (⟦<MemShelf as Shelf>⟧.files self.new) }
        ensures calm { ⟦<MemShelf as Shelf>⟧.calm self.old → ⟦<MemShelf as Shelf>⟧.calm self.new }
        ensures succeeds { ⟦<MemShelf as Shelf>⟧.calm self.old → result ≢ Err PutFault.Failed }
        ensures listed { (result ≡ Err PutFault.Failed) ↔ Contains (shelf_listed self.old) (shelf_next self.old) }
        ensures unchanged { OnErr result (SameFiles (⟦<MemShelf as Shelf>⟧.files self.old) (⟦<MemShelf as Shelf>⟧.files self.new)) }
        ensures stays { shelf_listed self.new ≡ shelf_listed self.old }
        ensures next { shelf_next self.new ≡ number_after (shelf_next self.old) }
    {
        if self.calls.fails() {
            return Err(PutFault::Failed);
        }
        put_file(&mut self.files, self.alloc, name, Vec::new(self.alloc))?;
        Ok(())
    }

    fn append(&mut self, name: &str, bytes: &[u8]) -> Result<(), PutFault>
        ensures count { PutCounts (⟦<MemShelf as Shelf>⟧.faults self.old) (⟦<MemShelf as Shelf>⟧.faults self.new) result }
        ensures telling { ⟦<MemShelf as Shelf>⟧.tells self.old → ⟦<MemShelf as Shelf>⟧.tells self.new }
        ensures file { ⟦<MemShelf as Shelf>⟧.tells self.old → Appends (⟦<MemShelf as Shelf>⟧.files self.old) name.now bytes.now (⟦<MemShelf as Shelf>⟧.files self.new) result }
        ensures others { ⟦<MemShelf as Shelf>⟧.tells self.old → OthersStay (⟦<MemShelf as Shelf>⟧.files self.old) name.now (⟦<MemShelf as Shelf>⟧.files self.new) }
        ensures calm { ⟦<MemShelf as Shelf>⟧.calm self.old → ⟦<MemShelf as Shelf>⟧.calm self.new }
        ensures succeeds { ⟦<MemShelf as Shelf>⟧.calm self.old → result ≢ Err PutFault.Failed }
        ensures listed { (result ≡ Err PutFault.Failed) ↔ Contains (shelf_listed self.old) (shelf_next self.old) }
        ensures unchanged { OnErr result (SameFiles (⟦<MemShelf as Shelf>⟧.files self.old) (⟦<MemShelf as Shelf>⟧.files self.new)) }
        ensures stays { shelf_listed self.new ≡ shelf_listed self.old }
        ensures next { shelf_next self.new ≡ number_after (shelf_next self.old) }
    {
        if self.calls.fails() {
            return Err(PutFault::Failed);
        }
        let grown = grown_file(&self.files, self.alloc, name, bytes)?;
        put_file(&mut self.files, self.alloc, name, grown)?;
        Ok(())
    }
}
