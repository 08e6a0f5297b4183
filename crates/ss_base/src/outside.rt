ghost use Rattle.std.specs.Prelude.{◌≡◌, ◌≢◌, ℕ, List, Option, IsSome};
ghost use Rattle.ss_base.specs.Outside.{Files, PutCounts, LoadCounts, Adds, Starts, Appends, Loads, HasLength, OthersStay, SameFiles, bytes_at};

use crate::fault::{LoadFault, PutFault};

/// A stream that takes bytes.
pub trait Sink {
    /// Whether it tells what it holds.
    ghost tells: { Self → Type 0 };

    /// The bytes that it holds, where it tells them.
    ghost contents: { Self → List ℕ };

    /// How often it failed, up to the counter's last value.
    ghost faults: { Self → ℕ };

    /// From now on no put fails.
    ghost calm: { Self → Type 0 };

    /// Adds bytes at the end. After `Failed` a front of them was added, and the count of faults
    /// rose or stands at its last value. After `OutOfMemory` none was added.
    fn put(&mut self, bytes: &[u8]) -> Result<(), PutFault>
        ensures count { PutCounts (faults self.old) (faults self.new) result }
        ensures telling { tells self.old → tells self.new }
        ensures contents { tells self.old → Adds (contents self.old) bytes.now (contents self.new) result }
        ensures calm { calm self.old → calm self.new }
        ensures succeeds { calm self.old → result ≢ Err PutFault.Failed };
}

/// Files by name.
pub trait Shelf {
    /// Whether it tells what it holds.
    ghost tells: { Self → Type 0 };

    /// The files that it holds, where it tells them.
    ghost files: { Self → Files };

    /// How often it failed, up to the counter's last value.
    ghost faults: { Self → ℕ };

    /// From now on no call fails, except a load of a name that is not held.
    ghost calm: { Self → Type 0 };

    /// Replaces `into` by the bytes of the named file, of which there may be at most `limit`.
    ///
    /// `TooLong` leaves the file's first `limit + 1` bytes in `into`; every other refusal leaves
    /// a front of the file. The files stay.
    fn load(&mut self, name: &str, limit: u64, into: &mut Vec<u8>) -> Result<(), LoadFault>
        ensures count { LoadCounts (faults self.old) (faults self.new) result }
        ensures length { HasLength limit into.new.items result }
        ensures telling { tells self.old → tells self.new }
        ensures bytes { tells self.old → Loads (bytes_at (files self.old) name.now) limit into.new.items result }
        ensures same { tells self.old → SameFiles (files self.old) (files self.new) }
        ensures calm { calm self.old → calm self.new }
        ensures succeeds { calm self.old → tells self.old → IsSome (files self.old name.now) → result ≢ Err LoadFault.Failed };

    /// Makes the named file empty. After `Failed` it is as before or empty.
    fn start(&mut self, name: &str) -> Result<(), PutFault>
        ensures count { PutCounts (faults self.old) (faults self.new) result }
        ensures telling { tells self.old → tells self.new }
        ensures file { tells self.old → Starts (files self.old) name.now (files self.new) result }
        ensures others { tells self.old → OthersStay (files self.old) name.now (files self.new) }
        ensures calm { calm self.old → calm self.new }
        ensures succeeds { calm self.old → result ≢ Err PutFault.Failed };

    /// Adds bytes at the end of the named file, which is made where it is not held. After
    /// `Failed` a front of them was added, after `OutOfMemory` none.
    fn append(&mut self, name: &str, bytes: &[u8]) -> Result<(), PutFault>
        ensures count { PutCounts (faults self.old) (faults self.new) result }
        ensures telling { tells self.old → tells self.new }
        ensures file { tells self.old → Appends (files self.old) name.now bytes.now (files self.new) result }
        ensures others { tells self.old → OthersStay (files self.old) name.now (files self.new) }
        ensures calm { calm self.old → calm self.new }
        ensures succeeds { calm self.old → result ≢ Err PutFault.Failed };
}
