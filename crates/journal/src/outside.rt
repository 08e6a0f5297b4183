ghost use Rattle.std.specs.Prelude.{◌≡◌, [], ◌∷◌};
ghost use Rattle.journal.specs.Write.{Start, Append, Output, Report};
ghost use Rattle.journal.specs.View.{View, Writes};
ghost use Rattle.journal.specs.Load.{input, Loads};
ghost use Rattle.journal.specs.Parts.{parts_view, through, parts_of, names_of};

use crate::fault::Fault;
use ss_base::{LoadFault, PutFault, Shelf, Sink};

/// Files by name and two streams: all that a command can reach. Each call says what it does to what
/// is held, and keeps what stays.
pub trait Outside {
    /// What contracts see of it.
    ghost view: { View Self };

    /// Loads the named file in place of what `into` holds; it may have at most `limit` bytes.
    fn load(&mut self, name: &str, limit: u64, into: &mut Vec<u8>) -> Result<(), LoadFault>
        ensures { Loads view self.old (input name.now limit) into.new.items self.new result };

    /// Makes the named file empty, or makes an empty one of that name.
    fn start(&mut self, name: &str) -> Result<(), Fault>
        ensures { Writes view self.old (Start name.now ∷ []) self.new result };

    /// Adds bytes at the end of the named file, which is made where there is none.
    fn append(&mut self, name: &str, bytes: &[u8]) -> Result<(), Fault>
        ensures { Writes view self.old (Append name.now bytes.now ∷ []) self.new result };

    /// Adds bytes at the end of the first stream, where the output of programs goes.
    fn put_output(&mut self, bytes: &[u8]) -> Result<(), Fault>
        ensures { Writes view self.old (Output bytes.now ∷ []) self.new result };

    /// Adds bytes at the end of the second stream, where refusals and statistics go.
    fn put_report(&mut self, bytes: &[u8]) -> Result<(), Fault>
        ensures { Writes view self.old (Report bytes.now ∷ []) self.new result };
}

/// The outside that a shelf and two streams make.
#[derive(Drop)]
pub struct Borrowed<'h, 'p, 'r, H, P, R> {
    /// The files.
    pub shelf: &'h mut H,
    /// The stream for output.
    pub prog: &'p mut P,
    /// The stream for refusals and statistics.
    pub stat: &'r mut R,
}

impl<'h, 'p, 'r, H: Shelf, P: Sink, R: Sink> Outside for Borrowed<'h, 'p, 'r, H, P, R> {
    ghost view = { through parts_of names_of (parts_view H.tells H.calm H.files H.faults P.tells P.contents P.faults P.calm R.tells R.contents R.faults R.calm) };

    fn load(&mut self, name: &str, limit: u64, into: &mut Vec<u8>) -> Result<(), LoadFault> {
        self.shelf.load(name, limit, into)
    }

    fn start(&mut self, name: &str) -> Result<(), Fault> {
        match self.shelf.start(name) {
            Ok(()) => Ok(()),
            Err(PutFault::Failed) => Err(Fault::Shelf),
            Err(PutFault::OutOfMemory) => Err(Fault::OutOfMemory),
        }
    }

    fn append(&mut self, name: &str, bytes: &[u8]) -> Result<(), Fault> {
        match self.shelf.append(name, bytes) {
            Ok(()) => Ok(()),
            Err(PutFault::Failed) => Err(Fault::Shelf),
            Err(PutFault::OutOfMemory) => Err(Fault::OutOfMemory),
        }
    }

    fn put_output(&mut self, bytes: &[u8]) -> Result<(), Fault> {
        match self.prog.put(bytes) {
            Ok(()) => Ok(()),
            Err(PutFault::Failed) => Err(Fault::Prog),
            Err(PutFault::OutOfMemory) => Err(Fault::OutOfMemory),
        }
    }

    fn put_report(&mut self, bytes: &[u8]) -> Result<(), Fault> {
        match self.stat.put(bytes) {
            Ok(()) => Ok(()),
            Err(PutFault::Failed) => Err(Fault::Stat),
            Err(PutFault::OutOfMemory) => Err(Fault::OutOfMemory),
        }
    }
}
