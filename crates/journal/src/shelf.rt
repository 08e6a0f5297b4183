//! The files of an outside as a shelf, for calls that are given over any shelf.
ghost use Rattle.std.specs.Prelude.{◌≡◌};
ghost use Rattle.journal.specs.Shelf.{put_result};

use crate::fault::Fault;
use crate::outside::Outside;
use ss_base::{LoadFault, PutFault, Shelf};

/// The files of an outside, whose streams no call of the shelf reaches.
#[derive(Drop)]
pub struct OutsideShelf<'o, O> {
    /// Where the files are.
    pub outside: &'o mut O,
}

/// The answer of a shelf to a write of a file.
fn put_result(written: Result<(), Fault>) -> Result<(), PutFault>
    ensures { result ≡ put_result written }
{
    match written {
        Ok(()) => Ok(()),
        Err(Fault::OutOfMemory) => Err(PutFault::OutOfMemory),
        // no write of a file is a fault of a stream
        Err(Fault::Shelf | Fault::Prog | Fault::Stat) => Err(PutFault::Failed),
    }
}

impl<'o, O: Outside> Shelf for OutsideShelf<'o, O> {
    ghost tells = { λ s. O.view.tells s.outside.now };

    ghost files = { λ s. O.view.files s.outside.now };

    ghost faults = { λ s. O.view.faults s.outside.now };

    ghost calm = { λ s. O.view.calm s.outside.now };

    fn load(&mut self, name: &str, limit: u64, into: &mut Vec<u8>) -> Result<(), LoadFault> {
        self.outside.load(name, limit, into)
    }

    fn start(&mut self, name: &str) -> Result<(), PutFault> {
        put_result(self.outside.start(name))
    }

    fn append(&mut self, name: &str, bytes: &[u8]) -> Result<(), PutFault> {
        put_result(self.outside.append(name, bytes))
    }
}
