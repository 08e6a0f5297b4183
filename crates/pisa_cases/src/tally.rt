//! How many cases were run, and how many of them failed.
ghost use Rattle.std.specs.Prelude.{◌≡◌, ◌↔◌, ◌<◌, IsTrue};
ghost use Rattle.pisa_cases.specs.Counted.{Counted};

use crate::fault::LineFault;
use crate::reader::Told;

/// How many cases are over, and how many of them failed. Both stand still at the end of their type.
#[derive(Clone, Copy, Debug, Default)]
pub struct Tally {
    pub cases: u64,
    pub failed: u64,
}

impl Tally {
    /// Counts what a line came to.
    pub fn count(&mut self, told: &Result<Told, LineFault>)
        ensures { Counted told.now self.old self.new }
    {
        match told {
            Ok(Told::Nothing) => {}
            Ok(Told::Passed) => self.cases = self.cases.saturating_add(1),
            Ok(Told::Failed(_)) | Ok(Told::NotEnded(_)) | Err(_) => {
                self.cases = self.cases.saturating_add(1);
                self.failed = self.failed.saturating_add(1);
            }
        }
    }

    /// Whether there were cases, and none of them failed.
    pub fn is_good(&self) -> bool
        ensures { IsTrue result ↔ ((0 < self.now.cases) × (self.now.failed ≡ 0)) }
    {
        self.cases > 0 && self.failed == 0
    }
}
