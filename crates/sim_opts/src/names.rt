//! Names that are owned, one after the other.
ghost use Rattle.std.specs.Prelude.{◌≡◌, ◌++◌, ◌∷◌, [], map, string_bytes, OnOk};

use crate::options::copied;
use ss_base::OutOfMemory;
use std::alloc::Global;
use std::marker::Model;

/// Names that are owned. Contracts see them as the list of their bytes.
#[derive(Debug, Drop)]
pub struct Names {
    names: Vec<String>,
}

impl Model for Names {
    ghost use Rattle.std.specs.Prelude.{List, ℕ, map, string_bytes};

    ghost Value = { List (List ℕ) };

    ghost view = { λ n. map string_bytes n.names.items };
}

impl Names {
    /// The names of a `Vec`.
    pub fn from_vec(names: Vec<String>) -> Names
        ensures { result ≡ map string_bytes names.items }
    {
        Names { names }
    }

    /// The names as a slice.
    pub fn as_slice(&self) -> &[String]
        ensures { map string_bytes result.now ≡ self.now }
    {
        self.names.as_slice()
    }

    /// Adds a name behind the others.
    pub(crate) fn add(&mut self, alloc: Global, name: &str) -> Result<(), OutOfMemory>
        ensures { OnOk result (self.new ≡ self.old ++ name.now ∷ []) }
    {
        let text = copied(alloc, name)?;
        self.names.push(text)?;
        Ok(())
    }
}
