//! The labels of a source and their addresses.
ghost use Rattle.std.specs.Prelude.{◌≡◌, ℕ, List, [], ◌∷◌, IfOk};
ghost use Rattle.std.specs.Option.{option_map};
ghost use Rattle.pisa_asm.specs.LabelMaps.{Holds};
ghost use Rattle.pisa_asm.specs.Sheets.{address_of, is_known, with_label};

use std::alloc::{AllocError, Global};
use std::collections::BTreeMap;

/// Labels with their addresses, in an ordered map.
#[derive(Debug, Drop)]
pub(crate) struct Labels<'a> {
    map: BTreeMap<&'a [u8], u32>,
}

impl<'a> Labels<'a> {
    /// No labels.
    pub(crate) fn new(alloc: Global) -> Labels<'a>
        ensures { Holds result [] }
    {
        Labels {
            map: BTreeMap::new(alloc),
        }
    }

    /// The address of a label.
    pub(crate) fn get(&self, name: &[u8]) -> Option<u32>
        ensures { (labels : List (List ℕ × ℕ)) → Holds self.now labels → result ≡ address_of labels name.now }
    {
        self.map.get(name).copied()
    }

    /// Whether a label is there already.
    pub(crate) fn has(&self, name: Option<&[u8]>) -> bool
        ensures { (labels : List (List ℕ × ℕ)) → Holds self.now labels → result ≡ is_known labels (option_map (λ l. l.now) name.entry) }
    {
        match name {
            None => false,
            Some(name) => self.get(name).is_some(),
        }
    }

    /// The labels with one more, where there is one.
    pub(crate) fn with(self, name: Option<&'a [u8]>, address: u32) -> Result<Labels<'a>, AllocError>
        ensures { (labels : List (List ℕ × ℕ)) → Holds self.entry labels → IfOk result (λ now. Holds now (with_label labels (option_map (λ l. l.now) name.entry) address)) }
    {
        match name {
            None => Ok(self),
            Some(name) => self.adding(name, address),
        }
    }

    /// The labels with this one more.
    fn adding(self, name: &'a [u8], address: u32) -> Result<Labels<'a>, AllocError>
        ensures { (labels : List (List ℕ × ℕ)) → Holds self.entry labels → IfOk result (λ now. Holds now ((name.now, address) ∷ labels)) }
    {
        let mut map = self.map;
        match map.insert(name, address) {
            Ok(_) => Ok(Labels { map }),
            Err(error) => Err(AllocError::from(error)),
        }
    }
}
