// The pages of one leaf of the directory.
ghost use Rattle.std.specs.Prelude.{◌≡◌, ℕ, ◌+◌, ◌<◌, ◌≤◌, [], length, get_or, set, replicate, slice_index, IfOk, IfSome, IfNone, OnOk, OnErr, MatchBool};
ghost use borrow.Rule.Slice.PartMut.{put_mid};

use super::page::Page;
use std::alloc::{AllocError, Global};
use std::marker::Model;

/// How many leaves a directory has, and how many pages a leaf has.
pub const ENTRIES: usize = 1024;

/// The pages of a leaf, or none where it was never taken. Contracts see a list of the pages' bytes.
#[derive(Drop)]
pub struct Leaf {
    pages: Vec<Page>,
}

impl Model for Leaf {
    ghost use Rattle.std.specs.Prelude.{List, ℕ};

    ghost Value = { List (List ℕ) };

    ghost view = { λ l. l.pages.items };
}

impl Clone for Leaf {
    ghost is_clone = { λ leaf clone. clone ≡ leaf };

    fn clone(&self) -> Result<Leaf, AllocError> {
        let pages = self.pages.clone()?;
        Ok(Leaf { pages })
    }
}

impl Leaf {
    /// A leaf that was never taken.
    pub fn absent(alloc: Global) -> Leaf
        ensures { result ≡ [] }
    {
        Leaf {
            pages: Vec::new(alloc),
        }
    }

    /// A leaf without a reserved page.
    pub fn empty(alloc: Global) -> Result<Leaf, AllocError>
        ensures { IfOk result (λ leaf. leaf ≡ replicate 1024 []) }
    {
        let pages = vec![in alloc; Page::absent(alloc); ENTRIES]?;
        Ok(Leaf { pages })
    }

    /// Whether it was never taken.
    pub fn is_absent(&self) -> bool
        ensures { MatchBool result (self.now ≡ []) (0 < length self.now) }
    {
        self.pages.is_empty()
    }

    /// The bytes of the page at a place, none where it isn't reserved.
    pub fn bytes_of(&self, place: usize) -> &[u8]
        ensures { result.now ≡ get_or self.now place [] }
    {
        match self.pages.get(place) {
            Some(page) => page.as_slice(),
            None => &[],
        }
    }

    /// Gives the page at a place bytes of 0.
    pub fn zero(&mut self, alloc: Global, place: usize) -> Result<(), AllocError>
        requires { place < length self.old }
        ensures ok { OnOk result (self.new ≡ set self.old place (replicate 4096 0)) }
        ensures err { OnErr result (self.new ≡ self.old) }
    {
        let page = Page::zeroed(alloc)?;
        self.pages[place] = page;
        Ok(())
    }

    /// Writes bytes from an offset in the page at a place on.
    pub fn write(&mut self, place: usize, offset: usize, bytes: &[u8])
        requires place { place < length self.old }
        requires fits { offset + length bytes.now ≤ length (get_or self.old place []) }
        ensures { self.new
            ≡ set self.old place (put_mid offset (length bytes.now) (get_or self.old place []) bytes.now) }
    {
        self.pages[place].write(offset, bytes);
    }

    /// The least place from `from` on of a page with a byte other than 0.
    pub fn place_from(&self, from: usize) -> Option<usize>
        ensures found { IfSome result (λ place. (from ≤ place) × (place < length self.now) × (k : ℕ)
            × (k < length (get_or self.now place [])) × (slice_index (get_or self.now place []) k ≡ 0 → ⊥)) }
        ensures least { IfSome result (λ place. (j k : ℕ) → from ≤ j → j < place → slice_index (get_or self.now j []) k ≡ 0) }
        ensures none { IfNone result ((j k : ℕ) → from ≤ j → slice_index (get_or self.now j []) k ≡ 0) }
    {
        for place in from..self.pages.len() {
            if !self.pages[place].is_zero() {
                return Some(place);
            }
        }
        None
    }
}
