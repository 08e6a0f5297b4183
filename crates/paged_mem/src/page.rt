// The bytes of one page.
ghost use Rattle.std.specs.Prelude.{◌≡◌, ℕ, ◌+◌, ◌<◌, ◌≤◌, [], length, replicate, slice_index, IfOk, MatchBool};
ghost use borrow.Rule.Slice.PartMut.{put_mid};

use std::alloc::{AllocError, Global};
use std::marker::Model;

/// How many bytes a page has.
pub const PAGE_SIZE: u32 = 4096;

/// `PAGE_SIZE` as a length.
pub const LENGTH: usize = PAGE_SIZE as usize;

/// The bytes of a page, or none where it isn't reserved. Contracts see them as a list.
#[derive(Drop)]
pub struct Page {
    bytes: Vec<u8>,
}

impl Model for Page {
    ghost use Rattle.std.specs.Prelude.{List, ℕ};

    ghost Value = { List ℕ };

    ghost view = { λ p. p.bytes.items };
}

impl Clone for Page {
    ghost is_clone = { λ page clone. clone ≡ page };

    fn clone(&self) -> Result<Page, AllocError> {
        let bytes = self.bytes.clone()?;
        Ok(Page { bytes })
    }
}

impl Page {
    /// A page that isn't reserved.
    pub fn absent(alloc: Global) -> Page
        ensures { result ≡ [] }
    {
        Page {
            bytes: Vec::new(alloc),
        }
    }

    /// A page of zeros.
    pub fn zeroed(alloc: Global) -> Result<Page, AllocError>
        ensures { IfOk result (λ page. page ≡ replicate 4096 0) }
    {
        let bytes = vec![in alloc; 0; LENGTH]?;
        Ok(Page { bytes })
    }

    /// All the bytes.
    pub fn as_slice(&self) -> &[u8]
        ensures { result.now ≡ self.now }
    {
        self.bytes.as_slice()
    }

    /// Writes bytes from an offset on.
    pub fn write(&mut self, offset: usize, bytes: &[u8])
        requires { offset + length bytes.now ≤ length self.old }
        ensures { self.new ≡ put_mid offset (length bytes.now) self.old bytes.now }
    {
        self.bytes[offset..offset + bytes.len()].copy_from_slice(bytes);
    }

    /// Whether each byte is 0.
    pub fn is_zero(&self) -> bool
        ensures { MatchBool result
            ((k : ℕ) → slice_index self.now k ≡ 0)
            ((k : ℕ) × (k < length self.now) × (slice_index self.now k ≡ 0 → ⊥)) }
    {
        for byte in &self.bytes {
            if *byte != 0 {
                return false;
            }
        }
        true
    }
}
