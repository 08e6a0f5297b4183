//! Section headers.

ghost use Rattle.std.specs.Prelude.{◌≡◌, ◌+◌, ◌≤◌, length};

use crate::format::TEXT;
use crate::image::Kind;
use crate::words::get_word;

/// What the header of a section says, as far as it is read.
#[derive(Clone, Copy, Debug, PartialEq, Eq)]
pub struct Section {
    /// Where the header begins in the file.
    pub at: usize,
    /// The address of the section's first byte.
    pub addr: u32,
    /// How many bytes it has.
    pub size: u32,
    /// Where its bytes begin in the file.
    pub pointer: u32,
    /// What it is.
    pub flags: u32,
}

impl Section {
    ghost use Rattle.ecoff_load.specs.Sections.{section_at, part_kind, is_text};

    /// The section whose header begins at `at`.
    pub fn read(bytes: &[u8], at: usize, big: bool) -> Section
        requires { at + 40 ≤ length bytes.now }
        ensures { result ≡ section_at big bytes.now at }
    {
        Section {
            at,
            addr: get_word(bytes, at + 12, big),
            size: get_word(bytes, at + 16, big),
            pointer: get_word(bytes, at + 20, big),
            flags: get_word(bytes, at + 36, big),
        }
    }

    /// Whether it is text.
    pub fn is_text(self) -> bool
        ensures { result ≡ is_text self }
    {
        self.flags == TEXT
    }

    /// The kind of part that it is, `None` for text and for what is passed over.
    pub fn kind(self) -> Option<Kind>
        ensures { result ≡ part_kind self.flags }
    {
        match self.flags {
            0x40 => Some(Kind::Data),
            0x80 => Some(Kind::Bss),
            0x100 => Some(Kind::Rdata),
            0x200 => Some(Kind::Sdata),
            0x400 => Some(Kind::Sbss),
            _ => None,
        }
    }
}
