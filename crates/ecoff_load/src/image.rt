//! Images: what an object says of a program.

ghost use Rattle.std.specs.Prelude.{◌≡◌, ◌+◌, ◌≤◌, ◌↔◌, IsSome, IsTrue, length};

use crate::format::{LEAST_TEXT, MEMORY_END, MOST_SECTIONS, MOST_TEXT};
use crate::words::get_word;
use ss_base::Bytes;
use std::marker::Model;

/// What a part of memory is for, and whether the object brings bytes for it.
#[derive(Clone, Copy, Debug, PartialEq, Eq)]
pub enum Kind {
    /// Data that is read and written.
    Data,
    /// Data that is only read.
    Rdata,
    /// Small data, near the global pointer.
    Sdata,
    /// Data that starts as zeros.
    Bss,
    /// Small data that starts as zeros.
    Sbss,
}

impl Kind {
    ghost use Rattle.ecoff_load.specs.Sections.{brings_bytes};

    /// Whether the object brings the bytes of such a part.
    pub fn brings_bytes(self) -> bool
        ensures { result ≡ brings_bytes self }
    {
        match self {
            Kind::Data | Kind::Rdata | Kind::Sdata => true,
            Kind::Bss | Kind::Sbss => false,
        }
    }
}

/// A part of a program's memory that is not text.
#[derive(Debug, Drop)]
pub struct Part {
    /// What the part is for.
    pub kind: Kind,
    /// The address of its first byte.
    pub addr: u32,
    /// How many bytes it has.
    pub size: u32,
    /// The bytes that the object brings, none for parts that start as zeros.
    pub bytes: Bytes,
}

/// Parts in the order of their section headers. Contracts see them as a list.
#[derive(Debug, Drop)]
pub struct Parts {
    items: Vec<Part>,
}

impl Model for Parts {
    ghost use Rattle.std.specs.Prelude.{List};
    ghost use Rattle.ecoff_load.specs.declared.image.Part.{Part};

    ghost Value = { List Part };

    ghost view = { λ p. p.items.items };
}

impl Parts {
    /// The parts of a `Vec`.
    pub fn from_vec(items: Vec<Part>) -> Parts
        ensures { result ≡ items.items }
    {
        Parts { items }
    }

    /// The parts as a slice.
    pub fn as_slice(&self) -> &[Part]
        ensures { result.now ≡ self.now }
    {
        self.items.as_slice()
    }
}

/// The instructions of a program.
#[derive(Debug, Drop)]
pub struct Text {
    /// The address of the first instruction, a multiple of 8.
    pub start: u32,
    /// Whether words are big-endian.
    pub big: bool,
    /// The instructions, eight bytes each. A last rest of fewer bytes holds none.
    pub bytes: Bytes,
}

/// A program as its object describes it.
#[derive(Debug, Drop)]
pub struct Image {
    /// The address at which the program begins.
    pub entry: u32,
    /// The instructions.
    pub text: Text,
    /// The other parts of memory.
    pub parts: Parts,
}

impl Part {
    ghost use Rattle.ecoff_load.specs.Object.{IsPart, brought};

    /// How many bytes an object brings of this part.
    fn brought(&self) -> u32
        ensures { result ≡ brought self.now }
    {
        if self.kind.brings_bytes() {
            self.size
        } else {
            0
        }
    }

    /// Whether an object can bring this part beside a text.
    fn fits(&self, text: &Text) -> bool
        requires { text.now.start + length text.now.bytes ≤ 0x7ff00000 }
        ensures { IsTrue result ↔ IsPart text.now self.now }
    {
        let end = u64::from(self.addr) + u64::from(self.size);
        let text_end = u64::from(text.start) + text.bytes.as_slice().len() as u64;
        let bytes = self.bytes.as_slice().len();
        if end > MEMORY_END || bytes != self.brought() as usize {
            return false;
        }
        bytes == 0 || end <= u64::from(text.start) || text_end <= u64::from(self.addr)
    }
}

impl Image {
    ghost use Rattle.std.specs.List.{AllByRecursion};
    ghost use Rattle.ecoff_load.specs.Object.{IsPart, IsImage};

    /// Whether reading an object can give this image.
    pub fn fits(&self) -> bool
        ensures { IsTrue result ↔ IsImage self.now }
    {
        // The entry is not judged: each one is allowed.
        let _any_entry: u32 = self.entry;
        let most_parts = MOST_SECTIONS as usize - 1;
        if !self.text.fits() || self.parts.as_slice().len() > most_parts {
            return false;
        }
        self.parts_fit()
    }

    /// Whether an object can bring the parts beside the text, however many they are.
    fn parts_fit(&self) -> bool
        requires { self.now.text.start + length self.now.text.bytes ≤ 0x7ff00000 }
        ensures { IsTrue result ↔ AllByRecursion (IsPart self.now.text) self.now.parts }
    {
        for part in self.parts.as_slice() {
            if !part.fits(&self.text) {
                return false;
            }
        }
        true
    }
}

impl Text {
    ghost use Rattle.ecoff_load.specs.Fetch.{fetch, IsInstruction};
    ghost use Rattle.ecoff_load.specs.Object.{IsText};

    /// Whether an object can bring this text.
    fn fits(&self) -> bool
        ensures { IsTrue result ↔ IsText self.now }
    {
        let size = self.bytes.as_slice().len();
        if self.start % 8 != 0 || size < LEAST_TEXT || size > MOST_TEXT {
            return false;
        }
        u64::from(self.start) + size as u64 <= MEMORY_END
    }

    /// The two words of the instruction at `pc`, `None` exactly where no instruction begins there:
    /// `pc` is not eight times a whole number behind the start, or the eight bytes from it on are
    /// not all text.
    pub fn at(&self, pc: u32) -> Option<(u32, u32)>
        ensures words { result ≡ fetch self.now pc }
        ensures found { IsSome result ↔ IsInstruction self.now pc }
    {
        let bytes = self.bytes.as_slice();
        if pc < self.start {
            return None;
        }
        let at = (pc - self.start) as usize;
        if at % 8 != 0 || bytes.len() < at + 8 {
            return None;
        }
        Some((
            get_word(bytes, at, self.big),
            get_word(bytes, at + 4, self.big),
        ))
    }
}
