//! What a point is.
ghost use Rattle.std.specs.Prelude.{◌≡◌, length};
ghost use Rattle.checkpoint.specs.State.{PointState};

use std::marker::Model;

/// All that a point holds besides its pages.
#[derive(Clone, Copy, Debug)]
pub(crate) struct Head {
    /// The version of the format in which it is written, 1 or 2.
    pub version: u8,
    /// Whether the machine is big-endian.
    pub big: bool,
    /// How many instructions were done.
    pub icnt: u64,
    /// The address of the next instruction.
    pub pc: u32,
    /// Registers 1 to 31. Register 0 is 0 and isn't kept.
    pub regs: [u32; 31],
    pub hi: u32,
    pub lo: u32,
    /// How many recorded calls were used.
    pub used: u32,
    /// The exit code, `None` before an exit.
    pub ended: Option<u32>,
    /// The address of the text.
    pub text_start: u32,
    /// How many bytes the text has.
    pub text_length: u32,
}

/// A page of memory. Contracts see its number and its bytes.
#[derive(Debug, Drop)]
pub(crate) struct Page {
    pub number: u32,
    pub bytes: Vec<u8>,
}

impl Model for Page {
    ghost use Rattle.std.specs.Prelude.{List, ℕ};

    ghost Value = { ℕ × List ℕ };

    ghost view = { λ p. (p.number, p.bytes.items) };
}

/// The state of a machine at one moment of a run, with its memory. Contracts see what it holds.
#[derive(Debug, Drop)]
pub struct Point {
    pub(crate) head: Head,
    /// The pages that have a byte other than 0, rising.
    pub(crate) pages: Vec<Page>,
}

impl Model for Point {
    ghost use Rattle.checkpoint.specs.State.{PointState};
    ghost use Rattle.checkpoint.specs.Grammar.{IsHead, ArePages};

    ghost Value = { PointState };

    ghost view = { λ p. record { head = p.head; pages = p.pages.items } };

    ghost invariant = { λ p. IsHead p.head × ArePages p.pages.items };
}

/// How many pages of the point's memory have a byte other than 0.
#[tactic(auto, using(crate::proofs::Counts::page_limit))]
pub fn page_count(p: &Point) -> u32
    ensures { result ≡ length p.now.pages }
{
    p.pages.len() as u32
}
