//! Fetched rows.
ghost use Rattle.std.specs.Prelude.{◌≡◌, ◌^◌, ◌<◌};
ghost use Rattle.ooo_front.specs.Fetching.{goes_on, earliest_after, looked_up};

use pisa_isa::{Instr, Op, decode};

/// A fetched row.
#[derive(Clone, Copy, Debug, Default, PartialEq, Eq)]
pub struct FetchRow {
    /// Its number, in the order of fetches.
    pub row: u64,
    /// Its address.
    pub pc: u32,
    /// The first word, 0 outside of text.
    pub a: u32,
    /// The second word, 0 outside of text.
    pub b: u32,
    /// The address that is predicted to follow.
    pub next: u32,
    /// The top of the return stack after its look-up.
    pub top: u32,
    /// The cycle in which it was fetched.
    pub fetched: u64,
    /// The cycle in which it is queued: it may be dispatched in each later one.
    pub queued: u64,
}

impl FetchRow {
    /// Whether fetching goes on behind it.
    fn goes_on(&self) -> bool
        ensures { result ≡ goes_on self.now }
    {
        self.queued == self.fetched && self.next == self.pc.wrapping_add(8)
    }

    /// The earliest cycle in which the row behind it may be fetched.
    pub(crate) fn earliest_after(&self) -> u64
        requires { self.now.fetched < 2 ^ 63 }
        ensures { result ≡ earliest_after self.now }
    {
        if self.goes_on() {
            self.fetched
        } else {
            (self.fetched + 1).max(self.queued)
        }
    }
}

/// The instruction that is looked up for two words: NOP where they code none.
pub(crate) fn looked_up(a: u32, b: u32) -> Instr
    ensures { result ≡ looked_up a b }
{
    match decode(a, b) {
        Ok(i) => i,
        Err(_illegal) => Instr {
            op: Op::Nop,
            rs: 0,
            rt: 0,
            rd: 0,
            shamt: 0,
            imm: 0,
            target: 0,
        },
    }
}
