// The pages that a range of addresses meets.
ghost use Rattle.std.specs.Prelude.{◌≡◌, ℕ, ◌+◌, ◌/◌, ◌^◌, ◌<◌, ◌≤◌};
ghost use Rattle.paged_mem.specs.Memory.{Meets};

use super::page::PAGE_SIZE;

/// The page numbers from `first` on and below `end`.
#[derive(Clone, Copy)]
pub struct Span {
    pub first: u32,
    pub end: u32,
}

/// The numbers of the pages that a range meets. A range of length 0 meets none.
pub fn pages_met(addr: u32, len: u32) -> Span
    requires { addr + len ≤ 2 ^ 32 }
    ensures each { (number : ℕ) → Meets addr len number → (result.first ≤ number) × (number < result.end) }
    ensures only { (number : ℕ) → result.first ≤ number → number < result.end → Meets addr len number }
    ensures space { result.end ≤ 2 ^ 20 }
{
    let first = addr / PAGE_SIZE;
    let end = if len == 0 {
        first
    } else {
        (addr + (len - 1)) / PAGE_SIZE + 1
    };
    Span { first, end }
}
