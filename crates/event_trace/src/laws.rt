//! Laws of the closed world, each carried by a function that does nothing.
ghost use Rattle.std.specs.Prelude.{◌≡◌, ℕ};
ghost use Rattle.event_trace.specs.World.{WorldState, served};
ghost use Rattle.event_trace.specs.WorldLaws.{bytes_written, ReadsOn, Keeps};

/// Each read gives the bytes that are left at its descriptor, in turn: what was left before it is
/// what it read, and behind it what is left after it. What is left at other descriptors stays.
pub fn reads_go_on()
    ensures { (w : WorldState) (icnt pc : ℕ) (regs mem : ℕ → ℕ) → regs 2 ≡ 3
        → ReadsOn w (served w icnt pc regs mem).1 (regs 4) (bytes_written (served w icnt pc regs mem).0) }
{}

/// No call changes the input, the files or the start break, and no descriptor that a program was
/// given and that is closed is opened again.
pub fn closed_stays_closed()
    ensures { (w : WorldState) (icnt pc : ℕ) (regs mem : ℕ → ℕ) → Keeps w (served w icnt pc regs mem).1 }
{}
