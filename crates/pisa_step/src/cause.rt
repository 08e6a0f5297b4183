use thiserror::Error;

/// Why a run stops.
#[derive(Clone, Copy, Debug, PartialEq, Eq, Error)]
pub enum Cause {
    /// The program has exited with this code.
    #[error("exited {code}")]
    Exited {
        /// The exit code.
        code: u32,
    },
    /// The program counter is no instruction's address in text.
    #[error("no instruction at the program counter")]
    BadFetch,
    /// The two words code no instruction.
    #[error("illegal instruction")]
    Illegal,
    /// The operation is one of floating point.
    #[error("floating-point operation {opcode:#x}")]
    FloatingPoint {
        /// Its opcode.
        opcode: u16,
    },
    /// The address of a half, a word or a pair of words isn't a multiple of 2, 4 or 8.
    #[error("misaligned address {addr:#010x}")]
    Misaligned {
        /// The address.
        addr: u32,
    },
    /// A signed sum or difference leaves the range of a word.
    #[error("signed overflow")]
    Overflow,
    /// A divisor is 0.
    #[error("division by zero")]
    DivideByZero,
    /// A written byte lies in text.
    #[error("write into text at {addr:#010x}")]
    TextWrite {
        /// The first byte of the write, which itself may lie before text.
        addr: u32,
    },
    /// The operation is BREAK.
    #[error("break")]
    Break,
    /// A system call finds no record left.
    #[error("no record is left after {used}")]
    TraceEnd {
        /// How many records were used.
        used: u32,
    },
    /// A system call isn't the one that was recorded.
    #[error("the call differs from its record")]
    TraceMismatch {
        /// The first field that differs.
        field: Field,
        /// Its value in the record.
        kept: u64,
        /// Its value in the machine.
        found: u64,
    },
}

/// A part of a recorded system call.
#[derive(Clone, Copy, Debug, PartialEq, Eq)]
pub enum Field {
    /// The number of instructions done before it.
    Count,
    /// The program counter.
    Pc,
    /// A register by its number, 0 to 31.
    Reg(u8),
    /// A byte of memory by its address.
    Byte(u32),
}
