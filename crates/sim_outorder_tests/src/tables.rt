//! The worked tables: what each row of a short program shows, cycle by cycle. They come from the specification of
//! the machine's timing, and from no program.

use core_statistics::CoreStats;

/// A row: its address from the start of the text on, and the cycles of its marks F, Q, D, I, W, MI, MW, C and X. A mark
/// that doesn't come is 0.
pub type Line = [u64; 10];

/// The columns.
pub const PC: usize = 0;

pub const FETCHED: usize = 1;

pub const QUEUED: usize = 2;

pub const DISPATCHED: usize = 3;

pub const ISSUED: usize = 4;

pub const WRITTEN: usize = 5;

pub const ACCESSED: usize = 6;

pub const RETURNED: usize = 7;

pub const COMMITTED: usize = 8;

pub const SQUASHED: usize = 9;

/// A program of two additions and an exit, one of everything and a unit of two places.
pub const FIRST_OBJECT: [Line; 4] = [
    [0x00, 0, 0, 1, 2, 3, 0, 0, 4, 0],
    [0x08, 1, 1, 2, 3, 4, 0, 0, 5, 0],
    [0x10, 2, 2, 5, 6, 7, 0, 0, 8, 0],
    [0x18, 5, 5, 0, 0, 0, 0, 0, 0, 0],
];

/// A mispredicted branch, with a load and a store on the wrong path.
pub const BRANCH: [Line; 19] = [
    [0x00, 0, 0, 1, 2, 3, 0, 0, 4, 0],
    [0x08, 0, 0, 1, 3, 4, 0, 0, 5, 0],
    [0x10, 0, 0, 1, 2, 3, 3, 4, 0, 4],
    [0x18, 0, 0, 1, 2, 3, 0, 0, 0, 4],
    [0x20, 1, 1, 2, 3, 4, 0, 0, 0, 4],
    [0x28, 1, 1, 2, 3, 4, 0, 0, 0, 4],
    [0x30, 1, 1, 2, 0, 0, 0, 0, 0, 4],
    [0x38, 1, 1, 2, 0, 0, 0, 0, 0, 4],
    [0x40, 2, 2, 0, 0, 0, 0, 0, 0, 4],
    [0x48, 2, 2, 0, 0, 0, 0, 0, 0, 4],
    [0x50, 2, 2, 0, 0, 0, 0, 0, 0, 4],
    [0x58, 2, 2, 0, 0, 0, 0, 0, 0, 4],
    [0x30, 7, 7, 8, 9, 10, 0, 0, 11, 0],
    [0x38, 7, 7, 8, 9, 10, 0, 0, 11, 0],
    [0x40, 7, 7, 11, 12, 13, 0, 0, 14, 0],
    [0x48, 7, 7, 0, 0, 0, 0, 0, 0, 0],
    [0x50, 8, 8, 0, 0, 0, 0, 0, 0, 0],
    [0x58, 8, 8, 0, 0, 0, 0, 0, 0, 0],
    [0x60, 11, 11, 0, 0, 0, 0, 0, 0, 0],
];

/// The same where wrong rows don't issue.
pub const BRANCH_QUIET: [Line; 19] = [
    [0x00, 0, 0, 1, 2, 3, 0, 0, 4, 0],
    [0x08, 0, 0, 1, 3, 4, 0, 0, 5, 0],
    [0x10, 0, 0, 1, 0, 0, 0, 0, 0, 4],
    [0x18, 0, 0, 1, 0, 0, 0, 0, 0, 4],
    [0x20, 1, 1, 2, 0, 0, 0, 0, 0, 4],
    [0x28, 1, 1, 2, 0, 0, 0, 0, 0, 4],
    [0x30, 1, 1, 2, 0, 0, 0, 0, 0, 4],
    [0x38, 1, 1, 2, 0, 0, 0, 0, 0, 4],
    [0x40, 2, 2, 0, 0, 0, 0, 0, 0, 4],
    [0x48, 2, 2, 0, 0, 0, 0, 0, 0, 4],
    [0x50, 2, 2, 0, 0, 0, 0, 0, 0, 4],
    [0x58, 2, 2, 0, 0, 0, 0, 0, 0, 4],
    [0x30, 7, 7, 8, 9, 10, 0, 0, 11, 0],
    [0x38, 7, 7, 8, 9, 10, 0, 0, 11, 0],
    [0x40, 7, 7, 11, 12, 13, 0, 0, 14, 0],
    [0x48, 7, 7, 0, 0, 0, 0, 0, 0, 0],
    [0x50, 8, 8, 0, 0, 0, 0, 0, 0, 0],
    [0x58, 8, 8, 0, 0, 0, 0, 0, 0, 0],
    [0x60, 11, 11, 0, 0, 0, 0, 0, 0, 0],
];

/// A store on the wrong path that would write to the text.
pub const TEXT_STORE: [Line; 20] = [
    [0x00, 0, 0, 1, 2, 3, 0, 0, 4, 0],
    [0x08, 0, 0, 1, 2, 3, 0, 0, 4, 0],
    [0x10, 0, 0, 1, 3, 4, 0, 0, 5, 0],
    [0x18, 0, 0, 1, 2, 3, 3, 4, 0, 4],
    [0x20, 1, 1, 2, 3, 4, 0, 0, 0, 4],
    [0x28, 1, 1, 2, 3, 4, 0, 0, 0, 4],
    [0x30, 1, 1, 2, 0, 0, 0, 0, 0, 4],
    [0x38, 1, 1, 2, 0, 0, 0, 0, 0, 4],
    [0x40, 2, 2, 3, 0, 0, 0, 0, 0, 4],
    [0x48, 2, 2, 0, 0, 0, 0, 0, 0, 4],
    [0x50, 2, 2, 0, 0, 0, 0, 0, 0, 4],
    [0x58, 2, 2, 0, 0, 0, 0, 0, 0, 4],
    [0x60, 3, 3, 0, 0, 0, 0, 0, 0, 4],
    [0x38, 7, 7, 8, 9, 10, 0, 0, 11, 0],
    [0x40, 7, 7, 8, 9, 10, 0, 0, 11, 0],
    [0x48, 7, 7, 11, 12, 13, 0, 0, 14, 0],
    [0x50, 7, 7, 0, 0, 0, 0, 0, 0, 0],
    [0x58, 8, 8, 0, 0, 0, 0, 0, 0, 0],
    [0x60, 8, 8, 0, 0, 0, 0, 0, 0, 0],
    [0x68, 11, 11, 0, 0, 0, 0, 0, 0, 0],
];

/// A load behind a store of unknown address that has its block, and a load of another block.
pub const STORE: [Line; 12] = [
    [0x00, 0, 0, 1, 2, 3, 0, 0, 4, 0],
    [0x08, 0, 0, 1, 3, 4, 0, 0, 5, 0],
    [0x10, 0, 0, 1, 4, 5, 0, 0, 6, 0],
    [0x18, 0, 0, 1, 3, 4, 5, 6, 7, 0],
    [0x20, 1, 1, 2, 3, 4, 5, 10, 11, 0],
    [0x28, 1, 1, 2, 3, 4, 0, 0, 11, 0],
    [0x30, 1, 1, 2, 4, 5, 0, 0, 11, 0],
    [0x38, 1, 1, 11, 12, 13, 0, 0, 14, 0],
    [0x40, 2, 2, 0, 0, 0, 0, 0, 0, 0],
    [0x48, 2, 2, 0, 0, 0, 0, 0, 0, 0],
    [0x50, 2, 2, 0, 0, 0, 0, 0, 0, 0],
    [0x58, 11, 11, 0, 0, 0, 0, 0, 0, 0],
];

/// The same where issue is in order.
pub const STORE_IN_ORDER: [Line; 12] = [
    [0x00, 0, 0, 1, 2, 3, 0, 0, 4, 0],
    [0x08, 0, 0, 1, 3, 4, 0, 0, 5, 0],
    [0x10, 0, 0, 1, 4, 5, 0, 0, 6, 0],
    [0x18, 0, 0, 1, 4, 5, 5, 6, 7, 0],
    [0x20, 1, 1, 2, 4, 5, 5, 10, 11, 0],
    [0x28, 1, 1, 2, 4, 5, 0, 0, 11, 0],
    [0x30, 1, 1, 2, 5, 6, 0, 0, 11, 0],
    [0x38, 1, 1, 11, 12, 13, 0, 0, 14, 0],
    [0x40, 2, 2, 0, 0, 0, 0, 0, 0, 0],
    [0x48, 2, 2, 0, 0, 0, 0, 0, 0, 0],
    [0x50, 2, 2, 0, 0, 0, 0, 0, 0, 0],
    [0x58, 11, 11, 0, 0, 0, 0, 0, 0, 0],
];

/// Two divisions with one unit.
pub const DIVISIONS: [Line; 11] = [
    [0x00, 0, 0, 1, 2, 3, 0, 0, 4, 0],
    [0x08, 0, 0, 1, 2, 3, 0, 0, 4, 0],
    [0x10, 0, 0, 1, 3, 23, 0, 0, 24, 0],
    [0x18, 0, 0, 1, 22, 42, 0, 0, 43, 0],
    [0x20, 1, 1, 2, 3, 4, 0, 0, 43, 0],
    [0x28, 1, 1, 2, 3, 4, 0, 0, 43, 0],
    [0x30, 1, 1, 43, 44, 45, 0, 0, 46, 0],
    [0x38, 1, 1, 0, 0, 0, 0, 0, 0, 0],
    [0x40, 2, 2, 0, 0, 0, 0, 0, 0, 0],
    [0x48, 2, 2, 0, 0, 0, 0, 0, 0, 0],
    [0x50, 43, 43, 0, 0, 0, 0, 0, 0, 0],
];

/// A call behind a full unit of two places.
pub const CALL: [Line; 8] = [
    [0x00, 0, 0, 1, 2, 3, 0, 0, 4, 0],
    [0x08, 0, 0, 1, 2, 3, 0, 0, 4, 0],
    [0x10, 0, 0, 4, 5, 8, 0, 0, 9, 0],
    [0x18, 0, 0, 9, 10, 11, 0, 0, 12, 0],
    [0x20, 1, 1, 0, 0, 0, 0, 0, 0, 0],
    [0x28, 1, 1, 0, 0, 0, 0, 0, 0, 0],
    [0x30, 4, 4, 0, 0, 0, 0, 0, 0, 0],
    [0x38, 9, 9, 0, 0, 0, 0, 0, 0, 0],
];

/// Two loads of one block through a first level of one line, where the second hits at once.
pub const LOADS_AT_ONCE: [Line; 10] = [
    [0x00, 0, 0, 1, 2, 3, 3, 28, 29, 0],
    [0x08, 0, 0, 1, 2, 3, 3, 4, 29, 0],
    [0x10, 0, 0, 1, 4, 5, 0, 0, 29, 0],
    [0x18, 0, 0, 1, 2, 3, 0, 0, 29, 0],
    [0x20, 1, 1, 2, 3, 4, 0, 0, 30, 0],
    [0x28, 1, 1, 30, 31, 32, 0, 0, 33, 0],
    [0x30, 1, 1, 0, 0, 0, 0, 0, 0, 0],
    [0x38, 1, 1, 0, 0, 0, 0, 0, 0, 0],
    [0x40, 2, 2, 0, 0, 0, 0, 0, 0, 0],
    [0x48, 30, 30, 0, 0, 0, 0, 0, 0, 0],
];

/// The same where it waits for the line.
pub const LOADS_IN_FLIGHT: [Line; 10] = [
    [0x00, 0, 0, 1, 2, 3, 3, 28, 29, 0],
    [0x08, 0, 0, 1, 2, 3, 3, 28, 29, 0],
    [0x10, 0, 0, 1, 28, 29, 0, 0, 30, 0],
    [0x18, 0, 0, 1, 2, 3, 0, 0, 30, 0],
    [0x20, 1, 1, 2, 3, 4, 0, 0, 30, 0],
    [0x28, 1, 1, 30, 31, 32, 0, 0, 33, 0],
    [0x30, 1, 1, 0, 0, 0, 0, 0, 0, 0],
    [0x38, 1, 1, 0, 0, 0, 0, 0, 0, 0],
    [0x40, 2, 2, 0, 0, 0, 0, 0, 0, 0],
    [0x48, 30, 30, 0, 0, 0, 0, 0, 0, 0],
];

/// Nothing but the exit that each program ends with.
const EXIT: CoreStats = CoreStats {
    insn: 1,
    loads: 0,
    stores: 0,
    branches: 0,
    calls: 1,
    cycles: 0,
    fetched: 0,
    dispatched: 0,
    squashed: 0,
    recoveries: 0,
    forwarded: 0,
    addr_hits: 0,
};

/// What is counted of each table. A run ends in the cycle in which its exit commits, and that counts as one.
pub const FIRST_OBJECT_COUNTS: CoreStats = CoreStats {
    insn: 3,
    cycles: 9,
    fetched: 4,
    dispatched: 3,
    ..EXIT
};

/// The same whether wrong rows issue or not.
pub const BRANCH_COUNTS: CoreStats = CoreStats {
    insn: 5,
    branches: 1,
    cycles: 15,
    fetched: 19,
    dispatched: 11,
    squashed: 10,
    recoveries: 1,
    ..EXIT
};

pub const TEXT_STORE_COUNTS: CoreStats = CoreStats {
    insn: 6,
    branches: 1,
    cycles: 15,
    fetched: 20,
    dispatched: 12,
    squashed: 10,
    recoveries: 1,
    ..EXIT
};

/// The same in order. The first load gets its value from the store.
pub const STORE_COUNTS: CoreStats = CoreStats {
    insn: 8,
    loads: 2,
    stores: 1,
    cycles: 15,
    fetched: 12,
    dispatched: 8,
    forwarded: 1,
    ..EXIT
};

pub const DIVISIONS_COUNTS: CoreStats = CoreStats {
    insn: 7,
    cycles: 47,
    fetched: 11,
    dispatched: 7,
    ..EXIT
};

pub const CALL_COUNTS: CoreStats = CoreStats {
    insn: 4,
    cycles: 13,
    fetched: 8,
    dispatched: 4,
    ..EXIT
};

/// The same at once and in flight.
pub const LOADS_COUNTS: CoreStats = CoreStats {
    insn: 6,
    loads: 2,
    cycles: 34,
    fetched: 10,
    dispatched: 6,
    ..EXIT
};
