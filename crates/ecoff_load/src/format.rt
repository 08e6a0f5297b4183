//! The numbers of the object format.

/// The number that a little-endian object begins with.
pub const LITTLE_MAGIC: u16 = 0x162;

/// The number that a big-endian object begins with.
pub const BIG_MAGIC: u16 = 0x160;

/// How many bytes the file header has.
pub const FILE_HEADER: usize = 20;

/// How many bytes the optional header has.
pub const OPTIONAL_HEADER: u16 = 56;

/// How many bytes stand before the section headers.
pub const FRONT: usize = 76;

/// How many bytes the header of a section has.
pub const SECTION_HEADER: usize = 40;

/// How many sections an object has at most.
pub const MOST_SECTIONS: u16 = 16;

/// The flags of text.
pub const TEXT: u32 = 0x20;

/// How many bytes a text has at least.
pub const LEAST_TEXT: usize = 8;

/// How many bytes a text has at most.
pub const MOST_TEXT: usize = 4_194_304;

/// Where memory for programs ends.
pub const MEMORY_END: u64 = 0x7ff0_0000;
