//! What a call answers.

/// It was done.
pub const OK: u32 = 0;

/// The handle is empty.
pub const EMPTY: u32 = 1;

/// A growth was refused.
pub const MEMORY: u32 = 2;

/// The bytes are no image.
pub const IMAGE: u32 = 3;

/// A line of names has a fault.
pub const NAMES: u32 = 4;

/// The source has a fault.
pub const SOURCE: u32 = 5;

/// There is no row of that index, no keysym of that name, or no key has so great a code.
pub const MISSING: u32 = 6;

/// There is no room for the bytes.
pub const ROOM: u32 = 7;

/// There are no rules of that name, or they are refused.
pub const RULES: u32 = 8;

/// A file or folder is there and can't be read.
pub const FILE: u32 = 9;

/// A path is looked for.
pub const ASKS: u32 = 10;
