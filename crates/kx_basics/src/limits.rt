//! How much a keymap may have.

/// The greatest keycode.
pub const GREATEST_CODE: u16 = 4095;

/// There are so many keycodes, from 0 on.
pub const CODES: u16 = GREATEST_CODE + 1;

/// A key has at most this many groups.
pub const MOST_GROUPS: u8 = 32;

/// A group has at most this many levels.
pub const MOST_LEVELS: u8 = 64;

/// A level has at most this many keysyms.
pub const MOST_KEYSYMS: usize = 8;

/// The name of a key, a type, an indicator or a group has at most this many bytes.
pub const MOST_NAME_BYTES: usize = 255;

/// The least keysym of a level.
pub const LEAST_KEYSYM: u32 = 10;

/// The greatest keysym.
pub const GREATEST_KEYSYM: u32 = 0x1fff_ffff;
