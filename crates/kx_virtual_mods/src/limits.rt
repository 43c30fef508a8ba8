//! How many names a keymap may have.

/// A keymap has at most this many virtual modifiers.
pub const MOST_VIRTUAL_MODIFIERS: u8 = 24;
