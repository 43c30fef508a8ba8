//! How many types a keymap may declare.

/// A keymap declares at most this many types.
pub const MOST_TYPES: usize = 4096;
