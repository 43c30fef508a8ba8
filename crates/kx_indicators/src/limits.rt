//! How many indicators a keymap may have.

/// A keymap has at most this many indicators.
pub const MOST_INDICATORS: usize = 32;
