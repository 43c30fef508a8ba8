//! An entry of a key type.
use kx_virtual_mods::NameSet;

/// An entry of a key type.
#[derive(Clone, Copy, PartialEq, Eq)]
pub struct TypeEntry {
    /// The modifiers that select the level.
    pub mask: NameSet,
    /// The level, counted from 1.
    pub level: u8,
    /// Those of the modifiers that aren't consumed.
    pub preserve: NameSet,
}
