//! What fields of key types say.
use kx_virtual_mods::NameSet;

/// What a field of a type says.
#[derive(Clone, Copy, PartialEq, Eq)]
pub enum Saying {
    /// The type's modifiers.
    Modifiers(NameSet),
    /// The level, counted from 1, that a mask selects.
    Map(NameSet, u8),
    /// What isn't consumed where a mask selects a level.
    Preserve(NameSet, NameSet),
    /// The name of a level, counted from 1.
    LevelName(u8),
}
