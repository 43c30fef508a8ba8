//! What can be said of a key besides its lists.
use kx_lex::Bytes;
use kx_tables::Range;
use kx_virtual_mods::NameSet;

/// What can have a value in a key besides its lists.
#[derive(Clone, Copy, PartialEq, Eq)]
pub enum AttributeCell {
    /// The type of a group, counted from 0.
    GroupType(usize),
    /// The type of the groups that aren't given one of their own.
    KeyType,
    /// The virtual modifiers that the key bears.
    VirtualMods,
    /// What becomes of a group that the key doesn't have.
    Range,
}

/// The value of a cell.
#[derive(Drop)]
pub enum AttributeValue {
    /// A type by its name.
    Type(Bytes),
    Mods(NameSet),
    Range(Range),
}
