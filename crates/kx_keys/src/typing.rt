//! What tells the key type of a group.
use ks_core::Letters;
use kx_types::Types;

/// The declared types, and the letters of the table of names, by which a group without a written type has one.
#[derive(Clone, Copy)]
pub struct Typing<'a> {
    pub types: &'a Types,
    pub letters: Letters,
}
