//! What is read of a source's sections, one after another.
use ks_core::NameTable;
use kx_codes::Codes;
use kx_include::Bodies;
use kx_types::Types;
use kx_virtual_mods::ModNames;

/// The bodies of a source, with the names that they are read against.
#[derive(Clone, Copy)]
pub(crate) struct Expanded<'a, 'l> {
    pub bodies: &'a Bodies<'l>,
    /// The names of keysyms.
    pub names: &'a NameTable,
    /// The names of modifiers.
    pub modifiers: &'a ModNames,
}

/// Bodies whose codes and types are read.
#[derive(Clone, Copy)]
pub(crate) struct Sections<'a, 'l> {
    pub expanded: Expanded<'a, 'l>,
    pub codes: &'a Codes<'l>,
    pub types: &'a Types,
}
