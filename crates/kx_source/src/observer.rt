//! Who is shown what was read of a source.
use ks_core::{NameTable, Notes};
use kx_codes::Codes;
use kx_include::Bodies;
use kx_symbols::Keys;
use kx_types::Types;
use std::alloc::Global;

/// What was read of a source that has tables, and what was passed over in it.
#[derive(Clone, Copy)]
pub struct ReadSource<'a, 'l> {
    /// The statements of each kind of section, with those of the includes.
    pub bodies: &'a Bodies<'l>,
    /// The names of keysyms.
    pub names: &'a NameTable,
    /// The keycodes and their names.
    pub codes: &'a Codes<'l>,
    /// The key types by name.
    pub types: &'a Types,
    /// What statements give keys, by their codes.
    pub keys: &'a Keys,
    pub notes: Notes,
}

/// Who is shown what was read of a source before it is left, as to say where something was passed over.
pub trait Observer {
    /// Is called once, where a source has tables.
    fn observe(&mut self, alloc: Global, read: ReadSource);
}

/// Nobody.
#[derive(Drop)]
pub(crate) struct Nobody;

impl Observer for Nobody {
    fn observe(&mut self, _: Global, _: ReadSource) {}
}
