//! What key statements are read against.

use crate::defaults::SectionDefaults;
use ks_core::NameTable;
use kx_virtual_mods::ModNames;
use std::marker::Model;

/// The names and the defaults that a key statement is read against.
#[derive(Drop)]
pub(crate) struct Known<'a> {
    pub names: &'a NameTable,
    pub modifiers: &'a ModNames,
    pub defaults: &'a SectionDefaults,
}

impl<'a> Model for Known<'a> {
    ghost use Rattle.kx_symbols.specs.Known.{Known as KnownValue};

    ghost Value = { KnownValue };

    ghost view = { λ k. record {
      names = k.names.now;
      modifiers = k.modifiers.now.names;
      defaults = k.defaults.now;
    } };
}
