//! How much of a source had no effect.

use ks_core::Notes;

/// How many keysyms, keys, key types, levels and actions of a source had no effect.
#[repr(C)]
#[derive(Clone, Copy)]
pub struct XkcNotes {
    pub keysyms: u32,
    pub keys: u32,
    pub types: u32,
    pub levels: u32,
    pub actions: u32,
}

impl XkcNotes {
    ghost use Rattle.std.specs.Prelude.{◌≡◌};

    /// The counts.
    pub fn of(notes: Notes) -> XkcNotes
        ensures { result ≡ record {
          keysyms = notes.keysyms;
          keys = notes.keys;
          types = notes.types;
          levels = notes.levels;
          actions = notes.actions;
        } }
    {
        XkcNotes {
            keysyms: notes.keysyms,
            keys: notes.keys,
            types: notes.types,
            levels: notes.levels,
            actions: notes.actions,
        }
    }
}
