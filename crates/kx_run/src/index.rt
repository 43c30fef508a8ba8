//! Which key each code is.
ghost use Rattle.std.specs.Prelude.{◌≡◌, IfOk};
ghost use Rattle.kx_tables.specs.Content.{Content};
ghost use Rattle.kx_tables.specs.Keymap.{key_with};
ghost use Rattle.kx_run.specs.Lookup.{TellsKeys};

use crate::lookup::key_of;
use crate::presses::CODES;
use kx_tables::{KeyRow, Tables};
use std::alloc::{AllocError, Global};
use std::marker::Model;

/// The key of each code.
#[derive(Drop)]
pub struct KeyIndex {
    keys: Vec<Option<KeyRow>>,
}

impl Model for KeyIndex {
    ghost use Rattle.std.specs.Prelude.{List, Option};
    ghost use Rattle.kx_tables.specs.declared.rows.KeyRow.{KeyRow};

    ghost Value = { List (Option KeyRow) };

    ghost view = { λ i. i.keys.items };
}

impl KeyIndex {
    /// The keys of tables.
    pub fn new<T: Tables>(alloc: Global, tables: &T) -> Result<KeyIndex, AllocError>
        ensures { IfOk result (λ index. TellsKeys index (T.content tables.now)) }
    {
        let _sound = tables.key_count();
        let mut keys = Vec::with_capacity(alloc, CODES)?;
        for code in 0..CODES as u16 {
            keys.push_reserved(key_of(tables, code));
        }
        Ok(KeyIndex { keys })
    }

    /// The key of a code.
    pub fn key(&self, code: u16) -> Option<KeyRow>
        ensures { (c : Content) → TellsKeys self.now c → result ≡ key_with c code }
    {
        let place = usize::from(code);
        if place < self.keys.len() {
            self.keys[place]
        } else {
            None
        }
    }
}
