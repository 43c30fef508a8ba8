//! A keyboard whose state is told from elsewhere.
ghost use Rattle.std.specs.Prelude.{◌≡◌};
ghost use Rattle.kx_tables.specs.Keymap.{keymap_of};
ghost use Rattle.kx_run.specs.Replies.{answer, lit_in, look_at, looked, status_in, told};
ghost use Rattle.kx_run.specs.World.{World, opening};
ghost use Rattle.kx_run.specs.declared.direction.Direction.{Direction};

use crate::group::effective;
use crate::indicator_maps::lit;
use crate::lookup::{key_of, look_up, read_keysyms};
use crate::reply::{Components, Look};
use arrayvec::ArrayVec;
use kx_mods::Mods;
use kx_tables::Tables;
use std::marker::Model;

/// A view of a keyboard whose state is told from elsewhere, as by a compositor to its clients.
#[derive(Drop)]
pub struct Follower<T: Tables> {
    tables: T,
    state: Components,
    groups: u8,
}

impl<T: Tables> Model for Follower<T> {
    ghost use Rattle.std.specs.Prelude.{◌≡◌};
    ghost use Rattle.kx_tables.specs.Keymap.{keymap_of};
    ghost use Rattle.kx_run.specs.Player.{Followed};
    ghost use Rattle.kx_run.specs.Replies.{told};

    ghost Value = { Followed };

    ghost view = { λ f. record { content = T.content f.tables; status = told f.state } };

    ghost invariant = { λ f. f.groups ≡ (keymap_of (T.content f.tables)).groups };
}

impl<T: Tables + Drop> Follower<T> {
    /// A follower of a keyboard with nothing held, latched or locked.
    pub fn start(tables: T) -> Follower<T>
        ensures content { result.content ≡ T.content tables }
        ensures status { result.status ≡ status_in (keymap_of (T.content tables)) opening }
    {
        let groups = tables.greatest_groups().max(1);
        Follower {
            tables,
            state: Components {
                base: Mods::NONE,
                latched: Mods::NONE,
                locked: Mods::NONE,
                base_group: 0,
                latched_group: 0,
                locked_group: 0,
                effective_group: effective(0, 0, 0, groups),
            },
            groups,
        }
    }

    /// Takes the state that it is told, in place of what it was told before. Any state may be told.
    pub fn set(&mut self, state: Components)
        ensures { self.new ≡ record self.old { status = told state } }
    {
        self.state = state;
    }

    /// What a code's key gives in the state that was told last. The effective group is worked out from the three
    /// groups, and not taken from what was told.
    pub fn look(&self, code: u16) -> Look
        ensures value { looked result ≡ look_at (keymap_of self.now.content) self.now.status code }

        // Where the state is a player's, this is what its next reply has.
        ensures follows { (world : World) (direction : Direction)
            → self.now.status ≡ status_in (keymap_of self.now.content) world
            → looked result ≡ (answer (keymap_of self.now.content) world code direction).look }
    {
        let group = effective(
            self.state.base_group,
            self.state.latched_group,
            self.state.locked_group,
            self.groups,
        );
        let mods = self
            .state
            .base
            .with(self.state.latched)
            .with(self.state.locked);
        let _sound = self.tables.key_count();
        match key_of(&self.tables, code) {
            None => Look {
                known: false,
                syms: ArrayVec::new(),
                consumed: Mods::NONE,
            },
            Some(key) => {
                let found = look_up(&self.tables, key, group, mods);
                let mut look = Look {
                    known: true,
                    syms: ArrayVec::new(),
                    consumed: found.consumed,
                };
                read_keysyms(&self.tables, found.cell, &mut look.syms);
                look
            }
        }
    }

    /// The indicators that are lit in the state that was told last: bit i is indicator i of the tables, from 0.
    pub fn lit(&self) -> u32
        ensures { result ≡ lit_in (keymap_of self.now.content) self.now.status }
    {
        lit(&self.tables, self.state, self.groups)
    }
}
