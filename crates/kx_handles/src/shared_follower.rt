//! Followers over tables with several owners.
ghost use Rattle.std.specs.Prelude.{◌≡◌};
ghost use Rattle.kx_tables.specs.Keymap.{keymap_of};
ghost use Rattle.kx_run.specs.Replies.{lit_in, look_at, looked, status_in, told};
ghost use Rattle.kx_run.specs.World.{opening};

use crate::tables::SharedTables;
use kx_mods::Mods;
use kx_run::{Components, Follower, Look};
use kx_tables::Tables;
use std::marker::Model;

/// A follower over shared tables.
#[derive(Drop)]
pub struct SharedFollower {
    follower: Follower<SharedTables>,
    state: Components,
    groups: u8,
}

impl Model for SharedFollower {
    ghost use Rattle.std.specs.Prelude.{◌≡◌};
    ghost use Rattle.kx_tables.specs.Keymap.{keymap_of};
    ghost use Rattle.kx_run.specs.Player.{Followed};
    ghost use Rattle.kx_run.specs.Replies.{told};

    ghost Value = { Followed };

    ghost view = { λ f. f.follower };

    ghost invariant = { λ f. (told f.state ≡ f.follower.status)
        × (f.groups ≡ (keymap_of f.follower.content).groups) };
}

impl SharedFollower {
    /// A follower of a keyboard with nothing held, latched or locked.
    pub fn start(tables: SharedTables) -> SharedFollower
        ensures content { result.content ≡ tables }
        ensures status { result.status ≡ status_in (keymap_of tables) opening }
    {
        let groups = tables.greatest_groups().max(1);
        SharedFollower {
            follower: Follower::start(tables),
            state: Components {
                base: Mods::NONE,
                latched: Mods::NONE,
                locked: Mods::NONE,
                base_group: 0,
                latched_group: 0,
                locked_group: 0,
                effective_group: 0,
            },
            groups,
        }
    }

    /// Takes the state that it is told, in place of what it was told before.
    pub fn set(&mut self, state: Components)
        ensures { self.new ≡ record self.old { status = told state } }
    {
        self.follower.set(state);
        self.state = state;
    }

    /// The state that was told last.
    pub fn components(&self) -> Components
        ensures { told result ≡ self.now.status }
    {
        self.state
    }

    /// The greatest number of groups of a key, at least 1.
    pub fn groups(&self) -> u8
        ensures { result ≡ (keymap_of self.now.content).groups }
    {
        self.groups
    }

    /// What a code's key gives in the state that was told last.
    pub fn look(&self, code: u16) -> Look
        ensures { looked result ≡ look_at (keymap_of self.now.content) self.now.status code }
    {
        self.follower.look(code)
    }

    /// The indicators that are lit in the state that was told last.
    pub fn lit(&self) -> u32
        ensures { result ≡ lit_in (keymap_of self.now.content) self.now.status }
    {
        self.follower.lit()
    }
}
