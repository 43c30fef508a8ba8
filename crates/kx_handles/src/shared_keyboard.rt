//! Keyboards over tables with several owners.
ghost use Rattle.std.specs.Prelude.{◌≡◌, IfOk};
ghost use Rattle.kx_tables.specs.Keymap.{keymap_of};
ghost use Rattle.kx_run.specs.Laws.{IsBounded};
ghost use Rattle.kx_run.specs.Player.{taken_over};
ghost use Rattle.kx_run.specs.Replies.{answer, answered, lit_in, status_in, told};
ghost use Rattle.kx_run.specs.World.{opening, step};

use crate::tables::SharedTables;
use kx_run::{Components, Direction, Player, Reply};
use std::alloc::{AllocError, Global};
use std::marker::Model;

/// A keyboard over shared tables.
#[derive(Drop)]
pub struct SharedKeyboard {
    player: Player<SharedTables>,
}

impl Model for SharedKeyboard {
    ghost use Rattle.kx_run.specs.Player.{Played};

    ghost Value = { Played };

    ghost view = { λ k. k.player };
}

impl SharedKeyboard {
    /// A keyboard with nothing held, latched or locked.
    pub fn start(alloc: Global, tables: SharedTables) -> Result<SharedKeyboard, AllocError>
        ensures { IfOk result (λ k. k ≡ record { content = tables; world = opening }) }
    {
        let player = Player::start(alloc, tables)?;
        Ok(SharedKeyboard { player })
    }

    /// Applies an event, and answers what the key gives in the state before it, and the state after it.
    pub fn event(&mut self, code: u16, direction: Direction) -> Reply
        ensures world { self.new ≡ record self.old {
          world = step (keymap_of self.old.content)
              self.old.world code direction;
        } }
        ensures reply { answered result
            ≡ answer (keymap_of self.old.content) self.old.world code direction }
        ensures bounded { IsBounded self.new.world }
    {
        self.player.event(code, direction)
    }

    /// Latches and locks what a state says, in the place of what is latched and locked. What is held stays held.
    pub fn take_over(&mut self, state: Components)
        ensures { self.new ≡ record self.old {
          world = taken_over
              (keymap_of self.old.content).groups (told state) self.old.world;
        } }
    {
        self.player.take_over(state);
    }

    /// The modifiers and groups of the state.
    pub fn components(&self) -> Components
        ensures value { told result ≡ status_in (keymap_of self.now.content) self.now.world }
    {
        self.player.components()
    }

    /// The indicators that are lit in the state.
    pub fn lit(&self) -> u32
        ensures { result ≡ lit_in (keymap_of self.now.content)
            (status_in (keymap_of self.now.content) self.now.world) }
    {
        self.player.lit()
    }
}
