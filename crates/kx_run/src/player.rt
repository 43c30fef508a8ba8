//! A keyboard over a keymap's tables.
ghost use Rattle.std.specs.Prelude.{◌≡◌, ◌<◌, ◌≤◌, false, [], map, IfOk, OnOk, OnErr};
ghost use Rattle.kx_tables.specs.Keymap.{Keymap, keymap_of};
ghost use Rattle.kx_run.specs.Held.{action_size};
ghost use Rattle.kx_run.specs.Laws.{Agree, IsBounded, IsLetGo, ReleasesAll};
ghost use Rattle.kx_run.specs.Player.{IsShownAs, taken_over};
ghost use Rattle.kx_run.specs.Replies.{answer, answered, lit_in, run, status_in, told, unknown, world_after};
ghost use Rattle.kx_run.specs.World.{moved, opening, step};
ghost use Rattle.kx_basics.specs.declared.limits.TheConstants.{CODES, MOST_GROUPS};

use crate::choices::Choices;
use crate::direction::{Direction, Event};
use crate::index::KeyIndex;
use crate::indicator_maps::lit;
use crate::keyboard::Keyboard;
use crate::lookup::{look_up_chosen, read_keysyms};
use crate::reply::{Components, Reply};
use arrayvec::ArrayVec;
use kx_mods::Mods;
use kx_tables::{Action, Tables};
use std::alloc::{AllocError, Global};
use std::marker::Model;

/// A keyboard that runs on a keymap's tables.
#[derive(Drop)]
pub struct Player<T: Tables> {
    tables: T,
    keys: KeyIndex,
    choices: Choices,
    keyboard: Keyboard,
    groups: u8,
    /// The keyboard's state, as it is shown.
    state: Components,
    /// The indicators that are lit in it.
    lit: u32,
}

impl<T: Tables> Model for Player<T> {
    ghost use Rattle.kx_run.specs.Player.{IsKept, Played};

    ghost Value = { Played };

    ghost view = { λ p. record { content = T.content p.tables; world = p.keyboard } };

    ghost invariant = { λ p. IsKept (T.content p.tables) p.keys p.choices p.keyboard p.groups
        p.state p.lit };
}

impl<T: Tables + Drop> Player<T> {
    /// A keyboard with nothing held, latched or locked. No later call takes memory; where there is none for this
    /// one, the tables are dropped.
    pub fn start(alloc: Global, tables: T) -> Result<Player<T>, AllocError>
        ensures { IfOk result (λ player.
            player ≡ record { content = T.content tables; world = opening }) }
    {
        let keys = KeyIndex::new(alloc, &tables)?;
        let choices = Choices::new(alloc, &tables)?;
        let keyboard = Keyboard::new(alloc)?;
        let groups = tables.greatest_groups().max(1);
        let state = keyboard.components(groups);
        let lit = lit(&tables, state, groups);
        Ok(Player {
            tables,
            keys,
            choices,
            keyboard,
            groups,
            state,
            lit,
        })
    }

    /// Applies an event, and answers what the key gives in the state before it, and the state after it.
    #[inline(always)]
    pub fn event(&mut self, code: u16, direction: Direction) -> Reply
        ensures world { self.new ≡ record self.old {
          world = step (keymap_of self.old.content)
              self.old.world code direction;
        } }
        ensures reply { answered result
            ≡ answer (keymap_of self.old.content) self.old.world code direction }
        ensures bounded { IsBounded self.new.world }
    {
        let mut reply = Reply {
            known: false,
            syms: ArrayVec::new(),
            consumed: Mods::NONE,
            state: self.state,
            lit: self.lit,
        };
        self.answer(code, direction, &mut reply);
        reply
    }

    /// Applies events in order, and answers the reply to each. Where there is no memory for the replies, no event
    /// is applied.
    pub fn run(&mut self, alloc: Global, events: &[Event]) -> Result<Vec<Reply>, AllocError>
        ensures world { OnOk result (self.new
            ≡ record self.old {
              world = world_after (keymap_of self.old.content) self.old.world
                  events.now;
            }) }
        ensures replies { IfOk result (λ replies.
            map answered replies.items ≡ run (keymap_of self.old.content) self.old.world
            events.now) }
        ensures err { OnErr result (self.new ≡ self.old) }

        // Any keymap that agrees with the tables' has the same run.
        ensures agrees { (keymap : Keymap) → Agree (keymap_of self.old.content) keymap
            → IfOk result (λ replies. map answered replies.items
            ≡ run keymap self.old.world events.now) }

        // From a state with nothing held, once each key that was pressed is released, nothing is held.
        ensures released { self.old.world.held ≡ [] → ReleasesAll events.now
            → OnOk result (IsLetGo self.new.world) }
    {
        let mut replies = Vec::with_capacity(alloc, events.len())?;
        for event in events {
            replies.push_reserved(self.event(event.code, event.direction));
        }
        Ok(replies)
    }

    /// Latches and locks what a state says, in the place of what is latched and locked, with its groups modulo those of
    /// the tables. The keys that are held stay so, and with them the base modifiers and the base group.
    pub fn take_over(&mut self, state: Components)
        ensures { self.new ≡ record self.old {
          world = taken_over
              (keymap_of self.old.content).groups (told state) self.old.world;
        } }
    {
        self.keyboard.take_over(state, self.groups);
        self.state = self.keyboard.components(self.groups);
        self.lit = lit(&self.tables, self.state, self.groups);
    }

    /// The tables that the keyboard runs on.
    pub fn tables(&self) -> &T
        ensures { T.content result.now ≡ self.now.content }
    {
        &self.tables
    }

    /// The modifiers and groups of the state.
    pub fn components(&self) -> Components
        ensures value { told result ≡ status_in (keymap_of self.now.content) self.now.world }
        ensures bounded { IsBounded self.now.world }
    {
        self.state
    }

    /// The indicators that are lit in the state: bit i is indicator i of the tables, from 0.
    pub fn lit(&self) -> u32
        ensures { result ≡ lit_in (keymap_of self.now.content)
            (status_in (keymap_of self.now.content) self.now.world) }
    {
        self.lit
    }

    /// Applies an event, and completes its reply, which has no keysyms yet, and the state before the event.
    #[inline(never)]
    fn answer(&mut self, code: u16, direction: Direction, reply: &mut Reply)
        requires { answered reply.old ≡ record {
          look = unknown;
          state = status_in (keymap_of self.old.content) self.old.world;
          lit = lit_in (keymap_of self.old.content)
              (status_in (keymap_of self.old.content) self.old.world);
        } }
        ensures world { self.new ≡ record self.old {
          world = step (keymap_of self.old.content)
              self.old.world code direction;
        } }
        ensures reply { answered reply.new
            ≡ answer (keymap_of self.old.content) self.old.world code direction }
        ensures bounded { IsBounded self.new.world }
    {
        let _sound = self.tables.key_count();
        match self.keys.key(code) {
            None => {}
            Some(key) => {
                let mods = self.keyboard.effective_mods();
                let group = self.state.effective_group;
                let found = look_up_chosen(&self.tables, &mut self.choices, key, group, mods);
                read_keysyms(&self.tables, found.cell, &mut reply.syms);
                reply.known = true;
                reply.consumed = found.consumed;
                if self.apply(code, direction, found.cell.action) {
                    reply.state = self.state;
                    reply.lit = self.lit;
                }
            }
        }
    }

    /// Applies an event of a known key, whose action in this state is the one given; whether the state that is shown
    /// changes.
    fn apply(&mut self, code: u16, direction: Direction, action: Action) -> bool
        requires code { code < CODES }
        requires size { action_size action ≤ MOST_GROUPS }
        ensures world { self.new ≡ record self.old {
          world = moved
              (keymap_of self.old.content).groups self.old.world code direction action;
        } }
        ensures still { result ≡ false → IsShownAs self.old self.new }
    {
        if !self.keyboard.apply(code, direction, action, self.groups) {
            return false;
        }
        let state = self.keyboard.components(self.groups);
        if state == self.state {
            return false;
        }
        self.state = state;
        self.lit = lit(&self.tables, state, self.groups);
        true
    }
}
