//! The state of a keyboard: what presses and releases make of it.
ghost use Rattle.std.specs.Prelude.{◌≡◌, ◌<◌, ◌≤◌, false, IfOk, if◌then◌else◌};
ghost use Rattle.std.specs.Int.RustNames.{bit_and};
ghost use Rattle.kx_mods.specs.Mods.{mask};
ghost use Rattle.kx_tables.specs.declared.rows.Action.TheVariants.{None as NoAction};
ghost use Rattle.kx_run.specs.Held.{AreDistinct, action_size, held_at, is_held};
ghost use Rattle.kx_run.specs.Laws.{IsBounded};
ghost use Rattle.kx_run.specs.declared.direction.Direction.TheVariants.{Down};
ghost use Rattle.kx_run.specs.World.{opening, effective_mods, effective_group, press_effect, release_effect, latch_mods, latch_group, recorded_mods, pressed, released, moved};
ghost use Rattle.kx_run.specs.Replies.{status_of, told};
ghost use Rattle.kx_run.specs.Player.{taken_over};
ghost use Rattle.kx_basics.specs.declared.limits.TheConstants.{CODES, MOST_GROUPS};

use crate::direction::Direction;
use crate::group::{difference, effective, locked_after, modulo, number_of, sum};
use crate::held::{HeldKey, HeldKeys, acts};
use crate::reply::Components;
use kx_mods::Mods;
use kx_tables::Action;
use std::alloc::{AllocError, Global};
use std::marker::Model;

/// The state of a keyboard. What a call does depends on the keymap's number of groups, at least 1, alone.
#[derive(Drop)]
pub struct Keyboard {
    held: HeldKeys,
    latched: Mods,
    locked: Mods,
    latched_group: u8,
    locked_group: u8,
}

impl Model for Keyboard {
    ghost use Rattle.kx_mods.specs.Mods.{mask};
    ghost use Rattle.kx_run.specs.World.{World};

    ghost Value = { World };

    ghost view = { λ k. record {
      held = k.held;
      latched = mask k.latched;
      locked = mask k.locked;
      latched_group = k.latched_group;
      locked_group = k.locked_group;
    } };
}

impl Keyboard {
    /// Nothing is held, latched or locked. No later call takes memory.
    pub fn new(alloc: Global) -> Result<Keyboard, AllocError>
        ensures { IfOk result (λ keyboard. keyboard ≡ opening) }
    {
        Ok(Keyboard {
            held: HeldKeys::new(alloc)?,
            latched: Mods::NONE,
            locked: Mods::NONE,
            latched_group: 0,
            locked_group: 0,
        })
    }

    /// Base, latched and locked modifiers together.
    pub fn effective_mods(&self) -> Mods
        ensures { mask result ≡ effective_mods self.now }
    {
        self.held.mods().with(self.latched).with(self.locked)
    }

    /// Base, latched and locked group together, from 0.
    pub fn effective_group(&self, groups: u8) -> u8
        requires { 1 ≤ groups }
        ensures { result ≡ effective_group groups self.now }
    {
        effective(
            self.held.group(),
            self.latched_group,
            self.locked_group,
            groups,
        )
    }

    /// The modifiers and groups as they are shown.
    pub fn components(&self, groups: u8) -> Components
        requires { 1 ≤ groups }
        ensures value { told result ≡ status_of groups self.now }
        ensures bounded { IsBounded self.now }
    {
        Components {
            base: self.held.mods(),
            latched: self.latched,
            locked: self.locked,
            base_group: self.held.group(),
            latched_group: self.latched_group,
            locked_group: self.locked_group,
            effective_group: self.effective_group(groups),
        }
    }

    /// Applies an event of a known key, whose action in this state is the one given; whether that may change the
    /// state as it is shown.
    pub fn apply(&mut self, code: u16, direction: Direction, action: Action, groups: u8) -> bool
        requires some_group { 1 ≤ groups }
        requires code { code < CODES }
        requires size { action_size action ≤ MOST_GROUPS }
        ensures world { self.new ≡ moved groups self.old code direction action }
        ensures still { result ≡ false → status_of groups self.new ≡ status_of groups self.old }
        ensures bounded { IsBounded self.new }
    {
        let changes = match direction {
            Direction::Down => self.down(code, action, groups),
            Direction::Up => self.up(code, groups),
        };
        self.bounds();
        changes
    }

    /// Latches and locks what a state says, in the place of what is latched and locked. What is held stays held.
    pub fn take_over(&mut self, state: Components, groups: u8)
        requires { 1 ≤ groups }
        ensures world { self.new ≡ taken_over groups (told state) self.old }
        ensures bounded { IsBounded self.new }
    {
        self.latched = state.latched;
        self.locked = state.locked;
        self.latched_group = modulo(i64::from(state.latched_group), groups);
        self.locked_group = modulo(i64::from(state.locked_group), groups);
        self.bounds();
    }

    /// No effect: what the keys that are held make sure of.
    fn bounds(&self)
        ensures { IsBounded self.now }
    {
        let _sound = self.held.group();
    }

    /// Presses a key, where it is up; whether that may change the state as it is shown.
    fn down(&mut self, code: u16, action: Action, groups: u8) -> bool
        requires some_group { 1 ≤ groups }
        requires code { code < CODES }
        requires size { action_size action ≤ MOST_GROUPS }
        ensures world { self.new ≡ moved groups self.old code Down action }
        ensures still { result ≡ false → status_of groups self.new ≡ status_of groups self.old }
    {
        if !self.is_held(code) {
            let changes = self.changes_by_press(action);
            self.press(code, action, groups);
            return changes;
        }
        false
    }

    /// Releases a key, where it is down; whether that may change the state as it is shown.
    fn up(&mut self, code: u16, groups: u8) -> bool
        requires some_group { 1 ≤ groups }
        requires code { code < CODES }
        ensures world { self.new ≡ released groups code self.old }
        ensures still { result ≡ false → status_of groups self.new ≡ status_of groups self.old }
    {
        match self.release(code, groups) {
            None => false,
            Some(key) => acts(key.action),
        }
    }

    /// Whether a code's key is down.
    fn is_held(&self, code: u16) -> bool
        requires { code < CODES }
        ensures { result ≡ is_held code self.now.held }
    {
        self.held.is_held(code)
    }

    /// Whether a press of a key with this action may change the state as it is shown.
    fn changes_by_press(&self, action: Action) -> bool
        ensures action { result ≡ false → action ≡ NoAction }
        ensures mods { result ≡ false → self.now.latched ≡ 0 }
        ensures group { result ≡ false → self.now.latched_group ≡ 0 }
    {
        acts(action) || !self.latched.is_none() || self.latched_group > 0
    }

    /// Presses a key that is up, for which this action was found.
    fn press(&mut self, code: u16, action: Action, groups: u8)
        requires some_group { 1 ≤ groups }
        requires code { code < CODES }
        requires size { action_size action ≤ MOST_GROUPS }
        requires new_code { is_held code self.old.held ≡ false }
        ensures { self.new ≡ pressed groups code action self.old }
    {
        let key = HeldKey {
            code,
            action,
            recorded: recorded(action, self.locked),
            disturbed: false,
        };
        self.held.disturb();
        self.held.hold(key);
        self.begin(action, groups);
    }

    /// Releases a key, where it is held; the key as it was held.
    fn release(&mut self, code: u16, groups: u8) -> Option<HeldKey>
        requires some_group { 1 ≤ groups }
        requires code { code < CODES }
        ensures world { self.new ≡ released groups code self.old }
        ensures key { result ≡ held_at code self.old.held }
        ensures distinct { AreDistinct self.old.held }
    {
        let key = self.held.take(code)?;
        self.end(key, groups);
        Some(key)
    }

    /// What a press does beyond holding its key.
    fn begin(&mut self, action: Action, groups: u8)
        requires { 1 ≤ groups }
        ensures { self.new ≡ press_effect groups action self.old }
    {
        match action {
            Action::None => {
                self.latched = Mods::NONE;
                self.latched_group = 0;
            }
            Action::LockMods { mods, locks, .. } => {
                if locks {
                    self.locked = self.locked.with(mods);
                }
            }
            Action::LockGroup { group } => {
                self.locked_group = locked_after(group, self.locked_group, groups);
            }
            _ => {}
        }
    }

    /// What a release does beyond letting go of its key.
    fn end(&mut self, key: HeldKey, groups: u8)
        requires { 1 ≤ groups }
        ensures { self.new ≡ release_effect groups key.action (mask key.recorded) key.disturbed
            self.old }
    {
        match key.action {
            Action::SetMods { mods, clear_locks } => {
                if clear_locks && !key.disturbed {
                    self.locked = self.locked.minus(mods);
                }
            }
            Action::LatchMods {
                mods,
                clear_locks,
                latch_to_lock,
            } => {
                if !key.disturbed {
                    self.latch_mods(mods, clear_locks, latch_to_lock);
                }
            }
            Action::LockMods { unlocks, .. } => {
                if unlocks {
                    self.locked = self.locked.minus(key.recorded);
                }
            }
            Action::SetGroup { clear_locks, .. } => {
                if clear_locks && !key.disturbed {
                    self.locked_group = 0;
                }
            }
            Action::LatchGroup {
                group,
                clear_locks,
                latch_to_lock,
            } => {
                if !key.disturbed {
                    self.latch_group(number_of(group), clear_locks, latch_to_lock, groups);
                }
            }
            _ => {}
        }
    }

    /// Latches modifiers whose key wasn't disturbed.
    fn latch_mods(&mut self, mods: Mods, clear_locks: bool, latch_to_lock: bool)
        ensures { self.new ≡ latch_mods clear_locks latch_to_lock (mask mods) self.old }
    {
        let cleared = meet_if(clear_locks, mods, self.locked);
        let rest = mods.minus(cleared);
        let turned = meet_if(latch_to_lock, rest, self.latched);
        self.latched = self.latched.minus(turned).with(rest.minus(turned));
        self.locked = self.locked.minus(cleared).with(turned);
    }

    /// Latches a group whose key wasn't disturbed.
    fn latch_group(&mut self, number: i16, clear_locks: bool, latch_to_lock: bool, groups: u8)
        requires { 1 ≤ groups }
        ensures { self.new ≡ latch_group groups clear_locks latch_to_lock number self.old }
    {
        if clear_locks && self.locked_group != 0 {
            self.locked_group = 0;
        } else if latch_to_lock && self.latched_group != 0 {
            self.latched_group = difference(self.latched_group, number, groups);
            self.locked_group = sum(self.locked_group, number, groups);
        } else {
            self.latched_group = sum(self.latched_group, number, groups);
        }
    }
}

/// The modifiers of both sets, if they are asked for.
fn meet_if(asked: bool, mods: Mods, other: Mods) -> Mods
    ensures { mask result ≡ (if asked then bit_and (mask mods) (mask other) else 0) }
{
    if asked { mods.meet(other) } else { Mods::NONE }
}

/// The modifiers of a locking action that are locked already.
fn recorded(action: Action, locked: Mods) -> Mods
    ensures { mask result ≡ recorded_mods action (mask locked) }
{
    match action {
        Action::LockMods { mods, .. } => mods.meet(locked),
        _ => Mods::NONE,
    }
}
