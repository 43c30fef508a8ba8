//! A key that is down, with the action that it was pressed with.
ghost use Rattle.std.specs.Prelude.{◌≡◌, ◌↔◌, ℕ, ◌^◌, ◌<◌, ◌≤◌, ◌≤ℤ◌, false, List, [], ◌∷◌, ◌++◌, slice_index, map, IfOk, IfNone, pos, negsuc};
ghost use Rattle.kx_mods.specs.Mods.{mask};
ghost use Rattle.kx_tables.specs.declared.rows.Action.TheVariants.{None as NoAction};
ghost use Rattle.kx_run.specs.Held.{held_mods, base_mods, base_group, count_of, is_group_held, is_held, held_at, other_keys, disturbed, action_size, AreSound, AreAllDisturbed, AreDistinct};
ghost use Rattle.kx_basics.specs.declared.limits.TheConstants.{CODES, MOST_GROUPS};

use crate::counts::{Counts, counted, counted_mods, uncounted};
use crate::group::base_group_with;
use crate::presses::Presses;
use kx_mods::Mods;
use kx_tables::Action;
use std::alloc::{AllocError, Global};
use std::marker::Model;

/// A key that is down, with what its press found.
#[derive(Clone, Copy, PartialEq, Eq)]
pub struct HeldKey {
    /// The keycode.
    pub code: u16,
    /// The action found at the press.
    pub action: Action,
    /// Which modifiers of a locking action were locked at the press.
    pub recorded: Mods,
    /// Whether another key was pressed since.
    pub disturbed: bool,
}

/// Whether an action does anything.
pub fn acts(action: Action) -> bool
    ensures { (result ≡ false) ↔ (action ≡ NoAction) }
{
    !matches!(action, Action::None)
}

/// The modifiers that an action sets for as long as its key is down.
pub fn mods_of(action: Action) -> Mods
    ensures value { mask result ≡ held_mods action }
    ensures in_range { mask result < 2 ^ 8 }
{
    match action {
        Action::SetMods { mods, .. } => mods,
        Action::LatchMods { mods, .. } => mods,
        Action::LockMods { mods, .. } => mods,
        _ => Mods::NONE,
    }
}

/// The keys that are down, in the order of their presses.
#[derive(Drop)]
pub struct HeldKeys {
    keys: Presses,
    counts: Counts,
    mods: Mods,
    group: i32,
}

impl Model for HeldKeys {
    ghost use Rattle.std.specs.Prelude.{List};
    ghost use Rattle.kx_run.specs.declared.held.HeldKey.{HeldKey};

    ghost Value = { List HeldKey };

    ghost use Rattle.kx_run.specs.HeldKeys.{AreKept};

    ghost view = { λ h. h.keys };

    ghost invariant = { AreKept };
}

impl HeldKeys {
    /// No keys, with room for one of each code: no later call takes memory.
    pub fn new(alloc: Global) -> Result<HeldKeys, AllocError>
        ensures { IfOk result (λ keys. keys ≡ []) }
    {
        Ok(HeldKeys {
            keys: Presses::new(alloc)?,
            counts: [0; 8],
            mods: Mods::NONE,
            group: 0,
        })
    }

    /// The modifiers that the keys set.
    pub fn mods(&self) -> Mods
        ensures { mask result ≡ base_mods self.now }
    {
        self.mods
    }

    /// The group that the keys set, or add up to.
    pub fn group(&self) -> i32
        ensures value { result ≡ base_group self.now }
        ensures low { negsuc 131071 ≤ℤ result }
        ensures high { result ≤ℤ pos 131072 }
        ensures sound { AreSound self.now }
    {
        self.group
    }

    /// Whether a code's key is down.
    pub fn is_held(&self, code: u16) -> bool
        requires { code < CODES }
        ensures { result ≡ is_held code self.now }
    {
        self.keys.is_held(code)
    }

    /// Tells each key that another one was pressed.
    pub fn disturb(&mut self)
        ensures value { self.new ≡ map disturbed self.old }
        ensures all { AreAllDisturbed self.new }
    {
        self.keys.disturb();
    }

    /// Adds a key that isn't held, where all others were told of its press.
    pub fn hold(&mut self, key: HeldKey)
        requires code { key.code < CODES }
        requires size { action_size key.action ≤ MOST_GROUPS }
        requires new_code { is_held key.code self.old ≡ false }
        requires others { AreAllDisturbed self.old }
        ensures { self.new ≡ self.old ++ key ∷ [] }
    {
        if !acts(key.action) {
            self.keys.push(key);
            return;
        }
        let mods = mods_of(key.action);
        self.counts = counted(self.counts, mods);
        self.mods = self.mods.with(mods);
        self.group = base_group_with(key.action, self.group);
        self.keys.push(key);
    }

    /// Lets go of a code's key, where it is held.
    pub fn take(&mut self, code: u16) -> Option<HeldKey>
        requires { code < CODES }
        ensures found { result ≡ held_at code self.old }
        ensures rest { self.new ≡ other_keys code self.old }
        ensures none { IfNone result (self.new ≡ self.old) }
        ensures distinct { AreDistinct self.old }
    {
        let key = self.keys.take(code)?;
        if !acts(key.action) {
            return Some(key);
        }
        self.counts = uncounted(self.counts, mods_of(key.action));
        self.mods = mods_without(key.action, self.mods, &self.counts, &self.keys);
        self.group = group_without(key.action, self.group, &self.keys);
        Some(key)
    }
}

/// Whether an action changes the base group while its key is down.
fn changes_group(action: Action) -> bool
    ensures { result ≡ is_group_held action }
{
    matches!(action, Action::SetGroup { .. } | Action::LatchGroup { .. })
}

/// The base modifiers of the keys that are left when one with this action is let go, where `old` are the base
/// modifiers before, and `counts` tell how many of the keys that are left set each modifier.
fn mods_without(action: Action, old: Mods, counts: &Counts, keys: &Presses) -> Mods
    requires sound { AreSound keys.now }
    requires counts { (bit : ℕ) → bit < 8 → slice_index counts.now bit ≡ count_of bit keys.now }
    requires unchanged { held_mods action ≡ 0 → mask old ≡ base_mods keys.now }
    ensures { mask result ≡ base_mods keys.now }
{
    if mods_of(action).is_none() {
        old
    } else {
        counted_mods(counts)
    }
}

/// The base group of the keys that are left when one with this action is let go, where `old` is the base group before.
fn group_without(action: Action, old: i32, keys: &Presses) -> i32
    requires sound { AreSound keys.now }
    requires unchanged { is_group_held action ≡ false → old ≡ base_group keys.now }
    ensures { result ≡ base_group keys.now }
{
    if changes_group(action) {
        keys.group()
    } else {
        old
    }
}
