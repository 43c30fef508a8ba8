//! The keys that are down.
ghost use Rattle.std.specs.Prelude.{◌≡◌, ℕ, ◌+◌, ◌*◌, ◌<◌, ◌≤◌, false, List, [], ◌∷◌, ◌++◌, All, length, get_or, map, Option, Some, IfOk, IfSome, if◌then◌else◌, pos, negsuc, ◌≤ℤ◌, vec_capacity};
ghost use Rattle.std.specs.Option.{option_map, option_or};
ghost use Rattle.kx_run.specs.Held.{AreAllDisturbed, AreSound, base_group, disturbed, held_at, is_held, other_keys};
ghost use Rattle.kx_run.specs.Presses.{AreEarlierDisturbed, ArePlaced, group_after_entry, is_entry_of, keys_of, entry_index};

use crate::group::base_group_with;
use crate::held::HeldKey;
use std::alloc::{AllocError, Global};
use std::marker::Model;

/// How many codes there are, so how many keys can be held at most.
pub const CODES: usize = kx_basics::CODES as usize;

/// How many entries of keys that were let go may stand beside one for each held key before they are dropped.
const SPARE: usize = 64;

/// The keys that are down, in the order of their presses. A key that is let go leaves an empty entry after, so that
/// no other key moves; where the empty entries outnumber the keys by far, the next press drops them all.
#[derive(Drop)]
pub struct Presses {
    entries: Vec<Option<HeldKey>>,
    /// Which entry is each code's, if its key is down.
    places: Vec<Option<u16>>,
    /// How many keys are down.
    count: usize,
}

impl Model for Presses {
    ghost use Rattle.std.specs.Prelude.{List};
    ghost use Rattle.kx_run.specs.declared.held.HeldKey.{HeldKey};
    ghost use Rattle.kx_run.specs.Presses.{keys_of};

    ghost Value = { List HeldKey };

    ghost use Rattle.kx_run.specs.PressesKept.{AreKept};

    ghost view = { λ p. keys_of p.entries.items };

    ghost invariant = { AreKept };
}

impl Presses {
    /// No keys, with room for one of each code: no later call takes memory.
    pub fn new(alloc: Global) -> Result<Presses, AllocError>
        ensures { IfOk result (λ presses. presses ≡ []) }
    {
        Ok(Presses {
            entries: Vec::with_capacity(alloc, 2 * CODES + SPARE)?,
            places: vec![in alloc; None; CODES]?,
            count: 0,
        })
    }

    /// Whether a code's key is down.
    pub fn is_held(&self, code: u16) -> bool
        requires { code < CODES }
        ensures { result ≡ is_held code self.now }
    {
        self.places[usize::from(code)].is_some()
    }

    /// Tells each key that another one was pressed.
    pub fn disturb(&mut self)
        ensures value { self.new ≡ map disturbed self.old }
        ensures all { AreAllDisturbed self.new }
    {
        disturb_last(&mut self.entries);
    }

    /// Adds a key that isn't held, where all others were told of its press.
    pub fn push(&mut self, key: HeldKey)
        requires code { key.code < CODES }
        requires new_code { is_held key.code self.old ≡ false }
        requires others { AreAllDisturbed self.old }
        ensures { self.new ≡ self.old ++ key ∷ [] }
    {
        make_room(&mut self.entries, &mut self.places, self.count);
        let place = self.entries.len();
        self.entries.push_reserved(Some(key));
        self.places[usize::from(key.code)] = Some(place as u16);
        self.count += 1;
    }

    /// Lets go of a code's key, where it is held.
    pub fn take(&mut self, code: u16) -> Option<HeldKey>
        requires { code < CODES }
        ensures found { result ≡ held_at code self.old }
        ensures rest { self.new ≡ other_keys code self.old }
    {
        match self.places[usize::from(code)] {
            None => None,
            Some(place) => {
                let place = usize::from(place);
                let key = self.entries[place];
                self.entries[place] = None;
                self.places[usize::from(code)] = None;
                self.count -= 1;
                key
            }
        }
    }

    /// The base group of the keys.
    pub fn group(&self) -> i32
        requires { AreSound self.now }
        ensures { result ≡ base_group self.now }
    {
        base_group(&self.entries)
    }
}

/// Tells each of some keys that another one was pressed. All but the last were told before.
fn disturb_last(entries: &mut [Option<HeldKey>])
    requires { AreEarlierDisturbed entries.old }
    ensures long { length entries.new ≡ length entries.old }
    ensures keys { keys_of entries.new ≡ map disturbed (keys_of entries.old) }
    ensures places { (code : ℕ) → entry_index code entries.new ≡ entry_index code entries.old }
    ensures earlier { AreEarlierDisturbed entries.new }
{
    let count = entries.len();
    if count > 0 {
        tell(&mut entries[count - 1]);
    }
}

/// Tells the key of an entry that another one was pressed.
fn tell(entry: &mut Option<HeldKey>)
    ensures { entry.new ≡ option_map disturbed entry.old }
{
    if let Some(key) = entry {
        key.disturbed = true;
    }
}

/// The base group of the keys of some entries.
fn base_group(entries: &[Option<HeldKey>]) -> i32
    requires sound { AreSound (keys_of entries.now) }
    ensures { result ≡ base_group (keys_of entries.now) }
{
    let mut group = 0;
    for entry in entries {
        group = group_with(*entry, group);
    }
    group
}

/// The base group after one more entry.
fn group_with(entry: Option<HeldKey>, old: i32) -> i32
    requires low { negsuc 199999 ≤ℤ old }
    requires high { old ≤ℤ pos 200000 }
    ensures { result ≡ group_after_entry entry old }
{
    match entry {
        Some(key) => base_group_with(key.action, old),
        None => old,
    }
}

/// Drops the empty entries where they outnumber the keys, of which there are so many, by far.
fn make_room(entries: &mut Vec<Option<HeldKey>>, places: &mut [Option<u16>], count: usize)
    requires count { count ≡ length (keys_of entries.old.items) }
    requires few { count ≤ CODES }
    requires codes { All (λ key. key.code < length places.old) (keys_of entries.old.items) }
    requires placed { ArePlaced places.old entries.old.items }
    ensures keys { keys_of entries.new.items ≡ keys_of entries.old.items }
    ensures room { length entries.new.items ≤ 2 * count + 64 }
    ensures capacity { vec_capacity entries.new ≡ vec_capacity entries.old }
    ensures long { length places.new ≡ length places.old }
    ensures placed { ArePlaced places.new entries.new.items }
{
    if entries.len() > 2 * count + SPARE {
        drop_empty(entries, places);
    }
}

/// Drops the empty entries, and tells each code where its entry went.
#[inline(never)]
fn drop_empty(entries: &mut Vec<Option<HeldKey>>, places: &mut [Option<u16>])
    requires few { length (keys_of entries.old.items) ≤ CODES }
    requires codes { All (λ key. key.code < length places.old) (keys_of entries.old.items) }
    requires placed { ArePlaced places.old entries.old.items }
    ensures keys { keys_of entries.new.items ≡ keys_of entries.old.items }
    ensures full { length entries.new.items ≡ length (keys_of entries.old.items) }
    ensures capacity { vec_capacity entries.new ≡ vec_capacity entries.old }
    ensures long { length places.new ≡ length places.old }
    ensures placed { ArePlaced places.new entries.new.items }
{
    entries.retain(|entry| entry.is_some());
    place_all(entries, places);
}

/// Tells each code that has an entry where it is.
fn place_all(entries: &[Option<HeldKey>], places: &mut [Option<u16>])
    requires few { length entries.now ≤ CODES }
    requires codes { All (λ key. key.code < length places.old) (keys_of entries.now) }
    ensures long { length places.new ≡ length places.old }
    ensures each { (code : ℕ) (d : Option ℕ)
        → get_or places.new code d ≡ option_or (entry_index code entries.now)
        (get_or places.old code d) }
{
    let mut place = entries.len();
    while place > 0 {
        place -= 1;
        place_one(entries[place], place as u16, places);
    }
}

/// Tells the code of an entry, unless it is empty, that this is its place.
fn place_one(entry: Option<HeldKey>, place: u16, places: &mut [Option<u16>])
    requires { IfSome entry (λ key. key.code < length places.old) }
    ensures long { length places.new ≡ length places.old }
    ensures each { (code : ℕ) (d : Option ℕ)
        → get_or places.new code d ≡ (if is_entry_of code entry then Some place
        else get_or places.old code d) }
{
    if let Some(key) = entry {
        places[usize::from(key.code)] = Some(place);
    }
}
