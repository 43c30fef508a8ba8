//! The key type of a group.
ghost use Rattle.std.specs.Prelude.{◌≡◌, ◌≤◌, ℕ, IfNone, IfSome, IsTrue, false, is_some};
ghost use Rattle.kx_virtual_mods.specs.Sets.{any_below};
ghost use Rattle.ks_core.specs.Table.{letters_of};
ghost use Rattle.std.specs.Option.{option_map};
ghost use Rattle.kx_basics.specs.declared.limits.TheConstants.{MOST_GROUPS, MOST_LEVELS};
ghost use Rattle.kx_keys.specs.Given.{given};
ghost use Rattle.kx_keys.specs.GroupTypes.{automatic, content_group, falls_back, first_keysym, four_levels, group_count, group_levels, group_type_name, groups_within, has_action, has_keypad, has_letters, is_fallback, is_type, one_level_name, type_definition, type_name, two_levels, wanted_type};
ghost use Rattle.kx_keys.specs.Typing.{typing_of};

use crate::given::{action_at, key_type, keysyms_at, written_type};
use crate::typing::Typing;
use ks_core::{Keysym, Letters};
use kx_basics::MOST_NAME_BYTES;
use kx_symbols::KeyRecord;

/// The built-in type, which has no modifiers and one level.
const ONE_LEVEL: &str = "ONE_LEVEL";

/// The first keysym of a level, or none.
#[inline(always)]
fn first_keysym(key: &KeyRecord, group: usize, level: usize) -> Keysym
    ensures { result.0 ≡ first_keysym (given key.now) group level }
{
    match keysyms_at(key, group, level) {
        [] => Keysym(0),
        [keysym, ..] => Keysym(*keysym),
    }
}

#[inline(always)]
fn has_letters(letters: Letters, key: &KeyRecord, group: usize, level: usize) -> bool
    requires { level ≤ 2 }
    ensures { result ≡ has_letters (letters_of letters) (first_keysym (given key.now) group) level }
{
    letters.is_lower(first_keysym(key, group, level))
        && letters.is_upper(first_keysym(key, group, level + 1))
}

fn has_keypad(key: &KeyRecord, group: usize) -> bool
    ensures { result ≡ has_keypad (first_keysym (given key.now) group) }
{
    first_keysym(key, group, 0).is_keypad() || first_keysym(key, group, 1).is_keypad()
}

#[inline(always)]
fn two_levels(letters: Letters, key: &KeyRecord, group: usize) -> &'static [u8]
    ensures { result.now ≡ two_levels (letters_of letters) (first_keysym (given key.now) group) }
{
    if has_letters(letters, key, group, 0) {
        b"ALPHABETIC"
    } else if has_keypad(key, group) {
        b"KEYPAD"
    } else {
        b"TWO_LEVEL"
    }
}

#[inline(always)]
fn four_levels(letters: Letters, key: &KeyRecord, group: usize) -> &'static [u8]
    ensures { result.now ≡ four_levels (letters_of letters) (first_keysym (given key.now) group) }
{
    if has_letters(letters, key, group, 0) {
        if has_letters(letters, key, group, 2) {
            b"FOUR_LEVEL_ALPHABETIC"
        } else {
            b"FOUR_LEVEL_SEMIALPHABETIC"
        }
    } else if has_keypad(key, group) {
        b"FOUR_LEVEL_KEYPAD"
    } else {
        b"FOUR_LEVEL"
    }
}

/// The type that a group wants by how many levels it has, and by their first keysyms.
#[inline(always)]
fn automatic(letters: Letters, key: &KeyRecord, group: usize) -> Option<&'static [u8]>
    ensures { option_map (λ n. n.now) result
        ≡ automatic (letters_of letters) (first_keysym (given key.now) group)
        ((given key.now).width group) }
{
    match key.width(group) {
        0 | 1 => Some(ONE_LEVEL.as_bytes()),
        2 => Some(two_levels(letters, key, group)),
        3 | 4 => Some(four_levels(letters, key, group)),
        _ => None,
    }
}

/// The type that a group wants: the one that is written for it, else the key's, else the automatic one.
#[inline(always)]
fn wanted_type<'a>(letters: Letters, key: &'a KeyRecord, group: usize) -> Option<&'a [u8]>
    ensures { option_map (λ n. n.now) result ≡ wanted_type (letters_of letters) (given key.now) group }
{
    match written_type(key, group) {
        Some(name) => Some(name),
        None => match key_type(key) {
            Some(name) => Some(name),
            None => automatic(letters, key, group),
        },
    }
}

/// A key has at most this many groups.
const MOST_GROUPS: usize = kx_basics::MOST_GROUPS as usize;

/// How many groups a key has: up to the last that has a level.
#[tactic(auto, using(crate::proofs::Counting::within_none, crate::proofs::Counting::within_next))]
pub fn group_count(key: &KeyRecord) -> usize
    ensures value { result ≡ group_count (given key.now) }
    ensures few { result ≤ MOST_GROUPS }
{
    let mut count = 0;
    'groups: for group in 0..key.group_count().min(MOST_GROUPS) {
        if key.width(group) > 0 {
            count = group + 1;
        }
    }
    count
}

/// The group whose type and content a group takes: the first's where it has no level of its own.
pub fn content_group(key: &KeyRecord, group: usize) -> usize
    ensures { result ≡ content_group (given key.now) group }
{
    if key.width(group) > 0 { group } else { 0 }
}

/// Whether a level of a group has an action.
#[tactic(auto, using(crate::proofs::Acting::any_none, crate::proofs::Acting::any_next))]
fn group_has_action(key: &KeyRecord, group: usize) -> bool
    ensures { result ≡ any_below ((given key.now).width group) (λ level.
        is_some ((given key.now).action group level)) }
{
    let mut found = false;
    'levels: for level in 0..key.width(group) {
        found = found || action_at(key, group, level).is_some();
    }
    found
}

/// Whether a level of a group of a key has an action, however far after the levels of the group's type.
#[tactic(auto, using(crate::proofs::Acting::any_none, crate::proofs::Acting::any_next, crate::proofs::Acting::acts_is))]
pub fn has_action(key: &KeyRecord) -> bool
    ensures { result ≡ has_action (given key.now) }
{
    if !key.has_action() {
        return false;
    }
    let mut found = false;
    'groups: for group in 0..group_count(key) {
        found = found || group_has_action(key, group);
    }
    found
}

/// The key type that a group has.
#[derive(Clone, Copy)]
pub struct GroupType<'a> {
    /// Its name.
    pub name: &'a [u8],
    /// How many levels it has, 1 to 64: what a group has after them is lost.
    pub levels: usize,
    /// Where its name is looked for first the next time: a place among the declared types, counted from 0.
    pub place: usize,
    /// Whether it stands in place of another that is wanted; ONE_LEVEL, which is built in, stands for itself.
    pub falls_back: bool,
}

/// The built-in type, or the one that is declared under its name.
fn one_level(typing: Typing, falls_back: bool) -> GroupType<'static>
    ensures name { result.name.now ≡ one_level_name }
    ensures levels { result.levels
        ≡ (type_definition (typing_of typing.entry) one_level_name).levels }
    ensures few { result.levels ≤ MOST_LEVELS }
    ensures falls_back { result.falls_back ≡ falls_back }
{
    let name = ONE_LEVEL.as_bytes();
    GroupType {
        name,
        levels: levels_of(typing, name),
        place: 0,
        falls_back,
    }
}

/// The type of a name, where a type has it; it is looked for first at a place where it may stand.
#[inline(always)]
fn declared_type<'a>(typing: Typing, name: &'a [u8], near: usize) -> Option<GroupType<'a>>
    ensures some { IfSome result (λ t. IsTrue (is_type (typing_of typing.entry) name.now)
        × (t.name.now ≡ name.now) × (t.levels
        ≡ (type_definition (typing_of typing.entry) name.now).levels) × (t.levels ≤ MOST_LEVELS)
        × (t.falls_back ≡ false)) }
    ensures none { IfNone result (is_type (typing_of typing.entry) name.now ≡ false) }
{
    if name.len() > MOST_NAME_BYTES {
        return None;
    }
    let (place, key_type) = typing.types.named_near(name, near)?;
    Some(GroupType {
        name,
        levels: usize::from(key_type.levels()),
        place,
        falls_back: false,
    })
}

/// The type that stands for one that is wanted.
#[inline(always)]
fn type_for<'a>(typing: Typing, wanted: Option<&'a [u8]>, near: usize) -> GroupType<'a>
    ensures name { result.name.now
        ≡ type_name (typing_of typing.entry) (option_map (λ n. n.now) wanted.entry) }
    ensures levels { result.levels
        ≡ (type_definition (typing_of typing.entry)
        (type_name (typing_of typing.entry) (option_map (λ n. n.now) wanted.entry))).levels }
    ensures few { result.levels ≤ MOST_LEVELS }
    ensures falls_back { result.falls_back
        ≡ is_fallback (typing_of typing.entry) (option_map (λ n. n.now) wanted.entry) }
{
    match wanted {
        None => one_level(typing, true),
        Some(name) => match declared_type(typing, name, near) {
            Some(group_type) => group_type,
            None => one_level(typing, name != ONE_LEVEL.as_bytes()),
        },
    }
}

/// The type that a group has, or the first one where it has no level of its own; it is looked for first at a place where it
/// may stand.
#[inline(always)]
pub fn group_type_near<'a>(
    typing: Typing,
    key: &'a KeyRecord,
    group: usize,
    near: usize,
) -> GroupType<'a>
    ensures name { result.name.now
        ≡ group_type_name (typing_of typing.entry) (given key.now) group }
    ensures levels { result.levels ≡ group_levels (typing_of typing.entry) (given key.now) group }
    ensures few { result.levels ≤ MOST_LEVELS }
    ensures falls_back { result.falls_back
        ≡ falls_back (typing_of typing.entry) (given key.now)
        (content_group (given key.now) group) }
{
    type_for(
        typing,
        wanted_type(typing.letters, key, content_group(key, group)),
        near,
    )
}

/// The type that a group has, or the first one where it has no level of its own.
pub fn group_type<'a>(typing: Typing, key: &'a KeyRecord, group: usize) -> GroupType<'a>
    ensures name { result.name.now
        ≡ group_type_name (typing_of typing.entry) (given key.now) group }
    ensures levels { result.levels ≡ group_levels (typing_of typing.entry) (given key.now) group }
    ensures few { result.levels ≤ MOST_LEVELS }
    ensures falls_back { result.falls_back
        ≡ falls_back (typing_of typing.entry) (given key.now)
        (content_group (given key.now) group) }
{
    group_type_near(typing, key, group, 0)
}

/// How many levels the type of a name has.
fn levels_of(typing: Typing, name: &[u8]) -> usize
    ensures value { result ≡ (type_definition (typing_of typing.entry) name.now).levels }
    ensures few { result ≤ MOST_LEVELS }
{
    match typing.types.named(name) {
        None => 1,
        Some(key_type) => usize::from(key_type.levels()),
    }
}
