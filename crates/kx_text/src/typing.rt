//! What the keysyms of a key type.
ghost use Rattle.std.specs.Prelude.{◌≡◌, ◌≤◌, length};
ghost use Rattle.std.specs.Option.{option_map};
ghost use Rattle.kx_mods.specs.Mods.{mask};
ghost use Rattle.kx_text.specs.Typing.{capital, control, has, one_keysym, text_of, text_of_each, text_of_one, typed};

use crate::case::upper;
use crate::characters::character_of;
use arrayvec::ArrayString;
use ks_core::Keysym;
use kx_mods::Mods;

/// The keysym of a key that has one: in upper case where Lock is active and not consumed. `unconsumed` is the modifiers that
/// are active and that the keysyms don't consume.
pub fn one_keysym(keysyms: &[u32], unconsumed: Mods) -> Option<Keysym>
    ensures { option_map (λ keysym. keysym.0) result ≡ one_keysym (mask unconsumed) keysyms.now }
{
    match keysyms {
        [keysym] => Some(capital(Keysym(*keysym), unconsumed)),
        _ => None,
    }
}

/// The text that a key types: of one keysym its character, in upper case with Lock and a control character with Control, and
/// of several the characters of all, or nothing where one has none.
pub fn text_of(keysyms: &[u32], unconsumed: Mods) -> ArrayString<32>
    requires { length keysyms.now ≤ 8 }
    ensures { result.bytes ≡ text_of (mask unconsumed) keysyms.now }
{
    match keysyms {
        [keysym] => text_of_one(Keysym(*keysym), unconsumed),
        _ => text_of_each(keysyms),
    }
}

/// Whether a modifier is in a set.
fn has(set: Mods, modifier: Mods) -> bool
    ensures { result ≡ has (mask set) (mask modifier) }
{
    !set.meet(modifier).is_none()
}

/// A keysym under Lock.
fn capital(keysym: Keysym, unconsumed: Mods) -> Keysym
    ensures { result.0 ≡ capital (mask unconsumed) keysym.0 }
{
    if has(unconsumed, Mods::LOCK) {
        upper(keysym)
    } else {
        keysym
    }
}

/// The text of a keysym by itself.
fn text_of_one(keysym: Keysym, unconsumed: Mods) -> ArrayString<32>
    ensures { result.bytes ≡ text_of_one (mask unconsumed) keysym.0 }
{
    let mut text = ArrayString::new();
    if let Some(character) = character_of(capital(keysym, unconsumed)) {
        text.push(typed(character, unconsumed));
    }
    text
}

/// A character under Control.
fn typed(character: char, unconsumed: Mods) -> char
    ensures { result ≡ typed (mask unconsumed) character }
{
    if has(unconsumed, Mods::CONTROL) {
        control(character)
    } else {
        character
    }
}

/// The control character that Control makes of a character.
fn control(character: char) -> char
    ensures { result ≡ control character }
{
    match character {
        '@'..='~' | ' ' => (character as u8 % 32) as char,
        '2' => '\0',
        '3'..='7' => (character as u8 - 24) as char,
        '8' => '\x7f',
        '/' => '\x1f',
        _ => character,
    }
}

/// The text of several keysyms.
fn text_of_each(keysyms: &[u32]) -> ArrayString<32>
    requires { length keysyms.now ≤ 8 }
    ensures { result.bytes ≡ text_of_each keysyms.now }
{
    let mut text = ArrayString::new();
    for keysym in keysyms {
        match character_of(Keysym(*keysym)) {
            Some(character) => text.push(character),
            None => return ArrayString::new(),
        }
    }
    text
}
