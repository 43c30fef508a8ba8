//! The characters that keysyms give.
ghost use Rattle.std.specs.Prelude.{◌≡◌, ℕ, ◌⊎◌, Contains, IfOk, OnOk, Some, map, true};
ghost use Rattle.ks_core.specs.Rising.{IsRising};
ghost use Rattle.kx_text.specs.Characters.{character_of, code_point_of, is_latin, is_unicode, older_character};
ghost use Rattle.kx_text.specs.OlderCharacters.{older_characters};

use crate::character_table::{CHARACTERS, KEYSYMS};
use ks_core::Keysym;
use std::alloc::{AllocError, Global};

/// The keysym of U+0000; those of the other characters follow.
pub(crate) const UNICODE: u32 = 0x0100_0000;

/// Whether a number is a character of Latin-1, and its keysym.
pub(crate) fn is_latin(number: u32) -> bool
    ensures { result ≡ is_latin number }
{
    (0x20 <= number && number <= 0x7e) || (0xa0 <= number && number <= 0xff)
}

/// Whether a keysym is a character's number after that of U+0000.
fn is_unicode(keysym: u32) -> bool
    ensures { result ≡ is_unicode keysym }
{
    0x0100_0001 <= keysym && keysym <= 0x0110_ffff
}

/// The other keysyms that give a character.
fn older_keysyms() -> &'static [u32]
    ensures members { result.now ≡ map (λ row. row.0) older_characters }
    ensures rising { IsRising result.now }
{
    &KEYSYMS
}

/// The character of each of them.
fn older_characters() -> &'static [u32]
    ensures { result.now ≡ map (λ row. row.1) older_characters }
{
    &CHARACTERS
}

/// The character of one of them.
fn older_character(keysym: u32) -> Option<char>
    ensures { result ≡ older_character keysym }
{
    match older_keysyms().binary_search(&keysym) {
        Ok(place) => char::from_u32(older_characters()[place]),
        Err(_) => None,
    }
}

/// The character that a keysym gives: one of Latin-1, of Unicode's keysyms, of the older sets, or of a function or a key of
/// the keypad, as a line feed or a digit.
pub fn character_of(keysym: Keysym) -> Option<char>
    ensures { result ≡ character_of keysym.0 }
{
    let number = keysym.0;
    if is_latin(number) {
        char::from_u32(number)
    } else if is_unicode(number) {
        char::from_u32(number - UNICODE)
    } else {
        older_character(number)
    }
}

/// The code point that a keysym stands for: its character's, or a surrogate, which is no character.
pub fn code_point_of(keysym: Keysym) -> Option<u32>
    ensures { result ≡ code_point_of keysym.0 }
{
    let number = keysym.0;
    if is_latin(number) {
        Some(number)
    } else if is_unicode(number) {
        Some(number - UNICODE)
    } else {
        match older_character(number) {
            Some(character) => Some(u32::from(character)),
            None => None,
        }
    }
}

/// Adds a keysym, where it is wanted.
fn push_if(keysyms: &mut Vec<u32>, keysym: u32, is_wanted: bool) -> Result<(), AllocError>
    ensures kept { OnOk result ((k : ℕ) → Contains keysyms.old.items k
        → Contains keysyms.new.items k) }
    ensures each { OnOk result ((k : ℕ) → Contains keysyms.new.items k
        → Contains keysyms.old.items k ⊎ ((is_wanted ≡ true) × (k ≡ keysym))) }
    ensures given { OnOk result (is_wanted ≡ true → Contains keysyms.new.items keysym) }
{
    if is_wanted {
        keysyms.push(keysym)?;
    }
    Ok(())
}

/// Adds the other keysyms that give a character.
fn add_older(keysyms: &mut Vec<u32>, number: u32) -> Result<(), AllocError>
    ensures kept { OnOk result ((k : ℕ) → Contains keysyms.old.items k
        → Contains keysyms.new.items k) }
    ensures each { OnOk result ((k : ℕ) → Contains keysyms.new.items k
        → Contains keysyms.old.items k ⊎ (character_of k ≡ Some number)) }
    ensures all { OnOk result ((k : ℕ) → older_character k ≡ Some number
        → Contains keysyms.new.items k) }
{
    let others = older_keysyms();
    let characters = older_characters();
    for place in 0..others.len() {
        push_if(keysyms, others[place], characters[place] == number)?;
    }
    Ok(())
}

/// The keysyms that give a character: each of them, and no other.
///
/// # Errors
/// Where a growth is refused.
pub fn keysyms_of(alloc: Global, character: char) -> Result<Vec<u32>, AllocError>
    ensures each { IfOk result (λ keysyms. (k : ℕ) → Contains keysyms.items k
        → character_of k ≡ Some character) }
    ensures all { IfOk result (λ keysyms. (k : ℕ) → character_of k ≡ Some character
        → Contains keysyms.items k) }
{
    let number = u32::from(character);
    let mut keysyms = Vec::new(alloc);
    push_if(&mut keysyms, number, is_latin(number))?;
    push_if(&mut keysyms, number + UNICODE, number > 0)?;
    add_older(&mut keysyms, number)?;
    Ok(keysyms)
}
