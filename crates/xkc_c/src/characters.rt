//! Keysyms and characters.
ghost use Rattle.std.specs.Prelude.{◌≡◌};
ghost use Rattle.kx_text.specs.Case.{lower, upper};
ghost use Rattle.kx_text.specs.Characters.{code_point_of};
ghost use Rattle.kx_text.specs.FirstKeysym.{keysym_of};
ghost use Rattle.kx_calls.specs.Typed.{or_zero};

use ks_core::Keysym;

/// The code point of the character that a keysym stands for, or 0.
#[unsafe(no_mangle)]
pub extern "C" fn xkc_keysym_character(keysym: u32) -> u32
    ensures { result ≡ or_zero (code_point_of keysym) }
{
    kx_text::code_point_of(Keysym(keysym)).unwrap_or(0)
}

/// The keysym that stands for a character, or 0.
#[unsafe(no_mangle)]
pub extern "C" fn xkc_character_keysym(character: u32) -> u32
    ensures { result ≡ or_zero (keysym_of character) }
{
    match kx_text::keysym_of(character) {
        Some(keysym) => keysym.0,
        None => 0,
    }
}

/// The keysym of a letter in upper case, and any other itself.
#[unsafe(no_mangle)]
pub extern "C" fn xkc_keysym_upper(keysym: u32) -> u32
    ensures { result ≡ upper keysym }
{
    kx_text::upper(Keysym(keysym)).0
}

/// The keysym of a letter in lower case, and any other itself.
#[unsafe(no_mangle)]
pub extern "C" fn xkc_keysym_lower(keysym: u32) -> u32
    ensures { result ≡ lower keysym }
{
    kx_text::lower(Keysym(keysym)).0
}
