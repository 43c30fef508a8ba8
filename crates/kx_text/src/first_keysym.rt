//! The keysym of a character.
ghost use Rattle.std.specs.Prelude.{◌≡◌, map};
ghost use Rattle.std.specs.Option.{option_map};
ghost use Rattle.ks_core.specs.Rising.{IsRising};
ghost use Rattle.kx_text.specs.FirstKeysym.{by_character, is_noncharacter, keysym_of, older_keysym};

use crate::character_table::{EACH_CHARACTER, FIRST_KEYSYMS};
use crate::characters::{UNICODE, is_latin};
use ks_core::Keysym;

/// The keysym that stands for a code point: that of Latin-1, the first of the older ones, or that of Unicode. Noncharacters
/// have none, and nor have numbers above 0x10ffff.
pub fn keysym_of(code_point: u32) -> Option<Keysym>
    ensures { option_map (λ keysym. keysym.0) result ≡ keysym_of code_point }
{
    if is_latin(code_point) {
        Some(Keysym(code_point))
    } else if code_point > 0x10_ffff || is_noncharacter(code_point) {
        None
    } else {
        match older_keysym(code_point) {
            Some(keysym) => Some(Keysym(keysym)),
            None => Some(Keysym(UNICODE + code_point)),
        }
    }
}

/// Whether Unicode keeps a code point from being a character.
fn is_noncharacter(code_point: u32) -> bool
    ensures { result ≡ is_noncharacter code_point }
{
    (0xfdd0 <= code_point && code_point <= 0xfdef) || code_point % 0x1_0000 >= 0xfffe
}

/// The characters that older keysyms give, each once.
fn each_character() -> &'static [u32]
    ensures members { result.now ≡ map (λ row. row.0) by_character }
    ensures rising { IsRising result.now }
{
    &EACH_CHARACTER
}

/// The first keysym that gives each of them.
fn first_keysyms() -> &'static [u32]
    ensures { result.now ≡ map (λ row. row.1) by_character }
{
    &FIRST_KEYSYMS
}

/// The first older keysym that gives a character.
fn older_keysym(code_point: u32) -> Option<u32>
    ensures { result ≡ older_keysym code_point }
{
    match each_character().binary_search(&code_point) {
        Ok(place) => Some(first_keysyms()[place]),
        Err(_) => None,
    }
}
