//! Names that are near to one that nothing has.
use ks_core::NameTable;
use kx_codes::Codes;
use kx_explain::Nearest;
use kx_types::Types;

/// So many names are compared with a word at most: a table of names has no more that are worth it.
const MOST_NAMES: usize = 1 << 16;

/// The name of a keysym that a word is near to.
pub(crate) fn near_keysym<'a>(names: &'a NameTable, word: &'a [u8]) -> Option<&'a [u8]> {
    let mut nearest = Nearest::to(word);
    for place in 0..MOST_NAMES {
        let Some(name) = NameTable::built_in_at(place) else {
            break;
        };
        nearest.offer(name.as_bytes());
    }
    for place in 0..MOST_NAMES {
        let Some(name) = names.further_at(place) else {
            break;
        };
        nearest.offer(name.as_bytes());
    }
    nearest.name()
}

/// The name of a key that has a keycode, to which a word is near.
pub(crate) fn near_key<'a>(codes: &'a Codes, word: &'a [u8]) -> Option<&'a [u8]> {
    let mut nearest = Nearest::to(word);
    for code in 0..codes.end() {
        if let Some(name) = codes.name_of(code) {
            nearest.offer(name);
        }
    }
    nearest.name()
}

/// The name of a type that is declared, to which a word is near.
pub(crate) fn near_type<'a>(types: &'a Types, word: &'a [u8]) -> Option<&'a [u8]> {
    let mut nearest = Nearest::to(word);
    for place in 0..types.len() {
        if let Some((name, Some(_))) = types.at(place) {
            nearest.offer(name);
        }
    }
    nearest.name()
}
