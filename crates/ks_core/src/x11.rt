//! The names of X11 and XFree86 beyond the built-in ones.
ghost use Rattle.std.specs.Prelude.{◌≡◌, ◌<◌, [], IfSome, Some, get_or, length, map, slice_get};
ghost use Rattle.std.specs.Option.{option_map};
ghost use Rattle.ks_core.specs.Entry.{keysym_in, name_in};
ghost use Rattle.ks_core.specs.Rising.{IsRising};
ghost use Rattle.ks_core.specs.X11.{x11_firsts, x11_names};
ghost use Rattle.ks_core.specs.X11Index.{IsPlacing, IsText, hash_of};

use crate::x11_table::{FIRSTS, KEYSYMS, SHIFTS, SLOTS, STARTS, TEXT};

/// By the hash of a name, where it stands among the names.
#[derive(Clone, Copy)]
struct Placing {
    shifts: &'static [[u16; 32]],
    slots: &'static [[u16; 64]],
}

fn by_hash() -> Placing
    ensures { IsPlacing result.shifts.now result.slots.now }
{
    Placing {
        shifts: &SHIFTS,
        slots: &SLOTS,
    }
}

/// The keysyms of all names.
fn keysyms() -> &'static [u32]
    ensures { result.now ≡ map (λ e. e.1) x11_names }
{
    &KEYSYMS
}

/// The keysyms, each once.
fn firsts() -> &'static [u32]
    ensures keysyms { result.now ≡ map (λ e. e.1) x11_firsts }
    ensures rising { IsRising result.now }
{
    &KEYSYMS[..FIRSTS]
}

/// The text of all names, and where each starts in it.
#[derive(Clone, Copy)]
struct Spelling {
    starts: &'static [u16],
    text: &'static str,
}

fn all_names() -> Spelling
    ensures { IsText result.starts.now result.text.now }
{
    Spelling {
        starts: &STARTS,
        text: TEXT,
    }
}

/// The bytes of the name at a place.
fn bytes_at(place: usize) -> &'static [u8]
    requires { place < length x11_names }
    ensures { result.now ≡ (get_or x11_names place ([], 0)).0 }
{
    let names = all_names();
    let start = usize::from(names.starts[place]);
    let end = usize::from(names.starts[place + 1]);
    &names.text.as_bytes()[start..end]
}

/// The name at a place.
fn text_at(place: usize) -> &'static str
    requires { place < length x11_names }
    ensures { result.now ≡ (get_or x11_names place ([], 0)).0 }
{
    match str::from_utf8(bytes_at(place)) {
        Ok(name) => name,
        Err(_) => unreachable!(),
    }
}

/// A number of the bytes of a name.
#[tactic(auto, unfolding(crate::specs::X11Index::hash_of))]
fn hash_of(name: &[u8]) -> usize
    ensures value { result ≡ hash_of name.now }
    ensures small { result < 4194304 }
{
    let mut hash = 0;
    for byte in name {
        hash = (hash * 33 + usize::from(*byte)) % 4194304;
    }
    hash
}

/// The keysym with that name.
pub(crate) fn keysym_of(name: &[u8]) -> Option<u32>
    ensures { result ≡ keysym_in x11_names name.now }
{
    let placing = by_hash();
    let hash = hash_of(name);
    let shift = placing.shifts[hash / 4096 % 1024 / 32][hash / 4096 % 32];
    let slot = (hash + usize::from(shift)) % 4096;
    let place = usize::from(placing.slots[slot / 64][slot % 64]);
    match keysyms().get(place) {
        Some(keysym) => {
            if bytes_at(place) == name {
                Some(*keysym)
            } else {
                None
            }
        }
        None => None,
    }
}

/// The first name of the keysym.
pub(crate) fn name_of(keysym: u32) -> Option<&'static str>
    ensures first { option_map (λ name. name.now) result ≡ name_in x11_names keysym }
    ensures back { IfSome result (λ name. keysym_in x11_names name.now ≡ Some keysym) }
{
    // No effect: the proof reads that no two names are the same.
    let _ = by_hash();
    match firsts().binary_search(&keysym) {
        Ok(place) => Some(text_at(place)),
        Err(_) => None,
    }
}

/// The name at a place, where there is one.
pub(crate) fn name_at(place: usize) -> Option<&'static str>
    ensures { option_map (λ name. name.now) result
        ≡ option_map (λ e. e.0) (slice_get x11_names place) }
{
    if place < keysyms().len() {
        Some(text_at(place))
    } else {
        None
    }
}
