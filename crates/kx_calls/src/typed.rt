//! What a key types in the state of a follower.
ghost use Rattle.std.specs.Prelude.{◌≡◌};
ghost use Rattle.kx_mods.specs.Mods.{mask};
ghost use Rattle.kx_run.specs.Replies.{looked};
ghost use Rattle.kx_tables.specs.Keymap.{keymap_of};
ghost use Rattle.kx_calls.specs.Typed.{ascii_from, ascii_in, keysym_in, keysyms_typed, lone_ascii, lone_beyond_ascii, text_in, unconsumed};

use arrayvec::{ArrayString, ArrayVec};
use kx_handles::SharedFollower;
use kx_mods::Mods;
use kx_run::{Components, Look};
use kx_text::{one_keysym, text_of as text_of_keysyms};

/// The one keysym that a key gives, or 0.
pub fn keysym_of(follower: &SharedFollower, code: u16) -> u32
    ensures { result
        ≡ keysym_in (keymap_of follower.now.content) follower.now.status code }
{
    let look = follower.look(code);
    match one_keysym(look.syms.as_slice(), unconsumed(follower, &look)) {
        Some(keysym) => keysym.0,
        None => 0,
    }
}

/// The text that a key types.
pub fn text_of(follower: &mut SharedFollower, code: u16) -> ArrayString<32>
    ensures text { result.bytes
        ≡ text_in (keymap_of follower.old.content) follower.old.status code }
    ensures same { follower.new ≡ follower.old }
{
    let look = follower.look(code);
    let left = unconsumed(follower, &look);
    let keysyms = typed_keysyms(follower, code, look.syms, left);
    text_of_keysyms(keysyms.as_slice(), left)
}

/// The modifiers that are active and that a look doesn't consume.
fn unconsumed(follower: &SharedFollower, look: &Look) -> Mods
    ensures { mask result ≡ unconsumed follower.now.status (looked look.now) }
{
    let state = follower.components();
    state
        .base
        .with(state.latched)
        .with(state.locked)
        .minus(look.consumed)
}

/// The keysyms that a key types: with Control, of one that isn't ASCII's, the first of ASCII that a group gives by itself.
fn typed_keysyms(
    follower: &mut SharedFollower,
    code: u16,
    keysyms: ArrayVec<u32, 8>,
    left: Mods,
) -> ArrayVec<u32, 8>
    ensures keysyms { result.items ≡ keysyms_typed (keymap_of follower.old.content)
        follower.old.status code keysyms.items (mask left) }
    ensures same { follower.new ≡ follower.old }
{
    if left.meet(Mods::CONTROL).is_none() || !is_lone_beyond_ascii(keysyms.as_slice()) {
        return keysyms;
    }
    match ascii_of(follower, code) {
        None => keysyms,
        Some(ascii) => {
            let mut other = ArrayVec::new();
            other.push(ascii);
            other
        }
    }
}

/// Whether there is one keysym, and it isn't ASCII's.
fn is_lone_beyond_ascii(keysyms: &[u32]) -> bool
    ensures { result ≡ lone_beyond_ascii keysyms.now }
{
    match keysyms {
        [keysym] => *keysym > 127,
        _ => false,
    }
}

/// The keysym, where there is one and it is ASCII's.
fn lone_ascii(keysyms: &[u32]) -> Option<u32>
    ensures { result ≡ lone_ascii keysyms.now }
{
    match keysyms {
        [keysym] if *keysym <= 127 => Some(*keysym),
        _ => None,
    }
}

/// The first keysym of ASCII that a group of the keymap gives by itself.
fn ascii_of(follower: &mut SharedFollower, code: u16) -> Option<u32>
    ensures value { let keymap = keymap_of follower.old.content in result
        ≡ ascii_from keymap follower.old.status code 0 keymap.groups }
    ensures same { follower.new ≡ follower.old }
{
    for group in 0..follower.groups() {
        let found = ascii_in(follower, code, group);
        if found.is_some() {
            return found;
        }
    }
    None
}

/// The keysym of ASCII that a group gives by itself.
fn ascii_in(follower: &mut SharedFollower, code: u16, group: u8) -> Option<u32>
    ensures value { result
        ≡ ascii_in (keymap_of follower.old.content) follower.old.status code group }
    ensures same { follower.new ≡ follower.old }
{
    let state = follower.components();
    follower.set(Components {
        base_group: 0,
        latched_group: 0,
        locked_group: group,
        ..state
    });
    let found = lone_ascii(follower.look(code).syms.as_slice());
    follower.set(state);
    found
}
