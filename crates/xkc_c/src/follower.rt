//! Followers: what a client looks its keys up in.
ghost use Rattle.std.specs.Prelude.{◌≡◌, ◌≢◌, ◌⊎◌, ◌<◌, ◌≤◌, IfSome, None, Some};
ghost use Rattle.kx_run.specs.Player.{Followed};
ghost use Rattle.kx_run.specs.Replies.{lit_in, look_at, status_in};
ghost use Rattle.kx_run.specs.World.{opening};
ghost use Rattle.kx_tables.specs.Content.{Content};
ghost use Rattle.kx_tables.specs.Keymap.{keymap_of};
ghost use Rattle.kx_calls.specs.InC.{IsLook, status};
ghost use Rattle.kx_calls.specs.Out.{Copies};
ghost use Rattle.kx_calls.specs.Typed.{keysym_in, text_in};
ghost use Rattle.kx_calls.specs.declared.status.TheConstants.{EMPTY, MEMORY, MISSING, OK};

use kx_calls::follower::{looked, started};
use kx_calls::out::copy;
use kx_calls::reply::XkcLook;
use kx_calls::state::XkcState;
use kx_calls::status::{EMPTY, MEMORY, MISSING, OK};
use kx_calls::typed::{keysym_of, text_of};
use kx_handles::{FollowerHandle, KeymapHandle};
use std::alloc::Global;

/// Starts a follower of a keyboard over a keymap, with nothing held, latched or locked, and puts it in the place of what
/// the handle has.
#[unsafe(no_mangle)]
pub extern "C" fn xkc_follower_start(
    alloc: Global,
    follower: &mut FollowerHandle,
    keymap: &mut KeymapHandle,
) -> u32
    ensures keymap { keymap.new.value ≡ keymap.old.value }
    ensures empty { keymap.old.value ≡ None → result ≡ EMPTY }
    ensures started { result ≡ OK → IfSome keymap.old.value (λ content.
        follower.new.value ≡ Some (record {
          content = content;
          status = status_in (keymap_of content) opening;
        })) }
    ensures refused { result ≢ OK → follower.new ≡ follower.old }
    ensures statuses { (content : Content) → keymap.old.value ≡ Some content
        → (result ≡ OK) ⊎ (result ≡ MEMORY) }
{
    let Some(tables) = keymap.take(alloc) else {
        return EMPTY;
    };
    let started = started(alloc, &tables);
    keymap.put(tables);
    match started {
        None => MEMORY,
        Some(boxed) => {
            follower.put(boxed);
            OK
        }
    }
}

/// Tells a follower of a state, in the place of what it was told before.
#[unsafe(no_mangle)]
pub extern "C" fn xkc_follower_set(
    alloc: Global,
    follower: &mut FollowerHandle,
    state: &XkcState,
) -> u32
    ensures empty { follower.old.value ≡ None → (result ≡ EMPTY) × (follower.new.value ≡ None) }
    ensures told { (followed : Followed) → follower.old.value ≡ Some followed
        → (result ≡ OK) × (follower.new.value
        ≡ Some (record followed { status = status state.now })) }
{
    let Some(mut boxed) = follower.take(alloc) else {
        return EMPTY;
    };
    boxed.set(state.components());
    follower.put(boxed);
    OK
}

/// What the key of a code gives in the state that a follower was told last.
#[unsafe(no_mangle)]
pub extern "C" fn xkc_follower_look(
    alloc: Global,
    follower: &mut FollowerHandle,
    code: u32,
    look: &mut XkcLook,
) -> u32
    ensures follower { follower.new.value ≡ follower.old.value }
    ensures empty { follower.old.value ≡ None → (result ≡ EMPTY) × (look.new ≡ look.old) }
    ensures looked { (followed : Followed) → follower.old.value ≡ Some followed → code < 65536
        → (result ≡ OK) × IsLook look.new
        (look_at (keymap_of followed.content) followed.status code) }
    ensures missing { (followed : Followed) → follower.old.value ≡ Some followed → 65536 ≤ code
        → (result ≡ MISSING) × (look.new ≡ look.old) }
{
    let Some(boxed) = follower.take(alloc) else {
        return EMPTY;
    };
    let status = looked(&boxed, code, look);
    follower.put(boxed);
    status
}

/// The one keysym that the key of a code gives in the state that a follower was told last, in upper case where Lock is
/// active and not consumed, or 0 where there is none or several.
#[unsafe(no_mangle)]
pub extern "C" fn xkc_follower_keysym(
    alloc: Global,
    follower: &mut FollowerHandle,
    code: u32,
    keysym: &mut u32,
) -> u32
    ensures follower { follower.new.value ≡ follower.old.value }
    ensures empty { follower.old.value ≡ None → (result ≡ EMPTY) × (keysym.new ≡ keysym.old) }
    ensures told { (followed : Followed) → follower.old.value ≡ Some followed → code < 65536
        → (result ≡ OK) × (keysym.new
        ≡ keysym_in (keymap_of followed.content) followed.status code) }
    ensures missing { (followed : Followed) → follower.old.value ≡ Some followed → 65536 ≤ code
        → (result ≡ MISSING) × (keysym.new ≡ keysym.old) }
{
    let Some(boxed) = follower.take(alloc) else {
        return EMPTY;
    };
    let status = match u16::try_from(code) {
        Ok(code) => {
            *keysym = keysym_of(&boxed, code);
            OK
        }
        Err(_) => MISSING,
    };
    follower.put(boxed);
    status
}

/// The text that the key of a code types in the state that a follower was told last.
#[unsafe(no_mangle)]
pub extern "C" fn xkc_follower_text(
    alloc: Global,
    follower: &mut FollowerHandle,
    code: u32,
    out: &mut [u8],
    size: &mut usize,
) -> u32
    ensures follower { follower.new.value ≡ follower.old.value }
    ensures empty { follower.old.value ≡ None
        → (result ≡ EMPTY) × (out.new ≡ out.old) × (size.new ≡ size.old) }
    ensures copied { (followed : Followed) → follower.old.value ≡ Some followed → code < 65536
        → Copies (text_in (keymap_of followed.content) followed.status code)
        out.old out.new size.new result }
    ensures missing { (followed : Followed) → follower.old.value ≡ Some followed → 65536 ≤ code
        → (result ≡ MISSING) × (out.new ≡ out.old) × (size.new ≡ size.old) }
{
    let Some(mut boxed) = follower.take(alloc) else {
        return EMPTY;
    };
    let status = match u16::try_from(code) {
        Ok(code) => copy(text_of(&mut boxed, code).as_str().as_bytes(), out, size),
        Err(_) => MISSING,
    };
    follower.put(boxed);
    status
}

/// The indicators that are lit in the state that a follower was told last: bit i is indicator i, from 0.
#[unsafe(no_mangle)]
pub extern "C" fn xkc_follower_lit(
    alloc: Global,
    follower: &mut FollowerHandle,
    lit: &mut u32,
) -> u32
    ensures follower { follower.new.value ≡ follower.old.value }
    ensures empty { follower.old.value ≡ None → (result ≡ EMPTY) × (lit.new ≡ lit.old) }
    ensures lit { (followed : Followed) → follower.old.value ≡ Some followed
        → (result ≡ OK) × (lit.new ≡ lit_in (keymap_of followed.content) followed.status) }
{
    let Some(boxed) = follower.take(alloc) else {
        return EMPTY;
    };
    *lit = boxed.lit();
    follower.put(boxed);
    OK
}

/// Lets go of what the handle has.
#[unsafe(no_mangle)]
pub extern "C" fn xkc_follower_end(alloc: Global, follower: &mut FollowerHandle)
    ensures { follower.new.value ≡ None }
{
    follower.end(alloc);
}
