//! Keyboards: what a compositor runs.
ghost use Rattle.std.specs.Prelude.{◌≡◌, ◌≢◌, ◌⊎◌, ◌<◌, ◌≤◌, IfSome, None, Some};
ghost use Rattle.kx_run.specs.Player.{Played, taken_over};
ghost use Rattle.kx_run.specs.Replies.{lit_in, status_in};
ghost use Rattle.kx_run.specs.World.{opening};
ghost use Rattle.kx_tables.specs.Content.{Content};
ghost use Rattle.kx_tables.specs.Keymap.{keymap_of};
ghost use Rattle.kx_calls.specs.InC.{IsReply, behind, reply_to, status};
ghost use Rattle.kx_calls.specs.declared.status.TheConstants.{EMPTY, MEMORY, MISSING, OK};

use kx_calls::keyboard::{started, told};
use kx_calls::reply::XkcReply;
use kx_calls::state::XkcState;
use kx_calls::status::{EMPTY, MEMORY, MISSING, OK};
use kx_handles::{KeyboardHandle, KeymapHandle};
use std::alloc::Global;

/// Starts a keyboard over a keymap, with nothing held, latched or locked, and puts it in the place of what the handle
/// has.
#[unsafe(no_mangle)]
pub extern "C" fn xkc_keyboard_start(
    alloc: Global,
    keyboard: &mut KeyboardHandle,
    keymap: &mut KeymapHandle,
) -> u32
    ensures keymap { keymap.new.value ≡ keymap.old.value }
    ensures empty { keymap.old.value ≡ None → result ≡ EMPTY }
    ensures started { result ≡ OK → IfSome keymap.old.value (λ content.
        keyboard.new.value ≡ Some (record { content = content; world = opening })) }
    ensures refused { result ≢ OK → keyboard.new ≡ keyboard.old }
    ensures statuses { (content : Content) → keymap.old.value ≡ Some content
        → (result ≡ OK) ⊎ (result ≡ MEMORY) }
{
    let Some(tables) = keymap.take(alloc) else {
        return EMPTY;
    };
    let started = started(alloc, &tables);
    keymap.put(tables);
    match started {
        None => MEMORY,
        Some(boxed) => {
            keyboard.put(boxed);
            OK
        }
    }
}

/// Tells a keyboard of a press, or of a release where `down` is 0.
#[unsafe(no_mangle)]
pub extern "C" fn xkc_keyboard_event(
    alloc: Global,
    keyboard: &mut KeyboardHandle,
    code: u32,
    down: u8,
    reply: &mut XkcReply,
) -> u32
    ensures empty { keyboard.old.value ≡ None
        → (result ≡ EMPTY) × ((keyboard.new.value ≡ None) × (reply.new ≡ reply.old)) }
    ensures stepped { (played : Played) → keyboard.old.value ≡ Some played → code < 65536
        → (result ≡ OK) × ((keyboard.new.value ≡ Some (behind played code down))
        × IsReply reply.new (reply_to played code down)) }
    ensures missing { (played : Played) → keyboard.old.value ≡ Some played → 65536 ≤ code
        → (result ≡ MISSING) × ((keyboard.new.value ≡ Some played) × (reply.new ≡ reply.old)) }
{
    let Some(mut boxed) = keyboard.take(alloc) else {
        return EMPTY;
    };
    let status = told(&mut boxed, code, down, reply);
    keyboard.put(boxed);
    status
}

/// Latches and locks what a state says, in the place of what is latched and locked. The keys that are held stay so.
#[unsafe(no_mangle)]
pub extern "C" fn xkc_keyboard_set(
    alloc: Global,
    keyboard: &mut KeyboardHandle,
    state: &XkcState,
) -> u32
    ensures empty { keyboard.old.value ≡ None → (result ≡ EMPTY) × (keyboard.new.value ≡ None) }
    ensures taken { (played : Played) → keyboard.old.value ≡ Some played
        → (result ≡ OK) × (keyboard.new.value ≡ Some (record played {
          world = taken_over
              (keymap_of played.content).groups (status state.now) played.world;
        })) }
{
    let Some(mut boxed) = keyboard.take(alloc) else {
        return EMPTY;
    };
    boxed.take_over(state.components());
    keyboard.put(boxed);
    OK
}

/// The modifiers and groups of a keyboard.
#[unsafe(no_mangle)]
pub extern "C" fn xkc_keyboard_state(
    alloc: Global,
    keyboard: &mut KeyboardHandle,
    state: &mut XkcState,
) -> u32
    ensures keyboard { keyboard.new.value ≡ keyboard.old.value }
    ensures empty { keyboard.old.value ≡ None → (result ≡ EMPTY) × (state.new ≡ state.old) }
    ensures state { (played : Played) → keyboard.old.value ≡ Some played
        → (result ≡ OK) × (status state.new ≡ status_in (keymap_of played.content) played.world) }
{
    let Some(boxed) = keyboard.take(alloc) else {
        return EMPTY;
    };
    *state = XkcState::of(boxed.components());
    keyboard.put(boxed);
    OK
}

/// The indicators that are lit: bit i is indicator i, from 0.
#[unsafe(no_mangle)]
pub extern "C" fn xkc_keyboard_lit(
    alloc: Global,
    keyboard: &mut KeyboardHandle,
    lit: &mut u32,
) -> u32
    ensures keyboard { keyboard.new.value ≡ keyboard.old.value }
    ensures empty { keyboard.old.value ≡ None → (result ≡ EMPTY) × (lit.new ≡ lit.old) }
    ensures lit { (played : Played) → keyboard.old.value ≡ Some played
        → (result ≡ OK) × (lit.new ≡ lit_in (keymap_of played.content)
        (status_in (keymap_of played.content) played.world)) }
{
    let Some(boxed) = keyboard.take(alloc) else {
        return EMPTY;
    };
    *lit = boxed.lit();
    keyboard.put(boxed);
    OK
}

/// Lets go of what the handle has.
#[unsafe(no_mangle)]
pub extern "C" fn xkc_keyboard_end(alloc: Global, keyboard: &mut KeyboardHandle)
    ensures { keyboard.new.value ≡ None }
{
    keyboard.end(alloc);
}
