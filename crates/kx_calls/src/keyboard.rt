//! Keyboards: what a compositor runs.
ghost use Rattle.std.specs.Prelude.{◌≡◌, ◌<◌, ◌≤◌, IfSome, None, Some};
ghost use Rattle.kx_run.specs.World.{opening};
ghost use Rattle.kx_calls.specs.InC.{IsReply, behind, reply_to};
ghost use Rattle.kx_calls.specs.declared.status.TheConstants.{MISSING, OK};

use crate::reply::XkcReply;
use crate::status::{MISSING, OK};
use kx_handles::{SharedKeyboard, SharedTables};
use kx_run::Direction;
use std::alloc::Global;

/// A keyboard on the heap.
pub fn started(alloc: Global, tables: &SharedTables) -> Option<Box<SharedKeyboard>>
    ensures { IfSome result (λ b. b.value ≡ record { content = tables.now; world = opening }) }
{
    let Ok(shared) = tables.again() else {
        return None;
    };
    let Ok(keyboard) = SharedKeyboard::start(alloc, shared) else {
        return None;
    };
    match Box::new(alloc, keyboard) {
        Err(_) => None,
        Ok(boxed) => Some(boxed),
    }
}

/// Tells a keyboard of an event, where keys have codes so great.
pub fn told(keyboard: &mut SharedKeyboard, code: u32, down: u8, reply: &mut XkcReply) -> u32
    ensures stepped { code < 65536
        → (result ≡ OK) × ((keyboard.new ≡ behind keyboard.old code down)
        × IsReply reply.new (reply_to keyboard.old code down)) }
    ensures missing { 65536 ≤ code
        → (result ≡ MISSING) × ((keyboard.new ≡ keyboard.old) × (reply.new ≡ reply.old)) }
{
    if code > 0xffff {
        return MISSING;
    }
    *reply = answered(keyboard, code as u16, down);
    OK
}

/// What a keyboard answers to an event.
fn answered(keyboard: &mut SharedKeyboard, code: u16, down: u8) -> XkcReply
    ensures keyboard { keyboard.new ≡ behind keyboard.old code down }
    ensures reply { IsReply result (reply_to keyboard.old code down) }
{
    let direction = if down == 0 {
        Direction::Up
    } else {
        Direction::Down
    };
    XkcReply::of(&keyboard.event(code, direction))
}
