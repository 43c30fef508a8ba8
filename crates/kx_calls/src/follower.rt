//! Followers: what a client looks its keys up in.
ghost use Rattle.std.specs.Prelude.{◌≡◌, ◌<◌, ◌≤◌, IfSome, None, Some};
ghost use Rattle.kx_run.specs.Replies.{look_at, status_in};
ghost use Rattle.kx_run.specs.World.{opening};
ghost use Rattle.kx_tables.specs.Keymap.{keymap_of};
ghost use Rattle.kx_calls.specs.InC.{IsLook, status};
ghost use Rattle.kx_calls.specs.declared.status.TheConstants.{MISSING, OK};

use crate::reply::XkcLook;
use crate::status::{MISSING, OK};
use kx_handles::{SharedFollower, SharedTables};
use std::alloc::Global;

/// A follower on the heap.
pub fn started(alloc: Global, tables: &SharedTables) -> Option<Box<SharedFollower>>
    ensures { IfSome result (λ b. b.value
        ≡ record { content = tables.now; status = status_in (keymap_of tables.now) opening }) }
{
    let Ok(shared) = tables.again() else {
        return None;
    };
    match Box::new(alloc, SharedFollower::start(shared)) {
        Err(_) => None,
        Ok(boxed) => Some(boxed),
    }
}

/// What the key of a code gives, where keys have codes so great.
pub fn looked(follower: &SharedFollower, code: u32, look: &mut XkcLook) -> u32
    ensures looked { code < 65536 → (result ≡ OK)
        × IsLook look.new (look_at (keymap_of follower.now.content) follower.now.status code) }
    ensures missing { 65536 ≤ code → (result ≡ MISSING) × (look.new ≡ look.old) }
{
    if code > 0xffff {
        return MISSING;
    }
    *look = XkcLook::of(&follower.look(code as u16));
    OK
}
