//! What keyboards and followers answer, as C has it.
ghost use Rattle.std.specs.Prelude.{◌≡◌, ◌==◌, ◌≤◌, length, take};
ghost use Rattle.kx_run.specs.Replies as replies;
ghost use Rattle.kx_calls.specs.InC as c;

use crate::state::XkcState;
use kx_run::{Look, Reply};

/// What a keyboard answers to an event.
#[repr(C)]
#[derive(Clone, Copy)]
pub struct XkcReply {
    /// The keysyms of the key in the state before the event, as many as `count` says.
    pub keysyms: [u32; 8],
    /// The state after the event.
    pub state: XkcState,
    /// The indicators that are lit after the event: bit i is indicator i, from 0.
    pub lit: u32,
    /// How many keysyms there are.
    pub count: u8,
    /// The modifiers that the keysyms use up.
    pub consumed: u8,
    /// 1 where the keymap has the key, else 0.
    pub known: u8,
}

/// What a follower answers of a code.
#[repr(C)]
#[derive(Clone, Copy)]
pub struct XkcLook {
    /// The keysyms of the key, as many as `count` says.
    pub keysyms: [u32; 8],
    /// How many keysyms there are.
    pub count: u8,
    /// The modifiers that the keysyms use up.
    pub consumed: u8,
    /// 1 where the keymap has the key, else 0.
    pub known: u8,
}

/// A truth as C has it.
pub fn byte(truth: bool) -> u8
    ensures value { result ≡ c.byte truth }
    ensures back { (result == 1) ≡ truth }
    ensures within { result ≤ 1 }
{
    if truth { 1 } else { 0 }
}

/// Keysyms in the first places.
fn in_places(keysyms: &[u32]) -> [u32; 8]
    requires { length keysyms.now ≤ 8 }
    ensures { take (length keysyms.now) result ≡ keysyms.now }
{
    let mut places = [0; 8];
    places[..keysyms.len()].copy_from_slice(keysyms);
    places
}

impl XkcLook {
    /// What a look says.
    pub fn of(look: &Look) -> XkcLook
        ensures value { c.glimpsed result ≡ replies.looked look.now }
        ensures count { result.count ≤ 8 }
        ensures known { result.known ≤ 1 }
    {
        let keysyms = look.syms.as_slice();
        XkcLook {
            keysyms: in_places(keysyms),
            count: keysyms.len() as u8,
            consumed: look.consumed.mask(),
            known: byte(look.known),
        }
    }
}

impl XkcReply {
    /// What a reply says.
    pub fn of(reply: &Reply) -> XkcReply
        ensures value { c.told result ≡ replies.answered reply.now }
        ensures count { result.count ≤ 8 }
        ensures known { result.known ≤ 1 }
    {
        let keysyms = reply.syms.as_slice();
        XkcReply {
            keysyms: in_places(keysyms),
            state: XkcState::of(reply.state),
            lit: reply.lit,
            count: keysyms.len() as u8,
            consumed: reply.consumed.mask(),
            known: byte(reply.known),
        }
    }
}
