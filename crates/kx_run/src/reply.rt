//! What an event is answered.
use arrayvec::ArrayVec;
use kx_mods::Mods;

/// The modifiers and groups of a keyboard, as a program that draws a keyboard's state shows them.
#[derive(Clone, Copy, PartialEq, Eq)]
pub struct Components {
    /// The modifiers that keys which are down set.
    pub base: Mods,
    /// The modifiers for the next key alone.
    pub latched: Mods,
    /// The modifiers that stay until they are unlocked.
    pub locked: Mods,
    /// The group that keys which are down set, or add up to.
    pub base_group: i32,
    /// The group added for the next key alone, from 0.
    pub latched_group: u8,
    /// The group that stays, from 0.
    pub locked_group: u8,
    /// The group that keys take, from 0: the three together, modulo the number of groups.
    pub effective_group: u8,
}

/// What a keyboard answers to an event.
#[derive(Drop)]
pub struct Reply {
    /// Whether the keymap has the key.
    pub known: bool,
    /// The keysyms of the key in the state before the event.
    pub syms: ArrayVec<u32, 8>,
    /// The modifiers that these keysyms use up.
    pub consumed: Mods,
    /// The state after the event.
    pub state: Components,
    /// The indicators that are lit after the event: bit i is indicator i of the tables, from 0.
    pub lit: u32,
}

/// What a keycode gives in a state.
#[derive(Drop)]
pub struct Look {
    /// Whether the keymap has the key.
    pub known: bool,
    /// The keysyms of the key.
    pub syms: ArrayVec<u32, 8>,
    /// The modifiers that these keysyms use up.
    pub consumed: Mods,
}
