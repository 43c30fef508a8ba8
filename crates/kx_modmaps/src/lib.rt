//! The modifiers that the modifier maps of a keymap's symbols give keys and keysyms.
#![tactic(auto)]

mod entries;
mod maps;
mod record;
mod target;

pub use maps::{KeysymEntry, ModifierMaps, modifier_maps};
