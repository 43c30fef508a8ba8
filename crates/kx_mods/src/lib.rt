//! Sets of the eight real modifiers of the X Keyboard Extension, and how those that are wanted go together with those of a key.
#![tactic(auto)]

mod condition;
mod mods;

pub use condition::Condition;
pub use mods::Mods;
