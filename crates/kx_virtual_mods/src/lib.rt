//! The names of modifiers: which virtual modifiers a keymap declares, masks as sets of names, and what such a set stands
//! for.
#![tactic(auto)]

mod counted;
mod declared;
mod limits;
mod masks;
mod mod_names;
mod names;
mod real_words;
mod set;
mod standing;

pub use counted::{Naming, count_names};
pub use limits::MOST_VIRTUAL_MODIFIERS;
pub use mod_names::ModNames;
pub use names::Names;
pub use real_words::real_mask;
pub use set::NameSet;
pub use standing::real_of;
