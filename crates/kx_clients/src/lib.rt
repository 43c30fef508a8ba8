//! What a keymap's source says that its image leaves out, for its clients: the aliases of keys, the virtual modifiers with
//! what they stand for, and which keys repeat.
#![tactic(auto)]

mod alias;
mod aliases;
mod declared_types;
mod indicators;
mod interpretation_repeats;
mod key_repeat;
mod key_repeats;
mod left;
mod reading;
mod repeating;
mod sections;
mod virtual_modifier;

pub use alias::Alias;
pub use declared_types::DeclaredType;
pub use indicators::IndicatorName;
pub use left::LeftOut;
pub use reading::left_out;
pub use virtual_modifier::VirtualModifier;
