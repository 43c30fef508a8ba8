//! The key types that a keymap's statements declare.
#![tactic(auto)]

mod counting;
mod declared;
mod definition;
mod entry;
mod fields;
mod limits;
mod saying;
mod table;

pub use declared::types;
pub use definition::KeyType;
pub use entry::TypeEntry;
pub use limits::MOST_TYPES;
pub use table::Types;
