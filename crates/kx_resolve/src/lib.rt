//! From records to tables: the real modifiers that keys are mapped to, what virtual modifiers stand for, and the tables of a keymap:
//! its keys, the types that they use, its indicators, and the names of its groups.
#![tactic(auto)]

mod finding;
mod key_modmaps;
mod keys;
mod lighting;
mod named_keys;
mod read;
mod resolving;
mod tables_builder;
mod types_in_use;
mod using;
mod virtual_modifiers;

pub use key_modmaps::KeyModmaps;
pub use kx_keys::given::{action_at, keysyms_at, range, virtual_mods};
pub use kx_keys::group_types::{GroupType, content_group, group_count, group_type, has_action};
pub use kx_keys::interpreted_key::InterpretedKey;
pub use kx_keys::rows::TypeRows;
pub use kx_keys::typing::Typing;
pub use kx_tables::{Owned, Tables, wrap_group};
pub use named_keys::NamedKeys;
pub use read::{InterpretedKeys, Read};
pub use resolving::resolve;
pub use virtual_modifiers::virtual_modifier_masks;
