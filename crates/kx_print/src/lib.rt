//! The printed text of tables: a keymap text that names all that the tables hold. Its parts can be written by themselves, for
//! a text that has more between them.
#![tactic(auto)]

mod actions;
mod fields;
mod indicators;
mod keys;
mod printer;
mod sets;
mod symbols;
mod types;
mod words;

pub use fields::write_fields;
pub use indicators::{write_each_indicator, write_group_names};
pub use keys::{write_each_keycode, write_key_word, write_modifier_maps};
pub use printer::print;
pub use sets::write_mods;
pub use types::{write_entry, write_levels, write_mods_line};
pub use words::{write_number, write_quoted};
