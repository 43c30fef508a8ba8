//! The names of groups that the fields of a keymap's symbols give.
#![tactic(auto)]

mod fields;
mod names;
mod record;
mod text;

pub use names::{GroupNames, group_names};
