//! The text of a keymap that its clients read: all that its image tells, with what the source says besides.
#![tactic(auto)]

mod alike;
mod compat;
mod keycodes;
mod symbols;
mod text;
mod types;
mod writing;

pub use text::client_text;
