//! Where what is passed over stands in a keymap's texts: what a person reads of a compiler's notes, and of likely slips.
#![tactic(auto)]

mod code_slips;
mod groups;
mod keysyms;
mod kind;
mod levels;
mod masks;
mod names;
mod noted;
mod slips;
mod statements;
mod switching;
mod symbol_slips;
mod type_slips;
mod warning;

pub use kind::{Counted, KINDS, WarningKind};
pub use noted::Noted;
pub use warning::{TextWarnings, Warning, Warnings};
