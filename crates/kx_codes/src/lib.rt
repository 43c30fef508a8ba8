//! Keycodes and the names of keys.
#![tactic(auto)]

mod aliases;
mod checks;
mod laws;
mod name;
mod named;
mod numbers;
mod pairs;
mod reader;
mod statements;
mod table;
mod walking;

pub use laws::pairs_are_left;
pub use name::AliasTarget;
pub use reader::codes;
pub use table::Codes;
