//! The tables that a keymap's text means, with the files that it includes.
#![tactic(auto)]

mod compiling;
mod keys;
mod leaving;
mod observer;
mod parts;
mod sections;

pub use compiling::{tables, tables_once, tables_seen};
pub use observer::{Observer, ReadSource};
