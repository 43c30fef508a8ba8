//! What the key statements of a keymap's symbols give each key.
#![tactic(auto)]

mod actions;
mod cells;
mod defaults;
mod fields;
mod keys;
mod keysyms;
mod kinds;
mod known;
mod record;
mod settings;

pub use cells::{Cell, CellValue};
pub use keys::{Keys, symbols};
pub use keysyms::{Keysyms, symbol_keysym};
pub use record::KeyRecord;
