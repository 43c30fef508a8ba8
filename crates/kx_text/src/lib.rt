//! What keysyms type: their characters, the keysyms of characters, letters in upper and lower case, the text of a key,
//! and the keys that give a keysym.
#![tactic(auto)]

mod case;
mod case_table;
mod character_table;
mod characters;
mod finding;
mod first_keysym;
mod typing;

pub use case::{lower, upper};
pub use characters::{character_of, code_point_of, keysyms_of};
pub use finding::{Spot, spots};
pub use first_keysym::keysym_of;
pub use typing::{one_keysym, text_of};
