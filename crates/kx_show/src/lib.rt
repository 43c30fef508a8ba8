//! What users look at: pictures of keyboards, the keys that give a keysym, and the names of keysyms in C headers.
#![tactic(auto)]

mod board;
mod canvas;
mod drawing;
mod headers;
mod holding;
mod labels;
mod levels;
mod listing;
mod places;
mod slots;
mod terminal;
mod words;

pub use drawing::draw;
pub use headers::write_names;
pub use kx_text::{character_of, keysyms_of};
pub use listing::group_count;
pub use places::write_places;
pub use terminal::picture;
