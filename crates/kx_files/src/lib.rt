//! What the program reads is kept to be shown, and a file that it writes stands whole or not at all.
#![tactic(auto)]

mod heard;
mod identity;
mod included;
mod kept;
mod put;
mod writing;

pub use heard::{Heard, lines_in};
pub use included::{Handed, Included, all_handed, handed_in, texts_of};
pub use kept::Kept;
pub use put::{Put, PutFault};
