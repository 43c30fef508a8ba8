//! The lines of a rules file, and the pieces that they are made of.
#![tactic(auto)]

mod bytes;
mod lines;
mod scan;
mod word;

pub use bytes::is_word_byte;
pub use lines::{Right, next_line, right_of, values_len, words_len};
pub use scan::{Kind, blank_len, word_len};
pub use word::{Piece, Word};
