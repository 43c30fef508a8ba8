//! Keymap text as tokens with spans, what is read of single tokens and of rows of values, and the
//! faults that a compiler of keymap text answers.
#![tactic(auto)]

pub mod fault;
mod fronts;
pub mod kept;
pub mod keyword;
pub mod name;
pub mod passing;
pub mod repeated;
pub mod scan;
mod start;
pub mod string;
pub mod token;
pub mod tokens;

pub use fault::{At, Fault};
pub use fronts::lex_front;
pub use kept::{Boxed, Bytes};
pub use keyword::Keyword;
pub use name::{KeyName, Name, Number, Row, SmallRow};
pub use scan::{MOST_TEXT_BYTES, begins_hex, key_names_of_readings, lex, one_reading};
pub use string::text_bytes;
pub use token::{Span, Token, TokenKind};
