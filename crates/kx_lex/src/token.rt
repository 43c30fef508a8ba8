//! Tokens, and the bytes that they take.
use crate::keyword::Keyword;
use std::fmt;

/// A range of bytes of a text, counted from 0: `start` is its first byte, `stop` the byte after
/// its last.
#[derive(Clone, Copy, Debug, PartialEq, Eq)]
pub struct Span {
    pub start: u32,
    pub stop: u32,
}

impl fmt::Display for Span {
    fn fmt<W: fmt::Write>(&self, f: &mut fmt::Formatter<W>) -> fmt::Result {
        let start = self.start;
        let stop = self.stop;
        write!(f, "{start}-{stop}")
    }
}

/// What a token is.
#[derive(Clone, Copy, PartialEq, Eq)]
pub enum TokenKind {
    /// A letter or `_`, then letters, digits and `_`; with the keyword that it spells, where it spells one.
    Word(Option<Keyword>),
    /// Decimal digits, or `0x` and hexadecimal digits.
    Number,
    /// Digits, a point and optional digits; geometry alone has them.
    Decimal,
    /// A key's name between `<` and `>`.
    KeyName,
    /// Text between quotes.
    Text,
    /// One of `{ } [ ] ( ) ; , . = + - * / ! ~`, by its byte.
    Mark(u8),
}

/// A token: what it is and the bytes of the text that it takes.
#[derive(Clone, Copy, PartialEq, Eq)]
pub struct Token {
    pub kind: TokenKind,
    pub span: Span,
}
