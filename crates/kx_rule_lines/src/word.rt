//! Pieces of a line.
ghost use Rattle.std.specs.Prelude.{◌≡◌};

use crate::scan::Kind;
use std::marker::Model;

/// A word that is lent. Seen as its bytes.
#[derive(Drop)]
pub struct Word<'a> {
    bytes: &'a [u8],
}

impl<'a> Model for Word<'a> {
    ghost use Rattle.std.specs.Prelude.{ℕ, List};

    ghost Value = { List ℕ };

    ghost view = { λ w. w.bytes.now };
}

impl<'a> Word<'a> {
    /// The word of these bytes.
    pub fn of(bytes: &'a [u8]) -> Word<'a>
        ensures { result ≡ bytes.now }
    {
        Word { bytes }
    }

    /// The bytes.
    pub fn as_slice(&self) -> &'a [u8]
        ensures { result.now ≡ self.now }
    {
        self.bytes
    }
}

/// A piece with its text, as far as it has one, and how many bytes of the whole text are left where it begins.
#[derive(Drop)]
pub struct Piece<'a> {
    kind: Kind,
    text: &'a [u8],
    left: usize,
}

impl<'a> Model for Piece<'a> {
    ghost use Rattle.kx_rule_lines.specs.Pieces.{Piece};

    ghost Value = { Piece };

    ghost view = { λ p. record { kind = p.kind; text = p.text.now; left = p.left } };
}

impl<'a> Piece<'a> {
    ghost use Rattle.kx_rule_lines.specs.Pieces.{piece};

    /// A piece of a kind.
    pub fn of(kind: Kind, text: &'a [u8], left: usize) -> Piece<'a>
        ensures { result ≡ piece kind text.now left }
    {
        Piece { kind, text, left }
    }

    /// What the piece is.
    pub fn kind(&self) -> Kind
        ensures { result ≡ self.now.kind }
    {
        self.kind
    }

    /// Its text; none of a sign.
    pub fn text(&self) -> &'a [u8]
        ensures { result.now ≡ self.now.text }
    {
        self.text
    }

    /// How many bytes of the whole text are left where it begins.
    pub fn left(&self) -> usize
        ensures { result ≡ self.now.left }
    {
        self.left
    }
}
