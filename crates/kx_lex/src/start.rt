//! What a byte begins, by tables.
ghost use Rattle.std.specs.Prelude.{◌≡◌, map};
ghost use Rattle.std.specs.List.{range_with_len};
ghost use Rattle.kx_lex.specs.Bytes.{is_blank, is_word_byte};
ghost use Rattle.kx_lex.specs.Starts.{start_of};

use Start::{Angle, Blank, Digit, Hash, Mark, Nothing, Quote, Slash, Word};

/// What a byte begins where the byte before it belongs to something else.
#[derive(Clone, Copy)]
pub(crate) enum Start {
    Word,
    /// A number.
    Digit,
    /// Blanks.
    Blank,
    /// A comment.
    Hash,
    /// A comment where another follows, else a mark.
    Slash,
    /// Text between quotes.
    Quote,
    /// A key's name.
    Angle,
    Mark,
    Nothing,
}

/// For each byte what it begins.
#[rattlefmt::skip]
static STARTS: [Start; 256] = [
    Nothing, Nothing, Nothing, Nothing, Nothing, Nothing, Nothing, Nothing,
    Nothing, Blank, Blank, Blank, Blank, Blank, Nothing, Nothing,
    Nothing, Nothing, Nothing, Nothing, Nothing, Nothing, Nothing, Nothing,
    Nothing, Nothing, Nothing, Nothing, Nothing, Nothing, Nothing, Nothing,
    Blank, Mark, Quote, Hash, Nothing, Nothing, Nothing, Nothing,
    Mark, Mark, Mark, Mark, Mark, Mark, Mark, Slash,
    Digit, Digit, Digit, Digit, Digit, Digit, Digit, Digit,
    Digit, Digit, Nothing, Mark, Angle, Mark, Nothing, Nothing,
    Nothing, Word, Word, Word, Word, Word, Word, Word,
    Word, Word, Word, Word, Word, Word, Word, Word,
    Word, Word, Word, Word, Word, Word, Word, Word,
    Word, Word, Word, Mark, Nothing, Mark, Nothing, Word,
    Nothing, Word, Word, Word, Word, Word, Word, Word,
    Word, Word, Word, Word, Word, Word, Word, Word,
    Word, Word, Word, Word, Word, Word, Word, Word,
    Word, Word, Word, Mark, Nothing, Mark, Mark, Nothing,
    Nothing, Nothing, Nothing, Nothing, Nothing, Nothing, Nothing, Nothing,
    Nothing, Nothing, Nothing, Nothing, Nothing, Nothing, Nothing, Nothing,
    Nothing, Nothing, Nothing, Nothing, Nothing, Nothing, Nothing, Nothing,
    Nothing, Nothing, Nothing, Nothing, Nothing, Nothing, Nothing, Nothing,
    Nothing, Nothing, Nothing, Nothing, Nothing, Nothing, Nothing, Nothing,
    Nothing, Nothing, Nothing, Nothing, Nothing, Nothing, Nothing, Nothing,
    Nothing, Nothing, Nothing, Nothing, Nothing, Nothing, Nothing, Nothing,
    Nothing, Nothing, Nothing, Nothing, Nothing, Nothing, Nothing, Nothing,
    Nothing, Nothing, Nothing, Nothing, Nothing, Nothing, Nothing, Nothing,
    Nothing, Nothing, Nothing, Nothing, Nothing, Nothing, Nothing, Nothing,
    Nothing, Nothing, Nothing, Nothing, Nothing, Nothing, Nothing, Nothing,
    Nothing, Nothing, Nothing, Nothing, Nothing, Nothing, Nothing, Nothing,
    Nothing, Nothing, Nothing, Nothing, Nothing, Nothing, Nothing, Nothing,
    Nothing, Nothing, Nothing, Nothing, Nothing, Nothing, Nothing, Nothing,
    Nothing, Nothing, Nothing, Nothing, Nothing, Nothing, Nothing, Nothing,
    Nothing, Nothing, Nothing, Nothing, Nothing, Nothing, Nothing, Nothing,
];

fn starts() -> &'static [Start]
    ensures { result.now ≡ map start_of (range_with_len 0 256) }
{
    &STARTS
}

#[inline(always)]
pub(crate) fn start_of(byte: u8) -> Start
    ensures { result ≡ start_of byte }
{
    starts()[usize::from(byte)]
}

#[inline(always)]
pub(crate) fn is_word_byte(byte: u8) -> bool
    ensures { result ≡ is_word_byte byte }
{
    matches!(start_of(byte), Word | Digit)
}

#[inline(always)]
#[tactic(auto, using(crate::proofs::Pieces::blanks))]
pub(crate) fn is_blank(byte: u8) -> bool
    ensures { result ≡ is_blank byte }
{
    matches!(start_of(byte), Blank)
}
