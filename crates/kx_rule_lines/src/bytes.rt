//! The bytes of words, by a table.
ghost use Rattle.std.specs.Prelude.{◌≡◌, map};
ghost use Rattle.std.specs.List.{range_with_len};
ghost use Rattle.kx_rule_lines.specs.Pieces.{is_word_byte};
ghost use Rattle.kx_rule_lines.specs.Bytes.{in_word_of};

use InWord::{No, Yes};

/// Whether a byte may stand in a word.
#[derive(Clone, Copy)]
pub(crate) enum InWord {
    No,
    Yes,
}

/// For each byte whether it may stand in a word.
#[rattlefmt::skip]
static WORD_BYTES: [InWord; 256] = [
    No, No, No, No, No, No, No, No, No, No, No, No, No, No, No, No,
    No, No, No, No, No, No, No, No, No, No, No, No, No, No, No, No,
    No, Yes, Yes, Yes, Yes, Yes, Yes, Yes, Yes, Yes, Yes, Yes, Yes, Yes, Yes, Yes,
    Yes, Yes, Yes, Yes, Yes, Yes, Yes, Yes, Yes, Yes, Yes, Yes, Yes, Yes, Yes, Yes,
    Yes, Yes, Yes, Yes, Yes, Yes, Yes, Yes, Yes, Yes, Yes, Yes, Yes, Yes, Yes, Yes,
    Yes, Yes, Yes, Yes, Yes, Yes, Yes, Yes, Yes, Yes, Yes, Yes, No, Yes, Yes, Yes,
    Yes, Yes, Yes, Yes, Yes, Yes, Yes, Yes, Yes, Yes, Yes, Yes, Yes, Yes, Yes, Yes,
    Yes, Yes, Yes, Yes, Yes, Yes, Yes, Yes, Yes, Yes, Yes, Yes, Yes, Yes, Yes, No,
    No, No, No, No, No, No, No, No, No, No, No, No, No, No, No, No,
    No, No, No, No, No, No, No, No, No, No, No, No, No, No, No, No,
    No, No, No, No, No, No, No, No, No, No, No, No, No, No, No, No,
    No, No, No, No, No, No, No, No, No, No, No, No, No, No, No, No,
    No, No, No, No, No, No, No, No, No, No, No, No, No, No, No, No,
    No, No, No, No, No, No, No, No, No, No, No, No, No, No, No, No,
    No, No, No, No, No, No, No, No, No, No, No, No, No, No, No, No,
    No, No, No, No, No, No, No, No, No, No, No, No, No, No, No, No,
];

fn word_bytes() -> &'static [InWord]
    ensures { result.now ≡ map in_word_of (range_with_len 0 256) }
{
    &WORD_BYTES
}

#[inline(always)]
fn in_word_of(byte: u8) -> InWord
    ensures { result ≡ in_word_of byte }
{
    word_bytes()[usize::from(byte)]
}

/// Whether a byte may stand in a word.
#[inline(always)]
#[tactic(auto, unfolding(crate::specs::Bytes::in_word_of), using(crate::proofs::InWords::in_word, crate::proofs::InWords::out_of_word))]
pub fn is_word_byte(byte: u8) -> bool
    ensures { result ≡ is_word_byte byte }
{
    matches!(in_word_of(byte), Yes)
}
