//! Which keysyms are letters in lower and in upper case.
ghost use Rattle.std.specs.Prelude.{◌≡◌, nat_eq};
ghost use Rattle.std.specs.List.{list_any};
ghost use Rattle.ks_core.specs.Keysym.{case_pairs, is_within, is_lower, is_upper};
ghost use Rattle.ks_core.specs.MoreLetters.{more_lower, more_upper};
ghost use Rattle.ks_core.specs.Rising.{IsRising};
ghost use Rattle.ks_core.specs.Table.{letters_of};

use crate::keysym::Keysym;
use crate::letter_table::{LOWER, UPPER};

/// Which keysyms a table of names takes for letters with two cases.
#[derive(Clone, Copy, PartialEq, Eq)]
pub enum Letters {
    /// a to z, those of Latin-1 and Latin-2, and the Cyrillic ones.
    BuiltIn,
    /// Those, and all others of Unicode's simple case mapping.
    Unicode,
}

/// Letters in a row: the first in lower case, the first in upper case, and how many.
struct LetterRow {
    lower: u32,
    upper: u32,
    count: u32,
}

#[rattlefmt::skip]
static LETTERS: [LetterRow; 21] = [
    LetterRow { lower: 0x61, upper: 0x41, count: 26 },
    LetterRow { lower: 0xe0, upper: 0xc0, count: 23 },
    LetterRow { lower: 0xf8, upper: 0xd8, count: 7 },
    LetterRow { lower: 0x1b1, upper: 0x1a1, count: 1 },
    LetterRow { lower: 0x1b3, upper: 0x1a3, count: 1 },
    LetterRow { lower: 0x1b5, upper: 0x1a5, count: 2 },
    LetterRow { lower: 0x1b9, upper: 0x1a9, count: 4 },
    LetterRow { lower: 0x1be, upper: 0x1ae, count: 2 },
    LetterRow { lower: 0x1e0, upper: 0x1c0, count: 1 },
    LetterRow { lower: 0x1e3, upper: 0x1c3, count: 1 },
    LetterRow { lower: 0x1e5, upper: 0x1c5, count: 2 },
    LetterRow { lower: 0x1e8, upper: 0x1c8, count: 1 },
    LetterRow { lower: 0x1ea, upper: 0x1ca, count: 1 },
    LetterRow { lower: 0x1ec, upper: 0x1cc, count: 1 },
    LetterRow { lower: 0x1ef, upper: 0x1cf, count: 4 },
    LetterRow { lower: 0x1f5, upper: 0x1d5, count: 1 },
    LetterRow { lower: 0x1f8, upper: 0x1d8, count: 2 },
    LetterRow { lower: 0x1fb, upper: 0x1db, count: 1 },
    LetterRow { lower: 0x1fe, upper: 0x1de, count: 1 },
    LetterRow { lower: 0x6c0, upper: 0x6e0, count: 32 },
    LetterRow { lower: 0x1000430, upper: 0x1000410, count: 32 },
];

impl Letters {
    /// Whether the keysym is a letter in lower case that has one in upper case.
    pub fn is_lower(self, keysym: Keysym) -> bool
        ensures { result ≡ is_lower (letters_of self) keysym.0 }
    {
        any_lower(all_letters(), keysym.0) || stands_in(self.lower(), keysym.0)
    }

    /// Whether the keysym is a letter in upper case that has one in lower case.
    pub fn is_upper(self, keysym: Keysym) -> bool
        ensures { result ≡ is_upper (letters_of self) keysym.0 }
    {
        any_upper(all_letters(), keysym.0) || stands_in(self.upper(), keysym.0)
    }

    /// Further letters in lower case.
    fn lower(self) -> &'static [u32]
        ensures members { result.now ≡ (letters_of self).lower }
        ensures rising { IsRising result.now }
    {
        match self {
            Letters::BuiltIn => &[],
            Letters::Unicode => lower(),
        }
    }

    /// Further letters in upper case.
    fn upper(self) -> &'static [u32]
        ensures members { result.now ≡ (letters_of self).upper }
        ensures rising { IsRising result.now }
    {
        match self {
            Letters::BuiltIn => &[],
            Letters::Unicode => upper(),
        }
    }
}

#[tactic(auto, unfolding(crate::specs::Keysym::case_pairs))]
fn all_letters() -> &'static [LetterRow]
    ensures { result.now ≡ case_pairs }
{
    &LETTERS
}

fn any_lower(rows: &[LetterRow], keysym: u32) -> bool
    ensures { result ≡ list_any (λ row. is_within row.lower row.count keysym) rows.now }
{
    rows.iter()
        .any(|row| is_within(row.lower, row.count, keysym))
}

fn any_upper(rows: &[LetterRow], keysym: u32) -> bool
    ensures { result ≡ list_any (λ row. is_within row.upper row.count keysym) rows.now }
{
    rows.iter()
        .any(|row| is_within(row.upper, row.count, keysym))
}

/// Whether the number is one of `count` in a row.
fn is_within(first: u32, count: u32, number: u32) -> bool
    ensures { result ≡ is_within first count number }
{
    first <= number && number - first < count
}

/// Unicode's other letters in lower case.
fn lower() -> &'static [u32]
    ensures members { result.now ≡ more_lower }
    ensures rising { IsRising result.now }
{
    &LOWER
}

/// Unicode's other letters in upper case.
fn upper() -> &'static [u32]
    ensures members { result.now ≡ more_upper }
    ensures rising { IsRising result.now }
{
    &UPPER
}

/// Whether a number is one of those that rise.
fn stands_in(numbers: &[u32], number: u32) -> bool
    requires { IsRising numbers.now }
    ensures { result ≡ list_any (nat_eq number) numbers.now }
{
    match numbers.first() {
        Some(first) => *first <= number && numbers.binary_search(&number).is_ok(),
        None => false,
    }
}
