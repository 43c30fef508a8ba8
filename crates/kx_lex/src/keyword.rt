//! The words that the grammar quotes.
ghost use Rattle.std.specs.Prelude.{◌≡◌, ◌==◌, false};
ghost use Rattle.std.specs.Str.{str_eq_ignore_ascii_case};
ghost use Rattle.kx_lex.specs.KeywordLengths.{AreLengths};
ghost use Rattle.kx_lex.specs.Keywords.{IsByLength, keyword_of, of_length, rows_of, spelled_in};

use crate::scan::byte_at;

/// A word that the grammar quotes; it may be written in capital letters or small.
#[derive(Clone, Copy, PartialEq, Eq)]
pub enum Keyword {
    Alias,
    AlphanumericKeys,
    Alternate,
    AlternateGroup,
    Augment,
    Default,
    FunctionKeys,
    Group,
    Hidden,
    Include,
    Indicator,
    Interpret,
    Key,
    KeypadKeys,
    ModifierKeys,
    ModifierMap,
    Override,
    Partial,
    Replace,
    Type,
    Virtual,
    VirtualModifiers,
    XkbCompat,
    XkbCompatMap,
    XkbCompatibility,
    XkbCompatibilityMap,
    XkbGeometry,
    XkbKeycodes,
    XkbKeymap,
    XkbSymbols,
    XkbTypes,
}

/// A keyword as it is spelled in small letters.
type Row = (&'static str, Keyword);

/// The keywords by their length in bytes.
static BY_LENGTH: [&[Row]; 22] = [
    &[],
    &[],
    &[],
    &[("key", Keyword::Key)],
    &[("type", Keyword::Type)],
    &[("alias", Keyword::Alias), ("group", Keyword::Group)],
    &[("hidden", Keyword::Hidden)],
    &[
        ("augment", Keyword::Augment),
        ("default", Keyword::Default),
        ("include", Keyword::Include),
        ("partial", Keyword::Partial),
        ("replace", Keyword::Replace),
        ("virtual", Keyword::Virtual),
    ],
    &[("override", Keyword::Override)],
    &[
        ("alternate", Keyword::Alternate),
        ("indicator", Keyword::Indicator),
        ("interpret", Keyword::Interpret),
        ("xkb_types", Keyword::XkbTypes),
    ],
    &[
        ("xkb_compat", Keyword::XkbCompat),
        ("xkb_keymap", Keyword::XkbKeymap),
    ],
    &[
        ("keypad_keys", Keyword::KeypadKeys),
        ("xkb_symbols", Keyword::XkbSymbols),
    ],
    &[
        ("modifier_map", Keyword::ModifierMap),
        ("xkb_geometry", Keyword::XkbGeometry),
        ("xkb_keycodes", Keyword::XkbKeycodes),
    ],
    &[
        ("function_keys", Keyword::FunctionKeys),
        ("modifier_keys", Keyword::ModifierKeys),
    ],
    &[("xkb_compat_map", Keyword::XkbCompatMap)],
    &[("alternate_group", Keyword::AlternateGroup)],
    &[],
    &[
        ("alphanumeric_keys", Keyword::AlphanumericKeys),
        ("virtual_modifiers", Keyword::VirtualModifiers),
        ("xkb_compatibility", Keyword::XkbCompatibility),
    ],
    &[],
    &[],
    &[],
    &[("xkb_compatibility_map", Keyword::XkbCompatibilityMap)],
];

fn by_length() -> &'static [&'static [Row]]
    ensures { IsByLength result.now }
{
    &BY_LENGTH
}

/// The keywords of a length in bytes.
fn of_length(len: usize) -> &'static [Row]
    ensures { rows_of result.now ≡ of_length len }
{
    let tables = by_length();
    if len < tables.len() { tables[len] } else { &[] }
}

/// Whether a word and a keyword begin with the same letter. This rules most keywords of a length out.
#[inline(always)]
#[tactic(auto, using(crate::proofs::Keywords::other_letter))]
fn has_letter(word: &[u8], row: &Row) -> bool
    ensures { result ≡ false → str_eq_ignore_ascii_case word.now row.now.0.now ≡ false }
{
    byte_at(word, 0) % 32 == byte_at(row.0.as_bytes(), 0) % 32
}

#[inline(always)]
fn is_spelled(word: &[u8], row: &Row) -> bool
    ensures { result ≡ str_eq_ignore_ascii_case word.now row.now.0.now }
{
    // Most are written in small letters.
    let spelled = row.0.as_bytes();
    has_letter(word, row) && (word == spelled || word.eq_ignore_ascii_case(spelled))
}

/// The first of some keywords that a word spells.
#[tactic(auto, using(crate::proofs::Keywords::row_found, crate::proofs::Keywords::row_passed))]
fn spelled_in(word: &[u8], rows: &[Row]) -> Option<Keyword>
    ensures { result ≡ spelled_in word.now (rows_of rows.now) }
{
    'rows: for row in rows {
        if is_spelled(word, row) {
            return Some(row.1);
        }
    }
    None
}

/// The lengths of the keywords that begin with a letter, a bit each; letters go by their low five
/// bits, which capital and small ones share.
#[rattlefmt::skip]
static LENGTHS: [u32; 32] = [
    0,
    1 << 5 | 1 << 7 | 1 << 9 | 1 << 15 | 1 << 17, // a
    0,
    0,
    1 << 7, // d
    0,
    1 << 13, // f
    1 << 5, // g
    1 << 6, // h
    1 << 7 | 1 << 9, // i
    0,
    1 << 3 | 1 << 11, // k
    0,
    1 << 12 | 1 << 13, // m
    0,
    1 << 8, // o
    1 << 7, // p
    0,
    1 << 7, // r
    0,
    1 << 4, // t
    0,
    1 << 7 | 1 << 17, // v
    0,
    1 << 9 | 1 << 10 | 1 << 11 | 1 << 12 | 1 << 14 | 1 << 17 | 1 << 21, // x
    0, 0, 0, 0, 0, 0, 0,
];

fn lengths() -> &'static [u32]
    ensures { AreLengths result.now }
{
    &LENGTHS
}

/// Whether a keyword may have so many bytes and this one first. This alone rules most other words out.
fn may_spell(word: &[u8]) -> bool
    ensures { result ≡ false → keyword_of word.now ≡ None }
{
    let Some(first) = word.first() else {
        return false;
    };
    let lengths = lengths()[usize::from(*first % 32)];
    word.len() < by_length().len() && lengths >> word.len() & 1 == 1
}

/// The same of a word that is as long as a keyword.
#[inline(never)]
#[tactic(auto, using(crate::proofs::Keywords::spelled_of_length))]
fn keyword_of_length(word: &[u8]) -> Option<Keyword>
    ensures { result ≡ keyword_of word.now }
{
    spelled_in(word, of_length(word.len()))
}

/// The keyword that a word spells, in capital letters or small.
#[inline(always)]
pub(crate) fn keyword_of(word: &[u8]) -> Option<Keyword>
    ensures { result ≡ keyword_of word.now }
{
    // Most keywords are this one.
    if word == b"key".as_slice() {
        return Some(Keyword::Key);
    }
    if may_spell(word) {
        keyword_of_length(word)
    } else {
        None
    }
}
