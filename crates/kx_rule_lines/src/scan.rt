//! The pieces of a rules text.
ghost use Rattle.std.specs.Prelude.{◌≡◌, ◌≤◌, ◌<◌, ◌+◌, length, drop, [], ◌∷◌, MatchOption, IfSome};
ghost use Rattle.kx_rule_lines.specs.Pieces.{gap_len, is_blank, is_word_byte, kind_at, line_len, piece, piece_len, pieces, text_at, word_len};
ghost use Rattle.kx_rule_lines.specs.declared.scan.Kind.TheVariants.{Word as WordKind, Include as IncludeKind};
ghost use Rattle.std.specs.List.{prefix_len};
ghost use Rattle.std.specs.Prelude.{nat_le, ◌==◌, ◌||◌};

use crate::bytes::is_word_byte;

/// What a piece is. A `Bad` one begins with a byte that begins no piece.
#[derive(Clone, Copy, PartialEq, Eq)]
pub enum Kind {
    NewLine,
    Bang,
    Equals,
    Star,
    Include,
    Group,
    Word,
    Bad,
}

fn is_blank(byte: u8) -> bool
    ensures { result ≡ is_blank byte }
{
    byte == b' ' || byte == b'\t' || byte == b'\r'
}

/// How many blanks stand at the front.
pub fn blank_len(text: &[u8]) -> usize
    ensures value { result ≡ prefix_len is_blank text.now }
    ensures within { result ≤ length text.now }
{
    text.iter().take_while(|byte| is_blank(**byte)).count()
}

fn short_word_len(text: &[u8]) -> usize
    ensures value { result ≡ word_len text.now }
    ensures within { result ≤ length text.now }
{
    text.iter().take_while(|byte| is_word_byte(**byte)).count()
}

/// How many bytes of a word stand at the front. Four bytes a turn, since most bytes of a text stand in words.
pub fn word_len(text: &[u8]) -> usize
    ensures value { result ≡ word_len text.now }
    ensures within { result ≤ length text.now }
{
    let mut len = 0;
    let mut rest = text;
    'fours: while let [first, second, third, fourth, left @ ..] = rest {
        if !is_word_byte(*first) {
            return len;
        }
        if !is_word_byte(*second) {
            return len + 1;
        }
        if !is_word_byte(*third) {
            return len + 2;
        }
        if !is_word_byte(*fourth) {
            return len + 3;
        }
        len += 4;
        rest = left;
    }
    len + short_word_len(rest)
}

fn line_len(text: &[u8]) -> usize
    ensures value { result ≡ line_len text.now }
    ensures within { result ≤ length text.now }
{
    text.iter().take_while(|byte| **byte != b'\n').count()
}

/// Whether a word is at the front.
fn begins_word(text: &[u8]) -> bool
    ensures { result ≡ nat_le 1 (word_len text.now) }
{
    match text {
        [] => false,
        [byte, ..] => is_word_byte(*byte),
    }
}

/// Whether what says nothing may begin with this byte.
fn begins_gap(byte: u8) -> bool
    ensures { result ≡ ((is_blank byte || byte == 47) || byte == 92) }
{
    is_blank(byte) || byte == b'/' || byte == b'\\'
}

/// How many bytes at the front say nothing. Few pieces begin with a byte that a gap may begin with.
#[tactic(auto, unfolding(crate::specs::Pieces::gap_len), using(crate::proofs::Scanning::no_gap))]
fn gap_len(text: &[u8]) -> usize
    ensures value { result ≡ gap_len text.now }
    ensures within { result ≤ length text.now }
{
    match text {
        [] => 0,
        [byte, ..] if !begins_gap(*byte) => 0,
        _ => long_gap_len(text),
    }
}

#[tactic(auto, unfolding(crate::specs::Pieces::gap_len))]
fn long_gap_len(text: &[u8]) -> usize
    ensures value { result ≡ gap_len text.now }
    ensures within { result ≤ length text.now }
{
    let blanks = blank_len(text);
    if 1 <= blanks {
        blanks
    } else if text.starts_with(b"//") {
        2 + line_len(&text[2..])
    } else if text.starts_with(b"\\\n") {
        2
    } else if text.starts_with(b"\\\r\n") {
        3
    } else {
        0
    }
}

/// The kind of the piece at the front, where there is one.
#[tactic(auto, unfolding(crate::specs::Pieces::kind_at))]
fn kind_at(text: &[u8]) -> Kind
    requires { 1 ≤ length text.now }
    ensures value { result ≡ kind_at text.now }
    ensures word { result ≡ WordKind → 1 ≤ word_len text.now }
    ensures include { result ≡ IncludeKind → 7 ≤ length text.now }
{
    match text {
        [] => Kind::Bad,
        [byte, behind @ ..] => match *byte {
            b'\n' => Kind::NewLine,
            b'!' => Kind::Bang,
            b'=' => Kind::Equals,
            b'*' => Kind::Star,
            b'$' if begins_word(behind) => Kind::Group,
            b'$' => Kind::Bad,
            b'i' if text.starts_with(b"include") => Kind::Include,
            byte if is_word_byte(byte) => Kind::Word,
            _ => Kind::Bad,
        },
    }
}

/// The text of a piece at the front, and the piece's length.
fn text_at(kind: Kind, text: &[u8]) -> (&[u8], usize)
    requires some { 1 ≤ length text.now }
    requires word { kind ≡ WordKind → 1 ≤ word_len text.now }
    requires include { kind ≡ IncludeKind → 7 ≤ length text.now }
    ensures value { result.0.now ≡ text_at kind text.now }
    ensures len { result.1 ≡ piece_len kind text.now }
    ensures some { 1 ≤ result.1 }
    ensures within { result.1 ≤ length text.now }
{
    match kind {
        Kind::Group => {
            let name = &text[1..];
            let len = word_len(name);
            (&name[..len], 1 + len)
        }
        Kind::Word => {
            let len = word_len(text);
            (&text[..len], len)
        }
        Kind::Include => (b"", 7),
        Kind::NewLine | Kind::Bang | Kind::Equals | Kind::Star | Kind::Bad => (b"", 1),
    }
}

/// What is left of a text from its first piece on.
#[tactic(auto, using(crate::proofs::Scanning::skip_gap))]
fn behind_gaps(text: &[u8]) -> &[u8]
    ensures pieces { pieces result.now 0 ≡ pieces text.now 0 }
    ensures none { gap_len result.now ≡ 0 }
    ensures within { length result.now ≤ length text.now }
{
    let mut rest = text;
    'gaps: loop {
        let len = gap_len(rest);
        if len == 0 {
            return rest;
        }
        let (_, behind) = rest.split_at(len);
        rest = behind;
    }
}

/// A piece, how many bytes are left where it begins, and what is left after it.
#[derive(Drop)]
pub(crate) struct Found<'a> {
    pub(crate) kind: Kind,
    pub(crate) text: &'a [u8],
    pub(crate) left: usize,
    pub(crate) rest: &'a [u8],
}

/// The first piece of a text.
#[tactic(auto, using(crate::proofs::Scanning::first_piece, crate::proofs::Scanning::no_pieces))]
pub(crate) fn next_piece(text: &[u8]) -> Option<Found<'_>>
    ensures value { MatchOption result (pieces text.now 0 ≡ []) (λ f.
        pieces text.now 0 ≡ piece f.kind f.text.now f.left ∷ pieces f.rest.now 0) }
    ensures shorter { IfSome result (λ f. length f.rest.now < length text.now) }
{
    let front = behind_gaps(text);
    if front.is_empty() {
        return None;
    }
    let kind = kind_at(front);
    let (text, len) = text_at(kind, front);
    let (_, rest) = front.split_at(len);
    Some(Found {
        kind,
        text,
        left: front.len(),
        rest,
    })
}
