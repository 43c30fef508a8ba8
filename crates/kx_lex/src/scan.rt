//! From a text to its tokens.
ghost use Rattle.std.specs.Prelude.{◌≡◌, ◌≢◌, ℕ, Bool, true, All, List, IsTrue, ◌+◌, ◌<◌, ◌≤◌, ◌^◌, ◌⊎◌, slice_index, false, length, IfOk, IfErr, OnOk, drop, map, not};
ghost use Rattle.std.specs.List.{list_all, prefix_len};
ghost use Rattle.std.specs.Simd.Lanes.{mask_l};
ghost use Rattle.kx_basics.specs.KeyNames.{is_key_byte};
ghost use Rattle.kx_lex.specs.Bytes.{is_word_byte, is_blank, is_not_line_feed};
ghost use Rattle.kx_lex.specs.Kinds.{inner_of, is_key_name};
ghost use Rattle.kx_lex.specs.Pieces.{extent, extent_len, piece_len, string_piece, key_name_piece, number_piece, begins_hex, piece, word_piece};
ghost use Rattle.kx_lex.specs.Reading.{IsReading, StopsWith, mark_len, whole_of, at_offset};
ghost use Rattle.std.specs.Char.{is_ascii_digit, is_ascii_hexdigit};
ghost use Rattle.kx_lex.specs.declared.fault.Fault.TheVariants.{Memory, TooLong};
ghost use Rattle.kx_lex.specs.declared.scan.Piece.TheVariants.{End};
ghost use Rattle.kx_lex.specs.declared.token.Token.{Token as TokenValue};
ghost use Rattle.kx_lex.specs.declared.fault.Fault.{Fault as FaultValue};

use crate::fault::{At, Fault};
use crate::keyword::keyword_of;
use crate::start::{Start, is_blank, is_word_byte, start_of};
use crate::token::{Span, Token, TokenKind};
use kx_basics::is_key_byte;
use std::alloc::Global;
use std::simd::prelude::*;

/// A text may have this many bytes.
pub const MOST_TEXT_BYTES: usize = 1_048_576;

/// Most texts have a token for each four bytes or more, so that their list of tokens never moves.
pub(crate) const USUAL_TOKEN_BYTES: usize = 4;

/// What the front of a text begins, with its length in bytes.
#[derive(Clone, Copy, PartialEq, Eq)]
pub enum Piece {
    /// Nothing is left.
    End,
    /// Blanks or a comment.
    Gap(usize),
    /// A token.
    Lexeme(TokenKind, usize),
    /// A byte that begins no token.
    BadByte,
    /// Text without its closing quote.
    OpenString(usize),
    /// A key name without its `>`.
    OpenKeyName(usize),
}

/// A kind of bytes that stand one after another in a text.
pub(crate) trait Run {
    ghost has: { ℕ → Bool };

    fn has(byte: u8) -> bool
        ensures { result ≡ has byte };
}

/// Those of a word.
pub(crate) struct InWord;

impl Run for InWord {
    ghost has = { is_word_byte };

    #[inline(always)]
    fn has(byte: u8) -> bool {
        is_word_byte(byte)
    }
}

/// Those of a key's name.
struct InKeyName;

impl Run for InKeyName {
    ghost has = { is_key_byte };

    #[inline(always)]
    fn has(byte: u8) -> bool {
        is_key_byte(byte)
    }
}

/// Blanks.
pub(crate) struct Blanks;

impl Run for Blanks {
    ghost has = { is_blank };

    #[inline(always)]
    fn has(byte: u8) -> bool {
        is_blank(byte)
    }
}

/// Those of a line.
pub(crate) struct InLine;

impl Run for InLine {
    ghost has = { is_not_line_feed };

    #[inline(always)]
    fn has(byte: u8) -> bool {
        byte != b'\n'
    }
}

/// The same, sixteen bytes at a time.
pub(crate) trait WideRun: Run {
    /// A bit for each byte, the first lowest, that is set where the byte isn't of the kind.
    fn others(front: u8x16) -> u64
        ensures { result ≡ mask_l (map (λ b. not (Self.has b)) front) };
}

impl WideRun for Blanks {
    #[inline(always)]
    fn others(front: u8x16) -> u64 {
        let not_spaces = front.simd_ne(u8x16::splat(b' '));
        let not_controls = (front - u8x16::splat(b'\t')).simd_ge(u8x16::splat(5));
        (not_spaces & not_controls).to_bitmask()
    }
}

impl WideRun for InLine {
    #[inline(always)]
    fn others(front: u8x16) -> u64 {
        front.simd_eq(u8x16::splat(b'\n')).to_bitmask()
    }
}

/// How many bytes of a kind stand at the front, sixteen a turn. The first is looked at alone, since most blanks stand alone.
#[inline(always)]
pub(crate) fn wide_run_len<R: WideRun>(bytes: &[u8]) -> usize
    ensures exact { result ≡ prefix_len R.has bytes.now }
    ensures within { result ≤ length bytes.now }
{
    match bytes.first() {
        Some(first) if R::has(*first) => {}
        _ => return 0,
    }
    let mut len = 0;
    let mut rest = bytes;
    'sixteens: while 16 <= rest.len() {
        let others = R::others(u8x16::from_slice(rest));
        if others != 0 {
            return len + others.trailing_zeros() as usize;
        }
        len += 16;
        rest = past(rest, 16);
    }
    len + short_run_len::<R>(rest)
}

fn short_run_len<R: Run>(bytes: &[u8]) -> usize
    ensures exact { result ≡ prefix_len R.has bytes.now }
    ensures within { result ≤ length bytes.now }
{
    bytes.iter().take_while(|b| R::has(**b)).count()
}

/// How many bytes of a kind stand at the front. Four bytes a turn, since most bytes of a text stand in words, comments and
/// blanks.
#[inline(always)]
pub(crate) fn run_len<R: Run>(bytes: &[u8]) -> usize
    ensures exact { result ≡ prefix_len R.has bytes.now }
    ensures within { result ≤ length bytes.now }
{
    let mut len = 0;
    let mut rest = bytes;
    'fours: while let [first, second, third, fourth, left @ ..] = rest {
        if !R::has(*first) {
            return len;
        }
        if !R::has(*second) {
            return len + 1;
        }
        if !R::has(*third) {
            return len + 2;
        }
        if !R::has(*fourth) {
            return len + 3;
        }
        len += 4;
        rest = left;
    }
    len + short_run_len::<R>(rest)
}

pub(crate) fn digit_len(bytes: &[u8]) -> usize
    ensures exact { result ≡ prefix_len is_ascii_digit bytes.now }
    ensures within { result ≤ length bytes.now }
{
    bytes.iter().take_while(|b| b.is_ascii_digit()).count()
}

pub(crate) fn hex_len(bytes: &[u8]) -> usize
    ensures exact { result ≡ prefix_len is_ascii_hexdigit bytes.now }
    ensures within { result ≤ length bytes.now }
{
    bytes.iter().take_while(|b| b.is_ascii_hexdigit()).count()
}

#[inline(always)]
pub(crate) fn key_len(bytes: &[u8]) -> usize
    ensures exact { result ≡ prefix_len is_key_byte bytes.now }
    ensures within { result ≤ length bytes.now }
{
    run_len::<InKeyName>(bytes)
}

pub(crate) fn are_key_bytes(bytes: &[u8]) -> bool
    ensures { result ≡ list_all is_key_byte bytes.now }
{
    bytes.iter().all(|b| is_key_byte(*b))
}

/// How far text goes after its opening quote, in bytes.
#[derive(Clone, Copy, PartialEq, Eq)]
pub enum Extent {
    /// To its closing quote, which counts.
    Closed(usize),
    /// To a line feed or the end, which does not.
    Open(usize),
}

pub(crate) fn text_extent(bytes: &[u8]) -> Extent
    ensures exact { result ≡ extent false bytes.now }
    ensures within { extent_len result ≤ length bytes.now }
{
    let mut escaped = false;
    for (i, byte) in bytes.iter().enumerate() {
        if *byte == b'\n' {
            return Extent::Open(i);
        }
        if *byte == b'"' && !escaped {
            return Extent::Closed(i + 1);
        }
        escaped = *byte == b'\\' && !escaped;
    }
    Extent::Open(bytes.len())
}

pub(crate) fn byte_at(bytes: &[u8], i: usize) -> u8
    ensures { result ≡ slice_index bytes.now i }
{
    bytes.get(i).copied().unwrap_or(0)
}

/// Whether a number begins as `0x` or `0X` and a hexadecimal digit.
pub fn begins_hex(bytes: &[u8]) -> bool
    ensures { result ≡ begins_hex bytes.now }
{
    let marker = byte_at(bytes, 1);
    byte_at(bytes, 0) == b'0'
        && (marker == b'x' || marker == b'X')
        && byte_at(bytes, 2).is_ascii_hexdigit()
}

#[tactic(auto, unfolding(crate::specs::Pieces::number_piece))]
fn number_piece(bytes: &[u8]) -> Piece
    requires some { 0 < length bytes.now }
    requires digit { IsTrue (is_ascii_digit (slice_index bytes.now 0)) }
    requires short { length bytes.now ≤ MOST_TEXT_BYTES }
    ensures exact { result ≡ number_piece bytes.now }
    ensures within { piece_len result ≤ length bytes.now }
    ensures some { 0 < piece_len result }
{
    if begins_hex(bytes) {
        return Piece::Lexeme(TokenKind::Number, 2 + hex_len(after(bytes, 2)));
    }
    let whole = digit_len(bytes);
    if byte_at(bytes, whole) != b'.' {
        return Piece::Lexeme(TokenKind::Number, whole);
    }
    let fraction = digit_len(after(bytes, whole + 1));
    Piece::Lexeme(TokenKind::Decimal, whole + 1 + fraction)
}

pub(crate) fn after(bytes: &[u8], n: usize) -> &[u8]
    ensures { result.now ≡ drop n bytes.now }
{
    bytes.get(n..).unwrap_or(&[])
}

/// The same where so many bytes stand there, which costs no test.
#[inline(always)]
pub(crate) fn past(bytes: &[u8], n: usize) -> &[u8]
    requires { n ≤ length bytes.now }
    ensures { result.now ≡ drop n bytes.now }
{
    &bytes[n..]
}

#[tactic(auto, unfolding(crate::specs::Pieces::key_name_piece))]
fn key_name_piece(bytes: &[u8]) -> Piece
    requires { length bytes.now < MOST_TEXT_BYTES }
    ensures exact { result ≡ key_name_piece bytes.now }
    ensures some { 0 < piece_len result }
    ensures within { piece_len result ≤ length bytes.now + 1 }
{
    let len = key_len(bytes);
    if byte_at(bytes, len) == b'>' {
        Piece::Lexeme(TokenKind::KeyName, len + 2)
    } else {
        Piece::OpenKeyName(len + 1)
    }
}

fn string_piece(bytes: &[u8]) -> Piece
    requires { length bytes.now < MOST_TEXT_BYTES }
    ensures exact { result ≡ string_piece (extent false bytes.now) }
    ensures some { 0 < piece_len result }
    ensures within { piece_len result ≤ length bytes.now + 1 }
{
    match text_extent(bytes) {
        Extent::Closed(len) => Piece::Lexeme(TokenKind::Text, len + 1),
        Extent::Open(len) => Piece::OpenString(len + 1),
    }
}

/// So many bytes as a word.
fn word_of(bytes: &[u8], len: usize) -> Piece
    requires { len ≤ length bytes.now }
    ensures { result ≡ word_piece len bytes.now }
{
    let keyword = keyword_of(&bytes[..len]);
    Piece::Lexeme(TokenKind::Word(keyword), len)
}

#[tactic(auto, using(crate::proofs::Pieces::pieces))]
#[inline(always)]
pub(crate) fn piece_at(bytes: &[u8]) -> Piece
    requires { length bytes.now ≤ MOST_TEXT_BYTES }
    ensures exact { result ≡ piece bytes.now }
    ensures within { piece_len result ≤ length bytes.now }
    ensures some { result ≢ End → 0 < piece_len result }
{
    let Some((first, rest)) = bytes.split_first() else {
        return Piece::End;
    };
    match start_of(*first) {
        Start::Word => word_of(bytes, 1 + run_len::<InWord>(rest)),
        Start::Digit => number_piece(bytes),
        Start::Blank => Piece::Gap(1 + wide_run_len::<Blanks>(rest)),
        Start::Hash => Piece::Gap(1 + wide_run_len::<InLine>(rest)),
        Start::Slash if byte_at(rest, 0) == b'/' => Piece::Gap(1 + wide_run_len::<InLine>(rest)),
        Start::Slash | Start::Mark => Piece::Lexeme(TokenKind::Mark(*first), 1),
        Start::Quote => string_piece(rest),
        Start::Angle => key_name_piece(rest),
        Start::Nothing => Piece::BadByte,
    }
}

pub(crate) fn mark_len(text: &[u8]) -> usize
    ensures { result ≡ mark_len text.now }
{
    if byte_at(text, 0) == 0xef && byte_at(text, 1) == 0xbb && byte_at(text, 2) == 0xbf {
        3
    } else {
        0
    }
}

fn place(offset: u32, len: usize) -> At
    requires { offset + len < 2 ^ 32 }
    ensures { result ≡ at_offset offset len }
{
    At {
        file: 0,
        span: Span {
            start: offset,
            stop: offset + len as u32,
        },
    }
}

fn whole(text: &[u8]) -> At
    ensures { result ≡ whole_of text.now }
{
    At {
        file: 0,
        span: Span {
            start: 0,
            stop: text.len().min(u32::MAX as usize) as u32,
        },
    }
}

/// The tokens of a text, read as the text format has them: blanks, comments and tokens in order,
/// each token the longest of its kind. A text has one such reading at most.
///
/// # Errors
/// `TooLong` for a text of more than [`MOST_TEXT_BYTES`]; `BadByte`, `OpenString` or `OpenKeyName`
/// where the reading stops, in file 0; `Memory` where a growth is refused.
#[inline(never)]
pub fn lex(alloc: Global, text: &[u8]) -> Result<Vec<Token>, Fault>
    ensures long { MOST_TEXT_BYTES < length text.now → result ≡ Err (TooLong (whole_of text.now)) }
    ensures read { IfOk result (λ tokens. IsReading text.now tokens.items) }
    ensures stopped { length text.now ≤ MOST_TEXT_BYTES
        → IfErr result (λ e. (e ≡ Memory) ⊎ StopsWith text.now e) }
    ensures complete { (tokens : List TokenValue) → IsReading text.now tokens
        → length text.now ≤ MOST_TEXT_BYTES → IfErr result (λ e. e ≡ Memory) }
{
    if text.len() > MOST_TEXT_BYTES {
        return Err(Fault::TooLong(whole(text)));
    }
    let mut tokens = Vec::with_capacity(alloc, text.len() / USUAL_TOKEN_BYTES)?;
    let mark = mark_len(text);
    let mut offset = mark as u32;
    let mut rest = after(text, mark);
    'pieces: loop {
        match piece_at(rest) {
            Piece::End => return Ok(tokens),
            Piece::Gap(len) => {
                rest = past(rest, len);
                offset += len as u32;
            }
            Piece::Lexeme(kind, len) => {
                let span = place(offset, len).span;
                // Room comes first, so that the token is written straight into its place.
                tokens.reserve(1)?;
                tokens.push_reserved(Token { kind, span });
                rest = past(rest, len);
                offset += len as u32;
                // Most tokens have a single blank after them, which takes no turn of its own.
                if byte_at(rest, 0) == b' ' {
                    rest = past(rest, 1);
                    offset += 1;
                }
            }
            Piece::BadByte => return Err(Fault::BadByte(place(offset, 1))),
            Piece::OpenString(len) => return Err(Fault::OpenString(place(offset, len))),
            Piece::OpenKeyName(len) => return Err(Fault::OpenKeyName(place(offset, len))),
        }
    }
}

/// A text has one token reading at most, and one that has none stops.
pub fn one_reading()
    ensures one { (text : List ℕ) (ts us : List TokenValue) → IsReading text ts → IsReading text us
        → ts ≡ us }
    ensures stopped { (text : List ℕ) (tokens : List TokenValue) (e : FaultValue) → StopsWith text e
        → IsReading text tokens → ⊥ }
{}

/// In a token reading the bytes of each key's name are a key's, so that [`read_key_name`] refuses none.
///
/// [`read_key_name`]: crate::tokens::read_key_name
pub fn key_names_of_readings()
    ensures { (text : List ℕ) (tokens : List TokenValue) → IsReading text tokens
        → All (λ t. is_key_name t ≡ true → list_all is_key_byte (inner_of text t) ≡ true) tokens }
{}
