//! Tokens that are passed over by their bytes, without a list of them. Where something else stands, nothing is answered.
ghost use Rattle.std.specs.Prelude.{◌≡◌, ◌≤◌, ◌<◌, ◌^◌, ◌↔◌, true, false, IsTrue, length, drop, slice_index, take, ◌-◌, IfNone, IfOk, IfSome, MatchOption};
ghost use Rattle.std.specs.Char.{is_ascii_digit};
ghost use Rattle.std.specs.List.{prefix_len};
ghost use Rattle.kx_lex.specs.Bytes.{is_blank};
ghost use Rattle.kx_lex.specs.Keywords.{keyword_of};
ghost use Rattle.kx_lex.specs.Kinds.{number_value};
ghost use Rattle.kx_lex.specs.Passing.{front_byte, Ends, IsAtToken, IsNoWord, Passes, PassesAs, PassesWord, Skips, is_single, token};
ghost use Rattle.kx_lex.specs.Pieces.{number_piece, piece};
ghost use Rattle.kx_lex.specs.Reading.{mark_len, span_of};
ghost use Rattle.kx_lex.specs.Tokens.{key_name, mark, number, text_name, word};
ghost use Rattle.kx_lex.specs.declared.scan.Piece.TheVariants.{Gap, Lexeme};
ghost use Rattle.kx_lex.specs.declared.scan.TheConstants.{MOST_TEXT_BYTES};
ghost use Rattle.kx_lex.specs.declared.token.TokenKind.TheVariants.{KeyName, Number, Text, Word};

use crate::keyword::{Keyword, keyword_of};
use crate::name::Name;
use crate::scan::{
    Blanks, Extent, InLine, InWord, Piece, after, begins_hex, byte_at, digit_len, hex_len, key_len,
    mark_len, past, piece_at, run_len, text_extent, wide_run_len,
};
use crate::start::{Start, is_blank, start_of};
use crate::token::Span;
use crate::tokens::{number_value, unescaped};
use std::alloc::{AllocError, Global};

/// What stands after the blanks at the front.
#[inline(always)]
fn past_blanks(bytes: &[u8]) -> &[u8]
    ensures skips { Skips bytes.now result.now }
    ensures within { length result.now ≤ length bytes.now }
    ensures none { is_blank (slice_index result.now 0) ≡ false }
{
    past(bytes, wide_run_len::<Blanks>(bytes))
}

/// How many bytes of a comment stand at the front.
#[inline(always)]
#[tactic(auto, using(crate::proofs::Pieces::pieces))]
fn comment_len(bytes: &[u8]) -> Option<usize>
    ensures comment { IfSome result (λ n. piece bytes.now ≡ Gap n) }
    ensures none { IfNone result (is_blank (slice_index bytes.now 0) ≡ false
        → IsAtToken bytes.now) }
    ensures within { IfSome result (λ n. n ≤ length bytes.now) }
    ensures some { IfSome result (λ n. 0 < n) }
{
    let (first, rest) = bytes.split_first()?;
    match start_of(*first) {
        Start::Hash => Some(1 + wide_run_len::<InLine>(rest)),
        Start::Slash => {
            if byte_at(rest, 0) != b'/' {
                return None;
            }
            Some(1 + wide_run_len::<InLine>(rest))
        }
        _ => None,
    }
}

/// Whether a byte stands at the front that a comment may begin with.
#[inline(always)]
fn front_may_be_comment(bytes: &[u8]) -> bool
    ensures { result ≡ false → is_blank (slice_index bytes.now 0) ≡ false → IsAtToken bytes.now }
{
    match bytes.split_first() {
        Some((first, _)) => matches!(start_of(*first), Start::Hash | Start::Slash),
        None => false,
    }
}

/// What stands after the comments at the front, and the blanks between and after them.
#[inline(never)]
fn past_comments(bytes: &[u8]) -> &[u8]
    requires { is_blank (slice_index bytes.now 0) ≡ false }
    ensures skips { Skips bytes.now result.now }
    ensures within { length result.now ≤ length bytes.now }
    ensures at { IsAtToken result.now }
{
    let mut rest = bytes;
    'gaps: while let Some(len) = comment_len(rest) {
        rest = past_blanks(past(rest, len));
    }
    rest
}

/// What stands after the blanks and comments at the front, however many.
fn past_all_gaps(bytes: &[u8]) -> &[u8]
    ensures skips { Skips bytes.now result.now }
    ensures within { length result.now ≤ length bytes.now }
    ensures at { IsAtToken result.now }
{
    let rest = past_blanks(bytes);
    if !front_may_be_comment(rest) {
        return rest;
    }
    past_comments(rest)
}

/// Whether a byte stands at the front that blanks or a comment may begin with.
#[inline(always)]
fn front_may_be_gap(bytes: &[u8]) -> bool
    ensures { result ≡ false → IsAtToken bytes.now }
{
    match bytes.split_first() {
        Some((first, _)) => matches!(start_of(*first), Start::Blank | Start::Hash | Start::Slash),
        None => false,
    }
}

/// What stands after the blanks and comments at the front.
#[inline(always)]
pub fn past_gaps(bytes: &[u8]) -> &[u8]
    ensures skips { Skips bytes.now result.now }
    ensures within { length result.now ≤ length bytes.now }
    ensures at { IsAtToken result.now }
{
    // Most gaps are nothing or one blank.
    if !front_may_be_gap(bytes) {
        return bytes;
    }
    if let Some((first, rest)) = bytes.split_first()
        && is_blank(*first)
        && !front_may_be_gap(rest)
    {
        return rest;
    }
    past_all_gaps(bytes)
}

/// The same after so many bytes.
#[inline(always)]
pub(crate) fn past_token(bytes: &[u8], len: usize) -> &[u8]
    requires some { 0 < len }
    requires within { len ≤ length bytes.now }
    ensures skips { Skips (drop len bytes.now) result.now }
    ensures within { length result.now < length bytes.now }
    ensures at { IsAtToken result.now }
{
    past_gaps(past(bytes, len))
}

/// Whether a byte stands at the front.
#[inline(always)]
pub fn front_is(byte: u8, bytes: &[u8]) -> bool
    ensures { result ≡ front_byte byte bytes.now }
{
    match bytes.first() {
        Some(first) => *first == byte,
        None => false,
    }
}

/// Passes the mark of this byte.
#[inline(always)]
pub fn pass_mark(byte: u8, bytes: &[u8]) -> Option<&[u8]>
    requires { is_single byte ≡ true }
    ensures passes { IfSome result (λ rest. Passes (λ text. mark text byte) bytes.now rest.now) }
    ensures within { IfSome result (λ rest. length rest.now < length bytes.now) }
    ensures at { IfSome result (λ rest. IsAtToken rest.now) }
{
    match bytes.split_first() {
        Some((first, left)) if *first == byte => Some(past_gaps(left)),
        _ => None,
    }
}

/// How many bytes of a word stand at the front.
#[inline(always)]
#[tactic(auto, using(crate::proofs::Pieces::pieces))]
fn word_len(bytes: &[u8]) -> Option<usize>
    ensures exact { IfSome result (λ n.
        piece bytes.now ≡ Lexeme (Word (keyword_of (take n bytes.now))) n) }
    ensures none { IfNone result (IsNoWord bytes.now) }
    ensures within { IfSome result (λ n. n ≤ length bytes.now) }
    ensures some { IfSome result (λ n. 0 < n) }
{
    let (first, rest) = bytes.split_first()?;
    match start_of(*first) {
        Start::Word => Some(1 + run_len::<InWord>(rest)),
        _ => None,
    }
}

/// Passes a word.
#[inline(always)]
pub fn pass_word(bytes: &[u8]) -> Option<&[u8]>
    ensures passes { IfSome result (λ rest. Passes word bytes.now rest.now) }
    ensures within { IfSome result (λ rest. length rest.now < length bytes.now) }
    ensures at { IfSome result (λ rest. IsAtToken rest.now) }
{
    let len = word_len(bytes)?;
    Some(past_token(bytes, len))
}

/// Passes a word, and answers the keyword that it spells.
pub fn pass_keyword(bytes: &[u8]) -> Option<(Option<Keyword>, &[u8])>
    ensures passes { IfSome result (λ p. PassesWord p.0 bytes.now p.1.now) }
    ensures none { IfNone result (IsNoWord bytes.now) }
    ensures within { IfSome result (λ p. length p.1.now < length bytes.now) }
    ensures at { IfSome result (λ p. IsAtToken p.1.now) }
{
    let len = word_len(bytes)?;
    Some((keyword_of(&bytes[..len]), past_token(bytes, len)))
}

/// Whether a word stands at the front.
#[inline(always)]
pub fn front_is_word(bytes: &[u8]) -> bool
    ensures { result ≡ false → IsNoWord bytes.now }
{
    match bytes.split_first() {
        Some((first, _)) => matches!(start_of(*first), Start::Word),
        None => false,
    }
}

/// Whether a number stands at the front.
#[inline(always)]
pub fn front_is_digit(bytes: &[u8]) -> bool
    ensures number { result ≡ true → piece bytes.now ≡ number_piece bytes.now }
    ensures some { result ≡ true → 0 < prefix_len is_ascii_digit bytes.now }
{
    match bytes.split_first() {
        Some((first, _)) => matches!(start_of(*first), Start::Digit),
        None => false,
    }
}

/// How many bytes of a whole number stand at the front.
fn number_len(bytes: &[u8]) -> Option<usize>
    ensures exact { IfSome result (λ n. piece bytes.now ≡ Lexeme Number n) }
    ensures within { IfSome result (λ n. n ≤ length bytes.now) }
    ensures some { IfSome result (λ n. 0 < n) }
{
    if !front_is_digit(bytes) {
        return None;
    }
    if begins_hex(bytes) {
        return Some(2 + hex_len(past(bytes, 2)));
    }
    let len = digit_len(bytes);
    if byte_at(bytes, len) == b'.' {
        return None;
    }
    Some(len)
}

/// Whether a whole number is at most 4,294,967,295.
#[inline(always)]
fn is_small(number: &[u8]) -> bool
    ensures { IsTrue result ↔ (number_value number.now < 2 ^ 32) }
{
    // Most have so few digits that their value needn't be worked out.
    number.len() <= 9 || number_value(number) <= 0xffff_ffff
}

/// Passes a whole number of at most 4,294,967,295.
pub fn pass_number(bytes: &[u8]) -> Option<&[u8]>
    ensures passes { IfSome result (λ rest. Passes number bytes.now rest.now) }
    ensures within { IfSome result (λ rest. length rest.now < length bytes.now) }
    ensures at { IfSome result (λ rest. IsAtToken rest.now) }
{
    let len = number_len(bytes)?;
    if !is_small(&bytes[..len]) {
        return None;
    }
    Some(past_token(bytes, len))
}

/// How many bytes of a key's name stand at the front, with `<` and `>`.
#[inline(always)]
fn key_name_len(bytes: &[u8]) -> Option<usize>
    ensures exact { IfSome result (λ n. piece bytes.now ≡ Lexeme KeyName n) }
    ensures within { IfSome result (λ n. n ≤ length bytes.now) }
    ensures some { IfSome result (λ n. 0 < n) }
{
    match bytes.split_first() {
        Some((first, left)) if *first == b'<' => {
            let len = key_len(left);
            if byte_at(left, len) != b'>' {
                return None;
            }
            Some(len + 2)
        }
        _ => None,
    }
}

/// Passes a key's name.
pub fn pass_key_name(bytes: &[u8]) -> Option<&[u8]>
    ensures passes { IfSome result (λ rest. Passes key_name bytes.now rest.now) }
    ensures within { IfSome result (λ rest. length rest.now < length bytes.now) }
    ensures at { IfSome result (λ rest. IsAtToken rest.now) }
{
    let len = key_name_len(bytes)?;
    Some(past_token(bytes, len))
}

/// How many bytes of text stand at the front, with its quotes.
fn text_len(bytes: &[u8]) -> Option<usize>
    ensures exact { IfSome result (λ n. piece bytes.now ≡ Lexeme Text n) }
    ensures within { IfSome result (λ n. n ≤ length bytes.now) }
    ensures some { IfSome result (λ n. 1 < n) }
{
    match bytes.split_first() {
        Some((first, left)) if *first == b'"' => match text_extent(left) {
            Extent::Closed(len) => Some(len + 1),
            Extent::Open(_) => None,
        },
        _ => None,
    }
}

/// Passes text between quotes.
pub fn pass_text(bytes: &[u8]) -> Option<&[u8]>
    ensures passes { IfSome result (λ rest. Passes text_name bytes.now rest.now) }
    ensures within { IfSome result (λ rest. length rest.now < length bytes.now) }
    ensures at { IfSome result (λ rest. IsAtToken rest.now) }
{
    let len = text_len(bytes)?;
    Some(past_token(bytes, len))
}

/// Passes a token of any kind.
pub fn pass_token(bytes: &[u8]) -> Option<&[u8]>
    requires { length bytes.now ≤ MOST_TEXT_BYTES }
    ensures passes { IfSome result (λ rest. Passes token bytes.now rest.now) }
    ensures within { IfSome result (λ rest. length rest.now < length bytes.now) }
    ensures at { IfSome result (λ rest. IsAtToken rest.now) }
{
    match piece_at(bytes) {
        Piece::Lexeme(_, len) => Some(past_token(bytes, len)),
        _ => None,
    }
}

/// What a text has from its first token on.
pub fn first_in(text: &[u8]) -> &[u8]
    ensures skips { Skips (drop (mark_len text.now) text.now) result.now }
    ensures at { IsAtToken result.now }
{
    past_gaps(after(text, mark_len(text)))
}

/// Where the first bytes stand of those that end a text.
#[inline(always)]
pub fn span_at(text: &[u8], bytes: &[u8], len: usize) -> Span
    requires ends { Ends text.now bytes.now }
    requires short { length text.now ≤ MOST_TEXT_BYTES }
    requires within { len ≤ length bytes.now }
    ensures { result ≡ span_of (length text.now - length bytes.now) len }
{
    let start = text.len() - bytes.len();
    Span {
        start: start as u32,
        stop: (start + len) as u32,
    }
}

/// Passes text between quotes, and answers what it stands for, and where it stands in the whole text.
///
/// # Errors
/// Where a growth is refused.
pub fn pass_name<'t>(
    alloc: Global,
    text: &[u8],
    bytes: &'t [u8],
) -> Result<Option<(Name, &'t [u8])>, AllocError>
    requires ends { Ends text.now bytes.now }
    requires short { length text.now ≤ MOST_TEXT_BYTES }
    ensures passes { IfOk result (λ o. IfSome o (λ p.
        PassesAs text.now (text_name text.now) (λ x. x ≡ p.0) bytes.now p.1.now)) }
    ensures within { IfOk result (λ o. IfSome o (λ p. length p.1.now < length bytes.now)) }
    ensures at { IfOk result (λ o. IfSome o (λ p. IsAtToken p.1.now)) }
{
    let Some(len) = text_len(bytes) else {
        return Ok(None);
    };
    let name = Name {
        bytes: unescaped(alloc, &bytes[1..len - 1])?,
        span: span_at(text, bytes, len),
    };
    Ok(Some((name, past_token(bytes, len))))
}
