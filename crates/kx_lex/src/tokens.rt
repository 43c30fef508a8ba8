//! What is read of a single token.
ghost use Rattle.std.specs.Prelude.{◌≡◌, ◌<◌, ◌^◌, ◌-◌, ◌⊎◌, Err, List, IfErr, IfOk, Ok, ◌≤◌, slice_range, drop};
ghost use Rattle.kx_lex.specs.declared.fault.Fault.TheVariants.{Memory};
ghost use Rattle.kx_lex.specs.Strings.{text_value};
ghost use Rattle.kx_lex.specs.declared.string.EscapeState.TheVariants.{Plain};
ghost use Rattle.kx_lex.specs.Gives.{Gives};
ghost use Rattle.kx_lex.specs.Production.{syntax_of, front_span, span_between};
ghost use Rattle.kx_lex.specs.Kinds.{slice_of, inner_of, is_word, is_number, is_key_name, is_text, is_mark, is_keyword, front, second, number_value};
ghost use Rattle.kx_lex.specs.Tokens.{mark, keyword, word, key_name, enclosed, text_name, measured, number};

use crate::fault::{At, Fault};
use crate::kept::Bytes;
use crate::keyword::Keyword;
use crate::name::{KeyName, Name, Number};
use crate::scan::begins_hex;
use crate::string::text_bytes;
use crate::token::{Span, Token, TokenKind};
use kx_basics::{decimal_value, hex_value};
use std::alloc::{AllocError, Global};

/// A value with the tokens that are left after it, or why there is none.
pub type Parsed<'a, T> = Result<(T, &'a [Token]), Fault>;

fn range(text: &[u8], start: usize, stop: usize) -> &[u8]
    ensures { result.now ≡ slice_range text.now start stop }
{
    if start <= stop {
        let rest = text.get(start..).unwrap_or(&[]);
        rest.get(..stop - start).unwrap_or(rest)
    } else {
        &[]
    }
}

#[inline(always)]
fn slice_of<'t>(text: &'t [u8], token: &Token) -> &'t [u8]
    ensures { result.now ≡ slice_of text.now token.now }
{
    range(text, token.span.start as usize, token.span.stop as usize)
}

/// A token's bytes without the first and the last.
fn inner_of<'t>(text: &'t [u8], token: &Token) -> &'t [u8]
    ensures { result.now ≡ inner_of text.now token.now }
{
    let start = token.span.start as usize + 1;
    let stop = (token.span.stop as usize).saturating_sub(1);
    range(text, start, stop)
}

/// Whether the token is a word.
#[inline(always)]
pub fn is_word(token: &Token) -> bool
    ensures { result ≡ is_word token.now }
{
    matches!(token.kind, TokenKind::Word(_))
}

/// Whether the token is a whole number.
#[inline(always)]
pub fn is_number(token: &Token) -> bool
    ensures { result ≡ is_number token.now }
{
    matches!(token.kind, TokenKind::Number)
}

#[inline(always)]
fn is_key_name(token: &Token) -> bool
    ensures { result ≡ is_key_name token.now }
{
    matches!(token.kind, TokenKind::KeyName)
}

#[inline(always)]
fn is_text(token: &Token) -> bool
    ensures { result ≡ is_text token.now }
{
    matches!(token.kind, TokenKind::Text)
}

/// Whether the token is the mark of this byte.
#[inline(always)]
pub fn is_mark(byte: u8, token: &Token) -> bool
    ensures { result ≡ is_mark byte token.now }
{
    match token.kind {
        TokenKind::Mark(mark) => mark == byte,
        _ => false,
    }
}

/// Whether the token is this keyword.
#[inline(always)]
#[tactic(auto, unfolding(crate::specs::Kinds::is_keyword))]
pub fn is_keyword(keyword: Keyword, token: &Token) -> bool
    ensures { result ≡ is_keyword keyword token.now }
{
    match token.kind {
        TokenKind::Word(Some(found)) => found == keyword,
        _ => false,
    }
}

/// The fault of the first token, which may not stand where it does, or of the text's end. A place
/// counts no further than 4,294,967,295 bytes.
pub fn syntax(text: &[u8], tokens: &[Token]) -> Fault
    ensures { result ≡ syntax_of text.now tokens.now }
{
    let end = text.len().min(u32::MAX as usize) as u32;
    let span = match tokens.first() {
        Some(token) => token.span,
        None => Span {
            start: end,
            stop: end,
        },
    };
    Fault::Syntax(At { file: 0, span })
}

/// Takes the mark of this byte.
///
/// # Errors
/// [`Fault::Syntax`] where another token or none stands.
#[inline(always)]
#[tactic(auto, unfolding(crate::specs::Tokens::mark))]
pub fn read_mark<'a>(text: &[u8], byte: u8, tokens: &'a [Token]) -> Parsed<'a, Token>
    ensures { Gives result ((mark text.now byte).read tokens.now) }
{
    match tokens.split_first() {
        Some((token, rest)) if is_mark(byte, token) => Ok((*token, rest)),
        _ => Err(syntax(text, tokens)),
    }
}

/// Takes this keyword.
///
/// # Errors
/// [`Fault::Syntax`] where another token or none stands.
#[inline(always)]
#[tactic(auto, unfolding(crate::specs::Tokens::keyword))]
pub fn read_keyword<'a>(text: &[u8], wanted: Keyword, tokens: &'a [Token]) -> Parsed<'a, Token>
    ensures { Gives result ((keyword text.now wanted).read tokens.now) }
{
    match tokens.split_first() {
        Some((token, rest)) if is_keyword(wanted, token) => Ok((*token, rest)),
        _ => Err(syntax(text, tokens)),
    }
}

/// The bytes of a text from `start` to `stop`.
#[inline(always)]
fn bytes_between(alloc: Global, text: &[u8], start: usize, stop: usize) -> Result<Bytes, AllocError>
    ensures { IfOk result (λ bytes. bytes ≡ slice_range text.now start stop) }
{
    let front = text.get(start..).unwrap_or(&[]);
    Bytes::front(alloc, front, stop.saturating_sub(start))
}

#[inline(always)]
fn word_of(alloc: Global, text: &[u8], token: &Token) -> Result<Name, AllocError>
    ensures { IfOk result (λ name.
        name ≡ record { bytes = slice_of text.now token.now; span = token.now.span }) }
{
    let start = token.span.start as usize;
    let stop = token.span.stop as usize;
    Ok(Name {
        bytes: bytes_between(alloc, text, start, stop)?,
        span: token.span,
    })
}

#[inline(always)]
fn key_name_of(alloc: Global, text: &[u8], token: &Token) -> Result<KeyName, Fault>
    ensures value { IfOk result (λ name. enclosed text.now token.now ≡ Ok name) }
    ensures fault { IfErr result (λ e. (e ≡ Memory) ⊎ (enclosed text.now token.now ≡ Err e)) }
{
    let start = token.span.start as usize + 1;
    let stop = (token.span.stop as usize).saturating_sub(1);
    let bytes = bytes_between(alloc, text, start, stop)?;
    let span = token.span;
    match KeyName::of(Name { bytes, span }) {
        Some(name) => Ok(name),
        None => Err(Fault::Syntax(At { file: 0, span })),
    }
}

/// Takes a word as it is written.
///
/// # Errors
/// [`Fault::Syntax`] where another token or none stands, and [`Fault::Memory`] where a growth is refused.
#[inline(always)]
#[tactic(auto, unfolding(crate::specs::Tokens::word))]
pub fn read_word<'a>(alloc: Global, text: &[u8], tokens: &'a [Token]) -> Parsed<'a, Name>
    ensures { Gives result ((word text.now).read tokens.now) }
{
    match tokens.split_first() {
        Some((token, rest)) if is_word(token) => Ok((word_of(alloc, text, token)?, rest)),
        _ => Err(syntax(text, tokens)),
    }
}

/// Takes a key's name, without `<` and `>`.
///
/// # Errors
/// [`Fault::Syntax`] where another token or none stands, and [`Fault::Memory`] where a growth is refused.
#[inline(always)]
#[tactic(auto, unfolding(crate::specs::Tokens::key_name))]
pub fn read_key_name<'a>(alloc: Global, text: &[u8], tokens: &'a [Token]) -> Parsed<'a, KeyName>
    ensures { Gives result ((key_name text.now).read tokens.now) }
{
    match tokens.split_first() {
        Some((token, rest)) if is_key_name(token) => Ok((key_name_of(alloc, text, token)?, rest)),
        _ => Err(syntax(text, tokens)),
    }
}

/// What text between quotes stands for.
#[tactic(auto, using(crate::proofs::Strings::plain_texts))]
pub(crate) fn unescaped(alloc: Global, text: &[u8]) -> Result<Bytes, AllocError>
    ensures { IfOk result (λ bytes. bytes ≡ text_value Plain text.now) }
{
    if !text.contains(&b'\\') {
        return Bytes::of(alloc, text);
    }
    let bytes = text_bytes(alloc, text)?;
    Bytes::of(alloc, bytes.as_slice())
}

/// Takes text between quotes: the bytes that it stands for.
///
/// # Errors
/// [`Fault::Syntax`] where another token or none stands, and [`Fault::Memory`] where a growth is refused.
#[tactic(auto, unfolding(crate::specs::Tokens::text_name))]
pub fn read_text<'a>(alloc: Global, text: &[u8], tokens: &'a [Token]) -> Parsed<'a, Name>
    ensures { Gives result ((text_name text.now).read tokens.now) }
{
    match tokens.split_first() {
        Some((token, rest)) if is_text(token) => {
            let bytes = unescaped(alloc, inner_of(text, token))?;
            let span = token.span;
            Ok((Name { bytes, span }, rest))
        }
        _ => Err(syntax(text, tokens)),
    }
}

fn measured(value: u64, span: Span) -> Result<Number, Fault>
    requires { value < 2 ^ 64 }
    ensures { result ≡ measured value span }
{
    match u32::try_from(value) {
        Ok(value) => Ok(Number { value, span }),
        Err(_) => Err(Fault::NumberTooBig(At { file: 0, span })),
    }
}

/// The value of a number's bytes, or 2^32 where it is greater.
#[inline(always)]
#[tactic(auto, unfolding(crate::specs::Kinds::number_value))]
pub(crate) fn number_value(digits: &[u8]) -> u64
    ensures exact { result < 2 ^ 32 → result ≡ number_value digits.now }
    ensures great { 2 ^ 32 ≤ result → 2 ^ 32 ≤ number_value digits.now }
{
    if begins_hex(digits) {
        hex_value(digits.get(2..).unwrap_or(&[]))
    } else {
        decimal_value(digits)
    }
}

/// Takes a whole number, decimal or after `0x` hexadecimal.
///
/// # Errors
/// [`Fault::Syntax`] where another token or none stands, and [`Fault::NumberTooBig`] above
/// 4,294,967,295.
#[inline(always)]
#[tactic(auto, unfolding(crate::specs::Tokens::number))]
pub fn read_number<'a>(text: &[u8], tokens: &'a [Token]) -> Parsed<'a, Number>
    ensures { Gives result ((number text.now).read tokens.now) }
{
    match tokens.split_first() {
        Some((token, rest)) if is_number(token) => {
            let value = number_value(slice_of(text, token));
            Ok((measured(value, token.span)?, rest))
        }
        _ => Err(syntax(text, tokens)),
    }
}

/// Whether the first token is the mark of this byte.
#[inline(always)]
pub fn front_is_mark(byte: u8, tokens: &[Token]) -> bool
    ensures { result ≡ front (is_mark byte) tokens.now }
{
    match tokens.first() {
        Some(token) => is_mark(byte, token),
        None => false,
    }
}

/// Whether the first token is this keyword.
#[inline(always)]
pub fn front_is_keyword(wanted: Keyword, tokens: &[Token]) -> bool
    ensures { result ≡ front (is_keyword wanted) tokens.now }
{
    match tokens.first() {
        Some(token) => is_keyword(wanted, token),
        None => false,
    }
}

/// Where the first token stands; without one, no bytes from 0.
#[inline(always)]
pub fn front_span(tokens: &[Token]) -> Span
    ensures { result ≡ front_span tokens.now }
{
    match tokens.first() {
        Some(token) => token.span,
        None => Span { start: 0, stop: 0 },
    }
}

/// The bytes from the first of the tokens to the last before the rest of them.
pub fn span_between(tokens: &[Token], rest: &[Token]) -> Span
    ensures { result ≡ span_between tokens.now rest.now }
{
    let last = tokens.len().saturating_sub(rest.len()).saturating_sub(1);
    Span {
        start: front_span(tokens).start,
        stop: front_span(tokens.get(last..).unwrap_or(&[])).stop,
    }
}

/// The tokens after the first; without one, none.
#[inline(always)]
pub fn behind_front(tokens: &[Token]) -> &[Token]
    ensures { result.now ≡ drop 1 tokens.now }
{
    tokens.get(1..).unwrap_or(&[])
}

/// Whether the first token is a word.
#[inline(always)]
pub fn front_is_word(tokens: &[Token]) -> bool
    ensures { result ≡ front is_word tokens.now }
{
    match tokens.first() {
        Some(token) => is_word(token),
        None => false,
    }
}

/// Whether the first token is a whole number.
#[inline(always)]
pub fn front_is_number(tokens: &[Token]) -> bool
    ensures { result ≡ front is_number tokens.now }
{
    match tokens.first() {
        Some(token) => is_number(token),
        None => false,
    }
}

/// Whether the first token is text between quotes.
#[inline(always)]
pub fn front_is_text(tokens: &[Token]) -> bool
    ensures { result ≡ front is_text tokens.now }
{
    match tokens.first() {
        Some(token) => is_text(token),
        None => false,
    }
}

/// Whether the first token is a key's name.
#[inline(always)]
pub fn front_is_key_name(tokens: &[Token]) -> bool
    ensures { result ≡ front is_key_name tokens.now }
{
    match tokens.first() {
        Some(token) => is_key_name(token),
        None => false,
    }
}
