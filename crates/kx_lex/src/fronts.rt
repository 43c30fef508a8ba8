//! The tokens of a place in a text, without those of all of it.
ghost use Rattle.std.specs.Prelude.{◌≡◌, ◌≤◌, ◌<◌, ◌++◌, ◌∷◌, [], List, drop, length, take, IfNone, IfOk, IfSome};
ghost use Rattle.kx_lex.specs.PlacedTokens.{front_until};
ghost use Rattle.kx_lex.specs.Passing.{Ends, IsAtToken, ReadsEnd};
ghost use Rattle.kx_lex.specs.Reading.{Reads};
ghost use Rattle.kx_lex.specs.declared.scan.TheConstants.{MOST_TEXT_BYTES};
ghost use Rattle.kx_lex.specs.declared.token.Token.{Token as TokenValue};

use crate::passing::{past_gaps, past_token, span_at};
use crate::scan::{Piece, USUAL_TOKEN_BYTES, after, piece_at};
use crate::token::{Span, Token};
use std::alloc::{AllocError, Global};

/// The token at the front of bytes that end a text, and what stands after it; none at the end, and where none begins.
#[inline(always)]
fn take_token<'t>(text: &[u8], bytes: &'t [u8]) -> Option<(Token, &'t [u8])>
    requires ends { Ends text.now bytes.now }
    requires short { length text.now ≤ MOST_TEXT_BYTES }
    requires at { IsAtToken bytes.now }
    ensures token { IfSome result (λ p. (us : List TokenValue) → ReadsEnd text.now bytes.now us
        → (ts : List TokenValue) × (us ≡ p.0 ∷ ts) × ReadsEnd text.now p.1.now ts) }
    ensures none { IfNone result ((us : List TokenValue) → ReadsEnd text.now bytes.now us
        → us ≡ []) }
    ensures ends { IfSome result (λ p. Ends text.now p.1.now) }
    ensures within { IfSome result (λ p. length p.1.now < length bytes.now) }
    ensures at { IfSome result (λ p. IsAtToken p.1.now) }
{
    match piece_at(bytes) {
        Piece::Lexeme(kind, len) => {
            let token = Token {
                kind,
                span: span_at(text, bytes, len),
            };
            Some((token, past_token(bytes, len)))
        }
        _ => None,
    }
}

/// Adds tokens up to the first that begins at an offset or after it, and answers what stands after that.
fn take_until<'t>(
    text: &[u8],
    bytes: &'t [u8],
    stop: u32,
    tokens: &mut Vec<Token>,
) -> Result<&'t [u8], AllocError>
    requires ends { Ends text.now bytes.now }
    requires short { length text.now ≤ MOST_TEXT_BYTES }
    requires at { IsAtToken bytes.now }
    ensures taken { IfOk result (λ rest. (us : List TokenValue) → ReadsEnd text.now bytes.now us
        → (ts : List TokenValue) × ReadsEnd text.now rest.now ts
        × (tokens.new.items ++ take 1 ts ≡ tokens.old.items ++ front_until stop us)) }
    ensures ends { IfOk result (λ rest. Ends text.now rest.now) }
    ensures at { IfOk result (λ rest. IsAtToken rest.now) }
{
    let mut rest = bytes;
    'tokens: while let Some((token, behind)) = take_token(text, rest) {
        tokens.push(token)?;
        rest = behind;
        if token.span.start >= stop {
            return Ok(rest);
        }
    }
    Ok(rest)
}

/// The tokens of a place in a text, and the two after them, where there are as many: no production looks further.
///
/// # Errors
/// Where a growth is refused.
pub fn lex_front(alloc: Global, text: &[u8], place: Span) -> Result<Vec<Token>, AllocError>
    requires short { length text.now ≤ MOST_TEXT_BYTES }
    ensures { IfOk result (λ tokens. (us : List TokenValue)
        → Reads place.start (drop place.start text.now) us
        → tokens.items ≡ front_until place.stop us) }
{
    let len = place.stop.saturating_sub(place.start) as usize;
    let mut tokens = Vec::with_capacity(alloc, len / USUAL_TOKEN_BYTES)?;
    let first = past_gaps(after(text, place.start as usize));
    let rest = take_until(text, first, place.stop, &mut tokens)?;
    if let Some((token, _)) = take_token(text, rest) {
        tokens.push(token)?;
    }
    Ok(tokens)
}
