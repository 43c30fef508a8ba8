//! The tokens before a place where reading stops. What may stand after them is asked of the parser, which reads them again with
//! one token more.
use crate::plain::place_of;
use crate::shortening::shortened;
use kx_lex::{At, Fault, Keyword, Span, Token, TokenKind, lex};
use kx_parse::{parse, parse_file};
use kx_reach::bytes_in;
use std::alloc::{AllocError, Global};

/// Where a token stands that is tried: after each text.
const TRIED: Span = Span {
    start: u32::MAX - 1,
    stop: u32::MAX,
};

/// At most so many tokens are read again: with each token that is tried, they take no longer than the longest text.
const MOST_TOKENS: usize = 4096;

/// What is tried: each mark, a token of each other kind, and keywords that stand where no other word does.
pub(crate) static CANDIDATES: [TokenKind; 24] = [
    TokenKind::Mark(b'+'),
    TokenKind::Mark(b'-'),
    TokenKind::Mark(b'!'),
    TokenKind::Mark(b'.'),
    TokenKind::Mark(b'='),
    TokenKind::Mark(b','),
    TokenKind::Mark(b'('),
    TokenKind::Mark(b'['),
    TokenKind::Mark(b'{'),
    TokenKind::Mark(b')'),
    TokenKind::Mark(b']'),
    TokenKind::Mark(b'}'),
    TokenKind::Mark(b';'),
    TokenKind::Mark(b'*'),
    TokenKind::Mark(b'/'),
    TokenKind::Mark(b'~'),
    TokenKind::Word(None),
    TokenKind::Number,
    TokenKind::Decimal,
    TokenKind::Text,
    TokenKind::KeyName,
    TokenKind::Word(Some(Keyword::Indicator)),
    TokenKind::Word(Some(Keyword::XkbSymbols)),
    TokenKind::Word(Some(Keyword::XkbKeymap)),
];

/// A token of a kind that is tried.
pub(crate) fn tried(kind: TokenKind) -> Token {
    Token { kind, span: TRIED }
}

/// The tokens before a place where reading stops.
#[derive(Drop)]
pub(crate) struct Front<'t> {
    alloc: Global,
    text: &'t [u8],
    is_file: bool,
    tokens: Vec<Token>,
}

/// The tokens of a text; none where it has no reading.
fn tokens_of(alloc: Global, text: &[u8]) -> Result<Vec<Token>, AllocError> {
    match lex(alloc, text) {
        Ok(tokens) => Ok(tokens),
        Err(Fault::Memory) => Err(AllocError),
        Err(_) => Ok(Vec::new(alloc)),
    }
}

impl<'t> Front<'t> {
    /// These tokens of a text.
    fn of(alloc: Global, text: &'t [u8], is_file: bool, tokens: Vec<Token>) -> Front<'t> {
        Front {
            alloc,
            text,
            is_file,
            tokens,
        }
    }

    /// The tokens of a text before a place where the parser stops, without those that have no part in it; and the token that
    /// stands there, if one does. Nothing where it doesn't stop there, or where they are too many.
    pub(crate) fn before(
        alloc: Global,
        text: &'t [u8],
        at: At,
    ) -> Result<Option<(Front<'t>, Option<Token>)>, AllocError> {
        let tokens = tokens_of(alloc, text)?;
        let is_file = at.file > 0;
        let count = tokens
            .iter()
            .take_while(|token| token.span != at.span)
            .count();
        let found = tokens.as_slice().get(count).copied();
        let before = tokens.as_slice().get(..count).unwrap_or(&[]);
        let short = Front::of(alloc, text, is_file, shortened(alloc, before, is_file)?);
        if let Some(front) = short.stopped(found, at.span)? {
            return Ok(Some((front, found)));
        }
        let whole = Front::of(alloc, text, is_file, Vec::from_slice(alloc, before)?);
        Ok(match whole.stopped(found, at.span)? {
            Some(front) => Some((front, found)),
            None => None,
        })
    }

    /// The same, where the parser stops after them at this place, at the token that stands there or at the end of the text.
    fn stopped(self, found: Option<Token>, span: Span) -> Result<Option<Front<'t>>, AllocError> {
        if self.tokens.len() > MOST_TOKENS {
            return Ok(None);
        }
        let stop = match found {
            Some(token) => self.with(0, &[token])?.stop()?,
            None => self.stop()?,
        };
        Ok(if stop == Some(span) { Some(self) } else { None })
    }

    /// The same with other tokens in the place of the last ones.
    pub(crate) fn with(&self, replaced: usize, more: &[Token]) -> Result<Front<'t>, AllocError> {
        let tokens = self.tokens.as_slice();
        let kept = tokens.len().saturating_sub(replaced);
        let mut tokens = Vec::from_slice(self.alloc, tokens.get(..kept).unwrap_or(&[]))?;
        tokens.extend_from_slice(more)?;
        Ok(Front::of(self.alloc, self.text, self.is_file, tokens))
    }

    /// Where the parser stops; nowhere, where it reads them as a whole.
    fn stop(&self) -> Result<Option<Span>, AllocError> {
        let tokens = self.tokens.as_slice();
        let outcome = if self.is_file {
            parse_file(self.alloc, self.text, tokens)
        } else {
            parse(self.alloc, self.text, tokens)
        };
        match outcome {
            Ok(_) => Ok(None),
            Err(Fault::Memory) => Err(AllocError),
            Err(fault) => Ok(place_of(fault).map(|at| at.span)),
        }
    }

    /// Whether the parser reads all of them: it stops at the end of the text, if at all.
    pub(crate) fn is_read(&self) -> Result<bool, AllocError> {
        match self.stop()? {
            Some(span) => Ok(span.start == span.stop),
            None => Ok(true),
        }
    }

    /// Whether they are whole.
    pub(crate) fn is_whole(&self) -> Result<bool, AllocError> {
        Ok(self.stop()?.is_none())
    }

    /// The kinds of tokens that may stand after them.
    pub(crate) fn allowed(&self) -> Result<Vec<TokenKind>, AllocError> {
        let mut allowed = Vec::new(self.alloc);
        for kind in &CANDIDATES {
            if self.with(0, &[tried(*kind)])?.is_read()? {
                allowed.push(*kind)?;
            }
        }
        Ok(allowed)
    }

    /// The last of them.
    pub(crate) fn last(&self) -> Option<Token> {
        self.tokens.as_slice().last().copied()
    }

    /// The kind of the last of them.
    pub(crate) fn last_kind(&self) -> Option<TokenKind> {
        match self.last() {
            Some(token) => Some(token.kind),
            None => None,
        }
    }

    /// What the last of them spells.
    pub(crate) fn last_word(&self) -> &'t [u8] {
        match self.last() {
            Some(token) => bytes_in(self.text, token.span),
            None => &[],
        }
    }
}
