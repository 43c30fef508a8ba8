//! What could stand where reading stops, in words.
use crate::front::{CANDIDATES, Front, tried};
use crate::quotes::quoted;
use kx_lex::{Keyword, Token, TokenKind};
use std::alloc::{AllocError, Global};

/// What some tokens begin, and whether the name of it is told with the token before it.
struct Name {
    tokens: &'static [TokenKind],
    name: &'static str,
    is_behind: bool,
}

const WORD: TokenKind = TokenKind::Word(None);

const NUMBER: TokenKind = TokenKind::Number;

const TEXT: TokenKind = TokenKind::Text;

const KEY_NAME: TokenKind = TokenKind::KeyName;

const INDICATOR: TokenKind = TokenKind::Word(Some(Keyword::Indicator));

const SYMBOLS: TokenKind = TokenKind::Word(Some(Keyword::XkbSymbols));

const KEYMAP: TokenKind = TokenKind::Word(Some(Keyword::XkbKeymap));

const NOT: TokenKind = TokenKind::Mark(b'!');

const SET: TokenKind = TokenKind::Mark(b'=');

const LIST: TokenKind = TokenKind::Mark(b'[');

const BLOCK: TokenKind = TokenKind::Mark(b'{');

const CLOSE: TokenKind = TokenKind::Mark(b'}');

const COMMA: TokenKind = TokenKind::Mark(b',');

const END: TokenKind = TokenKind::Mark(b';');

const MINUS: TokenKind = TokenKind::Mark(b'-');

/// The names of what may stand at a place: the first counts whose tokens all may.
#[rattlefmt::skip]
static NAMES: [Name; 19] = [
    Name { tokens: &[WORD, NUMBER, TEXT, KEY_NAME, NOT], name: "an argument", is_behind: false },
    Name { tokens: &[WORD, NUMBER, TEXT, KEY_NAME], name: "a value", is_behind: true },
    Name { tokens: &[WORD, NUMBER, KEY_NAME], name: "a key's name or a keysym", is_behind: false },
    Name { tokens: &[WORD, NUMBER, SET], name: "a keysym", is_behind: true },
    Name { tokens: &[WORD, NUMBER], name: "a keysym or an action", is_behind: false },
    Name { tokens: &[WORD, KEY_NAME, CLOSE], name: "a statement or '}'", is_behind: false },
    Name { tokens: &[WORD, KEY_NAME], name: "a statement", is_behind: true },
    Name { tokens: &[WORD, NOT, LIST], name: "a field or a list of a key", is_behind: false },
    Name { tokens: &[WORD, NOT, CLOSE], name: "a field or '}'", is_behind: false },
    Name { tokens: &[WORD, SET], name: "a modifier", is_behind: true },
    Name { tokens: &[WORD], name: "a word", is_behind: true },
    Name { tokens: &[SYMBOLS, CLOSE], name: "a section, as xkb_symbols, or '}'", is_behind: false },
    Name { tokens: &[SYMBOLS], name: "a section, as xkb_symbols", is_behind: false },
    Name { tokens: &[KEYMAP], name: "'xkb_keymap'", is_behind: false },
    Name { tokens: &[INDICATOR], name: "'indicator'", is_behind: true },
    Name { tokens: &[TEXT, BLOCK], name: "a name between quotes or '{'", is_behind: true },
    Name { tokens: &[TEXT], name: "a text between quotes", is_behind: true },
    Name { tokens: &[KEY_NAME], name: "a key's name, as <AE01>,", is_behind: true },
    Name { tokens: &[NUMBER], name: "a number", is_behind: true },
];

/// The same of one of several between commas.
#[rattlefmt::skip]
static PARTS: [Name; 6] = [
    Name { tokens: &[WORD, NUMBER, TEXT, KEY_NAME], name: "an argument", is_behind: false },
    Name { tokens: &[WORD, NUMBER, KEY_NAME], name: "a key's name or a keysym", is_behind: false },
    Name { tokens: &[WORD, NUMBER, BLOCK], name: "a level", is_behind: false },
    Name { tokens: &[WORD, NUMBER], name: "a keysym or an action", is_behind: false },
    Name { tokens: &[WORD, NOT, LIST], name: "a field of a key", is_behind: false },
    Name { tokens: &[WORD], name: "a modifier", is_behind: false },
];

fn has_all(allowed: &[TokenKind], tokens: &[TokenKind]) -> bool {
    tokens.iter().all(|token| allowed.contains(token))
}

fn name_of(names: &'static [Name], allowed: &[TokenKind]) -> Option<&'static Name> {
    names.iter().find(|name| has_all(allowed, name.tokens))
}

/// Whether a mark that may stand somewhere ends or goes on from what stands before it, and isn't a part of a longer value.
fn is_told(mark: u8, allowed: &[TokenKind]) -> bool {
    match mark {
        b'+' => !allowed.contains(&MINUS),
        b'=' | b',' | b'{' | b')' | b']' | b'}' | b';' => true,
        _ => false,
    }
}

/// Lists the marks that may stand somewhere, and answers how many they are.
fn write_marks(
    out: &mut String,
    alloc: Global,
    allowed: &[TokenKind],
) -> Result<usize, AllocError> {
    let mut marks = Vec::new(alloc);
    for kind in allowed {
        if let TokenKind::Mark(mark) = kind
            && is_told(*mark, allowed)
        {
            marks.push(*mark)?;
        }
    }
    let mut left = marks.len();
    for mark in marks.as_slice() {
        let bytes = [*mark];
        let mark = quoted(&bytes);
        left = left.saturating_sub(1);
        match left {
            0 => write!(out, "{mark}")?,
            1 => write!(out, "{mark} or ")?,
            _ => write!(out, "{mark}, ")?,
        }
    }
    Ok(marks.len())
}

/// What stands before a place, where it isn't told by its own words.
fn name_before(front: &Front, allowed: &[TokenKind]) -> Result<Option<&'static str>, AllocError> {
    if allowed.contains(&COMMA) {
        let behind = front.with(0, &[tried(COMMA)])?.allowed()?;
        return Ok(name_of(&PARTS, behind.as_slice()).map(|part| part.name));
    }
    if has_all(allowed, &[SET, END]) {
        return Ok(Some("a field"));
    }
    if allowed.contains(&MINUS) {
        return Ok(Some("a value"));
    }
    Ok(match front.last_kind() {
        Some(TokenKind::Number) => Some("a number"),
        Some(TokenKind::KeyName) => Some("a key's name"),
        Some(TokenKind::Text) if front.with(2, &[tried(SYMBOLS), tried(BLOCK)])?.is_read()? => {
            Some("a section's name")
        }
        Some(TokenKind::Text) => Some("a text"),
        _ => None,
    })
}

fn write_before(out: &mut String, front: &Front, name: Option<&str>) -> Result<(), AllocError> {
    let last = quoted(front.last_word());
    match name {
        Some(name) => write!(out, " after {name}"),
        None => write!(out, " after {last}"),
    }
}

/// Says that `};` is missing before the last word, where what was found after that word would go on from it then.
fn write_missing_end(
    out: &mut String,
    front: &Front,
    found: Option<Token>,
) -> Result<(), AllocError> {
    let (Some(last), Some(found)) = (front.last(), found) else {
        return Ok(());
    };
    let ended = front.with(1, &[tried(CLOSE), tried(END)])?;
    if !ended.with(0, &[last, found])?.is_read()? {
        return Ok(());
    }
    if ended.with(0, &[tried(WORD)])?.is_read()? {
        let word = quoted(front.last_word());
        return write!(out, "'}};' before {word}");
    }
    out.push_str("'};' of the section before the next one")
}

/// Says what could stand after the front of a text; nothing where that has no name.
pub(crate) fn write_wanted(
    out: &mut String,
    alloc: Global,
    front: &Front,
    found: Option<Token>,
) -> Result<(), AllocError> {
    let allowed = front.allowed()?;
    let allowed = allowed.as_slice();
    if allowed.len() == CANDIDATES.len() {
        return out.push_str("'}'");
    }
    if has_all(allowed, &[SET, END]) {
        write_missing_end(out, front, found)?;
        if !out.as_str().is_empty() {
            return Ok(());
        }
    }
    if let Some(name) = name_of(&NAMES, allowed) {
        out.push_str(name.name)?;
        return if name.is_behind {
            write_before(out, front, None)
        } else {
            Ok(())
        };
    }
    if write_marks(out, alloc, allowed)? > 0 {
        return write_before(out, front, name_before(front, allowed)?);
    }
    if front.is_whole()? {
        return out.push_str("the end of the text");
    }
    Ok(())
}
