//! What a text is read as.
use crate::case::Case;
use crate::sources::{bodies_of, library_of, tree_of};
use crate::trouble::Trouble;
use kx_include::{Part, include_parts};
use kx_lex::{Fault, Token, TokenKind, lex, text_bytes};
use kx_parse::{Mode, Tree, parse_file};
use std::alloc::Global;
use std::fmt::Write;

/// The first letter of a token's kind.
fn letter_of(kind: TokenKind) -> &'static str {
    match kind {
        TokenKind::Word(_) => "w",
        TokenKind::Number => "n",
        TokenKind::Decimal => "d",
        TokenKind::KeyName => "k",
        TokenKind::Text => "t",
        TokenKind::Mark(_) => "m",
    }
}

/// Puts tokens after a text, each as its kind's first letter and its span, with a blank after it.
fn push_tokens(all: &mut String, tokens: &[Token]) -> Result<(), Trouble> {
    for token in tokens {
        let letter = letter_of(token.kind);
        let span = token.span;
        write!(all, "{letter}{span} ")?;
    }
    Ok(())
}

/// The tokens of a text.
pub fn tokens_of(alloc: Global, text: &[u8]) -> Result<String, Trouble> {
    let tokens = lex(alloc, text)?;
    let mut all = String::new(alloc);
    push_tokens(&mut all, tokens.as_slice())?;
    Ok(all)
}

/// The bytes that a text between quotes stands for, in hexadecimal.
pub fn bytes_of(alloc: Global, text: &[u8]) -> Result<String, Trouble> {
    let mut all = String::new(alloc);
    for byte in text_bytes(alloc, text)?.as_slice() {
        write!(all, "{byte:02x}")?;
    }
    Ok(all)
}

fn file_tree_of(alloc: Global, text: &[u8]) -> Result<Box<Tree>, Fault> {
    let tokens = lex(alloc, text)?;
    Ok(Box::new(alloc, parse_file(alloc, text, tokens.as_slice())?)?)
}

/// `ok`, where a source has a tree.
pub fn tree_shown(alloc: Global, text: &[u8]) -> Result<String, Trouble> {
    tree_of(alloc, text)?;
    Ok(String::from_str(alloc, "ok")?)
}

/// `ok`, where a file has a tree.
pub fn file_tree_shown(alloc: Global, text: &[u8]) -> Result<String, Trouble> {
    file_tree_of(alloc, text)?;
    Ok(String::from_str(alloc, "ok")?)
}

/// `ok`, where a source's includes name maps.
pub fn includes_shown(alloc: Global, case: &Case) -> Result<String, Trouble> {
    let library = library_of(alloc, case)?;
    bodies_of(alloc, &library)?;
    Ok(String::from_str(alloc, "ok")?)
}

fn mode_word(mode: Mode) -> &'static str {
    match mode {
        Mode::Override => "override",
        Mode::Augment => "augment",
        Mode::Replace => "replace",
    }
}

/// Puts a part's mode, file, map and group after a text; `-` stands for a map or a group that isn't named.
fn push_part(all: &mut String, part: &Part) -> Result<(), Trouble> {
    let mode = mode_word(part.mode());
    let file = str::from_utf8(part.file()).unwrap_or("?");
    let map = str::from_utf8(part.map().unwrap_or(b"-")).unwrap_or("?");
    let group = part.group().unwrap_or(0);
    write!(all, "{mode} {file} {map} {group}; ")?;
    Ok(())
}

/// The parts of an include's text; a group of 0 isn't named. `none`, where it has another form.
pub fn parts_shown(alloc: Global, text: &[u8]) -> Result<String, Trouble> {
    let Some(parts) = include_parts(alloc, text)? else {
        return Ok(String::from_str(alloc, "none")?);
    };
    let mut all = String::new(alloc);
    for part in parts.as_slice() {
        push_part(&mut all, part)?;
    }
    Ok(all)
}
