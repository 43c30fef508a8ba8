//! A case's source, read. What owns much memory stands in a box: a function that holds it is proved much sooner.
use crate::case::Case;
use kx_codes::{Codes, codes};
use kx_include::{Bodies, Library};
use kx_lex::{Fault, lex};
use kx_parse::{Tree, parse};
use kx_virtual_mods::ModNames;
use std::alloc::Global;

pub fn tree_of(alloc: Global, text: &[u8]) -> Result<Box<Tree>, Fault> {
    let tokens = lex(alloc, text)?;
    Ok(Box::new(alloc, parse(alloc, text, tokens.as_slice())?)?)
}

pub fn library_of<'c>(alloc: Global, case: &'c Case) -> Result<Box<Library<'c>>, Fault> {
    let library = Library::of_source(alloc, case.source.as_slice(), &case.files)?;
    Ok(Box::new(alloc, library)?)
}

pub fn bodies_of<'l>(alloc: Global, library: &'l Library) -> Result<Box<Bodies<'l>>, Fault> {
    Ok(Box::new(alloc, library.expand(alloc)?)?)
}

pub fn codes_of<'l>(alloc: Global, bodies: &Bodies<'l>) -> Result<Box<Codes<'l>>, Fault> {
    Ok(Box::new(alloc, codes(alloc, &bodies.keycodes)?)?)
}

pub fn modifiers_of(alloc: Global, bodies: &Bodies) -> Result<Box<ModNames>, Fault> {
    Ok(Box::new(alloc, ModNames::of(alloc, bodies)?)?)
}

/// The text of a name's bytes.
pub fn text_of(bytes: &[u8]) -> &str {
    str::from_utf8(bytes).unwrap_or("?")
}
