//! What only looks at images and headers.
use crate::named::read_keymap;
use crate::sources::{read, read_names};
use crate::usage::refuse_words;
use ks_core::NameTable;
use kx_failure::{Failure, FileKind};
use kx_image::View;
use kx_show::{draw, group_count, keysyms_of, picture, write_names, write_places};
use kx_words::Keymap;
use std::alloc::{AllocError, Global};
use std::rt::Files as FileSystem;

/// Prints a text that was made.
pub(crate) fn print_text<'a>(
    rt: &impl Print,
    text: Result<String, AllocError>,
) -> Result<(), Failure<'a>> {
    let text = text?;
    match rt.print(text.as_str()) {
        Ok(()) => Ok(()),
        Err(_) => Err(Failure::Write),
    }
}

/// The view of an image.
fn view_of<'a>(bytes: &[u8]) -> Result<View<'_>, Failure<'a>> {
    match View::open(bytes) {
        Ok(view) => Ok(view),
        Err(fault) => Err(Failure::Image(fault, FileKind::of(bytes))),
    }
}

/// What is said of a group that a keymap doesn't have.
fn refuse_group(rt: &impl Eprint, group: u8, groups: u8) -> u8 {
    let number = group.saturating_add(1);
    let noun = if groups == 1 { "group" } else { "groups" };
    refuse_words(
        rt,
        format_args!("'{number}' is no group of this keymap, which has {groups} {noun}"),
    )
}

/// Prints a picture of an image's keys, or a drawing, and answers the status to end with.
fn show_image<'a>(
    rt: &(impl Print + Eprint + AllocGlobal),
    image: &[u8],
    names: &NameTable,
    group: u8,
    is_drawn: bool,
) -> Result<u8, Failure<'a>> {
    let view = view_of(image)?;
    let groups = group_count(&view);
    if group > 0 && group >= groups {
        return Ok(refuse_group(rt, group, groups));
    }
    let text = match is_drawn {
        true => draw(rt.alloc(), &view, names, group),
        false => picture(rt.alloc(), &view, names, group),
    };
    print_text(rt, text)?;
    Ok(0)
}

/// Prints a picture of a keymap's keys, or a drawing, in an effective group from 0; answers the status to end with: 0, or 2 where
/// the keymap has no such group, which standard error says.
///
/// # Errors
/// As of [`crate::read_keymap`]; bytes that are no image; lack of memory; [`Failure::Write`].
pub fn show_keymap<'a>(
    rt: &(impl FileSystem + Input + Print + Eprint + AllocGlobal),
    names: Option<&'a str>,
    keymap: &Keymap<'a>,
    group: u8,
    is_drawn: bool,
) -> Result<u8, Failure<'a>> {
    let names = read_names(rt, names)?;
    let bytes = read_keymap(rt, &names, keymap)?;
    show_image(rt, bytes.as_slice(), &names, group, is_drawn)
}

/// The keysyms that a word means: the one of this name, and, where it is one character, each that gives it. None is of a word
/// that means nothing.
fn keysyms_in(alloc: Global, names: &NameTable, word: &str) -> Result<Vec<u32>, AllocError> {
    let mut characters = word.chars();
    let mut keysyms = match (characters.next(), characters.next()) {
        (Some(character), None) => keysyms_of(alloc, character)?,
        _ => Vec::new(alloc),
    };
    if let Some(keysym) = names.by_name(word)
        && !keysyms.contains(&keysym.0)
    {
        keysyms.push(keysym.0)?;
    }
    Ok(keysyms)
}

/// The places of an image that give what a word means.
fn places_in<'a>(
    alloc: Global,
    image: &[u8],
    names: &NameTable,
    word: &'a str,
) -> Result<String, Failure<'a>> {
    let view = view_of(image)?;
    let keysyms = keysyms_in(alloc, names, word)?;
    if keysyms.is_empty() {
        return Err(Failure::Keysym(word));
    }
    let mut text = String::new(alloc);
    write_places(alloc, &view, names, keysyms.as_slice(), &mut text)?;
    Ok(text)
}

/// Prints the keys, groups and levels of a keymap that give the keysym of a name, or the character that the word is.
///
/// # Errors
/// As of [`crate::read_keymap`]; bytes that are no image; a word that means no keysym; no such key; lack of memory;
/// [`Failure::Write`].
pub fn find_in_keymap<'a>(
    rt: &(impl FileSystem + Input + Print + Eprint + AllocGlobal),
    names: Option<&'a str>,
    keymap: &Keymap<'a>,
    word: &'a str,
) -> Result<(), Failure<'a>> {
    let names = read_names(rt, names)?;
    let bytes = read_keymap(rt, &names, keymap)?;
    let text = places_in(rt.alloc(), bytes.as_slice(), &names, word)?;
    match text.is_empty() {
        true => Err(Failure::NoKey(word)),
        false => print_text(rt, Ok(text)),
    }
}

/// Prints the lines of names that headers of C define, in their order.
///
/// # Errors
/// What a header that can't be used ends with; lack of memory; [`Failure::Write`].
pub fn print_names<'a>(
    rt: &(impl FileSystem + Print + AllocGlobal),
    headers: &[&'a str],
) -> Result<(), Failure<'a>> {
    let mut texts = Vec::new(rt.alloc());
    for path in headers {
        let bytes = read(rt, path)?;
        if texts.push(bytes).is_err() {
            return Err(Failure::from(AllocError));
        }
    }
    let mut lines = String::new(rt.alloc());
    write_names(rt.alloc(), texts.as_slice(), &mut lines)?;
    print_text(rt, Ok(lines))
}
