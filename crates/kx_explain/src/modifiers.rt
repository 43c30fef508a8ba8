//! Words that are no modifiers, and the modifiers that they are near to.
use crate::near::letters_apart;
use crate::quotes::quoted;
use kx_mods::Mods;
use kx_parse::{Declaration, Item, Section, Stated, Statement};
use kx_reach::{Reached, Trees};
use std::alloc::AllocError;

/// A modifier that a word is near to.
#[derive(Clone, Copy)]
struct Near<'a> {
    name: &'a [u8],
    apart: u8,
    is_real: bool,
}

/// The nearer of two; the first where they are equally near.
fn nearer<'a>(first: Option<Near<'a>>, other: Option<Near<'a>>) -> Option<Near<'a>> {
    match (first, other) {
        (Some(left), Some(right)) if right.apart < left.apart => Some(right),
        (None, other) => other,
        (first, _) => first,
    }
}

/// A modifier, where a word is near to it.
fn near_to<'a>(word: &[u8], name: &'a [u8], is_real: bool) -> Option<Near<'a>> {
    let apart = letters_apart(word, name)?;
    Some(Near {
        name,
        apart,
        is_real,
    })
}

fn declarations_of(item: &Item) -> &[Declaration] {
    match item {
        Item::Statement(
            Stated {
                statement: Statement::VirtualModifiers(declarations),
                ..
            },
        ) => declarations.as_slice(),
        _ => &[],
    }
}

/// The nearest modifier that a section declares.
fn near_in<'a>(word: &[u8], section: &'a Section) -> Option<Near<'a>> {
    let mut nearest = None;
    for item in section.items.as_slice() {
        for declaration in declarations_of(item) {
            let name = declaration.word.bytes.as_slice();
            nearest = nearer(nearest, near_to(word, name, false));
        }
    }
    nearest
}

/// The nearest modifier that the keymap has.
fn near_among<'a>(word: &[u8], trees: &'a Trees, reached: &[Reached]) -> Option<Near<'a>> {
    let mut nearest = None;
    for map in reached {
        let sections = trees.sections_in(map.place.file);
        if let Some(section) = sections.get(map.place.section) {
            nearest = nearer(nearest, near_in(word, section));
        }
    }
    for bit in 0..8 {
        let name = Mods::name_of(bit).as_bytes();
        nearest = nearer(nearest, near_to(word, name, true));
    }
    nearest
}

/// Says which word is no modifier, and which near one is.
pub(crate) fn write_unknown_modifier(
    out: &mut String,
    word: &[u8],
    trees: &Trees,
    reached: &[Reached],
) -> Result<(), AllocError> {
    let wrong = quoted(word);
    match near_among(word, trees, reached) {
        None => write!(out, "{wrong} is neither a real modifier nor declared"),
        Some(near) => {
            let name = quoted(near.name);
            let how = if near.is_real { "one" } else { "declared" };
            write!(out, "{wrong} is no modifier; {name} is {how}")
        }
    }
}
