//! The maps that a source's includes reach.
use crate::trees::Trees;
use kx_include::{Part, Place, include_parts};
use kx_lex::At;
use kx_parse::{Item, Kind};
use std::alloc::{AllocError, Global};

/// At most this many parts of includes are looked up, as many as a keymap may have.
pub const MOST_PARTS: usize = 4096;

/// The include that led to a map: the map in which it stands, by its place among those that are reached, and its text.
#[derive(Clone, Copy)]
pub struct Origin {
    pub map: usize,
    pub text: At,
}

/// A map that is reached, and the include that led to it; none leads to a section of the source. Of a file that has no
/// tree the first section is said to be reached.
#[derive(Clone, Copy)]
pub struct Reached {
    pub place: Place,
    pub origin: Option<Origin>,
}

/// The map that a part of an include names, where its file is handed in.
///
/// # Errors
/// Where a growth is refused.
pub fn place_named(
    alloc: Global,
    trees: &Trees,
    kind: Kind,
    part: &Part,
) -> Result<Option<Place>, AllocError> {
    let Some(file) = trees.file_named(alloc, kind, part.file())? else {
        return Ok(None);
    };
    if trees.sections_in(file).is_empty() {
        return Ok(Some(Place { file, section: 0 }));
    }
    let section = trees.map_named(file, kind, part.map());
    Ok(section.map(|section| Place { file, section }))
}

/// An include of a section: the section's kind, where the include stands, and its text.
#[derive(Clone, Copy)]
struct Include<'t> {
    kind: Kind,
    origin: Origin,
    bytes: &'t [u8],
}

/// Adds what an include leads to, as far as parts are left to look up.
fn add_include(
    alloc: Global,
    trees: &Trees,
    include: Include,
    left: &mut usize,
    found: &mut Vec<Reached>,
) -> Result<(), AllocError> {
    let Some(parts) = include_parts(alloc, include.bytes)? else {
        return Ok(());
    };
    for part in parts.as_slice() {
        let Some(rest) = (*left).checked_sub(1) else {
            break;
        };
        *left = rest;
        if let Some(place) = place_named(alloc, trees, include.kind, part)? {
            let origin = Some(include.origin);
            found.push(Reached { place, origin })?;
        }
    }
    Ok(())
}

/// What the includes of the map at a place lead to, where `map` is its own place among those that are reached.
fn includes_of(
    alloc: Global,
    trees: &Trees,
    place: Place,
    map: usize,
    left: &mut usize,
) -> Result<Vec<Reached>, AllocError> {
    let mut found = Vec::new(alloc);
    let Some(section) = trees.sections_in(place.file).get(place.section) else {
        return Ok(found);
    };
    for item in section.items.as_slice() {
        if let Item::Include { text, .. } = item {
            let file = place.file;
            let span = text.span;
            let text_at = At { file, span };
            let include = Include {
                kind: section.kind,
                origin: Origin { map, text: text_at },
                bytes: text.bytes.as_slice(),
            };
            add_include(alloc, trees, include, left, &mut found)?;
        }
    }
    Ok(found)
}

/// The sections of a source.
fn own_sections(alloc: Global, trees: &Trees) -> Result<Vec<Reached>, AllocError> {
    let mut own = Vec::new(alloc);
    for section in 0..trees.sections_in(0).len() {
        let place = Place { file: 0, section };
        own.push(Reached {
            place,
            origin: None,
        })?;
    }
    Ok(own)
}

/// Puts some before those that wait; the last one that waits is the next.
fn put_first(waiting: &mut Vec<Reached>, next: &[Reached]) -> Result<(), AllocError> {
    for reached in next.iter().rev() {
        waiting.push(*reached)?;
    }
    Ok(())
}

/// The maps that a source reaches, each once, depth first and in the order of the text.
///
/// # Errors
/// Where a growth is refused.
pub fn reached_maps(alloc: Global, trees: &Trees) -> Result<Vec<Reached>, AllocError> {
    let own = own_sections(alloc, trees)?;
    reached_from(alloc, trees, own.as_slice())
}

/// The maps that some lead to, with these.
///
/// # Errors
/// Where a growth is refused.
pub fn reached_from(
    alloc: Global,
    trees: &Trees,
    starts: &[Reached],
) -> Result<Vec<Reached>, AllocError> {
    let most = starts.len().saturating_add(MOST_PARTS);
    let mut left = MOST_PARTS;
    let mut waiting = Vec::new(alloc);
    put_first(&mut waiting, starts)?;
    let mut included: Vec<Place> = Vec::new(alloc);
    let mut reached: Vec<Reached> = Vec::new(alloc);
    for _ in 0..most {
        let Some(next) = waiting.pop() else {
            break;
        };
        if next.origin.is_some() {
            if included.contains(&next.place) {
                continue;
            }
            included.push(next.place)?;
        }
        let map = reached.len();
        let found = includes_of(alloc, trees, next.place, map, &mut left)?;
        reached.push(next)?;
        put_first(&mut waiting, found.as_slice())?;
    }
    Ok(reached)
}
