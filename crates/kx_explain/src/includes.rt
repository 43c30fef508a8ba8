//! What is wrong with includes.
use crate::quotes::quoted;
use kx_include::{Part, Place, include_parts};
use kx_lex::At;
use kx_parse::{Item, Kind, Section};
use kx_reach::{Reached, Trees, holds, is_in, place_named, reached_from};
use std::alloc::{AllocError, Global};

/// So many names of maps are listed of a kind.
const MOST_LISTED: usize = 12;

/// The kinds of sections whose maps are listed.
static KINDS: [Kind; 4] = [Kind::Keycodes, Kind::Types, Kind::Compat, Kind::Symbols];

/// The kind of the section and the text of the include that stands at a place.
pub(crate) fn include_at(trees: &Trees, at: At) -> Option<(Kind, &[u8])> {
    for section in trees.sections_in(at.file) {
        for item in section.items.as_slice() {
            if let Item::Include { text, .. } = item
                && text.span == at.span
            {
                return Some((section.kind, text.bytes.as_slice()));
            }
        }
    }
    None
}

/// Says which part of an include names nothing.
pub(crate) fn write_bad_include(
    out: &mut String,
    alloc: Global,
    bytes: &[u8],
) -> Result<(), AllocError> {
    for part in bytes.split(|byte| *byte == b'+' || *byte == b'|') {
        if include_parts(alloc, part)?.is_some() {
            continue;
        }
        let whole = quoted(bytes);
        let words = quoted(part);
        return if part.is_empty() {
            write!(out, "{whole} names no file")
        } else {
            write!(
                out,
                "{words} is not FILE or FILE(MAP), with :GROUP from 1 to 32 or without"
            )
        };
    }
    Ok(())
}

/// The parts of an include in a section of a kind.
#[derive(Clone, Copy)]
pub(crate) struct Included<'t> {
    pub(crate) kind: Kind,
    pub(crate) parts: &'t [Part<'t>],
}

/// Says which file isn't handed in.
pub(crate) fn write_file_missing(
    out: &mut String,
    alloc: Global,
    trees: &Trees,
    included: Included,
) -> Result<(), AllocError> {
    let kind = included.kind;
    for part in included.parts {
        if trees.file_named(alloc, kind, part.file())?.is_some() {
            continue;
        }
        let file = quoted(part.file());
        write!(out, "no file {file} is handed in")?;
        let folder = kind.word();
        return match str::from_utf8(part.file()) {
            Ok(name) if !name.contains('=') => write!(
                out,
                ": add {name}=PATH, or -I DIR where DIR/{folder}/{name} is"
            ),
            Ok(_) => out.push_str("; a group stands behind ':', as us:2"),
            Err(_) => Ok(()),
        };
    }
    Ok(())
}

fn write_map_name(out: &mut String, section: &Section) -> Result<(), AllocError> {
    match &section.name {
        Some(name) => {
            let name = quoted(name.bytes.as_slice());
            write!(out, "{name}")
        }
        None => out.push_str("one without a name"),
    }
}

/// Lists the names of the sections of a kind, where there are some, after `before`; answers whether there are.
fn write_maps_of(
    out: &mut String,
    sections: &[Section],
    kind: Kind,
    before: &str,
) -> Result<bool, AllocError> {
    let mut count: usize = 0;
    for section in sections.iter().filter(|section| section.kind == kind) {
        if count == 0 {
            let word = kind.word();
            write!(out, "{before}{word} ")?;
        } else if count <= MOST_LISTED {
            out.push_str(", ")?;
        }
        if count < MOST_LISTED {
            write_map_name(out, section)?;
        } else if count == MOST_LISTED {
            out.push_str("and more")?;
        }
        count = count.saturating_add(1);
    }
    Ok(count > 0)
}

/// Lists the maps of a file by kind.
fn write_maps(out: &mut String, sections: &[Section]) -> Result<(), AllocError> {
    let mut before = ": it has ";
    for kind in KINDS {
        if write_maps_of(out, sections, kind, before)? {
            before = "; ";
        }
    }
    Ok(())
}

/// Says which map a file doesn't have, and which it has.
pub(crate) fn write_map_missing(
    out: &mut String,
    alloc: Global,
    trees: &Trees,
    included: Included,
) -> Result<(), AllocError> {
    let kind = included.kind;
    for part in included.parts {
        let Some(file) = trees.file_named(alloc, kind, part.file())? else {
            continue;
        };
        if trees.map_named(file, kind, part.map()).is_some() {
            continue;
        }
        let name = quoted(part.file());
        let word = kind.word();
        write!(out, "the file {name} has no {word}")?;
        if let Some(map) = part.map() {
            let map = quoted(map);
            write!(out, " {map}")?;
        }
        return write_maps(out, trees.sections_in(file));
    }
    Ok(())
}

/// Whether a part of an include leads back to the map in which a place stands.
fn leads_back(
    alloc: Global,
    trees: &Trees,
    kind: Kind,
    part: &Part,
    at: At,
) -> Result<bool, AllocError> {
    let Some(place) = place_named(alloc, trees, kind, part)? else {
        return Ok(false);
    };
    let start = Reached {
        place,
        origin: None,
    };
    let onward = reached_from(alloc, trees, &[start])?;
    Ok(onward.iter().any(|map| is_in(trees, map, at)))
}

/// The text of the include by which the map in which a place stands leads back to itself.
fn text_leading_back(alloc: Global, trees: &Trees, at: At) -> Result<Option<&[u8]>, AllocError> {
    let sections = trees.sections_in(at.file);
    let Some(section) = sections.iter().position(|section| holds(section, at.span)) else {
        return Ok(None);
    };
    let file = at.file;
    let place = Place { file, section };
    let start = Reached {
        place,
        origin: None,
    };
    let onward = reached_from(alloc, trees, &[start])?;
    for map in onward.iter() {
        if let Some(origin) = map.origin
            && map.place == place
            && let Some((_, text)) = include_at(trees, origin.text)
        {
            return Ok(Some(text));
        }
    }
    Ok(None)
}

/// Says which file is included too deep.
pub(crate) fn write_too_deep(
    out: &mut String,
    alloc: Global,
    trees: &Trees,
    included: Included,
    at: At,
) -> Result<(), AllocError> {
    let Some(part) = included.parts.first() else {
        return Ok(());
    };
    let name = quoted(part.file());
    if leads_back(alloc, trees, included.kind, part, at)? {
        return write!(
            out,
            "{name} leads back to this include, so that includes go more than 16 deep"
        );
    }
    write!(out, "{name} is included more than 16 deep")?;
    match text_leading_back(alloc, trees, at)? {
        Some(text) => {
            let text = quoted(text);
            write!(
                out,
                ", since {text} leads back to the map in which it stands"
            )
        }
        None => Ok(()),
    }
}
