//! Key types, and their rows.
use crate::case::Case;
use crate::sources::{bodies_of, library_of, modifiers_of, text_of};
use crate::trouble::Trouble;
use kx_lex::Fault;
use kx_mods::Mods;
use kx_resolve::TypeRows;
use kx_types::{KeyType, Types, types};
use std::alloc::Global;
use std::fmt::Write;

fn types_in(alloc: Global, case: &Case) -> Result<Box<Types>, Fault> {
    let library = library_of(alloc, case)?;
    let bodies = bodies_of(alloc, &library)?;
    let modifiers = modifiers_of(alloc, &bodies)?;
    Ok(Box::new(alloc, types(alloc, &bodies.types, &modifiers)?)?)
}

/// The names of the types in order, each with a blank after it.
pub fn names(alloc: Global, case: &Case) -> Result<String, Trouble> {
    let found = types_in(alloc, case)?;
    let mut all = String::new(alloc);
    for number in 0..found.len() {
        if let Some((name, _definition)) = found.at(number) {
            let name = text_of(name);
            let place = found.index_of(name.as_bytes()).unwrap_or(0);
            write!(all, "{place}:{name} ")?;
        }
    }
    Ok(all)
}

/// A type's modifiers and levels, and each entry as its mask, level and preserved modifiers; sets in hexadecimal.
fn text(alloc: Global, key_type: &KeyType) -> Result<String, Trouble> {
    let mut all = String::new(alloc);
    let levels = key_type.levels();
    let modifiers = key_type.modifiers().bits();
    write!(all, "{modifiers:x} {levels}")?;
    for entry in key_type.entries() {
        let mask = entry.mask.bits();
        let level = entry.level;
        let preserve = entry.preserve.bits();
        write!(all, " {mask:x}={level}/{preserve:x}")?;
    }
    Ok(all)
}

/// The type T.
pub fn shown(alloc: Global, case: &Case) -> Result<String, Trouble> {
    match types_in(alloc, case)?.named(b"T") {
        Some(key_type) => text(alloc, key_type),
        None => Ok(String::from_str(alloc, "none")?),
    }
}

/// The rows of a type, where the first virtual modifier stands for a mask and the second for nothing: the type's mask, and each
/// row's mask, level and preserved mask; masks in hexadecimal.
fn rows_text(alloc: Global, key_type: &KeyType, first: u8) -> Result<String, Trouble> {
    let stands = [Mods::from_mask(first), Mods::NONE];
    let rows = TypeRows::of(alloc, key_type, &stands)?;
    let mut all = String::new(alloc);
    let mods = rows.mods.mask();
    write!(all, "{first}: {mods:x}")?;
    for row in rows.entries.as_slice() {
        let mask = row.mods.mask();
        let level = row.level;
        let preserve = row.preserve.mask();
        write!(all, " {mask:x}={level}/{preserve:x}")?;
    }
    Ok(all)
}

/// The rows of the type T, where the first virtual modifier stands for the mask before the colon.
pub fn rows(alloc: Global, case: &Case, wanted: &str) -> Result<String, Trouble> {
    let (mask, _rows) = wanted.split_once(":").unwrap_or(("0", ""));
    let mask = mask.parse::<u8>().unwrap_or(0);
    match types_in(alloc, case)?.named(b"T") {
        Some(key_type) => rows_text(alloc, key_type, mask),
        None => Ok(String::from_str(alloc, "none")?),
    }
}
