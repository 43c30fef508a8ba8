//! Names of groups, and modifier maps.
use crate::case::Case;
use crate::sources::{bodies_of, codes_of, library_of, modifiers_of, text_of};
use crate::trouble::Trouble;
use ks_core::{NameTable, Notes};
use kx_codes::Codes;
use kx_group_names::{GroupNames, group_names};
use kx_include::Bodies;
use kx_lex::Fault;
use kx_modmaps::{ModifierMaps, modifier_maps};
use kx_virtual_mods::ModNames;
use std::alloc::Global;
use std::fmt::Write;

fn group_names_in(alloc: Global, case: &Case) -> Result<Box<GroupNames>, Fault> {
    let library = library_of(alloc, case)?;
    let bodies = bodies_of(alloc, &library)?;
    Ok(Box::new(alloc, group_names(alloc, &bodies.symbols)?)?)
}

/// The names of groups, joined by `/`.
pub fn group_names_shown(alloc: Global, case: &Case) -> Result<String, Trouble> {
    let names = group_names_in(alloc, case)?;
    let mut all = String::new(alloc);
    for group in 0..names.len() {
        let mark = if group > 0 { "/" } else { "" };
        let name = text_of(names.name(group));
        write!(all, "{mark}{name}")?;
    }
    Ok(all)
}

fn maps_over(
    alloc: Global,
    bodies: &Bodies,
    codes: &Codes,
    names: &NameTable,
    modifiers: &ModNames,
) -> Result<(Box<ModifierMaps>, Notes), Fault> {
    let (maps, notes) = modifier_maps(alloc, &bodies.symbols, codes, names, modifiers)?;
    Ok((Box::new(alloc, maps)?, notes))
}

/// The modifier maps of a source, and what is noted.
pub fn maps_in(alloc: Global, case: &Case) -> Result<(Box<ModifierMaps>, Notes), Fault> {
    let library = library_of(alloc, case)?;
    let bodies = bodies_of(alloc, &library)?;
    let codes = codes_of(alloc, &bodies)?;
    let modifiers = modifiers_of(alloc, &bodies)?;
    maps_over(alloc, &bodies, &codes, &case.names, &modifiers)
}

/// The masks of the codes 38 and 39, and each keysym in hexadecimal with its mask.
pub fn modifier_maps_shown(alloc: Global, case: &Case) -> Result<String, Trouble> {
    let (maps, _notes) = maps_in(alloc, case)?;
    let mut all = String::new(alloc);
    let a = maps.key(38).mask();
    let b = maps.key(39).mask();
    write!(all, "{a}/{b}")?;
    for entry in maps.keysyms() {
        let keysym = entry.keysym;
        let mask = entry.modifier.mask();
        write!(all, " {keysym:x}={mask}")?;
    }
    Ok(all)
}
