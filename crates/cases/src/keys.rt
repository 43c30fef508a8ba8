//! What statements of symbols say of the key of the code 38.
use crate::case::Case;
use crate::settings;
use crate::sources::{bodies_of, codes_of, library_of, modifiers_of};
use crate::trouble::Trouble;
use ks_core::{NameTable, Notes};
use kx_actions::KeyAction;
use kx_codes::Codes;
use kx_include::Bodies;
use kx_lex::Fault;
use kx_symbols::{KeyRecord, Keys, symbols};
use kx_tables::GroupChange;
use kx_virtual_mods::ModNames;
use std::alloc::Global;
use std::fmt::Write;

fn keys_over(
    alloc: Global,
    bodies: &Bodies,
    codes: &Codes,
    names: &NameTable,
    modifiers: &ModNames,
) -> Result<(Box<Keys>, Notes), Fault> {
    let (keys, notes) = symbols(alloc, &bodies.symbols, codes, names, modifiers)?;
    Ok((Box::new(alloc, keys)?, notes))
}

/// The keys of a source, and what is noted.
pub fn keys_in(alloc: Global, case: &Case) -> Result<(Box<Keys>, Notes), Fault> {
    let library = library_of(alloc, case)?;
    let bodies = bodies_of(alloc, &library)?;
    let codes = codes_of(alloc, &bodies)?;
    let modifiers = modifiers_of(alloc, &bodies)?;
    keys_over(alloc, &bodies, &codes, &case.names, &modifiers)
}

/// Puts the keysyms of a level in hexadecimal, joined by `+`; `-` where there are none.
fn push_keysyms(
    all: &mut String,
    key: &KeyRecord,
    group: usize,
    level: usize,
) -> Result<(), Trouble> {
    let Some(keysyms) = key.keysyms(group, level) else {
        all.push_str("-")?;
        return Ok(());
    };
    for (place, keysym) in keysyms.as_slice().iter().enumerate() {
        let mark = if place > 0 { "+" } else { "" };
        write!(all, "{mark}{keysym:x}")?;
    }
    Ok(())
}

/// Puts a word for an action: of one that locks a group that group, counted from 0 or from the one that is locked; of one that
/// sets a group whether it clears locks.
fn push_action(all: &mut String, action: KeyAction) -> Result<(), Trouble> {
    match action {
        KeyAction::Other => all.push_str("other")?,
        KeyAction::LockGroup { group } => match group.change() {
            GroupChange::Absolute(group) => write!(all, "{group}")?,
            GroupChange::Relative(groups) => write!(all, "{groups:+}")?,
        },
        KeyAction::SetGroup { clear_locks, .. } => write!(all, "{clear_locks}")?,
        _ => all.push_str("more")?,
    }
    Ok(())
}

/// Puts the first keysym of a level, and its action after a colon; `-` where there is neither.
fn push_level(
    all: &mut String,
    key: &KeyRecord,
    group: usize,
    level: usize,
) -> Result<(), Trouble> {
    let first = match key.keysyms(group, level) {
        Some(keysyms) => keysyms.as_slice().first().copied(),
        None => None,
    };
    if let Some(keysym) = first {
        write!(all, "{keysym:x}")?;
    }
    match key.action(group, level) {
        Some(action) => {
            all.push_str(":")?;
            push_action(all, action)?;
        }
        None if first.is_none() => all.push_str("-")?,
        None => {}
    }
    Ok(())
}

/// The levels of a key, parted by blanks, and its groups, parted by `/`.
fn levels_of(alloc: Global, key: &KeyRecord, with_actions: bool) -> Result<String, Trouble> {
    let mut all = String::new(alloc);
    for group in 0..key.group_count() {
        if group > 0 {
            all.push_str("/")?;
        }
        for level in 0..key.width(group) {
            if level > 0 {
                all.push_str(" ")?;
            }
            if with_actions {
                push_level(&mut all, key, group, level)?;
            } else {
                push_keysyms(&mut all, key, group, level)?;
            }
        }
    }
    Ok(all)
}

/// The keysyms of the key.
pub fn keysyms(alloc: Global, case: &Case) -> Result<String, Trouble> {
    match keys_in(alloc, case)?.0.key(38) {
        Some(key) => levels_of(alloc, key, false),
        None => Ok(String::new(alloc)),
    }
}

/// The first keysyms and the actions of the key.
pub fn actions(alloc: Global, case: &Case) -> Result<String, Trouble> {
    match keys_in(alloc, case)?.0.key(38) {
        Some(key) => levels_of(alloc, key, true),
        None => Ok(String::new(alloc)),
    }
}

/// Whether the key has an action.
pub fn has_action(alloc: Global, case: &Case) -> Result<String, Trouble> {
    let has_action = match keys_in(alloc, case)?.0.key(38) {
        Some(key) => key.has_action(),
        None => false,
    };
    Ok(format!(in alloc; "{has_action}")?)
}

/// What is said of the key besides its lists.
pub fn settings(alloc: Global, case: &Case) -> Result<String, Trouble> {
    match keys_in(alloc, case)?.0.key(38) {
        Some(key) => settings::text(alloc, key.settings()),
        None => Ok(String::new(alloc)),
    }
}
