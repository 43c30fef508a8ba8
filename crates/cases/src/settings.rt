//! What fields say of a key besides its lists.
use crate::case::Case;
use crate::sources::{bodies_of, library_of, modifiers_of, text_of};
use crate::trouble::Trouble;
use kx_include::Place;
use kx_key_fields::{KeyAttributes, KeyDefaults, read_settings};
use kx_lex::Fault;
use kx_parse::{Item, Stated, Statement};
use kx_virtual_mods::ModNames;
use std::alloc::Global;
use std::fmt::Write;

const SYMBOLS: Place = Place {
    file: 0,
    section: 1,
};

/// Puts the types of groups, counted from 1, and the type of the key.
fn push_types(all: &mut String, settings: &KeyAttributes) -> Result<(), Trouble> {
    for group in 0..32usize {
        if let Some(name) = settings.group_type(group) {
            let number = group + 1;
            let name = text_of(name);
            write!(all, "{number}={name} ")?;
        }
    }
    if let Some(name) = settings.key_type() {
        let name = text_of(name);
        write!(all, "={name} ")?;
    }
    Ok(())
}

/// The types of groups and of the key, the virtual modifiers in hexadecimal, and the range.
pub fn text(alloc: Global, settings: &KeyAttributes) -> Result<String, Trouble> {
    let mut all = String::new(alloc);
    push_types(&mut all, settings)?;
    if let Some(set) = settings.virtual_mods() {
        let bits = set.bits();
        write!(all, ":{bits:x} ")?;
    }
    if let Some(range) = settings.range() {
        write!(all, "{range:?}")?;
    }
    Ok(all)
}

/// Joins what a key statement says to the settings.
fn join_said(
    alloc: Global,
    names: &ModNames,
    item: &Item,
    defaults: &KeyDefaults,
    settings: &mut KeyAttributes,
) -> Result<(), Fault> {
    if let Item::Statement(
        Stated {
            mode,
            statement: Statement::Key { fields, .. },
            ..
        },
    ) = item
    {
        let said = read_settings(alloc, names, 0, fields.as_slice(), defaults)?;
        settings.merge(said, *mode)?;
    }
    Ok(())
}

/// The defaults after an item.
fn defaults_after(
    alloc: Global,
    names: &ModNames,
    item: &Item,
    defaults: KeyDefaults,
) -> Result<KeyDefaults, Fault> {
    match item {
        Item::Statement(
            Stated {
                statement: Statement::Field(field),
                ..
            },
        ) => { defaults.after(alloc, names, 0, field.get()) }
        _ => Ok(defaults),
    }
}

/// What all key statements among items say, as if they were of one key.
fn said_by(alloc: Global, names: &ModNames, items: &[Item]) -> Result<KeyAttributes, Fault> {
    let mut settings = KeyAttributes::none(alloc);
    let mut defaults = KeyDefaults::none(alloc);
    for item in items {
        join_said(alloc, names, item, &defaults, &mut settings)?;
        defaults = defaults_after(alloc, names, item, defaults)?;
    }
    Ok(settings)
}

fn settings_in(alloc: Global, case: &Case) -> Result<Box<KeyAttributes>, Fault> {
    let library = library_of(alloc, case)?;
    let bodies = bodies_of(alloc, &library)?;
    let names = modifiers_of(alloc, &bodies)?;
    Ok(Box::new(alloc, said_by(alloc, &names, library.items_in(SYMBOLS))?)?)
}

/// What the key statements of the second section say, as if they were of one key.
pub fn said(alloc: Global, case: &Case) -> Result<String, Trouble> {
    let settings = settings_in(alloc, case)?;
    text(alloc, &settings)
}
