//! Virtual modifiers, and sets that masks name.
use crate::case::Case;
use crate::sources::{bodies_of, library_of, modifiers_of, text_of, tree_of};
use crate::trouble::Trouble;
use kx_lex::Fault;
use kx_parse::{Expression, Item, Setting, Stated, Statement, Value};
use kx_virtual_mods::{MOST_VIRTUAL_MODIFIERS, ModNames};
use std::alloc::Global;
use std::fmt::Write;

fn names_in(alloc: Global, case: &Case) -> Result<Box<ModNames>, Fault> {
    let library = library_of(alloc, case)?;
    let bodies = bodies_of(alloc, &library)?;
    modifiers_of(alloc, &bodies)
}

/// The virtual modifiers with their declared masks, as `A=1`, each with a blank after it.
pub fn declared(alloc: Global, case: &Case) -> Result<String, Trouble> {
    let names = names_in(alloc, case)?;
    let mut all = String::new(alloc);
    for number in 0..MOST_VIRTUAL_MODIFIERS {
        if let Some(name) = names.name(number) {
            let name = text_of(name);
            let mask = names.declared_mask(number).mask();
            write!(all, "{name}={mask} ")?;
        }
    }
    Ok(all)
}

/// The expression that an item sets a field to.
fn field_value(item: &Item) -> Option<&Expression> {
    let Item::Statement(
        Stated {
            statement: Statement::Field(field),
            ..
        },
    ) = item
    else {
        return None;
    };
    match &field.get().setting {
        Setting::To(Value::Expression(expression)) => Some(expression),
        _ => None,
    }
}

/// The set that the first field of some items names, as bits.
fn set_in(names: &ModNames, items: &[Item]) -> Result<u32, Fault> {
    for item in items {
        if let Some(expression) = field_value(item) {
            return Ok(names.mask_of(0, expression)?.bits());
        }
    }
    Ok(0)
}

/// The set that the first field of the last section names, as bits.
pub fn set(alloc: Global, case: &Case) -> Result<String, Trouble> {
    let names = names_in(alloc, case)?;
    let tree = tree_of(alloc, case.source.as_slice())?;
    let bits = match tree.sections.as_slice() {
        [.., last] => set_in(&names, last.items.as_slice())?,
        [] => 0,
    };
    Ok(bits.to_string(alloc)?)
}
