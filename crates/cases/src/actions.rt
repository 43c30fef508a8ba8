//! Actions as calls.
use crate::case::Case;
use crate::sources::{bodies_of, library_of, modifiers_of};
use crate::trouble::Trouble;
use kx_actions::{ActionDefaults, KeyAction, read, real_action};
use kx_include::Place;
use kx_lex::Fault;
use kx_mods::Mods;
use kx_parse::{Call, Field, Item, Setting, Stated, Statement, Value};
use kx_virtual_mods::ModNames;
use std::alloc::Global;

const SYMBOLS: Place = Place {
    file: 0,
    section: 1,
};

/// The call that a field is set to.
fn call_in(field: &Field) -> Option<&Call> {
    match &field.setting {
        Setting::To(Value::Call(call)) => Some(call),
        _ => None,
    }
}

/// The defaults and the action after a field: one without a call is a default.
fn after(
    names: &ModNames,
    field: &Field,
    defaults: ActionDefaults,
    action: KeyAction,
) -> Result<(ActionDefaults, KeyAction), Fault> {
    match call_in(field) {
        Some(call) => Ok((defaults, read(names, 0, call, &defaults)?)),
        None => Ok((defaults.after(names, 0, field)?, action)),
    }
}

/// The action of the last call among some items.
fn last_action(names: &ModNames, items: &[Item]) -> Result<KeyAction, Fault> {
    let mut so_far = (ActionDefaults::none(), KeyAction::NoAction);
    for item in items {
        if let Item::Statement(
            Stated {
                statement: Statement::Field(field),
                ..
            },
        ) = item
        {
            so_far = after(names, field.get(), so_far.0, so_far.1)?;
        }
    }
    Ok(so_far.1)
}

/// The action of the last call in the second section.
fn action_in(alloc: Global, case: &Case) -> Result<KeyAction, Fault> {
    let library = library_of(alloc, case)?;
    let bodies = bodies_of(alloc, &library)?;
    let names = modifiers_of(alloc, &bodies)?;
    last_action(&names, library.items_in(SYMBOLS))
}

/// What that action does on a key that is mapped to Mod5, where the virtual modifier stands for Mod4.
pub fn shown(alloc: Global, case: &Case) -> Result<String, Trouble> {
    match action_in(alloc, case) {
        Ok(action) => {
            let row = real_action(action, Mods::MOD5, [Mods::MOD4].as_slice());
            Ok(format!(in alloc; "{row:?}")?)
        }
        Err(fault) => Err(Trouble::Fault(fault)),
    }
}
