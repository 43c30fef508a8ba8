//! Interpretations, and which one is chosen.
use crate::case::Case;
use crate::sources::{bodies_of, library_of, modifiers_of};
use crate::trouble::Trouble;
use ks_core::Notes;
use kx_actions::KeyAction;
use kx_compat::{Interpretation, Interpretations, WantedKeysym, interpretations};
use kx_lex::Fault;
use kx_mods::Mods;
use std::alloc::Global;
use std::fmt::Write;

/// The interpretations of a source, and what is noted.
pub fn interpretations_in(
    alloc: Global,
    case: &Case,
) -> Result<(Box<Interpretations>, Notes), Fault> {
    let library = library_of(alloc, case)?;
    let bodies = bodies_of(alloc, &library)?;
    let modifiers = modifiers_of(alloc, &bodies)?;
    let (found, notes) = interpretations(alloc, &bodies.compat, &modifiers, &case.names)?;
    Ok((Box::new(alloc, found)?, notes))
}

/// A word for an action; with a `!` where it sets modifiers and clears locks.
fn action_word(action: Option<KeyAction>) -> &'static str {
    match action {
        None => "-",
        Some(KeyAction::NoAction) => "no",
        Some(KeyAction::Other) => "other",
        Some(KeyAction::SetMods { clear_locks, .. }) => { if clear_locks { "set!" } else { "set" } }
        Some(KeyAction::LatchMods { .. }) => "latch",
        Some(KeyAction::LockMods { .. }) => "lock",
        Some(KeyAction::SetGroup { .. }) => "setgroup",
        Some(KeyAction::LatchGroup { .. }) => "latchgroup",
        Some(KeyAction::LockGroup { .. }) => "lockgroup",
    }
}

fn push_keysym(all: &mut String, keysym: WantedKeysym) -> Result<(), Trouble> {
    match keysym {
        WantedKeysym::Any => write!(all, "*")?,
        WantedKeysym::Named(number) => write!(all, "{number:x}")?,
    }
    Ok(())
}

/// Puts the keysym, condition and mask, the action, the virtual modifier and whether it is for the first level alone.
fn push_shown(all: &mut String, one: &Interpretation) -> Result<(), Trouble> {
    let interpretation_match = one.interpretation_match();
    push_keysym(all, interpretation_match.keysym)?;
    let condition = interpretation_match.condition;
    let mask = interpretation_match.mods().mask();
    let action = action_word(one.action());
    write!(all, " {condition:?} {mask} {action}")?;
    if let Some(number) = one.modifier() {
        write!(all, " V{number}")?;
    }
    if one.first_level_only() {
        write!(all, " first")?;
    }
    write!(all, ";")?;
    Ok(())
}

/// Each interpretation, with a semicolon after it.
pub fn shown(alloc: Global, case: &Case) -> Result<String, Trouble> {
    let (found, _notes) = interpretations_in(alloc, case)?;
    let mut all = String::new(alloc);
    for one in found.as_slice() {
        push_shown(&mut all, one)?;
    }
    Ok(all)
}

/// The action of the interpretation that is chosen for a keysym in hexadecimal, at the `first` level or another, on a key with
/// these modifiers: what stands before the colon, parted by blanks.
pub fn chosen(alloc: Global, case: &Case, wanted: &str) -> Result<String, Trouble> {
    let (asked, _action) = wanted.split_once(":").unwrap_or((wanted, ""));
    let mut words = asked.split(' ');
    let keysym = words.next().unwrap_or("");
    let keysym = u32::from_str_radix(keysym, 16).unwrap_or(0);
    let is_first = words.next() == Some("first");
    let modmap = words.next().unwrap_or("").parse::<u8>().unwrap_or(0);
    let (found, _notes) = interpretations_in(alloc, case)?;
    let word = match found.choose(keysym, is_first, Mods::from_mask(modmap)) {
        None => "none",
        Some(one) => action_word(one.action()),
    };
    Ok(format!(in alloc; "{asked}: {word}")?)
}
