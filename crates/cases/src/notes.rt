//! What is passed over, by the family of statements that notes it.
use crate::case::Case;
use crate::interpretations::interpretations_in;
use crate::keys::keys_in;
use crate::symbols::maps_in;
use crate::trouble::Trouble;
use ks_core::Notes;
use kx_lex::Fault;
use std::alloc::Global;

fn notes_of(alloc: Global, case: &Case, family: &str) -> Result<Notes, Fault> {
    match family {
        "keys" => Ok(keys_in(alloc, case)?.1),
        "interpretations" => Ok(interpretations_in(alloc, case)?.1),
        _ => Ok(maps_in(alloc, case)?.1),
    }
}

/// What statements of keys, of interpretations or of modifier maps note: keysyms, keys, types, levels and actions. The family
/// stands before the colon.
pub fn shown(alloc: Global, case: &Case, wanted: &str) -> Result<String, Trouble> {
    let (family, _counts) = wanted.split_once(":").unwrap_or((wanted, ""));
    let Notes {
        keysyms,
        keys,
        types,
        levels,
        actions,
    } = notes_of(alloc, case, family)?;
    Ok(format!(in alloc; "{family}: {keysyms} {keys} {types} {levels} {actions}")?)
}
