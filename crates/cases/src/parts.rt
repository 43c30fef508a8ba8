//! The words by which cases ask for the parts of compiling.
use crate::case::Case;
use crate::trouble::Trouble;
use crate::{
    actions, codes, indicators, interpretations, key_types, keys, modifiers, names, notes,
    settings, symbols, texts, values,
};
use std::alloc::Global;

/// What a text is read as.
fn of_text(alloc: Global, case: &Case, word: &str) -> Result<Option<String>, Trouble> {
    let text = case.source.as_slice();
    let found = match word {
        "tokens" => texts::tokens_of(alloc, text)?,
        "stands-for" => texts::bytes_of(alloc, text)?,
        "tree" => texts::tree_shown(alloc, text)?,
        "file-tree" => texts::file_tree_shown(alloc, text)?,
        "includes" => texts::includes_shown(alloc, case)?,
        "parts" => texts::parts_shown(alloc, text)?,
        "keysym" => names::keysym_of(alloc, case)?,
        "named" => names::name_of(alloc, case)?,
        "names-are" => names::names_shown(alloc, case)?,
        _ => return Ok(None),
    };
    Ok(Some(found))
}

/// What the statements of keycodes, types and compat give.
fn of_sections(
    alloc: Global,
    case: &Case,
    word: &str,
    wanted: &str,
) -> Result<Option<String>, Trouble> {
    let found = match word {
        "codes" => codes::shown(alloc, case)?,
        "codes-end" => codes::end(alloc, case)?,
        "virtual-modifiers" => modifiers::declared(alloc, case)?,
        "set" => modifiers::set(alloc, case)?,
        "types" => key_types::names(alloc, case)?,
        "type" => key_types::shown(alloc, case)?,
        "rows" => key_types::rows(alloc, case, wanted)?,
        "interpretations" => interpretations::shown(alloc, case)?,
        "chosen" => interpretations::chosen(alloc, case, wanted)?,
        "indicators" => indicators::shown(alloc, case)?,
        "indicator-count" => indicators::count(alloc, case)?,
        _ => return Ok(None),
    };
    Ok(Some(found))
}

/// What the statements of symbols give.
fn of_symbols(
    alloc: Global,
    case: &Case,
    word: &str,
    wanted: &str,
) -> Result<Option<String>, Trouble> {
    let found = match word {
        "keysyms" => keys::keysyms(alloc, case)?,
        "actions" => keys::actions(alloc, case)?,
        "has-action" => keys::has_action(alloc, case)?,
        "settings" => keys::settings(alloc, case)?,
        "said" => settings::said(alloc, case)?,
        "action" => actions::shown(alloc, case)?,
        "value" => values::shown(alloc, case)?,
        "group-names" => symbols::group_names_shown(alloc, case)?,
        "modifier-maps" => symbols::modifier_maps_shown(alloc, case)?,
        "notes-of" => notes::shown(alloc, case, wanted)?,
        _ => return Ok(None),
    };
    Ok(Some(found))
}

/// What a line's word asks of a part of compiling; nothing where it is no word of one.
pub fn shown(
    alloc: Global,
    case: &Case,
    word: &str,
    wanted: &str,
) -> Result<Option<String>, Trouble> {
    if let Some(found) = of_text(alloc, case, word)? {
        return Ok(Some(found));
    }
    if let Some(found) = of_sections(alloc, case, word, wanted)? {
        return Ok(Some(found));
    }
    of_symbols(alloc, case, word, wanted)
}
