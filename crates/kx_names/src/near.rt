//! Names of a list that a word is near to.
use crate::list::{Entry, Kind};
use std::alloc::{AllocError, Global};
use strsim::levenshtein;

/// No longer word is compared.
const MOST_COMPARED: usize = 64;

/// How many letters two words may be apart: of short words fewer, so that one isn't taken for any other.
fn most_apart(word: &str) -> usize {
    match word.len() {
        0 | 1 => 0,
        2..=4 => 1,
        _ => 2,
    }
}

/// How many letters a name is apart from a word; nothing where it isn't near.
fn letters_apart(alloc: Global, word: &str, name: &str) -> Result<Option<usize>, AllocError> {
    if word.eq_ignore_ascii_case(name) {
        return Ok(Some(0));
    }
    let most = most_apart(word);
    if word.len().abs_diff(name.len()) > most {
        return Ok(None);
    }
    let count = levenshtein(alloc, word, name)?;
    Ok(Some(count).filter(|count| *count <= most))
}

/// How far a name is from a word: by the letters that differ, and with equally many by whether the first one does.
fn distance(word: &str, name: &str, letters: usize) -> usize {
    let is_other = word.as_bytes().first() != name.as_bytes().first();
    letters
        .saturating_mul(2)
        .saturating_add(usize::from(is_other))
}

/// Whether a name is of a kind, and where a layout is given one of its variants.
pub(crate) fn is_of(entry: Entry, kind: Kind, layout: Option<&str>) -> bool {
    entry.kind == kind && (layout.is_none() || entry.layout() == layout)
}

/// The name of a kind that a word is nearest to, and of several the first.
///
/// # Errors
/// Where a growth is refused.
pub(crate) fn nearest<'a>(
    alloc: Global,
    entries: &[Entry<'a>],
    kind: Kind,
    layout: Option<&str>,
    word: &str,
) -> Result<Option<&'a str>, AllocError> {
    let mut found = None;
    let mut least = usize::MAX;
    if word.len() > MOST_COMPARED {
        return Ok(None);
    }
    for entry in entries {
        if is_of(*entry, kind, layout) {
            if let Some(letters) = letters_apart(alloc, word, entry.name)? {
                let distance = distance(word, entry.name, letters);
                if distance < least {
                    least = distance;
                    found = Some(entry.name);
                }
            }
        }
    }
    Ok(found)
}
