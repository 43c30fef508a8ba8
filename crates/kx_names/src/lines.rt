//! The list of names as lines.
use crate::fault::NamesFault;
use crate::list::{Entry, Kind, entries_in, read_list};
use kx_reach::Folder;
use std::alloc::{AllocError, Global};
use std::rt::Files;

/// A column has at most so many characters, but for a longer name in it.
const WIDEST: usize = 32;

/// The names that are asked for: those of a kind or all, whose name or description has a word.
#[derive(Clone, Copy)]
pub struct Wanted<'a> {
    pub kind: Option<Kind>,
    pub word: Option<&'a str>,
}

/// Whether a text has a word, which is in small letters, in capital letters or small.
fn has_word(alloc: Global, text: &str, word: &str) -> Result<bool, AllocError> {
    let small = text.to_ascii_lowercase(alloc)?;
    Ok(small.as_str().contains(word))
}

fn is_wanted(
    alloc: Global,
    entry: Entry,
    kind: Option<Kind>,
    word: &str,
) -> Result<bool, AllocError> {
    if kind.is_some_and(|kind| kind != entry.kind) {
        return Ok(false);
    }
    Ok(has_word(alloc, entry.name, word)? || has_word(alloc, entry.description, word)?)
}

fn wanted_among<'a>(
    alloc: Global,
    entries: &[Entry<'a>],
    wanted: Wanted,
) -> Result<Vec<Entry<'a>>, AllocError> {
    let word = wanted.word.unwrap_or("").to_ascii_lowercase(alloc)?;
    let mut found = Vec::new(alloc);
    for entry in entries {
        if is_wanted(alloc, *entry, wanted.kind, word.as_str())? {
            found.push(*entry)?;
        }
    }
    Ok(found)
}

/// Adds a word in a column of a width, and two blanks.
fn add_column(lines: &mut String, word: &str, width: usize) -> Result<(), AllocError> {
    lines.push_str(word)?;
    for _ in word.chars().count()..width.saturating_add(2) {
        lines.push(' ')?;
    }
    Ok(())
}

/// How wide the column of names is.
fn width_of(entries: &[Entry]) -> usize {
    let mut width = 0;
    for entry in entries {
        width = width.max(entry.name.chars().count());
    }
    width.min(WIDEST)
}

fn write_lines(alloc: Global, entries: &[Entry], has_kinds: bool) -> Result<String, AllocError> {
    let width = width_of(entries);
    let mut lines = String::new(alloc);
    for entry in entries {
        if has_kinds {
            add_column(&mut lines, entry.kind.word(), "variant".len())?;
        }
        add_column(&mut lines, entry.name, width)?;
        lines.push_str(entry.description)?;
        lines.push('\n')?;
    }
    Ok(lines)
}

/// The names that are asked for among those that are listed for rules, a line each with its description; before it the kind,
/// where all kinds are asked for.
///
/// # Errors
/// Where there is no list for the rules, it can't be read, or no memory is left.
pub fn list_lines(
    rt: &(impl Files + AllocGlobal),
    folders: &[Folder],
    rules: &str,
    wanted: Wanted,
) -> Result<String, NamesFault> {
    let text = read_list(rt, folders, rules)?;
    let entries = entries_in(rt.alloc(), text.as_str())?;
    let found = wanted_among(rt.alloc(), entries.as_slice(), wanted)?;
    let has_kinds = wanted.kind.is_none();
    Ok(write_lines(rt.alloc(), found.as_slice(), has_kinds)?)
}
