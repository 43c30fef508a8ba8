//! What is said of names that no rule takes, and of those that aren't listed.
use crate::asked::Asked;
use crate::fault::NamesFault;
use crate::list::{Entry, Kind, entries_in, read_list};
use crate::near::{is_of, nearest};
use kx_explain::quoted;
use kx_reach::Folder;
use kx_rules::{Passed, Reason};
use std::alloc::{AllocError, Global};
use std::fmt::Write;
use std::rt::Files;

/// So many of a kind are shown.
const MOST_SHOWN: usize = 20;

/// So many layouts a keymap may have by rules.
const MOST_LAYOUTS: usize = 4;

/// The list of names, as far as there is one.
fn list_or_none(
    rt: &(impl Files + AllocGlobal),
    folders: &[Folder],
    rules: &str,
) -> Result<String, AllocError> {
    match read_list(rt, folders, rules) {
        Ok(text) => Ok(text),
        Err(NamesFault::Memory) => Err(AllocError),
        Err(_) => Ok(String::new(rt.alloc())),
    }
}

/// Ends a line with the name that a word is near to, where there is one.
fn add_near(
    alloc: Global,
    lines: &mut String,
    entries: &[Entry],
    kind: Kind,
    word: &str,
) -> Result<(), AllocError> {
    match nearest(alloc, entries, kind, None, word)? {
        Some(near) if near != word => writeln!(lines, "; '{near}' is listed"),
        _ => lines.push_str("\n"),
    }
}

/// Adds a line for a word that no rule takes.
fn add_word(
    alloc: Global,
    lines: &mut String,
    entries: &[Entry],
    kind: Kind,
    word: &str,
) -> Result<(), AllocError> {
    let one = kind.word();
    let shown = quoted(word.as_bytes());
    write!(lines, "warning: no rule takes the {one} {shown}")?;
    add_near(alloc, lines, entries, kind, word)
}

/// The item at a place, counted from 0, of those that commas part.
fn item_at(list: &str, place: usize) -> &str {
    match list.split(',').nth(place) {
        Some(item) => item.trim(),
        None => "",
    }
}

/// Says how many are not shown.
fn add_more(lines: &mut String, count: usize) -> Result<(), AllocError> {
    match count.checked_sub(MOST_SHOWN) {
        Some(more) if more > 0 => writeln!(lines, "and {more} more"),
        _ => Ok(()),
    }
}

/// The items of a list that no rule takes, by their places, counted from 0.
#[derive(Clone, Copy)]
struct Items<'l> {
    kind: Kind,
    list: &'l str,
    places: &'l [usize],
}

/// Adds a line for each item that no rule takes.
fn add_items(
    alloc: Global,
    lines: &mut String,
    entries: &[Entry],
    items: Items,
) -> Result<(), AllocError> {
    for place in items.places.iter().take(MOST_SHOWN) {
        let word = item_at(items.list, *place);
        add_word(alloc, lines, entries, items.kind, word)?;
    }
    add_more(lines, items.places.len())
}

fn add_options(
    alloc: Global,
    lines: &mut String,
    entries: &[Entry],
    options: &[Vec<u8>],
) -> Result<(), AllocError> {
    for option in options.iter().take(MOST_SHOWN) {
        let word = str::from_utf8(option.as_slice()).unwrap_or("");
        add_word(alloc, lines, entries, Kind::Choice, word)?;
    }
    add_more(lines, options.len())
}

/// Why a line of rules is passed over.
fn words_of(reason: Reason) -> &'static str {
    match reason {
        Reason::Mapping =>
            "a word of this mapping is unknown or stands twice: its rules are passed over",
        Reason::Rule => "this rule has not as many values as its mapping, and is passed over",
        Reason::Value => "a value of this rule has a faulty '%', and is passed over",
    }
}

/// The path or the include's text by which a text of the rules is called.
fn add_text(
    alloc: Global,
    lines: &mut String,
    rules: &str,
    texts: &[Vec<u8>],
    number: usize,
) -> Result<(), AllocError> {
    let place = number.checked_sub(1);
    match place.and_then(|place| texts.get(place)) {
        None => write!(lines, "rules/{rules}"),
        Some(text) => {
            let text = String::from_utf8_lossy(alloc, text.as_slice())?;
            lines.push_str(text.as_str())
        }
    }
}

fn add_lines(
    alloc: Global,
    lines: &mut String,
    rules: &str,
    passed: &Passed,
) -> Result<(), AllocError> {
    for line in passed.lines.iter().take(MOST_SHOWN) {
        let number = line.line;
        let words = words_of(line.reason);
        add_text(alloc, lines, rules, passed.texts.as_slice(), line.text)?;
        writeln!(lines, ":{number}: warning: {words}")?;
    }
    add_more(lines, passed.lines.len())
}

fn is_nothing(passed: &Passed) -> bool {
    !passed.model
        && passed.layouts.is_empty()
        && passed.variants.is_empty()
        && passed.options.is_empty()
        && passed.lines.is_empty()
}

fn write_warnings(
    alloc: Global,
    asked: &Asked,
    entries: &[Entry],
    passed: &Passed,
) -> Result<String, AllocError> {
    let mut lines = String::new(alloc);
    add_lines(alloc, &mut lines, asked.rules, passed)?;
    if passed.model {
        add_word(alloc, &mut lines, entries, Kind::Model, asked.model)?;
    }
    let layouts = Items {
        kind: Kind::Layout,
        list: asked.layouts,
        places: passed.layouts.as_slice(),
    };
    add_items(alloc, &mut lines, entries, layouts)?;
    let variants = Items {
        kind: Kind::Variant,
        list: asked.variants,
        places: passed.variants.as_slice(),
    };
    add_items(alloc, &mut lines, entries, variants)?;
    add_options(alloc, &mut lines, entries, passed.options.as_slice())?;
    Ok(lines)
}

/// Lines for the names that no rule takes, with near ones that are listed, and for lines of the rules that are passed over.
///
/// # Errors
/// Where a growth is refused.
pub fn warnings_of(
    rt: &(impl Files + AllocGlobal),
    folders: &[Folder],
    asked: &Asked,
    passed: &Passed,
) -> Result<String, AllocError> {
    if is_nothing(passed) {
        return Ok(String::new(rt.alloc()));
    }
    let text = list_or_none(rt, folders, asked.rules)?;
    let entries = entries_in(rt.alloc(), text.as_str())?;
    write_warnings(rt.alloc(), asked, entries.as_slice(), passed)
}

/// Whether a name is listed.
fn is_listed(entries: &[Entry], kind: Kind, layout: Option<&str>, word: &str) -> bool {
    entries
        .iter()
        .any(|entry| is_of(*entry, kind, layout) && entry.name == word)
}

/// Adds a line for a layout that isn't listed.
fn add_layout(
    alloc: Global,
    lines: &mut String,
    entries: &[Entry],
    layout: &str,
) -> Result<(), AllocError> {
    if layout.is_empty() || is_listed(entries, Kind::Layout, None, layout) {
        return Ok(());
    }
    let shown = quoted(layout.as_bytes());
    write!(lines, "no layout {shown} is listed")?;
    add_near(alloc, lines, entries, Kind::Layout, layout)
}

/// Adds a line for a variant that isn't listed for its layout.
fn add_variant(
    alloc: Global,
    lines: &mut String,
    entries: &[Entry],
    layout: &str,
    variant: &str,
) -> Result<(), AllocError> {
    if variant.is_empty() || is_listed(entries, Kind::Variant, Some(layout), variant) {
        return Ok(());
    }
    let shown = quoted(variant.as_bytes());
    let owner = quoted(layout.as_bytes());
    write!(lines, "no variant {shown} of {owner} is listed")?;
    match nearest(alloc, entries, Kind::Variant, Some(layout), variant)? {
        Some(near) => writeln!(lines, "; '{near}' is"),
        None => lines.push_str("\n"),
    }
}

fn write_hints(alloc: Global, asked: &Asked, entries: &[Entry]) -> Result<String, AllocError> {
    let mut lines = String::new(alloc);
    if entries.is_empty() {
        return Ok(lines);
    }
    for place in 0..MOST_LAYOUTS {
        let layout = item_at(asked.layouts, place);
        let variant = item_at(asked.variants, place);
        add_layout(alloc, &mut lines, entries, layout)?;
        add_variant(alloc, &mut lines, entries, layout, variant)?;
    }
    Ok(lines)
}

/// Lines for the layouts and variants that aren't listed, with near ones that are; none where there is no list.
///
/// # Errors
/// Where a growth is refused.
pub fn hints_of(
    rt: &(impl Files + AllocGlobal),
    folders: &[Folder],
    asked: &Asked,
) -> Result<String, AllocError> {
    let text = list_or_none(rt, folders, asked.rules)?;
    let entries = entries_in(rt.alloc(), text.as_str())?;
    write_hints(rt.alloc(), asked, entries.as_slice())
}
