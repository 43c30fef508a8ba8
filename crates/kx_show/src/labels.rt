//! What stands on a key for a keysym.
use crate::levels::{Group, cell_at, keysym_at, shown_group};
use crate::words::{Accent, accent_of, unseen_word_of, word_of};
use arrayvec::ArrayString;
use ks_core::{Keysym, NameTable};
use kx_tables::{KeyRow, Rows};
use kx_text::character_of;
use std::alloc::{AllocError, Global};
use unicode_width::UnicodeWidthChar;

/// What kind of keysym a level gives.
#[derive(Clone, Copy, PartialEq, Eq)]
pub(crate) enum Look {
    Plain,
    Dead,
    Modifier,
}

/// What stands on a key for a level.
#[derive(Drop)]
pub(crate) struct Label {
    pub text: String,
    pub look: Look,
    /// Of a dead key, its accent.
    pub accent: Option<Accent>,
}

/// How a character is shown.
#[derive(Clone, Copy)]
enum Glyph {
    Letter(char),
    /// A mark on the letter before it.
    Mark(char),
    Word(&'static str),
    /// It can't be seen, and no word stands for it.
    Unseen,
}

/// What stands before the part of a name that is shown.
static PREFIXES: [&str; 7] = [
    "KP_",
    "XF86Switch_",
    "XF86",
    "ISO_",
    "dead_",
    "Cyrillic_",
    "Greek_",
];

fn look_of(keysym: u32) -> Look {
    match keysym {
        0xfe50..=0xfe93 => Look::Dead,
        0xfe01..=0xfe13 | 0xff7e | 0xff7f | 0xffe1..=0xffee => Look::Modifier,
        _ => Look::Plain,
    }
}

/// How a character is shown. Those that only tell how text is laid out lie in the ranges, but for those that have words.
fn glyph_of(character: char) -> Glyph {
    if let Some(word) = unseen_word_of(character) {
        return Glyph::Word(word);
    }
    if character.is_control() || character.is_whitespace() {
        return Glyph::Unseen;
    }
    match u32::from(character) {
        0x1bca0..=0x1bca3 | 0x1d173..=0x1d17a | 0xe0000..=0xe0fff | 0xfff0..=0xfff8 =>
            Glyph::Unseen,
        0xfffe | 0xffff => Glyph::Unseen,
        _ if character.width() == Some(0) => Glyph::Mark(character),
        _ => Glyph::Letter(character),
    }
}

/// Adds a text without what can't be seen; each blank is a space.
pub(crate) fn push_seen(out: &mut String, text: &str) -> Result<(), AllocError> {
    for character in text.chars() {
        match glyph_of(character) {
            Glyph::Letter(seen) | Glyph::Mark(seen) => out.push(seen)?,
            Glyph::Word(_) | Glyph::Unseen if character.is_whitespace() => out.push(' ')?,
            Glyph::Word(_) | Glyph::Unseen => {}
        }
    }
    Ok(())
}

/// How many columns of a terminal a text has, where each of its characters has its own.
pub(crate) fn columns_of(text: &str) -> usize {
    let mut columns: usize = 0;
    for character in text.chars() {
        columns = columns.saturating_add(character.width().unwrap_or(0));
    }
    columns
}

/// The part of a keysym's name that stands on a key.
fn short_name(name: &str) -> &str {
    for prefix in &PREFIXES {
        if let Some(rest) = name.strip_prefix(prefix) {
            return rest;
        }
    }
    name
}

/// Adds the name of a keysym as it stands on a key.
fn push_name(out: &mut String, names: &NameTable, keysym: u32) -> Result<(), AllocError> {
    let mut name = ArrayString::new();
    names.write_name(Keysym(keysym), &mut name);
    if look_of(keysym) == Look::Dead {
        out.push('◌')?;
    }
    for character in short_name(name.as_str()).chars() {
        if character != '_' {
            out.push(character)?;
        }
    }
    Ok(())
}

/// Adds what stands on a key for a keysym.
fn push_label(out: &mut String, names: &NameTable, keysym: u32) -> Result<(), AllocError> {
    if let Some(word) = word_of(keysym) {
        return out.push_str(word);
    }
    if let Some(accent) = accent_of(keysym) {
        out.push('◌')?;
        return out.push_str(accent.alone);
    }
    match character_of(Keysym(keysym)).map(glyph_of) {
        Some(Glyph::Letter(letter)) => out.push(letter),
        Some(Glyph::Mark(mark)) => {
            out.push('◌')?;
            out.push(mark)
        }
        Some(Glyph::Word(word)) => out.push_str(word),
        Some(Glyph::Unseen) | None => push_name(out, names, keysym),
    }
}

/// How many labels are shown: up to the last that isn't the first one again, and has a text.
fn shown_count(labels: &[Label]) -> usize {
    let mut count = 0;
    let first = match labels.first() {
        Some(label) => label.text.as_str(),
        None => "",
    };
    for (place, label) in labels.iter().enumerate() {
        let text = label.text.as_str();
        if !text.is_empty() && (place == 0 || text != first) {
            count = place.saturating_add(1);
        }
    }
    count
}

/// What stands on a key for a level of a group.
fn label_of<R: Rows>(
    alloc: Global,
    rows: &R,
    names: &NameTable,
    group: Group,
    level: u8,
) -> Result<Label, AllocError> {
    let mut text = String::new(alloc);
    let mut look = Look::Plain;
    let mut accent = None;
    if let Some(cell) = cell_at(rows, group, level) {
        for index in 0..cell.keysyms {
            if let Some(keysym) = keysym_at(rows, cell, index) {
                push_label(&mut text, names, keysym)?;
                look = look_of(keysym);
                accent = accent_of(keysym);
            }
        }
    }
    Ok(Label { text, look, accent })
}

/// The labels of the levels of a key in an effective group, counted from 0, as far as they are shown.
pub(crate) fn labels_of<R: Rows>(
    alloc: Global,
    rows: &R,
    names: &NameTable,
    key: KeyRow,
    group: u8,
) -> Result<Vec<Label>, AllocError> {
    let mut labels = Vec::new(alloc);
    let Some(group) = shown_group(rows, key, group) else {
        return Ok(labels);
    };
    for level in 0..group.key_type.levels {
        labels.push(label_of(alloc, rows, names, group, level)?)?;
    }
    let count = shown_count(labels.as_slice());
    labels.truncate(count);
    Ok(labels)
}
