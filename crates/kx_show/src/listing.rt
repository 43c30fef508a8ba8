//! What stands round a picture.
ghost use Rattle.std.specs.Prelude.{◌≡◌};
ghost use Rattle.kx_tables.specs.Content.{greatest_groups};

use crate::board::Shown;
use crate::canvas::cut;
use crate::labels::{columns_of, push_seen};
use kx_tables::Tables;
use std::alloc::{AllocError, Global};

/// The bytes of a name as text.
pub(crate) fn as_text(name: &[u8]) -> &str {
    str::from_utf8(name).unwrap_or("?")
}

/// How many groups the keys of tables have at the most.
pub fn group_count<T: Tables>(tables: &T) -> u8
    ensures { result ≡ greatest_groups (T.content tables.now).keys }
{
    tables.greatest_groups()
}

/// Adds a line on the group: its number of how many, and its name where it has one.
pub(crate) fn write_title<T: Tables>(
    out: &mut String,
    tables: &T,
    group: u8,
) -> Result<(), AllocError> {
    let number = group.saturating_add(1);
    let count = tables.greatest_groups();
    write!(out, "group {number} of {count}")?;
    if u16::from(group) < tables.counts().group_names {
        let name = as_text(tables.group_name(u16::from(group)));
        if !name.is_empty() {
            out.push_str(": ")?;
            push_seen(out, name)?;
        }
    }
    Ok(())
}

/// What is said of a key that no place is for: its name, and the labels of its levels.
pub(crate) fn entry(alloc: Global, key: &Shown, columns: usize) -> Result<String, AllocError> {
    let mut text = String::new(alloc);
    let mut last = "";
    push_seen(&mut text, as_text(key.name))?;
    for label in key.labels.as_slice() {
        let label = label.text.as_str();
        if !label.is_empty() && label != last {
            write!(text, " {label}")?;
            last = label;
        }
    }
    let mut text = cut(alloc, text.as_str(), columns)?;
    for _ in columns_of(text.as_str())..columns {
        text.push(' ')?;
    }
    Ok(text)
}
