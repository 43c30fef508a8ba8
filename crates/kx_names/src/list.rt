//! The list of names that stands beside a rules file.
use crate::fault::NamesFault;
use crate::files::read_first;
use kx_reach::Folder;
use std::alloc::{AllocError, Global};
use std::rt::Files;

/// What a name is of.
#[derive(Clone, Copy, PartialEq, Eq)]
pub enum Kind {
    Model,
    Layout,
    Variant,
    Choice,
}

impl Kind {
    /// The kind whose names stand below a heading of the list.
    fn headed(word: &str) -> Option<Kind> {
        match word {
            "model" => Some(Kind::Model),
            "layout" => Some(Kind::Layout),
            "variant" => Some(Kind::Variant),
            "option" => Some(Kind::Choice),
            _ => None,
        }
    }

    /// The kind that a word of several asks for.
    pub fn of_several(word: &str) -> Option<Kind> {
        Kind::headed(word.strip_suffix('s')?)
    }

    /// The word for one of the kind.
    pub fn word(self) -> &'static str {
        match self {
            Kind::Model => "model",
            Kind::Layout => "layout",
            Kind::Variant => "variant",
            Kind::Choice => "option",
        }
    }
}

/// A name with its description, which for a variant begins with its layout and a colon.
#[derive(Clone, Copy)]
pub(crate) struct Entry<'a> {
    pub(crate) kind: Kind,
    pub(crate) name: &'a str,
    pub(crate) description: &'a str,
}

impl<'a> Entry<'a> {
    /// The layout of a variant.
    pub(crate) fn layout(self) -> Option<&'a str> {
        let (layout, _) = self.description.split_once(':')?;
        Some(layout)
    }
}

fn entry_in(kind: Kind, line: &str) -> Option<Entry<'_>> {
    let line = line.trim();
    if line.is_empty() {
        return None;
    }
    let (name, description) = line.split_once(' ').unwrap_or((line, ""));
    let description = description.trim();
    Some(Entry {
        kind,
        name,
        description,
    })
}

/// The names of a list in their order.
///
/// # Errors
/// Where a growth is refused.
pub(crate) fn entries_in(alloc: Global, text: &str) -> Result<Vec<Entry<'_>>, AllocError> {
    let mut entries = Vec::new(alloc);
    let mut heading = None;
    for line in text.lines() {
        if let Some(word) = line.strip_prefix('!') {
            heading = Kind::headed(word.trim());
        } else if let Some(kind) = heading {
            if let Some(entry) = entry_in(kind, line) {
                entries.push(entry)?;
            }
        }
    }
    Ok(entries)
}

/// The list of rules: that of the first of the folders that has one.
///
/// # Errors
/// Where none has one, it can't be read, or no memory is left.
pub(crate) fn read_list(
    rt: &(impl Files + AllocGlobal),
    folders: &[Folder],
    rules: &str,
) -> Result<String, NamesFault> {
    let path = format!(in rt.alloc(); "rules/{rules}.lst")?;
    let bytes = read_first(rt, folders, path.as_str())?;
    Ok(String::from_utf8_lossy(rt.alloc(), bytes.as_slice())?)
}
