//! The trees of texts.
use crate::kinds::full_name;
use crate::text::{Text, Texts, is_within};
use kx_include::MapIndex;
use kx_lex::{Fault, Span, lex};
use kx_parse::{Item, Kind, Section, Tree, parse, parse_file};
use std::alloc::{AllocError, Global};
use std::collections::BTreeMap;

/// The trees of a keymap's texts, where they have one, and what finds the files and their maps.
#[derive(Drop)]
pub struct Trees {
    source: Option<Tree>,
    files: Vec<Option<Tree>>,
    /// Where the maps of each file stand.
    maps: Vec<MapIndex>,
    /// The numbers of the files by name, counted from 1.
    numbers: BTreeMap<Vec<u8>, u32>,
}

/// What was read, where nothing but lack of memory is told of a fault.
fn read_or_none<T: Drop>(outcome: Result<T, Fault>) -> Result<Option<T>, AllocError> {
    match outcome {
        Ok(value) => Ok(Some(value)),
        Err(Fault::Memory) => Err(AllocError),
        Err(_) => Ok(None),
    }
}

/// The tree of a source.
fn source_tree(alloc: Global, text: &[u8]) -> Result<Option<Tree>, AllocError> {
    match read_or_none(lex(alloc, text))? {
        None => Ok(None),
        Some(tokens) => read_or_none(parse(alloc, text, tokens.as_slice())),
    }
}

/// The tree of a file.
fn file_tree(alloc: Global, text: &[u8]) -> Result<Option<Tree>, AllocError> {
    match read_or_none(lex(alloc, text))? {
        None => Ok(None),
        Some(tokens) => read_or_none(parse_file(alloc, text, tokens.as_slice())),
    }
}

fn sections_of(tree: &Option<Tree>) -> &[Section] {
    match tree {
        Some(tree) => tree.sections.as_slice(),
        None => &[],
    }
}

impl Trees {
    /// The trees of texts.
    ///
    /// # Errors
    /// Where a growth is refused.
    pub fn read(alloc: Global, texts: Texts) -> Result<Trees, AllocError> {
        let mut trees = Trees {
            source: source_tree(alloc, texts.source.bytes)?,
            files: Vec::new(alloc),
            maps: Vec::new(alloc),
            numbers: BTreeMap::new(alloc),
        };
        for file in texts.files {
            trees.add(alloc, *file)?;
        }
        Ok(trees)
    }

    /// Adds a file after the others. Of several of a name the first is found.
    fn add(&mut self, alloc: Global, file: Text) -> Result<(), AllocError> {
        let tree = file_tree(alloc, file.bytes)?;
        self.maps.push(MapIndex::of(alloc, sections_of(&tree))?)?;
        self.files.push(tree)?;
        if let Ok(number) = u32::try_from(self.files.len()) {
            let name = Vec::from_slice(alloc, file.name.as_bytes())?;
            self.numbers.entry(name)?.or_insert(number);
        }
        Ok(())
    }

    /// The sections of the text of a number; none where it has no tree.
    pub fn sections_in(&self, number: u32) -> &[Section] {
        match number.checked_sub(1) {
            None => sections_of(&self.source),
            Some(place) => match self.files.get(place as usize) {
                Some(tree) => sections_of(tree),
                None => &[],
            },
        }
    }

    /// The number of the file that a name means for a kind of section.
    ///
    /// # Errors
    /// Where a growth is refused.
    pub fn file_named(
        &self,
        alloc: Global,
        kind: Kind,
        name: &[u8],
    ) -> Result<Option<u32>, AllocError> {
        let full = full_name(alloc, kind, name)?;
        let found = self.numbers.get(full.as_slice()).copied();
        Ok(found.or(self.numbers.get(name).copied()))
    }

    /// The place of the map of a kind that is named in a file, or of the default one.
    pub fn map_named(&self, file: u32, kind: Kind, name: Option<&[u8]>) -> Option<usize> {
        let place = file.checked_sub(1)?;
        self.maps.get(place as usize)?.number(kind, name)
    }
}

/// All of an item.
pub fn item_span(item: &Item) -> Span {
    match item {
        Item::Include { span, .. } => *span,
        Item::Statement(stated) => stated.span,
    }
}

/// Whether a range stands in a section.
pub fn holds(section: &Section, span: Span) -> bool {
    section
        .items
        .as_slice()
        .iter()
        .any(|item| is_within(item_span(item), span))
}

/// The item in which a range stands, and the kind of its section.
pub fn item_at(sections: &[Section], span: Span) -> Option<(Kind, &Item)> {
    for section in sections {
        for item in section.items.as_slice() {
            if is_within(item_span(item), span) {
                return Some((section.kind, item));
            }
        }
    }
    None
}
