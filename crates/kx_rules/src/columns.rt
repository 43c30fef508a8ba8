//! The lines that say what the rules below them are about.
ghost use Rattle.std.specs.Prelude.{◌≡◌, IfOk, Some, []};
ghost use Rattle.std.specs.List.{list_all, list_any};
ghost use Rattle.std.specs.Option.{option_map};
ghost use Rattle.kx_rules.specs.Mappings.{column_counts, column_of, counts, each_new, has_choice, indexed_column, is_field, is_section, layout_place, mapping_of, same_column, section_of};

use crate::expansion::index_in;
use crate::names::Names;
use kx_rule_lines::Piece;
use std::alloc::{AllocError, Global};
use std::marker::Model;

/// What a value left of a sign = is compared with.
#[derive(Clone, Copy, PartialEq, Eq)]
pub(crate) enum Field {
    Model,
    Layout,
    Variant,
    Choice,
}

/// What a value right of it is added to.
#[derive(Clone, Copy, PartialEq, Eq)]
pub(crate) enum Section {
    Keycodes,
    Types,
    Compat,
    Symbols,
    Geometry,
}

/// A word left of the sign, with the place that its index names.
#[derive(Clone, Copy)]
pub(crate) struct Column {
    pub(crate) field: Field,
    pub(crate) place: Option<usize>,
}

/// What the values of rules are.
#[derive(Drop)]
pub(crate) struct Mapping {
    pub(crate) columns: Vec<Column>,
    pub(crate) sections: Vec<Section>,
}

impl Model for Mapping {
    ghost use Rattle.kx_rules.specs.Mappings.{Mapping};

    ghost Value = { Mapping };

    ghost view = { λ m. record { columns = m.columns.items; sections = m.sections.items } };
}

impl Mapping {
    /// The place of the layout, and of the variant too.
    pub(crate) fn layout_place(&self) -> usize
        ensures { result ≡ layout_place self.now.columns }
    {
        layout_place(self.columns.as_slice())
    }

    /// Whether a rule has as many values as this.
    pub(crate) fn has_sizes(&self, lefts: &[Piece], rights: &[Piece]) -> bool {
        lefts.len() == self.columns.len() && rights.len() == self.sections.len()
    }

    /// Whether rules are about options.
    pub(crate) fn has_choice(&self) -> bool
        ensures { result ≡ has_choice self.now.columns }
    {
        self.columns
            .iter()
            .any(|column| is_field(Field::Choice, column.field))
    }
}

/// The place of the layout, and of the variant too, among the words left of a sign =.
pub(crate) fn layout_place(columns: &[Column]) -> usize
    ensures { result ≡ layout_place columns.now }
{
    let mut rest = columns;
    'columns: while let Some((column, behind)) = rest.split_first() {
        match column.field {
            Field::Layout => return column.place.unwrap_or(0),
            Field::Model | Field::Variant | Field::Choice => rest = behind,
        }
    }
    0
}

pub(crate) fn is_field(field: Field, other: Field) -> bool
    ensures { result ≡ is_field field other }
{
    field == other
}

fn is_section(section: Section, other: Section) -> bool
    ensures { result ≡ is_section section other }
{
    section == other
}

/// A word with an index or without.
fn indexed_column(field: Field, index: &[u8]) -> Option<Column>
    ensures { result ≡ indexed_column field index.now }
{
    if index.is_empty() {
        return Some(Column { field, place: None });
    }
    let place = index_in(index)?;
    Some(Column {
        field,
        place: Some(place),
    })
}

#[tactic(auto, unfolding(crate::specs::Mappings::column_of))]
fn column_of(word: &[u8]) -> Option<Column>
    ensures { result ≡ column_of word.now }
{
    if word == b"model".as_slice() {
        Some(Column {
            field: Field::Model,
            place: None,
        })
    } else if word == b"option".as_slice() {
        Some(Column {
            field: Field::Choice,
            place: None,
        })
    } else if word.starts_with(b"layout") {
        indexed_column(Field::Layout, &word[6..])
    } else if word.starts_with(b"variant") {
        indexed_column(Field::Variant, &word[7..])
    } else {
        None
    }
}

#[tactic(auto, unfolding(crate::specs::Mappings::section_of))]
fn section_of(word: &[u8]) -> Option<Section>
    ensures { result ≡ section_of word.now }
{
    if word == b"keycodes".as_slice() {
        Some(Section::Keycodes)
    } else if word == b"types".as_slice() {
        Some(Section::Types)
    } else if word == b"compat".as_slice() {
        Some(Section::Compat)
    } else if word == b"symbols".as_slice() {
        Some(Section::Symbols)
    } else if word == b"geometry".as_slice() {
        Some(Section::Geometry)
    } else {
        None
    }
}

fn has_column(columns: &[Column], column: Column) -> bool
    ensures { result ≡ list_any (same_column column) columns.now }
{
    columns
        .iter()
        .any(|other| is_field(column.field, other.field))
}

fn has_section(sections: &[Section], section: Section) -> bool
    ensures { result ≡ list_any (is_section section) sections.now }
{
    sections.iter().any(|other| is_section(section, *other))
}

fn columns_of(alloc: Global, words: &[Piece]) -> Result<Option<Vec<Column>>, AllocError>
    ensures { IfOk result (λ columns. option_map (λ c. c.items) columns
        ≡ each_new same_column column_of [] words.now) }
{
    let mut columns = Vec::new(alloc);
    'words: for word in words {
        match column_of(word.text()) {
            None => return Ok(None),
            Some(column) => {
                if has_column(columns.as_slice(), column) {
                    return Ok(None);
                }
                columns.push(column)?;
            }
        }
    }
    Ok(Some(columns))
}

fn sections_of(alloc: Global, words: &[Piece]) -> Result<Option<Vec<Section>>, AllocError>
    ensures { IfOk result (λ sections. option_map (λ s. s.items) sections
        ≡ each_new is_section section_of [] words.now) }
{
    let mut sections = Vec::new(alloc);
    'words: for word in words {
        match section_of(word.text()) {
            None => return Ok(None),
            Some(section) => {
                if has_section(sections.as_slice(), section) {
                    return Ok(None);
                }
                sections.push(section)?;
            }
        }
    }
    Ok(Some(sections))
}

/// Whether a column without an index or with one is about this many items.
fn counts(many: usize, place: Option<usize>) -> bool
    ensures { result ≡ counts many place }
{
    match place {
        None => many <= 1,
        Some(place) => 2 <= many && place < many,
    }
}

fn column_counts(names: &Names, column: Column) -> bool
    ensures { result ≡ column_counts names.now column }
{
    match column.field {
        Field::Layout => counts(names.layouts().len(), column.place),
        Field::Variant => counts(names.variants().len(), column.place),
        Field::Model | Field::Choice => true,
    }
}

fn all_count(names: &Names, columns: &[Column]) -> bool
    ensures { result ≡ list_all (column_counts names.now) columns.now }
{
    columns.iter().all(|column| column_counts(names, *column))
}

/// What the words of a mapping say; none if the rules below it are passed over.
#[tactic(auto, unfolding(crate::specs::Mappings::mapping_of))]
pub(crate) fn mapping_of(
    alloc: Global,
    names: &Names,
    lefts: &[Piece],
    rights: &[Piece],
) -> Result<Option<Mapping>, AllocError>
    ensures { IfOk result (λ mapping. mapping ≡ mapping_of names.now lefts.now rights.now) }
{
    let Some(columns) = columns_of(alloc, lefts)? else {
        return Ok(None);
    };
    let Some(sections) = sections_of(alloc, rights)? else {
        return Ok(None);
    };
    if sections.is_empty() || !all_count(names, columns.as_slice()) {
        return Ok(None);
    }
    Ok(Some(Mapping { columns, sections }))
}

/// Whether a mapping has a word that is unknown or that it had before, or no section.
pub(crate) fn is_faulty(
    alloc: Global,
    lefts: &[Piece],
    rights: &[Piece],
) -> Result<bool, AllocError> {
    let columns = columns_of(alloc, lefts)?;
    let sections = sections_of(alloc, rights)?;
    Ok(columns.is_none() || sections.is_none() || rights.is_empty())
}
