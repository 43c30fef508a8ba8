//! What values of fields have in common.
use crate::case::Case;
use crate::sources::library_of;
use crate::trouble::Trouble;
use kx_include::{Library, Place};
use kx_lex::Fault;
use kx_merge::{Counted, expression_of, lone_word, unknown_field};
use kx_parse::{Expression, Field, Item, Stated, Statement};
use std::alloc::Global;

const SYMBOLS: Place = Place {
    file: 0,
    section: 0,
};

/// The first field of a source.
fn field_in<'l>(library: &'l Library) -> Option<&'l Field> {
    match library.items_in(SYMBOLS) {
        [
            Item::Statement(
                Stated {
                    statement: Statement::Field(field),
                    ..
                },
            ),
            ..
        ] => Some(field.get()),
        _ => None,
    }
}

/// The length of the word that an expression is, or the group that it names.
fn read_value(expression: &Expression) -> Result<(usize, u8), Fault> {
    if let Some(word) = lone_word(expression) {
        if Counted::Group.in_word(word.bytes.as_slice()).is_none() {
            return Ok((word.bytes.as_slice().len(), 0));
        }
    }
    Ok((0, Counted::Group.read(0, expression)?))
}

/// What the first field of a source is set to: `word of` its length, or `group` and its number.
pub fn shown(alloc: Global, case: &Case) -> Result<String, Trouble> {
    let library = library_of(alloc, case)?;
    let value = match field_in(&library) {
        Some(field) if field.place.index.is_some() => {
            return Err(Trouble::Fault(unknown_field(0, &field.place.word)));
        }
        Some(field) => read_value(expression_of(0, field.span, &field.setting)?)?,
        None => (0, 0),
    };
    match value {
        (0, group) => Ok(format!(in alloc; "group {group}")?),
        (length, _) => Ok(format!(in alloc; "word of {length}")?),
    }
}
