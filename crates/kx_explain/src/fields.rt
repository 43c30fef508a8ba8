//! Fields, arguments and statements that their place doesn't have.
use crate::actions::action_named;
use crate::quotes::quoted;
use crate::site::{Owner, Site, argument_at, call_in_field, call_in_list, site_at};
use crate::wanted::{is_among, wanted_value};
use kx_key_fields::{is_attribute_word, is_key_word, is_list_word, usual_words};
use kx_lex::Span;
use kx_parse::{Call, Field, Kind, Predicate, Statement};
use std::alloc::AllocError;
use std::fmt;
use std::fmt::{Formatter, Write};

const OF_INTERPRETATION: &str = "action, virtualModifier, useModMapMods, repeat, locking";

const OF_INDICATOR: &str = "modifiers, whichModState, groups, whichGroupState";

const OF_TYPE: &str = "modifiers, map[..], preserve[..], level_name[..]";

const CONDITIONS: &str = "Exactly, AllOf, NoneOf, AnyOf, AnyOfOrNone";

/// The words that a place has.
#[derive(Clone, Copy)]
enum Known {
    Words(&'static str),
    /// Those of the fields of a key.
    OfKey,
    /// Those of the fields of a key that have defaults.
    OfKeyDefault,
}

/// Lists the words of a key's fields, those of its lists too or not.
fn write_key_words<W: Write>(f: &mut Formatter<W>, has_lists: bool) -> fmt::Result {
    let mut before = "";
    for word in usual_words() {
        if has_lists || !is_list_word(word.as_bytes()) {
            f.write_str(before)?;
            f.write_str(word)?;
            before = ", ";
        }
    }
    Ok(())
}

impl fmt::Display for Known {
    fn fmt<W: Write>(&self, f: &mut Formatter<W>) -> fmt::Result {
        match self {
            Known::Words(words) => f.write_str(words),
            Known::OfKey => write_key_words(f, true),
            Known::OfKeyDefault => write_key_words(f, false),
        }
    }
}

/// A word, what it isn't of what, and what that has.
#[derive(Clone, Copy)]
struct Unknown<'a> {
    word: &'a [u8],
    what: &'static str,
    known: Known,
}

fn write_unknown(out: &mut String, unknown: Unknown) -> Result<(), AllocError> {
    let word = quoted(unknown.word);
    let what = unknown.what;
    let known = unknown.known;
    write!(out, "{word} is no {what}; there are {known}")
}

/// Says that a field stands with an index or without one where that can't be.
fn write_index(out: &mut String, word: &[u8], has_index: bool) -> Result<(), AllocError> {
    let word = quoted(word);
    let how = if has_index { "takes no" } else { "needs an" };
    write!(out, "{word} {how} index here")
}

/// What a section may hold.
fn statements_of(kind: Kind) -> &'static str {
    match kind {
        Kind::Keycodes => "<NAME>=CODE, alias, indicator, minimum, maximum",
        Kind::Types => "type, virtual_modifiers",
        Kind::Compat => {
            "interpret, indicator, group, virtual_modifiers, interpret.FIELD, indicator.FIELD, \
ACTION.ARGUMENT"
        }
        Kind::Symbols => {
            "key, modifier_map, name[..], virtual_modifiers, key.FIELD, ACTION.ARGUMENT"
        }
        Kind::Geometry => "anything",
    }
}

/// Says that a section doesn't have a statement.
fn write_statement(out: &mut String, kind: Kind, word: &[u8]) -> Result<(), AllocError> {
    let word = quoted(word);
    let section = kind.word();
    let known = statements_of(kind);
    write!(
        out,
        "{word} is no statement of {section}; there are {known}"
    )
}

/// The fields of what has them.
fn fields_of(owner: Owner) -> (&'static str, Known) {
    match owner {
        Owner::Type => ("field of a type", Known::Words(OF_TYPE)),
        Owner::Key => ("field of a key", Known::OfKey),
        Owner::Interpretation => (
            "field of an interpretation",
            Known::Words(OF_INTERPRETATION),
        ),
        Owner::Indicator => ("field of an indicator", Known::Words(OF_INDICATOR)),
        Owner::Section => ("default", Known::Words("key.FIELD, ACTION.ARGUMENT")),
    }
}

/// Whether what has fields has one of a word, with an index or without.
fn has_field(owner: Owner, word: &[u8]) -> bool {
    match fields_of(owner) {
        (_, Known::Words(known)) => is_among(known, word),
        (_, Known::OfKey | Known::OfKeyDefault) => is_attribute_word(word),
    }
}

/// Says that an action doesn't have an argument.
fn write_argument(out: &mut String, action: &[u8], word: &[u8]) -> Result<(), AllocError> {
    let Some((name, known)) = action_named(action) else {
        return Ok(());
    };
    if is_among(known, word) {
        return write_index(out, word, true);
    }
    let word = quoted(word);
    if known.is_empty() {
        write!(out, "{word} is no argument of {name}, which has none")
    } else {
        write!(out, "{word} is no argument of {name}; there are {known}")
    }
}

/// Says that a call in a field doesn't have an argument.
fn write_in_call(out: &mut String, call: &Call, word: &[u8], span: Span) -> Result<(), AllocError> {
    match argument_at(call, span) {
        Some(_) => write_argument(out, call.word.bytes.as_slice(), word),
        None => Ok(()),
    }
}

/// Says that a default is of no field: `word` is the word after the point.
fn write_default(out: &mut String, field: &Field, word: &[u8]) -> Result<(), AllocError> {
    let owner = field.place.word.bytes.as_slice();
    if action_named(owner).is_some() {
        return write_argument(out, owner, word);
    }
    let known = if is_key_word(owner) {
        Known::OfKeyDefault
    } else if owner.eq_ignore_ascii_case(b"interpret") {
        Known::Words(OF_INTERPRETATION)
    } else {
        Known::Words(OF_INDICATOR)
    };
    if wanted_value(word).is_some() && field.place.index.is_some() {
        return write_index(out, word, true);
    }
    let what = "field that has a default here";
    write_unknown(out, Unknown { word, what, known })
}

/// Says that a field isn't one that its place has: `word` is the field's.
fn write_in_field(
    out: &mut String,
    kind: Kind,
    owner: Owner,
    field: &Field,
    word: &[u8],
) -> Result<(), AllocError> {
    if owner == Owner::Section {
        let is_name = word.eq_ignore_ascii_case(b"name") && kind == Kind::Symbols;
        return match is_name && field.place.member.is_none() {
            true => write_index(out, word, false),
            false => write_statement(out, kind, word),
        };
    }
    let has_index = field.place.index.is_some();
    if field.place.member.is_none() && has_field(owner, word) && !is_list_word(word) {
        return write_index(out, word, has_index);
    }
    let (what, known) = fields_of(owner);
    write_unknown(out, Unknown { word, what, known })
}

/// Says which word of a statement its place doesn't have, and what it has.
pub(crate) fn write_unknown_field(
    out: &mut String,
    kind: Kind,
    statement: &Statement,
    word: &[u8],
    span: Span,
) -> Result<(), AllocError> {
    match site_at(statement, span) {
        Site::Field(owner, field) => match call_in_field(field, span) {
            Some(call) => write_in_call(out, call, word, span),
            None if field.place.word.span != span => write_default(out, field, word),
            None => write_in_field(out, kind, owner, field, word),
        },
        Site::List(list) => match call_in_list(list, span) {
            Some(call) => write_in_call(out, call, word, span),
            None => Ok(()),
        },
        Site::Condition(Predicate::Call(_)) => {
            let what = "condition";
            let known = Known::Words(CONDITIONS);
            write_unknown(out, Unknown { word, what, known })
        }
        _ => write_statement(out, kind, word),
    }
}
