//! Which limit a keymap passes.
use kx_basics::{MOST_KEYSYMS, MOST_NAME_BYTES};
use kx_lex::Span;
use kx_parse::{
    Element, Entry, Expression, Field, Item, KeyField, List, Section, Setting, Statement, Term,
    Value,
};
use kx_reach::item_at;

const NAME: &str = "a name of more than 255 bytes";

const KEYSYMS: &str = "more than 8 keysyms at a level";

fn is_long(name: &[u8]) -> bool {
    name.len() > MOST_NAME_BYTES
}

fn has_long_text(expression: &Expression) -> bool {
    match &expression.first {
        Term::Text(text) => is_long(text.bytes.as_slice()),
        _ => false,
    }
}

/// The limit that a field passes: its text is a name.
fn limit_of_field(field: &Field) -> Option<&'static str> {
    match &field.setting {
        Setting::To(Value::Expression(expression)) if has_long_text(expression) => Some(NAME),
        _ => None,
    }
}

fn has_long_level(list: &List) -> bool {
    list.elements
        .as_slice()
        .iter()
        .any(|element| match element {
            Element::Braces(braces) => braces.parts.as_slice().len() > MOST_KEYSYMS,
            Element::Symbol(_) | Element::Call(_) => false,
        })
}

fn has_many_keysyms(field: &KeyField) -> bool {
    match field {
        KeyField::List(list) => has_long_level(list),
        KeyField::Field(field) => match &field.get().setting {
            Setting::To(Value::List(list)) => has_long_level(list),
            _ => false,
        },
    }
}

/// The limit that a key statement passes.
fn limit_of_key(name: &[u8], fields: &[KeyField]) -> Option<&'static str> {
    if is_long(name) {
        Some(NAME)
    } else if fields.iter().any(has_many_keysyms) {
        Some(KEYSYMS)
    } else {
        None
    }
}

fn has_long_name(entry: &Entry) -> bool {
    match entry {
        Entry::KeyName(name) => is_long(name.as_slice()),
        Entry::Symbol(_) => false,
    }
}

fn name_or(name: &[u8], other: &'static str) -> Option<&'static str> {
    Some(if is_long(name) { NAME } else { other })
}

/// The limit that a statement passes.
fn limit_of_statement(statement: &Statement) -> Option<&'static str> {
    match statement {
        Statement::VirtualModifiers(_) => Some("a 25th virtual modifier"),
        Statement::KeyType { name, .. } => name_or(name.bytes.as_slice(), "more than 4,096 types"),
        Statement::Indicator { name, .. } => name_or(name.bytes.as_slice(), "a 33rd indicator"),
        Statement::Key { name, fields } => limit_of_key(name.as_slice(), fields.as_slice()),
        Statement::ModifierMap { entries, .. } => {
            let is_passed = entries.as_slice().iter().any(has_long_name);
            if is_passed { Some(NAME) } else { None }
        }
        Statement::Field(field) => limit_of_field(field.get()),
        Statement::Keycode { .. } | Statement::Alias { .. } => Some(NAME),
        Statement::IndicatorName { .. }
        | Statement::Interpretation { .. }
        | Statement::Group { .. } => None,
    }
}

/// The limit that is passed where a fault stands: that of a statement, of includes, or of files.
pub(crate) fn limit_passed(sections: &[Section], span: Span) -> Option<&'static str> {
    match item_at(sections, span) {
        None => Some("more than 65,535 files are handed in"),
        Some((_, Item::Include { .. })) => Some("more than 4,096 includes"),
        Some((_, Item::Statement(stated))) => limit_of_statement(&stated.statement),
    }
}
