//! Values of the wrong kind.
use crate::actions::{argument_word, has_value};
use crate::found::Found;
use crate::quotes::quoted;
use crate::site::{Site, argument_at, call_in_field, call_in_list, site_at, word_of};
use crate::wanted::{wanted_index, wanted_value};
use kx_key_fields::is_list_word;
use kx_lex::Span;
use kx_parse::{BracePart, Call, Element, Field, List, Predicate, Setting, Statement, Value};
use kx_reach::is_within;
use std::alloc::AllocError;

const KEYSYM: &str = "a keysym, at most 0x1fffffff";

const ACTION: &str = "an action, as SetMods(modifiers=Shift)";

const ONE_ACTION: &str = "one action at a level";

const REAL_MASK: &str = "a mask of real modifiers, as Shift+Control";

/// What is wrong with a value: that something else is wanted, that none is written, or that a list is the second one.
enum Wrong<'t> {
    Wanted(&'static str),
    Missing(&'t [u8], &'static str),
    SecondList,
}

fn is_call(part: &BracePart) -> bool {
    matches!(part, BracePart::Call(_))
}

/// Whether a list by itself is one of actions.
fn has_call(list: &List) -> bool {
    list.elements
        .as_slice()
        .iter()
        .any(|element| match element {
            Element::Call(_) => true,
            Element::Braces(braces) => braces.parts.as_slice().iter().any(is_call),
            Element::Symbol(_) => false,
        })
}

/// What an argument of a call wants, where a range stands in one.
fn wrong_argument(call: &Call, span: Span) -> Option<Wrong<'_>> {
    let placed = argument_at(call, span)?;
    let Some(word) = argument_word(placed) else {
        return Some(Wrong::Wanted("an argument with its word, as modifiers=Shift"));
    };
    let wanted = wanted_value(word)?;
    Some(if has_value(placed) {
        Wrong::Wanted(wanted)
    } else {
        Wrong::Missing(word, wanted)
    })
}

/// What is wanted at a part of a list.
fn wrong_in_list(list: &List, is_of_actions: bool, span: Span) -> Option<Wrong<'_>> {
    if list.span == span {
        return Some(Wrong::SecondList);
    }
    if let Some(call) = call_in_list(list, span) {
        return if call.span == span {
            Some(Wrong::Wanted(KEYSYM))
        } else {
            wrong_argument(call, span)
        };
    }
    let is_braces = list
        .elements
        .as_slice()
        .iter()
        .any(|element| match element {
            Element::Braces(braces) => braces.span == span,
            _ => false,
        });
    Some(Wrong::Wanted(if is_braces {
        ONE_ACTION
    } else if is_of_actions {
        ACTION
    } else {
        KEYSYM
    }))
}

/// What a field wants as its value.
fn wrong_value<'t>(
    value: &'t Value,
    word: &[u8],
    field: &'t Field,
    span: Span,
) -> Option<Wrong<'t>> {
    if let Value::List(list) = value
        && is_list_word(word)
    {
        let is_of_actions = word.eq_ignore_ascii_case(b"actions");
        return wrong_in_list(list, is_of_actions, span);
    }
    match call_in_field(field, span) {
        Some(call) if call.span != span => wrong_argument(call, span),
        _ => Some(Wrong::Wanted(wanted_value(word)?)),
    }
}

/// What is wrong in a field.
fn wrong_in_field(field: &Field, span: Span) -> Option<Wrong<'_>> {
    let word = word_of(field).bytes.as_slice();
    if let Some(index) = &field.place.index
        && is_within(index.get().span, span)
    {
        return Some(Wrong::Wanted(wanted_index(word)));
    }
    match &field.setting {
        Setting::To(value) => wrong_value(value, word, field, span),
        Setting::On | Setting::Off => Some(Wrong::Missing(word, wanted_value(word)?)),
    }
}

/// What is wrong in the condition of an interpretation.
fn wrong_condition(predicate: &Predicate, span: Span) -> Wrong<'_> {
    match predicate {
        Predicate::Call(call) if call.span == span => Wrong::Wanted("one mask, as AllOf(Shift)"),
        _ => Wrong::Wanted(REAL_MASK),
    }
}

/// What is wrong where a range stands in a statement.
fn wrong_at(statement: &Statement, span: Span) -> Option<Wrong<'_>> {
    match site_at(statement, span) {
        Site::Field(_, field) => wrong_in_field(field, span),
        Site::List(list) => wrong_in_list(list, has_call(list), span),
        Site::Condition(predicate) => Some(wrong_condition(predicate, span)),
        Site::Keysym => Some(Wrong::Wanted(KEYSYM)),
        Site::Modifier => Some(Wrong::Wanted("one real modifier, as Shift, or none")),
        Site::DeclaredName => Some(Wrong::Wanted("a name that no real modifier has")),
        Site::DeclaredMask => Some(Wrong::Wanted(REAL_MASK)),
        Site::Other => None,
    }
}

/// Says what stands where a value does, and what is wanted.
pub(crate) fn write_bad_value(
    out: &mut String,
    text: &[u8],
    statement: &Statement,
    span: Span,
) -> Result<(), AllocError> {
    let found = Found { text, span };
    match wrong_at(statement, span) {
        None => Ok(()),
        Some(Wrong::Wanted(wanted)) => write!(out, "expected {wanted}, found {found}"),
        Some(Wrong::Missing(word, wanted)) => {
            let word = quoted(word);
            write!(out, "{word} needs a value: {wanted}")
        }
        Some(Wrong::SecondList) => write!(out, "a second list for the same group: {found}"),
    }
}
