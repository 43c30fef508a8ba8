//! Where in a statement a range stands.
use kx_lex::Span;
use kx_parse::{
    BracePart, Call, Element, Field, KeyField, List, Name, PlacedArgument, Predicate, Setting,
    Statement, Value,
};
use kx_reach::is_within;

/// What has fields.
#[derive(Clone, Copy, PartialEq, Eq)]
pub(crate) enum Owner {
    Type,
    Key,
    Interpretation,
    Indicator,
    /// A section, in which fields are defaults and names.
    Section,
}

/// The part of a statement in which a range stands.
#[derive(Clone, Copy)]
pub(crate) enum Site<'t> {
    Field(Owner, &'t Field),
    /// A list of a key by itself.
    List(&'t List),
    /// The condition of an interpretation.
    Condition(&'t Predicate),
    /// The keysym of an interpretation or of a modifier map.
    Keysym,
    /// The word of a modifier map.
    Modifier,
    /// The name of a virtual modifier that is declared.
    DeclaredName,
    /// The mask of a virtual modifier that is declared.
    DeclaredMask,
    /// Another place.
    Other,
}

fn field_site(owner: Owner, fields: &[Field], span: Span) -> Site<'_> {
    match fields.iter().find(|field| is_within(field.span, span)) {
        Some(field) => Site::Field(owner, field),
        None => Site::Other,
    }
}

fn key_field_span(field: &KeyField) -> Span {
    match field {
        KeyField::Field(field) => field.get().span,
        KeyField::List(list) => list.span,
    }
}

fn key_site(fields: &[KeyField], span: Span) -> Site<'_> {
    match fields
        .iter()
        .find(|field| is_within(key_field_span(field), span))
    {
        Some(KeyField::Field(field)) => Site::Field(Owner::Key, field.get()),
        Some(KeyField::List(list)) => Site::List(list),
        None => Site::Other,
    }
}

fn predicate_span(predicate: &Predicate) -> Span {
    match predicate {
        Predicate::Call(call) => call.span,
        Predicate::Mask(expression) => expression.span,
    }
}

/// The part of a statement in which a range stands.
pub(crate) fn site_at(statement: &Statement, span: Span) -> Site<'_> {
    match statement {
        Statement::KeyType { fields, .. } => field_site(Owner::Type, fields.as_slice(), span),
        Statement::Indicator { fields, .. } => {
            field_site(Owner::Indicator, fields.as_slice(), span)
        }
        Statement::Key { fields, .. } => key_site(fields.as_slice(), span),
        Statement::Field(field) => Site::Field(Owner::Section, field.get()),
        Statement::Interpretation {
            predicate,
            fields,
            ..
        } => match predicate {
            Some(predicate) if is_within(predicate_span(predicate.get()), span) => {
                Site::Condition(predicate.get())
            }
            _ => match field_site(Owner::Interpretation, fields.as_slice(), span) {
                Site::Other => Site::Keysym,
                site => site,
            },
        },
        Statement::ModifierMap { modifier, .. } if modifier.span == span => Site::Modifier,
        Statement::ModifierMap { .. } => Site::Keysym,
        Statement::VirtualModifiers(declarations) => {
            let names = declarations.as_slice();
            if names
                .iter()
                .any(|declaration| declaration.word.span == span)
            {
                Site::DeclaredName
            } else {
                Site::DeclaredMask
            }
        }
        _ => Site::Other,
    }
}

/// The word that says what a field sets: after its point, where it has one.
pub(crate) fn word_of(field: &Field) -> &Name {
    match &field.place.member {
        Some(member) => member.get(),
        None => &field.place.word,
    }
}

fn call_in_braces(parts: &[BracePart], span: Span) -> Option<&Call> {
    for part in parts {
        if let BracePart::Call(call) = part
            && is_within(call.span, span)
        {
            return Some(call);
        }
    }
    None
}

/// The call of a list in which a range stands.
pub(crate) fn call_in_list(list: &List, span: Span) -> Option<&Call> {
    for element in list.elements.as_slice() {
        match element {
            Element::Call(call) if is_within(call.get().span, span) => return Some(call.get()),
            Element::Braces(braces) if is_within(braces.span, span) => {
                return call_in_braces(braces.parts.as_slice(), span);
            }
            _ => {}
        }
    }
    None
}

/// The call of a field in which a range stands.
pub(crate) fn call_in_field(field: &Field, span: Span) -> Option<&Call> {
    match &field.setting {
        Setting::To(Value::List(list)) => call_in_list(list, span),
        Setting::To(Value::Call(call)) if is_within(call.span, span) => Some(call),
        _ => None,
    }
}

/// The argument of a call in which a range stands; none where it is all of the call.
pub(crate) fn argument_at(call: &Call, span: Span) -> Option<&PlacedArgument> {
    call.arguments
        .as_slice()
        .iter()
        .find(|placed| is_within(placed.span, span))
}
