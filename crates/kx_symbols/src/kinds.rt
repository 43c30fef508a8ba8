//! The kinds of lists.
ghost use Rattle.std.specs.Prelude.{◌≡◌};
ghost use Rattle.std.specs.List.{list_any};
ghost use Rattle.kx_symbols.specs.Lists.{bare_kind, field_kind, has_call, is_call, kind_word};

use kx_parse::{BracePart, Element, FieldPlace, List as Listed};

/// What a list of a key statement gives.
#[derive(Clone, Copy, PartialEq, Eq)]
pub(crate) enum ListKind {
    /// Keysyms by level.
    Symbols,
    /// An action by level.
    Actions,
}

/// Whether a part is an action.
fn has_call_part(parts: &[BracePart]) -> bool
    ensures { result ≡ list_any is_call parts.now }
{
    parts.iter().any(|part| match part {
        BracePart::Symbol(_) => false,
        BracePart::Call(_) => true,
    })
}

fn has_call(element: &Element) -> bool
    ensures { result ≡ has_call element.now }
{
    match element {
        Element::Symbol(_) => false,
        Element::Call(_) => true,
        Element::Braces(braces) => has_call_part(braces.parts.as_slice()),
    }
}

/// Whether an element is an action or has one.
fn has_call_element(elements: &[Element]) -> bool
    ensures { result ≡ list_any has_call elements.now }
{
    elements.iter().any(|element| has_call(element))
}

/// The kind of a list by itself: actions where one stands anywhere in it.
pub(crate) fn bare_kind(list: &Listed) -> ListKind
    ensures { result ≡ bare_kind list.now }
{
    if has_call_element(list.elements.as_slice()) {
        ListKind::Actions
    } else {
        ListKind::Symbols
    }
}

fn kind_word(word: &[u8]) -> Option<ListKind>
    ensures { result ≡ kind_word word.now }
{
    if word.eq_ignore_ascii_case(b"symbols") {
        Some(ListKind::Symbols)
    } else if word.eq_ignore_ascii_case(b"actions") {
        Some(ListKind::Actions)
    } else {
        None
    }
}

/// The kind that a field of a key statement names for its list, if it does.
pub(crate) fn field_kind(place: &FieldPlace) -> Option<ListKind>
    ensures { result ≡ field_kind place.now }
{
    if place.member.is_some() {
        None
    } else {
        kind_word(place.word.bytes.as_slice())
    }
}
