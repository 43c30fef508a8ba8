//! Groups, levels and keycodes outside their ranges.
use crate::found::Found;
use crate::site::{Site, site_at};
use kx_lex::Span;
use kx_parse::{Setting, Statement, Value};
use kx_reach::bytes_in;
use std::alloc::AllocError;

/// Whether a range is all of a list of a key.
fn is_list(statement: &Statement, span: Span) -> bool {
    match site_at(statement, span) {
        Site::List(list) => list.span == span,
        Site::Field(_, field) => match &field.setting {
            Setting::To(Value::List(list)) => list.span == span,
            _ => false,
        },
        _ => false,
    }
}

/// Says which group is outside its range.
pub(crate) fn write_group(
    out: &mut String,
    text: &[u8],
    statement: &Statement,
    span: Span,
) -> Result<(), AllocError> {
    if is_list(statement, span) {
        return out.push_str("a 33rd list of a key: expected a group from 1 to 32 for each");
    }
    let found = Found { text, span };
    match bytes_in(text, span) {
        [b'+' | b'-', ..] => {
            write!(
                out,
                "expected a change of the group from -32 to +32, found {found}"
            )
        }
        _ => write!(out, "expected a group from 1 to 32, found {found}"),
    }
}

/// Says which level is outside its range.
pub(crate) fn write_level(out: &mut String, text: &[u8], span: Span) -> Result<(), AllocError> {
    let found = Found { text, span };
    write!(out, "expected a level from 1 to 64, found {found}")
}

/// Says which keycode is outside its range.
pub(crate) fn write_code(out: &mut String, text: &[u8], span: Span) -> Result<(), AllocError> {
    let found = Found { text, span };
    write!(out, "expected a keycode from 0 to 4,095, found {found}")
}
