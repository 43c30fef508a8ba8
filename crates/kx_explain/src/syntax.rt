//! What stands where no tree goes on, and what could.
use crate::found::Found;
use crate::front::Front;
use crate::naming::write_wanted;
use crate::slips::likely_slip;
use kx_lex::At;
use std::alloc::{AllocError, Global};

/// What could stand at a place where a source, or a file, spells no tree; nothing where that isn't known.
fn wanted_at(alloc: Global, text: &[u8], at: At) -> Result<String, AllocError> {
    let mut wanted = String::new(alloc);
    if let Some((front, found)) = Front::before(alloc, text, at)? {
        write_wanted(&mut wanted, alloc, &front, found)?;
    }
    Ok(wanted)
}

/// Says what stands at a place where no tree goes on, and what could.
pub(crate) fn write_syntax(
    out: &mut String,
    alloc: Global,
    text: &[u8],
    at: At,
) -> Result<(), AllocError> {
    let found = Found {
        text,
        span: at.span,
    };
    let wanted = wanted_at(alloc, text, at)?;
    if wanted.as_str().is_empty() {
        return write!(out, "{found} can't stand here");
    }
    write!(out, "expected {wanted}, found {found}")?;
    match likely_slip(wanted.as_str(), text, at.span) {
        Some(slip) => write!(out, "; {slip}"),
        None => Ok(()),
    }
}
