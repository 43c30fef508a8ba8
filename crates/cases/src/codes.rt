//! Keycodes.
use crate::case::Case;
use crate::sources::{bodies_of, codes_of, library_of, text_of};
use crate::trouble::Trouble;
use kx_codes::Codes;
use std::alloc::Global;

fn text(alloc: Global, codes: &Codes) -> Result<String, Trouble> {
    let a = codes.code_of(b"A").unwrap_or(0);
    let b = codes.code_of(b"B").unwrap_or(0);
    let c = codes.code_of(b"C").unwrap_or(0);
    let first = text_of(codes.name_of(38).unwrap_or(b"-"));
    let second = text_of(codes.name_of(39).unwrap_or(b"-"));
    Ok(format!(in alloc; "{a} {b} {c} {first} {second}")?)
}

/// The codes of A, B and C, and the names of 38 and 39.
pub fn shown(alloc: Global, case: &Case) -> Result<String, Trouble> {
    let library = library_of(alloc, case)?;
    let bodies = bodies_of(alloc, &library)?;
    text(alloc, codes_of(alloc, &bodies)?.as_ref())
}

/// One more than the greatest code with a name.
pub fn end(alloc: Global, case: &Case) -> Result<String, Trouble> {
    let library = library_of(alloc, case)?;
    let bodies = bodies_of(alloc, &library)?;
    Ok(codes_of(alloc, &bodies)?.end().to_string(alloc)?)
}
