//! The names of files by the kind of their sections.
use kx_parse::Kind;
use std::alloc::{AllocError, Global};

/// A name below the folder of a kind.
pub(crate) fn full_name(alloc: Global, kind: Kind, name: &[u8]) -> Result<Vec<u8>, AllocError> {
    let mut full = Vec::from_slice(alloc, kind.word().as_bytes())?;
    full.push(b'/')?;
    full.extend_from_slice(name)?;
    Ok(full)
}
