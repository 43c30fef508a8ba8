//! The built-in names, and no files. A test that holds files or names in a box is proved much sooner.
use ks_core::NameTable;
use kx_tool::Files;
use std::alloc::{AllocError, Global};

/// The built-in names alone.
pub fn builtin(alloc: Global) -> Result<Box<NameTable>, AllocError> {
    Ok(Box::new(alloc, NameTable::builtin())?)
}

pub fn no_files(alloc: Global) -> Result<Box<Files>, AllocError> {
    Ok(Box::new(alloc, Files::new(alloc))?)
}
