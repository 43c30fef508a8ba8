//! The folders in which files are looked for, and the names by which a keymap is asked for.

use kx_sources::Names;
use std::alloc::{AllocError, Global};

/// A folder in which files are looked for.
#[repr(C)]
pub struct XkcFolder<'a> {
    pub path: &'a [u8],
}

/// The names by which a keymap is asked for. An empty one isn't asked for, but empty options are where `has_options` is 1. Where
/// `environment` is 1 the environment's names stand for those that aren't asked for.
#[repr(C)]
pub struct XkcAsked<'a> {
    pub rules: &'a [u8],
    pub model: &'a [u8],
    pub layouts: &'a [u8],
    pub variants: &'a [u8],
    pub options: &'a [u8],
    pub has_options: u8,
    pub environment: u8,
}

/// Why paths or names aren't taken.
#[derive(Clone, Copy, PartialEq, Eq)]
pub enum PassedFault {
    Memory,
    /// Bytes are no text in UTF-8.
    NoText,
}

impl From<AllocError> for PassedFault {
    fn from(_: AllocError) -> Self {
        PassedFault::Memory
    }
}

/// Bytes as text.
///
/// # Errors
/// Where they aren't UTF-8.
pub fn text_of(bytes: &[u8]) -> Result<&str, PassedFault> {
    match str::from_utf8(bytes) {
        Ok(text) => Ok(text),
        Err(_) => Err(PassedFault::NoText),
    }
}

/// The paths of folders.
///
/// # Errors
/// Where one is no text, or no memory is left.
pub fn paths_of(alloc: Global, folders: &[XkcFolder<'_>]) -> Result<Vec<String>, PassedFault> {
    let mut paths = Vec::new(alloc);
    for folder in folders {
        let path = text_of(folder.path)?;
        if paths.push(String::from_str(alloc, path)?).is_err() {
            return Err(PassedFault::Memory);
        }
    }
    Ok(paths)
}

/// Text, unless it is empty.
fn some_of(alloc: Global, bytes: &[u8]) -> Result<Option<String>, PassedFault> {
    let text = text_of(bytes)?;
    if text.is_empty() {
        return Ok(None);
    }
    Ok(Some(String::from_str(alloc, text)?))
}

impl XkcAsked<'_> {
    /// The options that are asked for.
    fn options(&self, alloc: Global) -> Result<Option<String>, PassedFault> {
        if self.has_options == 0 {
            return some_of(alloc, self.options);
        }
        Ok(Some(String::from_str(alloc, text_of(self.options)?)?))
    }

    /// The names that are asked for.
    ///
    /// # Errors
    /// Where one is no text, or no memory is left.
    pub fn names(&self, alloc: Global) -> Result<Names, PassedFault> {
        Ok(Names {
            rules: some_of(alloc, self.rules)?,
            model: some_of(alloc, self.model)?,
            layouts: some_of(alloc, self.layouts)?,
            variants: some_of(alloc, self.variants)?,
            options: self.options(alloc)?,
            asks_environment: self.environment != 0,
        })
    }
}
