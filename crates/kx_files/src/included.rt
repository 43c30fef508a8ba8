//! The files that a source may include.
use kx_include::Files;
use kx_reach::{Found, Text, hand_in};
use std::alloc::{AllocError, Global};

/// A file that a source may include: its name, and where it lies.
#[derive(Clone, Copy)]
pub struct Included<'a> {
    /// The name under which it is handed in.
    pub name: &'a str,
    /// The path at which it is read.
    pub path: &'a str,
}

/// Files that are handed in, of which each has its bytes at the same place.
///
/// # Errors
/// Where there is no memory for them.
pub fn handed_in(
    alloc: Global,
    included: &[Included],
    bytes: Vec<Vec<u8>>,
) -> Result<Files, AllocError> {
    let mut files = Files::new(alloc);
    for (file, bytes) in included.iter().zip(bytes) {
        hand_in(&mut files, file.name, bytes)?;
    }
    Ok(files)
}

/// The files that a source may include, as texts: those that are handed in, and after them those that were found.
///
/// # Errors
/// Where there is no memory for them.
pub fn texts_of<'t, 'a: 't>(
    alloc: Global,
    included: &[Included<'a>],
    found: &'t [Found],
    files: &'t Files,
) -> Result<Vec<Text<'t>>, AllocError> {
    let mut texts = Vec::new(alloc);
    for file in included {
        let name = file.name;
        let path = file.path;
        let bytes = files.bytes_at(texts.len());
        texts.push(Text { name, path, bytes })?;
    }
    for file in found {
        let name = file.name.as_str();
        let path = file.path.as_str();
        let bytes = files.bytes_at(texts.len());
        texts.push(Text { name, path, bytes })?;
    }
    Ok(texts)
}

/// Of each file that a source may include, whether it is installed: of those that are handed in none is, since a word names
/// them.
fn installed_among(
    alloc: Global,
    included: &[Included],
    found: &[Found],
) -> Result<Vec<bool>, AllocError> {
    let mut installed = Vec::new(alloc);
    for _ in included {
        installed.push(false)?;
    }
    for file in found {
        installed.push(file.is_installed)?;
    }
    Ok(installed)
}

/// The files that a source may include.
#[derive(Drop)]
pub struct Handed<'t> {
    /// The files as texts.
    pub texts: Vec<Text<'t>>,
    /// Of each text whether it is installed.
    pub installed: Vec<bool>,
}

/// The same files as [`texts_of`], and which of them are installed.
///
/// # Errors
/// Where there is no memory for them.
pub fn all_handed<'t, 'a: 't>(
    alloc: Global,
    included: &[Included<'a>],
    found: &'t [Found],
    files: &'t Files,
) -> Result<Box<Handed<'t>>, AllocError> {
    let texts = texts_of(alloc, included, found, files)?;
    let installed = installed_among(alloc, included, found)?;
    Ok(Box::new(alloc, Handed { texts, installed })?)
}
