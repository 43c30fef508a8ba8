//! The files that a task reads.
use crate::failing::unusable;
use crate::named::source_named;
use ks_core::NameTable;
use kx_failure::Failure;
use kx_files::{Handed, Included, all_handed, handed_in};
use kx_reach::{FindFault, Folder, Found, find_files, read_file};
use kx_tool::{Files, ReplayFault};
use kx_words::{INPUT, Includes, Source};
use std::alloc::{AllocError, Global};
use std::io;
use std::io::Read;
use std::rt::Files as FileSystem;

/// Reads a file whole.
///
/// # Errors
/// What a file that can't be used ends with ([`Failure::of_file`]).
pub(crate) fn read<'a>(
    rt: &(impl FileSystem + AllocGlobal),
    path: &'a str,
) -> Result<Vec<u8>, Failure<'a>> {
    match read_file(rt, path) {
        Ok(bytes) => Ok(bytes),
        Err(fault) => Err(Failure::of_file(&fault, path)),
    }
}

/// Reads standard input to its end.
fn read_input<'a>(rt: &(impl Input + AllocGlobal)) -> Result<Vec<u8>, Failure<'a>> {
    let mut bytes = Vec::new(rt.alloc());
    match rt.reader().read_to_end(&mut bytes) {
        Ok(_) => Ok(bytes),
        Err(fault) if fault.kind() == io::ErrorKind::OutOfMemory => Err(Failure::from(AllocError)),
        Err(_) => Err(Failure::Replay(ReplayFault::Read)),
    }
}

/// Reads a file whole, or standard input to its end where the path is `-`.
///
/// # Errors
/// Lack of memory; [`ReplayFault::Read`] of standard input, or what a file that can't be used ends with.
pub fn read_or_input<'a>(
    rt: &(impl FileSystem + Input + AllocGlobal),
    path: &'a str,
) -> Result<Vec<u8>, Failure<'a>> {
    match path {
        INPUT => read_input(rt),
        _ => read(rt, path),
    }
}

/// The names of keysyms: those of X11, or the built-in ones with those of a file where one is given.
///
/// # Errors
/// What a file that can't be used ends with, or [`Failure::Names`] with the first line that is refused.
pub fn read_names<'a>(
    rt: &(impl FileSystem + AllocGlobal),
    path: Option<&'a str>,
) -> Result<NameTable, Failure<'a>> {
    let Some(path) = path else {
        return Ok(NameTable::x11());
    };
    let lines = read(rt, path)?;
    match NameTable::with_lines(rt.alloc(), lines.as_slice()) {
        Ok(names) => Ok(names),
        Err(fault) => Err(Failure::Names(path, fault)),
    }
}

/// The bytes of the files that a source may include.
fn read_included<'a>(
    rt: &(impl FileSystem + AllocGlobal),
    included: &[Included<'a>],
) -> Result<Vec<Vec<u8>>, Failure<'a>> {
    let mut bytes = Vec::new(rt.alloc());
    for file in included {
        let read_bytes = read(rt, file.path)?;
        if bytes.push(read_bytes).is_err() {
            return Err(Failure::from(AllocError));
        }
    }
    Ok(bytes)
}

/// Reads the files that are handed in, in their order.
///
/// # Errors
/// Lack of memory, or what the first file that can't be used ends with.
pub fn read_handed<'a>(
    rt: &(impl FileSystem + AllocGlobal),
    included: &[Included<'a>],
) -> Result<Files, Failure<'a>> {
    let bytes = read_included(rt, included)?;
    Ok(handed_in(rt.alloc(), included, bytes)?)
}

/// The folders in which files are looked for.
pub(crate) fn open_folders<'a>(
    rt: &(impl FileSystem + AllocGlobal),
    paths: &[&'a str],
) -> Result<Vec<Folder>, Failure<'a>> {
    let mut folders = Vec::new(rt.alloc());
    for path in paths {
        let folder = match Folder::open(rt, path) {
            Ok(folder) => folder,
            Err(fault) => return Err(Failure::of_file(&fault, path)),
        };
        if folders.push(folder).is_err() {
            return Err(Failure::from(AllocError));
        }
    }
    Ok(folders)
}

/// Adds to the files that are handed in those that a source's includes reach in folders, and answers what is known of these.
/// Where no folders are named, nothing is looked for.
///
/// # Errors
/// Lack of memory, or what a folder, or a file that was found and can't be read, ends with.
pub fn find<'a>(
    rt: &(impl FileSystem + AllocGlobal),
    includes: &Includes<'a>,
    handed: Files,
    source: &[u8],
) -> Result<(Files, Vec<Found>), Failure<'a>> {
    let folders = open_folders(rt, includes.folders.as_slice())?;
    if folders.is_empty() {
        return Ok((handed, Vec::new(rt.alloc())));
    }
    match find_files(rt, folders.as_slice(), source, handed) {
        Ok(found) => Ok(found),
        Err(FindFault::File(path)) => Err(unusable(rt, path)),
        Err(FindFault::Memory) => Err(Failure::from(AllocError)),
    }
}

/// A source with the files that it may include: those that are handed in, and after them those that were found.
#[derive(Drop)]
pub struct Gathered {
    pub bytes: Vec<u8>,
    pub files: Files,
    pub found: Vec<Found>,
}

impl Gathered {
    /// The files as texts, and which of them are installed.
    ///
    /// # Errors
    /// Lack of memory.
    pub fn handed<'t, 'a: 't>(
        &'t self,
        alloc: Global,
        includes: &Includes<'a>,
    ) -> Result<Box<Handed<'t>>, AllocError> {
        let included = includes.files.as_slice();
        all_handed(alloc, included, self.found.as_slice(), &self.files)
    }
}

/// Reads a source, or makes it of names.
pub(crate) fn read_source<'a>(
    rt: &(impl FileSystem + Input + Eprint + AllocGlobal),
    source: Source<'a>,
    includes: &Includes<'a>,
    is_quiet: bool,
) -> Result<Vec<u8>, Failure<'a>> {
    match source {
        Source::File(path) => read_or_input(rt, path),
        Source::Names(asked) => source_named(rt, &asked, includes.folders.as_slice(), is_quiet),
    }
}

/// Reads the files that a source may include.
pub(crate) fn gather<'a>(
    rt: &(impl FileSystem + AllocGlobal),
    bytes: Vec<u8>,
    includes: &Includes<'a>,
) -> Result<Gathered, Failure<'a>> {
    let handed = read_handed(rt, includes.files.as_slice())?;
    let (files, found) = find(rt, includes, handed, bytes.as_slice())?;
    Ok(Gathered {
        bytes,
        files,
        found,
    })
}

/// Reads a source, or makes it of names, and reads the files that it may include. Unless it is to be quiet, names that no rule
/// takes are shown.
///
/// # Errors
/// Lack of memory, what an input that can't be used ends with, or names that have no source; standard error says more of these.
pub fn gather_source<'a>(
    rt: &(impl FileSystem + Input + Eprint + AllocGlobal),
    source: Source<'a>,
    includes: &Includes<'a>,
    is_quiet: bool,
) -> Result<Gathered, Failure<'a>> {
    let bytes = read_source(rt, source, includes, is_quiet)?;
    gather(rt, bytes, includes)
}
