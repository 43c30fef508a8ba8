//! Files that are found in folders.
use crate::fault::NamesFault;
use kx_reach::Folder;
use std::alloc::AllocError;
use std::io;
use std::rt::Files;

/// The folder at a path; none where it can't be used.
pub fn open_folder(
    rt: &(impl Files + AllocGlobal),
    path: &str,
) -> Result<Option<Folder>, AllocError> {
    match Folder::open(rt, path) {
        Ok(folder) => Ok(Some(folder)),
        Err(fault) if fault.kind() == io::ErrorKind::OutOfMemory => Err(AllocError),
        Err(_) => Ok(None),
    }
}

/// A file of a folder.
fn read_in(
    rt: &(impl Files + AllocGlobal),
    folder: &Folder,
    name: &str,
) -> Result<Option<Vec<u8>>, NamesFault> {
    match folder.read(rt, name) {
        Ok(bytes) => Ok(bytes),
        Err(fault) if fault.kind() == io::ErrorKind::OutOfMemory => Err(NamesFault::Memory),
        Err(_) => Err(NamesFault::File(folder.path_of(name)?)),
    }
}

/// The bytes of the first file among folders that has a path below them. So many folders were tried before, and aren't again.
///
/// # Errors
/// Where none has it, or it can't be read, or no memory is left.
pub(crate) fn read_next(
    rt: &(impl Files + AllocGlobal),
    folders: &[Folder],
    name: &str,
    tried: &mut usize,
) -> Result<Vec<u8>, NamesFault> {
    for folder in folders.iter().skip(*tried) {
        if let Some(bytes) = read_in(rt, folder, name)? {
            return Ok(bytes);
        }
        *tried = tried.saturating_add(1);
    }
    Err(NamesFault::Missing(String::from_str(rt.alloc(), name)?))
}

/// The bytes of the first file among folders that has a path below them.
///
/// # Errors
/// Where none has it, or it can't be read, or no memory is left.
pub(crate) fn read_first(
    rt: &(impl Files + AllocGlobal),
    folders: &[Folder],
    name: &str,
) -> Result<Vec<u8>, NamesFault> {
    read_next(rt, folders, name, &mut 0)
}
