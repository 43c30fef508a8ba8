//! Files that are written whole or not at all.
use std::alloc::{AllocError, Global};
use std::fs::{File, Metadata, OpenFile, Permissions};
use std::io::Write;
use std::rt::Files as FileSystem;
use std::{fs, io};

/// What stands where a file is to be written.
#[derive(Drop)]
pub(crate) enum Standing {
    /// Nothing: a new file is put there.
    Nothing,
    /// A plain file, which a new one with its permissions replaces.
    Plain(Metadata),
    /// Something else, as a device or a link, which is written into.
    Other,
}

pub(crate) fn standing_at(rt: &impl FileSystem, path: &str) -> Standing {
    match fs::symlink_metadata(rt, path) {
        Ok(found) if found.is_file() => Standing::Plain(found),
        Ok(_) => Standing::Other,
        Err(fault) if fault.kind() == io::ErrorKind::NotFound => Standing::Nothing,
        Err(_) => Standing::Other,
    }
}

/// Writes a new file, with these permissions where some are given; one that is there already is left alone.
fn write_new(
    rt: &impl FileSystem,
    path: &str,
    bytes: &[u8],
    permissions: &Option<Permissions>,
) -> io::Result<()> {
    let permissions = permissions.clone()?;
    let mut file = File::create_new(rt, path)?;
    if let Some(permissions) = permissions {
        let _ = file.set_permissions(permissions);
    }
    match file.write_all(bytes) {
        Ok(()) => Ok(()),
        Err(fault) => {
            let _ = fs::remove_file(rt, path);
            Err(fault)
        }
    }
}

/// Puts a new file, which stands beside the old one, in its place.
fn put_in_place(rt: &impl FileSystem, beside: &str, path: &str) -> io::Result<()> {
    match fs::rename(rt, beside, path) {
        Ok(()) => Ok(()),
        Err(fault) => {
            let _ = fs::remove_file(rt, beside);
            Err(fault)
        }
    }
}

/// How many names of a new file beside another are tried.
const MOST_PARTS: u32 = 10;

/// The name of a new file beside another: `PATH.part`, then `PATH.part1` and so on.
fn part_of(alloc: Global, path: &str, number: u32) -> Result<String, AllocError> {
    match number {
        0 => format!(in alloc; "{path}.part"),
        _ => format!(in alloc; "{path}.part{number}"),
    }
}

/// Writes a file where this stands: beside it first, and then in its place, so that it is never cut. A part that is there
/// already is left alone, since it may be another's: another run writes it, or left it where it was killed.
pub(crate) fn write_over(
    rt: &(impl FileSystem + AllocGlobal),
    path: &str,
    bytes: &[u8],
    standing: Standing,
) -> io::Result<()> {
    let permissions = match standing {
        Standing::Nothing => None,
        Standing::Plain(found) => Some(found.permissions()),
        Standing::Other => return fs::write(rt, path, bytes),
    };
    for number in 0..MOST_PARTS {
        let beside = part_of(rt.alloc(), path, number)?;
        match write_new(rt, beside.as_str(), bytes, &permissions) {
            Ok(()) => return put_in_place(rt, beside.as_str(), path),
            Err(fault) if fault.kind() == io::ErrorKind::AlreadyExists => {}
            Err(fault) => return Err(fault),
        }
    }
    Err(io::Error::from(io::ErrorKind::AlreadyExists))
}
