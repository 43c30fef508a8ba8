//! Folders under which files are looked for.
use kx_parse::Kind;
use std::alloc::{AllocError, Global};
use std::io::{Read, Seek, SeekFrom};
use std::rt::Files;
use std::{fs, io};

/// Room for this many bytes at most, 16 MiB, is made before a file is read; more is made as it comes.
const MOST_ROOM: u64 = 1 << 24;

/// A folder under which the files of includes are looked for.
pub struct Folder {
    /// Its path, without links and without a `/` at the end.
    path: String,
    /// The kinds of which a folder of files lies in it that is no link.
    own: Vec<Kind>,
}

impl Drop for Folder {
    fn drop(self) {
        let Folder { path: _, own: _ } = self;
    }
}

/// The kinds of sections that files are looked for by.
static KINDS: [Kind; 5] = [
    Kind::Keycodes,
    Kind::Types,
    Kind::Compat,
    Kind::Symbols,
    Kind::Geometry,
];

/// The kinds of which a folder lies at a path that is no link.
fn own_kinds(rt: &(impl Files + AllocGlobal), path: &str) -> Result<Vec<Kind>, AllocError> {
    let mut own = Vec::new(rt.alloc());
    for kind in &KINDS {
        let word = kind.word();
        let below = format!(in rt.alloc(); "{path}/{word}")?;
        if let Ok(known) = fs::symlink_metadata(rt, below.as_str())
            && known.is_dir()
        {
            own.push(*kind)?;
        }
    }
    Ok(own)
}

/// Whether a fault says that there is no such file, or that none can have the name.
fn is_missing(fault: &io::Error) -> bool {
    matches!(
        fault.kind(),
        io::ErrorKind::NotFound
            | io::ErrorKind::NotADirectory
            | io::ErrorKind::IsADirectory
            | io::ErrorKind::InvalidInput
            | io::ErrorKind::InvalidFilename
            | io::ErrorKind::FilesystemLoop
    )
}

/// Nothing, where a file isn't there.
fn found<T: Drop>(outcome: io::Result<T>) -> io::Result<Option<T>> {
    match outcome {
        Ok(value) => Ok(Some(value)),
        Err(fault) if is_missing(&fault) => Ok(None),
        Err(fault) => Err(fault),
    }
}

/// Whether a name stays under its folder: no `/` at its front, and no step `..`.
fn is_below(name: &str) -> bool {
    !name.starts_with('/') && !name.split('/').any(|step| step == "..")
}

/// Whether a path without links lies in a folder.
fn lies_in(path: &str, folder: &str) -> bool {
    match path.strip_prefix(folder) {
        Some(rest) => rest.starts_with('/'),
        None => false,
    }
}

/// Folders below this one hold what is installed; what stands elsewhere is the author's own.
const INSTALLED: &str = "/usr/";

/// Room for the bytes of a file and one more, by where it ends; for one where it has no end to go to, as a pipe.
fn room_for(file: &mut impl Seek) -> io::Result<u64> {
    match file.seek(SeekFrom::End(0)) {
        Ok(end) => {
            file.seek(SeekFrom::Start(0))?;
            Ok(end.min(MOST_ROOM) + 1)
        }
        Err(_) => Ok(1),
    }
}

/// The bytes of a file that is open. Room for them is made at once where their count is known, so that none of them is moved.
///
/// # Errors
/// Where it can't be read, or no memory.
pub fn read_opened(alloc: Global, file: &mut (impl Read + Seek)) -> io::Result<Vec<u8>> {
    let room = room_for(file)?;
    let mut bytes = Vec::with_capacity(alloc, room as usize)?;
    file.read_to_end(&mut bytes)?;
    Ok(bytes)
}

/// The bytes of a file.
///
/// # Errors
/// Where it can't be read, or no memory.
pub fn read_file(rt: &(impl Files + AllocGlobal), path: &str) -> io::Result<Vec<u8>> {
    read_opened(rt.alloc(), &mut fs::open(rt, path)?)
}

impl Folder {
    /// The folder at a path.
    ///
    /// # Errors
    /// Where there is none, or it can't be used.
    pub fn open(rt: &(impl Files + AllocGlobal), path: &str) -> io::Result<Folder> {
        let whole = fs::canonicalize(rt, path)?;
        let whole = whole.as_path().as_str();
        if !fs::metadata(rt, whole)?.is_dir() {
            return Err(io::Error::from(io::ErrorKind::NotADirectory));
        }
        let path = whole.strip_suffix('/').unwrap_or(whole);
        Ok(Folder {
            path: String::from_str(rt.alloc(), path)?,
            own: own_kinds(rt, path)?,
        })
    }

    /// Whether the folder holds what is installed, and not what an author writes: it lies below `/usr`.
    pub fn is_installed(&self) -> bool {
        self.path.as_str().starts_with(INSTALLED)
    }

    /// The path of a name below the folder.
    pub fn path_of(&self, name: &str) -> Result<String, AllocError> {
        let path = self.path.as_str();
        let alloc = *self.path.allocator();
        format!(in alloc; "{path}/{name}")
    }

    /// Whether a name leads by the folder of a kind, which is no link, to a file that is none.
    fn is_own(&self, rt: &impl Files, name: &str, path: &str) -> bool {
        let Some((folder, file)) = name.split_once('/') else {
            return false;
        };
        if file.contains('/') || !self.own.iter().any(|kind| kind.word() == folder) {
            return false;
        }
        fs::symlink_metadata(rt, path).is_ok_and(|known| known.is_file())
    }

    /// The bytes of the file of a name, where it lies below the folder, also behind its links.
    ///
    /// # Errors
    /// Where there is such a file and it can't be read, or no memory.
    pub fn read(&self, rt: &(impl Files + AllocGlobal), name: &str) -> io::Result<Option<Vec<u8>>> {
        if !is_below(name) {
            return Ok(None);
        }
        let path = self.path_of(name)?;
        // Most files are reached without links, and then there are none to follow.
        if self.is_own(rt, name, path.as_str()) {
            return found(read_file(rt, path.as_str()));
        }
        let Some(whole) = found(fs::canonicalize(rt, path.as_str()))? else {
            return Ok(None);
        };
        let whole = whole.as_path().as_str();
        if !lies_in(whole, self.path.as_str()) {
            return Ok(None);
        }
        found(read_file(rt, whole))
    }
}
