//! What was told of paths.
use crate::environment::Variables;
use crate::file::{ToldFile, unsupported};
use std::alloc::{AllocError, Allocator, Global};
use std::cell::Cell;
use std::collections::BTreeMap;
use std::fs::{Files, Metadata, OpenOptions};
use std::io;
use std::io::Empty;
use std::path::PathBuf;
use std::rc::Rc;

/// What is at a path.
#[derive(Drop)]
enum Place {
    /// Nothing, or what can't be read, with the system's number of why.
    Refused(i32),
    /// A folder or a file, with its path without links; a file with its bytes.
    Folder(String),
    File(String, Rc<Vec<u8>>),
}

/// The kind of a fault of a path of which nothing was told yet.
const UNKNOWN: io::ErrorKind = io::ErrorKind::WouldBlock;

/// The paths and the variables that were told. A path of which nothing was told is a fault of its own, and no folder is listed.
#[derive(Drop)]
pub struct Told {
    alloc: Global,
    places: BTreeMap<String, Place>,
    variables: Variables,
    /// The path that was looked for in vain.
    asked: Cell<Option<String>>,
}

impl Told {
    /// No path, and these variables.
    pub fn new(alloc: Global, variables: Variables) -> Told {
        Told {
            alloc,
            places: BTreeMap::new(alloc),
            variables,
            asked: Cell::new(None),
        }
    }

    /// The path of which nothing was told, where one was looked for since this was called.
    pub fn asked(&self) -> Option<String> {
        self.asked.replace(None)
    }

    /// The fault of a path of which nothing was told yet, which is kept.
    fn ask(&self, path: &str) -> io::Error {
        match String::from_str(self.alloc, path) {
            Ok(path) => {
                drop(self.asked.replace(Some(path)));
                io::Error::from(UNKNOWN)
            }
            Err(_) => io::Error::from(io::ErrorKind::OutOfMemory),
        }
    }

    pub(crate) fn variables(&self) -> &Variables {
        &self.variables
    }

    fn tell(&mut self, path: &str, place: Place) -> Result<(), AllocError> {
        let path = String::from_str(self.alloc, path)?;
        self.places.insert(path, place)?;
        Ok(())
    }

    /// Tells that there is nothing at a path, or why it can't be read.
    ///
    /// # Errors
    /// Where a growth is refused.
    pub fn tell_refused(&mut self, path: &str, number: i32) -> Result<(), AllocError> {
        self.tell(path, Place::Refused(number))
    }

    /// Tells the folder at a path.
    ///
    /// # Errors
    /// Where a growth is refused.
    pub fn tell_folder(&mut self, path: &str, whole: &str) -> Result<(), AllocError> {
        let whole_path = String::from_str(self.alloc, whole)?;
        self.tell(path, Place::Folder(whole_path))
    }

    /// Tells the file at a path, under that path and its own without links.
    ///
    /// # Errors
    /// Where a growth is refused.
    pub fn tell_file(&mut self, path: &str, whole: &str, bytes: Vec<u8>) -> Result<(), AllocError> {
        let bytes = Rc::new(self.alloc, bytes)?;
        let again = bytes.clone()?;
        let own = Place::File(String::from_str(self.alloc, whole)?, again);
        self.tell(whole, own)?;
        let at = Place::File(String::from_str(self.alloc, whole)?, bytes);
        self.tell(path, at)
    }

    fn place(&self, path: &str) -> io::Result<&Place> {
        match self.places.get(path) {
            Some(Place::Refused(number)) => Err(io::Error::from_raw_os_error(*number)),
            Some(place) => Ok(place),
            None => Err(self.ask(path)),
        }
    }
}

impl Files for Told {
    type File = ToldFile;

    type Dir = Empty;

    fn open_file(&self, how: &OpenOptions, path: &str) -> io::Result<ToldFile> {
        how.check()?;
        if how.asks_write() || how.asks_append() {
            return unsupported();
        }
        match self.place(path)? {
            Place::File(_, bytes) => Ok(ToldFile::of(bytes.clone()?)),
            _ => Err(io::Error::from(io::ErrorKind::IsADirectory)),
        }
    }

    fn open_dir(&self, _path: &str) -> io::Result<Empty> {
        unsupported()
    }

    fn metadata(&self, path: &str) -> io::Result<Metadata> {
        match self.place(path)? {
            Place::Refused(number) => Err(io::Error::from_raw_os_error(*number)),
            Place::File(_, bytes) => Ok(Metadata::of_file(bytes.len() as u64)),
            Place::Folder(_) => Ok(Metadata::of_dir()),
        }
    }

    fn symlink_metadata(&self, _path: &str) -> io::Result<Metadata> {
        unsupported()
    }

    fn copy(&self, _from: &str, _to: &str) -> io::Result<u64> {
        unsupported()
    }

    fn rename(&self, _from: &str, _to: &str) -> io::Result<()> {
        unsupported()
    }

    fn remove_file(&self, _path: &str) -> io::Result<()> {
        unsupported()
    }

    fn create_dir(&self, _path: &str) -> io::Result<()> {
        unsupported()
    }

    fn remove_dir(&self, _path: &str) -> io::Result<()> {
        unsupported()
    }

    fn remove_dir_all<B: Allocator>(&self, _alloc: B, _path: &str) -> io::Result<()> {
        unsupported()
    }

    fn canonicalize<B: Allocator>(&self, alloc: B, path: &str) -> io::Result<PathBuf<B>> {
        match self.place(path)? {
            Place::Folder(whole) | Place::File(whole, _) => {
                Ok(PathBuf::from_str(alloc, whole.as_str())?)
            }
            Place::Refused(number) => Err(io::Error::from_raw_os_error(*number)),
        }
    }
}
