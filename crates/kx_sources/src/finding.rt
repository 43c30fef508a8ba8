//! The files that a source's includes reach.
use crate::unread::Unread;
use kx_failure::Failure;
use kx_include::Files;
use kx_reach::{FindFault, Finding, Folder, Found, read_file};
use std::alloc::{AllocError, Global};
use std::io;
use std::rt::Files as FileSystem;

/// The failure of a file that was found and can't be read: it is tried again, to see why.
pub(crate) fn unusable(rt: &(impl FileSystem + AllocGlobal), path: String) -> Unread {
    let kind = match read_file(rt, path.as_str()) {
        Ok(_) => io::ErrorKind::Other,
        Err(fault) => fault.kind(),
    };
    Unread::file(rt.alloc(), &Failure::Found(path, kind))
}

/// The folder at a path.
fn open_folder(rt: &(impl FileSystem + AllocGlobal), path: &str) -> Result<Folder, Unread> {
    match Folder::open(rt, path) {
        Ok(folder) => Ok(folder),
        Err(fault) if fault.kind() == io::ErrorKind::OutOfMemory => Err(Unread::Memory),
        Err(fault) => Err(Unread::file(rt.alloc(), &Failure::File(path, fault.kind()))),
    }
}

/// The folders of paths, as far as they are open, and how far the files are found that a source's includes reach in them.
#[derive(Drop)]
pub(crate) struct Reaching {
    alloc: Global,
    paths: Vec<String>,
    folders: Vec<Folder>,
    finding: Option<Finding>,
}

impl Reaching {
    /// No folder is open yet.
    pub(crate) fn of(alloc: Global, paths: Vec<String>) -> Reaching {
        Reaching {
            alloc,
            paths,
            folders: Vec::new(alloc),
            finding: None,
        }
    }

    pub(crate) fn paths(&self) -> &[String] {
        self.paths.as_slice()
    }

    /// The paths again.
    pub(crate) fn copied_paths(&self) -> Result<Vec<String>, AllocError> {
        let mut copies = Vec::new(self.alloc);
        for path in self.paths.as_slice() {
            copies.push(String::from_str(self.alloc, path.as_str())?)?;
        }
        Ok(copies)
    }

    pub(crate) fn folders(&self) -> &[Folder] {
        self.folders.as_slice()
    }

    /// Has these folders where it has none.
    pub(crate) fn default_paths(&mut self, paths: &[String]) -> Result<(), AllocError> {
        if !self.paths.is_empty() {
            return Ok(());
        }
        for path in paths {
            self.paths
                .push(String::from_str(self.alloc, path.as_str())?)?;
        }
        Ok(())
    }

    /// Opens the folders that aren't open yet.
    pub(crate) fn open(&mut self, rt: &(impl FileSystem + AllocGlobal)) -> Result<(), Unread> {
        for path in self.paths.iter().skip(self.folders.len()) {
            let folder = open_folder(rt, path.as_str())?;
            if self.folders.push(folder).is_err() {
                return Err(Unread::Memory);
            }
        }
        Ok(())
    }

    /// Finds the files that the includes of a source reach. With no folder nothing is looked for.
    pub(crate) fn find(
        &mut self,
        rt: &(impl FileSystem + AllocGlobal),
        source: &[u8],
    ) -> Result<(), Unread> {
        if self.folders.is_empty() {
            return Ok(());
        }
        let mut finding = match self.finding.take() {
            Some(finding) => finding,
            None => Finding::of(self.alloc, source, Files::new(self.alloc))?,
        };
        let outcome = match finding.go_on(rt, self.folders.as_slice()) {
            Ok(()) => Ok(()),
            Err(FindFault::File(path)) => Err(unusable(rt, path)),
            // Such a walk can't go on.
            Err(FindFault::Memory) => return Err(Unread::Memory),
        };
        self.finding = Some(finding);
        outcome
    }

    /// Whether an include named a file or a map that isn't there.
    pub(crate) fn misses(&self) -> bool {
        self.finding
            .as_ref()
            .is_some_and(|finding| finding.misses())
    }

    /// The files that were found, and what is known of them.
    pub(crate) fn found(&mut self) -> (Files, Vec<Found>) {
        match self.finding.take() {
            Some(finding) => finding.found(),
            None => (Files::new(self.alloc), Vec::new(self.alloc)),
        }
    }
}
