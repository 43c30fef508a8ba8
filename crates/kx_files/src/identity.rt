//! Which file is which, by whatever path.
use std::fs;
use std::fs::Metadata;
use std::os::unix::fs::MetadataExt;
use std::rt::Files as FileSystem;

/// What tells a file from all others.
#[derive(Clone, Copy, PartialEq, Eq)]
pub(crate) struct Identity {
    device: u64,
    node: u64,
}

impl Identity {
    /// Of a file that a file system numbers.
    pub(crate) fn of(found: &Metadata) -> Option<Identity> {
        match found.ino() {
            0 => None,
            node => Some(Identity {
                device: found.dev(),
                node,
            }),
        }
    }

    /// Of the file to which a path leads.
    pub(crate) fn at(rt: &impl FileSystem, path: &str) -> Option<Identity> {
        Identity::of(&fs::metadata(rt, path).ok()?)
    }
}
