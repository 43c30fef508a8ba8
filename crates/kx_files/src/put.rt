//! A file that is written while others are read.
use crate::identity::Identity;
use crate::writing::{Standing, standing_at, write_over};
use kx_reach::Found;
use std::alloc::AllocError;
use std::io;
use std::rt::Files as FileSystem;

/// Why a file isn't written.
#[derive(Drop)]
pub enum PutFault {
    /// It is one of those that are read, and is left as it is.
    Read,
    /// The system refuses it.
    Write(io::Error),
}

/// The file that is written, and those that are read.
#[derive(Clone, Copy)]
pub struct Put<'a, 't> {
    /// The path of the file that is written.
    pub out: &'a str,
    /// The path of the source, where it is a file.
    pub source: Option<&'t str>,
    /// How many bytes the source gave.
    pub length: usize,
    /// The paths of other files that are read.
    pub named: &'t [&'t str],
    /// What was found in folders.
    pub found: &'t [Found],
    /// The paths of those folders.
    pub folders: &'t [&'t str],
}

/// The part of a path after its folders.
fn last_name(path: &str) -> &str {
    match path.rsplit_once('/') {
        Some((_, name)) => name,
        None => path,
    }
}

impl Put<'_, '_> {
    /// Writes the file: a new or plain one whole or not at all; into a device or a link it is written.
    ///
    /// # Errors
    /// Where it is one of those that are read, by whatever path; what was found only by one with the same name at its end.
    /// Where the system refuses it, or there is no memory.
    pub fn write(
        &self,
        rt: &(impl FileSystem + AllocGlobal),
        bytes: &[u8],
    ) -> Result<(), PutFault> {
        let standing = standing_at(rt, self.out);
        match self.is_read(rt, &standing) {
            Ok(true) => Err(PutFault::Read),
            Ok(false) => write_over(rt, self.out, bytes, standing).map_err(PutFault::Write),
            Err(refused) => Err(PutFault::Write(io::Error::from(refused))),
        }
    }

    /// Whether the file that is written is one of those that are read. What was found has its own name, so that no other is
    /// looked at.
    fn is_read(
        &self,
        rt: &(impl FileSystem + AllocGlobal),
        standing: &Standing,
    ) -> Result<bool, AllocError> {
        let (identity, length) = match standing {
            Standing::Nothing => (None, None),
            Standing::Plain(found) => (Identity::of(found), Some(found.len())),
            Standing::Other => (Identity::at(rt, self.out), None),
        };
        if identity.is_none() {
            return Ok(false);
        }
        if self.is_source(rt, identity, length)
            || self
                .named
                .iter()
                .any(|path| Identity::at(rt, path) == identity)
        {
            return Ok(true);
        }
        for found in self.found {
            let path = found.path.as_str();
            if last_name(path) == last_name(self.out) && self.is_found(rt, path, identity)? {
                return Ok(true);
            }
        }
        Ok(false)
    }

    /// Whether a file is the source; one of another length isn't, which spares most calls a question.
    fn is_source(
        &self,
        rt: &impl FileSystem,
        identity: Option<Identity>,
        length: Option<u64>,
    ) -> bool {
        match (self.source, length) {
            (None, _) => false,
            (Some(_), Some(length)) if length != self.length as u64 => false,
            (Some(path), _) => Identity::at(rt, path) == identity,
        }
    }

    /// Whether a path below one of the folders leads to a file.
    fn is_found(
        &self,
        rt: &(impl FileSystem + AllocGlobal),
        path: &str,
        identity: Option<Identity>,
    ) -> Result<bool, AllocError> {
        for folder in self.folders {
            let whole = format!(in rt.alloc(); "{folder}/{path}")?;
            if Identity::at(rt, whole.as_str()) == identity {
                return Ok(true);
            }
        }
        Ok(false)
    }
}
