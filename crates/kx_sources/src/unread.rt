//! Why there is no source.
use crate::words::Words;
use kx_failure::Failure;
use std::alloc::{AllocError, Global};

/// Why there is no source, and what is said of it.
#[derive(Drop)]
pub enum Unread {
    Memory,
    /// A file or folder is there and can't be read.
    File(Words),
    /// There are no rules of that name, or they are refused.
    Rules(Words),
}

impl From<AllocError> for Unread {
    fn from(_: AllocError) -> Self {
        Unread::Memory
    }
}

impl Unread {
    /// A file or folder of which this is said.
    pub(crate) fn file(alloc: Global, failure: &Failure) -> Unread {
        let words = failure.words();
        match format!(in alloc; "{words}") {
            Ok(said) => Unread::File(Words::of(said)),
            Err(_) => Unread::Memory,
        }
    }

    /// A path or a name of bytes that are no text.
    pub fn no_text(alloc: Global) -> Unread {
        match String::from_str(alloc, "error: a path or a name is no text in UTF-8\n") {
            Ok(said) => Unread::File(Words::of(said)),
            Err(_) => Unread::Memory,
        }
    }

    /// Rules of which this is said.
    pub(crate) fn rules(said: String) -> Unread {
        Unread::Rules(Words::of(said))
    }
}
