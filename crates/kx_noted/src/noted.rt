//! Where what is passed over stands, as it is found while a source is compiled.
use crate::statements::Reader;
use crate::warning::Warnings;
use ks_core::NameTable;
use kx_explain::Telling;
use kx_include::Files;
use kx_source::{Observer, ReadSource, tables_seen};
use std::alloc::{AllocError, Global};

/// Goes through what was read of a source: the source first, then the author's files, then installed ones.
fn note_all(alloc: Global, reader: &mut Reader) -> Result<(), AllocError> {
    let bodies = reader.read.bodies;
    for body in [
        &bodies.symbols,
        &bodies.compat,
        &bodies.types,
        &bodies.keycodes,
    ] {
        reader.note_own(body)?;
    }
    reader.note_files(&bodies.types, false)?;
    reader.note_files(&bodies.keycodes, false)?;
    reader.note_taken_codes(&bodies.keycodes)?;
    for is_installed in [false, true] {
        reader.note_files(&bodies.symbols, is_installed)?;
        reader.note_files(&bodies.compat, is_installed)?;
    }
    reader.note_keys(alloc)?;
    reader.warnings.finish()
}

/// What is passed over in what was read of a source, with the places where it stands.
fn warnings(
    alloc: Global,
    read: ReadSource,
    is_whole: bool,
    installed: &[bool],
) -> Result<Box<Warnings>, AllocError> {
    let mut reader = Reader::new(alloc, read, is_whole, installed)?;
    note_all(alloc, &mut reader)?;
    Ok(reader.warnings)
}

/// The warnings of a source that is compiled, where they are wanted.
#[derive(Drop)]
pub struct Noted<'f> {
    telling: Telling,
    /// Of each file that the source may include, whether it is installed.
    installed: &'f [bool],
    /// None before a source has tables, where none are wanted, and where no memory is left for them.
    pub warnings: Option<Box<Warnings>>,
}

impl<'f> Noted<'f> {
    /// None yet.
    pub fn new(telling: Telling, installed: &'f [bool]) -> Noted<'f> {
        Noted {
            telling,
            installed,
            warnings: None,
        }
    }

    /// Looks at a source by itself. Of one that is refused there are none.
    pub fn look(&mut self, alloc: Global, source: &[u8], files: &Files, names: &NameTable) {
        let _ = tables_seen(alloc, source, files, names, self);
    }
}

impl Observer for Noted<'_> {
    fn observe(&mut self, alloc: Global, read: ReadSource) {
        let is_whole = match self.telling {
            Telling::Nothing => return,
            Telling::Own => false,
            Telling::All => true,
        };
        self.warnings = warnings(alloc, read, is_whole, self.installed).ok();
    }
}
