//! A source and its files as a library.
ghost use Rattle.std.specs.Prelude.{◌≡◌, ◌⊎◌, IfOk, IfErr};
ghost use Rattle.kx_include.specs.Held.{IsHeld};
ghost use Rattle.kx_include.specs.Source.{HasNoTree, HasTooManyFiles};
ghost use Rattle.kx_lex.specs.Reading.{whole_of};
ghost use Rattle.kx_lex.specs.declared.fault.Fault.TheVariants.{Memory};

use crate::files::Files;
use crate::sources::Library;
use kx_lex::{Fault, Span, lex};
use kx_parse::parse;
use std::alloc::Global;

/// The place of all of a source; it counts no further than 4,294,967,295 bytes.
fn whole(source: &[u8]) -> Span
    ensures { record { file = 0; span = result } ≡ whole_of source.now }
{
    Span {
        start: 0,
        stop: source.len().min(u32::MAX as usize) as u32,
    }
}

impl<'a> Library<'a> {
    /// The library of a source and the files handed in: the source's tree, and the texts of the files, each read once; of those
    /// the statements of the maps that the source's includes reach.
    ///
    /// # Errors
    /// The fault for which the source has no tree; `TooMany` at the whole source where there are more than 65,535 files;
    /// `Memory`.
    pub fn of_source(alloc: Global, source: &[u8], files: &'a Files) -> Result<Library<'a>, Fault>
        ensures read { IfOk result (λ library. IsHeld source.now files.now library) }
        ensures fault { IfErr result (λ e. (e ≡ Memory)
            ⊎ (HasNoTree source.now e ⊎ HasTooManyFiles source.now files.now e)) }
    {
        let tokens = lex(alloc, source)?;
        let tree = parse(alloc, source, tokens.as_slice())?;
        Library::read(alloc, tree, whole(source), files)
    }
}
