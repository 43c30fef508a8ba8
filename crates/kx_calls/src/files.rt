//! The files that a program in C hands in.
ghost use Rattle.std.specs.Prelude.{◌≡◌, [], IfErr, IfOk};
ghost use Rattle.kx_lex.specs.declared.fault.Fault.TheVariants.{Memory};
ghost use Rattle.kx_calls.specs.Handed.{handed};

use kx_include::Files;
use kx_lex::Fault;
use std::alloc::Global;

/// A file: its name, as `symbols/us`, and its bytes.
#[repr(C)]
pub struct XkcFile<'a> {
    pub name: &'a [u8],
    pub text: &'a [u8],
}

/// The files, of which a later one takes the place of one of its name.
///
/// # Errors
/// `Memory`.
pub fn files_of(alloc: Global, given: &[XkcFile<'_>]) -> Result<Files, Fault>
    ensures files { IfOk result (λ files. files ≡ handed [] given.now) }
    ensures memory { IfErr result (λ e. e ≡ Memory) }
{
    let mut files = Files::new(alloc);
    for file in given {
        let name = Vec::from_slice(alloc, file.name)?;
        let text = Vec::from_slice(alloc, file.text)?;
        files.insert(name, text)?;
    }
    Ok(files)
}
