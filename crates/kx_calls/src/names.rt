//! Names of keysyms.
ghost use Rattle.std.specs.Prelude.{◌≡◌, ◌≢◌, ◌⊎◌, IfErr, IfOk, IfSome, MatchOption, None, OnOk, Some};
ghost use Rattle.std.specs.Str.{IsUtf8};
ghost use Rattle.ks_core.specs.Lines.{AreFaultless, IsFirstFault, given_by, lines_of};
ghost use Rattle.ks_core.specs.Names.{keysym_named, name_of_keysym};
ghost use Rattle.ks_core.specs.declared.fault.NameFault.{NameFault};
ghost use Rattle.ks_core.specs.declared.fault.NameFault.TheVariants.{Memory};
ghost use Rattle.ks_core.specs.Table.{with_names};
ghost use Rattle.kx_calls.specs.NamesInC.{names_fault_in_c, names_in};

use arrayvec::ArrayString;
use ks_core::{Keysym, NameFault, NameTable};
use kx_handles::NamesHandle;
use std::alloc::Global;

/// Why lines of names are refused: the number n of the fault Nn, and the line, counted from 1.
#[repr(C)]
#[derive(Clone, Copy)]
pub struct XkcNamesFault {
    pub line: usize,
    pub number: u32,
}

/// The names of lines on the heap.
///
/// # Errors
/// The first fault of the lines, or `Memory`.
pub fn boxed(alloc: Global, lines: &[u8]) -> Result<Box<NameTable>, NameFault>
    ensures names { IfOk result (λ b. b.value ≡ with_names (given_by (lines_of lines.now))) }
    ensures faultless { OnOk result (AreFaultless (lines_of lines.now)) }
    ensures fault { IfErr result (λ e. (e ≡ Memory) ⊎ IsFirstFault (lines_of lines.now) e) }
{
    let table = NameTable::with_lines(alloc, lines)?;
    match Box::new(alloc, table) {
        Err(_) => Err(NameFault::Memory),
        Ok(boxed) => Ok(boxed),
    }
}

/// The keysym that bytes name.
pub fn keysym_named(alloc: Global, names: &mut NamesHandle, name: &[u8]) -> Option<u32>
    ensures names { names.new.value ≡ names.old.value }
    ensures found { IfSome result (λ keysym.
        keysym_named (names_in names.old.value) name.now ≡ Some keysym) }
    ensures missing { result ≡ None → IsUtf8 name.now
        → keysym_named (names_in names.old.value) name.now ≡ None }
{
    let Ok(text) = str::from_utf8(name) else {
        return None;
    };
    let found = match names.take(alloc) {
        None => NameTable::builtin().by_name(text),
        Some(table) => {
            let found = table.by_name(text);
            names.put(table);
            found
        }
    };
    match found {
        None => None,
        Some(keysym) => Some(keysym.0),
    }
}

/// Sets a text to the name of a keysym.
pub fn write_name(
    alloc: Global,
    names: &mut NamesHandle,
    keysym: Keysym,
    name: &mut ArrayString<64>,
)
    ensures names { names.new.value ≡ names.old.value }
    ensures name { name.new.bytes ≡ name_of_keysym (names_in names.old.value) keysym.0 }
{
    match names.take(alloc) {
        None => NameTable::builtin().write_name(keysym, name),
        Some(table) => {
            table.write_name(keysym, name);
            names.put(table);
        }
    }
}

impl XkcNamesFault {
    /// What a fault of lines says; lack of memory is none.
    pub fn of(fault: NameFault) -> Option<XkcNamesFault>
        ensures { MatchOption result (fault ≡ Memory) (λ told. (told ≡ names_fault_in_c fault)
            × (fault ≢ Memory)) }
    {
        match fault {
            NameFault::Memory => None,
            NameFault::LineShape(line) => Some(XkcNamesFault { line, number: 2 }),
            NameFault::Twice(line) => Some(XkcNamesFault { line, number: 3 }),
            NameFault::Value(line) => Some(XkcNamesFault { line, number: 4 }),
        }
    }
}
