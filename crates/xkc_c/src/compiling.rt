//! Keymaps from sources.
ghost use Rattle.std.specs.Prelude.{◌≡◌, ◌≢◌, ◌⊎◌, [], IsSomeAnd};
ghost use Rattle.kx_lex.specs.declared.fault.Fault.{Fault};
ghost use Rattle.kx_source.specs.Source.{HasFault, Means};
ghost use Rattle.kx_tables.specs.Keymap.{keymap_of};
ghost use Rattle.kx_tool.specs.Compiled.{IsCompiled};
ghost use Rattle.kx_calls.specs.FaultInC.{fault_in_c};
ghost use Rattle.kx_calls.specs.Handed.{handed};
ghost use Rattle.kx_calls.specs.NamesInC.{names_in};
ghost use Rattle.kx_calls.specs.declared.status.TheConstants.{MEMORY, OK, SOURCE};

use kx_calls::compiling::compile_into;
use kx_calls::fault::XkcFault;
use kx_calls::files::XkcFile;
use kx_calls::status::{MEMORY, OK, SOURCE};
use kx_handles::{KeymapHandle, NamesHandle};
use kx_lex::Fault;
use std::alloc::Global;

/// Compiles a source, with files that it may include and names of further keysyms, and puts the keymap in the place of
/// what the handle has.
#[unsafe(no_mangle)]
pub extern "C" fn xkc_keymap_compile(
    alloc: Global,
    keymap: &mut KeymapHandle,
    source: &[u8],
    files: &[XkcFile<'_>],
    names: &mut NamesHandle,
    fault: &mut XkcFault,
) -> u32
    ensures compiled { result ≡ OK
        → IsSomeAnd keymap.new.value (λ content.
        IsCompiled source.now (handed [] files.now) (names_in names.old.value)
        (keymap_of content)) }
    ensures means { result ≡ OK → IsSomeAnd keymap.new.value
        (Means source.now (handed [] files.now) (names_in names.old.value)) }
    ensures refused { result ≢ OK → keymap.new ≡ keymap.old }
    ensures fault { result ≡ SOURCE
        → (e : Fault) × (fault.new ≡ fault_in_c e)
        × HasFault source.now (handed [] files.now) (names_in names.old.value) e }
    ensures no_fault { result ≢ SOURCE → fault.new ≡ fault.old }
    ensures names { names.new.value ≡ names.old.value }
    ensures statuses { (result ≡ OK) ⊎ ((result ≡ MEMORY) ⊎ (result ≡ SOURCE)) }
{
    match compile_into(alloc, keymap, source, files, names) {
        Ok(()) => OK,
        Err(found) => match XkcFault::of(found) {
            None => MEMORY,
            Some(told) => {
                *fault = told;
                SOURCE
            }
        },
    }
}
