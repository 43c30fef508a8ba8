//! Names of keysyms.
ghost use Rattle.std.specs.Prelude.{◌≡◌, ◌≢◌, ◌⊎◌, None, Some};
ghost use Rattle.std.specs.Str.{IsUtf8};
ghost use Rattle.ks_core.specs.Lines.{AreFaultless, IsFirstFault, given_by, lines_of};
ghost use Rattle.ks_core.specs.Names.{keysym_named, name_of_keysym};
ghost use Rattle.ks_core.specs.declared.fault.NameFault.{NameFault};
ghost use Rattle.ks_core.specs.Table.{with_names, x11_table};
ghost use Rattle.kx_calls.specs.NamesInC.{names_fault_in_c, names_in};
ghost use Rattle.kx_calls.specs.Out.{Copies};
ghost use Rattle.kx_calls.specs.declared.status.TheConstants.{MEMORY, MISSING, NAMES, OK};

use arrayvec::ArrayString;
use ks_core::{Keysym, NameFault, NameTable};
use kx_calls::names::{XkcNamesFault, boxed, keysym_named, write_name};
use kx_calls::out::copy;
use kx_calls::status::{MEMORY, MISSING, NAMES, OK};
use kx_handles::NamesHandle;
use std::alloc::Global;

/// Reads lines that name further keysyms, and puts them in the place of what the handle has.
#[unsafe(no_mangle)]
pub extern "C" fn xkc_names_read(
    alloc: Global,
    names: &mut NamesHandle,
    lines: &[u8],
    fault: &mut XkcNamesFault,
) -> u32
    ensures read { result ≡ OK → (names.new.value
        ≡ Some (with_names (given_by (lines_of lines.now))))
        × AreFaultless (lines_of lines.now) }
    ensures refused { result ≢ OK → names.new ≡ names.old }
    ensures fault { result ≡ NAMES
        → (e : NameFault) × (fault.new ≡ names_fault_in_c e) × IsFirstFault (lines_of lines.now) e }
    ensures no_fault { result ≢ NAMES → fault.new ≡ fault.old }
    ensures statuses { (result ≡ OK) ⊎ ((result ≡ MEMORY) ⊎ (result ≡ NAMES)) }
{
    match boxed(alloc, lines) {
        Ok(table) => {
            names.put(table);
            OK
        }
        Err(found) => match XkcNamesFault::of(found) {
            None => MEMORY,
            Some(told) => {
                *fault = told;
                NAMES
            }
        },
    }
}

/// Puts the names and letters of X11 in the place of what the handle has.
#[unsafe(no_mangle)]
pub extern "C" fn xkc_names_x11(alloc: Global, names: &mut NamesHandle) -> u32
    ensures filled { result ≡ OK → names.new.value ≡ Some x11_table }
    ensures refused { result ≢ OK → names.new ≡ names.old }
    ensures statuses { (result ≡ OK) ⊎ (result ≡ MEMORY) }
{
    match Box::new(alloc, NameTable::x11()) {
        Err(_) => MEMORY,
        Ok(table) => {
            names.put(table);
            OK
        }
    }
}

/// The keysym of a name.
#[unsafe(no_mangle)]
pub extern "C" fn xkc_names_keysym(
    alloc: Global,
    names: &mut NamesHandle,
    name: &[u8],
    keysym: &mut u32,
) -> u32
    ensures names { names.new.value ≡ names.old.value }
    ensures found { result ≡ OK → keysym_named (names_in names.old.value) name.now
        ≡ Some keysym.new }
    ensures missing { result ≢ OK → (keysym.new ≡ keysym.old)
        × (IsUtf8 name.now → keysym_named (names_in names.old.value) name.now ≡ None) }
    ensures statuses { (result ≡ OK) ⊎ (result ≡ MISSING) }
{
    match keysym_named(alloc, names, name) {
        None => MISSING,
        Some(found) => {
            *keysym = found;
            OK
        }
    }
}

/// Copies the name of a keysym where there is room for it, and tells its size, which is 64 at most.
#[unsafe(no_mangle)]
pub extern "C" fn xkc_names_name(
    alloc: Global,
    names: &mut NamesHandle,
    keysym: u32,
    out: &mut [u8],
    size: &mut usize,
) -> u32
    ensures names { names.new.value ≡ names.old.value }
    ensures name { Copies (name_of_keysym (names_in names.old.value) keysym) out.old out.new
        size.new result }
{
    let mut name = ArrayString::new();
    write_name(alloc, names, Keysym(keysym), &mut name);
    copy(name.as_bytes(), out, size)
}

/// Lets go of what the handle has.
#[unsafe(no_mangle)]
pub extern "C" fn xkc_names_end(alloc: Global, names: &mut NamesHandle)
    ensures { names.new.value ≡ None }
{
    names.end(alloc);
}
