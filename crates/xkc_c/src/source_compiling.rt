//! What a source means: its keymap, the text that clients read, and what its image leaves out.
ghost use Rattle.std.specs.Prelude.{◌≡◌, ◌≢◌, ◌⊎◌, ℕ, List, IsSome, IsSomeAnd, None, Some};
ghost use Rattle.kx_client_text.specs.ClientText.{HasNoText, IsClientText};
ghost use Rattle.kx_clients.specs.LeavesOut.{LeavesOut};
ghost use Rattle.kx_lex.specs.declared.fault.Fault.{Fault};
ghost use Rattle.kx_source.specs.Source.{HasFault, Means};
ghost use Rattle.kx_sources.specs.Given.{Given};
ghost use Rattle.kx_tables.specs.Keymap.{keymap_of};
ghost use Rattle.kx_tool.specs.Compiled.{IsCompiled};
ghost use Rattle.kx_calls.specs.FaultInC.{fault_in_c};
ghost use Rattle.kx_calls.specs.NamesInC.{names_in};
ghost use Rattle.kx_calls.specs.Out.{Copies};
ghost use Rattle.kx_calls.specs.declared.status.TheConstants.{EMPTY, MEMORY, MISSING, OK, SOURCE};

use kx_calls::fault::{XkcFault, refusal};
use kx_calls::notes::XkcNotes;
use kx_calls::out::copy;
use kx_calls::source_compiling::{compiled_under, leave_into, text_under, told};
use kx_calls::status::{EMPTY, MEMORY, MISSING, OK, SOURCE};
use kx_handles::{KeymapHandle, NamesHandle};
use kx_lex::Fault;
use kx_sources::{LeftHandle, SourceHandle, WordsHandle};
use std::alloc::Global;

/// Compiles a source under names of further keysyms, and puts the keymap in the place of what the handle has.
#[unsafe(no_mangle)]
pub extern "C" fn xkc_source_compile(
    alloc: Global,
    source: &mut SourceHandle,
    names: &mut NamesHandle,
    keymap: &mut KeymapHandle,
    notes: &mut XkcNotes,
    fault: &mut XkcFault,
    words: &mut WordsHandle,
) -> u32
    ensures source { source.new.value ≡ source.old.value }
    ensures names { names.new.value ≡ names.old.value }
    ensures empty { source.old.value ≡ None → result ≡ EMPTY }
    ensures compiled { (given : Given) → source.old.value ≡ Some given → result ≡ OK
        → IsSomeAnd keymap.new.value (λ content. IsCompiled given.text given.files
        (names_in names.old.value) (keymap_of content)) }
    ensures means { (given : Given) → source.old.value ≡ Some given → result ≡ OK
        → IsSomeAnd keymap.new.value (Means given.text given.files
        (names_in names.old.value)) }
    ensures refused { result ≢ OK → (keymap.new ≡ keymap.old) × (notes.new ≡ notes.old) }
    ensures fault { (given : Given) → source.old.value ≡ Some given → result ≡ SOURCE
        → (e : Fault) × ((fault.new ≡ fault_in_c e)
        × HasFault given.text given.files (names_in names.old.value) e) }
    ensures said { result ≡ SOURCE → IsSome words.new.value }
    ensures no_fault { result ≢ SOURCE → (fault.new ≡ fault.old) × (words.new ≡ words.old) }
    ensures statuses { (given : Given) → source.old.value ≡ Some given
        → (result ≡ OK) ⊎ ((result ≡ MEMORY) ⊎ (result ≡ SOURCE)) }
{
    let Some(held) = source.take(alloc) else {
        return EMPTY;
    };
    let status = match compiled_under(alloc, &held, names) {
        Ok((compiled, counts)) => {
            keymap.put(compiled);
            *notes = counts;
            OK
        }
        Err(found) => match told(alloc, &held, found) {
            None => MEMORY,
            Some((told, said)) => {
                *fault = told;
                words.put(said);
                SOURCE
            }
        },
    };
    source.put(held);
    status
}

/// Copies the text that clients read of a source where there is room for it, and tells its size.
#[unsafe(no_mangle)]
pub extern "C" fn xkc_source_text(
    alloc: Global,
    source: &mut SourceHandle,
    names: &mut NamesHandle,
    out: &mut [u8],
    size: &mut usize,
) -> u32
    ensures source { source.new.value ≡ source.old.value }
    ensures names { names.new.value ≡ names.old.value }
    ensures empty { source.old.value ≡ None → result ≡ EMPTY }
    ensures nothing { (result ≡ EMPTY) ⊎ ((result ≡ MEMORY) ⊎ ((result ≡ SOURCE) ⊎ (result ≡ MISSING)))
        → (out.new ≡ out.old) × (size.new ≡ size.old) }
    ensures text { (given : Given) → source.old.value ≡ Some given
        → (result ≡ MEMORY) ⊎ ((result ≡ SOURCE) ⊎ ((result ≡ MISSING) ⊎ ((text : List ℕ)
        × (Copies text out.old out.new size.new result
        × IsClientText given.text given.files (names_in names.old.value) text)))) }
    ensures missing { (given : Given) → source.old.value ≡ Some given → result ≡ MISSING
        → HasNoText given.text given.files (names_in names.old.value) }
    ensures fault { (given : Given) → source.old.value ≡ Some given → result ≡ SOURCE
        → (e : Fault) × HasFault given.text given.files (names_in names.old.value) e }
{
    let Some(held) = source.take(alloc) else {
        return EMPTY;
    };
    let status = match text_under(alloc, &held, names) {
        Ok(Some(text)) => copy(text.as_slice(), out, size),
        Ok(None) => MISSING,
        Err(found) => refusal(found),
    };
    source.put(held);
    status
}

/// Puts what the image of a source leaves out in the place of what the handle has.
#[unsafe(no_mangle)]
pub extern "C" fn xkc_source_left(
    alloc: Global,
    source: &mut SourceHandle,
    names: &mut NamesHandle,
    left: &mut LeftHandle,
) -> u32
    ensures source { source.new.value ≡ source.old.value }
    ensures names { names.new.value ≡ names.old.value }
    ensures empty { source.old.value ≡ None → result ≡ EMPTY }
    ensures left { (given : Given) → source.old.value ≡ Some given → result ≡ OK
        → IsSomeAnd left.new.value (LeavesOut given.text given.files
        (names_in names.old.value)) }
    ensures refused { result ≢ OK → left.new ≡ left.old }
    ensures fault { (given : Given) → source.old.value ≡ Some given → result ≡ SOURCE
        → (e : Fault) × HasFault given.text given.files (names_in names.old.value) e }
    ensures statuses { (given : Given) → source.old.value ≡ Some given
        → (result ≡ OK) ⊎ ((result ≡ MEMORY) ⊎ (result ≡ SOURCE)) }
{
    let Some(held) = source.take(alloc) else {
        return EMPTY;
    };
    let status = match leave_into(alloc, &held, names, left) {
        Ok(()) => OK,
        Err(found) => refusal(found),
    };
    source.put(held);
    status
}
