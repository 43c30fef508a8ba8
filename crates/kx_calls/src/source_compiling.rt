//! What a source means: its keymap, the text that clients read, and what its image leaves out.
ghost use Rattle.std.specs.Prelude.{◌≡◌, ◌≢◌, ◌⊎◌, IfErr, IfOk, IfSome, IsSomeAnd, None, OnOk};
ghost use Rattle.kx_client_text.specs.ClientText.{HasNoText, IsClientText};
ghost use Rattle.kx_clients.specs.LeavesOut.{LeavesOut};
ghost use Rattle.kx_lex.specs.declared.fault.Fault.{Fault};
ghost use Rattle.kx_lex.specs.declared.fault.Fault.TheVariants.{Memory};
ghost use Rattle.kx_source.specs.Source.{HasFault, Means};
ghost use Rattle.kx_tables.specs.Keymap.{keymap_of};
ghost use Rattle.kx_tool.specs.Compiled.{IsCompiled};
ghost use Rattle.kx_calls.specs.FaultInC.{fault_in_c};
ghost use Rattle.kx_calls.specs.NamesInC.{names_in};

use crate::fault::XkcFault;
use crate::notes::XkcNotes;
use crate::words::boxed;
use ks_core::NameTable;
use kx_client_text::client_text;
use kx_clients::{LeftOut, left_out};
use kx_handles::{NamesHandle, SharedTables};
use kx_lex::Fault;
use kx_sources::{HeldSource, LeftHandle, Words};
use kx_tool::compile;
use std::alloc::Global;

/// A fault as C has it, with what is said of it; nothing of lack of memory.
pub fn told(alloc: Global, held: &HeldSource, found: Fault) -> Option<(XkcFault, Box<Words>)>
    ensures { IfSome result (λ told. (told.0 ≡ fault_in_c found) × (found ≢ Memory)) }
{
    let told = XkcFault::of(found)?;
    let said = held.said(alloc, found).ok()?;
    let said = boxed(alloc, said).ok()?;
    Some((told, said))
}

/// The tables of a source on the heap, under the names that a handle has, with how much had no effect.
///
/// # Errors
/// Why the source is refused, or `Memory`.
pub fn compiled_under(
    alloc: Global,
    held: &HeldSource,
    names: &mut NamesHandle,
) -> Result<(Box<SharedTables>, XkcNotes), Fault>
    ensures compiled { IfOk result (λ made. IsCompiled held.now.text held.now.files
        (names_in names.old.value) (keymap_of made.0.value)) }
    ensures means { IfOk result (λ made. Means held.now.text held.now.files
        (names_in names.old.value) made.0.value) }
    ensures fault { IfErr result (λ e. (e ≡ Memory)
        ⊎ HasFault held.now.text held.now.files (names_in names.old.value) e) }
    ensures names { names.new.value ≡ names.old.value }
{
    match names.take(alloc) {
        None => compiled(alloc, held, &NameTable::builtin()),
        Some(table) => {
            let made = compiled(alloc, held, &table);
            names.put(table);
            made
        }
    }
}

/// The tables of a source on the heap.
fn compiled(
    alloc: Global,
    held: &HeldSource,
    names: &NameTable,
) -> Result<(Box<SharedTables>, XkcNotes), Fault>
    ensures compiled { IfOk result (λ made. IsCompiled held.now.text held.now.files names.now
        (keymap_of made.0.value)) }
    ensures means { IfOk result (λ made.
        Means held.now.text held.now.files names.now made.0.value) }
    ensures fault { IfErr result (λ e. (e ≡ Memory)
        ⊎ HasFault held.now.text held.now.files names.now e) }
{
    let (image, notes) = compile(alloc, held.text(), held.files(), names)?;
    let Ok(tables) = SharedTables::open(alloc, image) else {
        return Err(Fault::Memory);
    };
    match Box::new(alloc, tables) {
        Err(_) => Err(Fault::Memory),
        Ok(boxed) => Ok((boxed, XkcNotes::of(notes))),
    }
}

/// The text that clients read of a source, under the names that a handle has, where there is one.
///
/// # Errors
/// Why the source is refused, or `Memory`.
pub fn text_under(
    alloc: Global,
    held: &HeldSource,
    names: &mut NamesHandle,
) -> Result<Option<Vec<u8>>, Fault>
    ensures text { IfOk result (λ made. IfSome made (λ text. IsClientText held.now.text
        held.now.files (names_in names.old.value) text.items)) }
    ensures none { IfOk result (λ made. made ≡ None
        → HasNoText held.now.text held.now.files (names_in names.old.value)) }
    ensures fault { IfErr result (λ e. (e ≡ Memory)
        ⊎ HasFault held.now.text held.now.files (names_in names.old.value) e) }
    ensures names { names.new.value ≡ names.old.value }
{
    match names.take(alloc) {
        None => client_text(alloc, held.text(), held.files(), &NameTable::builtin()),
        Some(table) => {
            let made = client_text(alloc, held.text(), held.files(), &table);
            names.put(table);
            made
        }
    }
}

/// Puts what the image of a source leaves out in the place of what the handle has.
///
/// # Errors
/// Why the source is refused, or `Memory`; the handle then has what it had.
pub fn leave_into(
    alloc: Global,
    held: &HeldSource,
    names: &mut NamesHandle,
    left: &mut LeftHandle,
) -> Result<(), Fault>
    ensures left { OnOk result (IsSomeAnd left.new.value (LeavesOut held.now.text
        held.now.files (names_in names.old.value))) }
    ensures refused { IfErr result (λ e. left.new ≡ left.old) }
    ensures fault { IfErr result (λ e. (e ≡ Memory)
        ⊎ HasFault held.now.text held.now.files (names_in names.old.value) e) }
    ensures names { names.new.value ≡ names.old.value }
{
    let found = left_under(alloc, held, names)?;
    left.put(found);
    Ok(())
}

/// What the image of a source leaves out, on the heap, under the names that a handle has.
fn left_under(
    alloc: Global,
    held: &HeldSource,
    names: &mut NamesHandle,
) -> Result<Box<LeftOut>, Fault>
    ensures left { IfOk result (λ b. LeavesOut held.now.text held.now.files
        (names_in names.old.value) b.value) }
    ensures fault { IfErr result (λ e. (e ≡ Memory)
        ⊎ HasFault held.now.text held.now.files (names_in names.old.value) e) }
    ensures names { names.new.value ≡ names.old.value }
{
    match names.take(alloc) {
        None => boxed_left(alloc, held, &NameTable::builtin()),
        Some(table) => {
            let found = boxed_left(alloc, held, &table);
            names.put(table);
            found
        }
    }
}

/// What the image of a source leaves out, on the heap.
fn boxed_left(alloc: Global, held: &HeldSource, names: &NameTable) -> Result<Box<LeftOut>, Fault>
    ensures left { IfOk result (λ b. LeavesOut held.now.text held.now.files names.now b.value) }
    ensures fault { IfErr result (λ e. (e ≡ Memory)
        ⊎ HasFault held.now.text held.now.files names.now e) }
{
    let found = left_out(alloc, held.text(), held.files(), names)?;
    match Box::new(alloc, found) {
        Err(_) => Err(Fault::Memory),
        Ok(boxed) => Ok(boxed),
    }
}
