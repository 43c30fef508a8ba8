//! Keymaps from sources.
ghost use Rattle.std.specs.Prelude.{◌≡◌, ◌⊎◌, [], IfErr, IfOk, IsSomeAnd, OnOk};
ghost use Rattle.kx_lex.specs.declared.fault.Fault.{Fault};
ghost use Rattle.kx_lex.specs.declared.fault.Fault.TheVariants.{Memory};
ghost use Rattle.kx_source.specs.Source.{HasFault, Means};
ghost use Rattle.kx_tables.specs.Keymap.{keymap_of};
ghost use Rattle.kx_tool.specs.Compiled.{IsCompiled};
ghost use Rattle.kx_calls.specs.Handed.{handed};
ghost use Rattle.kx_calls.specs.NamesInC.{names_in};

use crate::files::{XkcFile, files_of};
use ks_core::NameTable;
use kx_handles::{KeymapHandle, NamesHandle, SharedTables};
use kx_lex::Fault;
use kx_tool::compile;
use std::alloc::Global;

/// Compiles a source, with files that it may include and names of further keysyms, and puts the keymap in the place of
/// what the handle has.
///
/// # Errors
/// Why the source is refused, or `Memory`; the handle then has what it had.
pub fn compile_into(
    alloc: Global,
    keymap: &mut KeymapHandle,
    source: &[u8],
    files: &[XkcFile<'_>],
    names: &mut NamesHandle,
) -> Result<(), Fault>
    ensures compiled { OnOk result (IsSomeAnd keymap.new.value (λ content.
        IsCompiled source.now (handed [] files.now) (names_in names.old.value)
        (keymap_of content))) }
    ensures means { OnOk result (IsSomeAnd keymap.new.value
        (Means source.now (handed [] files.now) (names_in names.old.value))) }
    ensures refused { IfErr result (λ e. keymap.new ≡ keymap.old) }
    ensures fault { IfErr result (λ e. (e ≡ Memory)
        ⊎ HasFault source.now (handed [] files.now) (names_in names.old.value) e) }
    ensures names { names.new.value ≡ names.old.value }
{
    let compiled = compiled_under(alloc, source, files, names)?;
    keymap.put(compiled);
    Ok(())
}

/// The tables of a source on the heap, under the names that the handle has.
fn compiled_under(
    alloc: Global,
    source: &[u8],
    files: &[XkcFile<'_>],
    names: &mut NamesHandle,
) -> Result<Box<SharedTables>, Fault>
    ensures compiled { IfOk result (λ b.
        IsCompiled source.now (handed [] files.now) (names_in names.old.value)
        (keymap_of b.value)) }
    ensures means { IfOk result (λ b.
        Means source.now (handed [] files.now) (names_in names.old.value) b.value) }
    ensures fault { IfErr result (λ e. (e ≡ Memory)
        ⊎ HasFault source.now (handed [] files.now) (names_in names.old.value) e) }
    ensures names { names.new.value ≡ names.old.value }
{
    match names.take(alloc) {
        None => compiled(alloc, source, files, &NameTable::builtin()),
        Some(table) => {
            let made = compiled(alloc, source, files, &table);
            names.put(table);
            made
        }
    }
}

/// The tables of a source on the heap.
fn compiled(
    alloc: Global,
    source: &[u8],
    files: &[XkcFile<'_>],
    names: &NameTable,
) -> Result<Box<SharedTables>, Fault>
    ensures compiled { IfOk result (λ b.
        IsCompiled source.now (handed [] files.now) names.now (keymap_of b.value)) }
    ensures means { IfOk result (λ b. Means source.now (handed [] files.now) names.now b.value) }
    ensures fault { IfErr result (λ e. (e ≡ Memory)
        ⊎ HasFault source.now (handed [] files.now) names.now e) }
{
    let files = files_of(alloc, files)?;
    let (image, _notes) = compile(alloc, source, &files, names)?;
    let Ok(tables) = SharedTables::open(alloc, image) else {
        return Err(Fault::Memory);
    };
    match Box::new(alloc, tables) {
        Err(_) => Err(Fault::Memory),
        Ok(boxed) => Ok(boxed),
    }
}
