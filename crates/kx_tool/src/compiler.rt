//! From a source to an image.
ghost use Rattle.std.specs.Prelude.{◌≡◌, ◌⊎◌, IfErr, IfOk};
ghost use Rattle.kx_image.specs.Image.{IsImage, image};
ghost use Rattle.kx_image.specs.declared.header.ImageVersion.TheVariants.{Two};
ghost use Rattle.kx_source.specs.Source.{HasFault};
ghost use Rattle.kx_lex.specs.declared.fault.Fault.TheVariants.{Memory};
ghost use Rattle.kx_tables.specs.Content.{Content};
ghost use Rattle.kx_tables.specs.Keymap.{keymap_of};
ghost use Rattle.kx_tool.specs.Compiled.{IsCompiled, IsWritten};
ghost use Rattle.kx_tool.specs.PrintedSource.{CompilesBack, HasNoFault, IsImageAgain, IsMemoryAlone};

use arrayvec::ArrayString;
use ks_core::{Keysym, Lent, NameTable, Notes};
use kx_include::Files;
use kx_lex::Fault;
use kx_roundtrip::printed_means_itself;
use kx_source::{Observer, tables, tables_once};
use kx_tables::{Owned, Tables};
use std::alloc::Global;
use std::mem;

/// The image of tables, version 2.
fn image_of(alloc: Global, tables: &Owned) -> Result<Vec<u8>, Fault>
    ensures image { IfOk result (λ bytes. IsImage tables.now bytes.items) }
    ensures version_2 { IfOk result (λ bytes. bytes.items ≡ image Two tables.now) }
    ensures err { IfErr result (λ e. e ≡ Memory) }
{
    let _sound = tables.key_count();
    let mut out = Lent::new(Vec::new(alloc));
    match kx_image::write(tables, &mut out) {
        Ok(()) => Ok(out.device),
        Err(_) => Err(Fault::Memory),
    }
}

/// No effect: what the proof of `compile` reads of printed texts under these names.
fn read_printed_again(names: &NameTable)
    ensures content { CompilesBack names.now }
    ensures faultless { HasNoFault names.now }
{
    let mut name = ArrayString::new();
    names.write_name(Keysym(0), &mut name);
    printed_means_itself();
}

/// The image of a source, version 2, and what was passed over. A player over whatever tables are found in the image
/// answers every list of events as the source's statements mean.
///
/// # Errors
/// A fault of the source with its place, or `Memory`.
pub fn compile(
    alloc: Global,
    source: &[u8],
    files: &Files,
    names: &NameTable,
) -> Result<(Vec<u8>, Notes), Fault>
    ensures answers { IfOk result (λ made. (content : Content) → IsImage content made.0.items
        → IsCompiled source.now files.now names.now (keymap_of content)) }
    ensures image { IfOk result (λ made. (content : Content)
        × IsWritten source.now files.now names.now content made.0.items) }
    ensures fault { IfErr result (λ e. (e ≡ Memory) ⊎ HasFault source.now files.now names.now e) }

    // The printed text of tables gives their own image, and nothing but lack of memory refuses it.
    ensures printed { IfOk result (λ made. IsImageAgain source.now files.now made.0.items) }
    ensures printed_memory { IfErr result (IsMemoryAlone source.now files.now) }
{
    read_printed_again(names);
    let (tables, notes) = tables(alloc, source, files, names)?;
    let image = image_of(alloc, &tables)?;
    Ok((image, notes))
}

/// The same as [`compile`], for a program that ends soon after: what was read of the source is left to the system, once the
/// observer was shown it.
///
/// # Errors
/// A fault of the source with its place, or `Memory`.
pub fn compile_once<O: Observer>(
    alloc: Global,
    source: &[u8],
    files: &Files,
    names: &NameTable,
    observer: &mut O,
) -> Result<(Vec<u8>, Notes), Fault>
    ensures answers { IfOk result (λ made. (content : Content) → IsImage content made.0.items
        → IsCompiled source.now files.now names.now (keymap_of content)) }
    ensures image { IfOk result (λ made. (content : Content)
        × IsWritten source.now files.now names.now content made.0.items) }
    ensures fault { IfErr result (λ e. (e ≡ Memory) ⊎ HasFault source.now files.now names.now e) }
    ensures printed { IfOk result (λ made. IsImageAgain source.now files.now made.0.items) }
    ensures printed_memory { IfErr result (IsMemoryAlone source.now files.now) }
{
    read_printed_again(names);
    let (tables, notes) = tables_once(alloc, source, files, names, observer)?;
    let bytes = image_of(alloc, &tables)?;
    mem::forget(tables);
    Ok((bytes, notes))
}
