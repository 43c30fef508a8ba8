//! The text that clients read of a source.
ghost use Rattle.std.specs.Prelude.{◌≡◌, ◌⊎◌, [], IfErr, IfOk, IfSome, None, false, true};
ghost use Rattle.kx_client_text.specs.ClientText.{HasNoText, IsClientText, IsRefused, MeansOther, MeansTheSame, OtherImage, OtherLeft, SayTheSame};
ghost use Rattle.kx_client_text.specs.Written.{client_printed};
ghost use Rattle.kx_clients.specs.LeavesOut.{LeavesOut};
ghost use Rattle.kx_clients.specs.LeftOut.{LeftOut as LeftOutValue};
ghost use Rattle.kx_image.specs.Image.{IsImage};
ghost use Rattle.kx_lex.specs.declared.fault.Fault.TheVariants.{Memory};
ghost use Rattle.kx_source.specs.Source.{HasFault};
ghost use Rattle.kx_tables.specs.Content.{Content};
ghost use Rattle.kx_tool.specs.Compiled.{IsWritten};

use crate::alike::say_the_same;
use crate::writing::write_text;
use ks_core::{Lent, NameTable};
use kx_clients::{LeftOut, left_out};
use kx_image::View;
use kx_include::Files;
use kx_lex::Fault;
use kx_tool::compile;
use std::alloc::{AllocError, Global};

/// The text of an image's tables and of what the image leaves out.
fn text_of(alloc: Global, image: &[u8], left: &LeftOut) -> Result<Vec<u8>, AllocError>
    ensures { IfOk result (λ text. (content : Content) × (IsImage content image.now
        × (text.items ≡ client_printed content left.now))) }
{
    let Ok(view) = View::open(image) else {
        return Err(AllocError);
    };
    let mut text = Lent::new(Vec::new(alloc));
    match write_text(&view, left, &mut text) {
        Err(_) => Err(AllocError),
        Ok(()) => Ok(text.device),
    }
}

fn is_memory(fault: Fault) -> bool
    ensures memory { result ≡ true → fault ≡ Memory }
    ensures other { result ≡ false → fault ≡ Memory → ⊥ }
{
    matches!(fault, Fault::Memory)
}

/// Whether a text by itself is compiled to an image.
fn compiles_to(alloc: Global, text: &[u8], names: &NameTable, image: &[u8]) -> Result<bool, Fault>
    ensures same { IfOk result (λ is_same. is_same ≡ true
        → (again : Content) × IsWritten text.now [] names.now again image.now) }
    ensures other { IfOk result (λ is_same. is_same ≡ false
        → IsRefused names.now text.now ⊎ OtherImage names.now image.now text.now) }
    ensures err { IfErr result (λ e. e ≡ Memory) }
{
    let alone = Files::new(alloc);
    match compile(alloc, text, &alone, names) {
        Ok((again, _)) => Ok(again.as_slice() == image),
        Err(fault) => {
            if is_memory(fault) {
                return Err(fault);
            }
            Ok(false)
        }
    }
}

/// Whether the image of a text by itself leaves the same out.
fn leaves_out(alloc: Global, text: &[u8], names: &NameTable, left: &LeftOut) -> Result<bool, Fault>
    ensures same { IfOk result (λ is_same. is_same ≡ true
        → (again : LeftOutValue)
        × (LeavesOut text.now [] names.now again × SayTheSame left.now again)) }
    ensures other { IfOk result (λ is_same. is_same ≡ false
        → IsRefused names.now text.now ⊎ OtherLeft names.now left.now text.now) }
    ensures err { IfErr result (λ e. e ≡ Memory) }
{
    let alone = Files::new(alloc);
    match left_out(alloc, text, &alone, names) {
        Ok(again) => Ok(say_the_same(left, &again)),
        Err(fault) => {
            if is_memory(fault) {
                return Err(fault);
            }
            Ok(false)
        }
    }
}

/// Whether a text by itself means what an image and what it leaves out say.
fn means_the_same(
    alloc: Global,
    text: &[u8],
    names: &NameTable,
    image: &[u8],
    left: &LeftOut,
) -> Result<bool, Fault>
    ensures same { IfOk result (λ is_same. is_same ≡ true
        → MeansTheSame names.now image.now left.now text.now) }
    ensures other { IfOk result (λ is_same. is_same ≡ false
        → MeansOther names.now image.now left.now text.now) }
    ensures err { IfErr result (λ e. e ≡ Memory) }
{
    if !compiles_to(alloc, text, names, image)? {
        return Ok(false);
    }
    leaves_out(alloc, text, names, left)
}

/// The text that clients read of a source: what the printed text of its image says, with the names of indicators, aliases, virtual
/// modifiers, all declared types, and which keys repeat. None where this text, read by itself, would mean anything else, as where
/// 4,096 types are declared and none is `ONE_LEVEL`, which is one too many.
///
/// # Errors
/// A fault of the source with its place, or `Memory`.
pub fn client_text(
    alloc: Global,
    source: &[u8],
    files: &Files,
    names: &NameTable,
) -> Result<Option<Vec<u8>>, Fault>
    ensures text { IfOk result (λ made. IfSome made (λ text.
        IsClientText source.now files.now names.now text.items)) }
    ensures none { IfOk result (λ made. made ≡ None
        → HasNoText source.now files.now names.now) }
    ensures fault { IfErr result (λ e. (e ≡ Memory) ⊎ HasFault source.now files.now names.now e) }
{
    let (image, _) = compile(alloc, source, files, names)?;
    let left = left_out(alloc, source, files, names)?;
    let text = text_of(alloc, image.as_slice(), &left)?;
    match means_the_same(alloc, text.as_slice(), names, image.as_slice(), &left)? {
        true => Ok(Some(text)),
        false => Ok(None),
    }
}
