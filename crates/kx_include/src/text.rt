//! The tree of a file, or why it has none.
ghost use Rattle.std.specs.Prelude.{◌≡◌, ◌⊎◌, IfOk, IfErr, true, false};
ghost use Rattle.std.specs.Option.{option_copied};
ghost use Rattle.kx_lex.specs.declared.fault.Fault.TheVariants.{Memory};
ghost use Rattle.kx_include.specs.Held.{IsSketch};
ghost use Rattle.kx_include.specs.Library.{Text};
ghost use Rattle.kx_include.specs.Texts.{IsTree, IsText, IsStop, in_file};

use crate::file_text::FileText;
use crate::indexed::IndexedText;
use kx_lex::{At, Fault, lex};
use kx_parse::{Tree, parse_file};
use std::alloc::Global;

fn in_text(file: u32, at: At) -> At
    ensures file { result.file ≡ file }
    ensures span { result.span ≡ at.span }
{
    At {
        file,
        span: at.span,
    }
}

/// The same fault of a text, in the text of a number.
fn in_file(file: u32, fault: Fault) -> Fault
    ensures { result ≡ in_file file fault }
{
    match fault {
        Fault::TooLong(at) => Fault::TooLong(in_text(file, at)),
        Fault::BadByte(at) => Fault::BadByte(in_text(file, at)),
        Fault::OpenString(at) => Fault::OpenString(in_text(file, at)),
        Fault::OpenKeyName(at) => Fault::OpenKeyName(in_text(file, at)),
        Fault::Syntax(at) => Fault::Syntax(in_text(file, at)),
        Fault::NumberTooBig(at) => Fault::NumberTooBig(in_text(file, at)),
        fault => fault,
    }
}

/// The tree of a file's text; a fault names the file as 0.
fn read_tree(alloc: Global, bytes: &[u8]) -> Result<Tree, Fault>
    ensures tree { IfOk result (λ tree. IsTree bytes.now tree) }
    ensures stop { IfErr result (λ e. (e ≡ Memory) ⊎ IsStop bytes.now e) }
{
    let tokens = lex(alloc, bytes)?;
    parse_file(alloc, bytes, tokens.as_slice())
}

/// What a stop of a file's text is, in the text of a number.
fn stopped(file: u32, bytes: &[u8], stop: Fault) -> Result<Result<Tree, Fault>, Fault>
    requires { (stop ≡ Memory) ⊎ IsStop bytes.now stop }
    ensures text { IfOk result (λ text. IsText file bytes.now text) }
    ensures err { IfErr result (λ e. e ≡ Memory) }
{
    if stop.is_memory() {
        return Err(stop);
    }
    Ok(Err(in_file(file, stop)))
}

/// The tree of the text of a file, or the fault for which it has none.
///
/// # Errors
/// `Memory`.
pub(crate) fn read_text(
    alloc: Global,
    file: u32,
    bytes: &[u8],
) -> Result<Result<Tree, Fault>, Fault>
    ensures text { IfOk result (λ text. IsText file bytes.now text) }
    ensures err { IfErr result (λ e. e ≡ Memory) }
{
    match read_tree(alloc, bytes) {
        Ok(tree) => Ok(Ok(tree)),
        Err(stop) => stopped(file, bytes, stop),
    }
}

/// The text of a file by its outline, and the file; where it has no outline its tree, or the fault for which it has none.
///
/// # Errors
/// `Memory`.
pub(crate) fn outline_text<'a>(
    alloc: Global,
    number: u32,
    file: &'a FileText,
) -> Result<(IndexedText<'a>, Option<&'a FileText>), Fault>
    ensures sketch { IfOk result (λ r. (whole : Text) × IsText number file.now.bytes whole
        × IsSketch r.0 (option_copied r.1) whole) }
    ensures err { IfErr result (λ e. e ≡ Memory) }
{
    match file.outline() {
        Some(_) => Ok((IndexedText::outlined(alloc, file), Some(file))),
        None => {
            let text = read_text(alloc, number, file.bytes())?;
            Ok((IndexedText::of(alloc, text)?, None))
        }
    }
}
