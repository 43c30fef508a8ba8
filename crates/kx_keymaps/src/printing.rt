//! Keymaps as texts.
use crate::named::{Looked, compile_gathered, read_looked, refuse_source};
use crate::sources::{Gathered, read_names};
use ks_core::{Lent, NameTable};
use kx_client_text::client_text;
use kx_failure::{Failure, FileKind};
use kx_image::View;
use kx_print::print;
use kx_words::Keymap;
use std::io;
use std::io::Write;
use std::rt::Files as FileSystem;

/// Prints the text of an image's tables.
fn print_image<'a>(rt: &impl Print, bytes: &[u8]) -> Result<(), Failure<'a>> {
    let view = match View::open(bytes) {
        Ok(view) => view,
        Err(fault) => return Err(Failure::Image(fault, FileKind::of(bytes))),
    };
    let mut out = Lent::new(io::writer(rt));
    match print(&view, &mut out) {
        Ok(()) => Ok(()),
        Err(_) => Err(Failure::Write),
    }
}

/// Prints the text that clients read of a source, or that of its image where there is none.
fn print_gathered<'a>(
    rt: &(impl FileSystem + Print + Eprint + AllocGlobal),
    names: &NameTable,
    keymap: &Keymap<'a>,
    gathered: &Gathered,
) -> Result<(), Failure<'a>> {
    let bytes = gathered.bytes.as_slice();
    match client_text(rt.alloc(), bytes, &gathered.files, names) {
        Ok(Some(text)) => match io::writer(rt).write_all(text.as_slice()) {
            Ok(()) => Ok(()),
            Err(_) => Err(Failure::Write),
        },
        Ok(None) => {
            let _ = rt.eprintln(
                "warning: aliases, virtual modifiers and what repeats aren't printed",
            );
            let image = compile_gathered(rt, names, keymap, gathered)?;
            print_image(rt, image.as_slice())
        }
        Err(fault) => Err(refuse_source(rt, fault, keymap, gathered)),
    }
}

/// Prints the text that clients read of a source, or all that an image tells. Standard error says what isn't printed.
///
/// # Errors
/// What an input that can't be used ends with; the fault of a source, which standard error shows; bytes that are no image; lack
/// of memory; [`Failure::Write`].
pub fn print_keymap<'a>(
    rt: &(impl FileSystem + Input + Print + Eprint + AllocGlobal),
    names: Option<&'a str>,
    keymap: &Keymap<'a>,
) -> Result<(), Failure<'a>> {
    let names = read_names(rt, names)?;
    match read_looked(rt, keymap)? {
        Looked::Image(bytes) => {
            print_image(rt, bytes.as_slice())?;
            let _ = rt.eprintln(
                "an image has no aliases, virtual modifiers or repeats: print its source for those",
            );
            Ok(())
        }
        Looked::Source(gathered) => print_gathered(rt, &names, keymap, &gathered),
    }
}
