//! Keymaps that are asked for by names.
use crate::failing::{show_fault, unusable};
use crate::looking::print_text;
use crate::sources::{Gathered, gather, open_folders, read_source};
use ks_core::NameTable;
use kx_explain::{Text, Texts};
use kx_failure::{Failure, FileKind};
use kx_lex::Fault;
use kx_names::{Asked, Made, NamesFault, Wanted, hints_of, list_lines, make_source, warnings_of};
use kx_reach::Folder;
use kx_tool::compile;
use kx_words::{Includes, Keymap, Source};
use std::alloc::AllocError;
use std::rt::Files as FileSystem;

/// Says on standard error that no folder has the file of a path, and which folders were looked in.
fn show_missing(rt: &impl Eprint, path: &str, folders: &[&str]) {
    let _ = rt.eprintln(format_args!("error: no folder has '{path}': -I DIR names one"));
    for folder in folders {
        let _ = rt.eprintln(format_args!("looked for in {folder}"));
    }
}

/// What ends a task whose names have no source; what is wrong is shown.
fn failure_of<'a>(
    rt: &(impl FileSystem + Eprint + AllocGlobal),
    fault: NamesFault,
    folders: &[&str],
) -> Failure<'a> {
    match fault {
        NamesFault::Memory => Failure::from(AllocError),
        NamesFault::File(path) => unusable(rt, path),
        NamesFault::Missing(path) => {
            show_missing(rt, path.as_str(), folders);
            Failure::Missing(path)
        }
        NamesFault::Rules(fault, message) => {
            let _ = rt.eprint(message);
            Failure::Rules(fault)
        }
    }
}

/// Shows the names that no rule takes.
fn show_passed(
    rt: &(impl FileSystem + Eprint + AllocGlobal),
    asked: &Asked,
    folders: &[Folder],
    made: &Made,
) {
    if let Ok(lines) = warnings_of(rt, folders, asked, &made.passed) {
        let _ = rt.eprint(lines);
    }
}

/// The source that names make. Names that no rule takes are shown, but for where it is to be quiet.
pub(crate) fn source_named<'a>(
    rt: &(impl FileSystem + Eprint + AllocGlobal),
    asked: &Asked<'a>,
    folders: &[&'a str],
    is_quiet: bool,
) -> Result<Vec<u8>, Failure<'a>> {
    let opened = open_folders(rt, folders)?;
    match make_source(rt, asked, opened.as_slice()) {
        Ok(made) => {
            if !is_quiet {
                show_passed(rt, asked, opened.as_slice(), &made);
            }
            Ok(made.source)
        }
        Err(fault) => Err(failure_of(rt, fault, folders)),
    }
}

/// Shows the layouts and variants that aren't listed.
fn show_hints<'a>(
    rt: &(impl FileSystem + Eprint + AllocGlobal),
    asked: &Asked,
    folders: &[&'a str],
) -> Result<(), Failure<'a>> {
    let opened = open_folders(rt, folders)?;
    let lines = hints_of(rt, opened.as_slice(), asked)?;
    let _ = rt.eprint(lines);
    Ok(())
}

/// Shows on standard error the names that led to a fault, and of a file or map that isn't there those that aren't listed; of a
/// source that wasn't asked for by names nothing.
pub fn show_asked(
    rt: &(impl FileSystem + Eprint + AllocGlobal),
    fault: Fault,
    source: Source,
    includes: &Includes,
) {
    let Source::Names(asked) = source else {
        return;
    };
    if fault == Fault::Memory {
        return;
    }
    let _ = rt.eprintln(format_args!("asked for by {asked}"));
    if matches!(fault, Fault::FileMissing(_) | Fault::MapMissing(_)) {
        let _ = show_hints(rt, &asked, includes.folders.as_slice());
    }
}

/// Shows a fault of a source with its files on standard error, and answers what ends the task: the fault, or lack of memory.
pub(crate) fn refuse_source<'a>(
    rt: &(impl FileSystem + Eprint + AllocGlobal),
    fault: Fault,
    keymap: &Keymap<'a>,
    gathered: &Gathered,
) -> Failure<'a> {
    let includes = &keymap.includes;
    let handed = match gathered.handed(rt.alloc(), includes) {
        Ok(handed) => handed,
        Err(refused) => return Failure::from(refused),
    };
    let shown = Texts {
        source: Text {
            name: "",
            path: keymap.source.path(),
            bytes: gathered.bytes.as_slice(),
        },
        files: handed.texts.as_slice(),
    };
    show_fault(rt, fault, shown, includes);
    show_asked(rt, fault, keymap.source, includes);
    Failure::Source(fault)
}

/// The image of a source with its files.
///
/// # Errors
/// The fault of the source, which standard error shows, or lack of memory.
pub(crate) fn compile_gathered<'a>(
    rt: &(impl FileSystem + Eprint + AllocGlobal),
    names: &NameTable,
    keymap: &Keymap<'a>,
    gathered: &Gathered,
) -> Result<Vec<u8>, Failure<'a>> {
    let bytes = gathered.bytes.as_slice();
    match compile(rt.alloc(), bytes, &gathered.files, names) {
        Ok((image, _)) => Ok(image),
        Err(fault) => Err(refuse_source(rt, fault, keymap, gathered)),
    }
}

/// What is read of a keymap that is looked at.
#[derive(Drop)]
pub(crate) enum Looked {
    /// The bytes of an image, or of what is none: who opens them says what they are.
    Image(Vec<u8>),
    /// A source with the files that it may include.
    Source(Gathered),
}

/// Reads a keymap that is looked at: bytes that begin as an image's are none of a source.
///
/// # Errors
/// As of [`crate::gather_source`].
pub(crate) fn read_looked<'a>(
    rt: &(impl FileSystem + Input + Eprint + AllocGlobal),
    keymap: &Keymap<'a>,
) -> Result<Looked, Failure<'a>> {
    let source = keymap.source;
    let includes = &keymap.includes;
    let bytes = read_source(rt, source, includes, false)?;
    if matches!(source, Source::File(_)) && FileKind::of(bytes.as_slice()) != FileKind::Source {
        return Ok(Looked::Image(bytes));
    }
    Ok(Looked::Source(gather(rt, bytes, includes)?))
}

/// The bytes of the image of a keymap that is looked at; where they were read, who opens them says what they are.
///
/// # Errors
/// As of [`read_looked`] and [`compile_gathered`].
pub fn read_keymap<'a>(
    rt: &(impl FileSystem + Input + Eprint + AllocGlobal),
    names: &NameTable,
    keymap: &Keymap<'a>,
) -> Result<Vec<u8>, Failure<'a>> {
    match read_looked(rt, keymap)? {
        Looked::Image(bytes) => Ok(bytes),
        Looked::Source(gathered) => compile_gathered(rt, names, keymap, &gathered),
    }
}

/// Prints the source that names make.
///
/// # Errors
/// Names that have no source, which standard error tells; lack of memory; [`Failure::Write`].
pub fn print_source<'a>(
    rt: &(impl FileSystem + Print + Eprint + AllocGlobal),
    asked: &Asked<'a>,
    folders: &[&'a str],
) -> Result<(), Failure<'a>> {
    let source = source_named(rt, asked, folders, false)?;
    print_text(rt, String::from_utf8_lossy(rt.alloc(), source.as_slice()))
}

/// Prints the names that are listed for rules, a line each.
///
/// # Errors
/// A list that isn't there or can't be read, which standard error tells; lack of memory; [`Failure::Write`].
pub fn print_list<'a>(
    rt: &(impl FileSystem + Print + Eprint + AllocGlobal),
    rules: &str,
    folders: &[&'a str],
    wanted: Wanted,
) -> Result<(), Failure<'a>> {
    let opened = open_folders(rt, folders)?;
    match list_lines(rt, opened.as_slice(), rules, wanted) {
        Ok(lines) => print_text(rt, Ok(lines)),
        Err(fault) => Err(failure_of(rt, fault, folders)),
    }
}
