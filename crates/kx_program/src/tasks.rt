//! What the program does.
use crate::answering::{answer_keymap, answer_source};
use crate::putting::put_image;
use crate::showing::show_noted;
use ks_core::{Lent, NameTable, Notes};
use kx_explain::{Telling, Text, Texts};
use kx_failure::{Failure, FileKind};
use kx_files::Put;
use kx_image::{UpgradeFault, View, upgrade};
use kx_keymaps::{
    Gathered, explain, fail, fail_aside, find_in_keymap, gather_source, out_of_memory,
    print_keymap, print_list, print_names, print_source, read_names, read_or_input, show_asked,
    show_fault, show_keymap,
};
use kx_lex::Fault;
use kx_names::Environment;
use kx_noted::Noted;
use kx_reach::Found;
use kx_tool::{Files, compile_once, dump};
use kx_words::{Compile, Task, environment_for, is_output, task_in};
use std::alloc::{AllocError, Global};
use std::env::Env;
use std::rt::Files as FileSystem;
use std::{io, mem};

/// Tells what was passed over: on standard output, or on standard error where the image went there.
fn print_notes<'a>(rt: &(impl Print + Eprint), out: &str, notes: Notes) -> Result<(), Failure<'a>> {
    let Notes {
        keysyms,
        keys,
        types,
        levels,
        actions,
    } = notes;
    let line = format_args!(
        "notes keysyms={keysyms} keys={keys} types={types} levels={levels} actions={actions}"
    );
    let outcome = match is_output(out) {
        true => rt.eprintln(line),
        false => rt.println(line),
    };
    match outcome {
        Ok(()) => Ok(()),
        Err(_) => Err(Failure::Write),
    }
}

/// The greatest block of which glibc's `malloc` learns: see [`keep_on_heap`].
const GREATEST_BLOCK: usize = 0x1ff_0000;

/// Has blocks of up to 32 MiB come from the heap, where what is given back is used again: glibc's `malloc` maps a block of 128 KiB
/// or more by itself, and unmaps it, until one as large was given back. The block isn't touched; nothing is lost without it.
fn keep_on_heap(alloc: Global) {
    let _: Result<Vec<u8>, AllocError> = Vec::with_capacity(alloc, GREATEST_BLOCK);
}

/// Compiles a source to an image, and answers the status to end with. What was read is left to the system, since the program
/// ends soon after.
fn compile_to<'a>(
    rt: &(impl FileSystem + Input + Print + Eprint + AllocGlobal),
    task: &Compile<'a>,
) -> Result<u8, Failure<'a>> {
    keep_on_heap(rt.alloc());
    let names = read_names(rt, task.names)?;
    let is_quiet = task.telling == Telling::Nothing;
    let gathered = gather_source(rt, task.source, &task.includes, is_quiet)?;
    let outcome = compile_read(rt, task, &names, &gathered);
    mem::forget(gathered);
    outcome
}

/// Compiles a source that was read, and answers the status to end with. Its texts are left to the system too.
fn compile_read<'a>(
    rt: &(impl FileSystem + Print + Eprint + AllocGlobal),
    task: &Compile<'a>,
    names: &NameTable,
    gathered: &Gathered,
) -> Result<u8, Failure<'a>> {
    let handed = gathered.handed(rt.alloc(), &task.includes)?;
    let read = Compiled {
        texts: Texts {
            source: Text {
                name: "",
                path: task.source.path(),
                bytes: gathered.bytes.as_slice(),
            },
            files: handed.texts.as_slice(),
        },
        files: &gathered.files,
        found: gathered.found.as_slice(),
    };
    let mut noted = Noted::new(task.telling, handed.installed.as_slice());
    let outcome = compile_texts(rt, task, names, read, &mut noted);
    mem::forget(noted);
    mem::forget(handed);
    outcome
}

/// A source that was read, with the files that it may include.
#[derive(Clone, Copy)]
struct Compiled<'t> {
    texts: Texts<'t>,
    files: &'t Files,
    found: &'t [Found],
}

/// Compiles a source, and answers the status to end with.
fn compile_texts<'a>(
    rt: &(impl FileSystem + Print + Eprint + AllocGlobal),
    task: &Compile<'a>,
    names: &NameTable,
    read: Compiled,
    noted: &mut Noted,
) -> Result<u8, Failure<'a>> {
    let texts = read.texts;
    let source = texts.source.bytes;
    match compile_once(rt.alloc(), source, read.files, names, noted) {
        Ok((bytes, notes)) => {
            let status = put_compiled(rt, task, read, bytes.as_slice())?;
            if status == 0 {
                show_noted(rt, noted, texts);
                print_notes(rt, task.image, notes)?;
            }
            Ok(status)
        }
        Err(fault) => {
            show_fault(rt, fault, texts, &task.includes);
            show_asked(rt, fault, task.source, &task.includes);
            Err(Failure::Source(fault))
        }
    }
}

/// Writes the image of a source, and answers the status to end with.
fn put_compiled<'a>(
    rt: &(impl FileSystem + Print + Eprint + AllocGlobal),
    task: &Compile<'a>,
    read: Compiled,
    bytes: &[u8],
) -> Result<u8, Failure<'a>> {
    let named = task.other_paths(rt.alloc())?;
    let put = Put {
        out: task.image,
        source: task.source.file(),
        length: read.texts.source.bytes.len(),
        named: named.as_slice(),
        found: read.found,
        folders: task.includes.folders.as_slice(),
    };
    put_image(rt, put, bytes)
}

fn dump_image<'a>(
    rt: &(impl FileSystem + Input + Print + AllocGlobal),
    image: &'a str,
) -> Result<(), Failure<'a>> {
    let bytes = read_or_input(rt, image)?;
    if let Err(fault) = View::open(bytes.as_slice()) {
        return Err(Failure::Image(fault, FileKind::of(bytes.as_slice())));
    }
    let mut out = Lent::new(io::writer(rt));
    match dump(bytes.as_slice(), &mut out) {
        Ok(()) => Ok(()),
        Err(_) => Err(Failure::Write),
    }
}

/// Writes an image anew, and answers the status to end with. Nothing is written where the bytes are no image.
fn upgrade_image<'a>(
    rt: &(impl FileSystem + Input + Print + Eprint + AllocGlobal),
    image: &'a str,
    newer: &'a str,
) -> Result<u8, Failure<'a>> {
    let bytes = read_or_input(rt, image)?;
    if let Err(fault) = View::open(bytes.as_slice()) {
        return Err(Failure::Image(fault, FileKind::of(bytes.as_slice())));
    }
    let mut out = Lent::new(Vec::new(rt.alloc()));
    match upgrade(bytes.as_slice(), &mut out) {
        Ok(()) => {
            let put = Put {
                out: newer,
                source: None,
                length: 0,
                named: &[image],
                found: &[],
                folders: &[],
            };
            put_image(rt, put, out.device.as_slice())
        }
        Err(UpgradeFault::Image(fault)) => Err(Failure::Image(fault, FileKind::Image)),
        Err(UpgradeFault::Write) => Err(Failure::Source(Fault::Memory)),
    }
}

/// Does what the words ask for, and answers the status to end with. What is read of a source that is compiled is left to the
/// system, so the program is to end soon after.
pub fn run<'a>(
    rt: &(impl FileSystem + Input + Print + Eprint + AllocGlobal),
    task: &Task<'a>,
) -> Result<u8, Failure<'a>> {
    match task {
        Task::Compile(compile) => return compile_to(rt, compile),
        Task::Upgrade { image, newer } => return upgrade_image(rt, image, newer),
        Task::Show {
            names,
            keymap,
            group,
            is_drawn,
        } => return show_keymap(rt, *names, keymap, *group, *is_drawn),
        Task::Find {
            names,
            keymap,
            keysym,
        } => find_in_keymap(rt, *names, keymap, keysym)?,
        Task::Try(task) => answer_source(rt, task)?,
        Task::Replay { names, keymap } => answer_keymap(rt, *names, keymap)?,
        Task::Print { names, keymap } => print_keymap(rt, *names, keymap)?,
        Task::Dump { image } => dump_image(rt, image)?,
        Task::Names { headers } => print_names(rt, headers.as_slice())?,
        Task::Rules { asked, folders } => print_source(rt, asked, folders.as_slice())?,
        Task::List {
            rules,
            folders,
            wanted,
        } => print_list(rt, rules, folders.as_slice(), *wanted)?,
    }
    Ok(0)
}

/// Does a task, and answers the status to end with.
fn run_task(rt: &(impl FileSystem + Input + Print + Eprint + AllocGlobal), task: &Task) -> u8 {
    match run(rt, task) {
        Ok(status) => status,
        Err(failure) if task.is_piped() => fail_aside(rt, failure),
        Err(failure) => fail(rt, failure),
    }
}

/// Does what the words ask for in an environment, and answers the status to end with.
fn run_asked(
    rt: &(impl FileSystem + Input + Print + Eprint + AllocGlobal),
    words: &[String],
    environment: &Environment,
) -> u8 {
    match task_in(rt.alloc(), words, environment) {
        Ok(task) => run_task(rt, &task),
        Err(error) => explain(rt, error),
    }
}

/// Does what the words ask for, and answers the status to end with: 0, 1 where something is refused, 2 where the words
/// are wrong, 3 where a file, the input or the output can't be used. The first word is the program's own name.
/// Memory is left as by [`run`].
pub fn run_words(
    rt: &(impl Env + FileSystem + Input + Print + Eprint + AllocGlobal),
    words: &[String],
) -> u8 {
    match environment_for(rt, words) {
        Ok(environment) => run_asked(rt, words, &environment),
        Err(_) => out_of_memory(rt),
    }
}
