//! Tasks that answer events: a session, which is a source and the events after it, and events by a keymap.
use crate::showing::show_noted;
use ks_core::{Feed, Lent, NameTable};
use kx_explain::{Telling, Text, Texts};
use kx_failure::{Failure, FileKind};
use kx_files::{Heard, Kept, all_handed, lines_in, texts_of};
use kx_keymaps::{find, read_handed, read_keymap, read_names, show_fault};
use kx_noted::Noted;
use kx_reach::Ahead;
use kx_tool::{Files, ReplayFault, SessionFault, replay, session};
use kx_words::{Includes, Keymap, Try};
use std::alloc::{AllocError, Global};
use std::io;
use std::rt::Files as FileSystem;

/// The failure of events, with the line that was refused where that was kept; so many lines stand before the events.
fn with_line<'a, F: Feed + Drop>(
    alloc: Global,
    heard: &Heard<F>,
    before: u64,
    failure: Failure<'a>,
) -> Failure<'a> {
    let Failure::Replay(ReplayFault::Line(number)) = failure else {
        return failure;
    };
    let line = match heard.line(before.saturating_add(number)) {
        Some(line) => String::from_utf8_lossy(alloc, line).ok(),
        None => None,
    };
    match line {
        Some(line) => Failure::Event(number, line),
        None => Failure::Replay(ReplayFault::Line(number)),
    }
}

/// The files that a source may include, and their texts to be shown.
#[derive(Clone, Copy)]
struct Includable<'t> {
    texts: &'t [Text<'t>],
    files: &'t Files,
}

/// Answers a source and the events after it.
fn answer_feed<'a, F: Feed + Drop>(
    rt: &(impl Print + Eprint + AllocGlobal),
    feed: F,
    names: &NameTable,
    includable: Includable,
    includes: &Includes,
) -> Result<(), Failure<'a>> {
    let files = includable.files;
    let mut feed = Heard::new(rt.alloc(), Kept::new(rt.alloc(), feed));
    let mut out = Lent::new(io::writer(rt));
    match session(rt.alloc(), &mut feed, files, names, &mut out) {
        Ok(()) => Ok(()),
        Err(fault) => {
            if let SessionFault::Compile(fault) = fault {
                let source = Text {
                    name: "",
                    path: "<stdin>",
                    bytes: feed.feed.source(),
                };
                let files = includable.texts;
                show_fault(rt, fault, Texts { source, files }, includes);
            }
            let before = lines_in(feed.feed.source()).saturating_add(1);
            Err(with_line(rt.alloc(), &feed, before, Failure::of_session(fault)))
        }
    }
}

/// Shows on standard error what is passed over in a source that was read ahead.
fn show_ahead(
    rt: &(impl Eprint + AllocGlobal),
    names: &NameTable,
    source: &[u8],
    includable: Includable,
    mut noted: Noted,
) {
    noted.look(rt.alloc(), source, includable.files, names);
    let source = Text {
        name: "",
        path: "<stdin>",
        bytes: source,
    };
    let files = includable.texts;
    show_noted(rt, &noted, Texts { source, files });
}

/// What ends a task whose source can't be read ahead.
fn failure_ahead<'a>(fault: io::Error) -> Failure<'a> {
    match fault.kind() {
        io::ErrorKind::OutOfMemory => Failure::from(AllocError),
        _ => Failure::Replay(ReplayFault::Read),
    }
}

/// Answers a source, which is read first, and the events after it, with the files that it includes from folders. What is passed
/// over is shown before.
fn answer_ahead<'a>(
    rt: &(impl FileSystem + Input + Print + Eprint + AllocGlobal),
    names: &NameTable,
    task: &Try<'a>,
    files: Files,
) -> Result<(), Failure<'a>> {
    let feed = match Ahead::read(rt.alloc(), Lent::new(rt.reader())) {
        Ok(feed) => feed,
        Err(fault) => return Err(failure_ahead(fault)),
    };
    let includes = &task.includes;
    let (files, found) = find(rt, includes, files, feed.source())?;
    let included = includes.files.as_slice();
    let handed = all_handed(rt.alloc(), included, found.as_slice(), &files)?;
    let includable = Includable {
        texts: handed.texts.as_slice(),
        files: &files,
    };
    if task.telling != Telling::Nothing {
        let noted = Noted::new(task.telling, handed.installed.as_slice());
        show_ahead(rt, names, feed.source(), includable, noted);
    }
    answer_feed(rt, feed, names, includable, includes)
}

/// Answers a source and the events after it as they are read, with the files that are handed in.
fn answer_at_once<'a>(
    rt: &(impl Input + Print + Eprint + AllocGlobal),
    names: &NameTable,
    includes: &Includes<'a>,
    files: &Files,
) -> Result<(), Failure<'a>> {
    let texts = texts_of(rt.alloc(), includes.files.as_slice(), &[], files)?;
    let includable = Includable {
        texts: texts.as_slice(),
        files,
    };
    answer_feed(rt, Lent::new(rt.reader()), names, includable, includes)
}

/// Answers a source of standard input and the events after it. What is passed over is shown before, unless nothing is to be told.
pub(crate) fn answer_source<'a>(
    rt: &(impl FileSystem + Input + Print + Eprint + AllocGlobal),
    task: &Try<'a>,
) -> Result<(), Failure<'a>> {
    let names = read_names(rt, task.names)?;
    let files = read_handed(rt, task.includes.files.as_slice())?;
    match task.telling == Telling::Nothing && task.includes.folders.is_empty() {
        true => answer_at_once(rt, &names, &task.includes, &files),
        false => answer_ahead(rt, &names, task, files),
    }
}

/// Answers events by an image.
fn answer_events<'a>(
    rt: &(impl Input + Print + AllocGlobal),
    names: &NameTable,
    image: &[u8],
) -> Result<(), Failure<'a>> {
    let mut feed = Heard::new(rt.alloc(), Lent::new(rt.reader()));
    let mut out = Lent::new(io::writer(rt));
    match replay(rt.alloc(), &mut feed, image, names, &mut out) {
        Ok(()) => Ok(()),
        Err(fault) => {
            let failure = Failure::of_replay(fault, FileKind::of(image));
            Err(with_line(rt.alloc(), &feed, 0, failure))
        }
    }
}

/// Answers the events of standard input by a keymap.
pub(crate) fn answer_keymap<'a>(
    rt: &(impl FileSystem + Input + Print + Eprint + AllocGlobal),
    names: Option<&'a str>,
    keymap: &Keymap<'a>,
) -> Result<(), Failure<'a>> {
    let names = read_names(rt, names)?;
    let bytes = read_keymap(rt, &names, keymap)?;
    answer_events(rt, &names, bytes.as_slice())
}
