//! What a person reads on standard error of a task that ended early.
use crate::failure::Failure;
use crate::file_kind::FileKind;
use ks_core::NameFault;
use kx_image::ImageFault;
use kx_lex::Fault;
use kx_tool::ReplayFault;
use std::fmt::{Formatter, Write};
use std::{fmt, io};

/// How an image is made of a source.
const COMPILE: &str = "'xkc compile FILE OUT' makes an image of a keymap's source";

/// What an event is.
const EVENT: &str =
    "expected 'down 38' or 'up 38', with a key's code from 0 to 65535 in decimal digits, and nothing behind it";

/// So many characters of a line are shown.
const MOST_SHOWN: usize = 64;

/// What is wrong, in lines that begin with `error: `. Nothing of a fault of a source or of rules, nor of a file that no folder
/// has: where they are found more is known of them, and they are said there.
#[derive(Clone, Copy)]
pub struct Words<'f, 'a> {
    failure: &'f Failure<'a>,
}

impl<'a> Failure<'a> {
    /// What is wrong, in words.
    pub fn words(&self) -> Words<'_, 'a> {
        Words { failure: self }
    }
}

/// Why a file can't be used.
#[derive(Clone, Copy)]
struct Why(io::ErrorKind);

impl fmt::Display for Why {
    fn fmt<W: Write>(&self, f: &mut Formatter<W>) -> fmt::Result {
        let kind = self.0;
        f.write_str(match kind {
            io::ErrorKind::NotFound => "there is no such file or folder",
            io::ErrorKind::IsADirectory => "it is a folder, where a file is wanted",
            io::ErrorKind::NotADirectory => "it is no folder, or lies below what is none",
            io::ErrorKind::PermissionDenied => "permission is refused",
            io::ErrorKind::ReadOnlyFilesystem => "it lies where nothing can be written",
            io::ErrorKind::StorageFull | io::ErrorKind::QuotaExceeded => "no room is left for it",
            io::ErrorKind::FilesystemLoop => "its links lead in a circle",
            io::ErrorKind::InvalidInput | io::ErrorKind::InvalidFilename =>
                "no file has such a name",
            io::ErrorKind::AlreadyExists => {
                "the files that are written beside it, .part to .part9, are there already: remove one"
            }
            _ => return write!(f, "{kind}"),
        })
    }
}

fn write_file<W: Write>(f: &mut Formatter<W>, path: &str, kind: io::ErrorKind) -> fmt::Result {
    let why = Why(kind);
    writeln!(f, "error: '{path}' can't be used: {why}")
}

/// Says which line gives no name of a keysym, and what such a line is.
fn write_names<W: Write>(f: &mut Formatter<W>, path: &str, fault: NameFault) -> fmt::Result {
    match fault {
        NameFault::Memory => f.write_str("error: no memory is left\n"),
        NameFault::LineShape(line) => writeln!(
            f,
            "error: line {line} of '{path}': expected a name, blanks and a keysym's number, as 'EuroSign 0x20ac', with no blank before or behind"
        ),
        NameFault::Twice(line) => writeln!(
            f,
            "error: line {line} of '{path}': its name has another keysym already, which is built in or stands in a line before"
        ),
        NameFault::Value(line) => writeln!(
            f,
            "error: line {line} of '{path}': expected a keysym's number from 0xa to 0x1fffffff"
        ),
    }
}

/// What is wrong with an image.
fn broken_image(fault: ImageFault) -> &'static str {
    match fault {
        ImageFault::Truncated => "the image is cut short",
        ImageFault::Length => "the image has more bytes than it says",
        ImageFault::Magic | ImageFault::Version | ImageFault::BadRecord(..) => {
            "the image breaks a rule of images"
        }
    }
}

/// Says what stands where an image is wanted, and what to do.
fn write_image<W: Write>(f: &mut Formatter<W>, fault: ImageFault, kind: FileKind) -> fmt::Result {
    match kind {
        FileKind::Image => {
            let broken = broken_image(fault);
            writeln!(f, "error: {broken}: {COMPILE}")
        }
        FileKind::Version(version) => writeln!(
            f,
            "error: an image of version {version}, where 1 and 2 are read: {COMPILE}"
        ),
        FileKind::Empty => writeln!(f, "error: no image but an empty file: {COMPILE}"),
        FileKind::Source => f.write_str(
            "error: no image but a keymap's source: 'xkc compile FILE OUT' makes an image of it\n",
        ),
        FileKind::Maps => f.write_str(
            "error: no image but a file that a source includes: 'xkc compile FILE OUT' makes an image of a source\n",
        ),
        FileKind::Rules => f.write_str(
            "error: no image but rules for names: 'xkc compile --layout L OUT' makes an image by names\n",
        ),
        FileKind::Header => f.write_str(
            "error: no image but a C header: 'xkc names FILE' prints the names of keysyms that it has\n",
        ),
        FileKind::Events => f.write_str(
            "error: no image but events: 'xkc replay IMAGE' reads them from its input\n",
        ),
        FileKind::Other => writeln!(f, "error: no image: {COMPILE}"),
    }
}

/// A line as a terminal may show it.
#[derive(Clone, Copy)]
struct Line<'a>(&'a str);

impl fmt::Display for Line<'_> {
    fn fmt<W: Write>(&self, f: &mut Formatter<W>) -> fmt::Result {
        for character in self.0.chars().take(MOST_SHOWN) {
            match character {
                '\r' => f.write_str("\\r")?,
                '\t' => f.write_str("\\t")?,
                _ if character.is_control() => f.write_char('?')?,
                _ => f.write_char(character)?,
            }
        }
        Ok(())
    }
}

/// Says which line is no event, with its text, and what an event is.
fn write_event<W: Write>(f: &mut Formatter<W>, line: u64, text: &str) -> fmt::Result {
    let text = Line(text);
    writeln!(
        f,
        "error: line {line} of the events, '{text}', is no event: {EVENT}"
    )
}

/// Says why lines are answered no further.
fn write_replay<W: Write>(f: &mut Formatter<W>, fault: ReplayFault) -> fmt::Result {
    match fault {
        ReplayFault::Memory => f.write_str("error: no memory is left\n"),
        ReplayFault::Image(fault) => write_image(f, fault, FileKind::Other),
        ReplayFault::Line(line) => {
            writeln!(f, "error: line {line} of the events is no event: {EVENT}")
        }
        ReplayFault::Read => f.write_str(
            "error: the input can't be read, or has more than 67,108,864 bytes\n",
        ),
        ReplayFault::Write => f.write_str("error: the output can't be written\n"),
    }
}

impl fmt::Display for Words<'_, '_> {
    fn fmt<W: Write>(&self, f: &mut Formatter<W>) -> fmt::Result {
        match self.failure {
            Failure::File(path, kind) => write_file(f, path, *kind),
            Failure::Found(path, kind) => write_file(f, path.as_str(), *kind),
            Failure::Keysym(word) => writeln!(
                f,
                "error: '{word}' is neither the name of a keysym, as EuroSign, nor one character"
            ),
            Failure::NoKey(word) => {
                writeln!(f, "error: no level of a key has the keysym '{word}'")
            }
            Failure::Names(path, fault) => write_names(f, path, *fault),
            Failure::Image(fault, kind) => write_image(f, *fault, *kind),
            Failure::Replay(fault) => write_replay(f, *fault),
            Failure::Event(line, text) => write_event(f, *line, text.as_str()),
            Failure::Write => write_replay(f, ReplayFault::Write),
            Failure::Source(Fault::Memory) => f.write_str("error: no memory is left\n"),
            Failure::Source(_) | Failure::Rules(_) | Failure::Missing(_) => Ok(()),
        }
    }
}
