//! Why a task ends early.
ghost use Rattle.std.specs.IoError.{error_kind};
ghost use Rattle.std.specs.Prelude.{◌≡◌, ◌≢◌};
ghost use Rattle.std.specs.declared.io.ErrorKind.TheVariants.{OutOfMemory};
ghost use Rattle.kx_lex.specs.declared.fault.Fault.TheVariants.{Memory};
ghost use Rattle.kx_failure.specs.Status.{failure_of, failure_of_events, status_of};

use crate::file_kind::FileKind;
use ks_core::NameFault;
use kx_image::ImageFault;
use kx_lex::Fault;
use kx_names::RulesFault;
use kx_tool::{ReplayFault, SessionFault};
use std::alloc::AllocError;
use std::{fmt, io};

/// The status of a task that is refused.
const REFUSED: u8 = 1;

/// The status of a task whose file, input or output can't be used.
pub const DEVICE: u8 = 3;

/// Why a task ended early. Each prints as the line that a user sees.
#[derive(Drop)]
pub enum Failure<'a> {
    /// A file at this path can't be read or written, and why.
    File(&'a str, io::ErrorKind),
    /// A file that was found at this path can't be read, and why.
    Found(String, io::ErrorKind),
    /// No folder has a file at this path below it.
    Missing(String),
    /// No keysym has this name.
    Keysym(&'a str),
    /// No key gives the keysym of this name.
    NoKey(&'a str),
    /// A line of the file at this path gives no name of a keysym.
    Names(&'a str, NameFault),
    /// Bytes of this kind are no image.
    Image(ImageFault, FileKind),
    /// Rules give no source for names.
    Rules(RulesFault),
    Source(Fault),
    Replay(ReplayFault),
    /// The line of this number, with its text, is no event.
    Event(u64, String),
    /// What is printed can't be written.
    Write,
}

impl Failure<'_> {
    /// The status that the program ends with.
    pub fn status(&self) -> u8
        ensures { result ≡ status_of self.now }
    {
        match self {
            Failure::File(..) | Failure::Found(..) | Failure::Missing(_) | Failure::Write => DEVICE,
            Failure::Replay(ReplayFault::Read | ReplayFault::Write) => DEVICE,
            _ => REFUSED,
        }
    }

    /// A file at a path can't be used, or there is no memory for it.
    pub fn of_file<'a>(fault: &io::Error, path: &'a str) -> Failure<'a>
        ensures memory { error_kind fault.now ≡ OutOfMemory → result ≡ Failure.Source Memory }
        ensures file { error_kind fault.now ≢ OutOfMemory
            → result ≡ Failure.File path.entry (error_kind fault.now) }
    {
        match fault.kind() {
            io::ErrorKind::OutOfMemory => Failure::Source(Fault::Memory),
            kind => Failure::File(path, kind),
        }
    }

    /// The failure of events over what is to be an image, and of what kind that is.
    pub fn of_replay<'a>(fault: ReplayFault, kind: FileKind) -> Failure<'a>
        ensures { result ≡ failure_of_events fault kind }
    {
        match fault {
            ReplayFault::Image(fault) => Failure::Image(fault, kind),
            _ => Failure::Replay(fault),
        }
    }

    /// The failure of a session.
    pub fn of_session<'a>(fault: SessionFault) -> Failure<'a>
        ensures { result ≡ failure_of fault }
    {
        match fault {
            SessionFault::Compile(fault) => Failure::Source(fault),
            SessionFault::Replay(fault) => Failure::Replay(fault),
        }
    }
}

impl From<AllocError> for Failure<'_> {
    ghost use Rattle.kx_failure.specs.declared.failure.Failure.TheVariants.{Source};

    ghost from_gives = { λ _ failure. failure ≡ Source Memory };

    fn from(_: AllocError) -> Self {
        Failure::Source(Fault::Memory)
    }
}

impl fmt::Display for Failure<'_> {
    fn fmt<W: fmt::Write>(&self, f: &mut fmt::Formatter<W>) -> fmt::Result {
        match self {
            Failure::File(path, _) => write!(f, "cannot use {path}"),
            Failure::Found(path, _) | Failure::Missing(path) => write!(f, "cannot use {path}"),
            Failure::Keysym(word) => write!(f, "no keysym is named {word}"),
            Failure::NoKey(word) => write!(f, "no key gives {word}"),
            Failure::Names(_, fault) => write!(f, "{fault}"),
            Failure::Image(fault, _) => write!(f, "{fault}"),
            Failure::Rules(fault) => write!(f, "{fault}"),
            Failure::Source(fault) => write!(f, "{fault}"),
            Failure::Replay(fault) => write!(f, "{fault}"),
            Failure::Event(line, _) => fmt::Display::fmt(&ReplayFault::Line(*line), f),
            Failure::Write => fmt::Display::fmt(&ReplayFault::Write, f),
        }
    }
}
