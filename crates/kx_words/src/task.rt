//! What the program's words ask for.
use kx_explain::Telling;
use kx_files::Included;
use kx_names::{Asked, Wanted};
use std::alloc::{AllocError, Global};

/// The word for standard input in the place of a file that is read, and for standard output in the place of one that is written.
pub const INPUT: &str = "-";

/// Whether a path is standard output's.
pub fn is_output(path: &str) -> bool {
    matches!(
        path,
        INPUT | "/dev/stdout" | "/dev/fd/1" | "/proc/self/fd/1"
    )
}

/// What a source may include: files by name, and the folders in which others are looked for.
#[derive(Drop)]
pub struct Includes<'a> {
    pub files: Vec<Included<'a>>,
    pub folders: Vec<&'a str>,
}

/// Where a source is taken from.
#[derive(Clone, Copy)]
pub enum Source<'a> {
    /// The file at a path, or standard input for [`INPUT`].
    File(&'a str),
    /// It is made of names.
    Names(Asked<'a>),
}

impl<'a> Source<'a> {
    /// How the source is called where a fault in it is shown.
    pub fn path(self) -> &'a str {
        match self {
            Source::File(INPUT) => "<stdin>",
            Source::File(path) => path,
            Source::Names(_) => "<names>",
        }
    }

    /// The path of the source, where it is a file.
    pub fn file(self) -> Option<&'a str> {
        match self {
            Source::File(INPUT) | Source::Names(_) => None,
            Source::File(path) => Some(path),
        }
    }

    /// Whether it is taken from this path.
    pub(crate) fn is_at(self, path: &str) -> bool {
        match self {
            Source::File(own) => own == path,
            Source::Names(_) => false,
        }
    }
}

/// A keymap that is looked at: an image, or a source, which is compiled in memory.
#[derive(Drop)]
pub struct Keymap<'a> {
    /// Where the source is taken from; a file may hold an image in its place.
    pub source: Source<'a>,
    /// What a source may include.
    pub includes: Includes<'a>,
}

/// A source that is compiled to an image.
#[derive(Drop)]
pub struct Compile<'a> {
    pub names: Option<&'a str>,
    pub source: Source<'a>,
    /// The path of the image that is written, or [`INPUT`] for standard output.
    pub image: &'a str,
    pub includes: Includes<'a>,
    pub telling: Telling,
}

impl<'a> Compile<'a> {
    /// The paths of files that the words name to be read, but for the source.
    ///
    /// # Errors
    /// Where there is no memory for them.
    pub fn other_paths(&self, alloc: Global) -> Result<Vec<&'a str>, AllocError> {
        let mut paths = Vec::new(alloc);
        if let Some(path) = self.names {
            paths.push(path)?;
        }
        for file in self.includes.files.as_slice() {
            paths.push(file.path)?;
        }
        Ok(paths)
    }
}

/// A source on standard input that is compiled, and the events after it, which are answered.
#[derive(Drop)]
pub struct Try<'a> {
    pub names: Option<&'a str>,
    pub includes: Includes<'a>,
    pub telling: Telling,
}

/// What the words ask for.
#[derive(Drop)]
pub enum Task<'a> {
    Try(Try<'a>),
    Compile(Compile<'a>),
    /// Answer events from standard input by a keymap.
    Replay {
        names: Option<&'a str>,
        keymap: Keymap<'a>,
    },
    /// Print the keymap text that tells all of an image.
    Print {
        names: Option<&'a str>,
        keymap: Keymap<'a>,
    },
    /// Print an image's bytes.
    Dump {
        image: &'a str,
    },
    /// Print a picture of a keymap's keyboard, in an effective group from 0.
    Show {
        names: Option<&'a str>,
        keymap: Keymap<'a>,
        group: u8,
        is_drawn: bool,
    },
    /// Print the keys of a keymap that give a keysym.
    Find {
        names: Option<&'a str>,
        keymap: Keymap<'a>,
        keysym: &'a str,
    },
    /// Print the names of keysyms that C headers define.
    Names {
        headers: Vec<&'a str>,
    },
    /// Write the newest image of what an image tells.
    Upgrade {
        image: &'a str,
        newer: &'a str,
    },
    /// Print the source that is made of names.
    Rules {
        asked: Asked<'a>,
        folders: Vec<&'a str>,
    },
    /// Print the names that are listed for rules.
    List {
        rules: &'a str,
        folders: Vec<&'a str>,
        wanted: Wanted<'a>,
    },
}

impl Task<'_> {
    /// Whether an image is written on standard output, where nothing else may stand.
    pub fn is_piped(&self) -> bool {
        match self {
            Task::Compile(compile) => is_output(compile.image),
            Task::Upgrade { newer, .. } => is_output(newer),
            _ => false,
        }
    }
}
