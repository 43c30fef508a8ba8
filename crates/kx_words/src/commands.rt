//! The commands, and the words that each takes.
use clap::{Arg, ArgAction, Command};
use std::alloc::{AllocError, Global};

const VERSION: &str = "1.0.0";

/// Which words a command has that reads a keymap.
#[derive(Clone, Copy, PartialEq, Eq)]
pub(crate) enum Shape {
    /// Those of files, and no option but `--quiet`: all that most calls ask for, since each word takes time to make.
    Bare,
    /// Those of files and all options, of which some may stand in the place of a file: what help and refusals tell.
    Whole,
    /// All options, of which some stand in the place of a file.
    Names,
}

/// How a word is written, and what it takes.
#[derive(Clone, Copy)]
enum Form {
    /// A value in its place, which has to stand there.
    Required,
    /// A value in its place, or none.
    Optional,
    /// Values in their places, one at least.
    Several,
    /// Values in their places, or none.
    Any,
    /// `--ID VALUE`, with this name of the value.
    Option(&'static str),
    /// `--ID VALUE` or `-I VALUE`, as often as it is wanted.
    Folders,
    /// `--ID`.
    Flag,
}

/// Which calls have a word.
#[derive(Clone, Copy)]
enum Calls {
    All,
    /// Those where no names stand in the place of a file.
    OfFiles,
    /// Those with an option: more words than others take are read anew.
    WithOptions,
}

/// A word that a command takes.
#[derive(Clone, Copy)]
struct Word {
    id: &'static str,
    help: &'static str,
    form: Form,
    calls: Calls,
}

impl Word {
    /// Whether a call of this shape has it.
    fn is_in(self, shape: Shape) -> bool {
        match self.calls {
            Calls::All => true,
            Calls::OfFiles => shape != Shape::Names,
            Calls::WithOptions => shape != Shape::Bare,
        }
    }

    fn arg<'a>(self, alloc: Global) -> Arg<'a> {
        let id = self.id;
        let arg = Arg::new(alloc, id).help(self.help);
        match self.form {
            Form::Required => arg.required(true).action(ArgAction::Set),
            Form::Optional => arg.action(ArgAction::Set),
            Form::Several => arg.required(true).action(ArgAction::Append),
            Form::Any => arg.action(ArgAction::Append),
            Form::Option(value) => arg.long(id).value_name(value).action(ArgAction::Set),
            Form::Folders => arg
                .short('I')
                .long(id)
                .value_name("DIR")
                .action(ArgAction::Append),
            Form::Flag => arg.long(id).action(ArgAction::SetTrue),
        }
    }
}

const NAMES: Word = Word {
    id: "names",
    help: "A file of lines that name further keysyms, as: Euro 0x20ac",
    form: Form::Option("P"),
    calls: Calls::WithOptions,
};

const FOLDERS: Word = Word {
    id: "include",
    help: "A folder in which included files are looked for, as /usr/share/X11/xkb",
    form: Form::Folders,
    calls: Calls::WithOptions,
};

const QUIET: Word = Word {
    id: "quiet",
    help: "Say nothing of what is passed over on standard error",
    form: Form::Flag,
    calls: Calls::All,
};

const WARN: Word = Word {
    id: "warn",
    help: "Say each place of what is passed over, those in installed files too",
    form: Form::Option("all"),
    calls: Calls::WithOptions,
};

const RULES: Word = Word {
    id: "rules",
    help: "The rules by which names are read, as evdev",
    form: Form::Option("R"),
    calls: Calls::WithOptions,
};

const MODEL: Word = Word {
    id: "model",
    help: "A keyboard's model, as pc105",
    form: Form::Option("M"),
    calls: Calls::WithOptions,
};

const LAYOUT: Word = Word {
    id: "layout",
    help: "Layouts by name in the place of a file, as us,de",
    form: Form::Option("L"),
    calls: Calls::WithOptions,
};

const VARIANT: Word = Word {
    id: "variant",
    help: "A variant for each layout, as ,neo",
    form: Form::Option("V"),
    calls: Calls::WithOptions,
};

const OPTIONS: Word = Word {
    id: "options",
    help: "Options, as grp:alt_shift_toggle,caps:escape",
    form: Form::Option("O"),
    calls: Calls::WithOptions,
};

const FILES: Word = Word {
    id: "NAME=PATH",
    help: "A file that the source may include, under this name",
    form: Form::Any,
    calls: Calls::WithOptions,
};

const SOURCE: Word = Word {
    id: "SOURCE",
    help: "The keymap's source; - is standard input",
    form: Form::Required,
    calls: Calls::OfFiles,
};

const KEYMAP: Word = Word {
    id: "KEYMAP",
    help: "The keymap's image or source; - is standard input",
    form: Form::Required,
    calls: Calls::OfFiles,
};

const OUT: Word = Word {
    id: "OUT",
    help: "The image that is written; - is standard output",
    form: Form::Required,
    calls: Calls::All,
};

const GROUP: Word = Word {
    id: "group",
    help: "The group that is shown, 1 to 32; the first, where none is named",
    form: Form::Option("N"),
    calls: Calls::WithOptions,
};

const SVG: Word = Word {
    id: "svg",
    help: "Print a drawing that a browser opens",
    form: Form::Flag,
    calls: Calls::WithOptions,
};

const KEYSYM: Word = Word {
    id: "KEYSYM",
    help: "The keysym's name, or a character",
    form: Form::Required,
    calls: Calls::All,
};

const KIND: Word = Word {
    id: "KIND",
    help: "layouts, variants, options or models; without it all, with their kinds",
    form: Form::Optional,
    calls: Calls::All,
};

const NAMED: Word = Word {
    id: "WORD",
    help: "A word that the name or the description has",
    form: Form::Optional,
    calls: Calls::All,
};

const HEADERS: Word = Word {
    id: "HEADER",
    help: "A C header, as xkbcommon-keysyms.h",
    form: Form::Several,
    calls: Calls::All,
};

const IMAGE: Word = Word {
    id: "IMAGE",
    help: "The image",
    form: Form::Required,
    calls: Calls::All,
};

const OLDER: Word = Word {
    id: "IMAGE",
    help: "The image of any version",
    form: Form::Required,
    calls: Calls::All,
};

/// What a command does, and the words that it takes in the order in which the help has them.
struct Described {
    name: &'static str,
    about: &'static str,
    words: &'static [Word],
}

/// The commands in the order in which the help has them.
static COMMANDS: [Described; 11] = [
    Described {
        name: "try",
        about: "Answers events from a source on standard input (as without words), or by names",
        words: &[
            NAMES, FOLDERS, QUIET, WARN, RULES, MODEL, LAYOUT, VARIANT, OPTIONS, FILES,
        ],
    },
    Described {
        name: "compile",
        about: "Compiles a source, or a layout by its names, to an image",
        words: &[
            NAMES, FOLDERS, QUIET, WARN, RULES, MODEL, LAYOUT, VARIANT, OPTIONS, SOURCE, OUT, FILES,
        ],
    },
    Described {
        name: "replay",
        about: "Answers lines of events on standard input by a keymap",
        words: &[
            NAMES, FOLDERS, RULES, MODEL, LAYOUT, VARIANT, OPTIONS, KEYMAP, FILES,
        ],
    },
    Described {
        name: "print",
        about: "Prints all that a keymap's image tells as the source of a keymap",
        words: &[
            NAMES, FOLDERS, RULES, MODEL, LAYOUT, VARIANT, OPTIONS, KEYMAP, FILES,
        ],
    },
    Described {
        name: "show",
        about: "Prints a picture of a keymap's keyboard",
        words: &[
            GROUP, SVG, NAMES, FOLDERS, RULES, MODEL, LAYOUT, VARIANT, OPTIONS, KEYMAP, FILES,
        ],
    },
    Described {
        name: "find",
        about: "Prints each key, group and level that gives a keysym, and the modifiers to hold",
        words: &[
            NAMES, FOLDERS, RULES, MODEL, LAYOUT, VARIANT, OPTIONS, KEYMAP, KEYSYM, FILES,
        ],
    },
    Described {
        name: "list",
        about: "Prints the names of layouts, variants, options and models",
        words: &[RULES, FOLDERS, KIND, NAMED],
    },
    Described {
        name: "rules",
        about: "Prints the source that is made of names",
        words: &[FOLDERS, RULES, MODEL, LAYOUT, VARIANT, OPTIONS],
    },
    Described {
        name: "names",
        about: "Prints the names of keysyms that C headers define, as --names takes them",
        words: &[HEADERS],
    },
    Described {
        name: "dump",
        about: "Prints an image's bytes in hexadecimal, 32 a line",
        words: &[IMAGE],
    },
    Described {
        name: "upgrade",
        about: "Writes an image anew, in the newest version",
        words: &[OLDER, OUT],
    },
];

/// A command with the words that a call of this shape has.
fn command_of<'a>(
    alloc: Global,
    described: &Described,
    shape: Shape,
) -> Result<Command<'a>, AllocError> {
    let mut command = Command::new(alloc, described.name).about(described.about);
    for word in described.words {
        if word.is_in(shape) {
            command = command.arg(word.arg(alloc))?;
        }
    }
    Ok(command)
}

/// What stands below the help of the whole program.
const SESSION: &str = "\
Without words a keymap's source is read from standard input, up to a line %%, and the lines after it are events:

    down 38
    up 38

Each is answered by a line: the code, the direction, the keysyms, and the keyboard's state after the event:

    38 down a consumed=none base=none latched=none locked=none group=1

The status is 0, or 1 where something is refused, 2 where these words are wrong, and 3 where a file, the input or the
output can't be used. A refusal is one line on standard output; what it means stands on standard error.";

fn program<'a>(alloc: Global) -> Command<'a> {
    Command::new(alloc, "xkc")
        .about("Compiles keyboard layouts and runs keyboards")
        .after_help(SESSION)
        .version(VERSION)
}

/// The commands. A function that names the table itself is proved with all its words.
fn commands() -> &'static [Described] {
    &COMMANDS
}

/// The command that a word names.
pub(crate) fn command_named<'a>(
    alloc: Global,
    word: &str,
    shape: Shape,
) -> Result<Option<Command<'a>>, AllocError> {
    for described in commands() {
        if described.name == word {
            return Ok(Some(command_of(alloc, described, shape)?));
        }
    }
    Ok(None)
}

/// The program's words with all commands.
pub(crate) fn whole_command<'a>(alloc: Global) -> Result<Command<'a>, AllocError> {
    let mut whole = program(alloc);
    for described in commands() {
        whole = whole.subcommand(command_of(alloc, described, Shape::Whole)?)?;
    }
    Ok(whole)
}

/// The program's words, as far as the first one asks for them: where it names a command, the others aren't made, and for the
/// version none is.
pub(crate) fn command_for<'a>(
    alloc: Global,
    first: &str,
    shape: Shape,
) -> Result<Command<'a>, AllocError> {
    if first == "--version" || first == "-V" {
        return Ok(program(alloc));
    }
    match command_named(alloc, first, shape)? {
        Some(command) => program(alloc).subcommand(command),
        None => whole_command(alloc),
    }
}
