//! What the words of a command ask for.
use crate::commands::{Shape, command_named, whole_command};
use crate::naming::{asked_in, folders_in, lack_layouts, rules_in};
use crate::task::{Compile, INPUT, Includes, Keymap, Source, Task, Try};
use clap::error::ErrorKind;
use clap::{ArgMatches, Error};
use kx_explain::Telling;
use kx_files::Included;
use kx_names::{Asked, Environment, Kind, Wanted};
use std::alloc::{AllocError, Global};

/// How the words of a command are read.
#[derive(Clone, Copy)]
pub(crate) struct Reading<'a> {
    pub alloc: Global,
    pub command: &'a str,
    /// Whether names stand in the place of a file.
    pub is_by_names: bool,
    pub environment: &'a Environment,
}

impl Reading<'_> {
    /// The words that a refusal tells.
    fn shape(self) -> Shape {
        match self.is_by_names {
            true => Shape::Names,
            false => Shape::Whole,
        }
    }
}

/// A word that a command can't take, with the command's own usage.
fn refused(reading: Reading, message: &str) -> Result<Error, AllocError> {
    let alloc = reading.alloc;
    let name = format!(in alloc; "xkc {}", reading.command)?;
    let command = match command_named(alloc, reading.command, reading.shape())? {
        Some(command) => command,
        None => whole_command(alloc)?,
    };
    let mut used = command.bin_name(name.as_str())?;
    used.error(ErrorKind::ValueValidation, message)
}

/// The files that the words name; each word has a `=`, and no name stands twice.
fn files_of<'a>(reading: Reading, matches: &ArgMatches<'a>) -> Result<Vec<Included<'a>>, Error> {
    let alloc = reading.alloc;
    let mut found: Vec<Included> = Vec::new(alloc);
    let Some(words) = matches.get_strs("NAME=PATH") else {
        return Ok(found);
    };
    for word in words {
        let Some((name, path)) = word.split_once('=') else {
            let message = format!(in alloc; "the word '{word}' is not NAME=PATH")?;
            return Err(refused(reading, message.as_str())?);
        };
        if found.iter().any(|other| other.name == name) {
            let message = format!(in alloc; "the name of '{word}' is given twice")?;
            return Err(refused(reading, message.as_str())?);
        }
        found.push(Included { name, path })?;
    }
    Ok(found)
}

/// The folders that the words name; those of the environment where names stand in the place of a file and none is named.
fn folders_of<'a>(
    reading: Reading<'a>,
    matches: &ArgMatches<'a>,
) -> Result<Vec<&'a str>, AllocError> {
    if reading.is_by_names {
        return folders_in(reading.alloc, matches, reading.environment);
    }
    match matches.get_strs("include") {
        Some(folders) => Vec::from_slice(reading.alloc, folders),
        None => Ok(Vec::new(reading.alloc)),
    }
}

/// What the words of a command name for includes, in their order.
fn includes_of<'a>(reading: Reading<'a>, matches: &ArgMatches<'a>) -> Result<Includes<'a>, Error> {
    let files = files_of(reading, matches)?;
    let folders = folders_of(reading, matches)?;
    Ok(Includes { files, folders })
}

/// Which warnings the words of a command ask for.
fn telling_of(reading: Reading, matches: &ArgMatches) -> Result<Telling, Error> {
    let telling = match matches.get_str("warn") {
        None => Telling::Own,
        Some("all") => Telling::All,
        Some(word) => {
            let message = format!(in reading.alloc;
                "'{word}' is not what --warn takes, which is all"
            )?;
            return Err(refused(reading, message.as_str())?);
        }
    };
    if matches.get_flag("quiet") {
        return Ok(Telling::Nothing);
    }
    Ok(telling)
}

/// The names that the words ask for; none where a file stands in their place.
fn asked_of<'a>(
    reading: Reading<'a>,
    matches: &ArgMatches<'a>,
) -> Result<Option<Asked<'a>>, Error> {
    if !reading.is_by_names {
        return Ok(None);
    }
    if lack_layouts(matches) {
        return Err(refused(reading, "--variant is for layouts, which --layout names")?);
    }
    Ok(Some(asked_in(matches, reading.environment)))
}

/// The value of a required word.
fn required<'a>(matches: &ArgMatches<'a>, id: &str) -> &'a str {
    matches.get_str(id).unwrap_or("")
}

/// That the file which is written is none of those that are read.
fn check_out(reading: Reading, out: &str, is_read: bool) -> Result<(), Error> {
    if is_read {
        let message = format!(in reading.alloc; "the file '{out}' is read, and can't be OUT too")?;
        return Err(refused(reading, message.as_str())?);
    }
    Ok(())
}

fn source_of<'a>(reading: Reading<'a>, matches: &ArgMatches<'a>) -> Result<Source<'a>, Error> {
    match asked_of(reading, matches)? {
        Some(asked) => Ok(Source::Names(asked)),
        None => Ok(Source::File(required(matches, "SOURCE"))),
    }
}

fn compile_of<'a>(reading: Reading<'a>, matches: &ArgMatches<'a>) -> Result<Task<'a>, Error> {
    let names = matches.get_str("names");
    let source = source_of(reading, matches)?;
    let image = required(matches, "OUT");
    let includes = includes_of(reading, matches)?;
    let is_read = source.is_at(image)
        || names == Some(image)
        || includes.files.iter().any(|file| file.path == image);
    check_out(reading, image, is_read && image != INPUT)?;
    Ok(Task::Compile(Compile {
        names,
        source,
        image,
        includes,
        telling: telling_of(reading, matches)?,
    }))
}

/// By names the events are all that standard input has, as for `replay`.
fn try_of<'a>(reading: Reading<'a>, matches: &ArgMatches<'a>) -> Result<Task<'a>, Error> {
    let names = matches.get_str("names");
    let asked = asked_of(reading, matches)?;
    let includes = includes_of(reading, matches)?;
    let telling = telling_of(reading, matches)?;
    match asked {
        Some(asked) => {
            let source = Source::Names(asked);
            let keymap = Keymap { source, includes };
            Ok(Task::Replay { names, keymap })
        }
        None => Ok(Task::Try(Try {
            names,
            includes,
            telling,
        })),
    }
}

fn upgrade_of<'a>(reading: Reading, matches: &ArgMatches<'a>) -> Result<Task<'a>, Error> {
    let image = required(matches, "IMAGE");
    let newer = required(matches, "OUT");
    check_out(reading, newer, image == newer && newer != INPUT)?;
    Ok(Task::Upgrade { image, newer })
}

/// The number of a group, from 0, where a word names it from 1; without one the first.
fn group_of(reading: Reading, matches: &ArgMatches) -> Result<u8, Error> {
    let Some(word) = matches.get_str("group") else {
        return Ok(0);
    };
    match word.parse::<u8>() {
        Ok(number @ 1..=32) => Ok(number - 1),
        _ => {
            let message = format!(in reading.alloc; "'{word}' is no group from 1 to 32")?;
            Err(refused(reading, message.as_str())?)
        }
    }
}

/// The keymap that is looked at.
fn keymap_of<'a>(reading: Reading<'a>, matches: &ArgMatches<'a>) -> Result<Keymap<'a>, Error> {
    let source = match asked_of(reading, matches)? {
        Some(asked) => Source::Names(asked),
        None => Source::File(required(matches, "KEYMAP")),
    };
    if reading.command == "replay" && source.is_at(INPUT) {
        return Err(refused(
            reading,
            "standard input has the events, so the keymap can't be read from there",
        )?);
    }
    let includes = includes_of(reading, matches)?;
    Ok(Keymap { source, includes })
}

/// What the words of a command that only looks at a keymap ask for.
fn look_of<'a>(reading: Reading<'a>, matches: &ArgMatches<'a>) -> Result<Task<'a>, Error> {
    let names = matches.get_str("names");
    let keymap = keymap_of(reading, matches)?;
    match reading.command {
        "print" => Ok(Task::Print { names, keymap }),
        "replay" => Ok(Task::Replay { names, keymap }),
        "show" => Ok(Task::Show {
            names,
            keymap,
            group: group_of(reading, matches)?,
            is_drawn: matches.get_flag("svg"),
        }),
        _ => Ok(Task::Find {
            names,
            keymap,
            keysym: required(matches, "KEYSYM"),
        }),
    }
}

fn names_of<'a>(alloc: Global, matches: &ArgMatches<'a>) -> Result<Task<'a>, Error> {
    let headers = match matches.get_strs("HEADER") {
        Some(headers) => Vec::from_slice(alloc, headers)?,
        None => Vec::new(alloc),
    };
    Ok(Task::Names { headers })
}

/// What is wanted of a list: the first word is its kind, or where it is alone the word that a name has.
fn wanted_of<'a>(reading: Reading, matches: &ArgMatches<'a>) -> Result<Wanted<'a>, Error> {
    let Some(first) = matches.get_str("KIND") else {
        return Ok(Wanted {
            kind: None,
            word: None,
        });
    };
    let kind = Kind::of_several(first);
    let word = matches.get_str("WORD");
    match (kind, word) {
        (None, Some(_)) => {
            let message = format!(in reading.alloc;
                "'{first}' is none of layouts, variants, options and models"
            )?;
            Err(refused(reading, message.as_str())?)
        }
        (None, None) => Ok(Wanted {
            kind: None,
            word: Some(first),
        }),
        _ => Ok(Wanted { kind, word }),
    }
}

fn list_of<'a>(reading: Reading<'a>, matches: &ArgMatches<'a>) -> Result<Task<'a>, Error> {
    let wanted = wanted_of(reading, matches)?;
    Ok(Task::List {
        rules: rules_in(matches, reading.environment),
        folders: folders_in(reading.alloc, matches, reading.environment)?,
        wanted,
    })
}

fn rules_of<'a>(reading: Reading<'a>, matches: &ArgMatches<'a>) -> Result<Task<'a>, Error> {
    if lack_layouts(matches) {
        return Err(refused(reading, "--variant is for layouts, which --layout names")?);
    }
    Ok(Task::Rules {
        asked: asked_in(matches, reading.environment),
        folders: folders_in(reading.alloc, matches, reading.environment)?,
    })
}

pub(crate) fn task_of<'a>(
    reading: Reading<'a>,
    matches: &ArgMatches<'a>,
) -> Result<Task<'a>, Error> {
    match reading.command {
        "compile" => compile_of(reading, matches),
        "print" | "show" | "find" | "replay" => look_of(reading, matches),
        "dump" => Ok(Task::Dump {
            image: required(matches, "IMAGE"),
        }),
        "names" => names_of(reading.alloc, matches),
        "list" => list_of(reading, matches),
        "rules" => rules_of(reading, matches),
        "upgrade" => upgrade_of(reading, matches),
        _ => try_of(reading, matches),
    }
}

/// What no words ask for.
pub(crate) fn bare_task<'a>(alloc: Global) -> Task<'a> {
    Task::Try(Try {
        names: None,
        includes: Includes {
            files: Vec::new(alloc),
            folders: Vec::new(alloc),
        },
        telling: Telling::Own,
    })
}
