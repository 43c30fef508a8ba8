//! The words that ask for a keymap by its names.
use clap::ArgMatches;
use kx_names::{Asked, Environment, Written, read_environment};
use std::alloc::{AllocError, Global};
use std::env::Env;
use std::rt::Files as FileSystem;

/// The words that ask for a keymap by its names.
const NAME_WORDS: [&str; 5] = ["rules", "model", "layout", "variant", "options"];

/// The commands that take names, whatever stands after them.
const NAME_COMMANDS: [&str; 2] = ["rules", "list"];

/// Whether a word is `--NAME` or `--NAME=..` of a name.
fn is_name_word(word: &str) -> bool {
    let Some(rest) = word.strip_prefix("--") else {
        return false;
    };
    let name = match rest.split_once('=') {
        Some((name, _)) => name,
        None => rest,
    };
    NAME_WORDS.contains(&name)
}

/// Whether words ask for a keymap by its names: then they have no SOURCE, and no IMAGE that is read. The first word is the
/// program's own name.
pub fn are_by_names(words: &[String]) -> bool {
    words
        .iter()
        .take_while(|word| word.as_str() != "--")
        .any(|word| is_name_word(word.as_str()))
}

/// Whether the environment may stand for words that aren't written.
fn ask_environment(words: &[String]) -> bool {
    let is_command = match words.get(1) {
        Some(word) => NAME_COMMANDS.contains(&word.as_str()),
        None => false,
    };
    is_command || are_by_names(words)
}

/// What the environment has for names, where the words ask for it. The first word is the program's own name.
///
/// # Errors
/// Where there is no memory for it.
pub fn environment_for(
    rt: &(impl Env + FileSystem + AllocGlobal),
    words: &[String],
) -> Result<Environment, AllocError> {
    match ask_environment(words) {
        true => read_environment(rt),
        false => Ok(Environment::none(rt.alloc())),
    }
}

fn written_in<'a>(matches: &ArgMatches<'a>) -> Written<'a> {
    Written {
        rules: matches.get_str("rules"),
        model: matches.get_str("model"),
        layouts: matches.get_str("layout"),
        variants: matches.get_str("variant"),
        options: matches.get_str("options"),
    }
}

/// Whether variants are written without layouts.
pub(crate) fn lack_layouts(matches: &ArgMatches) -> bool {
    let written = written_in(matches);
    let has_layouts = written.layouts.is_some_and(|word| !word.is_empty());
    written.variants.is_some_and(|word| !word.is_empty()) && !has_layouts
}

/// The names that words ask for.
pub(crate) fn asked_in<'a>(matches: &ArgMatches<'a>, environment: &'a Environment) -> Asked<'a> {
    Asked::of(written_in(matches), environment)
}

/// The rules that words ask for.
pub(crate) fn rules_in<'a>(matches: &ArgMatches<'a>, environment: &'a Environment) -> &'a str {
    let written = Written {
        rules: matches.get_str("rules"),
        model: None,
        layouts: None,
        variants: None,
        options: None,
    };
    Asked::of(written, environment).rules
}

/// The folders that are named, or those of the environment where none is.
pub(crate) fn folders_in<'a>(
    alloc: Global,
    matches: &ArgMatches<'a>,
    environment: &'a Environment,
) -> Result<Vec<&'a str>, AllocError> {
    if let Some(folders) = matches.get_strs("include") {
        return Vec::from_slice(alloc, folders);
    }
    let mut folders = Vec::new(alloc);
    for folder in environment.folders() {
        folders.push(folder.as_str())?;
    }
    Ok(folders)
}
