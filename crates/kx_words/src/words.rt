//! From the words that the program is called with to what they ask for.
use crate::commands::{Shape, command_for};
use crate::naming::are_by_names;
use crate::reading::{Reading, bare_task, task_of};
use crate::task::Task;
use clap::error::ErrorKind;
use clap::{ArgMatches, Error};
use kx_names::Environment;
use std::alloc::Global;

/// Whether a word is an option that few calls have.
fn is_option(word: &str) -> bool {
    word.starts_with('-') && word != "--quiet"
}

/// The words as a command of this shape takes them.
fn matches_by<'a>(
    alloc: Global,
    first: &str,
    words: &'a [String],
    shape: Shape,
) -> Result<ArgMatches<'a>, Error> {
    command_for(alloc, first, shape)?.try_get_matches_from(words)
}

/// The words as the command that the first of them names takes them. Options that aren't written are made only to tell what
/// is wrong.
fn matches_of<'a>(
    alloc: Global,
    first: &str,
    words: &'a [String],
    shape: Shape,
) -> Result<ArgMatches<'a>, Error> {
    match matches_by(alloc, first, words, shape) {
        Ok(matches) => Ok(matches),
        Err(error) => {
            if shape != Shape::Bare || error.kind() == ErrorKind::OutOfMemory {
                return Err(error);
            }
            matches_by(alloc, first, words, Shape::Whole)
        }
    }
}

/// Which words the command is to have.
fn shape_of(words: &[String], is_by_names: bool) -> Shape {
    if is_by_names {
        Shape::Names
    } else if words.iter().any(|word| is_option(word.as_str())) {
        Shape::Whole
    } else {
        Shape::Bare
    }
}

/// What the words ask for, with what the environment has for names; the first is the program's own name.
pub fn task_in<'a>(
    alloc: Global,
    words: &'a [String],
    environment: &'a Environment,
) -> Result<Task<'a>, Error> {
    let Some(first) = words.get(1) else {
        return Ok(bare_task(alloc));
    };
    let is_by_names = are_by_names(words);
    let shape = shape_of(words, is_by_names);
    let matches = matches_of(alloc, first.as_str(), words, shape)?;
    match matches.subcommand() {
        Some((command, inner)) => {
            let reading = Reading {
                alloc,
                command,
                is_by_names,
                environment,
            };
            task_of(reading, inner)
        }
        None => Ok(bare_task(alloc)),
    }
}
