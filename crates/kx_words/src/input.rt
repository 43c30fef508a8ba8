//! What the program asks of who calls it: lines, and words that are text.
use crate::commands::whole_command;
use crate::naming::are_by_names;
use clap::Error;
use clap::error::ErrorKind;
use ks_core::{BufferedOut, Lent, write_printed_name};
use std::alloc::{AllocError, Global};
use std::env::{Env, FillError};

/// What answers are made to.
const EVENTS: &str = "lines of events as 'down 38' and 'up 38'";

/// The longest word that is shown where it isn't text, in bytes.
const MOST_SHOWN: usize = 4096;

/// What standard input is to give, where the words ask for lines of it. The first word is the program's own name.
pub fn awaited(words: &[String]) -> Option<&'static str> {
    let task = match words.get(1) {
        Some(word) => word.as_str(),
        None => "try",
    };
    match task {
        "try" if are_by_names(words) => Some(EVENTS),
        "try" => Some("a keymap's source, a line %%, and lines of events as 'down 38' and 'up 38'"),
        "replay" => Some(EVENTS),
        _ => None,
    }
}

/// A word as printed text has it.
fn printed(alloc: Global, word: &[u8]) -> Result<String, AllocError> {
    let mut out = Lent::new(Vec::new(alloc));
    let mut press = BufferedOut::new();
    write_printed_name(&mut press, &mut out, word);
    let _ = press.finish(&mut out);
    let text = str::from_utf8(out.device.as_slice()).unwrap_or("");
    String::from_str(alloc, text)
}

/// The first word that isn't text, as printed text has it.
fn first_that_is_not_text(rt: &(impl Env + AllocGlobal)) -> Result<String, AllocError> {
    for index in 0..usize::MAX {
        let mut word = [0u8; MOST_SHOWN];
        match rt.arg(index, &mut word) {
            Ok(length) => {
                if str::from_utf8(&word[..length]).is_err() {
                    return printed(rt.alloc(), &word[..length]);
                }
            }
            Err(FillError::TooLong) => {}
            Err(FillError::NotPresent) => break,
        }
    }
    String::from_str(rt.alloc(), "")
}

/// What is wrong with words of which one isn't text.
///
/// # Errors
/// Where there is no memory for it.
pub fn not_text(rt: &(impl Env + AllocGlobal)) -> Result<Error, AllocError> {
    let word = first_that_is_not_text(rt)?;
    let message = format!(in rt.alloc();
        "the word '{word}' is not text in UTF-8, as each name of a file has to be here"
    )?;
    whole_command(rt.alloc())?.error(ErrorKind::ValueValidation, message.as_str())
}
