//! What is said of words that ask for help, or that are wrong.
use crate::failing::fail;
use clap::Error;
use clap::error::ErrorKind;
use kx_failure::{DEVICE, Failure};
use kx_lex::Fault;
use kx_words::not_text;
use std::env::Env;
use std::fmt;

/// The status that wrong words end with.
const USAGE: u8 = 2;

/// Says what is wrong with the words, where only what they name tells it, and answers the status to end with.
pub fn refuse_words(rt: &impl Eprint, message: impl fmt::Display + Drop) -> u8 {
    let _ = eprintln!(rt; "error: {message}\n\nFor more information, try '--help'.");
    USAGE
}

/// Prints help, or what is wrong with the words, and answers the status to end with.
pub fn explain(rt: &(impl Print + Eprint), error: Error) -> u8 {
    if error.kind() == ErrorKind::OutOfMemory {
        return out_of_memory(rt);
    }
    let is_printed = error.print(rt).is_ok();
    match error.use_stderr() {
        true => USAGE,
        false if is_printed => 0,
        false => DEVICE,
    }
}

/// Says that there is no memory, and answers the status to end with.
pub fn out_of_memory(rt: &(impl Print + Eprint)) -> u8 {
    fail(rt, Failure::Source(Fault::Memory))
}

/// Says which word isn't text, and answers the status to end with.
pub fn word_that_is_not_text(rt: &(impl Env + Print + Eprint + AllocGlobal)) -> u8 {
    match not_text(rt) {
        Ok(error) => explain(rt, error),
        Err(_) => out_of_memory(rt),
    }
}
