//! Cases are run line by line.
use crate::case::Case;
use crate::entries::{Entry, entries_in};
use crate::trouble::Trouble;
use crate::words;
use std::alloc::{AllocError, Global};
use std::fs;

/// How many lines were compared, and how many of them differ.
#[derive(Clone, Copy)]
struct Tally {
    compared: u32,
    other: u32,
}

/// What a line wants: of bytes, the digits without the blanks and line feeds between them.
fn wanted_of(alloc: Global, entry: &Entry) -> Result<String, AllocError> {
    let is_bytes = entry.word == "image" || entry.word == "bytes";
    let mut wanted = String::new(alloc);
    for part in entry
        .text
        .split(|letter| is_bytes && (letter == ' ' || letter == '\n'))
    {
        wanted.push_str(part)?;
    }
    Ok(wanted)
}

/// What a case gives where a line with this word tells it: of a source with a fault, that fault.
fn found_in(alloc: Global, case: &Case, entry: &Entry, wanted: &str) -> Result<String, Trouble> {
    match words::shown(alloc, case, entry.word, wanted) {
        Ok(Some(found)) => Ok(found),
        Ok(None) => Err(Trouble::Line(entry.line)),
        Err(Trouble::Fault(fault)) => Ok(format!(in alloc; "{fault}")?),
        Err(trouble) => Err(trouble),
    }
}

/// Compares what a case gives with what a line wants, and prints where they differ.
fn compare(rt: &HostRuntime, path: &str, case: &Case, entry: &Entry) -> Result<bool, Trouble> {
    let wanted = wanted_of(rt.alloc(), entry)?;
    let found = found_in(rt.alloc(), case, entry, wanted.as_str())?;
    let is_other = found.as_str().trim_end() != wanted.as_str().trim_end();
    if is_other {
        let line = entry.line;
        let word = entry.word;
        println!(rt; "{path}:{line}: {word}\n  wanted {wanted}\n  found  {found}")?;
    }
    Ok(is_other)
}

/// Runs the cases of the file at a path, and prints what differs and how many lines were compared.
///
/// # Errors
/// Where the file can't be read, a line is none of these cases, or no memory is left.
pub fn run_file(rt: &HostRuntime, path: &str) -> Result<(), Trouble> {
    let text = fs::read_to_string(rt, path)?;
    let entries = entries_in(rt.alloc(), text.as_str())?;
    let mut case = Case::new(rt.alloc())?;
    let mut tally = Tally {
        compared: 0,
        other: 0,
    };
    for entry in entries.as_slice() {
        if !case.take(rt.alloc(), entry.word, entry.text.as_str())? {
            let is_other = compare(rt, path, &case, entry)?;
            tally = Tally {
                compared: tally.compared.saturating_add(1),
                other: tally.other.saturating_add(u32::from(is_other)),
            };
        }
    }
    let Tally { compared, other } = tally;
    println!(rt; "{path}: {compared} lines, {other} of them otherwise")?;
    Ok(())
}
