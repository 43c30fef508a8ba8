//! What the lines of a case say: the source, what it may include, the names of keysyms, and the events.
use crate::trouble::Trouble;
use ks_core::{NameFault, NameTable};
use kx_basics::hex_value;
use kx_include::Files;
use std::alloc::{AllocError, Global};

/// A source with what it is read with. What owns much memory stands in a box: a function that holds it is proved much sooner.
#[derive(Drop)]
pub struct Case {
    /// What stands round each source, which takes the place of the `@`.
    pub frame: String,
    pub files: Box<Files>,
    pub names: Box<NameTable>,
    /// Why the last lines of names were refused.
    pub refused: Option<NameFault>,
    pub source: Vec<u8>,
    /// Lines of events.
    pub events: String,
}

impl Case {
    pub fn new(alloc: Global) -> Result<Case, AllocError> {
        Ok(Case {
            frame: String::from_str(alloc, "@")?,
            files: Box::new(alloc, Files::new(alloc))?,
            names: Box::new(alloc, NameTable::builtin())?,
            refused: None,
            source: Vec::new(alloc),
            events: String::new(alloc),
        })
    }

    /// Puts a text into the frame.
    fn put_source(&mut self, alloc: Global, text: &[u8]) -> Result<(), AllocError> {
        let (front, back) = self.frame.split_once("@").unwrap_or(("", ""));
        self.source = [front.as_bytes(), text, back.as_bytes()].concat(alloc)?;
        Ok(())
    }

    /// Hands in a file: its name, a colon and a blank, and its text.
    fn put_file(&mut self, alloc: Global, name: &str, text: &str) -> Result<(), Trouble> {
        let name = Vec::from_slice(alloc, name.as_bytes())?;
        let bytes = Vec::from_slice(alloc, text.as_bytes())?;
        self.files.insert(name, bytes)?;
        Ok(())
    }

    fn put_names(&mut self, alloc: Global, lines: &[u8]) -> Result<(), AllocError> {
        match NameTable::with_lines(alloc, lines) {
            Ok(names) => {
                self.names = Box::new(alloc, names)?;
                self.refused = None;
            }
            Err(fault) => self.refused = Some(fault),
        }
        Ok(())
    }

    /// The lines of the events, which commas part.
    fn put_events(&mut self, alloc: Global, text: &str) -> Result<(), AllocError> {
        let text = text.replace(alloc, "\\n", "\n")?;
        let text = text.replace(alloc, "\\r", "\r")?;
        self.events = text.replace(alloc, ", ", "\n")?;
        Ok(())
    }

    /// Takes what a line says of the case, if its word is one of these; whether it is.
    pub fn take(&mut self, alloc: Global, word: &str, text: &str) -> Result<bool, Trouble> {
        match word {
            "frame" => self.frame = text.to_string(alloc)?,
            "file" => {
                let (name, text) = text.split_once(": ").unwrap_or((text, ""));
                self.put_file(alloc, name, text)?;
            }
            "file-repeat" => {
                let (name, text) = text.split_once(": ").unwrap_or((text, ""));
                let text = repeated(alloc, text)?;
                self.put_file(alloc, name, text.as_str())?;
            }
            "no-files" => self.files = Box::new(alloc, Files::new(alloc))?,
            "x11" => self.names = Box::new(alloc, NameTable::x11())?,
            "names" => self.put_names(alloc, unescaped(alloc, text)?.as_slice())?,
            "source" => self.put_source(alloc, text.as_bytes())?,
            "escaped" => self.put_source(alloc, unescaped(alloc, text)?.as_slice())?,
            "repeat" => self.put_source(alloc, repeated(alloc, text)?.as_bytes())?,
            "events" => self.put_events(alloc, text)?,
            _ => return Ok(false),
        }
        Ok(true)
    }
}

/// The byte of two hexadecimal digits.
fn byte_of(high: u8, low: u8) -> u8 {
    (hex_value(&[high, low]) & 0xff) as u8
}

/// The byte that a text begins with, and what is after it: `\x` and two digits are a byte, `\n` and `\r` the ends of lines.
fn first_byte(text: &[u8]) -> Option<(u8, &[u8])> {
    match text {
        [] => None,
        [b'\\', b'x', high, low, behind @ ..] => Some((byte_of(*high, *low), behind)),
        [b'\\', b'n', behind @ ..] => Some((b'\n', behind)),
        [b'\\', b'r', behind @ ..] => Some((b'\r', behind)),
        [byte, behind @ ..] => Some((*byte, behind)),
    }
}

/// The bytes that a text with such signs stands for.
fn unescaped(alloc: Global, text: &str) -> Result<Vec<u8>, AllocError> {
    let mut bytes = Vec::new(alloc);
    let mut rest = text.as_bytes();
    for _ in 0..text.len() {
        let Some((byte, behind)) = first_byte(rest) else {
            break;
        };
        bytes.push(byte)?;
        rest = behind;
    }
    Ok(bytes)
}

/// A piece so often as the number before it says, in which each `#` stands for the number of the repeat, from 0.
fn push_repeats(alloc: Global, all: &mut String, text: &str) -> Result<(), AllocError> {
    let (count, piece) = text.split_once(" ").unwrap_or(("0", ""));
    let is_numbered = piece.contains("#");
    for number in 0..count.parse::<u32>().unwrap_or(0) {
        if is_numbered {
            let digits = number.to_string(alloc)?;
            all.push_str(piece.replace(alloc, "#", digits.as_str())?.as_str())?;
        } else {
            all.push_str(piece)?;
        }
    }
    Ok(())
}

/// A repeated piece. Where there are several, each stands between a `{*` and a `*}`, and the text round them once.
fn repeated(alloc: Global, text: &str) -> Result<String, AllocError> {
    let mut all = String::new(alloc);
    if !text.contains("{*") {
        push_repeats(alloc, &mut all, text)?;
        return Ok(all);
    }
    let mut rest = text;
    for _ in 0..text.len() {
        let Some((front, inner)) = rest.split_once("{*") else {
            break;
        };
        let (piece, back) = inner.split_once("*}").unwrap_or((inner, ""));
        all.push_str(front)?;
        push_repeats(alloc, &mut all, piece)?;
        rest = back;
    }
    all.push_str(rest)?;
    Ok(all)
}
