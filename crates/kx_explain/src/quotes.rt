//! Words of a text as a terminal may show them.
use std::fmt;
use std::fmt::{Formatter, Write};

/// So many characters of a word are shown.
const MOST_SHOWN: usize = 40;

/// A character as a terminal may show it: none that controls.
fn shown(character: char) -> char {
    if character.is_control() {
        ' '
    } else {
        character
    }
}

/// A byte of what isn't text as a terminal may show it.
fn shown_byte(byte: u8) -> char {
    if byte.is_ascii() && !byte.is_ascii_control() {
        char::from(byte)
    } else {
        '?'
    }
}

/// Writes so many characters of these bytes at most, none that controls.
pub fn write_shown<W: Write>(f: &mut Formatter<W>, bytes: &[u8], most: usize) -> fmt::Result {
    match str::from_utf8(bytes) {
        Ok(text) => {
            for character in text.chars().take(most) {
                f.write_char(shown(character))?;
            }
        }
        Err(_) => {
            for byte in bytes.iter().take(most) {
                f.write_char(shown_byte(*byte))?;
            }
        }
    }
    Ok(())
}

/// How many characters are shown of bytes.
fn shown_count(bytes: &[u8]) -> usize {
    match str::from_utf8(bytes) {
        Ok(text) => text.chars().count(),
        Err(_) => bytes.len(),
    }
}

/// Words of a text between quotes, of which the first characters are shown.
#[derive(Clone, Copy)]
pub struct Quotation<'a> {
    pub bytes: &'a [u8],
}

impl fmt::Display for Quotation<'_> {
    fn fmt<W: Write>(&self, f: &mut Formatter<W>) -> fmt::Result {
        f.write_char('\'')?;
        write_shown(f, self.bytes, MOST_SHOWN)?;
        if shown_count(self.bytes) > MOST_SHOWN {
            f.write_str("..")?;
        }
        f.write_char('\'')
    }
}

/// Some words between quotes.
pub fn quoted(bytes: &[u8]) -> Quotation<'_> {
    Quotation { bytes }
}
