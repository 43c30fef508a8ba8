//! What a layout author sees on standard error of what was passed over.
use kx_explain::{Text, Texts};
use kx_failure::show_position;
use kx_lex::At;
use kx_noted::{KINDS, Noted, TextWarnings, Warnings};
use kx_tool::{Position, locate};
use std::fmt;
use std::fmt::{Formatter, Write};

/// A place whose position is known, from which those after it in the same text are found.
#[derive(Clone, Copy)]
struct Known {
    file: u32,
    place: usize,
    position: Position,
}

impl Known {
    /// The start of a text.
    fn of(file: u32) -> Known {
        Known {
            file,
            place: 0,
            position: Position { line: 1, column: 1 },
        }
    }

    /// The position of a place in a text, which is known then.
    fn find(&mut self, text: &[u8], at: At) -> Position {
        let place = at.span.start as usize;
        if at.file != self.file || place < self.place {
            *self = Known::of(at.file);
        }
        let passed = text.get(self.place..place).unwrap_or(&[]);
        let further = locate(passed, passed.len());
        if further.line == 1 {
            self.position.column = self.position.column.saturating_add(passed.len());
        } else {
            let line = self.position.line.saturating_add(further.line - 1);
            let column = further.column;
            self.position = Position { line, column };
        }
        self.place = place;
        self.position
    }
}

/// What was passed over in texts: in those of the author first, and of installed ones a line each.
#[derive(Drop)]
pub struct Warned<'a> {
    pub warnings: &'a Warnings,
    pub texts: Texts<'a>,
}

/// The warnings of a text that are shown at their places.
fn show_places<W: Write>(
    f: &mut Formatter<W>,
    text: Text,
    number: u32,
    warnings: &TextWarnings,
) -> fmt::Result {
    let mut known = Known::of(number);
    for warning in warnings.listed() {
        if warnings.shows(warning) {
            show_position(f, text, known.find(text.bytes, warning.at))?;
            let message = warning.message.as_str();
            writeln!(f, ": warning: {message}")?;
        }
    }
    Ok(())
}

/// How many others there are in a text, on one line.
fn show_rest<W: Write>(f: &mut Formatter<W>, text: Text, warnings: &TextWarnings) -> fmt::Result {
    if !warnings.has_rest() {
        return Ok(());
    }
    let path = text.path;
    let front = if warnings.is_counted() { "" } else { "and " };
    write!(f, "{path}: {front}")?;
    let mut between = "";
    for kind in &KINDS {
        if let Some(rest) = warnings.rest(*kind) {
            write!(f, "{between}{rest}")?;
            between = ", ";
        }
    }
    f.write_str("; --warn all shows them\n")
}

/// Shows what was passed over in installed texts, or in the others.
fn show_warnings<W: Write>(
    f: &mut Formatter<W>,
    warned: &Warned,
    is_installed: bool,
) -> fmt::Result {
    for (place, warnings) in warned.warnings.texts().iter().enumerate() {
        let number = u32::try_from(place).unwrap_or(u32::MAX);
        if warnings.is_installed() != is_installed {
            continue;
        }
        if let Some(text) = warned.texts.text_of(number) {
            show_places(f, text, number, warnings)?;
            show_rest(f, text, warnings)?;
        }
    }
    Ok(())
}

impl fmt::Display for Warned<'_> {
    fn fmt<W: Write>(&self, f: &mut Formatter<W>) -> fmt::Result {
        show_warnings(f, self, false)?;
        show_warnings(f, self, true)
    }
}

/// Shows on standard error what was passed over, and where it stands.
pub(crate) fn show_noted(rt: &impl Eprint, noted: &Noted, texts: Texts) {
    if let Some(warnings) = &noted.warnings {
        let _ = rt.eprint(Warned { warnings, texts });
    }
}
