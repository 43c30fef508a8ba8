//! What a layout author sees of a fault: where it stands, what is wrong, the line of the text with a mark, and the includes that
//! led there.
use kx_explain::{Explanation, Text, Texts, explain, place_of, plain_message, write_shown};
use kx_lex::{At, Fault};
use kx_tool::{Position, locate};
use std::alloc::Global;
use std::fmt;
use std::fmt::{Formatter, Write};

/// How many bytes of a line are shown before a mark.
const MOST_BEFORE: usize = 60;

/// How many bytes of a line are shown from a mark on.
const MOST_BEHIND: usize = 100;

/// A fault, and the texts in which it is found.
#[derive(Drop)]
pub struct Shown<'a> {
    fault: Fault,
    texts: Texts<'a>,
    /// What is wrong; nothing, where no memory is left to say it.
    explanation: Option<Explanation>,
}

impl<'a> Shown<'a> {
    /// A fault of texts. Where memory is refused, it is shown as others of its kind.
    pub fn of(alloc: Global, fault: Fault, texts: Texts<'a>) -> Shown<'a> {
        Shown {
            fault,
            texts,
            explanation: explain(alloc, fault, texts).ok(),
        }
    }

    fn message(&self) -> &str {
        match &self.explanation {
            Some(explanation) => explanation.message.as_str(),
            None => plain_message(self.fault),
        }
    }

    /// The includes that led to the fault, the innermost first.
    fn chain(&self) -> &[At] {
        match &self.explanation {
            Some(explanation) => explanation.chain.as_slice(),
            None => &[],
        }
    }
}

/// The bytes of a line before a place and from it on, as far as they are shown.
fn line_around(text: &[u8], place: usize) -> (&[u8], &[u8]) {
    let (before, behind) = text.split_at(place.min(text.len()));
    let before = before
        .rsplit(|byte| *byte == b'\n')
        .next()
        .unwrap_or(before);
    let behind = behind.split(|byte| *byte == b'\n').next().unwrap_or(behind);
    let shown = before.len().saturating_sub(MOST_BEFORE);
    (&before[shown..], &behind[..behind.len().min(MOST_BEHIND)])
}

/// How many characters are shown of bytes.
fn width(bytes: &[u8]) -> usize {
    match str::from_utf8(bytes) {
        Ok(text) => text.chars().count(),
        Err(_) => bytes.len(),
    }
}

/// The line in which a place stands, and below it marks from the place on, one at least.
fn show_line<W: Write>(
    f: &mut Formatter<W>,
    text: &[u8],
    place: usize,
    length: usize,
) -> fmt::Result {
    let (before, behind) = line_around(text, place);
    write_shown(f, before, before.len())?;
    write_shown(f, behind, behind.len())?;
    f.write_str("\n")?;
    for _ in 0..width(before) {
        f.write_char(' ')?;
    }
    for _ in 0..width(&behind[..behind.len().min(length)]).max(1) {
        f.write_char('^')?;
    }
    f.write_str("\n")
}

/// The path of a text, and the line and column of a place in it.
pub fn show_position<W: Write>(
    f: &mut Formatter<W>,
    text: Text,
    position: Position,
) -> fmt::Result {
    let path = text.path;
    let line = position.line;
    let column = position.column;
    write!(f, "{path}:{line}:{column}")
}

/// The path of a text, and where a place stands in it.
fn show_place<W: Write>(f: &mut Formatter<W>, text: Text, at: At) -> fmt::Result {
    show_position(f, text, locate(text.bytes, at.span.start as usize))
}

/// The include that led to what is shown above.
fn show_include<W: Write>(f: &mut Formatter<W>, texts: Texts, at: At) -> fmt::Result {
    let Some(text) = texts.text_of(at.file) else {
        return Ok(());
    };
    f.write_str("included from ")?;
    show_place(f, text, at)?;
    f.write_str("\n")
}

impl fmt::Display for Shown<'_> {
    fn fmt<W: Write>(&self, f: &mut Formatter<W>) -> fmt::Result {
        let message = self.message();
        let place = place_of(self.fault);
        let Some(at) = place else {
            return writeln!(f, "error: {message}");
        };
        let Some(text) = self.texts.text_of(at.file) else {
            return writeln!(f, "error: {message}");
        };
        show_place(f, text, at)?;
        writeln!(f, ": error: {message}")?;
        let start = at.span.start as usize;
        let length = (at.span.stop as usize).saturating_sub(start);
        show_line(f, text.bytes, start, length)?;
        for link in self.chain() {
            show_include(f, self.texts, *link)?;
        }
        Ok(())
    }
}
