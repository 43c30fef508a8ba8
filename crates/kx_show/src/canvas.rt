//! Boxes and labels that are drawn with characters.
use crate::labels::columns_of;
use std::alloc::{AllocError, Global};
use unicode_width::UnicodeWidthChar;

/// How many columns a canvas has.
pub(crate) const COLUMNS: usize = 80;

/// The lines that leave a point of a box.
const UP: u8 = 1;

const RIGHT: u8 = 2;

const DOWN: u8 = 4;

const LEFT: u8 = 8;

/// The character for the lines that leave a point, by their sum.
static GLYPHS: [char; 16] = [
    ' ', '╵', '╶', '└', '╷', '│', '┌', '├', '╴', '┘', '─', '┴', '┐', '┤', '┬', '┼',
];

/// A label on a line of a canvas.
#[derive(Drop)]
struct Placed {
    column: usize,
    text: String,
}

/// A box: its first and its last line and column.
#[derive(Clone, Copy)]
pub(crate) struct Frame {
    pub top: usize,
    pub bottom: usize,
    pub left: usize,
    pub right: usize,
}

/// Boxes and labels.
#[derive(Drop)]
pub(crate) struct Canvas {
    alloc: Global,
    /// The lines of boxes that leave each point, line by line.
    lines: Vec<u8>,
    /// The labels of each line.
    labels: Vec<Vec<Placed>>,
}

impl Canvas {
    pub(crate) fn new(alloc: Global, height: usize) -> Result<Canvas, AllocError> {
        let mut lines = Vec::new(alloc);
        for _ in 0..height.saturating_mul(COLUMNS) {
            lines.push(0)?;
        }
        let mut labels = Vec::new(alloc);
        for _ in 0..height {
            labels.push(Vec::new(alloc))?;
        }
        Ok(Canvas {
            alloc,
            lines,
            labels,
        })
    }

    /// Lets lines leave a point; none does outside of the canvas.
    fn add(&mut self, line: usize, column: usize, lines: u8) {
        if column < COLUMNS
            && let Some(point) = self
                .lines
                .get_mut(line.saturating_mul(COLUMNS).saturating_add(column))
        {
            *point |= lines;
        }
    }

    /// Draws a box.
    pub(crate) fn frame(&mut self, frame: Frame) {
        for line in [frame.top, frame.bottom] {
            self.add(line, frame.left, RIGHT);
            for column in frame.left.saturating_add(1)..frame.right {
                self.add(line, column, LEFT | RIGHT);
            }
            self.add(line, frame.right, LEFT);
        }
        for column in [frame.left, frame.right] {
            self.add(frame.top, column, DOWN);
            for line in frame.top.saturating_add(1)..frame.bottom {
                self.add(line, column, UP | DOWN);
            }
            self.add(frame.bottom, column, UP);
        }
    }

    /// Puts a text at a place, of which so many columns are shown.
    pub(crate) fn label(
        &mut self,
        line: usize,
        column: usize,
        text: &str,
        columns: usize,
    ) -> Result<(), AllocError> {
        let text = cut(self.alloc, text, columns)?;
        if let Some(labels) = self.labels.get_mut(line) {
            labels.push(Placed { column, text })?;
        }
        Ok(())
    }

    /// The label that begins at a point.
    fn label_at(&self, line: usize, column: usize) -> Option<&str> {
        let labels = self.labels.get(line)?;
        let found = labels.iter().find(|label| label.column == column)?;
        Some(found.text.as_str())
    }

    /// The characters of a line.
    fn line(&self, line: usize) -> Result<String, AllocError> {
        let mut text = String::new(self.alloc);
        let mut covered: usize = 0;
        for column in 0..COLUMNS {
            if let Some(label) = self.label_at(line, column) {
                text.push_str(label)?;
                covered = column.saturating_add(columns_of(label));
            }
            if column >= covered {
                let place = line.saturating_mul(COLUMNS).saturating_add(column);
                let lines = self.lines.get(place).copied().unwrap_or(0);
                text.push(GLYPHS[usize::from(lines & 15)])?;
            }
        }
        Ok(text)
    }

    /// Adds all lines, without blanks at their ends.
    pub(crate) fn write(&self, out: &mut String) -> Result<(), AllocError> {
        for line in 0..self.lines.len() / COLUMNS {
            out.push_str(self.line(line)?.as_str().trim_end())?;
            out.push('\n')?;
        }
        Ok(())
    }
}

/// The front of a text that so many columns show.
pub(crate) fn cut(alloc: Global, text: &str, columns: usize) -> Result<String, AllocError> {
    let mut front = String::new(alloc);
    let mut left = columns;
    for character in text.chars() {
        match left.checked_sub(character.width().unwrap_or(0)) {
            Some(rest) => left = rest,
            None => break,
        }
        front.push(character)?;
    }
    Ok(front)
}
