//! A picture of a keyboard for a terminal.
use crate::board::{Board, Shown};
use crate::canvas::{COLUMNS, Canvas, Frame};
use crate::listing::{entry, write_title};
use crate::slots::{ROWS, Slot, slots};
use ks_core::NameTable;
use kx_tables::Tables;
use std::alloc::{AllocError, Global};

/// So many keys without a place stand on a line.
const ENTRIES: usize = 3;

/// The column of a place that is counted in quarters of a key.
fn column(quarters: u8) -> usize {
    usize::from(quarters) * 5 / 4
}

/// The line above each row, and after them that below the last. Rows share a line, but where a gap stands between them.
fn lines_above(heights: [usize; ROWS]) -> [usize; 13] {
    let mut lines = [0; 13];
    let mut line: usize = 0;
    for (row, height) in heights.iter().enumerate() {
        if row == 1 || row == 6 {
            line = line.saturating_add(1);
        }
        if let Some(above) = lines.get_mut(row) {
            *above = line;
        }
        line = line.saturating_add(*height).saturating_add(1);
    }
    if let Some(last) = lines.last_mut() {
        *last = line;
    }
    lines
}

/// The box of a key.
fn frame_of(slot: &Slot, lines: [usize; 13]) -> Frame {
    let row = usize::from(slot.row);
    let below = row.saturating_add(usize::from(slot.height));
    let top = lines.get(row).copied().unwrap_or(0);
    let mut bottom = lines.get(below).copied().unwrap_or(0);
    if below == 1 || below == 6 {
        bottom = bottom.saturating_sub(1);
    }
    Frame {
        top,
        bottom,
        left: column(slot.left),
        right: column(slot.left.saturating_add(slot.width)),
    }
}

/// Puts the labels of a key into its box, the first level lowest.
fn put_labels(canvas: &mut Canvas, frame: Frame, key: &Shown) -> Result<(), AllocError> {
    let left = frame.left.saturating_add(1);
    let columns = frame.right.saturating_sub(left);
    let mut line = frame.bottom;
    for label in key.labels.as_slice() {
        line = line.saturating_sub(1);
        canvas.label(line, left, label.text.as_str(), columns)?;
    }
    Ok(())
}

/// Draws the keys that have a place.
fn write_board(out: &mut String, alloc: Global, board: &Board) -> Result<(), AllocError> {
    let lines = lines_above(board.heights());
    let height = lines.last().copied().unwrap_or(0).saturating_add(1);
    let mut canvas = Canvas::new(alloc, height)?;
    for (slot, key) in slots().iter().zip(board.keys.iter()) {
        let frame = frame_of(slot, lines);
        canvas.frame(frame);
        if let Some(key) = key {
            put_labels(&mut canvas, frame, key)?;
        }
    }
    canvas.write(out)
}

/// Lists the keys that have no place.
fn write_others(out: &mut String, alloc: Global, others: &[Shown]) -> Result<(), AllocError> {
    if others.is_empty() {
        return Ok(());
    }
    out.push_str("Other keys:\n")?;
    for keys in others.chunks(ENTRIES) {
        let mut line = String::new(alloc);
        for key in keys {
            let text = entry(alloc, key, COLUMNS / ENTRIES - 1)?;
            line.push_str(text.as_str())?;
            line.push(' ')?;
        }
        out.push_str(line.as_str().trim_end())?;
        out.push('\n')?;
    }
    Ok(())
}

/// A picture of the keys of tables in an effective group, counted from 0, in lines of at most 80 columns.
///
/// # Errors
/// Where a growth is refused.
pub fn picture<T: Tables>(
    alloc: Global,
    tables: &T,
    names: &NameTable,
    group: u8,
) -> Result<String, AllocError> {
    let board = Board::of(alloc, tables, names, group)?;
    let mut out = String::new(alloc);
    write_title(&mut out, tables, group)?;
    out.push_str("\nThe lowest line of a key is its first level; ◌ marks a dead key.\n")?;
    write_board(&mut out, alloc, &board)?;
    write_others(&mut out, alloc, board.others.as_slice())?;
    Ok(out)
}
