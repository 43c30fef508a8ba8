//! A picture of a keyboard as SVG.
use crate::board::{Board, Shown};
use crate::canvas::cut;
use crate::labels::{Label, Look, columns_of};
use crate::listing::{entry, write_title};
use crate::slots::{Slot, slots};
use ks_core::NameTable;
use kx_tables::Tables;
use std::alloc::{AllocError, Global};

/// The width of a key, and the distance of rows, in pixels.
const KEY: usize = 60;

/// Where the first row begins, below the title.
const HEAD: usize = 44;

/// The width of the picture.
const WIDTH: usize = 932;

/// Where the legend begins, below the last row.
const LEGEND: usize = HEAD + 12 * KEY + 56;

/// So many keys without a place stand on a line.
const ENTRIES: usize = 4;

/// The least size of letters on a key, in pixels.
const SMALLEST: usize = 9;

/// A letter is about so many tenths of its size wide.
const LETTER: usize = 7;

/// A letter is pressed together to so many tenths of a pixel at the least; a longer text is cut.
const NARROWEST: usize = 32;

/// The styles: levels are told apart by colour, dead keys are red, modifiers have a ground of their own.
const STYLE: &str = "<style>
svg { font-family: 'DejaVu Sans', 'Noto Sans', sans-serif; background: #ffffff }
.paper { fill: #ffffff } text { fill: #1b1b1b }
.key { fill: #f6f6f4; stroke: #8c8c88 } .mod { fill: #d9e4f2; stroke: #8c8c88 }
.none { fill: none; stroke: #8c8c88; stroke-dasharray: 3 4; opacity: .5 }
.l1 { fill: #1b1b1b } .l2 { fill: #0a58ba } .l3 { fill: #a04a00 } .l4 { fill: #75209a }
.l5 { fill: #00665c } .l6 { fill: #5a5a00 } .l7 { fill: #8a2f5a } .l8 { fill: #444a6a }
.dead { fill: #c40018; font-weight: bold } .title { font-size: 18px } .small { font-size: 11px }
@media (prefers-color-scheme: dark) {
svg { background: #17181a } .paper { fill: #17181a } text { fill: #ececec }
.key { fill: #26282b; stroke: #6c7076 } .mod { fill: #2b3a50; stroke: #6c7076 } .none { stroke: #6c7076 }
.l1 { fill: #ececec } .l2 { fill: #7fb5ff } .l3 { fill: #f0a15e } .l4 { fill: #d59bf2 }
.l5 { fill: #5fd0c2 } .l6 { fill: #cfcf6a } .l7 { fill: #f08fc0 } .l8 { fill: #a9b2dd } .dead { fill: #ff6b76 } }
</style>
";

/// A place on the picture.
#[derive(Clone, Copy)]
struct Point {
    x: usize,
    y: usize,
}

/// A text on the picture.
#[derive(Clone, Copy)]
struct Text<'a> {
    at: Point,
    class: &'static str,
    size: usize,
    /// How wide it is made, where it would be wider.
    length: Option<usize>,
    text: &'a str,
}

/// Adds a text whose marks mean nothing to SVG.
fn push_text(out: &mut String, text: &str) -> Result<(), AllocError> {
    for character in text.chars() {
        match character {
            '&' => out.push_str("&amp;")?,
            '<' => out.push_str("&lt;")?,
            '>' => out.push_str("&gt;")?,
            '\u{fffe}' | '\u{ffff}' => out.push(' ')?,
            character if character.is_control() => out.push(' ')?,
            character => out.push(character)?,
        }
    }
    Ok(())
}

impl Text<'_> {
    /// Adds an element with the text.
    fn write(&self, out: &mut String) -> Result<(), AllocError> {
        let Point { x, y } = self.at;
        let class = self.class;
        let size = self.size;
        write!(
            out,
            "<text x=\"{x}\" y=\"{y}\" class=\"{class}\" font-size=\"{size}\""
        )?;
        if let Some(length) = self.length {
            write!(
                out,
                " textLength=\"{length}\" lengthAdjust=\"spacingAndGlyphs\""
            )?;
        }
        out.push('>')?;
        push_text(out, self.text)?;
        out.push_str("</text>\n")
    }
}

/// The class of a level, counted from 0.
fn class_of(level: usize, look: Look) -> &'static str {
    let classes = ["l1", "l2", "l3", "l4", "l5", "l6", "l7", "l8"];
    match look {
        Look::Dead => "dead",
        _ => classes[level % 8],
    }
}

/// The upper left corner of a key. Gaps stand before the rows 1 and 6.
fn corner(slot: &Slot) -> Point {
    let row = usize::from(slot.row);
    let gaps = usize::from(row >= 1) + usize::from(row >= 6);
    Point {
        x: 16 + usize::from(slot.left) * KEY / 4,
        y: HEAD + row * KEY + gaps * 14,
    }
}

/// A label as it is drawn: none where the first level gives the same.
#[derive(Drop)]
struct Drawn {
    text: String,
    class: &'static str,
}

/// The labels of a key as they are drawn, by level: the accent of a dead key stands on its circle.
fn draw_labels(alloc: Global, labels: &[Label]) -> Result<Vec<Drawn>, AllocError> {
    let mut texts = Vec::new(alloc);
    let mut first = "";
    for (level, label) in labels.iter().enumerate() {
        let mut text = String::new(alloc);
        match label.accent {
            _ if level > 0 && label.text.as_str() == first => {}
            Some(accent) => {
                text.push('◌')?;
                text.push_str(accent.joined)?;
            }
            None => text.push_str(label.text.as_str())?,
        }
        if level == 0 {
            first = label.text.as_str();
        }
        let class = class_of(level, label.look);
        texts.push(Drawn { text, class })?;
    }
    Ok(texts)
}

/// The first of each two levels of which some label is drawn.
fn seen_pairs(alloc: Global, texts: &[Drawn]) -> Result<Vec<usize>, AllocError> {
    let mut seen: Vec<usize> = Vec::new(alloc);
    for (level, drawn) in texts.iter().enumerate() {
        let first = level - level % 2;
        if !drawn.text.is_empty() && !seen.contains(&first) {
            seen.push(first)?;
        }
    }
    Ok(seen)
}

/// Where labels stand on a key: from which corner, in how many columns, each so wide.
#[derive(Clone, Copy)]
struct Grid {
    corner: Point,
    columns: usize,
    room: usize,
}

/// The part of a grid that a label has: so many columns from one on, below or above.
#[derive(Clone, Copy)]
struct Span {
    column: usize,
    columns: usize,
    is_above: bool,
}

/// How wide letters of a size are, without those that are pressed together.
fn natural(columns: usize, size: usize) -> usize {
    columns.saturating_mul(size).saturating_mul(LETTER) / 10
}

impl Grid {
    /// The size of letters for a text of so many columns of a terminal, and how wide it is made where it doesn't fit.
    fn fit(self, columns: usize, room: usize) -> (usize, Option<usize>) {
        let greatest: usize = match self.columns {
            0..=2 => 16,
            3 => 12,
            _ => 11,
        };
        for size in [greatest, 13, 11, 10] {
            if size <= greatest && natural(columns, size) <= room {
                return (size, None);
            }
        }
        match natural(columns, SMALLEST) <= room {
            true => (SMALLEST, None),
            false => (SMALLEST, Some(room)),
        }
    }

    /// Adds a label.
    fn write(
        self,
        out: &mut String,
        alloc: Global,
        drawn: &Drawn,
        span: Span,
    ) -> Result<(), AllocError> {
        let room = self.room.saturating_mul(span.columns).saturating_sub(2);
        let text = cut(
            alloc,
            drawn.text.as_str(),
            room.saturating_mul(10) / NARROWEST,
        )?;
        let (size, length) = self.fit(columns_of(text.as_str()), room);
        let column = span.column.saturating_mul(self.room);
        let x = self.corner.x.saturating_add(5).saturating_add(column);
        let line = if span.is_above { 22 } else { 46 };
        let y = self.corner.y.saturating_add(line);
        Text {
            at: Point { x, y },
            class: drawn.class,
            size,
            length,
            text: text.as_str(),
        }
        .write(out)
    }
}

/// Adds the labels of a key: the first two levels at the left, one above the other, the next two beside them, and so on but
/// for those that aren't seen. A label has the room of those beside it that aren't.
fn write_labels(
    out: &mut String,
    alloc: Global,
    corner: Point,
    width: usize,
    texts: &[Drawn],
) -> Result<(), AllocError> {
    let seen = seen_pairs(alloc, texts)?;
    let columns = seen.len();
    let grid = Grid {
        corner,
        columns,
        room: width.saturating_sub(8) / columns.max(1),
    };
    for (row, is_above) in [(0, false), (1, true)] {
        let mut end = columns;
        for (column, first) in seen.iter().enumerate().rev() {
            if let Some(drawn) = texts.get(first.saturating_add(row))
                && !drawn.text.is_empty()
            {
                let span = Span {
                    column,
                    columns: end.saturating_sub(column),
                    is_above,
                };
                grid.write(out, alloc, drawn, span)?;
                end = column;
            }
        }
    }
    Ok(())
}

/// The class of a key's ground.
fn ground(key: &Option<Shown>) -> &'static str {
    let Some(key) = key else {
        return "none";
    };
    match key.labels.as_slice() {
        [
            Label {
                look: Look::Modifier,
                ..
            },
            ..
        ] => "mod",
        _ => "key",
    }
}

/// Adds a key with its levels.
fn write_key(
    out: &mut String,
    alloc: Global,
    slot: &Slot,
    key: &Option<Shown>,
) -> Result<(), AllocError> {
    let corner = corner(slot);
    let Point { x, y } = corner;
    let width = (usize::from(slot.width) * KEY / 4).saturating_sub(4);
    let height = (usize::from(slot.height) * KEY).saturating_sub(4);
    let class = ground(key);
    let name = slot.name;
    write!(
        out,
        "<g><title>{name}</title><rect class=\"{class}\" x=\"{x}\" y=\"{y}\" width=\"{width}\" height=\"{height}\" rx=\"6\"/>\n"
    )?;
    if let Some(key) = key {
        let texts = draw_labels(alloc, key.labels.as_slice())?;
        write_labels(out, alloc, corner, width, texts.as_slice())?;
    }
    out.push_str("</g>\n")
}

/// Adds what the colours and grounds mean.
fn write_legend(out: &mut String, levels: usize) -> Result<(), AllocError> {
    let mut x: usize = 16;
    for level in 0..levels.min(8) {
        let number = level.saturating_add(1);
        let class = class_of(level, Look::Plain);
        write!(
            out,
            "<text x=\"{x}\" y=\"{LEGEND}\" class=\"{class}\" font-size=\"14\">level {number}</text>\n"
        )?;
        x = x.saturating_add(76);
    }
    write!(
        out,
        "<text x=\"{x}\" y=\"{LEGEND}\" class=\"dead\" font-size=\"14\">◌́ dead key</text>\n"
    )?;
    x = x.saturating_add(110);
    let above = LEGEND - 12;
    let behind = x.saturating_add(22);
    write!(
        out,
        "<rect class=\"mod\" x=\"{x}\" y=\"{above}\" width=\"16\" height=\"16\" rx=\"3\"/><text x=\"{behind}\" y=\"{LEGEND}\" font-size=\"14\">modifier</text>\n"
    )
}

/// Adds the keys that have no place.
fn write_others(out: &mut String, alloc: Global, others: &[Shown]) -> Result<(), AllocError> {
    let mut y: usize = LEGEND + 28;
    for keys in others.chunks(ENTRIES) {
        let mut x: usize = 16;
        for key in keys {
            let text = entry(alloc, key, 30)?;
            Text {
                at: Point { x, y },
                class: "small",
                size: 11,
                length: None,
                text: text.as_str().trim_end(),
            }
            .write(out)?;
            x = x.saturating_add(WIDTH / ENTRIES);
        }
        y = y.saturating_add(16);
    }
    Ok(())
}

/// Begins a drawing of a height: its paper and its title.
fn write_paper(out: &mut String, height: usize, title: &str) -> Result<(), AllocError> {
    write!(
        out,
        "<svg xmlns=\"http://www.w3.org/2000/svg\" viewBox=\"0 0 {WIDTH} {height}\" width=\"{WIDTH}\" height=\"{height}\">\n"
    )?;
    out.push_str(STYLE)?;
    write!(
        out,
        "<rect class=\"paper\" width=\"{WIDTH}\" height=\"{height}\"/>\n"
    )?;
    Text {
        at: Point { x: 16, y: 28 },
        class: "title",
        size: 18,
        length: None,
        text: title,
    }
    .write(out)
}

/// Adds a drawing of keys.
fn write_drawing(
    out: &mut String,
    alloc: Global,
    board: &Board,
    title: &str,
) -> Result<(), AllocError> {
    let lines = board.others.len().div_ceil(ENTRIES);
    let height = LEGEND
        .saturating_add(30)
        .saturating_add(lines.saturating_mul(16));
    write_paper(out, height, title)?;
    for (slot, key) in slots().iter().zip(board.keys.iter()) {
        write_key(out, alloc, slot, key)?;
    }
    write_legend(out, board.levels())?;
    write_others(out, alloc, board.others.as_slice())?;
    out.push_str("</svg>\n")
}

/// A drawing of the keys of tables in an effective group, counted from 0, as SVG.
///
/// # Errors
/// Where a growth is refused.
pub fn draw<T: Tables>(
    alloc: Global,
    tables: &T,
    names: &NameTable,
    group: u8,
) -> Result<String, AllocError> {
    let board = Board::of(alloc, tables, names, group)?;
    let mut title = String::new(alloc);
    write_title(&mut title, tables, group)?;
    let mut out = String::new(alloc);
    write_drawing(&mut out, alloc, &board, title.as_str())?;
    Ok(out)
}
