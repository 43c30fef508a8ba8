//! The keysyms and the actions of levels.
ghost use Rattle.std.specs.Prelude.{◌≡◌, ◌+◌, ◌<◌, ◌≤◌, ◌++◌, codes, length, map};
ghost use Rattle.ks_core.specs.BufferedOut.{Writes};
ghost use Rattle.kx_tables.specs.Content.{part};
ghost use Rattle.kx_tables.specs.Sound.{Sound};
ghost use Rattle.kx_print.specs.Phrases.{elements, joined};
ghost use Rattle.kx_print.specs.Printed.{cell_action, cell_symbols, keysym_text};

use crate::actions::write_action;
use arrayvec::ArrayString;
use ks_core::{BufferedOut, Keysym, NameTable, Out};
use kx_tables::{CellRow, Tables};

/// The cells of a group: one for each level of its type.
#[derive(Clone, Copy)]
pub struct Cells {
    /// The index of the first.
    pub first: u32,
    /// How many there are.
    pub count: u8,
}

/// Writes the keysyms of cells, as `[ a, A ]`.
pub fn write_symbols<T: Tables, O: Out>(
    tables: &T,
    buffered: &mut BufferedOut,
    out: &mut O,
    cells: Cells,
)
    requires sound { Sound (T.content tables.now) }
    requires within { cells.first + cells.count ≤ length (T.content tables.now).cells }
    ensures { Writes O.written O.failures out.old buffered.old out.new buffered.new
        (elements (map (cell_symbols (T.content tables.now))
        (part (T.content tables.now).cells cells.first cells.count))) }
{
    buffered.write(out, b"[ ");
    write_each_symbol(tables, buffered, out, cells);
    buffered.write(out, b" ]");
}

fn write_each_symbol<T: Tables, O: Out>(
    tables: &T,
    buffered: &mut BufferedOut,
    out: &mut O,
    cells: Cells,
)
    requires sound { Sound (T.content tables.now) }
    requires within { cells.first + cells.count ≤ length (T.content tables.now).cells }
    ensures { Writes O.written O.failures out.old buffered.old out.new buffered.new
        (joined (codes ", ") (map (cell_symbols (T.content tables.now))
        (part (T.content tables.now).cells cells.first cells.count))) }
{
    let mut before: &[u8] = b"";
    for level in 0..cells.count {
        let cell = tables.cell_row(cells.first + u32::from(level));
        buffered.write(out, before);
        write_cell(tables, buffered, out, cell);
        before = b", ";
    }
}

/// Writes the keysyms of a cell: `NoSymbol` for none, several in braces.
fn write_cell<T: Tables, O: Out>(tables: &T, buffered: &mut BufferedOut, out: &mut O, cell: CellRow)
    requires sound { Sound (T.content tables.now) }
    requires within { cell.first_keysym + cell.keysyms ≤ length (T.content tables.now).keysyms }
    ensures { Writes O.written O.failures out.old buffered.old out.new buffered.new
        (cell_symbols (T.content tables.now) cell) }
{
    match cell.keysyms {
        0 => buffered.write(out, b"NoSymbol"),
        1 => write_keysym(buffered, out, tables.keysym(cell.first_keysym)),
        _ => {
            buffered.write(out, b"{ ");
            write_keysyms(tables, buffered, out, cell);
            buffered.write(out, b" }");
        }
    }
}

/// Writes the names of a cell's keysyms, with commas between them.
fn write_keysyms<T: Tables, O: Out>(
    tables: &T,
    buffered: &mut BufferedOut,
    out: &mut O,
    cell: CellRow,
)
    requires sound { Sound (T.content tables.now) }
    requires within { cell.first_keysym + cell.keysyms ≤ length (T.content tables.now).keysyms }
    ensures { Writes O.written O.failures out.old buffered.old out.new buffered.new
        (joined (codes ", ") (map keysym_text
        (part (T.content tables.now).keysyms cell.first_keysym cell.keysyms))) }
{
    let mut before: &[u8] = b"";
    for index in 0..cell.keysyms {
        let keysym = tables.keysym(cell.first_keysym + u32::from(index));
        buffered.write(out, before);
        write_keysym(buffered, out, keysym);
        before = b", ";
    }
}

/// Writes a keysym by its name among the built-in names.
fn write_keysym<O: Out>(buffered: &mut BufferedOut, out: &mut O, keysym: u32)
    ensures { Writes O.written O.failures out.old buffered.old out.new buffered.new
        (keysym_text keysym) }
{
    let mut name = ArrayString::new();
    NameTable::builtin().write_name(Keysym(keysym), &mut name);
    buffered.write(out, name.as_str().as_bytes());
}

/// Writes the actions of cells, as `[ NoAction(), LockGroup(group=2) ]`.
pub fn write_actions<T: Tables, O: Out>(
    tables: &T,
    buffered: &mut BufferedOut,
    out: &mut O,
    cells: Cells,
)
    requires sound { Sound (T.content tables.now) }
    requires within { cells.first + cells.count ≤ length (T.content tables.now).cells }
    ensures { Writes O.written O.failures out.old buffered.old out.new buffered.new
        (elements (map cell_action (part (T.content tables.now).cells cells.first cells.count))) }
{
    buffered.write(out, b"[ ");
    write_each_action(tables, buffered, out, cells);
    buffered.write(out, b" ]");
}

fn write_each_action<T: Tables, O: Out>(
    tables: &T,
    buffered: &mut BufferedOut,
    out: &mut O,
    cells: Cells,
)
    requires sound { Sound (T.content tables.now) }
    requires within { cells.first + cells.count ≤ length (T.content tables.now).cells }
    ensures { Writes O.written O.failures out.old buffered.old out.new buffered.new
        (joined (codes ", ") (map cell_action
        (part (T.content tables.now).cells cells.first cells.count))) }
{
    let mut before: &[u8] = b"";
    for level in 0..cells.count {
        let cell = tables.cell_row(cells.first + u32::from(level));
        buffered.write(out, before);
        write_action(buffered, out, cell.action);
        before = b", ";
    }
}
