//! The fields of a key.
ghost use Rattle.std.specs.Prelude.{◌≡◌, ◌+◌, ◌<◌, ◌≤◌, ◌++◌, codes, decimal, length, map};
ghost use Rattle.std.specs.List.{flat_map};
ghost use Rattle.ks_core.specs.BufferedOut.{Writes};
ghost use Rattle.kx_tables.specs.Content.{levels_of, part};
ghost use Rattle.kx_tables.specs.Sound.{Sound};
ghost use Rattle.kx_print.specs.Phrases.{elements, field_at, joined, numbered, quoted};
ghost use Rattle.kx_print.specs.Printed.{cell_action, cell_symbols, fields_of, group_fields, groups_of, on_new_line, range_fields};

use crate::symbols::{Cells, write_actions, write_symbols};
use crate::words::{write_number, write_quoted};
use ks_core::{BufferedOut, Out};
use kx_tables::{GroupRow, KeyRow, Range, Tables};

/// Writes the fields of a key, each on a new line, with commas between them.
pub fn write_fields<T: Tables, O: Out>(
    tables: &T,
    buffered: &mut BufferedOut,
    out: &mut O,
    key: KeyRow,
)
    requires sound { Sound (T.content tables.now) }
    requires within { key.first_group + key.groups ≤ length (T.content tables.now).groups }
    requires few { key.groups ≤ 32 }
    ensures { Writes O.written O.failures out.old buffered.old out.new buffered.new
        (joined (codes ",") (map on_new_line (fields_of (T.content tables.now) key))) }
{
    write_groups(tables, buffered, out, key);
    if key.groups == 0 {
        write_range(buffered, out, b"", key.range);
    } else {
        write_range(buffered, out, b",", key.range);
    }
}

/// Writes the fields of a key's groups.
fn write_groups<T: Tables, O: Out>(tables: &T, buffered: &mut BufferedOut, out: &mut O, key: KeyRow)
    requires sound { Sound (T.content tables.now) }
    requires within { key.first_group + key.groups ≤ length (T.content tables.now).groups }
    requires few { key.groups ≤ 32 }
    ensures { Writes O.written O.failures out.old buffered.old out.new buffered.new
        (joined (codes ",") (map on_new_line
        (numbered (group_fields (T.content tables.now)) 1
        (groups_of (T.content tables.now) key)))) }
{
    let mut before: &[u8] = b"";
    for index in 0..key.groups {
        let group = tables.group_row(key.first_group + u32::from(index));
        buffered.write(out, before);
        write_group(tables, buffered, out, u16::from(index) + 1, group);
        before = b",";
    }
}

/// Writes the fields of a group, which has this number, counted from 1.
fn write_group<T: Tables, O: Out>(
    tables: &T,
    buffered: &mut BufferedOut,
    out: &mut O,
    number: u16,
    group: GroupRow,
)
    requires sound { Sound (T.content tables.now) }
    requires key_type { group.key_type < length (T.content tables.now).types }
    requires within { group.first_cell + levels_of (T.content tables.now) group
        ≤ length (T.content tables.now).cells }
    ensures { Writes O.written O.failures out.old buffered.old out.new buffered.new
        (joined (codes ",") (map on_new_line (group_fields (T.content tables.now) number group))) }
{
    let cells = Cells {
        first: group.first_cell,
        count: tables.type_row(group.key_type).levels,
    };
    buffered.write(out, b"\n");
    write_type_field(buffered, out, number, tables.type_name(group.key_type));
    buffered.write(out, b",\n");
    write_symbols_field(tables, buffered, out, number, cells);
    buffered.write(out, b",\n");
    write_actions_field(tables, buffered, out, number, cells);
}

fn write_type_field<O: Out>(buffered: &mut BufferedOut, out: &mut O, number: u16, name: &[u8])
    ensures { Writes O.written O.failures out.old buffered.old out.new buffered.new
        (field_at (codes "type") (decimal number) (quoted name.now)) }
{
    buffered.write(out, b"type[");
    write_number(buffered, out, number);
    buffered.write(out, b"]= ");
    write_quoted(buffered, out, name);
}

fn write_symbols_field<T: Tables, O: Out>(
    tables: &T,
    buffered: &mut BufferedOut,
    out: &mut O,
    number: u16,
    cells: Cells,
)
    requires sound { Sound (T.content tables.now) }
    requires within { cells.first + cells.count ≤ length (T.content tables.now).cells }
    ensures { Writes O.written O.failures out.old buffered.old out.new buffered.new
        (field_at (codes "symbols") (decimal number)
        (elements (map (cell_symbols (T.content tables.now))
        (part (T.content tables.now).cells cells.first cells.count)))) }
{
    buffered.write(out, b"symbols[");
    write_number(buffered, out, number);
    buffered.write(out, b"]= ");
    write_symbols(tables, buffered, out, cells);
}

fn write_actions_field<T: Tables, O: Out>(
    tables: &T,
    buffered: &mut BufferedOut,
    out: &mut O,
    number: u16,
    cells: Cells,
)
    requires sound { Sound (T.content tables.now) }
    requires within { cells.first + cells.count ≤ length (T.content tables.now).cells }
    ensures { Writes O.written O.failures out.old buffered.old out.new buffered.new
        (field_at (codes "actions") (decimal number)
        (elements (map cell_action (part (T.content tables.now).cells cells.first cells.count)))) }
{
    buffered.write(out, b"actions[");
    write_number(buffered, out, number);
    buffered.write(out, b"]= ");
    write_actions(tables, buffered, out, cells);
}

/// Writes the field of a range, after what stands before it; a key that wraps has none.
fn write_range<O: Out>(buffered: &mut BufferedOut, out: &mut O, before: &[u8], range: Range)
    ensures { Writes O.written O.failures out.old buffered.old out.new buffered.new
        (flat_map (λ field. before.now ++ on_new_line field) (range_fields range)) }
{
    match range {
        Range::Wrap => {}
        Range::Clamp => {
            buffered.write(out, before);
            buffered.write(out, b"\ngroupsClamp");
        }
        Range::Redirect(group) => {
            buffered.write(out, before);
            buffered.write(out, b"\ngroupsRedirect= ");
            write_number(buffered, out, u16::from(group) + 1);
        }
    }
}
