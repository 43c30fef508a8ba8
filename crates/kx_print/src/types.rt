//! The section of key types.
ghost use Rattle.std.specs.Prelude.{◌≡◌, ◌+◌, ◌<◌, ◌≤◌, codes, length};
ghost use Rattle.std.specs.List.{flat_map};
ghost use Rattle.ks_core.specs.BufferedOut.{Writes};
ghost use Rattle.kx_tables.specs.Content.{type_name};
ghost use Rattle.kx_tables.specs.Sound.{Sound};
ghost use Rattle.kx_print.specs.Masks.{mods_text};
ghost use Rattle.kx_print.specs.Phrases.{setting};
ghost use Rattle.kx_print.specs.Printed.{entries_of, entry_lines, levels_line, preserve_line, type_block, types_section};

use crate::sets::write_mods;
use crate::words::{write_number, write_quoted};
use ks_core::{BufferedOut, Out};
use kx_mods::Mods;
use kx_tables::{EntryRow, Tables, TypeRow};

/// Writes the section of types.
pub fn write_types<T: Tables, O: Out>(tables: &T, buffered: &mut BufferedOut, out: &mut O)
    ensures { Writes O.written O.failures out.old buffered.old out.new buffered.new
        (types_section (T.content tables.now)) }
{
    buffered.write(out, b"xkb_types {\n");
    write_each_type(tables, buffered, out);
    buffered.write(out, b"};\n");
}

fn write_each_type<T: Tables, O: Out>(tables: &T, buffered: &mut BufferedOut, out: &mut O)
    ensures { Writes O.written O.failures out.old buffered.old out.new buffered.new
        (flat_map (type_block (T.content tables.now)) (T.content tables.now).types) }
{
    let _sound = tables.key_count();
    for index in 0..tables.counts().types {
        let row = tables.type_row(index);
        write_type(tables, buffered, out, tables.type_name(index), row);
    }
}

/// Writes a type by its name and its row.
fn write_type<T: Tables, O: Out>(
    tables: &T,
    buffered: &mut BufferedOut,
    out: &mut O,
    name: &[u8],
    row: TypeRow,
)
    requires sound { Sound (T.content tables.now) }
    requires name { name.now ≡ type_name (T.content tables.now) row }
    requires entries { row.first_entry + row.entries ≤ length (T.content tables.now).entries }
    ensures { Writes O.written O.failures out.old buffered.old out.new buffered.new
        (type_block (T.content tables.now) row) }
{
    buffered.write(out, b"type ");
    write_quoted(buffered, out, name);
    buffered.write(out, b" {\n");
    write_mods_line(buffered, out, row.mods);
    write_entries(tables, buffered, out, row);
    write_levels(buffered, out, row.levels);
    buffered.write(out, b"};\n");
}

/// Writes the line of a type's or an indicator's modifiers.
pub fn write_mods_line<O: Out>(buffered: &mut BufferedOut, out: &mut O, mods: Mods)
    ensures { Writes O.written O.failures out.old buffered.old out.new buffered.new
        (setting (codes "modifiers") (mods_text mods)) }
{
    buffered.write(out, b"modifiers= ");
    write_mods(buffered, out, mods);
    buffered.write(out, b";\n");
}

fn write_entries<T: Tables, O: Out>(
    tables: &T,
    buffered: &mut BufferedOut,
    out: &mut O,
    row: TypeRow,
)
    requires sound { Sound (T.content tables.now) }
    requires within { row.first_entry + row.entries ≤ length (T.content tables.now).entries }
    ensures { Writes O.written O.failures out.old buffered.old out.new buffered.new
        (flat_map entry_lines (entries_of (T.content tables.now) row)) }
{
    for index in 0..row.entries {
        let entry = tables.entry_row(row.first_entry + u32::from(index));
        write_entry(buffered, out, entry);
    }
}

/// Writes the level of an entry, and the modifiers that it preserves.
pub fn write_entry<O: Out>(buffered: &mut BufferedOut, out: &mut O, entry: EntryRow)
    ensures { Writes O.written O.failures out.old buffered.old out.new buffered.new
        (entry_lines entry) }
{
    buffered.write(out, b"map[");
    write_mods(buffered, out, entry.mods);
    buffered.write(out, b"]= ");
    write_number(buffered, out, u16::from(entry.level));
    buffered.write(out, b";\n");
    write_preserved(buffered, out, entry);
}

fn write_preserved<O: Out>(buffered: &mut BufferedOut, out: &mut O, entry: EntryRow)
    ensures { Writes O.written O.failures out.old buffered.old out.new buffered.new
        (preserve_line entry) }
{
    if entry.preserve.is_none() {
        return;
    }
    buffered.write(out, b"preserve[");
    write_mods(buffered, out, entry.mods);
    buffered.write(out, b"]= ");
    write_mods(buffered, out, entry.preserve);
    buffered.write(out, b";\n");
}

/// Writes how many levels a type has, by the name of the last.
pub fn write_levels<O: Out>(buffered: &mut BufferedOut, out: &mut O, levels: u8)
    ensures { Writes O.written O.failures out.old buffered.old out.new buffered.new
        (levels_line levels) }
{
    buffered.write(out, b"level_name[");
    write_number(buffered, out, u16::from(levels));
    buffered.write(out, b"]= \"\";\n");
}
