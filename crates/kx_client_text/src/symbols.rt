//! The section of symbols, with whether keys repeat.
ghost use Rattle.std.specs.Prelude.{◌≡◌, ◌+◌, ◌≤◌, ◌∷◌, length};
ghost use Rattle.std.specs.List.{flat_map};
ghost use Rattle.ks_core.specs.BufferedOut.{Writes};
ghost use Rattle.kx_print.specs.Printed.{fields_of, on_new_line};
ghost use Rattle.kx_tables.specs.Content.{key_name};
ghost use Rattle.kx_tables.specs.Sound.{Sound};
ghost use Rattle.kx_client_text.specs.Written.{comma_before, key_text, key_with, repeat_field, repeat_word, symbols_text};

use ks_core::{BufferedOut, Out};
use kx_clients::LeftOut;
use kx_print::{write_fields, write_group_names, write_key_word, write_modifier_maps};
use kx_tables::{KeyRow, Range, Tables};

/// Writes the section of symbols.
pub(crate) fn write_symbols<T: Tables, O: Out>(
    tables: &T,
    left: &LeftOut,
    buffered: &mut BufferedOut,
    out: &mut O,
)
    ensures { Writes O.written O.failures out.old buffered.old out.new buffered.new
        (symbols_text (T.content tables.now) left.now) }
{
    buffered.write(out, b"xkb_symbols {\n");
    write_group_names(tables, buffered, out);
    write_each_key(tables, left, buffered, out);
    write_modifier_maps(tables, buffered, out);
    buffered.write(out, b"};\n");
}

fn write_each_key<T: Tables, O: Out>(
    tables: &T,
    left: &LeftOut,
    buffered: &mut BufferedOut,
    out: &mut O,
)
    ensures { Writes O.written O.failures out.old buffered.old out.new buffered.new
        (flat_map (key_text (T.content tables.now) left.now) (T.content tables.now).keys) }
{
    let _sound = tables.key_count();
    for index in 0..tables.counts().keys {
        let row = tables.key_row(index);
        let key = Key {
            name: tables.key_name(index),
            row,
            repeats: left.repeats(row.code),
        };
        write_key(tables, key, buffered, out);
    }
}

/// A key by its name and its row, and whether it repeats.
#[derive(Clone, Copy)]
struct Key<'a> {
    name: &'a [u8],
    row: KeyRow,
    repeats: bool,
}

fn write_key<T: Tables, O: Out>(tables: &T, key: Key<'_>, buffered: &mut BufferedOut, out: &mut O)
    requires sound { Sound (T.content tables.now) }
    requires name { key.name.now ≡ key_name (T.content tables.now) key.row }
    requires within { key.row.first_group + key.row.groups ≤ length (T.content tables.now).groups }
    requires few { key.row.groups ≤ 32 }
    ensures { Writes O.written O.failures out.old buffered.old out.new buffered.new
        (key_with (key_name (T.content tables.now) key.entry.row)
        (repeat_field key.entry.repeats ∷ fields_of (T.content tables.now) key.entry.row)) }
{
    buffered.write(out, b"key ");
    write_key_word(buffered, out, key.name);
    buffered.write(out, b" {");
    write_repeat(key.repeats, buffered, out);
    write_comma(key.row, buffered, out);
    write_fields(tables, buffered, out, key.row);
    buffered.write(out, b"\n};\n");
}

fn repeat_word(repeats: bool) -> &'static [u8]
    ensures { result.now ≡ repeat_word repeats }
{
    if repeats { b"yes" } else { b"no" }
}

/// Writes whether a key repeats.
fn write_repeat<O: Out>(repeats: bool, buffered: &mut BufferedOut, out: &mut O)
    ensures { Writes O.written O.failures out.old buffered.old out.new buffered.new
        (on_new_line (repeat_field repeats)) }
{
    buffered.write(out, b"\nrepeat= ");
    buffered.write(out, repeat_word(repeats));
}

/// Writes the comma before the fields of a key, where it has any.
fn write_comma<O: Out>(row: KeyRow, buffered: &mut BufferedOut, out: &mut O)
    ensures { Writes O.written O.failures out.old buffered.old out.new buffered.new
        (comma_before row) }
{
    match (row.groups, row.range) {
        (0, Range::Wrap) => {}
        _ => buffered.write(out, b","),
    }
}
