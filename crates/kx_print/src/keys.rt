//! The sections of keycodes and of symbols.
ghost use Rattle.std.specs.Prelude.{◌≡◌, ◌+◌, ◌<◌, ◌≤◌, ◌++◌, codes, decimal, length};
ghost use Rattle.std.specs.List.{flat_map};
ghost use Rattle.ks_core.specs.BufferedOut.{Writes};
ghost use Rattle.kx_mods.specs.Mods.{mask, mod_names};
ghost use Rattle.kx_tables.specs.Content.{key_name};
ghost use Rattle.kx_tables.specs.Sound.{Sound};
ghost use Rattle.kx_print.specs.Masks.{chosen};
ghost use Rattle.kx_print.specs.Phrases.{setting};
ghost use Rattle.kx_print.specs.Printed.{bracketed, key_block, keycode_line, keycodes_section, modifier_map_line, modifier_map_lines, symbols_section};

use crate::fields::write_fields;
use crate::indicators::write_group_names;
use crate::sets::Names;
use crate::words::write_number;
use ks_core::{BufferedOut, Out};
use kx_mods::Mods;
use kx_tables::{KeyRow, Tables};

/// Writes the section of keycodes.
pub fn write_keycodes<T: Tables, O: Out>(tables: &T, buffered: &mut BufferedOut, out: &mut O)
    ensures { Writes O.written O.failures out.old buffered.old out.new buffered.new
        (keycodes_section (T.content tables.now)) }
{
    buffered.write(out, b"xkb_keycodes {\n");
    write_each_keycode(tables, buffered, out);
    buffered.write(out, b"};\n");
}

/// Writes the lines of all keys with their codes.
pub fn write_each_keycode<T: Tables, O: Out>(tables: &T, buffered: &mut BufferedOut, out: &mut O)
    ensures { Writes O.written O.failures out.old buffered.old out.new buffered.new
        (flat_map (keycode_line (T.content tables.now)) (T.content tables.now).keys) }
{
    for index in 0..tables.counts().keys {
        let code = tables.key_row(index).code;
        write_keycode(buffered, out, tables.key_name(index), code);
    }
}

fn write_keycode<O: Out>(buffered: &mut BufferedOut, out: &mut O, name: &[u8], code: u16)
    ensures { Writes O.written O.failures out.old buffered.old out.new buffered.new
        (setting (bracketed name.now) (decimal code)) }
{
    write_key_word(buffered, out, name);
    buffered.write(out, b"= ");
    write_number(buffered, out, code);
    buffered.write(out, b";\n");
}

/// Writes the name of a key as texts name keys.
pub fn write_key_word<O: Out>(buffered: &mut BufferedOut, out: &mut O, name: &[u8])
    ensures { Writes O.written O.failures out.old buffered.old out.new buffered.new
        (bracketed name.now) }
{
    buffered.write(out, b"<");
    buffered.write(out, name);
    buffered.write(out, b">");
}

/// Writes the section of symbols: the names of groups, the keys, and the modifier maps.
pub fn write_symbols<T: Tables, O: Out>(tables: &T, buffered: &mut BufferedOut, out: &mut O)
    ensures { Writes O.written O.failures out.old buffered.old out.new buffered.new
        (symbols_section (T.content tables.now)) }
{
    buffered.write(out, b"xkb_symbols {\n");
    write_group_names(tables, buffered, out);
    write_each_key(tables, buffered, out);
    write_modifier_maps(tables, buffered, out);
    buffered.write(out, b"};\n");
}

fn write_each_key<T: Tables, O: Out>(tables: &T, buffered: &mut BufferedOut, out: &mut O)
    ensures { Writes O.written O.failures out.old buffered.old out.new buffered.new
        (flat_map (key_block (T.content tables.now)) (T.content tables.now).keys) }
{
    let _sound = tables.key_count();
    for index in 0..tables.counts().keys {
        let row = tables.key_row(index);
        write_key(tables, buffered, out, tables.key_name(index), row);
    }
}

/// Writes a key by its name and its row.
fn write_key<T: Tables, O: Out>(
    tables: &T,
    buffered: &mut BufferedOut,
    out: &mut O,
    name: &[u8],
    row: KeyRow,
)
    requires sound { Sound (T.content tables.now) }
    requires name { name.now ≡ key_name (T.content tables.now) row }
    requires within { row.first_group + row.groups ≤ length (T.content tables.now).groups }
    requires few { row.groups ≤ 32 }
    ensures { Writes O.written O.failures out.old buffered.old out.new buffered.new
        (key_block (T.content tables.now) row) }
{
    buffered.write(out, b"key ");
    write_key_word(buffered, out, name);
    buffered.write(out, b" {");
    write_fields(tables, buffered, out, row);
    buffered.write(out, b"\n};\n");
}

/// Writes the lines of the modifiers that keys are mapped to.
pub fn write_modifier_maps<T: Tables, O: Out>(tables: &T, buffered: &mut BufferedOut, out: &mut O)
    ensures { Writes O.written O.failures out.old buffered.old out.new buffered.new
        (flat_map (modifier_map_lines (T.content tables.now)) (T.content tables.now).keys) }
{
    for index in 0..tables.counts().keys {
        let mods = tables.key_row(index).modmap;
        write_modifier_map(buffered, out, tables.key_name(index), mods);
    }
}

/// Writes a line for each modifier that a key is mapped to.
fn write_modifier_map<O: Out>(buffered: &mut BufferedOut, out: &mut O, name: &[u8], mods: Mods)
    ensures { Writes O.written O.failures out.old buffered.old out.new buffered.new
        (flat_map (modifier_map_line name.now) (chosen (mask mods) mod_names)) }
{
    let mut left = mods.mask();
    for bit in 0..Names::Modifiers.count() {
        if left % 2 == 1 {
            write_mapped(buffered, out, name, Names::Modifiers.of(bit));
        }
        left /= 2;
    }
}

fn write_mapped<O: Out>(buffered: &mut BufferedOut, out: &mut O, name: &[u8], modifier: &str)
    ensures { Writes O.written O.failures out.old buffered.old out.new buffered.new
        (modifier_map_line name.now modifier.now) }
{
    buffered.write(out, b"modifier_map ");
    buffered.write(out, modifier.as_bytes());
    buffered.write(out, b" { ");
    write_key_word(buffered, out, name);
    buffered.write(out, b" };\n");
}
