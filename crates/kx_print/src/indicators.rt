//! The section of indicators, and the names of groups.
ghost use Rattle.std.specs.Prelude.{◌≡◌, ◌<◌, ◌++◌, codes, length};
ghost use Rattle.std.specs.List.{flat_map};
ghost use Rattle.ks_core.specs.BufferedOut.{Writes};
ghost use Rattle.kx_print.specs.Masks.{states_text};
ghost use Rattle.kx_print.specs.Phrases.{block, hexadecimal, numbered, quoted, setting};
ghost use Rattle.kx_print.specs.Printed.{compat_section, group_name_line, indicator_block, indicator_map_lines, name_line};

use crate::sets::write_states;
use crate::types::write_mods_line;
use crate::words::{write_hexadecimal, write_number, write_quoted};
use ks_core::{BufferedOut, Out};
use kx_tables::{IndicatorRow, States, Tables};

/// Writes the section of indicators, where there are any.
pub fn write_indicators<T: Tables, O: Out>(tables: &T, buffered: &mut BufferedOut, out: &mut O)
    ensures { Writes O.written O.failures out.old buffered.old out.new buffered.new
        (compat_section (T.content tables.now)) }
{
    if tables.counts().indicators > 0 {
        buffered.write(out, b"xkb_compat {\n");
        write_each_indicator(tables, buffered, out);
        buffered.write(out, b"};\n");
    }
}

/// Writes the blocks of all indicators.
pub fn write_each_indicator<T: Tables, O: Out>(tables: &T, buffered: &mut BufferedOut, out: &mut O)
    ensures { Writes O.written O.failures out.old buffered.old out.new buffered.new
        (flat_map (indicator_block (T.content tables.now)) (T.content tables.now).indicators) }
{
    for index in 0..tables.counts().indicators {
        let row = tables.indicator_row(index);
        write_indicator(buffered, out, tables.indicator_name(index), row);
    }
}

fn write_indicator<O: Out>(buffered: &mut BufferedOut, out: &mut O, name: &[u8], row: IndicatorRow)
    ensures { Writes O.written O.failures out.old buffered.old out.new buffered.new
        (block (codes "indicator " ++ quoted name.now) (indicator_map_lines row)) }
{
    buffered.write(out, b"indicator ");
    write_quoted(buffered, out, name);
    buffered.write(out, b" {\n");
    write_indicator_map(buffered, out, row);
    buffered.write(out, b"};\n");
}

/// Writes what lights an indicator.
fn write_indicator_map<O: Out>(buffered: &mut BufferedOut, out: &mut O, row: IndicatorRow)
    ensures { Writes O.written O.failures out.old buffered.old out.new buffered.new
        (indicator_map_lines row) }
{
    write_states_line(buffered, out, b"whichModState", row.mod_states);
    write_mods_line(buffered, out, row.mods);
    write_states_line(buffered, out, b"whichGroupState", row.group_states);
    write_groups_line(buffered, out, row.groups);
}

fn write_states_line<O: Out>(buffered: &mut BufferedOut, out: &mut O, word: &[u8], states: States)
    ensures { Writes O.written O.failures out.old buffered.old out.new buffered.new
        (setting word.now (states_text states)) }
{
    buffered.write(out, word);
    buffered.write(out, b"= ");
    write_states(buffered, out, states);
    buffered.write(out, b";\n");
}

fn write_groups_line<O: Out>(buffered: &mut BufferedOut, out: &mut O, groups: u32)
    ensures { Writes O.written O.failures out.old buffered.old out.new buffered.new
        (setting (codes "groups") (hexadecimal groups)) }
{
    buffered.write(out, b"groups= ");
    write_hexadecimal(buffered, out, groups);
    buffered.write(out, b";\n");
}

/// Writes the lines of the groups that have names.
pub fn write_group_names<T: Tables, O: Out>(tables: &T, buffered: &mut BufferedOut, out: &mut O)
    ensures { Writes O.written O.failures out.old buffered.old out.new buffered.new
        (numbered (group_name_line (T.content tables.now)) 1 (T.content tables.now).group_names) }
{
    let _sound = tables.key_count();
    for index in 0..tables.counts().group_names {
        write_group_name(buffered, out, index + 1, tables.group_name(index));
    }
}

/// Writes the name of a group, counted from 1, where it has one.
fn write_group_name<O: Out>(buffered: &mut BufferedOut, out: &mut O, number: u16, name: &[u8])
    ensures { Writes O.written O.failures out.old buffered.old out.new buffered.new
        (name_line number name.now) }
{
    if name.is_empty() {
        return;
    }
    buffered.write(out, b"name[");
    write_number(buffered, out, number);
    buffered.write(out, b"]= ");
    write_quoted(buffered, out, name);
    buffered.write(out, b";\n");
}
