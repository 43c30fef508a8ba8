//! The section of keycodes, with the names of indicators and the aliases.
ghost use Rattle.std.specs.List.{flat_map};
ghost use Rattle.ks_core.specs.BufferedOut.{Writes};
ghost use Rattle.kx_print.specs.Phrases.{numbered};
ghost use Rattle.kx_client_text.specs.Written.{alias_line, indicator_line, keycodes_text};

use ks_core::{BufferedOut, Out};
use kx_clients::{Alias, LeftOut};
use kx_print::{write_each_keycode, write_key_word, write_number, write_quoted};
use kx_tables::Tables;

/// Writes the section of keycodes.
pub(crate) fn write_keycodes<T: Tables, O: Out>(
    tables: &T,
    left: &LeftOut,
    buffered: &mut BufferedOut,
    out: &mut O,
)
    ensures { Writes O.written O.failures out.old buffered.old out.new buffered.new
        (keycodes_text (T.content tables.now) left.now) }
{
    buffered.write(out, b"xkb_keycodes {\n");
    write_each_keycode(tables, buffered, out);
    write_indicator_names(left, buffered, out);
    write_aliases(left.aliases(), buffered, out);
    buffered.write(out, b"};\n");
}

fn write_indicator_names<O: Out>(left: &LeftOut, buffered: &mut BufferedOut, out: &mut O)
    ensures { Writes O.written O.failures out.old buffered.old out.new buffered.new
        (numbered indicator_line 1 left.now.indicators) }
{
    let names = left.indicators();
    'names: for index in 0..names.len() {
        write_indicator_name(names[index].as_slice(), index as u16 + 1, buffered, out);
    }
}

/// Writes the name of an indicator, counted from 1, where it has one.
fn write_indicator_name<O: Out>(name: &[u8], number: u16, buffered: &mut BufferedOut, out: &mut O)
    ensures { Writes O.written O.failures out.old buffered.old out.new buffered.new
        (indicator_line number name.now) }
{
    if name.is_empty() {
        return;
    }
    buffered.write(out, b"indicator ");
    write_number(buffered, out, number);
    buffered.write(out, b"= ");
    write_quoted(buffered, out, name);
    buffered.write(out, b";\n");
}

fn write_aliases<O: Out>(aliases: &[Alias], buffered: &mut BufferedOut, out: &mut O)
    ensures { Writes O.written O.failures out.old buffered.old out.new buffered.new
        (flat_map alias_line aliases.now) }
{
    'aliases: for alias in aliases {
        write_alias(alias, buffered, out);
    }
}

fn write_alias<O: Out>(alias: &Alias, buffered: &mut BufferedOut, out: &mut O)
    ensures { Writes O.written O.failures out.old buffered.old out.new buffered.new
        (alias_line alias.now) }
{
    buffered.write(out, b"alias ");
    write_key_word(buffered, out, alias.name.as_slice());
    buffered.write(out, b"= ");
    write_key_word(buffered, out, alias.key.as_slice());
    buffered.write(out, b";\n");
}
