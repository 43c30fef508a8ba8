//! The whole text.
ghost use Rattle.std.specs.Prelude.{◌≡◌};
ghost use Rattle.ks_core.specs.Device.{Puts};
ghost use Rattle.ks_core.specs.BufferedOut.{Writes};
ghost use Rattle.kx_print.specs.Printed.{printed};

use crate::indicators::write_indicators;
use crate::keys::{write_keycodes, write_symbols};
use crate::types::write_types;
use ks_core::{BufferedOut, Out};
use kx_tables::Tables;
use std::io;

/// Writes the tables as a keymap text.
///
/// Groups and levels are counted from 1, keysyms have their built-in names. An error is the writer's; then a beginning
/// of the text is written. Takes no memory.
pub fn print<T: Tables, O: Out>(tables: &T, out: &mut O) -> io::Result<()>
    ensures { Puts O.written O.failures out.old out.new result (printed (T.content tables.now)) }
{
    let mut buffered = BufferedOut::new();
    write_keymap(tables, &mut buffered, out);
    buffered.finish(out)
}

fn write_keymap<T: Tables, O: Out>(tables: &T, buffered: &mut BufferedOut, out: &mut O)
    ensures { Writes O.written O.failures out.old buffered.old out.new buffered.new
        (printed (T.content tables.now)) }
{
    buffered.write(out, b"xkb_keymap {\n");
    write_keycodes(tables, buffered, out);
    write_types(tables, buffered, out);
    write_indicators(tables, buffered, out);
    write_symbols(tables, buffered, out);
    buffered.write(out, b"};\n");
}
