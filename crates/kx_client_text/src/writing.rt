//! The whole text.
ghost use Rattle.ks_core.specs.BufferedOut.{Writes};
ghost use Rattle.ks_core.specs.Device.{Puts};
ghost use Rattle.kx_client_text.specs.Written.{client_printed};

use crate::compat::write_compat;
use crate::keycodes::write_keycodes;
use crate::symbols::write_symbols;
use crate::types::write_types;
use ks_core::{BufferedOut, Out};
use kx_clients::LeftOut;
use kx_tables::Tables;
use std::io;

/// Writes tables, and what their image leaves out, as a keymap text.
pub(crate) fn write_text<T: Tables, O: Out>(
    tables: &T,
    left: &LeftOut,
    out: &mut O,
) -> io::Result<()>
    ensures { Puts O.written O.failures out.old out.new result
        (client_printed (T.content tables.now) left.now) }
{
    let mut buffered = BufferedOut::new();
    write_keymap(tables, left, &mut buffered, out);
    buffered.finish(out)
}

fn write_keymap<T: Tables, O: Out>(
    tables: &T,
    left: &LeftOut,
    buffered: &mut BufferedOut,
    out: &mut O,
)
    ensures { Writes O.written O.failures out.old buffered.old out.new buffered.new
        (client_printed (T.content tables.now) left.now) }
{
    buffered.write(out, b"xkb_keymap {\n");
    write_keycodes(tables, left, buffered, out);
    write_types(left, buffered, out);
    write_compat(tables, buffered, out);
    write_symbols(tables, left, buffered, out);
    buffered.write(out, b"};\n");
}
