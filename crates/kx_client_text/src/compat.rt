//! The section of indicators.
ghost use Rattle.ks_core.specs.BufferedOut.{Writes};
ghost use Rattle.kx_client_text.specs.Written.{compat_text};

use ks_core::{BufferedOut, Out};
use kx_print::write_each_indicator;
use kx_tables::Tables;

/// An X server takes no keymap without an interpretation. Each key has its own actions, so that this one does nothing.
const INTERPRETATION: &[u8] = b"interpret Any+AnyOf(all) {\naction= NoAction();\n};\n";

/// Writes the section of indicators.
pub(crate) fn write_compat<T: Tables, O: Out>(tables: &T, buffered: &mut BufferedOut, out: &mut O)
    ensures { Writes O.written O.failures out.old buffered.old out.new buffered.new
        (compat_text (T.content tables.now)) }
{
    buffered.write(out, b"xkb_compat {\n");
    buffered.write(out, INTERPRETATION);
    write_each_indicator(tables, buffered, out);
    buffered.write(out, b"};\n");
}
