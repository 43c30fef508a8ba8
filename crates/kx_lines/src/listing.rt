//! Lists in an answer: a mark before each piece but the first.
ghost use Rattle.std.specs.Prelude.{◌++◌};
ghost use Rattle.ks_core.specs.Names.{name_of_keysym};
ghost use Rattle.ks_core.specs.BufferedOut.{Writes};
ghost use Rattle.ks_core.specs.PrintedName.{printed_name};
ghost use Rattle.kx_lines.specs.Answer.{keysym_names, lit_names, lit_text};

use arrayvec::ArrayString;
use ks_core::{BufferedOut, Keysym, NameTable, Out, write_printed_name};
use kx_tables::Tables;

/// Writes the next piece of a list, and what stands before it.
fn write_piece<O: Out>(buffered: &mut BufferedOut, out: &mut O, before: &[u8], piece: &[u8])
    ensures { Writes O.written O.failures out.old buffered.old out.new buffered.new
        (before.now ++ piece.now) }
{
    buffered.write(out, before);
    buffered.write(out, piece);
}

/// Writes the next name of a list as printed text writes it, and what stands before it.
fn write_name<O: Out>(buffered: &mut BufferedOut, out: &mut O, before: &[u8], name: &[u8])
    ensures { Writes O.written O.failures out.old buffered.old out.new buffered.new
        (before.now ++ printed_name name.now) }
{
    buffered.write(out, before);
    write_printed_name(buffered, out, name);
}

/// The keysyms' names joined by commas.
pub fn write_keysym_names<O: Out>(
    buffered: &mut BufferedOut,
    out: &mut O,
    names: &NameTable,
    keysyms: &[u32],
)
    ensures { Writes O.written O.failures out.old buffered.old out.new buffered.new
        (keysym_names names.now keysyms.now) }
{
    let mut before: &[u8] = b"";
    for keysym in keysyms {
        let mut name = ArrayString::new();
        names.write_name(Keysym(*keysym), &mut name);
        write_piece(buffered, out, before, name.as_str().as_bytes());
        before = b",";
    }
}

/// The names of the indicators that are lit, joined by commas and written as in printed text.
fn write_lit_names<T: Tables, O: Out>(buffered: &mut BufferedOut, out: &mut O, tables: &T, lit: u32)
    ensures { Writes O.written O.failures out.old buffered.old out.new buffered.new
        (lit_names (T.content tables.now) lit) }
{
    let mut before: &[u8] = b"";
    let mut bits = lit;
    for index in 0..tables.counts().indicators {
        if bits % 2 == 1 {
            write_name(buffered, out, before, tables.indicator_name(index));
            before = b",";
        }
        bits /= 2;
    }
}

/// The indicators that are lit, where there are any.
#[tactic(auto, using(ks_core::proofs::BufferedOutLemmas::writes_nothing))]
pub fn write_lit<T: Tables, O: Out>(buffered: &mut BufferedOut, out: &mut O, tables: &T, lit: u32)
    ensures { Writes O.written O.failures out.old buffered.old out.new buffered.new
        (lit_text (T.content tables.now) lit) }
{
    if lit != 0 {
        buffered.write(out, b" lit=");
        write_lit_names(buffered, out, tables, lit);
    }
}
