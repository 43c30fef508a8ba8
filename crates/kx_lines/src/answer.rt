//! The lines that answer events.
ghost use Rattle.ks_core.specs.BufferedOut.{Writes};
ghost use Rattle.kx_run.specs.Replies.{answered};
ghost use Rattle.kx_lines.specs.Answer.{answer_line, event_text, keysyms_text};

use crate::listing::write_keysym_names;
use crate::state_text::write_number;
use crate::tails::Tails;
use ks_core::{BufferedOut, NameTable, Out};
use kx_run::{Direction, Event, Reply};
use kx_tables::Tables;

fn write_event<O: Out>(buffered: &mut BufferedOut, out: &mut O, event: Event)
    ensures { Writes O.written O.failures out.old buffered.old out.new buffered.new
        (event_text event) }
{
    write_number(buffered, out, event.code);
    match event.direction {
        Direction::Down => buffered.write(out, b" down "),
        Direction::Up => buffered.write(out, b" up "),
    }
}

/// The keysyms' names joined by commas, `-` for none, `?` for an unknown code.
fn write_keysyms<O: Out>(buffered: &mut BufferedOut, out: &mut O, names: &NameTable, reply: &Reply)
    ensures { Writes O.written O.failures out.old buffered.old out.new buffered.new
        (keysyms_text names.now (answered reply.now).look) }
{
    if !reply.known {
        buffered.write(out, b"?");
        return;
    }
    if reply.syms.is_empty() {
        buffered.write(out, b"-");
        return;
    }
    write_keysym_names(buffered, out, names, reply.syms.as_slice());
}

/// The line that answers an event.
pub fn write_answer<T: Tables, O: Out>(
    buffered: &mut BufferedOut,
    out: &mut O,
    tables: &T,
    names: &NameTable,
    tails: &mut Tails,
    event: Event,
    reply: &Reply,
)
    ensures { Writes O.written O.failures out.old buffered.old out.new buffered.new
        (answer_line (T.content tables.now) names.now event (answered reply.now)) }
{
    write_event(buffered, out, event);
    write_keysyms(buffered, out, names, reply);
    tails.write(buffered, out, tables, reply);
}
