//! The ends of answers. The last ones are kept, since most answers end as one just before.
ghost use Rattle.std.specs.Prelude.{◌≡◌, true, false, IfSome, IsTrue};
ghost use Rattle.ks_core.specs.Device.{Puts};
ghost use Rattle.ks_core.specs.BufferedOut.{Writes};
ghost use Rattle.kx_mods.specs.Mods.{mask};
ghost use Rattle.kx_run.specs.Replies.{answered, told};
ghost use Rattle.kx_lines.specs.Answer.{tail_text, unlit_tail};

use crate::listing::write_lit;
use crate::state_text::{write_all_mods, write_group};
use arrayvec::ArrayVec;
use ks_core::{BufferedOut, MemOut, Out};
use kx_mods::Mods;
use kx_run::{Components, Reply};
use kx_tables::Tables;
use std::{io, mem};

/// The longest end that is kept.
const MOST_TAIL_BYTES: usize = 256;

/// What the end of an answer shows where no indicator is lit.
#[derive(Clone, Copy, PartialEq, Eq)]
struct Shown {
    consumed: Mods,
    state: Components,
}

/// The end of answers that show the same.
#[derive(Drop)]
struct Tail {
    shown: Shown,
    text: ArrayVec<u8, MOST_TAIL_BYTES>,
    ghost is_text: { text.items ≡ unlit_tail (mask shown.consumed) (told shown.state) },
}

/// The last two ends of answers in which no indicator is lit: a code that the keymap has and one that it has not may
/// take turns.
#[derive(Drop)]
pub struct Tails {
    last: Option<Tail>,
    second_last: Option<Tail>,
}

impl Tail {
    /// The end of answers that show this; none where it is too long.
    fn of(shown: Shown) -> Option<Tail> {
        let mut bytes = [0; MOST_TAIL_BYTES];
        let mut device = MemOut::new(&mut bytes);
        if put_unlit(&mut device, shown).is_err() {
            return None;
        }
        let mut text = ArrayVec::new();
        if text.try_extend_from_slice(device.written()).is_err() {
            return None;
        }
        Some(Tail { shown, text })
    }

    /// Whether it shows this.
    fn shows(&self, shown: Shown) -> bool
        ensures { IsTrue result → self.now.shown ≡ shown }
    {
        self.shown == shown
    }

    /// Its text.
    fn text(&self) -> &[u8]
        ensures { result.now ≡ unlit_tail (mask self.now.shown.consumed)
            (told self.now.shown.state) }
    {
        self.text.as_slice()
    }
}

/// The text of an end, if it is kept and shows this.
fn kept_text(tail: &Option<Tail>, shown: Shown) -> Option<&[u8]>
    ensures { IfSome result (λ text.
        text.now ≡ unlit_tail (mask shown.consumed) (told shown.state)) }
{
    match tail {
        None => None,
        Some(tail) => {
            if tail.shows(shown) {
                Some(tail.text())
            } else {
                None
            }
        }
    }
}

/// Puts the end of an answer in which no indicator is lit.
fn put_unlit<O: Out>(out: &mut O, shown: Shown) -> io::Result<()>
    ensures { Puts O.written O.failures out.old out.new result
        (unlit_tail (mask shown.consumed) (told shown.state)) }
{
    let mut buffered = BufferedOut::new();
    write_unlit(&mut buffered, out, shown);
    buffered.finish(out)
}

fn write_unlit<O: Out>(buffered: &mut BufferedOut, out: &mut O, shown: Shown)
    ensures { Writes O.written O.failures out.old buffered.old out.new buffered.new
        (unlit_tail (mask shown.consumed) (told shown.state)) }
{
    write_all_mods(buffered, out, shown.consumed, shown.state);
    write_group(buffered, out, shown.state);
    buffered.write(out, b"\n");
}

/// Writes the end of an answer from the tables.
fn write_tail<T: Tables, O: Out>(buffered: &mut BufferedOut, out: &mut O, tables: &T, reply: &Reply)
    ensures { Writes O.written O.failures out.old buffered.old out.new buffered.new
        (tail_text (T.content tables.now) (answered reply.now)) }
{
    write_all_mods(buffered, out, reply.consumed, reply.state);
    write_group(buffered, out, reply.state);
    write_lit(buffered, out, tables, reply.lit);
    buffered.write(out, b"\n");
}

/// Writes an end that is kept, if it shows this; whether it does.
fn write_kept<O: Out>(
    tail: &Option<Tail>,
    buffered: &mut BufferedOut,
    out: &mut O,
    shown: Shown,
) -> bool
    ensures written { result ≡ true
        → Writes O.written O.failures out.old buffered.old out.new buffered.new
        (unlit_tail (mask shown.consumed) (told shown.state)) }
    ensures still { result ≡ false → (buffered.new ≡ buffered.old) × (out.new ≡ out.old) }
{
    match kept_text(tail, shown) {
        None => false,
        Some(text) => {
            buffered.write(out, text);
            true
        }
    }
}

impl Tails {
    /// No ends are kept yet.
    pub fn new() -> Tails {
        Tails {
            last: None,
            second_last: None,
        }
    }

    /// Writes the end of an answer.
    pub fn write<T: Tables, O: Out>(
        &mut self,
        buffered: &mut BufferedOut,
        out: &mut O,
        tables: &T,
        reply: &Reply,
    )
        ensures { Writes O.written O.failures out.old buffered.old out.new buffered.new
            (tail_text (T.content tables.now) (answered reply.now)) }
    {
        let shown = Shown {
            consumed: reply.consumed,
            state: reply.state,
        };
        if reply.lit == 0 && self.write_unlit(buffered, out, shown) {
            return;
        }
        write_tail(buffered, out, tables, reply);
    }

    /// Writes an end in which no indicator is lit, if it is kept, and else keeps it; whether it is written.
    fn write_unlit<O: Out>(&mut self, buffered: &mut BufferedOut, out: &mut O, shown: Shown) -> bool
        ensures written { result ≡ true
            → Writes O.written O.failures out.old buffered.old out.new buffered.new
            (unlit_tail (mask shown.consumed) (told shown.state)) }
        ensures still { result ≡ false → (buffered.new ≡ buffered.old) × (out.new ≡ out.old) }
    {
        if write_kept(&self.last, buffered, out, shown) {
            return true;
        }
        if write_kept(&self.second_last, buffered, out, shown) {
            return true;
        }
        self.second_last = mem::replace(&mut self.last, Tail::of(shown));
        false
    }
}
