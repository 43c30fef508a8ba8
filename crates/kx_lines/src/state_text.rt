//! The part of an answer that tells the state of the keyboard.
ghost use Rattle.std.specs.Prelude.{◌≡◌, ◌++◌, ◌+◌, decimal};
ghost use Rattle.ks_core.specs.BufferedOut.{Writes};
ghost use Rattle.kx_mods.specs.Mods.{mask};
ghost use Rattle.kx_run.specs.Replies.{told};
ghost use Rattle.kx_lines.specs.Answer.{all_mods_text, group_text, mods_text};

use itoa::Buffer;
use ks_core::{BufferedOut, Out};
use kx_mods::Mods;
use kx_run::Components;

/// Writes a number in decimal.
pub fn write_number<O: Out>(buffered: &mut BufferedOut, out: &mut O, number: u16)
    ensures { Writes O.written O.failures out.old buffered.old out.new buffered.new
        (decimal number) }
{
    let mut buffer = Buffer::new();
    buffered.write(out, buffer.format(number).as_bytes());
}

/// The modifiers' names after a label, or `none`.
fn write_mods<O: Out>(buffered: &mut BufferedOut, out: &mut O, label: &[u8], mods: Mods)
    ensures { Writes O.written O.failures out.old buffered.old out.new buffered.new
        (mods_text label.now (mask mods)) }
{
    buffered.write(out, label);
    kx_print::write_mods(buffered, out, mods);
}

/// The consumed modifiers, and those of the state.
pub fn write_all_mods<O: Out>(
    buffered: &mut BufferedOut,
    out: &mut O,
    consumed: Mods,
    state: Components,
)
    ensures { Writes O.written O.failures out.old buffered.old out.new buffered.new
        (all_mods_text (mask consumed) (told state)) }
{
    write_mods(buffered, out, b" consumed=", consumed);
    write_mods(buffered, out, b" base=", state.base);
    write_mods(buffered, out, b" latched=", state.latched);
    write_mods(buffered, out, b" locked=", state.locked);
}

/// The effective group, counted from 1.
pub fn write_group<O: Out>(buffered: &mut BufferedOut, out: &mut O, state: Components)
    ensures { Writes O.written O.failures out.old buffered.old out.new buffered.new
        (group_text (told state)) }
{
    buffered.write(out, b" group=");
    write_number(buffered, out, u16::from(state.effective_group) + 1);
}
