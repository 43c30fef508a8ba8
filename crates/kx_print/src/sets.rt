//! Sets by the names of their members.
ghost use Rattle.std.specs.Prelude.{◌≡◌, ◌<◌, ◌++◌, Some, codes, length, slice_get};
ghost use Rattle.ks_core.specs.BufferedOut.{Writes};
ghost use Rattle.kx_print.specs.Masks.{chosen, mods_text, names_of, set_text, states_text};
ghost use Rattle.kx_print.specs.Phrases.{joined};

use ks_core::{BufferedOut, Out};
use kx_mods::Mods;
use kx_tables::States;

/// Whose names stand for the bits of a set, from bit 0 on.
#[derive(Clone, Copy)]
pub enum Names {
    /// The real modifiers.
    Modifiers,
    /// The states that an indicator looks at.
    States,
}

impl Names {
    /// How many names there are.
    #[tactic(auto, unfolding(kx_mods::specs::Mods::mod_names, crate::specs::Masks::state_names))]
    pub fn count(self) -> u8
        ensures { result ≡ length (names_of self) }
    {
        match self {
            Names::Modifiers => 8,
            Names::States => 4,
        }
    }

    /// The name of a bit.
    pub fn of(self, bit: u8) -> &'static str
        requires { bit < length (names_of self) }
        ensures { slice_get (names_of self) bit ≡ Some result.now }
    {
        match self {
            Names::Modifiers => Mods::name_of(bit),
            Names::States => state_name(bit),
        }
    }
}

#[tactic(auto, unfolding(crate::specs::Masks::state_names))]
fn state_name(bit: u8) -> &'static str
    requires { bit < 4 }
    ensures { slice_get (names_of Names.States) bit ≡ Some result.now }
{
    match bit {
        0 => "base",
        1 => "latched",
        2 => "locked",
        _ => "effective",
    }
}

/// Writes modifiers joined by `+`, or `none`.
pub fn write_mods<O: Out>(buffered: &mut BufferedOut, out: &mut O, mods: Mods)
    ensures { Writes O.written O.failures out.old buffered.old out.new buffered.new
        (mods_text mods) }
{
    write_set(buffered, out, Names::Modifiers, mods.mask());
}

/// Writes states joined by `+`, or `none`.
pub fn write_states<O: Out>(buffered: &mut BufferedOut, out: &mut O, states: States)
    ensures { Writes O.written O.failures out.old buffered.old out.new buffered.new
        (states_text states) }
{
    write_set(buffered, out, Names::States, states.mask());
}

fn write_set<O: Out>(buffered: &mut BufferedOut, out: &mut O, names: Names, bits: u8)
    ensures { Writes O.written O.failures out.old buffered.old out.new buffered.new
        (set_text (names_of names) bits) }
{
    if bits == 0 {
        buffered.write(out, b"none");
    } else {
        write_members(buffered, out, names, bits);
    }
}

fn write_members<O: Out>(buffered: &mut BufferedOut, out: &mut O, names: Names, bits: u8)
    ensures { Writes O.written O.failures out.old buffered.old out.new buffered.new
        (joined (codes "+") (chosen bits (names_of names))) }
{
    let mut before: &[u8] = b"";
    let mut left = bits;
    for bit in 0..names.count() {
        if left % 2 == 1 {
            write_member(buffered, out, before, names.of(bit));
            before = b"+";
        }
        left /= 2;
    }
}

fn write_member<O: Out>(buffered: &mut BufferedOut, out: &mut O, before: &[u8], name: &str)
    ensures { Writes O.written O.failures out.old buffered.old out.new buffered.new
        (before.now ++ name.now) }
{
    buffered.write(out, before);
    buffered.write(out, name.as_bytes());
}
