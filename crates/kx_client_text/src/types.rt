//! The section of key types, with the virtual modifiers.
ghost use Rattle.std.specs.Prelude.{◌≡◌, ◌==◌, [], ◌++◌, codes, map, if◌then◌else◌};
ghost use Rattle.std.specs.List.{flat_map};
ghost use Rattle.ks_core.specs.BufferedOut.{Writes};
ghost use Rattle.kx_mods.specs.Mods.{mask};
ghost use Rattle.kx_print.specs.Masks.{mods_text};
ghost use Rattle.kx_print.specs.Phrases.{joined};
ghost use Rattle.kx_print.specs.Printed.{entry_lines};
ghost use Rattle.kx_client_text.specs.Written.{built_in, declared_block, declares_one_level, modifier_text, modifiers_line, types_text};

use ks_core::{BufferedOut, Out};
use kx_clients::{DeclaredType, LeftOut, VirtualModifier};
use kx_mods::Mods;
use kx_print::{write_entry, write_levels, write_mods, write_mods_line, write_quoted};
use kx_tables::EntryRow;

/// The type that is built in, which readers of the text may not have.
const BUILT_IN: &[u8] = b"type \"ONE_LEVEL\" {\nmodifiers= none;\nlevel_name[1]= \"\";\n};\n";

/// Writes the section of key types.
pub(crate) fn write_types<O: Out>(left: &LeftOut, buffered: &mut BufferedOut, out: &mut O)
    ensures { Writes O.written O.failures out.old buffered.old out.new buffered.new
        (types_text left.now) }
{
    buffered.write(out, b"xkb_types {\n");
    write_modifiers(left.modifiers(), buffered, out);
    write_built_in(left.types(), buffered, out);
    write_each_declared(left.types(), buffered, out);
    buffered.write(out, b"};\n");
}

/// Writes the virtual modifiers with what they stand for, where there are any.
fn write_modifiers<O: Out>(modifiers: &[VirtualModifier], buffered: &mut BufferedOut, out: &mut O)
    ensures { Writes O.written O.failures out.old buffered.old out.new buffered.new
        (modifiers_line modifiers.now) }
{
    if modifiers.is_empty() {
        return;
    }
    buffered.write(out, b"virtual_modifiers ");
    write_each_modifier(modifiers, buffered, out);
    buffered.write(out, b";\n");
}

fn write_each_modifier<O: Out>(
    modifiers: &[VirtualModifier],
    buffered: &mut BufferedOut,
    out: &mut O,
)
    ensures { Writes O.written O.failures out.old buffered.old out.new buffered.new
        (joined (codes ", ") (map modifier_text modifiers.now)) }
{
    let mut before: &[u8] = b"";
    'modifiers: for modifier in modifiers {
        buffered.write(out, before);
        write_modifier(modifier, buffered, out);
        before = b", ";
    }
}

fn write_modifier<O: Out>(modifier: &VirtualModifier, buffered: &mut BufferedOut, out: &mut O)
    ensures { Writes O.written O.failures out.old buffered.old out.new buffered.new
        (modifier_text modifier.now) }
{
    buffered.write(out, modifier.name.as_slice());
    write_stand(modifier.mods, buffered, out);
}

/// Writes what a virtual modifier stands for, where it stands for any.
fn write_stand<O: Out>(mods: Mods, buffered: &mut BufferedOut, out: &mut O)
    ensures { Writes O.written O.failures out.old buffered.old out.new buffered.new
        (if mask mods == 0 then [] else codes "= " ++ mods_text mods) }
{
    if mods.is_none() {
        return;
    }
    buffered.write(out, b"= ");
    write_mods(buffered, out, mods);
}

fn declares_one_level(types: &[DeclaredType]) -> bool
    ensures { result ≡ declares_one_level types.now }
{
    types
        .iter()
        .any(|declared| declared.name() == b"ONE_LEVEL".as_slice())
}

/// Writes the type that is built in, unless it is declared.
fn write_built_in<O: Out>(types: &[DeclaredType], buffered: &mut BufferedOut, out: &mut O)
    ensures { Writes O.written O.failures out.old buffered.old out.new buffered.new
        (if declares_one_level types.now then [] else built_in) }
{
    if !declares_one_level(types) {
        buffered.write(out, BUILT_IN);
    }
}

fn write_each_declared<O: Out>(types: &[DeclaredType], buffered: &mut BufferedOut, out: &mut O)
    ensures { Writes O.written O.failures out.old buffered.old out.new buffered.new
        (flat_map declared_block types.now) }
{
    'types: for declared in types {
        write_declared(declared, buffered, out);
    }
}

fn write_declared<O: Out>(declared: &DeclaredType, buffered: &mut BufferedOut, out: &mut O)
    ensures { Writes O.written O.failures out.old buffered.old out.new buffered.new
        (declared_block declared.now) }
{
    buffered.write(out, b"type ");
    write_quoted(buffered, out, declared.name());
    buffered.write(out, b" {\n");
    write_mods_line(buffered, out, declared.mods());
    write_entries(declared.entries(), buffered, out);
    write_levels(buffered, out, declared.levels());
    buffered.write(out, b"};\n");
}

fn write_entries<O: Out>(entries: &[EntryRow], buffered: &mut BufferedOut, out: &mut O)
    ensures { Writes O.written O.failures out.old buffered.old out.new buffered.new
        (flat_map entry_lines entries.now) }
{
    'entries: for index in 0..entries.len() {
        let row = entries[index];
        write_entry(buffered, out, row);
    }
}
