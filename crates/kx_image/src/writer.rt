//! From tables to the bytes of an image.
ghost use Rattle.std.specs.Prelude.{◌≡◌};
ghost use Rattle.std.specs.List.{flat_map};
ghost use Rattle.ks_core.specs.Device.{Puts};
ghost use Rattle.ks_core.specs.BufferedOut.{Writes};
ghost use Rattle.kx_image.specs.Image.{body, header_for, image};
ghost use Rattle.kx_image.specs.Records as spec;
ghost use Rattle.kx_image.specs.Shape.{header_bytes};
ghost use Rattle.kx_image.specs.declared.header.ImageVersion.TheVariants.{Two};

use crate::header::{Header, ImageVersion};
use crate::records::{
    cell_bytes, entry_bytes, group_bytes, group_name_bytes, indicator_bytes, key_bytes,
    keysym_bytes, type_bytes,
};
use ks_core::{BufferedOut, Out};
use kx_tables::Tables;
use std::io;

/// The header of the tables' image of version 2.
fn header_of<T: Tables>(tables: &T) -> Header
    ensures { result ≡ header_for Two (T.content tables.now) }
{
    let counts = tables.counts();
    Header {
        version: ImageVersion::Two,
        groups: u16::from(tables.greatest_groups()),
        types: counts.types,
        keys: counts.keys,
        entries: counts.entries,
        cells: counts.cells,
        keysyms: counts.keysyms,
        names: counts.names,
        indicators: counts.indicators,
        group_names: counts.group_names,
    }
}

fn write_types<T: Tables, O: Out>(tables: &T, buffered: &mut BufferedOut, out: &mut O)
    ensures { Writes O.written O.failures out.old buffered.old out.new buffered.new
        (flat_map spec.type_bytes (T.content tables.now).types) }
{
    for index in 0..tables.counts().types {
        buffered.write(out, &type_bytes(tables.type_row(index)));
    }
}

fn write_entries<T: Tables, O: Out>(tables: &T, buffered: &mut BufferedOut, out: &mut O)
    ensures { Writes O.written O.failures out.old buffered.old out.new buffered.new
        (flat_map spec.entry_bytes (T.content tables.now).entries) }
{
    for index in 0..tables.counts().entries {
        buffered.write(out, &entry_bytes(tables.entry_row(index)));
    }
}

fn write_keys<T: Tables, O: Out>(tables: &T, buffered: &mut BufferedOut, out: &mut O)
    ensures { Writes O.written O.failures out.old buffered.old out.new buffered.new
        (flat_map spec.key_bytes (T.content tables.now).keys) }
{
    for index in 0..tables.counts().keys {
        buffered.write(out, &key_bytes(tables.key_row(index)));
    }
}

fn write_groups<T: Tables, O: Out>(tables: &T, buffered: &mut BufferedOut, out: &mut O)
    ensures { Writes O.written O.failures out.old buffered.old out.new buffered.new
        (flat_map spec.group_bytes (T.content tables.now).groups) }
{
    for index in 0..tables.counts().groups {
        buffered.write(out, &group_bytes(tables.group_row(index)));
    }
}

fn write_cells<T: Tables, O: Out>(tables: &T, buffered: &mut BufferedOut, out: &mut O)
    ensures { Writes O.written O.failures out.old buffered.old out.new buffered.new
        (flat_map spec.cell_bytes (T.content tables.now).cells) }
{
    for index in 0..tables.counts().cells {
        buffered.write(out, &cell_bytes(tables.cell_row(index)));
    }
}

fn write_keysyms<T: Tables, O: Out>(tables: &T, buffered: &mut BufferedOut, out: &mut O)
    ensures { Writes O.written O.failures out.old buffered.old out.new buffered.new
        (flat_map spec.keysym_bytes (T.content tables.now).keysyms) }
{
    for index in 0..tables.counts().keysyms {
        buffered.write(out, &keysym_bytes(tables.keysym(index)));
    }
}

fn write_indicators<T: Tables, O: Out>(tables: &T, buffered: &mut BufferedOut, out: &mut O)
    ensures { Writes O.written O.failures out.old buffered.old out.new buffered.new
        (flat_map spec.indicator_bytes (T.content tables.now).indicators) }
{
    for index in 0..tables.counts().indicators {
        buffered.write(out, &indicator_bytes(tables.indicator_row(index)));
    }
}

fn write_group_names<T: Tables, O: Out>(tables: &T, buffered: &mut BufferedOut, out: &mut O)
    ensures { Writes O.written O.failures out.old buffered.old out.new buffered.new
        (flat_map spec.group_name_bytes (T.content tables.now).group_names) }
{
    for index in 0..tables.counts().group_names {
        buffered.write(out, &group_name_bytes(tables.group_name_row(index)));
    }
}

/// Writes the tables after the header, one after another, and the names.
fn write_body<T: Tables, O: Out>(tables: &T, buffered: &mut BufferedOut, out: &mut O)
    ensures { Writes O.written O.failures out.old buffered.old out.new buffered.new
        (body (T.content tables.now)) }
{
    write_types(tables, buffered, out);
    write_entries(tables, buffered, out);
    write_keys(tables, buffered, out);
    write_groups(tables, buffered, out);
    write_cells(tables, buffered, out);
    write_keysyms(tables, buffered, out);
    write_indicators(tables, buffered, out);
    write_group_names(tables, buffered, out);
    buffered.write(out, tables.names());
}

/// Writes the tables' image, of version 2. An error is the writer's; then a beginning of the image is written. Takes no memory.
pub fn write<T: Tables, O: Out>(tables: &T, out: &mut O) -> io::Result<()>
    ensures { Puts O.written O.failures out.old out.new result (image Two (T.content tables.now)) }
{
    let mut buffered = BufferedOut::new();
    buffered.write(out, &header_of(tables).bytes());
    write_body(tables, &mut buffered, out);
    buffered.finish(out)
}
