//! Rows read from the bytes of an image.
ghost use Rattle.std.specs.Prelude.{◌≡◌, ◌+◌, ◌≤◌, length};
ghost use Rattle.kx_image.specs.Image.{content_in};
ghost use Rattle.kx_image.specs.LayoutHolds.{LayoutHolds, header_counts};
ghost use Rattle.kx_image.specs.Starts.{IsShape};
ghost use Rattle.kx_tables.specs.Content.{part};

use crate::header::Header;
use crate::records::{
    CELL_SIZE, ENTRY_SIZE, GROUP_NAME_SIZE, GROUP_SIZE, INDICATOR_SIZE, KEY_SIZE, KEYSYM_SIZE,
    TYPE_SIZE, cell_at, entry_at, group_at, group_name_at, indicator_at, key_at, keysym_at,
    type_at,
};
use crate::shape::Starts;
use kx_tables::{
    CellRow, Counts, EntryRow, GroupNameRow, GroupRow, IndicatorRow, KeyRow, Rows, TypeRow,
};
use std::marker::Model;

/// The rows that bytes without a fault of form tell, read at their places.
#[derive(Drop)]
pub struct Layout<'a> {
    bytes: &'a [u8],
    counts: Counts,
    starts: Starts,
}

impl<'a> Model for Layout<'a> {
    ghost use Rattle.kx_tables.specs.Content.{Content};

    ghost Value = { Content };

    ghost use Rattle.kx_image.specs.Image.{content_in};
    ghost use Rattle.kx_image.specs.LayoutHolds.{LayoutHolds};

    ghost view = { λ l. content_in l.bytes.now };

    ghost invariant = { λ l. LayoutHolds l.bytes.now l.counts l.starts };
}

/// A record's bytes.
fn record(bytes: &[u8], place: usize, size: usize) -> &[u8]
    requires { place + size ≤ length bytes.now }
    ensures value { result.now ≡ part bytes.now place size }
    ensures size { length result.now ≡ size }
{
    &bytes[place..place + size]
}

/// How many rows each table has in an image with this header and so many groups.
pub fn counts_of(header: Header, groups: u32) -> Counts
    ensures { result ≡ header_counts header groups }
{
    Counts {
        types: header.types,
        entries: header.entries,
        keys: header.keys,
        groups,
        cells: header.cells,
        keysyms: header.keysyms,
        indicators: header.indicators,
        group_names: header.group_names,
        names: header.names,
    }
}

impl<'a> Layout<'a> {
    /// The rows of bytes whose form has no fault.
    pub fn new(bytes: &'a [u8], header: Header, groups: u32) -> Layout<'a>
        requires { IsShape bytes.now header groups }
        ensures { result ≡ content_in bytes.now }
    {
        Layout {
            bytes,
            counts: counts_of(header, groups),
            starts: Starts::of(header, groups),
        }
    }

    /// The rows of bytes whose counts and places are known.
    pub fn again(bytes: &'a [u8], counts: Counts, starts: Starts) -> Layout<'a>
        requires { LayoutHolds bytes.now counts starts }
        ensures { result ≡ content_in bytes.now }
    {
        Layout {
            bytes,
            counts,
            starts,
        }
    }

    /// The bytes of all names, which outlive the rows.
    pub fn all_names(&self) -> &'a [u8]
        ensures { result.now ≡ self.now.names }
    {
        record(self.bytes, self.starts.names, self.counts.names as usize)
    }
}

impl<'a> Layout<'a> {
    /// So many bytes of the names from a place on.
    pub fn name(&self, first: u32, count: u16) -> &'a [u8]
        requires { first + count ≤ length self.now.names }
        ensures { result.now ≡ part self.now.names first count }
    {
        let names = record(self.bytes, self.starts.names, self.counts.names as usize);
        let start = first as usize;
        &names[start..start + usize::from(count)]
    }
}

impl Rows for Layout<'_> {
    ghost content = { λ l. l };

    fn counts(&self) -> Counts {
        self.counts
    }

    fn type_row(&self, index: u16) -> TypeRow {
        let place = self.starts.types + TYPE_SIZE * usize::from(index);
        type_at(record(self.bytes, place, TYPE_SIZE))
    }

    fn entry_row(&self, index: u32) -> EntryRow {
        let place = self.starts.entries + ENTRY_SIZE * index as usize;
        entry_at(record(self.bytes, place, ENTRY_SIZE))
    }

    fn key_row(&self, index: u16) -> KeyRow {
        let place = self.starts.keys + KEY_SIZE * usize::from(index);
        key_at(record(self.bytes, place, KEY_SIZE))
    }

    fn group_row(&self, index: u32) -> GroupRow {
        let place = self.starts.groups + GROUP_SIZE * index as usize;
        group_at(record(self.bytes, place, GROUP_SIZE))
    }

    fn cell_row(&self, index: u32) -> CellRow {
        let place = self.starts.cells + CELL_SIZE * index as usize;
        cell_at(record(self.bytes, place, CELL_SIZE))
    }

    fn keysym(&self, index: u32) -> u32 {
        let place = self.starts.keysyms + KEYSYM_SIZE * index as usize;
        keysym_at(record(self.bytes, place, KEYSYM_SIZE))
    }

    fn indicator_row(&self, index: u16) -> IndicatorRow {
        let place = self.starts.indicators + INDICATOR_SIZE * usize::from(index);
        indicator_at(record(self.bytes, place, INDICATOR_SIZE))
    }

    fn group_name_row(&self, index: u16) -> GroupNameRow {
        let place = self.starts.group_names + GROUP_NAME_SIZE * usize::from(index);
        group_name_at(record(self.bytes, place, GROUP_NAME_SIZE))
    }

    fn names(&self) -> &[u8] {
        self.all_names()
    }
}
