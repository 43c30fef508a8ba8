//! The tables that an image shows.
ghost use Rattle.std.specs.Prelude.{◌≡◌, ◌<◌, ℕ, List, IfOk, IfErr, IfSome, OnErr, length, slice_get};
ghost use Rattle.kx_image.specs.Image.{IsImage, HasImageFault};
ghost use Rattle.kx_tables.specs.Content.{Content, key_name, type_name};

use crate::canonical::check_records;
use crate::fault::ImageFault;
use crate::layout::Layout;
use crate::shape::shape;
use kx_tables::{
    CellRow, Counts, EntryRow, GroupNameRow, GroupRow, IndicatorRow, KeyRow, RecordKind, Rows,
    Tables, TypeRow, check_tables, most_groups,
};
use std::marker::Model;

/// The tables of an image, read in place from its bytes.
#[derive(Drop)]
pub struct View<'a> {
    layout: Layout<'a>,
    most_groups: u8,
}

impl<'a> Model for View<'a> {
    ghost use Rattle.std.specs.Prelude.{◌≡◌};
    ghost use Rattle.kx_tables.specs.Content.{Content, greatest_groups};

    ghost Value = { Content };

    ghost use Rattle.kx_tables.specs.Sound.{Sound};

    ghost view = { λ v. v.layout };

    ghost invariant = { λ v. Sound v.layout × (v.most_groups ≡ greatest_groups v.layout.keys) };
}

impl<'a> View<'a> {
    /// The tables of the image that the bytes are, of version 1 or 2; else the first fault of their form, or a record
    /// that breaks a rule. Takes no memory.
    pub fn open(bytes: &'a [u8]) -> Result<View<'a>, ImageFault>
        ensures found { IfOk result (λ v. IsImage v bytes.now) }
        ensures only { OnErr result ((c : Content) → IsImage c bytes.now → ⊥) }
        ensures fault { IfErr result (HasImageFault bytes.now) }
    {
        View::checked(bytes)
    }

    /// Checks the form, then each record's bytes, then the rules of the rows.
    fn checked(bytes: &'a [u8]) -> Result<View<'a>, ImageFault>
        ensures found { IfOk result (λ v. IsImage v bytes.now) }
        ensures fault { IfErr result (HasImageFault bytes.now) }
    {
        let (header, groups) = shape(bytes)?;
        check_records(bytes, header, groups)?;
        let layout = Layout::new(bytes, header, groups);
        if let Err(broken) = check_tables(&layout) {
            return Err(ImageFault::BadRecord(broken.part, broken.index));
        }
        let most_groups = most_groups(&layout);
        if header.groups != u16::from(most_groups) {
            return Err(ImageFault::BadRecord(RecordKind::Header, 0));
        }
        Ok(View {
            layout,
            most_groups,
        })
    }

    /// The name of a type, which outlives the view.
    pub fn type_name(&self, index: u16) -> &'a [u8]
        requires { index < length self.now.types }
        ensures { IfSome (slice_get self.now.types index) (λ t. result.now ≡ type_name self.now t) }
    {
        let row = self.layout.type_row(index);
        self.layout.name(row.first_name, row.name_length)
    }

    /// The name of a key, which outlives the view.
    pub fn key_name(&self, index: u16) -> &'a [u8]
        requires { index < length self.now.keys }
        ensures { IfSome (slice_get self.now.keys index) (λ k. result.now ≡ key_name self.now k) }
    {
        let row = self.layout.key_row(index);
        self.layout.name(row.first_name, row.name_length)
    }
}

/// Bytes are the image of one content at most.
pub fn one_content()
    ensures { (s : List ℕ) (c d : Content) → IsImage c s → IsImage d s → c ≡ d }
{}

impl Rows for View<'_> {
    ghost content = { λ v. v };

    fn counts(&self) -> Counts {
        self.layout.counts()
    }

    fn type_row(&self, index: u16) -> TypeRow {
        self.layout.type_row(index)
    }

    fn entry_row(&self, index: u32) -> EntryRow {
        self.layout.entry_row(index)
    }

    fn key_row(&self, index: u16) -> KeyRow {
        self.layout.key_row(index)
    }

    fn group_row(&self, index: u32) -> GroupRow {
        self.layout.group_row(index)
    }

    fn cell_row(&self, index: u32) -> CellRow {
        self.layout.cell_row(index)
    }

    fn keysym(&self, index: u32) -> u32 {
        self.layout.keysym(index)
    }

    fn indicator_row(&self, index: u16) -> IndicatorRow {
        self.layout.indicator_row(index)
    }

    fn group_name_row(&self, index: u16) -> GroupNameRow {
        self.layout.group_name_row(index)
    }

    fn names(&self) -> &[u8] {
        self.layout.names()
    }
}

impl Tables for View<'_> {
    fn key_count(&self) -> u16 {
        self.layout.counts().keys
    }

    fn greatest_groups(&self) -> u8 {
        self.most_groups
    }
}
