//! The tables that an image shows which owns its bytes.
ghost use Rattle.std.specs.Prelude.{◌≡◌, IfOk, IfErr, OnErr};
ghost use Rattle.kx_image.specs.Image.{IsImage, HasImageFault, content_in};
ghost use Rattle.kx_image.specs.Owned.{Facts};
ghost use Rattle.kx_tables.specs.Content.{Content};

use crate::fault::ImageFault;
use crate::header::Header;
use crate::layout::{Layout, counts_of};
use crate::shape::{Starts, shape};
use crate::view::View;
use kx_tables::{
    CellRow, Counts, EntryRow, GroupNameRow, GroupRow, IndicatorRow, KeyRow, Rows, Tables, TypeRow,
};
use std::marker::Model;

/// The tables of an image, read in place from bytes of their own.
#[derive(Drop)]
pub struct OwnedView {
    bytes: Vec<u8>,
    counts: Counts,
    starts: Starts,
    most_groups: u8,
}

impl Model for OwnedView {
    ghost use Rattle.kx_tables.specs.Content.{Content};

    ghost Value = { Content };

    ghost use Rattle.kx_image.specs.Image.{content_in};
    ghost use Rattle.kx_image.specs.Owned.{IsKept};

    ghost view = { λ v. content_in v.bytes.items };

    ghost invariant = { λ v. IsKept v.bytes.items v.counts v.starts v.most_groups };
}

/// What is kept beside the bytes of an image.
fn facts(bytes: &[u8]) -> Result<(Header, u32, u8), ImageFault>
    ensures found { IfOk result (λ f. Facts bytes.now f.0 f.1 f.2) }
    ensures fault { IfErr result (HasImageFault bytes.now) }
{
    let most_groups = match View::open(bytes) {
        Ok(view) => view.greatest_groups(),
        Err(fault) => return Err(fault),
    };
    let (header, groups) = shape(bytes)?;
    Ok((header, groups, most_groups))
}

impl OwnedView {
    /// The tables of the image that the bytes are, as `View::open` has them.
    pub fn open(bytes: Vec<u8>) -> Result<OwnedView, ImageFault>
        ensures found { IfOk result (λ v. IsImage v bytes.items) }
        ensures only { OnErr result ((c : Content) → IsImage c bytes.items → ⊥) }
        ensures fault { IfErr result (HasImageFault bytes.items) }
    {
        match facts(bytes.as_slice()) {
            Err(fault) => Err(fault),
            Ok((header, groups, most_groups)) => Ok(OwnedView {
                bytes,
                counts: counts_of(header, groups),
                starts: Starts::of(header, groups),
                most_groups,
            }),
        }
    }

    /// The image.
    pub fn bytes(&self) -> &[u8]
        ensures { IsImage self.now result.now }
    {
        self.bytes.as_slice()
    }

    fn layout(&self) -> Layout<'_>
        ensures { result ≡ self.now }
    {
        Layout::again(self.bytes.as_slice(), self.counts, self.starts)
    }
}

impl Rows for OwnedView {
    ghost content = { λ v. v };

    fn counts(&self) -> Counts {
        self.layout().counts()
    }

    fn type_row(&self, index: u16) -> TypeRow {
        self.layout().type_row(index)
    }

    fn entry_row(&self, index: u32) -> EntryRow {
        self.layout().entry_row(index)
    }

    fn key_row(&self, index: u16) -> KeyRow {
        self.layout().key_row(index)
    }

    fn group_row(&self, index: u32) -> GroupRow {
        self.layout().group_row(index)
    }

    fn cell_row(&self, index: u32) -> CellRow {
        self.layout().cell_row(index)
    }

    fn keysym(&self, index: u32) -> u32 {
        self.layout().keysym(index)
    }

    fn indicator_row(&self, index: u16) -> IndicatorRow {
        self.layout().indicator_row(index)
    }

    fn group_name_row(&self, index: u16) -> GroupNameRow {
        self.layout().group_name_row(index)
    }

    fn names(&self) -> &[u8] {
        self.layout().all_names()
    }
}

impl Tables for OwnedView {
    fn key_count(&self) -> u16 {
        self.counts.keys
    }

    fn greatest_groups(&self) -> u8 {
        self.most_groups
    }
}
