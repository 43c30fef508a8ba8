//! Tables with several owners.
ghost use Rattle.std.specs.Prelude.{◌≡◌, IfOk, IfErr};
ghost use Rattle.kx_image.specs.Image.{IsImage, HasImageFault};
ghost use Rattle.kx_handles.specs.declared.tables.OpenFault.{OpenFault};
ghost use Rattle.kx_handles.specs.declared.tables.OpenFault.TheVariants.{Memory, Image};
ghost use Rattle.kx_handles.specs.Open.{IsRefused};
ghost use Rattle.kx_tables.specs.Content.{Content};

use kx_image::{ImageFault, OwnedView};
use kx_tables::{
    CellRow, Counts, EntryRow, GroupNameRow, GroupRow, IndicatorRow, KeyRow, Rows, Tables, TypeRow,
};
use std::alloc::{AllocError, Global};
use std::marker::Model;
use std::rc::Rc;

/// The tables of an image that has several owners, in one thread.
#[derive(Drop)]
pub struct SharedTables {
    image: Rc<OwnedView>,
}

impl Model for SharedTables {
    ghost use Rattle.kx_tables.specs.Content.{Content};

    ghost Value = { Content };

    ghost view = { λ s. s.image.value };
}

/// Why an image isn't opened.
#[derive(Clone, Copy, PartialEq, Eq)]
pub enum OpenFault {
    /// A growth was refused.
    Memory,
    /// The bytes are no image.
    Image(ImageFault),
}

impl SharedTables {
    /// The tables of the image that the bytes are.
    pub fn open(alloc: Global, bytes: Vec<u8>) -> Result<SharedTables, OpenFault>
        ensures found { IfOk result (λ s. IsImage s bytes.items) }
        ensures fault { IfErr result (IsRefused bytes.items) }
    {
        match OwnedView::open(bytes) {
            Err(fault) => Err(OpenFault::Image(fault)),
            Ok(view) => match Rc::new(alloc, view) {
                Err(_) => Err(OpenFault::Memory),
                Ok(image) => Ok(SharedTables { image }),
            },
        }
    }

    /// One more owner of the same tables.
    pub fn again(&self) -> Result<SharedTables, AllocError>
        ensures { IfOk result (λ s. s ≡ self.now) }
    {
        let image = self.image.clone()?;
        Ok(SharedTables { image })
    }

    /// The image.
    pub fn bytes(&self) -> &[u8]
        ensures { IsImage self.now result.now }
    {
        self.image.bytes()
    }
}

impl Rows for SharedTables {
    ghost content = { λ s. s };

    fn counts(&self) -> Counts {
        self.image.counts()
    }

    fn type_row(&self, index: u16) -> TypeRow {
        self.image.type_row(index)
    }

    fn entry_row(&self, index: u32) -> EntryRow {
        self.image.entry_row(index)
    }

    fn key_row(&self, index: u16) -> KeyRow {
        self.image.key_row(index)
    }

    fn group_row(&self, index: u32) -> GroupRow {
        self.image.group_row(index)
    }

    fn cell_row(&self, index: u32) -> CellRow {
        self.image.cell_row(index)
    }

    fn keysym(&self, index: u32) -> u32 {
        self.image.keysym(index)
    }

    fn indicator_row(&self, index: u16) -> IndicatorRow {
        self.image.indicator_row(index)
    }

    fn group_name_row(&self, index: u16) -> GroupNameRow {
        self.image.group_name_row(index)
    }

    fn names(&self) -> &[u8] {
        self.image.names()
    }
}

impl Tables for SharedTables {
    fn key_count(&self) -> u16 {
        self.image.key_count()
    }

    fn greatest_groups(&self) -> u8 {
        self.image.greatest_groups()
    }
}
