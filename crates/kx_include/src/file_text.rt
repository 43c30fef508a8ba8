//! A file's text with its outline, which is made once.
ghost use Rattle.std.specs.Prelude.{◌≡◌, IfOk, IfSome, Some};
ghost use Rattle.std.specs.Option.{option_copied, option_map};
ghost use Rattle.kx_include.specs.FileText.{outline_sections};
ghost use Rattle.kx_include.specs.Library.{map_of};
ghost use Rattle.kx_include.specs.MapIndex.{IsIndex};
ghost use Rattle.kx_include.specs.Texts.{IsShort};
ghost use Rattle.kx_parse.specs.Outlined.{outlined};

use crate::map_index::MapIndex;
use kx_parse::{Kind, Outline, outline_file};
use std::alloc::{AllocError, Global};
use std::marker::Model;

/// The index of an outline's maps; without an outline, of none.
fn maps_of(alloc: Global, outline: &Option<Outline>) -> Result<MapIndex, AllocError>
    ensures { IfOk result (λ maps. IsIndex maps (outline_sections outline.now)) }
{
    match outline {
        Some(outline) => MapIndex::of(alloc, outline.sections.as_slice()),
        None => MapIndex::of(alloc, &[]),
    }
}

/// A file's bytes with their outline, where they have one, and the index of its maps.
pub struct FileText {
    bytes: Vec<u8>,
    outline: Option<Outline>,
    maps: MapIndex,
}

impl Drop for FileText {
    fn drop(self) {
        let FileText {
            bytes: _,
            outline: _,
            maps: _,
        } = self;
    }
}

impl Model for FileText {
    ghost use Rattle.kx_include.specs.FileText.{FileText, IsFileText};

    ghost Value = { FileText };

    ghost view = { λ t. record { bytes = t.bytes.items; outline = t.outline } };

    ghost invariant = { λ t. IsFileText t.bytes.items t.outline t.maps };
}

impl FileText {
    /// A file's text of its bytes.
    ///
    /// # Errors
    /// Where a growth is refused.
    pub fn of(alloc: Global, bytes: Vec<u8>) -> Result<FileText, AllocError>
        ensures { IfOk result (λ text. text.bytes ≡ bytes.items) }
    {
        let outline = outline_file(alloc, bytes.as_slice())?;
        let maps = maps_of(alloc, &outline)?;
        Ok(FileText {
            bytes,
            outline,
            maps,
        })
    }

    /// The file's bytes.
    pub fn bytes(&self) -> &[u8]
        ensures { result.now ≡ self.now.bytes }
    {
        self.bytes.as_slice()
    }

    /// The same, of which the text was made.
    pub fn into_bytes(self) -> Vec<u8>
        ensures { result.items ≡ self.bytes }
    {
        let FileText {
            bytes,
            outline: _,
            maps: _,
        } = self;
        bytes
    }

    /// The file's outline; none where it has no tree.
    pub fn outline(&self) -> Option<&Outline>
        ensures value { option_copied result ≡ self.now.outline }
        ensures outlined { IfSome result (λ outline. outlined self.now.bytes ≡ Some outline.now) }
        ensures short { IfSome result (λ _. IsShort self.now.bytes) }
    {
        match &self.outline {
            Some(outline) => Some(outline),
            None => None,
        }
    }

    /// Which of the outline's sections is the map of a kind that has a name, or without one the default map.
    pub fn map_of(&self, kind: Kind, name: Option<&[u8]>) -> Option<usize>
        ensures { result ≡ map_of (outline_sections self.now.outline) kind
            (option_map (λ n. n.now) name.entry) }
    {
        self.maps.number(kind, name)
    }
}
