//! The library: the source's tree, and the texts of the files.
ghost use Rattle.std.specs.Prelude.{◌≡◌, ◌≤◌, ◌<◌, ◌⊎◌, map, length, slice_get, IfOk, IfErr, IfSome, Some, List, ℕ};
ghost use Rattle.std.specs.Option.{option_copied, option_map};
ghost use Rattle.kx_lex.specs.declared.fault.Fault.TheVariants.{Memory, TooMany};
ghost use Rattle.kx_include.specs.IncludeFaults.{at};
ghost use Rattle.kx_include.specs.Library.{file_of, number_of, sections_in, items_in, place_in, place_of};
ghost use Rattle.kx_include.specs.Held.{AreOutlined, IsClosed, IsHeldLibrary, file_by};
ghost use Rattle.kx_include.specs.Source.{Handed};
ghost use Rattle.kx_tree.specs.declared.tree.Tree.{Tree as TreeValue};

use crate::file_text::FileText;
use crate::files::Files;
use crate::indexed::IndexedText;
use crate::place::Place;
use crate::reaching::Wanted;
use crate::text::outline_text;
use kx_lex::{At, Fault, Span};
use kx_parse::{Item, Kind, Part, Section, Tree};
use std::alloc::{AllocError, Global};
use std::marker::Model;

/// At most this many files can be handed in.
pub const MOST_FILES: usize = 65_535;

/// The source's tree and the texts of the files that includes can name, each read once.
#[derive(Drop)]
pub struct Library<'a> {
    files: &'a Files,
    texts: Vec<IndexedText<'a>>,
}

impl<'a> Model for Library<'a> {
    ghost use Rattle.std.specs.Prelude.{◌≡◌, ◌+◌, ◌≤◌, map, length};
    ghost use Rattle.kx_include.specs.Library.{Library};

    ghost Value = { Library };

    ghost view = { λ l. record { names = map (λ f. f.0) l.files.now; texts = l.texts.items } };

    ghost invariant = { λ l. (length l.files.now ≤ 65535)
        × (length l.texts.items ≡ length l.files.now + 1) };
}

/// The file that the text of a number is the outline of.
fn file_at<'a>(outlines: &[Option<&'a FileText>], number: usize) -> Option<&'a FileText>
    ensures { option_copied result ≡ file_by (map option_copied outlines.now) number }
{
    match outlines.get(number) {
        Some(file) => *file,
        None => None,
    }
}

impl<'a> Library<'a> {
    ghost use Rattle.std.specs.Prelude.{◌≡◌, ◌≤◌, ◌<◌, ◌⊎◌, map, length, slice_get, IfOk, IfErr, OnOk, Some};
    ghost use Rattle.std.specs.Option.{option_copied, option_map};
    ghost use Rattle.kx_lex.specs.declared.fault.Fault.TheVariants.{Memory, TooMany};
    ghost use Rattle.kx_include.specs.IncludeFaults.{at, fault_in};
    ghost use Rattle.kx_include.specs.Library.{file_of, number_of, sections_in, items_in, place_in, place_of};
    ghost use Rattle.kx_include.specs.Held.{AreOutlined, IsClosed, IsHeldLibrary};
    ghost use Rattle.kx_include.specs.Source.{Handed};

    /// The library of a source's tree and the files handed in, each of which is read once: it stands for that which has the
    /// trees of all files. `whole` is all of the source.
    ///
    /// # Errors
    /// `TooMany` at the whole source where there are more than 65,535 files; `Memory`.
    pub fn read(
        alloc: Global,
        tree: Tree,
        whole: Span,
        files: &'a Files,
    ) -> Result<Library<'a>, Fault>
        ensures texts { IfOk result (λ library. IsHeldLibrary tree files.now library) }
        ensures few { OnOk result (length files.now ≤ MOST_FILES) }
        ensures err { IfErr result (λ e. (e ≡ Memory)
            ⊎ ((MOST_FILES < length files.now) × (e ≡ TooMany (at 0 whole)))) }
    {
        if files.len() > MOST_FILES {
            return Err(Fault::TooMany(At {
                file: 0,
                span: whole,
            }));
        }
        let (outlined, outlines) = Library::outlined(alloc, tree, files)?;
        let wanted = outlined.wanted(alloc)?;
        outlined.with_statements(alloc, outlines.as_slice(), &wanted)
    }

    /// The library of a source's tree and the outlines of the files, and of each text the file of whose outline it is.
    fn outlined(
        alloc: Global,
        tree: Tree,
        files: &'a Files,
    ) -> Result<(Library<'a>, Vec<Option<&'a FileText>>), Fault>
        requires { length files.now ≤ MOST_FILES }
        ensures outlined { IfOk result (λ r.
            AreOutlined tree files.now r.0 (map option_copied r.1.items)) }
        ensures err { IfErr result (λ e. e ≡ Memory) }
    {
        let mut texts = Vec::new(alloc);
        let mut outlines = Vec::new(alloc);
        texts.push(IndexedText::of(alloc, Ok(tree))?)?;
        outlines.push(None)?;
        'files: for place in 0..files.len() {
            let Some(file) = files.text_at(place) else {
                unreachable!()
            };
            let (text, outline) = outline_text(alloc, place as u32 + 1, file)?;
            texts.push(text)?;
            outlines.push(outline)?;
        }
        Ok((Library { files, texts }, outlines))
    }

    /// The library of outlined texts with the statements of the sections that are wanted; `outlines` has of each text the file
    /// of whose outline it is.
    fn with_statements(
        self,
        alloc: Global,
        outlines: &[Option<&'a FileText>],
        wanted: &Wanted,
    ) -> Result<Library<'a>, Fault>
        ensures held { IfOk result (λ held. (tree : TreeValue) (files : Handed)
            → AreOutlined tree files self.entry (map option_copied outlines.now)
            → IsClosed self.entry wanted.now → IsHeldLibrary tree files held) }
        ensures err { IfErr result (λ e. e ≡ Memory) }
    {
        let Library { files, texts } = self;
        let mut held = Vec::with_capacity(alloc, texts.len())?;
        let mut number: usize = 0;
        'texts: for text in texts {
            let file = file_at(outlines, number);
            held.push(text.with_statements(alloc, file, wanted.of_text(number))?)?;
            number += 1;
        }
        Ok(Library { files, texts: held })
    }

    /// How many texts there are.
    pub(crate) fn len(&self) -> usize
        ensures texts { result ≡ length self.now.texts }
        ensures few { result ≤ 65536 }
    {
        self.texts.len()
    }

    /// How many sections the text of a number has.
    pub(crate) fn section_count(&self, file: usize) -> usize
        ensures { result ≡ length (sections_in self.now file) }
    {
        match self.texts.get(file) {
            Some(text) => text.section_count(),
            None => 0,
        }
    }

    /// The fault for which the text of a number has no tree.
    pub(crate) fn fault_of(&self, file: u32) -> Option<Fault>
        ensures { result ≡ fault_in (slice_get self.now.texts file) }
    {
        self.texts.get(file as usize)?.fault()
    }

    /// The section at a place, with its statements where the source's includes reach it.
    pub fn section_at(&self, place: Place) -> Option<&Section>
        ensures { option_copied result ≡ slice_get (sections_in self.now place.file) place.section }
    {
        match self.texts.get(place.file as usize) {
            Some(text) => text.section_at(place.section),
            None => None,
        }
    }

    /// The items of a section; none where there is no such section.
    pub fn items_in(&self, place: Place) -> &[Item]
        ensures { result.now ≡ items_in self.now place }
    {
        match self.section_at(place) {
            Some(section) => section.items.as_slice(),
            None => &[],
        }
    }

    /// The number of the file that a name means for a kind of section.
    ///
    /// # Errors
    /// Where a growth is refused.
    pub(crate) fn file_of(
        &self,
        alloc: Global,
        kind: Kind,
        name: &[u8],
    ) -> Result<Option<u32>, AllocError>
        ensures { IfOk result (λ file. file ≡ file_of self.now.names kind name.now) }
    {
        let mut full = Vec::from_slice(alloc, kind.word().as_bytes())?;
        full.push(b'/')?;
        full.extend_from_slice(name)?;
        let found = self.files.number_of(full.as_slice());
        Ok(found.or(self.files.number_of(name)))
    }

    /// The map of a text that is named, or the default one.
    pub(crate) fn place_in(&self, kind: Kind, map: Option<&[u8]>, file: u32) -> Option<Place>
        ensures { result ≡ place_in self.now kind (option_map (λ m. m.now) map.entry) file }
    {
        let text = self.texts.get(file as usize)?;
        text.map_of(kind, map)
            .map(|section| Place { file, section })
    }

    /// The map that a part of an include's text names.
    ///
    /// # Errors
    /// Where a growth is refused.
    pub fn place_of(
        &self,
        alloc: Global,
        kind: Kind,
        part: &Part,
    ) -> Result<Option<Place>, AllocError>
        ensures { IfOk result (λ place. place ≡ place_of self.now kind part.now) }
    {
        match self.file_of(alloc, kind, part.file())? {
            None => Ok(None),
            Some(file) => Ok(self.place_in(kind, part.map(), file)),
        }
    }
}
