//! The files that are handed in.
ghost use Rattle.std.specs.Prelude.{◌≡◌, ◌++◌, [], ◌≤◌, List, ℕ, IfOk, OnOk, OnErr, IfErr, IfSome, IfNone, length, slice_get, map, Some, position};
ghost use Rattle.std.specs.Option.{option_map};
ghost use Rattle.std.specs.Str.{bytes_eq};
ghost use Rattle.kx_lex.specs.declared.fault.Fault.TheVariants.{Memory};
ghost use Rattle.kx_include.specs.Library.{number_of, with_file};
ghost use Rattle.kx_include.specs.declared.sources.TheConstants.{MOST_FILES};

use crate::file_text::FileText;
use kx_lex::Fault;
use kx_ordered::{Ordered, OwnedName};
use std::alloc::Global;
use std::marker::Model;

/// The files handed in, by name; includes find them. The n-th has the number n, counted from 1.
pub struct Files {
    files: Ordered<OwnedName, FileText>,
}

impl Drop for Files {
    fn drop(self) {
        let Files { files: _ } = self;
    }
}

impl Model for Files {
    ghost use Rattle.std.specs.Prelude.{ℕ, List, map};

    ghost Value = { List (List ℕ × List ℕ) };

    ghost view = { λ f. map (λ e. (e.0, e.1.bytes)) f.files.entries };
}

impl Files {
    /// No files.
    pub fn new(alloc: Global) -> Files
        ensures { result ≡ [] }
    {
        Files {
            files: Ordered::new(alloc),
        }
    }

    /// Hands in a file. One that has its name already is replaced, and keeps its number.
    ///
    /// # Errors
    /// `Memory`; then nothing is handed in.
    pub fn insert(&mut self, name: Vec<u8>, bytes: Vec<u8>) -> Result<(), Fault>
        ensures file { OnOk result (self.new ≡ with_file self.old name.items bytes.items) }
        ensures err { IfErr result (λ e. e ≡ Memory) }
        ensures unchanged { OnErr result (self.new ≡ self.old) }
    {
        let alloc = *bytes.allocator();
        let text = FileText::of(alloc, bytes)?;
        self.insert_text(name, text)
    }

    /// The same of a file whose outline is made already.
    ///
    /// # Errors
    /// `Memory`; then nothing is handed in.
    pub fn insert_text(&mut self, name: Vec<u8>, text: FileText) -> Result<(), Fault>
        ensures file { OnOk result (self.new ≡ with_file self.old name.items text.bytes) }
        ensures err { IfErr result (λ e. e ≡ Memory) }
        ensures unchanged { OnErr result (self.new ≡ self.old) }
    {
        self.files.insert(OwnedName::owning(name), text)?;
        Ok(())
    }

    /// How many there are.
    pub fn len(&self) -> usize
        ensures { result ≡ length self.now }
    {
        self.files.len()
    }

    /// The place of the file of a name, counted from 0.
    pub fn place_of(&self, name: &[u8]) -> Option<usize>
        ensures { result ≡ position (bytes_eq name.now) (map (λ f. f.0) self.now) }
    {
        self.files.place_of_owned_name(name)
    }

    /// The number of the file of a name, counted from 1.
    pub(crate) fn number_of(&self, name: &[u8]) -> Option<u32>
        requires { length self.now ≤ MOST_FILES }
        ensures { result ≡ number_of (map (λ f. f.0) self.now) name.now }
    {
        match self.files.place_of_owned_name(name) {
            None => None,
            Some(place) => Some(place as u32 + 1),
        }
    }

    /// The text of the file at a place, counted from 0; none after the last.
    pub fn text_at(&self, place: usize) -> Option<&FileText>
        ensures { option_map (λ t. t.now.bytes) result
            ≡ option_map (λ f. f.1) (slice_get self.now place) }
    {
        self.files.value(place)
    }

    /// The bytes of the file at a place, counted from 0; none after the last.
    pub fn bytes_at(&self, place: usize) -> &[u8]
        ensures found { IfSome (slice_get self.now place) (λ f. result.now ≡ f.1) }
        ensures behind { IfNone (slice_get self.now place) (result.now ≡ []) }
    {
        match self.text_at(place) {
            None => &[],
            Some(text) => text.bytes(),
        }
    }
}
