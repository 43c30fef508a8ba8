//! A text with the index of its maps.
ghost use Rattle.std.specs.Prelude.{◌≡◌, IfErr, IfOk, None, Ok, Some, get_or, length, map, slice_get};
ghost use Rattle.std.specs.Option.{option_copied, option_map};
ghost use Rattle.kx_include.specs.FileText.{outline_sections};
ghost use Rattle.kx_include.specs.IncludeFaults.{fault_in};
ghost use Rattle.kx_include.specs.Held.{Holds, IsSketch, held_sections};
ghost use Rattle.kx_include.specs.Kept.{built_over};
ghost use Rattle.kx_include.specs.Library.{Text, map_of, sections_of};
ghost use Rattle.kx_lex.specs.declared.fault.Fault.TheVariants.{Memory};
ghost use Rattle.kx_parse.specs.Outline.{IsOutline};
ghost use Rattle.kx_parse.specs.declared.outline.Outline.{Outline};

use crate::file_text::FileText;
use crate::map_index::MapIndex;
use kx_lex::Fault;
use kx_parse::{Kind, Section, Tree, built_sections};
use std::alloc::{AllocError, Global};
use std::marker::Model;

fn sections_of(text: &Result<Tree, Fault>) -> &[Section]
    ensures { result.now ≡ sections_of (Some text.now) }
{
    match text {
        Ok(tree) => tree.sections.as_slice(),
        Err(_) => &[],
    }
}

/// The sections of a file's outline; none where it has no outline.
fn outlined_sections(file: &FileText) -> &[Section]
    ensures { result.now ≡ outline_sections file.now.outline }
{
    match file.outline() {
        Some(outline) => outline.sections.as_slice(),
        None => &[],
    }
}

/// The section of a number, counted from 0, where it was built.
fn built_at(built: &[Option<Section>], number: usize) -> Option<&Section>
    ensures { option_copied result ≡ get_or built.now number None }
{
    match built.get(number) {
        Some(Some(section)) => Some(section),
        _ => None,
    }
}

/// The section of a number, counted from 0: what was built, and else its outline.
fn shown_at<'s>(
    outlines: &'s [Section],
    built: &'s [Option<Section>],
    number: usize,
) -> Option<&'s Section>
    ensures { option_copied result ≡ slice_get (built_over outlines.now built.now) number }
{
    match outlines.get(number) {
        Some(outline) => match built_at(built, number) {
            Some(section) => Some(section),
            None => Some(outline),
        },
        None => None,
    }
}

/// What a text is made up of.
#[derive(Drop)]
enum Kept<'a> {
    /// Its own tree, or the fault for which it has none.
    Own {
        text: Result<Tree, Fault>,
        maps: MapIndex,
    },
    /// The outline of a file, and those of its sections that were built with their statements.
    Outlined {
        file: &'a FileText,
        built: Vec<Option<Section>>,
    },
}

/// A text, with the index of its maps, which is built once.
#[derive(Drop)]
pub(crate) struct IndexedText<'a> {
    kept: Kept<'a>,
}

impl<'a> Model for IndexedText<'a> {
    ghost use Rattle.kx_include.specs.Library.{Text};

    ghost Value = { Text };

    ghost use Rattle.kx_include.specs.Kept.{AreFound, text_of};

    ghost view = { λ t. text_of t.kept };

    ghost invariant = { λ t. AreFound t.kept };
}

impl<'a> IndexedText<'a> {
    /// A text with its index.
    ///
    /// # Errors
    /// Where a growth is refused.
    pub(crate) fn of(
        alloc: Global,
        text: Result<Tree, Fault>,
    ) -> Result<IndexedText<'a>, AllocError>
        ensures { IfOk result (λ indexed. indexed ≡ text) }
    {
        let maps = MapIndex::of(alloc, sections_of(&text))?;
        Ok(IndexedText {
            kept: Kept::Own { text, maps },
        })
    }

    /// The text of a file by its outline alone.
    pub(crate) fn outlined(alloc: Global, file: &'a FileText) -> IndexedText<'a>
        ensures { result ≡ Ok (record { sections = outline_sections file.now.outline }) }
    {
        let built = Vec::new(alloc);
        IndexedText {
            kept: Kept::Outlined { file, built },
        }
    }

    /// The same with the statements of the sections that are wanted.
    ///
    /// # Errors
    /// `Memory`.
    pub(crate) fn built(
        alloc: Global,
        file: &'a FileText,
        wanted: &[bool],
    ) -> Result<IndexedText<'a>, Fault>
        ensures held { IfOk result (λ held. (outline : Outline)
            → file.now.outline ≡ Some outline → (is : IsOutline file.now.bytes outline)
            → held ≡ Ok (record {
              sections = held_sections wanted.now
                  (map (λ s. s.0) is.sections);
            })) }
        ensures err { IfErr result (λ e. e ≡ Memory) }
    {
        let Some(outline) = file.outline() else {
            return Ok(IndexedText::outlined(alloc, file));
        };
        let Some(built) = built_sections(alloc, file.bytes(), outline, wanted)? else {
            unreachable!()
        };
        Ok(IndexedText {
            kept: Kept::Outlined { file, built },
        })
    }

    /// The text with the statements of its sections that are wanted, where it is the outline of a file.
    ///
    /// # Errors
    /// `Memory`.
    pub(crate) fn with_statements(
        self,
        alloc: Global,
        file: Option<&'a FileText>,
        wanted: &[bool],
    ) -> Result<IndexedText<'a>, Fault>
        ensures held { IfOk result (λ held. (whole : Text)
            → IsSketch self.entry (option_copied file.entry) whole
            → Holds wanted.now self.entry held whole) }
        ensures err { IfErr result (λ e. e ≡ Memory) }
    {
        match file {
            Some(file) => IndexedText::built(alloc, file, wanted),
            None => Ok(self),
        }
    }

    /// The fault for which the text has no tree.
    pub(crate) fn fault(&self) -> Option<Fault>
        ensures { result ≡ fault_in (Some self.now) }
    {
        match &self.kept {
            Kept::Own { text, .. } => match text {
                Ok(_) => None,
                Err(fault) => Some(*fault),
            },
            Kept::Outlined { .. } => None,
        }
    }

    /// How many sections the text has; none where it has no tree.
    pub(crate) fn section_count(&self) -> usize
        ensures { result ≡ length (sections_of (Some self.now)) }
    {
        match &self.kept {
            Kept::Own { text, .. } => sections_of(text).len(),
            Kept::Outlined { file, .. } => outlined_sections(file).len(),
        }
    }

    /// The text's section of a number, counted from 0.
    pub(crate) fn section_at(&self, number: usize) -> Option<&Section>
        ensures { option_copied result ≡ slice_get (sections_of (Some self.now)) number }
    {
        match &self.kept {
            Kept::Own { text, .. } => sections_of(text).get(number),
            Kept::Outlined { file, built } => {
                shown_at(outlined_sections(file), built.as_slice(), number)
            }
        }
    }

    /// Which of the sections is the map of a name, or without one the default map of a kind.
    pub(crate) fn map_of(&self, kind: Kind, name: Option<&[u8]>) -> Option<usize>
        ensures { result ≡ map_of (sections_of (Some self.now)) kind
            (option_map (λ n. n.now) name.entry) }
    {
        match &self.kept {
            Kept::Own { maps, .. } => maps.number(kind, name),
            Kept::Outlined { file, .. } => file.map_of(kind, name),
        }
    }
}
