//! Likely slips in types.
use crate::kind::WarningKind;
use crate::levels::unreached_level;
use crate::masks::{EntryMask, TypeWords, bit_of, index_of, is_of, value_of};
use crate::statements::Reader;
use kx_explain::quoted;
use kx_lex::{At, Name};
use kx_parse::Field;
use std::alloc::AllocError;

/// So many entries of a type are looked at.
const MOST_ENTRIES: usize = 64;

/// The masks that the entries of a type have.
#[derive(Clone, Copy)]
struct Masks {
    masks: [u32; MOST_ENTRIES],
    count: usize,
}

impl Masks {
    fn none() -> Masks {
        Masks {
            masks: [0; MOST_ENTRIES],
            count: 0,
        }
    }

    fn has(&self, mask: u32) -> bool {
        self.masks
            .iter()
            .take(self.count)
            .any(|known| *known == mask)
    }

    fn add(&mut self, mask: u32) {
        if let Some(place) = self.masks.get_mut(self.count) {
            *place = mask;
            self.count = self.count.saturating_add(1);
        }
    }
}

/// The field that says a type's modifiers: the last.
fn modifiers_field(fields: &[Field]) -> Option<&Field> {
    fields
        .iter()
        .filter(|field| is_of(field, b"modifiers") || is_of(field, b"mods"))
        .last()
}

/// The modifiers of a type; nothing, where its words don't tell.
fn words_of(fields: &[Field]) -> Option<TypeWords<'_>> {
    match modifiers_field(fields) {
        Some(field) => TypeWords::of(value_of(field)?),
        None => Some(TypeWords::none()),
    }
}

/// The mask of a field that is one of the entries of a type.
fn entry_mask<'t>(words: &TypeWords<'t>, field: &'t Field, word: &[u8]) -> Option<EntryMask<'t>> {
    if !is_of(field, word) {
        return None;
    }
    Some(words.mask_of(index_of(field)?))
}

impl Reader<'_, '_, '_> {
    /// Notes that an entry has a modifier that its type doesn't have.
    fn note_beyond(&mut self, at: At, word: &[u8]) -> Result<(), AllocError> {
        let word = quoted(word);
        let message = format_args!(
            "{word} is none of the type's modifiers, so that this entry counts without it"
        );
        self.warnings.add(WarningKind::Entries, at, message)
    }

    /// Notes what is wrong with a field that maps a mask to a level; adds the mask.
    fn note_map_field(
        &mut self,
        file: u32,
        words: &TypeWords,
        field: &Field,
        maps: &mut Masks,
    ) -> Result<(), AllocError> {
        let span = field.span;
        let at = At { file, span };
        match entry_mask(words, field, b"map") {
            Some(EntryMask::Beyond(mask, word)) => {
                maps.add(mask);
                self.note_beyond(at, word)
            }
            Some(EntryMask::Of(mask)) if maps.has(mask) => self.warnings.add(
                WarningKind::Repeated,
                at,
                "these modifiers are mapped again in this type: the last level counts",
            ),
            Some(EntryMask::Of(mask)) => {
                maps.add(mask);
                Ok(())
            }
            Some(EntryMask::Unknown) | None => Ok(()),
        }
    }

    /// Notes what is wrong with a field that says what an entry preserves; adds the mask.
    fn note_preserve_field(
        &mut self,
        file: u32,
        words: &TypeWords,
        field: &Field,
        maps: &mut Masks,
    ) -> Result<(), AllocError> {
        let span = field.span;
        let at = At { file, span };
        match entry_mask(words, field, b"preserve") {
            Some(EntryMask::Beyond(_, word)) => self.note_beyond(at, word),
            Some(EntryMask::Of(mask)) if !maps.has(mask) => {
                maps.add(mask);
                self.warnings.add(
                    WarningKind::Entries,
                    at,
                    "no map[..] has these modifiers, so that they choose level 1",
                )
            }
            _ => Ok(()),
        }
    }

    /// Notes the modifiers of a type that no entry has.
    fn note_idle_words(
        &mut self,
        file: u32,
        field: &Field,
        words: &TypeWords,
        maps: &Masks,
    ) -> Result<(), AllocError> {
        let used = maps
            .masks
            .iter()
            .take(maps.count)
            .fold(0u32, |all, mask| all | mask);
        for (place, word) in words.as_slice().iter().enumerate() {
            if used & bit_of(place) == 0 {
                let span = field.span;
                let word = quoted(word);
                let message = format_args!(
                    "no map[..] of this type has {word}, so that it chooses no level but the first"
                );
                self.warnings
                    .add(WarningKind::Entries, At { file, span }, message)?;
            }
        }
        Ok(())
    }

    fn note_entries(
        &mut self,
        file: u32,
        words: &TypeWords,
        fields: &[Field],
    ) -> Result<(), AllocError> {
        let mut maps = Masks::none();
        for field in fields {
            self.note_map_field(file, words, field, &mut maps)?;
        }
        for field in fields {
            self.note_preserve_field(file, words, field, &mut maps)?;
        }
        match modifiers_field(fields) {
            Some(field) => self.note_idle_words(file, field, words, &maps),
            None => Ok(()),
        }
    }

    /// Notes likely slips in the fields of a type. One of many entries, or of words that don't tell, has none.
    pub(crate) fn note_type_fields(
        &mut self,
        file: u32,
        fields: &[Field],
    ) -> Result<(), AllocError> {
        if fields.len() > MOST_ENTRIES {
            return Ok(());
        }
        match words_of(fields) {
            Some(words) => self.note_entries(file, &words, fields),
            None => Ok(()),
        }
    }

    /// Notes that no modifiers lead to a level of a type.
    pub(crate) fn note_type_levels(&mut self, file: u32, name: &Name) -> Result<(), AllocError> {
        let read = self.read;
        let word = name.bytes.as_slice();
        let Some(level) = read.types.named(word).and_then(unreached_level) else {
            return Ok(());
        };
        let span = name.span;
        let word = quoted(word);
        let message = format_args!("no map[..] of the type {word} leads to level {level}");
        self.warnings
            .add(WarningKind::Entries, At { file, span }, message)
    }

    /// Notes a type that is written again in its map.
    pub(crate) fn note_type_again(
        &mut self,
        file: u32,
        name: &Name,
        is_meant: bool,
    ) -> Result<(), AllocError> {
        let word = name.bytes.as_slice();
        let Some(place) = self.read.types.index_of(word) else {
            return Ok(());
        };
        if !self.slips.meets_type(place, self.maps) || is_meant {
            return Ok(());
        }
        let span = name.span;
        let word = quoted(word);
        let message = format_args!(
            "the type {word} is written again in this map; if that is meant, write 'override type'"
        );
        self.warnings
            .add(WarningKind::Repeated, At { file, span }, message)
    }
}
