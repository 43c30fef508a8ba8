//! Which maps of the files the includes of a source reach.
ghost use Rattle.std.specs.Prelude.{◌≡◌, true, IfOk};
ghost use Rattle.std.specs.List.{list_all};
ghost use Rattle.kx_include.specs.Held.{Flags, IsAll, IsClosed, IsClosedAt, IsClosedIn, closed_item, closed_text, flags_of, is_wanted};

use crate::place::Place;
use crate::sources::Library;
use kx_parse::{Item, Kind, include_parts};
use std::alloc::{AllocError, Global};
use std::marker::Model;

/// Of each text which of its sections are wanted.
#[derive(Drop)]
pub(crate) struct Wanted {
    texts: Vec<Vec<bool>>,
}

impl Model for Wanted {
    ghost use Rattle.std.specs.Prelude.{map};
    ghost use Rattle.kx_include.specs.Held.{Flags};

    ghost Value = { Flags };

    ghost view = { λ w. map (λ t. t.items) w.texts.items };
}

impl Wanted {
    ghost use Rattle.std.specs.Prelude.{◌≡◌, true, IfOk};
    ghost use Rattle.kx_include.specs.Held.{IsAll, flags_of, is_wanted};

    /// None of the files' sections, and all of the source's.
    fn none(alloc: Global, library: &Library) -> Result<Wanted, AllocError> {
        let mut texts = Vec::with_capacity(alloc, library.len())?;
        'texts: for file in 0..library.len() {
            let count = library.section_count(file);
            texts.push(vec![in alloc; file == 0; count]?)?;
        }
        Ok(Wanted { texts })
    }

    /// All sections.
    fn all(alloc: Global, library: &Library) -> Result<Wanted, AllocError>
        ensures { IfOk result (λ wanted. IsAll library.now wanted) }
    {
        let mut texts = Vec::with_capacity(alloc, library.len())?;
        'texts: for file in 0..library.len() {
            texts.push(vec![in alloc; true; library.section_count(file)]?)?;
        }
        Ok(Wanted { texts })
    }

    /// The flags of a text's sections.
    pub(crate) fn of_text(&self, file: usize) -> &[bool]
        ensures { result.now ≡ flags_of self.now file }
    {
        match self.texts.get(file) {
            Some(flags) => flags.as_slice(),
            None => &[],
        }
    }

    /// Whether the section at a place is wanted.
    fn has(&self, place: Place) -> bool
        ensures { result ≡ is_wanted self.now place }
    {
        match self.of_text(place.file as usize).get(place.section) {
            Some(flag) => *flag,
            None => false,
        }
    }

    /// Adds the section at a place.
    fn add(&mut self, place: Place) {
        if let Some(flags) = self.texts.get_mut(place.file as usize)
            && let Some(flag) = flags.get_mut(place.section)
        {
            *flag = true;
        }
    }
}

impl<'a> Library<'a> {
    ghost use Rattle.std.specs.Prelude.{◌≡◌, true, IfOk};
    ghost use Rattle.std.specs.List.{list_all};
    ghost use Rattle.kx_include.specs.Held.{IsClosed, IsClosedAt, IsClosedIn, closed_item, closed_text};

    /// Of which kind the section at a place is.
    fn kind_at(&self, place: Place) -> Option<Kind> {
        self.section_at(place).map(|section| section.kind)
    }

    /// Adds the maps that the text of an include names, where they aren't wanted yet.
    fn reach(
        &self,
        alloc: Global,
        kind: Kind,
        text: &[u8],
        wanted: &mut Wanted,
        reached: &mut Vec<Place>,
    ) -> Result<(), AllocError> {
        let Some(parts) = include_parts(alloc, text)? else {
            return Ok(());
        };
        'parts: for part in parts.as_slice() {
            if let Some(place) = self.place_of(alloc, kind, part)?
                && !wanted.has(place)
            {
                wanted.add(place);
                reached.push(place)?;
            }
        }
        Ok(())
    }

    /// The same of the includes of a section.
    fn reach_from(
        &self,
        alloc: Global,
        place: Place,
        wanted: &mut Wanted,
        reached: &mut Vec<Place>,
    ) -> Result<(), AllocError> {
        let Some(kind) = self.kind_at(place) else {
            return Ok(());
        };
        'items: for item in self.items_in(place) {
            if let Item::Include { text, .. } = item {
                self.reach(alloc, kind, text.bytes.as_slice(), wanted, reached)?;
            }
        }
        Ok(())
    }

    /// The sections of the source, and those of the files that their includes lead to.
    fn reached(&self, alloc: Global) -> Result<Wanted, AllocError> {
        let mut wanted = Wanted::none(alloc, self)?;
        let mut reached = Vec::new(alloc);
        let mut count: usize = 0;
        'texts: for file in 0..self.len() {
            count = count.saturating_add(self.section_count(file));
        }
        'sections: for section in 0..self.section_count(0) {
            reached.push(Place { file: 0, section })?;
        }
        'places: for number in 0..count {
            if let Some(place) = reached.get(number) {
                let place = *place;
                self.reach_from(alloc, place, &mut wanted, &mut reached)?;
            }
        }
        Ok(wanted)
    }

    /// Whether each map that an include's text names is wanted.
    fn is_closed_text(
        &self,
        alloc: Global,
        kind: Kind,
        text: &[u8],
        wanted: &Wanted,
    ) -> Result<bool, AllocError>
        ensures { IfOk result (λ closed. closed ≡ closed_text self.now wanted.now kind text.now) }
    {
        let Some(parts) = include_parts(alloc, text)? else {
            return Ok(true);
        };
        'parts: for part in parts.as_slice() {
            if let Some(place) = self.place_of(alloc, kind, part)?
                && !wanted.has(place)
            {
                return Ok(false);
            }
        }
        Ok(true)
    }

    /// Whether each map that the includes among items name is wanted.
    fn is_closed_at(
        &self,
        alloc: Global,
        kind: Kind,
        items: &[Item],
        wanted: &Wanted,
    ) -> Result<bool, AllocError>
        ensures { IfOk result (λ closed.
            closed ≡ list_all (closed_item self.now wanted.now kind) items.now) }
    {
        'items: for item in items {
            if let Item::Include { text, .. } = item
                && !self.is_closed_text(alloc, kind, text.bytes.as_slice(), wanted)?
            {
                return Ok(false);
            }
        }
        Ok(true)
    }

    /// Whether the section at a place is wanted and its includes name none that isn't, or it isn't wanted and is none of the
    /// source's.
    fn is_closed_section(
        &self,
        alloc: Global,
        place: Place,
        wanted: &Wanted,
    ) -> Result<bool, AllocError>
        ensures { IfOk result (λ closed. closed ≡ true
            → IsClosedAt self.now wanted.now place.file place.section) }
    {
        if !wanted.has(place) {
            return Ok(place.file != 0);
        }
        match self.section_at(place) {
            Some(found) => self.is_closed_at(alloc, found.kind, found.items.as_slice(), wanted),
            None => Ok(true),
        }
    }

    /// Whether the includes of the sections of a text that are wanted name none that isn't.
    fn is_closed_in(&self, alloc: Global, file: u32, wanted: &Wanted) -> Result<bool, AllocError>
        ensures { IfOk result (λ closed. closed ≡ true → IsClosedIn self.now wanted.now file) }
    {
        'sections: for section in 0..self.section_count(file as usize) {
            if !self.is_closed_section(alloc, Place { file, section }, wanted)? {
                return Ok(false);
            }
        }
        Ok(true)
    }

    /// Whether all of the source's sections are wanted, and the includes of those that are wanted name none that isn't.
    fn is_closed(&self, alloc: Global, wanted: &Wanted) -> Result<bool, AllocError>
        ensures { IfOk result (λ closed. closed ≡ true → IsClosed self.now wanted.now) }
    {
        'texts: for file in 0..self.len() {
            if !self.is_closed_in(alloc, file as u32, wanted)? {
                return Ok(false);
            }
        }
        Ok(true)
    }

    /// The sections whose statements are wanted: those of the source, and those that includes reach.
    ///
    /// # Errors
    /// Where a growth is refused.
    pub(crate) fn wanted(&self, alloc: Global) -> Result<Wanted, AllocError>
        ensures { IfOk result (λ wanted. IsClosed self.now wanted) }
    {
        let reached = self.reached(alloc)?;
        if self.is_closed(alloc, &reached)? {
            return Ok(reached);
        }
        Wanted::all(alloc, self)
    }
}
