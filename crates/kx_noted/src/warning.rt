//! What is said of what is passed over.
use crate::kind::{Counted, KIND_COUNT, KINDS, WarningKind};
use kx_explain::{near_action, quoted};
use kx_lex::At;
use kx_ordered::{Ordered, OwnedName};
use std::alloc::{AllocError, Global};
use std::{fmt, mem};

/// So many warnings of a kind and a text are said.
const MOST_SHOWN: usize = 20;

/// From so many of a kind and a text on, the first few are enough.
const MANY: usize = 1000;

/// So many are enough.
const FEW: usize = 3;

/// What is passed over at a place.
#[derive(Drop)]
pub struct Warning {
    pub at: At,
    pub message: String,
    kind: WarningKind,
    /// How many of its kind were met in its text before it.
    before: usize,
}

/// Where an action without effect stands first in a text, and in how many of its places.
#[derive(Clone, Copy)]
struct Idle {
    first: At,
    places: usize,
}

/// How much is said of a text.
#[derive(Clone, Copy, PartialEq, Eq)]
enum Depth {
    /// The counts of what a compiler notes.
    Counts,
    /// The first places of each kind.
    Places,
    /// All places.
    All,
}

/// What is passed over in a text.
#[derive(Drop)]
pub struct TextWarnings {
    is_installed: bool,
    depth: Depth,
    /// By kind.
    counts: [usize; KIND_COUNT],
    listed: Vec<Warning>,
    idle: Ordered<OwnedName, Idle>,
}

impl TextWarnings {
    fn new(alloc: Global, is_installed: bool, is_whole: bool) -> TextWarnings {
        let depth = match (is_whole, is_installed) {
            (true, _) => Depth::All,
            (false, true) => Depth::Counts,
            (false, false) => Depth::Places,
        };
        TextWarnings {
            is_installed,
            depth,
            counts: [0; KIND_COUNT],
            listed: Vec::new(alloc),
            idle: Ordered::new(alloc),
        }
    }

    fn count(&self, kind: WarningKind) -> usize {
        self.counts.get(kind.place()).copied().unwrap_or(0)
    }

    fn count_one(&mut self, kind: WarningKind) {
        if let Some(count) = self.counts.get_mut(kind.place()) {
            *count = count.saturating_add(1);
        }
    }

    /// Whether a further warning of a kind is kept.
    fn has_room(&self, kind: WarningKind) -> bool {
        match self.depth {
            Depth::Counts => false,
            Depth::Places => self.count(kind) < MOST_SHOWN,
            Depth::All => true,
        }
    }

    fn add(
        &mut self,
        alloc: Global,
        kind: WarningKind,
        at: At,
        message: impl fmt::Display + Drop,
    ) -> Result<(), AllocError> {
        if self.has_room(kind) {
            let message = format!(in alloc; "{message}")?;
            let before = self.count(kind);
            self.listed.push(Warning {
                at,
                message,
                kind,
                before,
            })?;
        }
        self.count_one(kind);
        Ok(())
    }

    fn add_idle(&mut self, alloc: Global, at: At, word: &[u8]) -> Result<(), AllocError> {
        if self.depth == Depth::Counts {
            self.count_one(WarningKind::Actions);
            return Ok(());
        }
        match self.idle.place_of_owned_name(word) {
            Some(place) => {
                let idle = self.idle.value_mut(place);
                idle.places = idle.places.saturating_add(1);
            }
            None => {
                let idle = Idle {
                    first: at,
                    places: 1,
                };
                self.idle.insert(OwnedName::of(alloc, word)?, idle)?;
            }
        }
        Ok(())
    }

    /// Adds a warning for each name of an action without effect, with the number of its places.
    fn add_actions(&mut self, alloc: Global) -> Result<(), AllocError> {
        let idle = mem::replace(&mut self.idle, Ordered::new(alloc));
        for (word, idle) in idle.as_slice() {
            let word = word.as_slice();
            let name = quoted(word);
            let places = idle.places;
            let noun = if places == 1 { "place" } else { "places" };
            match near_action(word).map(quoted) {
                Some(near) => {
                    let message = format_args!(
                        "the action {name} has no effect ({places} {noun}); {near} is one that has"
                    );
                    self.add(alloc, WarningKind::Actions, idle.first, message)?;
                }
                None => {
                    let message = format_args!("the action {name} has no effect ({places} {noun})");
                    self.add(alloc, WarningKind::Actions, idle.first, message)?;
                }
            }
        }
        Ok(())
    }

    /// Puts the warnings in the order of the text.
    fn finish(&mut self, alloc: Global) -> Result<(), AllocError> {
        self.add_actions(alloc)?;
        self.listed.sort_by_key(|warning| warning.at.span.start)
    }

    /// Whether the text is installed, and not the author's.
    pub fn is_installed(&self) -> bool {
        self.is_installed
    }

    /// Whether its places are left out, and what is noted of it is told on one line.
    pub fn is_counted(&self) -> bool {
        self.depth == Depth::Counts
    }

    /// How many warnings of a kind are shown at their places.
    fn shown_of(&self, kind: WarningKind) -> usize {
        match self.depth {
            Depth::Counts => 0,
            Depth::Places if self.count(kind) >= MANY => FEW,
            Depth::Places => MOST_SHOWN,
            Depth::All => usize::MAX,
        }
    }

    /// The warnings that are shown at their places, in the order of the text.
    pub fn listed(&self) -> &[Warning] {
        self.listed.as_slice()
    }

    /// Whether a warning is shown at its place.
    pub fn shows(&self, warning: &Warning) -> bool {
        warning.before < self.shown_of(warning.kind)
    }

    /// How many of a kind are not shown at their places, if some are to be told. Of what is installed likely slips aren't.
    pub fn rest(&self, kind: WarningKind) -> Option<Counted> {
        let count = self.count(kind).saturating_sub(self.shown_of(kind));
        if count == 0 || self.is_counted() && !kind.is_noted() {
            return None;
        }
        Some(Counted {
            kind,
            count,
            is_rest: !self.is_counted(),
        })
    }

    /// Whether some are told of a kind that aren't shown at their places.
    pub fn has_rest(&self) -> bool {
        KINDS.iter().any(|kind| self.rest(*kind).is_some())
    }
}

/// What is passed over, by text: that of the source, and of the files in their order.
pub struct Warnings {
    alloc: Global,
    texts: Vec<TextWarnings>,
}

impl Drop for Warnings {
    fn drop(self) {
        let Warnings { alloc: _, texts: _ } = self;
    }
}

impl Warnings {
    /// None yet, of a source and so many files.
    pub(crate) fn new(
        alloc: Global,
        is_whole: bool,
        installed: &[bool],
    ) -> Result<Warnings, AllocError> {
        let mut texts = Vec::new(alloc);
        texts.push(TextWarnings::new(alloc, false, is_whole))?;
        for is_installed in installed {
            texts.push(TextWarnings::new(alloc, *is_installed, is_whole))?;
        }
        Ok(Warnings { alloc, texts })
    }

    /// By the numbers of the texts: 0 is the source.
    pub fn texts(&self) -> &[TextWarnings] {
        self.texts.as_slice()
    }

    /// Whether a further warning of a kind in a text is said.
    pub(crate) fn has_room(&self, kind: WarningKind, file: u32) -> bool {
        match self.texts.get(file as usize) {
            Some(text) => text.has_room(kind),
            None => false,
        }
    }

    /// Adds a warning, which is said where there is room.
    pub(crate) fn add(
        &mut self,
        kind: WarningKind,
        at: At,
        message: impl fmt::Display + Drop,
    ) -> Result<(), AllocError> {
        match self.texts.get_mut(at.file as usize) {
            Some(text) => text.add(self.alloc, kind, at, message),
            None => Ok(()),
        }
    }

    /// Adds a place of an action without effect.
    pub(crate) fn add_idle(&mut self, at: At, word: &[u8]) -> Result<(), AllocError> {
        match self.texts.get_mut(at.file as usize) {
            Some(text) => text.add_idle(self.alloc, at, word),
            None => Ok(()),
        }
    }

    /// Puts the warnings of each text in its order.
    pub(crate) fn finish(&mut self) -> Result<(), AllocError> {
        for text in self.texts.iter_mut() {
            text.finish(self.alloc)?;
        }
        Ok(())
    }
}
