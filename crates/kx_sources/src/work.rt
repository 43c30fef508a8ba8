//! How far a source is made of what was told.
ghost use Rattle.std.specs.Prelude.{◌≡◌, IfOk};

use crate::finding::Reaching;
use crate::naming::{Names, Naming};
use crate::source::{HeldSource, Known, Origin};
use crate::unread::Unread;
use crate::words::Words;
use kx_include::Files;
use kx_told::Told;
use std::alloc::{AllocError, Global};

/// A source with its files, and the lines for names that no rule takes.
#[derive(Drop)]
pub struct Named {
    pub source: HeldSource,
    pub words: Words,
}

/// Why there is no source yet.
#[derive(Drop)]
pub enum Stop {
    /// What is at a path is to be told.
    Asks(String),
    /// There will be none.
    Unread(Unread),
}

impl From<AllocError> for Stop {
    fn from(_: AllocError) -> Self {
        Stop::Unread(Unread::Memory)
    }
}

/// What came of something, unless a path is to be told first.
fn settled<T: Drop>(told: &Told, outcome: Result<T, Unread>) -> Result<T, Stop> {
    match told.asked() {
        Some(path) => Err(Stop::Asks(path)),
        None => match outcome {
            Ok(value) => Ok(value),
            Err(unread) => Err(Stop::Unread(unread)),
        },
    }
}

/// How far a source is made of what was told. Where a path is to be told first it stays as it was, and goes on.
#[derive(Drop)]
pub(crate) struct Work {
    alloc: Global,
    told: Told,
    reaching: Reaching,
    naming: Option<Naming>,
}

impl Work {
    /// Nothing is made yet.
    pub(crate) fn of(alloc: Global, told: Told, paths: Vec<String>) -> Work {
        Work {
            alloc,
            told,
            reaching: Reaching::of(alloc, paths),
            naming: None,
        }
    }

    pub(crate) fn told(&mut self) -> &mut Told {
        &mut self.told
    }

    fn open(&mut self) -> Result<(), Stop> {
        let outcome = self.reaching.open(&(&self.told, self.alloc));
        settled(&self.told, outcome)
    }

    fn find(&mut self, text: &[u8]) -> Result<(), Stop> {
        let outcome = self.reaching.find(&(&self.told, self.alloc), text);
        settled(&self.told, outcome)
    }

    /// A source with the files that were found.
    fn held(&mut self, text: Vec<u8>, origin: Option<Origin>) -> Result<HeldSource, AllocError>
        ensures { IfOk result (λ source. source.text ≡ text.items) }
    {
        let (files, found) = self.reaching.found();
        let folders = self.reaching.copied_paths()?;
        let known = Known {
            found,
            folders,
            origin,
        };
        Ok(HeldSource::of(text, files, Box::new(self.alloc, known)?))
    }

    /// The source of a text.
    pub(crate) fn of_text(&mut self, text: &[u8]) -> Result<Named, Stop>
        ensures { IfOk result (λ named. named.source.text ≡ text.now) }
    {
        self.open()?;
        self.find(text)?;
        let source = self.held(Vec::from_slice(self.alloc, text)?, None)?;
        let words = Words::of(String::new(self.alloc));
        Ok(Named { source, words })
    }

    /// How far the source of names is made; the folders of the environment stand for those that aren't given.
    fn naming(&mut self, names: &Names) -> Result<Naming, Stop> {
        if let Some(naming) = self.naming.take() {
            return Ok(naming);
        }
        let outcome = names.environment(&(&self.told, self.alloc));
        let environment = settled(&self.told, outcome)?;
        self.reaching.default_paths(environment.folders())?;
        Ok(Naming::of(environment))
    }

    /// Makes the source that rules make of names, and the lines for names that no rule takes.
    fn make(&self, naming: &mut Naming, names: &Names) -> Result<(), Stop> {
        let rt = (&self.told, self.alloc);
        let folders = self.reaching.folders();
        if naming.made.is_none() {
            let outcome = naming.make(&rt, names, folders, self.reaching.paths());
            naming.made = Some(settled(&self.told, outcome)?);
        }
        if naming.words.is_none() {
            let outcome = naming.warnings(&rt, names, folders);
            naming.words = Some(settled(&self.told, outcome)?);
        }
        Ok(())
    }

    /// Finds the files of the source of names; answers lines for layouts that aren't listed, where something isn't there.
    fn go_on(&mut self, naming: &mut Naming, names: &Names) -> Result<String, Stop> {
        self.open()?;
        self.make(naming, names)?;
        self.find(naming.text())?;
        if !self.reaching.misses() {
            return Ok(String::new(self.alloc));
        }
        let rt = (&self.told, self.alloc);
        let outcome = naming.hints(&rt, names, self.reaching.folders());
        settled(&self.told, outcome)
    }

    /// The source of names that is made.
    fn named(&mut self, naming: Naming, names: &Names, hints: String) -> Result<Named, AllocError> {
        let origin = naming.origin(self.alloc, names, hints)?;
        let Naming { made, words, .. } = naming;
        let text = match made {
            Some(made) => made.source,
            None => Vec::new(self.alloc),
        };
        let source = self.held(text, Some(origin))?;
        let words = Words::of(words.unwrap_or(String::new(self.alloc)));
        Ok(Named { source, words })
    }

    /// The source that rules make of names.
    pub(crate) fn of_names(&mut self, names: &Names) -> Result<Named, Stop> {
        let mut naming = self.naming(names)?;
        match self.go_on(&mut naming, names) {
            Ok(hints) => Ok(self.named(naming, names, hints)?),
            Err(Stop::Asks(path)) => {
                self.naming = Some(naming);
                Err(Stop::Asks(path))
            }
            Err(stop) => Err(stop),
        }
    }
}
