//! A source whose files a program in C is asked for, one after another.
ghost use Rattle.std.specs.Prelude.{◌≡◌, IfOk, IfSome};
ghost use Rattle.kx_sources.specs.Begun.{text_begun};

use crate::naming::Names;
use crate::work::{Named, Stop, Work};
use kx_told::Told;
use std::alloc::{AllocError, Global};
use std::marker::Model;

/// What a source is made of.
#[derive(Drop)]
pub enum Start {
    Text(Vec<u8>),
    Names(Names),
}

/// A source that is made, as far as its files were told; seen as its text, where it is made of one.
#[derive(Drop)]
pub struct Gathering {
    start: Start,
    work: Work,
}

impl Model for Gathering {
    ghost use Rattle.std.specs.Prelude.{ℕ, List, Option};
    ghost use Rattle.kx_sources.specs.Begun.{text_begun};

    ghost Value = { Option (List ℕ) };

    ghost view = { λ g. text_begun g.start };
}

impl Gathering {
    /// A source of a text or of names, whose files are looked for in the folders of the paths.
    pub fn of(alloc: Global, told: Told, start: Start, paths: Vec<String>) -> Gathering
        ensures { result ≡ text_begun start }
    {
        let work = Work::of(alloc, told, paths);
        Gathering { start, work }
    }

    /// Tells that there is nothing at a path, or by the system's number why it can't be read.
    ///
    /// # Errors
    /// Where a growth is refused.
    pub fn tell_refused(&mut self, path: &str, number: i32) -> Result<(), AllocError>
        ensures { self.new ≡ self.old }
    {
        self.work.told().tell_refused(path, number)
    }

    /// Tells the folder at a path, with its path without links.
    ///
    /// # Errors
    /// Where a growth is refused.
    pub fn tell_folder(&mut self, path: &str, whole: &str) -> Result<(), AllocError>
        ensures { self.new ≡ self.old }
    {
        self.work.told().tell_folder(path, whole)
    }

    /// Tells the file at a path, with its path without links.
    ///
    /// # Errors
    /// Where a growth is refused.
    pub fn tell_file(&mut self, path: &str, whole: &str, bytes: Vec<u8>) -> Result<(), AllocError>
        ensures { self.new ≡ self.old }
    {
        self.work.told().tell_file(path, whole, bytes)
    }

    /// Makes the source, as far as its files were told.
    ///
    /// # Errors
    /// Where a path is to be told first, or there is no source.
    pub fn step(&mut self) -> Result<Named, Stop>
        ensures same { self.new ≡ self.old }
        ensures text { IfOk result (λ named.
            IfSome self.old (λ text. named.source.text ≡ text)) }
    {
        match &self.start {
            Start::Text(text) => self.work.of_text(text.as_slice()),
            Start::Names(names) => self.work.of_names(names),
        }
    }
}
