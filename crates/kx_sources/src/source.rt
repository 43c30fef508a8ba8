//! A source with its files.
use kx_include::Files;
use kx_reach::Found;
use std::marker::Model;

/// The names that a source was made of.
#[derive(Drop)]
pub(crate) struct Origin {
    /// The names as a person reads them.
    pub(crate) words: String,
    /// Lines for those that aren't listed, where a file or a map isn't there.
    pub(crate) hints: String,
}

/// What is known of a source and its files beside their bytes.
#[derive(Drop)]
pub(crate) struct Known {
    /// The files in their order; their bytes stand elsewhere.
    pub(crate) found: Vec<Found>,
    /// The folders in which files were looked for.
    pub(crate) folders: Vec<String>,
    /// The names that it was made of, if it was.
    pub(crate) origin: Option<Origin>,
}

/// A source with the files that its includes reach; seen as their bytes.
#[derive(Drop)]
pub struct HeldSource {
    text: Vec<u8>,
    files: Files,
    known: Box<Known>,
}

impl Model for HeldSource {
    ghost use Rattle.kx_sources.specs.Given.{Given};

    ghost Value = { Given };

    ghost view = { λ s. record { text = s.text.items; files = s.files } };
}

impl HeldSource {
    ghost use Rattle.std.specs.Prelude.{◌≡◌};

    pub(crate) fn of(text: Vec<u8>, files: Files, known: Box<Known>) -> HeldSource
        ensures { result ≡ record { text = text.items; files = files } }
    {
        HeldSource { text, files, known }
    }

    /// Its text.
    pub fn text(&self) -> &[u8]
        ensures { result.now ≡ self.now.text }
    {
        self.text.as_slice()
    }

    /// The files that its includes reach.
    pub fn files(&self) -> &Files
        ensures { result.now ≡ self.now.files }
    {
        &self.files
    }

    pub(crate) fn known(&self) -> &Known {
        &self.known
    }
}
