//! What is said of a source that is refused.
use crate::source::HeldSource;
use crate::words::Words;
use kx_explain::{Text, Texts};
use kx_failure::Shown;
use kx_lex::Fault;
use std::alloc::{AllocError, Global};
use std::fmt::Write;

/// Whether something isn't there.
fn is_missing(fault: Fault) -> bool {
    matches!(fault, Fault::FileMissing(_) | Fault::MapMissing(_))
}

impl HeldSource {
    /// Its files as texts.
    fn files_as_texts(&self, alloc: Global) -> Result<Vec<Text<'_>>, AllocError> {
        let mut texts = Vec::new(alloc);
        for file in self.known().found.as_slice() {
            let name = file.name.as_str();
            let path = file.path.as_str();
            let bytes = self.files().bytes_at(texts.len());
            texts.push(Text { name, path, bytes })?;
        }
        Ok(texts)
    }

    /// The fault as the program shows it.
    fn shown(&self, alloc: Global, fault: Fault) -> Result<String, AllocError> {
        let files = self.files_as_texts(alloc)?;
        let path = match self.known().origin {
            Some(_) => "<names>",
            None => "<source>",
        };
        let texts = Texts {
            source: Text {
                name: "",
                path,
                bytes: self.text(),
            },
            files: files.as_slice(),
        };
        let shown = Shown::of(alloc, fault, texts);
        format!(in alloc; "{shown}")
    }

    /// Adds the folders in which a file was looked for that isn't there.
    fn add_folders(&self, words: &mut String, fault: Fault) -> Result<(), AllocError> {
        if matches!(fault, Fault::FileMissing(_)) {
            for folder in self.known().folders.as_slice() {
                writeln!(words, "looked for in {folder}")?;
            }
        }
        Ok(())
    }

    /// Adds the names that led to a fault, and of a file or map that isn't there those that aren't listed.
    fn add_names(&self, words: &mut String, fault: Fault) -> Result<(), AllocError> {
        let Some(origin) = &self.known().origin else {
            return Ok(());
        };
        let asked = origin.words.as_str();
        writeln!(words, "asked for by {asked}")?;
        if is_missing(fault) {
            words.push_str(origin.hints.as_str())?;
        }
        Ok(())
    }

    /// What is said of its fault, as the program shows it: where it stands, what is wrong, the line with a mark, and the includes and
    /// the names that led there.
    ///
    /// # Errors
    /// Where a growth is refused.
    pub fn said(&self, alloc: Global, fault: Fault) -> Result<Words, AllocError> {
        let mut words = self.shown(alloc, fault)?;
        self.add_folders(&mut words, fault)?;
        self.add_names(&mut words, fault)?;
        Ok(Words::of(words))
    }
}
