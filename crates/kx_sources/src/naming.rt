//! The source that rules make of names.
use crate::finding::unusable;
use crate::source::Origin;
use crate::unread::Unread;
use kx_names::{
    Asked, Environment, Made, Making, NamesFault, Written, hints_of, read_environment, warnings_of,
};
use kx_reach::Folder;
use std::alloc::{AllocError, Global};
use std::env::Env;
use std::fmt::Write;
use std::rt::Files;

/// The names by which a source is asked for.
#[derive(Drop)]
pub struct Names {
    pub rules: Option<String>,
    pub model: Option<String>,
    pub layouts: Option<String>,
    pub variants: Option<String>,
    pub options: Option<String>,
    pub asks_environment: bool,
}

fn text_of(word: &Option<String>) -> Option<&str> {
    match word {
        Some(word) => Some(word.as_str()),
        None => None,
    }
}

impl Names {
    fn written(&self) -> Written<'_> {
        Written {
            rules: text_of(&self.rules),
            model: text_of(&self.model),
            layouts: text_of(&self.layouts),
            variants: text_of(&self.variants),
            options: text_of(&self.options),
        }
    }

    /// The environment, which gives names where it is asked.
    ///
    /// # Errors
    /// Where a growth is refused.
    pub(crate) fn environment(
        &self,
        rt: &(impl Env + Files + AllocGlobal),
    ) -> Result<Environment, Unread> {
        let found = read_environment(rt)?;
        Ok(match self.asks_environment {
            true => found,
            false => found.without_names(),
        })
    }
}

/// Lines that say that no folder has a file, and which were looked in.
fn missing_words(alloc: Global, path: &str, folders: &[String]) -> Result<String, AllocError> {
    let mut words = format!(in alloc; "error: no folder has '{path}'\n")?;
    for folder in folders {
        writeln!(words, "looked for in {folder}")?;
    }
    Ok(words)
}

/// Why names have no source.
fn unread(rt: &(impl Files + AllocGlobal), fault: NamesFault, folders: &[String]) -> Unread {
    match fault {
        NamesFault::Memory => Unread::Memory,
        NamesFault::File(path) => unusable(rt, path),
        NamesFault::Rules(_, message) => Unread::rules(message),
        NamesFault::Missing(path) => match missing_words(rt.alloc(), path.as_str(), folders) {
            Ok(words) => Unread::rules(words),
            Err(_) => Unread::Memory,
        },
    }
}

/// How far the source of names is made.
#[derive(Drop)]
pub(crate) struct Naming {
    environment: Environment,
    making: Making,
    pub(crate) made: Option<Made>,
    /// The lines for names that no rule takes.
    pub(crate) words: Option<String>,
}

impl Naming {
    /// Nothing is made yet.
    pub(crate) fn of(environment: Environment) -> Naming {
        Naming {
            environment,
            making: Making::new(),
            made: None,
            words: None,
        }
    }

    fn asked<'a>(&'a self, names: &'a Names) -> Asked<'a> {
        Asked::of(names.written(), &self.environment)
    }

    /// The source that was made; nothing where none was.
    pub(crate) fn text(&self) -> &[u8] {
        match &self.made {
            Some(made) => made.source.as_slice(),
            None => &[],
        }
    }

    /// The source of names, and what was passed over for it.
    pub(crate) fn make(
        &mut self,
        rt: &(impl Files + AllocGlobal),
        names: &Names,
        folders: &[Folder],
        paths: &[String],
    ) -> Result<Made, Unread> {
        let asked = Asked::of(names.written(), &self.environment);
        match self.making.go_on(rt, &asked, folders) {
            Ok(made) => Ok(made),
            Err(fault) => Err(unread(rt, fault, paths)),
        }
    }

    /// The lines for names that no rule takes.
    pub(crate) fn warnings(
        &self,
        rt: &(impl Files + AllocGlobal),
        names: &Names,
        folders: &[Folder],
    ) -> Result<String, Unread> {
        match &self.made {
            Some(made) => Ok(warnings_of(rt, folders, &self.asked(names), &made.passed)?),
            None => Ok(String::new(rt.alloc())),
        }
    }

    /// Lines for the layouts and variants that aren't listed.
    pub(crate) fn hints(
        &self,
        rt: &(impl Files + AllocGlobal),
        names: &Names,
        folders: &[Folder],
    ) -> Result<String, Unread> {
        Ok(hints_of(rt, folders, &self.asked(names))?)
    }

    /// The names of which the source is made, with the hints.
    pub(crate) fn origin(
        &self,
        alloc: Global,
        names: &Names,
        hints: String,
    ) -> Result<Origin, AllocError> {
        let asked = self.asked(names);
        let words = format!(in alloc; "{asked}")?;
        Ok(Origin { words, hints })
    }
}
