//! The source of names.
use crate::answer::{Rules, answer_for, source_for};
use crate::asked::Asked;
use crate::fault::NamesFault;
use crate::files::read_next;
use crate::including::Search;
use kx_reach::Folder;
use kx_rules::Passed;
use std::alloc::Global;
use std::rt::Files;

/// The source that names make, and what was passed over for it.
#[derive(Drop)]
pub struct Made {
    pub source: Vec<u8>,
    pub passed: Passed,
}

/// Rules that were found, with what they include.
#[derive(Drop)]
struct FoundRules {
    bytes: Vec<u8>,
    included: Search,
}

/// How far the source of names is made. Where a file can't be read it stays as it was, and may go on.
#[derive(Drop)]
pub struct Making {
    /// So many folders don't have the rules.
    tried: usize,
    rules: Option<FoundRules>,
}

/// The source that rules make of names, and what was passed over for it.
fn finish(
    alloc: Global,
    path: &str,
    found: &FoundRules,
    asked: &Asked,
) -> Result<Made, NamesFault> {
    let rules = Rules {
        path,
        bytes: found.bytes.as_slice(),
    };
    let answer = answer_for(alloc, rules, found.included.texts(), asked)?;
    let source = source_for(alloc, rules, &answer)?;
    let passed = answer.passed;
    Ok(Made { source, passed })
}

impl Making {
    /// Nothing was looked for yet.
    pub fn new() -> Making {
        Making {
            tried: 0,
            rules: None,
        }
    }

    /// Finds the rules of a path in the first of the folders that has them.
    fn find_rules(
        &mut self,
        rt: &(impl Files + AllocGlobal),
        folders: &[Folder],
        path: &str,
    ) -> Result<FoundRules, NamesFault> {
        if let Some(found) = self.rules.take() {
            return Ok(found);
        }
        let bytes = read_next(rt, folders, path, &mut self.tried)?;
        let included = Search::of(rt.alloc(), bytes.as_slice())?;
        Ok(FoundRules { bytes, included })
    }

    /// Goes on to the end, for the same names and over the same folders.
    ///
    /// # Errors
    /// Where there are no rules of that name, they can't be read or are refused, or no memory is left.
    pub fn go_on(
        &mut self,
        rt: &(impl Files + AllocGlobal),
        asked: &Asked,
        folders: &[Folder],
    ) -> Result<Made, NamesFault> {
        let name = asked.rules;
        let path = format!(in rt.alloc(); "rules/{name}")?;
        let mut found = self.find_rules(rt, folders, path.as_str())?;
        let outcome = found.included.go_on(rt, asked);
        let found = self.rules.insert(found);
        outcome?;
        finish(rt.alloc(), path.as_str(), found, asked)
    }
}

/// The source that the rules of names make: those of the first of the folders that has them.
///
/// # Errors
/// Where there are no rules of that name, they can't be read or are refused, or no memory is left.
pub fn make_source(
    rt: &(impl Files + AllocGlobal),
    asked: &Asked,
    folders: &[Folder],
) -> Result<Made, NamesFault> {
    Making::new().go_on(rt, asked, folders)
}
