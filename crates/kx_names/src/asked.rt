//! The names that a keymap is asked for by.
use crate::environment::{Environment, Variable};
use std::fmt;
use std::fmt::{Formatter, Write};

/// The names as they are written, as far as they are.
#[derive(Clone, Copy)]
pub struct Written<'a> {
    pub rules: Option<&'a str>,
    pub model: Option<&'a str>,
    pub layouts: Option<&'a str>,
    pub variants: Option<&'a str>,
    pub options: Option<&'a str>,
}

/// The names of a keymap, and the folders that rules files name by a letter.
#[derive(Clone, Copy)]
pub struct Asked<'a> {
    pub rules: &'a str,
    pub model: &'a str,
    /// Layouts, which commas part; so are variants and options.
    pub layouts: &'a str,
    pub variants: &'a str,
    pub options: &'a str,
    /// The user's own folder.
    pub home: Option<&'a str>,
    /// The folder of what is installed.
    pub root: &'a str,
    /// The folder of what a machine's owner adds.
    pub extra: &'a str,
}

/// What is written, unless it is empty.
fn some_of(written: Option<&str>) -> Option<&str> {
    written.filter(|word| !word.is_empty())
}

/// The layouts with their variants. Those of the environment stand for both, where no layout is written, and its variants only
/// with its layouts.
fn layouts_of<'a>(written: Written<'a>, environment: &'a Environment) -> (&'a str, &'a str) {
    if let Some(layouts) = some_of(written.layouts) {
        return (layouts, written.variants.unwrap_or(""));
    }
    match environment.value(Variable::Layout) {
        Some(layouts) => (layouts, environment.value(Variable::Variant).unwrap_or("")),
        None => ("us", ""),
    }
}

/// What is written, or what the environment or the default has in its place.
fn chosen<'a>(
    written: Option<&'a str>,
    environment: &'a Environment,
    variable: Variable,
    default: &'a str,
) -> &'a str {
    match written {
        Some(word) => word,
        None => environment.value(variable).unwrap_or(default),
    }
}

impl<'a> Asked<'a> {
    /// The names that are written, with those of the environment or the defaults for others. Options that are written empty are
    /// none; other names that are written empty aren't written.
    pub fn of(written: Written<'a>, environment: &'a Environment) -> Asked<'a> {
        let (layouts, variants) = layouts_of(written, environment);
        let rules = some_of(written.rules);
        let model = some_of(written.model);
        Asked {
            rules: chosen(rules, environment, Variable::Rules, "evdev"),
            model: chosen(model, environment, Variable::Model, "pc105"),
            layouts,
            variants,
            options: chosen(written.options, environment, Variable::Options, ""),
            home: environment.value(Variable::Home),
            root: environment.root(),
            extra: environment.extra(),
        }
    }
}

/// Writes a word with its name, unless it is empty.
fn write_word<W: Write>(f: &mut Formatter<W>, name: &str, word: &str) -> fmt::Result {
    if word.is_empty() {
        return Ok(());
    }
    write!(f, " {name} {word}")
}

impl fmt::Display for Asked<'_> {
    fn fmt<W: Write>(&self, f: &mut Formatter<W>) -> fmt::Result {
        let rules = self.rules;
        write!(f, "--rules {rules}")?;
        write_word(f, "--model", self.model)?;
        write_word(f, "--layout", self.layouts)?;
        write_word(f, "--variant", self.variants)?;
        write_word(f, "--options", self.options)
    }
}
