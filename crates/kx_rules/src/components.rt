//! The components.
ghost use Rattle.std.specs.Prelude.{◌≡◌, OnOk, []};
ghost use Rattle.std.specs.Option.{option_map};
ghost use Rattle.kx_rules.specs.Expansions.{expanded, joined};
ghost use Rattle.kx_rules.specs.Rules.{is_some_empty, with_text, with_texts};

use crate::columns::Section;
use crate::expansion::{expanded, join};
use crate::names::Names;
use kx_rule_lines::Piece;
use std::alloc::{AllocError, Global};
use std::marker::Model;

/// The texts of the includes that make up a keymap.
#[derive(Drop)]
pub struct Components {
    pub keycodes: Vec<u8>,
    pub types: Vec<u8>,
    pub compat: Vec<u8>,
    pub symbols: Vec<u8>,
}

impl Model for Components {
    ghost use Rattle.kx_rules.specs.Rules.{Components};

    ghost Value = { Components };

    ghost view = { λ c. record { keycodes = c.keycodes.items; types = c.types.items; compat = c.compat.items; symbols = c.symbols.items } };
}

impl Components {
    pub(crate) fn new(alloc: Global) -> Components
        ensures { result ≡ record { keycodes = []; types = []; compat = []; symbols = [] } }
    {
        Components {
            keycodes: Vec::new(alloc),
            types: Vec::new(alloc),
            compat: Vec::new(alloc),
            symbols: Vec::new(alloc),
        }
    }

    /// Whether one of them has no text.
    pub(crate) fn is_some_empty(&self) -> bool
        ensures { result ≡ is_some_empty self.now }
    {
        self.keycodes.is_empty()
            || self.types.is_empty()
            || self.compat.is_empty()
            || self.symbols.is_empty()
    }

    fn add(&mut self, section: Section, text: Option<&[u8]>) -> Result<(), AllocError>
        ensures { OnOk result (self.new
            ≡ with_text section (option_map (λ t. t.now) text.entry) self.old) }
    {
        let Some(text) = text else {
            return Ok(());
        };
        match section {
            Section::Keycodes => join(&mut self.keycodes, text),
            Section::Types => join(&mut self.types, text),
            Section::Compat => join(&mut self.compat, text),
            Section::Symbols => join(&mut self.symbols, text),
            Section::Geometry => Ok(()),
        }
    }

    /// Adds what is written for a value; whether it isn't faulty.
    fn add_value(
        &mut self,
        alloc: Global,
        names: &Names,
        section: Section,
        value: &[u8],
    ) -> Result<bool, AllocError>
        ensures { OnOk result (self.new
            ≡ with_text section (expanded names.now value.now 0) self.old) }
    {
        match expanded(alloc, names, value)? {
            None => {
                self.add(section, None)?;
                Ok(false)
            }
            Some(text) => {
                self.add(section, Some(text.as_slice()))?;
                Ok(true)
            }
        }
    }

    /// Adds what is written for each value of a rule; whether none is faulty. There are five sections, so it calls itself
    /// five times at most.
    pub(crate) fn add_values(
        &mut self,
        alloc: Global,
        names: &Names,
        sections: &[Section],
        values: &[Piece],
    ) -> Result<bool, AllocError>
        ensures { OnOk result (self.new ≡ with_texts names.now sections.now values.now self.old) }
    {
        match sections {
            [] => Ok(true),
            [section, sections @ ..] => match values {
                [] => Ok(true),
                [value, values @ ..] => {
                    let is_used = self.add_value(alloc, names, *section, value.text())?;
                    let are_used = self.add_values(alloc, names, sections, values)?;
                    Ok(is_used && are_used)
                }
            },
        }
    }
}
