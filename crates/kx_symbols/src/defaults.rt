//! The defaults of a section.
ghost use Rattle.std.specs.Prelude.{◌≡◌, IfOk};
ghost use Rattle.std.specs.Option.{option_map_or};
ghost use Rattle.kx_key_fields.specs.Attributes.{no_settings};
ghost use Rattle.kx_tree.specs.Sections.{word_span};
ghost use Rattle.kx_symbols.specs.Known.{no_defaults};
ghost use Rattle.kx_symbols.specs.Keys.{after_field, field_in, said_next};
ghost use Rattle.kx_symbols.specs.KeyFaults.{default_faults, other_faults, section_field_faults};
ghost use Rattle.kx_merge.specs.Reports.{ReportsOrRunsOut};

use kx_actions::ActionDefaults;
use kx_key_fields::{KeyDefaults, is_group_name, is_key_word};
use kx_lex::{At, Fault};
use kx_parse::{Field, Stated, Statement};
use kx_virtual_mods::ModNames;
use std::alloc::{AllocError, Global};
use std::marker::Model;

/// What default statements give actions and keys.
#[derive(Drop)]
struct Gathered {
    actions: ActionDefaults,
    keys: KeyDefaults,
}

impl Model for Gathered {
    ghost use Rattle.kx_symbols.specs.Known.{Defaults};

    ghost Value = { Defaults };

    ghost view = { λ d. record { actions = d.actions; keys = d.keys } };
}

/// What the default statements of a section give actions and keys. Where there are none, it takes no memory.
#[derive(Drop)]
pub struct SectionDefaults {
    gathered: Option<Box<Gathered>>,
}

impl Model for SectionDefaults {
    ghost use Rattle.std.specs.Option.{option_map_or};
    ghost use Rattle.kx_symbols.specs.Known.{Defaults, no_defaults};

    ghost Value = { Defaults };

    ghost view = { λ d. option_map_or (λ gathered. gathered.value) d.gathered no_defaults };
}

impl Gathered {
    fn none(alloc: Global) -> Gathered
        ensures { result ≡ no_defaults }
    {
        Gathered {
            actions: ActionDefaults::none(),
            keys: KeyDefaults::none(alloc),
        }
    }

    fn actions(&self) -> ActionDefaults
        ensures { result ≡ self.now.actions }
    {
        self.actions
    }

    fn keys(&self) -> &KeyDefaults
        ensures { result.now ≡ self.now.keys }
    {
        &self.keys
    }

    /// The defaults after a field of the section that is one for keys or for an action.
    fn after(
        self,
        alloc: Global,
        modifiers: &ModNames,
        file: u32,
        field: &Field,
    ) -> Result<Gathered, Fault>
        ensures next { IfOk result (λ d. d ≡ after_field modifiers.now.names self field.now) }
        ensures faults { ReportsOrRunsOut result
            (default_faults file modifiers.now.names field.now) }
    {
        if is_key_word(field.place.word.bytes.as_slice()) {
            let keys = self.keys.after(alloc, modifiers, file, field)?;
            return Ok(Gathered {
                actions: self.actions,
                keys,
            });
        }
        let actions = self.actions.after(modifiers, file, field)?;
        Ok(Gathered {
            actions,
            keys: self.keys,
        })
    }
}

impl SectionDefaults {
    /// No defaults: those at the start of a section.
    pub(crate) fn none() -> SectionDefaults
        ensures { result ≡ no_defaults }
    {
        SectionDefaults { gathered: None }
    }

    pub(crate) fn actions(&self) -> ActionDefaults
        ensures { result ≡ self.now.actions }
    {
        match &self.gathered {
            Some(gathered) => gathered.actions(),
            None => ActionDefaults::none(),
        }
    }

    /// What is given to keys, where some statement gives anything.
    pub(crate) fn keys(&self) -> Option<&KeyDefaults>
        ensures { option_map_or (λ keys. keys.now) result no_settings ≡ self.now.keys }
    {
        match &self.gathered {
            Some(gathered) => Some(gathered.keys()),
            None => None,
        }
    }

    fn boxed(alloc: Global, gathered: Gathered) -> Result<SectionDefaults, AllocError>
        ensures { IfOk result (λ d. d ≡ gathered) }
    {
        Ok(SectionDefaults {
            gathered: Some(Box::new(alloc, gathered)?),
        })
    }

    fn unboxed(self, alloc: Global) -> Gathered
        ensures { result ≡ self }
    {
        match self.gathered {
            Some(gathered) => Box::into_inner(gathered),
            None => Gathered::none(alloc),
        }
    }

    /// The defaults after a field that stands by itself in the section.
    fn after_field(
        self,
        alloc: Global,
        modifiers: &ModNames,
        file: u32,
        field: &Field,
    ) -> Result<SectionDefaults, Fault>
        ensures next { IfOk result (λ d. d ≡ after_field modifiers.now.names self field.now) }
        ensures faults { ReportsOrRunsOut result
            (section_field_faults file modifiers.now.names field.now) }
    {
        if is_group_name(&field.place) {
            return Ok(self);
        }
        let gathered = self.unboxed(alloc).after(alloc, modifiers, file, field)?;
        Ok(SectionDefaults::boxed(alloc, gathered)?)
    }

    /// The defaults after a statement of the section that is about no key.
    pub(crate) fn after(
        self,
        alloc: Global,
        modifiers: &ModNames,
        file: u32,
        stated: &Stated,
    ) -> Result<SectionDefaults, Fault>
        ensures next { IfOk result (λ d.
            d ≡ said_next modifiers.now.names self (field_in stated.now.statement)) }
        ensures faults { ReportsOrRunsOut result
            (other_faults file modifiers.now.names (word_span stated.now) stated.now.statement) }
    {
        match &stated.statement {
            Statement::VirtualModifiers(_) => Ok(self),
            Statement::ModifierMap { .. } => Ok(self),
            Statement::Field(field) => self.after_field(alloc, modifiers, file, field.get()),
            _ => Err(Fault::UnknownField(At {
                file,
                span: stated.word_span(),
            })),
        }
    }
}
