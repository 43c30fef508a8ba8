//! Defaults for keys.
ghost use Rattle.std.specs.Prelude.{◌≡◌, IfOk};
ghost use Rattle.std.specs.Result.{result_ok};
ghost use Rattle.kx_key_fields.specs.KeyFields.{default_faults, default_given};
ghost use Rattle.kx_key_fields.specs.AttributeFields.{given_any};
ghost use Rattle.kx_merge.specs.Reports.{Reports, ReportsOrRunsOut};

use crate::attributes::KeyAttributes;
use crate::cells::AttributeCell;
use crate::given::Given;
use crate::reading::read_named;
use crate::words::is_key_word;
use kx_lex::Fault;
use kx_merge::unknown_field;
use kx_parse::Field;
use kx_virtual_mods::ModNames;
use std::alloc::{AllocError, Global};
use std::marker::Model;

/// What a field of a section gives keys as a default.
fn read_default(names: &ModNames, file: u32, field: &Field) -> Result<Option<Given>, Fault>
    ensures value { given_any (result_ok result) ≡ default_given names.now.names field.now }
    ensures faults { Reports result (default_faults file names.now.names field.now) }
{
    let word = &field.place.word;
    if !is_key_word(word.bytes.as_slice()) {
        return Err(unknown_field(file, word));
    }
    match &field.place.member {
        Some(member) => read_named(names, file, member.get(), field),
        None => Err(unknown_field(file, word)),
    }
}

/// What the default statements of a section give keys besides lists.
#[derive(Drop)]
pub struct KeyDefaults {
    settings: KeyAttributes,
}

impl Model for KeyDefaults {
    ghost use Rattle.kx_key_fields.specs.Attributes.{Settings};

    ghost Value = { Settings };

    ghost view = { λ d. d.settings };
}

impl KeyDefaults {
    ghost use Rattle.std.specs.Prelude.{◌≡◌, List, IfOk};
    ghost use Rattle.kx_tree.specs.declared.tree.Field.{Field as FieldValue};
    ghost use Rattle.kx_key_fields.specs.KeyFields.{cell_default, default_faults, defaults_after, next_defaults};
    ghost use Rattle.kx_key_fields.specs.Attributes.{no_settings, attribute_in};
    ghost use Rattle.kx_merge.specs.Last.{last_given};
    ghost use Rattle.kx_merge.specs.Reports.{ReportsOrRunsOut};

    /// No defaults: those at the start of a section.
    pub fn none(alloc: Global) -> KeyDefaults
        ensures { result ≡ no_settings }
    {
        KeyDefaults {
            settings: KeyAttributes::none(alloc),
        }
    }

    /// What a key is given where its statement says nothing.
    pub(crate) fn settings(&self, alloc: Global) -> Result<KeyAttributes, AllocError>
        ensures { IfOk result (λ settings. settings ≡ self.now) }
    {
        self.settings.try_clone(alloc)
    }

    /// The defaults after one more statement of the section, a field as `key.type = "TWO_LEVEL";`: after statements each
    /// cell has what the last of those gives that give it anything.
    ///
    /// # Errors
    /// `UnknownField` at the word before the point where it isn't `key`, or where there is no point; at the word after it
    /// where it is no field of keys, `symbols` or `actions`, or where it has an index and takes none; else the faults of the
    /// value, as [`read_settings`](crate::read_settings) has them; `Memory`.
    pub fn after(
        self,
        alloc: Global,
        names: &ModNames,
        file: u32,
        field: &Field,
    ) -> Result<KeyDefaults, Fault>
        ensures value { IfOk result (λ d. d ≡ next_defaults names.now.names self field.now) }
        ensures last { (statements : List FieldValue) (cell : AttributeCell)
            → attribute_in (defaults_after names.now.names statements) cell
            ≡ last_given (cell_default names.now.names cell) None statements }
        ensures faults { ReportsOrRunsOut result (default_faults file names.now.names field.now) }
    {
        let given = read_default(names, file, field)?;
        let mut settings = self.settings;
        settings.put(alloc, &given)?;
        Ok(KeyDefaults { settings })
    }
}
