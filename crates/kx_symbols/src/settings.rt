//! What key statements say besides lists.
ghost use Rattle.std.specs.Prelude.{◌≡◌, IfOk};
ghost use Rattle.std.specs.List.{list_any};
ghost use Rattle.kx_key_fields.specs.KeyFields.{effective, setting_faults};
ghost use Rattle.kx_key_fields.specs.Attributes.{no_settings, attribute_in};
ghost use Rattle.kx_symbols.specs.Lists.{is_field};
ghost use Rattle.kx_merge.specs.Reports.{ReportsOrRunsOut};

use crate::known::Known;
use kx_key_fields::{AttributeCell, KeyAttributes, KeyDefaults, read_settings};
use kx_lex::Fault;
use kx_parse::KeyField;
use kx_virtual_mods::ModNames;
use std::alloc::Global;

/// Whether a field isn't a list by itself.
fn has_field(fields: &[KeyField]) -> bool
    ensures { result ≡ list_any is_field fields.now }
{
    fields.iter().any(|field| match field {
        KeyField::List(_) => false,
        KeyField::Field(_) => true,
    })
}

/// What the fields of a key statement of a file say besides lists, where no default stands before it. Most statements have
/// lists alone, and say nothing.
fn read_alone(
    alloc: Global,
    modifiers: &ModNames,
    file: u32,
    fields: &[KeyField],
) -> Result<KeyAttributes, Fault>
    ensures cells { IfOk result (λ settings. (cell : AttributeCell)
        → attribute_in settings cell ≡ effective modifiers.now.names no_settings fields.now cell) }
    ensures faults { ReportsOrRunsOut result (setting_faults file modifiers.now.names fields.now) }
{
    if has_field(fields) {
        let none = KeyDefaults::none(alloc);
        read_settings(alloc, modifiers, file, fields, &none)
    } else {
        Ok(KeyAttributes::none(alloc))
    }
}

/// What the fields of a key statement of a file say besides lists.
pub(crate) fn read_besides(
    alloc: Global,
    known: &Known,
    file: u32,
    fields: &[KeyField],
) -> Result<KeyAttributes, Fault>
    ensures cells { IfOk result (λ settings. (cell : AttributeCell)
        → attribute_in settings cell ≡ effective known.now.modifiers known.now.defaults.keys
        fields.now cell) }
    ensures faults { ReportsOrRunsOut result (setting_faults file known.now.modifiers fields.now) }
{
    match known.defaults.keys() {
        Some(defaults) => read_settings(alloc, known.modifiers, file, fields, defaults),
        None => read_alone(alloc, known.modifiers, file, fields),
    }
}
