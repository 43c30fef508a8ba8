//! What a key statement says besides its lists.
ghost use Rattle.std.specs.Prelude.{◌≡◌, IfOk, OnOk};
ghost use Rattle.std.specs.Result.{result_ok};
ghost use Rattle.kx_key_fields.specs.KeyFields.{effective, key_field_faults, key_given, own_faults, own_given, setting_faults};
ghost use Rattle.kx_key_fields.specs.Attributes.{attribute_in, with_given};
ghost use Rattle.kx_key_fields.specs.AttributeFields.{given_any};
ghost use Rattle.kx_merge.specs.Reports.{Reports, ReportsOrRunsOut};

use crate::attributes::KeyAttributes;
use crate::cells::AttributeCell;
use crate::defaults::KeyDefaults;
use crate::given::Given;
use crate::reading::read_named;
use crate::words::is_list_word;
use kx_lex::Fault;
use kx_merge::unknown_field;
use kx_parse::{Field, KeyField};
use kx_virtual_mods::ModNames;
use std::alloc::Global;

/// What a field inside a key gives; nothing where it gives a list.
fn read_own(names: &ModNames, file: u32, field: &Field) -> Result<Option<Given>, Fault>
    ensures value { given_any (result_ok result) ≡ own_given names.now.names field.now }
    ensures faults { Reports result (own_faults file names.now.names field.now) }
{
    let word = &field.place.word;
    if field.place.member.is_some() {
        return Err(unknown_field(file, word));
    }
    if is_list_word(word.bytes.as_slice()) {
        return Ok(None);
    }
    read_named(names, file, word, field)
}

/// Adds what a field of a key gives; a list gives nothing.
fn take_field(
    alloc: Global,
    names: &ModNames,
    file: u32,
    field: &KeyField,
    settings: &mut KeyAttributes,
) -> Result<(), Fault>
    ensures taken { OnOk result (settings.new
        ≡ with_given settings.old (key_given names.now.names field.now)) }
    ensures faults { ReportsOrRunsOut result (key_field_faults file names.now.names field.now) }
{
    match field {
        KeyField::Field(field) => {
            let given = read_own(names, file, field.get())?;
            settings.put(alloc, &given)?;
            Ok(())
        }
        KeyField::List(_) => Ok(()),
    }
}

/// What the fields of a key statement of a file say besides its lists, under the defaults before it in its section. Of a
/// field that is written twice the last counts, and of one that isn't written the default. Lists, and the fields
/// `symbols` and `actions`, are passed over.
///
/// # Errors
/// `UnknownField` at the word of a field that keys don't have, before a point, and at one with an index where none is
/// taken; `BadValue` at a value of the wrong kind, at a field that needs a value and has none, in `vmods` at a term that is
/// no word or a name of real modifiers, and at an index that is no group; `GroupRange` at a group outside of 1 to 32;
/// `UnknownModifier` in `vmods` at a word that isn't declared; `Memory`.
pub fn read_settings(
    alloc: Global,
    names: &ModNames,
    file: u32,
    fields: &[KeyField],
    defaults: &KeyDefaults,
) -> Result<KeyAttributes, Fault>
    ensures cells { IfOk result (λ settings. (cell : AttributeCell)
        → attribute_in settings cell ≡ effective names.now.names defaults.now fields.now cell) }
    ensures faults { ReportsOrRunsOut result (setting_faults file names.now.names fields.now) }
{
    let mut settings = defaults.settings(alloc)?;
    'fields: for field in fields {
        take_field(alloc, names, file, field, &mut settings)?;
    }
    Ok(settings)
}
