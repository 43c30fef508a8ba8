//! What a field of a key says that isn't a list.
ghost use Rattle.std.specs.Prelude.{◌≡◌, [], Some};
ghost use Rattle.std.specs.Result.{result_ok};
ghost use Rattle.kx_key_fields.specs.AttributeFields.{field_faults, field_given, given_any, mods_faults, mods_in, named_faults, name_in, named_given, range_faults, range_in, term_text, text_faults, text_of, type_faults, type_given};
ghost use Rattle.kx_merge.specs.Faults.{value_faults};
ghost use Rattle.kx_key_fields.specs.declared.words.RangeField.TheVariants as words;
ghost use Rattle.kx_merge.specs.Reports.{Reports};

use crate::given::{Given, KeptName};
use crate::key_range::KeyRange;
use crate::masks::virtual_mask;
use crate::truths::read_flag;
use crate::words::{AttributeField, RangeField, field_named};
use kx_key_lists::read_group;
use kx_lex::{Fault, Name};
use kx_merge::{bad_value, expression_of, unknown_field};
use kx_parse::{Expression, Field, Term};
use kx_virtual_mods::{ModNames, NameSet};

fn term_text(term: &Term) -> Option<KeptName>
    ensures { result ≡ term_text term.now }
{
    match term {
        Term::Text(text) => Some(KeptName::of(text.bytes.as_slice())),
        Term::Number(_) => None,
        Term::Signed(_) => None,
        Term::Word(_) => None,
        Term::KeyName(_) => None,
    }
}

/// The name that an expression of one text is.
fn text_of(expression: &Expression) -> Option<KeptName>
    ensures { result ≡ text_of expression.now }
{
    match expression.rest.as_slice() {
        [] => term_text(&expression.first),
        _ => None,
    }
}

fn expression_text(file: u32, expression: &Expression) -> Result<KeptName, Fault>
    ensures value { result_ok result ≡ text_of expression.now }
    ensures faults { Reports result (text_faults file expression.now) }
{
    match text_of(expression) {
        Some(text) => Ok(text),
        None => Err(bad_value(file, expression.span)),
    }
}

/// The name of a type that a field is set to.
fn read_text(file: u32, field: &Field) -> Result<KeptName, Fault>
    ensures value { result_ok result ≡ name_in field.now.setting }
    ensures faults { Reports result
        (value_faults file (text_faults file) field.now.span field.now.setting) }
{
    let expression = expression_of(file, field.span, &field.setting)?;
    expression_text(file, expression)
}

/// The type that a field gives the key, or with an index a group.
fn read_type(file: u32, field: &Field) -> Result<Given, Fault>
    ensures value { result_ok result ≡ type_given field.now.place.index field.now.setting }
    ensures faults { Reports result (type_faults file field.now) }
{
    match &field.place.index {
        None => Ok(Given::KeyType(read_text(file, field)?)),
        Some(index) => {
            let group = read_group(file, &index.get().value)?;
            Ok(Given::GroupType(group, read_text(file, field)?))
        }
    }
}

fn read_mods(names: &ModNames, file: u32, field: &Field) -> Result<NameSet, Fault>
    ensures value { result_ok result ≡ mods_in names.now.names field.now.setting }
    ensures faults { Reports result (mods_faults file names.now.names field.now) }
{
    let expression = expression_of(file, field.span, &field.setting)?;
    virtual_mask(names, file, expression)
}

fn read_redirect(file: u32, field: &Field) -> Result<KeyRange, Fault>
    ensures value { result_ok result ≡ range_in words.Redirect field.now.setting }
    ensures faults { Reports result (range_faults file words.Redirect field.now) }
{
    let expression = expression_of(file, field.span, &field.setting)?;
    let group = read_group(file, expression)?;
    Ok(KeyRange::redirect(group))
}

fn read_range(file: u32, which: RangeField, field: &Field) -> Result<KeyRange, Fault>
    ensures value { result_ok result ≡ range_in which field.now.setting }
    ensures faults { Reports result (range_faults file which field.now) }
{
    match which {
        RangeField::Wrap => Ok(KeyRange::wrap_if(read_flag(file, field)?)),
        RangeField::Clamp => Ok(KeyRange::clamp_if(read_flag(file, field)?)),
        RangeField::Redirect => read_redirect(file, field),
    }
}

/// What a field of a kind gives; nothing where it is read and not used.
fn read_field(
    names: &ModNames,
    file: u32,
    word: &Name,
    kind: AttributeField,
    field: &Field,
) -> Result<Option<Given>, Fault>
    ensures value { given_any (result_ok result)
        ≡ field_given names.now.names (Some kind) field.now.place.index field.now.setting }
    ensures faults { Reports result
        (field_faults file names.now.names word.now field.now (Some kind)) }
{
    let indexed = field.place.index.is_some();
    match kind {
        AttributeField::Unused => Ok(None),
        AttributeField::KeyType => Ok(Some(read_type(file, field)?)),
        AttributeField::VirtualMods => {
            if indexed {
                return Err(unknown_field(file, word));
            }
            Ok(Some(Given::VirtualMods(read_mods(names, file, field)?)))
        }
        AttributeField::Range(which) => {
            if indexed {
                return Err(unknown_field(file, word));
            }
            Ok(Some(Given::Range(read_range(file, which, field)?)))
        }
    }
}

/// What a field gives whose word is this one: its own, or the one after the point of a default.
pub(crate) fn read_named(
    names: &ModNames,
    file: u32,
    word: &Name,
    field: &Field,
) -> Result<Option<Given>, Fault>
    ensures value { given_any (result_ok result) ≡ named_given names.now.names word.now field.now }
    ensures faults { Reports result (named_faults file names.now.names word.now field.now) }
{
    match field_named(word.bytes.as_slice()) {
        Some(kind) => read_field(names, file, word, kind, field),
        None => Err(unknown_field(file, word)),
    }
}
