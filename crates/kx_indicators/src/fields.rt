//! What the fields of indicators are given.
ghost use Rattle.std.specs.Prelude.{◌≡◌, IfOk, Some};
ghost use Rattle.kx_indicators.specs.IndicatorMapFields.{expression_faults, expression_value, field_faults, field_value, field_words, known_value, placed_faults};
ghost use Rattle.kx_merge.specs.Faults.{value_faults};
ghost use Rattle.kx_merge.specs.Words.{among};
ghost use Rattle.kx_merge.specs.Reports.{Reports};

use crate::masks::{MaskKind, read_mask};
use crate::states::GivenStates;
use crate::values::{IndicatorMapField, IndicatorMapValue};
use kx_lex::{At, Fault, Name};
use kx_merge::expression_of;
use kx_parse::{Expression, Field};
use kx_virtual_mods::ModNames;

fn field_named(word: &[u8]) -> Option<IndicatorMapField>
    ensures { result ≡ among field_words word.now }
{
    if word.eq_ignore_ascii_case(b"modifiers") {
        Some(IndicatorMapField::Modifiers)
    } else if word.eq_ignore_ascii_case(b"mods") {
        Some(IndicatorMapField::Modifiers)
    } else if word.eq_ignore_ascii_case(b"whichModState") {
        Some(IndicatorMapField::ModStates)
    } else if word.eq_ignore_ascii_case(b"whichGroupState") {
        Some(IndicatorMapField::GroupStates)
    } else if word.eq_ignore_ascii_case(b"groups") {
        Some(IndicatorMapField::Groups)
    } else {
        None
    }
}

/// What a field is given by an expression.
fn read_expression(
    names: &ModNames,
    file: u32,
    known: IndicatorMapField,
    expression: &Expression,
) -> Result<IndicatorMapValue, Fault>
    ensures value { IfOk result (λ value.
        value ≡ expression_value names.now.names known expression.now) }
    ensures faults { Reports result (expression_faults file names.now.names known expression.now) }
{
    match known {
        IndicatorMapField::Modifiers => Ok(IndicatorMapValue::Modifiers(names.mask_of(
            file, expression,
        )?)),
        IndicatorMapField::ModStates => {
            let mask = read_mask(MaskKind::States, file, expression)?;
            Ok(IndicatorMapValue::ModStates(GivenStates::of(mask)))
        }
        IndicatorMapField::GroupStates => {
            let mask = read_mask(MaskKind::States, file, expression)?;
            Ok(IndicatorMapValue::GroupStates(GivenStates::of(mask)))
        }
        IndicatorMapField::Groups => Ok(IndicatorMapValue::Groups(read_mask(
            MaskKind::Groups,
            file,
            expression,
        )?)),
    }
}

/// What a field is given by its setting.
fn read_setting(
    names: &ModNames,
    file: u32,
    known: IndicatorMapField,
    field: &Field,
) -> Result<IndicatorMapValue, Fault>
    ensures value { IfOk result (λ value.
        Some value ≡ known_value names.now.names field.now.setting (Some known)) }
    ensures faults { Reports result
        (value_faults file (expression_faults file names.now.names known) field.now.span
        field.now.setting) }
{
    let expression = expression_of(file, field.span, &field.setting)?;
    read_expression(names, file, known, expression)
}

/// What a field gives that has a meaning, and takes no index.
fn read_known(
    names: &ModNames,
    file: u32,
    word: &Name,
    known: IndicatorMapField,
    field: &Field,
) -> Result<IndicatorMapValue, Fault>
    ensures value { IfOk result (λ value.
        Some value ≡ known_value names.now.names field.now.setting (Some known)) }
    ensures faults { Reports result
        (placed_faults file names.now.names word.now field.now known field.now.place.index) }
{
    match &field.place.index {
        None => read_setting(names, file, known, field),
        Some(_) => Err(Fault::UnknownField(At {
            file,
            span: word.span,
        })),
    }
}

/// What a field of a file gives that `word` names; nothing, where it is read and not used.
pub(crate) fn read_field(
    names: &ModNames,
    file: u32,
    word: &Name,
    field: &Field,
) -> Result<Option<IndicatorMapValue>, Fault>
    ensures value { IfOk result (λ value. value ≡ field_value names.now.names word.now field.now) }
    ensures faults { Reports result (field_faults file names.now.names word.now field.now) }
{
    match field_named(word.bytes.as_slice()) {
        None => Ok(None),
        Some(known) => Ok(Some(read_known(names, file, word, known, field)?)),
    }
}
