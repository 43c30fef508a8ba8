//! The fields of a type statement.
ghost use Rattle.std.specs.Prelude.{◌≡◌, [], All, IfOk, None, Some};
ghost use Rattle.std.specs.List.{flat_map};
ghost use Rattle.std.specs.Option.{option_and_then, option_map};
ghost use Rattle.kx_lex.specs.declared.fault.Fault.TheVariants.{UnknownField};
ghost use Rattle.kx_include.specs.IncludeFaults.{at};
ghost use Rattle.kx_virtual_mods.specs.Masks.{mask_faults, mask_set};
ghost use Rattle.kx_types.specs.Lawful.{IsLevel, NamesLevel};
ghost use Rattle.kx_merge.specs.Faults.{expression_in, value_faults};
ghost use Rattle.kx_merge.specs.Numbers.{number_faults, number_named};
ghost use Rattle.kx_merge.specs.declared.numbers.Counted.TheVariants.{Level};
ghost use Rattle.kx_types.specs.TypeFields.{field_faults, is_text, saying_of, sayings_of, slot_faults, slot_of, slot_saying, text_faults};
ghost use Rattle.kx_types.specs.declared.fields.Slot.TheVariants as slots;
ghost use Rattle.kx_merge.specs.Reports.{Reports, ReportsOrRunsOut};

use crate::saying::Saying;
use kx_lex::{At, Fault};
use kx_merge::{Counted, bad_value, expression_of};
use kx_parse::{Expression, Field, Index, Term};
use kx_virtual_mods::{ModNames, NameSet};
use std::alloc::Global;

/// What a field of a type sets.
#[derive(Clone, Copy, PartialEq, Eq)]
pub enum Slot {
    Modifiers,
    Map,
    Preserve,
    LevelName,
}

/// What the word of a field sets.
fn slot_of(word: &[u8]) -> Option<Slot>
    ensures { result ≡ slot_of word.now }
{
    if word.eq_ignore_ascii_case(b"modifiers") {
        Some(Slot::Modifiers)
    } else if word.eq_ignore_ascii_case(b"map") {
        Some(Slot::Map)
    } else if word.eq_ignore_ascii_case(b"preserve") {
        Some(Slot::Preserve)
    } else if word.eq_ignore_ascii_case(b"level_name") {
        Some(Slot::LevelName)
    } else if word.eq_ignore_ascii_case(b"levelname") {
        Some(Slot::LevelName)
    } else {
        None
    }
}

fn is_text(expression: &Expression) -> bool
    ensures { result ≡ is_text expression.now.first expression.now.rest }
{
    match (&expression.first, expression.rest.as_slice()) {
        (Term::Text(_), []) => true,
        _ => false,
    }
}

fn check_text(file: u32, expression: &Expression) -> Result<(), Fault>
    ensures faults { Reports result (text_faults file expression.now) }
{
    if is_text(expression) {
        Ok(())
    } else {
        Err(bad_value(file, expression.span))
    }
}

/// The modifiers that a field is set to.
fn value_mask(modifiers: &ModNames, file: u32, field: &Field) -> Result<NameSet, Fault>
    ensures value { IfOk result (λ set.
        option_map (mask_set modifiers.now.names) (expression_in field.now.setting) ≡ Some set) }
    ensures faults { Reports result
        (value_faults file (mask_faults file modifiers.now.names) field.now.span
        field.now.setting) }
{
    let expression = expression_of(file, field.span, &field.setting)?;
    modifiers.mask_of(file, expression)
}

/// The level that a field is set to.
fn value_level(file: u32, field: &Field) -> Result<u8, Fault>
    ensures value { IfOk result (λ level.
        option_and_then (number_named Level) (expression_in field.now.setting) ≡ Some level) }
    ensures within { IfOk result IsLevel }
    ensures faults { Reports result
        (value_faults file (number_faults file Level) field.now.span field.now.setting) }
{
    let expression = expression_of(file, field.span, &field.setting)?;
    Counted::Level.read(file, expression)
}

fn check_value_text(file: u32, field: &Field) -> Result<(), Fault>
    ensures faults { Reports result
        (value_faults file (text_faults file) field.now.span field.now.setting) }
{
    let expression = expression_of(file, field.span, &field.setting)?;
    check_text(file, expression)
}

fn read_modifiers(modifiers: &ModNames, file: u32, field: &Field) -> Result<Saying, Fault>
    ensures value { IfOk result (λ saying.
        slot_saying modifiers.now.names (Some slots.Modifiers) None field.now ≡ Some saying) }
    ensures level { IfOk result NamesLevel }
    ensures faults { Reports result
        (slot_faults modifiers.now.names file (Some slots.Modifiers) None field.now) }
{
    Ok(Saying::Modifiers(value_mask(modifiers, file, field)?))
}

fn read_map(modifiers: &ModNames, file: u32, index: &Index, field: &Field) -> Result<Saying, Fault>
    ensures value { IfOk result (λ saying.
        slot_saying modifiers.now.names (Some slots.Map) (Some index.now) field.now ≡ Some saying) }
    ensures level { IfOk result NamesLevel }
    ensures faults { Reports result
        (slot_faults modifiers.now.names file (Some slots.Map) (Some index.now) field.now) }
{
    let mask = modifiers.mask_of(file, &index.value)?;
    Ok(Saying::Map(mask, value_level(file, field)?))
}

fn read_preserve(
    modifiers: &ModNames,
    file: u32,
    index: &Index,
    field: &Field,
) -> Result<Saying, Fault>
    ensures value { IfOk result (λ saying.
        slot_saying modifiers.now.names (Some slots.Preserve) (Some index.now) field.now
        ≡ Some saying) }
    ensures level { IfOk result NamesLevel }
    ensures faults { Reports result
        (slot_faults modifiers.now.names file (Some slots.Preserve) (Some index.now) field.now) }
{
    let mask = modifiers.mask_of(file, &index.value)?;
    Ok(Saying::Preserve(mask, value_mask(modifiers, file, field)?))
}

fn read_level_name(
    modifiers: &ModNames,
    file: u32,
    index: &Index,
    field: &Field,
) -> Result<Saying, Fault>
    ensures value { IfOk result (λ saying.
        slot_saying modifiers.now.names (Some slots.LevelName) (Some index.now) field.now
        ≡ Some saying) }
    ensures level { IfOk result NamesLevel }
    ensures faults { Reports result
        (slot_faults modifiers.now.names file (Some slots.LevelName) (Some index.now) field.now) }
{
    let level = Counted::Level.read(file, &index.value)?;
    check_value_text(file, field)?;
    Ok(Saying::LevelName(level))
}

fn unknown_field(file: u32, field: &Field) -> Fault
    ensures { result ≡ UnknownField (at file field.now.place.word.span) }
{
    Fault::UnknownField(At {
        file,
        span: field.place.word.span,
    })
}

/// What a field says.
fn read_field(modifiers: &ModNames, file: u32, field: &Field) -> Result<Saying, Fault>
    ensures value { IfOk result (λ saying. saying_of modifiers.now.names field.now ≡ Some saying) }
    ensures level { IfOk result NamesLevel }
    ensures faults { Reports result (field_faults modifiers.now.names file field.now) }
{
    let place = &field.place;
    if place.member.is_some() {
        return Err(unknown_field(file, field));
    }
    match (slot_of(place.word.bytes.as_slice()), &place.index) {
        (Some(Slot::Modifiers), None) => read_modifiers(modifiers, file, field),
        (Some(Slot::Map), Some(index)) => read_map(modifiers, file, index.get(), field),
        (Some(Slot::Preserve), Some(index)) => read_preserve(modifiers, file, index.get(), field),
        (Some(Slot::LevelName), Some(index)) => {
            read_level_name(modifiers, file, index.get(), field)
        }
        _ => Err(unknown_field(file, field)),
    }
}

/// What the fields of a type statement say, in order.
pub(crate) fn read_fields(
    alloc: Global,
    modifiers: &ModNames,
    file: u32,
    fields: &[Field],
) -> Result<Vec<Saying>, Fault>
    ensures value { IfOk result (λ said. said.items ≡ sayings_of modifiers.now.names fields.now) }
    ensures levels { IfOk result (λ said. All NamesLevel said.items) }
    ensures faults { ReportsOrRunsOut result
        (flat_map (field_faults modifiers.now.names file) fields.now) }
{
    let mut said = Vec::with_capacity(alloc, fields.len())?;
    'fields: for field in fields {
        said.push(read_field(modifiers, file, field)?)?;
    }
    Ok(said)
}
