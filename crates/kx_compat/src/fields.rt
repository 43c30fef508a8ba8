//! What the fields of interpretations are given.
ghost use Rattle.std.specs.Prelude.{◌≡◌, IfOk, Some};
ghost use Rattle.kx_actions.specs.Arguments.{action_faults, action_of};
ghost use Rattle.kx_merge.specs.Faults.{value_faults};
ghost use Rattle.kx_merge.specs.Words.{among, meaning_among};
ghost use Rattle.kx_compat.specs.FieldWords.{action_value, call_faults, field_faults, field_named, field_value, field_words, indexed, level_words, levels_faults, levels_value, modifier_faults, modifier_of, modifier_value, setting_faults, setting_value, word_faults, word_modifier};
ghost use Rattle.kx_merge.specs.Reports.{Reports};

use crate::action::GivenAction;
use crate::modifier::GivenModifier;
use crate::statements::FileContext;
use crate::values::FieldValue;
use ks_core::{Note, Notes};
use kx_actions::{ActionDefaults, KeyAction, is_action_word, read};
use kx_lex::{At, Boxed, Fault, Name, Span};
use kx_merge::{bad_value, expression_of, lone_word, unknown_field};
use kx_parse::{Call, Expression, Field, Index, Setting, Value};
use kx_virtual_mods::{ModNames, real_mask};

/// What the fields of an interpretation set.
#[derive(Clone, Copy)]
pub(crate) enum InterpretField {
    /// The action of levels.
    Action,
    /// The virtual modifier of keys.
    Modifier,
    /// Whether modifiers are seen at the first level alone.
    Levels,
    /// What is read and not used.
    Unused,
}

fn word_field(word: &[u8]) -> Option<InterpretField>
    ensures { result ≡ among field_words word.now }
{
    if word.eq_ignore_ascii_case(b"action") {
        Some(InterpretField::Action)
    } else if word.eq_ignore_ascii_case(b"virtualModifier") {
        Some(InterpretField::Modifier)
    } else if word.eq_ignore_ascii_case(b"virtualMod") {
        Some(InterpretField::Modifier)
    } else if word.eq_ignore_ascii_case(b"useModMapMods") {
        Some(InterpretField::Levels)
    } else if word.eq_ignore_ascii_case(b"useModMap") {
        Some(InterpretField::Levels)
    } else if word.eq_ignore_ascii_case(b"repeat") {
        Some(InterpretField::Unused)
    } else if word.eq_ignore_ascii_case(b"locking") {
        Some(InterpretField::Unused)
    } else {
        None
    }
}

/// A field where it stands with an index, or without.
fn indexed(index: &Option<Boxed<Index>>, field: InterpretField) -> Option<InterpretField>
    ensures { result ≡ indexed index.now field }
{
    match (index, field) {
        (None, field) => Some(field),
        (Some(_), InterpretField::Unused) => Some(InterpretField::Unused),
        (Some(_), _) => None,
    }
}

fn field_named(word: &[u8], index: &Option<Boxed<Index>>) -> Option<InterpretField>
    ensures { result ≡ field_named word.now index.now }
{
    match word_field(word) {
        Some(field) => indexed(index, field),
        None => None,
    }
}

fn level_named(word: &[u8]) -> Option<bool>
    ensures { result ≡ among level_words word.now }
{
    if word.eq_ignore_ascii_case(b"level1") {
        Some(true)
    } else if word.eq_ignore_ascii_case(b"levelone") {
        Some(true)
    } else if word.eq_ignore_ascii_case(b"anylevel") {
        Some(false)
    } else if word.eq_ignore_ascii_case(b"any") {
        Some(false)
    } else {
        None
    }
}

/// The action of a call, which is noted where it has no effect.
fn read_action(
    context: &FileContext,
    actions: &ActionDefaults,
    call: &Call,
    notes: &mut Notes,
) -> Result<KeyAction, Fault>
    ensures value { IfOk result (λ action.
        action ≡ action_of context.now.modifiers.now.names actions.now call.now) }
    ensures faults { Reports result
        (action_faults context.now.file context.now.modifiers.now.names call.now) }
{
    if !is_action_word(call.word.bytes.as_slice()) {
        notes.count(Note::IdleAction);
    }
    read(context.modifiers, context.file, call, actions)
}

/// The virtual modifier that a word names.
fn read_word_modifier(
    names: &ModNames,
    file: u32,
    whole: Span,
    word: &Name,
) -> Result<GivenModifier, Fault>
    ensures value { IfOk result (λ number. Some number ≡ word_modifier names.now.names word.now) }
    ensures faults { Reports result (word_faults file names.now.names whole (Some word.now)) }
{
    let bytes = word.bytes.as_slice();
    if real_mask(bytes).is_some() {
        return Err(bad_value(file, whole));
    }
    match names.number_of(bytes) {
        Some(number) => Ok(GivenModifier::of(number)),
        None => Err(Fault::UnknownModifier(At {
            file,
            span: word.span,
        })),
    }
}

/// The virtual modifier that an expression names.
fn read_modifier(
    names: &ModNames,
    file: u32,
    expression: &Expression,
) -> Result<GivenModifier, Fault>
    ensures value { IfOk result (λ number.
        Some number ≡ modifier_of names.now.names expression.now) }
    ensures faults { Reports result (modifier_faults file names.now.names expression.now) }
{
    match lone_word(expression) {
        Some(word) => read_word_modifier(names, file, expression.span, word),
        None => Err(bad_value(file, expression.span)),
    }
}

/// Whether modifiers are seen at the first level alone.
fn read_levels(file: u32, expression: &Expression) -> Result<bool, Fault>
    ensures value { IfOk result (λ only. Some only ≡ meaning_among level_words expression.now) }
    ensures faults { Reports result (levels_faults file expression.now) }
{
    let word = lone_word(expression).ok_or(bad_value(file, expression.span))?;
    level_named(word.bytes.as_slice()).ok_or(bad_value(file, expression.span))
}

/// The action that a field is set to.
fn action_setting(
    context: &FileContext,
    actions: &ActionDefaults,
    field: &Field,
    notes: &mut Notes,
) -> Result<FieldValue, Fault>
    ensures value { IfOk result (λ value. Some value
        ≡ action_value context.now.modifiers.now.names actions.now field.now.setting) }
    ensures faults { Reports result
        (call_faults context.now.file
        (action_faults context.now.file context.now.modifiers.now.names) field.now.span
        field.now.setting) }
{
    match &field.setting {
        Setting::To(Value::Call(call)) => {
            let action = read_action(context, actions, call, notes)?;
            Ok(FieldValue::Action(GivenAction::of(action)))
        }
        Setting::To(Value::Expression(expression)) => {
            Err(bad_value(context.file, expression.span))
        }
        Setting::To(Value::List(list)) => Err(bad_value(context.file, list.span)),
        Setting::Off | Setting::On => Err(bad_value(context.file, field.span)),
    }
}

/// The virtual modifier that a field is set to.
fn modifier_setting(
    names: &ModNames,
    file: u32,
    whole: Span,
    setting: &Setting,
) -> Result<FieldValue, Fault>
    ensures value { IfOk result (λ value. Some value ≡ modifier_value names.now.names setting.now) }
    ensures faults { Reports result
        (value_faults file (modifier_faults file names.now.names) whole setting.now) }
{
    let expression = expression_of(file, whole, setting)?;
    let modifier = read_modifier(names, file, expression)?;
    Ok(FieldValue::Modifier(modifier))
}

/// Whether a field is set to the first level alone.
fn levels_setting(file: u32, whole: Span, setting: &Setting) -> Result<FieldValue, Fault>
    ensures value { IfOk result (λ value. Some value ≡ levels_value setting.now) }
    ensures faults { Reports result (value_faults file (levels_faults file) whole setting.now) }
{
    let expression = expression_of(file, whole, setting)?;
    let only = read_levels(file, expression)?;
    Ok(FieldValue::FirstLevelOnly(only))
}

/// What a field is given by its setting; nothing, where it is read and not used.
fn known_setting(
    context: &FileContext,
    actions: &ActionDefaults,
    known: InterpretField,
    field: &Field,
    notes: &mut Notes,
) -> Result<Option<FieldValue>, Fault>
    ensures value { IfOk result (λ value. value
        ≡ setting_value context.now.modifiers.now.names actions.now field.now.setting known) }
    ensures faults { Reports result
        (setting_faults context.now.file context.now.modifiers.now.names field.now.span
        field.now.setting known) }
{
    let (file, whole, setting) = (context.file, field.span, &field.setting);
    match known {
        InterpretField::Action => Ok(Some(action_setting(context, actions, field, notes)?)),
        InterpretField::Modifier => {
            Ok(Some(modifier_setting(context.modifiers, file, whole, setting)?))
        }
        InterpretField::Levels => Ok(Some(levels_setting(file, whole, setting)?)),
        InterpretField::Unused => Ok(None),
    }
}

/// What a field gives that `word` names, under the defaults for actions before it. Actions without effect are noted.
pub(crate) fn read_field(
    context: &FileContext,
    actions: &ActionDefaults,
    word: &Name,
    field: &Field,
    notes: &mut Notes,
) -> Result<Option<FieldValue>, Fault>
    ensures value { IfOk result (λ value. value
        ≡ field_value context.now.modifiers.now.names actions.now word.now field.now) }
    ensures faults { Reports result
        (field_faults context.now.file context.now.modifiers.now.names word.now field.now) }
{
    match field_named(word.bytes.as_slice(), &field.place.index) {
        None => Err(unknown_field(context.file, word)),
        Some(known) => known_setting(context, actions, known, field, notes),
    }
}
