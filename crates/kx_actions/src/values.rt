//! What arguments of actions and defaults for them give.
ghost use Rattle.std.specs.Prelude.{◌≡◌, [], IfErr, IfOk, None, Some, is_some, false, if◌then◌else◌};
ghost use Rattle.std.specs.Option.{option_and_then, option_map};
ghost use Rattle.std.specs.Result.{result_ok};
ghost use Rattle.kx_include.specs.IncludeFaults.{at};
ghost use Rattle.kx_lex.specs.declared.fault.Fault.TheVariants.{UnknownField};
ghost use Rattle.kx_actions.specs.Groups.{change_of, term_written, written};
ghost use Rattle.kx_merge.specs.Words.{among, meaning_among, truth_words};
ghost use Rattle.kx_actions.specs.Values.{affect_words, bad_unless, flag_given, is_modmap, known_field, mods_faults, mods_of, value_faults, value_given, written_faults};
ghost use Rattle.kx_merge.specs.Reports.{Reports};

use crate::action::{ActionGroup, ActionMods, Affect};
use crate::groups::{absolute, relative};
use crate::kinds::{ActionField, ActionKind};
use crate::settings::Given;
use kx_lex::{At, Fault, Name, Span};
use kx_merge::{Counted, bad_value, lone_word, truth_named};
use kx_parse::{Boxed, Expression, Index, Term};
use kx_virtual_mods::ModNames;

fn affect_named(word: &[u8]) -> Option<Affect>
    ensures { result ≡ among affect_words word.now }
{
    if word.eq_ignore_ascii_case(b"lock") {
        Some(Affect::Lock)
    } else if word.eq_ignore_ascii_case(b"unlock") {
        Some(Affect::Unlock)
    } else if word.eq_ignore_ascii_case(b"both") {
        Some(Affect::Both)
    } else if word.eq_ignore_ascii_case(b"neither") {
        Some(Affect::Neither)
    } else {
        None
    }
}

fn is_modmap(expression: &Expression) -> bool
    ensures { result ≡ is_modmap expression.now }
{
    match lone_word(expression) {
        Some(word) => word.bytes.as_slice().eq_ignore_ascii_case(b"modMapMods"),
        None => false,
    }
}

fn mods_of(names: &ModNames, file: u32, value: &Expression) -> Result<ActionMods, Fault>
    ensures value { IfOk result (λ mods. mods ≡ mods_of names.now.names value.now) }
    ensures faults { Reports result (mods_faults file names.now.names value.now) }
{
    if is_modmap(value) {
        return Ok(ActionMods::OfKey);
    }
    match names.mask_of(file, value) {
        Ok(set) => Ok(ActionMods::Named(set)),
        Err(fault) => Err(fault),
    }
}

fn truth_of(file: u32, value: &Expression) -> Result<bool, Fault>
    ensures value { result_ok result ≡ meaning_among truth_words value.now }
    ensures faults { Reports result
        (bad_unless file (is_some (meaning_among truth_words value.now)) value.now.span) }
{
    let word = lone_word(value).ok_or(bad_value(file, value.span))?;
    truth_named(word.bytes.as_slice()).ok_or(bad_value(file, value.span))
}

fn affect_of(file: u32, value: &Expression) -> Result<Affect, Fault>
    ensures value { result_ok result ≡ meaning_among affect_words value.now }
    ensures faults { Reports result
        (bad_unless file (is_some (meaning_among affect_words value.now)) value.now.span) }
{
    let word = lone_word(value).ok_or(bad_value(file, value.span))?;
    affect_named(word.bytes.as_slice()).ok_or(bad_value(file, value.span))
}

/// The group of a term: `Ok(None)` where it is outside its range.
fn term_change(term: &Term) -> Option<Option<ActionGroup>>
    ensures { result ≡ option_map change_of (term_written term.now) }
{
    match term {
        Term::Signed(signed) => Some(relative(signed.sign, signed.number.value)),
        Term::Number(number) => Some(absolute(u64::from(number.value))),
        Term::Word(word) => match Counted::Group.in_word(word.bytes.as_slice()) {
            Some(number) => Some(absolute(number)),
            None => None,
        },
        Term::Text(_) => None,
        Term::KeyName(_) => None,
    }
}

fn change_written(value: &Expression) -> Option<Option<ActionGroup>>
    ensures { result ≡ option_map change_of (written value.now) }
{
    match value.rest.as_slice() {
        [] => term_change(&value.first),
        _ => None,
    }
}

fn read_action_group(file: u32, value: &Expression) -> Result<ActionGroup, Fault>
    ensures value { result_ok result ≡ option_and_then change_of (written value.now) }
    ensures faults { Reports result (written_faults file value.now.span (written value.now)) }
{
    match change_written(value) {
        Some(Some(group)) => Ok(group),
        Some(None) => Err(Fault::GroupRange(At {
            file,
            span: value.span,
        })),
        None => Err(bad_value(file, value.span)),
    }
}

/// What a field is given by a value.
pub(crate) fn value_given(
    names: &ModNames,
    file: u32,
    field: ActionField,
    value: &Expression,
) -> Result<Given, Fault>
    ensures value { IfOk result (λ given.
        Some given ≡ value_given names.now.names field value.now) }
    ensures faults { Reports result (value_faults file names.now.names field value.now) }
{
    match field {
        ActionField::Modifiers => Ok(Given::Modifiers(mods_of(names, file, value)?)),
        ActionField::Group => Ok(Given::Group(read_action_group(file, value)?)),
        ActionField::Affect => Ok(Given::Affect(affect_of(file, value)?)),
        ActionField::ClearLocks => Ok(Given::ClearLocks(truth_of(file, value)?)),
        ActionField::LatchToLock => Ok(Given::LatchToLock(truth_of(file, value)?)),
    }
}

/// What a field is given where no value is written.
pub(crate) fn flag_given(
    file: u32,
    field: ActionField,
    on: bool,
    whole: Span,
) -> Result<Given, Fault>
    ensures value { result_ok result ≡ flag_given field on }
    ensures faults { Reports result (bad_unless file (is_some (flag_given field on)) whole) }
{
    match field {
        ActionField::ClearLocks => Ok(Given::ClearLocks(on)),
        ActionField::LatchToLock => Ok(Given::LatchToLock(on)),
        ActionField::Modifiers | ActionField::Group | ActionField::Affect => {
            Err(bad_value(file, whole))
        }
    }
}

/// The field of an action that a word names, after which no index may stand.
pub(crate) fn known_field(
    file: u32,
    kind: ActionKind,
    word: &Name,
    index: &Option<Boxed<Index>>,
) -> Result<ActionField, Fault>
    ensures value { result_ok result ≡ known_field kind word.now index.now }
    ensures fault { IfErr result (λ e. e ≡ UnknownField (at file word.now.span)) }
{
    let unknown = Fault::UnknownField(At {
        file,
        span: word.span,
    });
    match index {
        Some(_) => Err(unknown),
        None => kind.field_of(word.bytes.as_slice()).ok_or(unknown),
    }
}
