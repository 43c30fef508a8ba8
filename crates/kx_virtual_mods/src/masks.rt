//! What masks name.
ghost use Rattle.std.specs.Prelude.{◌≡◌, ◌≤◌, ◌<◌, [], fold, length, IfErr, IfOk, unwrap_or};
ghost use Rattle.std.specs.List.{flat_map};
ghost use Rattle.kx_mods.specs.Mods.{mask};
ghost use Rattle.kx_include.specs.IncludeFaults.{at};
ghost use Rattle.kx_lex.specs.declared.fault.Fault.TheVariants.{BadValue};
ghost use Rattle.kx_virtual_mods.specs.Masks.{joined, mask_faults, mask_set, operated, operation_faults, real_mask_faults, real_word_faults, term_faults, term_set, word_faults, word_set};
ghost use Rattle.kx_merge.specs.Reports.{Reports};

use crate::limits::MOST_VIRTUAL_MODIFIERS;
use crate::names::Names;
use crate::real_words::real_mask;
use crate::set::NameSet;
use kx_lex::{At, Fault, Name, Number, Span};
use kx_mods::Mods;
use kx_parse::{Expression, Operation, Sign, Term};

fn bad_value(file: u32, span: Span) -> Fault
    ensures { result ≡ BadValue (at file span) }
{
    Fault::BadValue(At { file, span })
}

/// The mask of a number, which has at most eight bits.
fn number_mask(file: u32, number: Number) -> Result<Mods, Fault>
    ensures value { IfOk result (λ m. (mask m ≡ number.value) × (number.value ≤ 255)) }
    ensures fault { IfErr result (λ e. (255 < number.value)
        × (e ≡ BadValue (at file number.span))) }
{
    match u8::try_from(number.value) {
        Ok(bits) => Ok(Mods::from_mask(bits)),
        Err(_) => Err(bad_value(file, number.span)),
    }
}

/// The real modifiers that a word stands for.
fn real_word(names: &Names, file: u32, word: &Name) -> Result<Mods, Fault>
    ensures value { IfOk result (λ m. mask m ≡ unwrap_or (word_set [] word.now.bytes) 0) }
    ensures faults { Reports result (real_word_faults file names.now word.now) }
{
    let bytes = word.bytes.as_slice();
    if let Some(mods) = real_mask(bytes) {
        return Ok(mods);
    }
    match names.number_of(bytes) {
        Some(_) => Err(bad_value(file, word.span)),
        None => Err(Fault::UnknownModifier(At {
            file,
            span: word.span,
        })),
    }
}

/// The modifiers that a word stands for.
fn word_set(names: &Names, file: u32, word: &Name) -> Result<NameSet, Fault>
    requires { length names.now ≤ MOST_VIRTUAL_MODIFIERS }
    ensures value { IfOk result (λ set. set ≡ unwrap_or (word_set names.now word.now.bytes) 0) }
    ensures faults { Reports result (word_faults file names.now word.now) }
{
    let bytes = word.bytes.as_slice();
    if let Some(mods) = real_mask(bytes) {
        return Ok(NameSet::of_real(mods));
    }
    match names.number_of(bytes) {
        Some(number) => Ok(NameSet::of_virtual(number as u8)),
        None => Err(Fault::UnknownModifier(At {
            file,
            span: word.span,
        })),
    }
}

fn real_term(names: &Names, file: u32, term: &Term) -> Result<Mods, Fault>
    ensures value { IfOk result (λ m. mask m ≡ term_set [] term.now) }
    ensures faults { Reports result (term_faults file (real_word_faults file names.now) term.now) }
{
    match term {
        Term::Number(number) => number_mask(file, *number),
        Term::Word(word) => real_word(names, file, word),
        Term::Signed(signed) => Err(bad_value(file, signed.span)),
        Term::Text(text) => Err(bad_value(file, text.span)),
        Term::KeyName(name) => Err(bad_value(file, name.span())),
    }
}

fn term_set(names: &Names, file: u32, term: &Term) -> Result<NameSet, Fault>
    requires { length names.now ≤ MOST_VIRTUAL_MODIFIERS }
    ensures value { IfOk result (λ set. set ≡ term_set names.now term.now) }
    ensures faults { Reports result (term_faults file (word_faults file names.now) term.now) }
{
    match term {
        Term::Number(number) => {
            let mods = number_mask(file, *number)?;
            Ok(NameSet::of_real(mods))
        }
        Term::Word(word) => word_set(names, file, word),
        Term::Signed(signed) => Err(bad_value(file, signed.span)),
        Term::Text(text) => Err(bad_value(file, text.span)),
        Term::KeyName(name) => Err(bad_value(file, name.span())),
    }
}

fn joined_real(sign: Sign, mods: Mods, other: Mods) -> Mods
    ensures { mask result ≡ joined sign (mask mods) (mask other) }
{
    match sign {
        Sign::Plus => mods.with(other),
        Sign::Minus => mods.minus(other),
    }
}

fn joined(sign: Sign, set: NameSet, other: NameSet) -> NameSet
    ensures { result ≡ joined sign set other }
{
    match sign {
        Sign::Plus => set.with(other),
        Sign::Minus => set.minus(other),
    }
}

/// The real modifiers that terms leave after others.
fn real_operations(
    names: &Names,
    file: u32,
    before: Mods,
    operations: &[Operation],
) -> Result<Mods, Fault>
    ensures value { IfOk result (λ m. mask m ≡ fold (operated []) (mask before) operations.now) }
    ensures faults { Reports result
        (flat_map (operation_faults file (real_word_faults file names.now)) operations.now) }
{
    let mut mods = before;
    'operations: for operation in operations {
        let other = real_term(names, file, &operation.term)?;
        mods = joined_real(operation.sign, mods, other);
    }
    Ok(mods)
}

/// The modifiers that terms leave after others.
fn set_operations(
    names: &Names,
    file: u32,
    before: NameSet,
    operations: &[Operation],
) -> Result<NameSet, Fault>
    requires { length names.now ≤ MOST_VIRTUAL_MODIFIERS }
    ensures value { IfOk result (λ set. set ≡ fold (operated names.now) before operations.now) }
    ensures faults { Reports result
        (flat_map (operation_faults file (word_faults file names.now)) operations.now) }
{
    let mut set = before;
    'operations: for operation in operations {
        let other = term_set(names, file, &operation.term)?;
        set = joined(operation.sign, set, other);
    }
    Ok(set)
}

/// The real modifiers that a mask names, in which virtual modifiers may not stand.
pub(crate) fn real_mask_of(names: &Names, file: u32, expression: &Expression) -> Result<Mods, Fault>
    ensures value { IfOk result (λ m. mask m ≡ mask_set [] expression.now) }
    ensures faults { Reports result (real_mask_faults file names.now expression.now) }
{
    let first = real_term(names, file, &expression.first)?;
    real_operations(names, file, first, expression.rest.as_slice())
}

/// The modifiers that a mask names.
pub(crate) fn mask_of(names: &Names, file: u32, expression: &Expression) -> Result<NameSet, Fault>
    requires { length names.now ≤ MOST_VIRTUAL_MODIFIERS }
    ensures value { IfOk result (λ set. set ≡ mask_set names.now expression.now) }
    ensures faults { Reports result (mask_faults file names.now expression.now) }
{
    let first = term_set(names, file, &expression.first)?;
    set_operations(names, file, first, expression.rest.as_slice())
}
