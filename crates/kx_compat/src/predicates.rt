//! For which keys the symbol and the predicate of an interpretation are.
ghost use Rattle.std.specs.Prelude.{◌≡◌, [], IfOk, Some};
ghost use Rattle.std.specs.Option.{option_map};
ghost use Rattle.kx_merge.specs.Words.{among};
ghost use Rattle.kx_virtual_mods.specs.Masks.{mask_set};
ghost use Rattle.kx_mods.specs.Mods.{mask};
ghost use Rattle.kx_symbols.specs.KeyFaults.{symbol_faults};
ghost use Rattle.kx_compat.specs.Matches.{call_wants, condition_faults, condition_words, is_any, is_any_word, keysym_among, mask_predicate_faults, mask_wants, only_mask, only_mask_faults, plain_mask, predicate_faults, predicate_wants, wanted_keysym};
ghost use Rattle.kx_merge.specs.Reports.{Reports, ReportsOrRunsOut};

use crate::interpretation_match::WantedKeysym;
use ks_core::{NameTable, Notes};
use kx_lex::{At, Boxed, Fault, Name, Span};
use kx_merge::{bad_value, lone_word, unknown_field};
use kx_mods::{Condition, Mods};
use kx_parse::{Argument, Call, Expression, PlacedArgument, Predicate, Symbol, Term};
use kx_symbols::symbol_keysym;
use kx_virtual_mods::ModNames;

fn is_any(symbol: &Symbol) -> bool
    ensures { result ≡ is_any symbol.now }
{
    match symbol {
        Symbol::Word(word) => {
            let bytes = word.bytes.as_slice();
            bytes.eq_ignore_ascii_case(b"any") || bytes.eq_ignore_ascii_case(b"nosymbol")
        }
        Symbol::Number(_) => false,
    }
}

/// What a symbol with this keysym is for.
fn keysym_among(symbol: &Symbol, keysym: Option<u32>) -> Option<WantedKeysym>
    ensures { result ≡ keysym_among symbol.now keysym }
{
    match keysym {
        Some(keysym) => Some(WantedKeysym::Named(keysym)),
        None => {
            if is_any(symbol) {
                Some(WantedKeysym::Any)
            } else {
                None
            }
        }
    }
}

/// What a symbol is for; none where no keysym has the name, which is noted.
pub(crate) fn read_keysym(
    table: &NameTable,
    file: u32,
    symbol: &Symbol,
    notes: &mut Notes,
) -> Result<Option<WantedKeysym>, Fault>
    ensures value { IfOk result (λ wanted. wanted ≡ wanted_keysym table.now symbol.now) }
    ensures faults { ReportsOrRunsOut result (symbol_faults file symbol.now) }
{
    let keysym = symbol_keysym(table, file, symbol, notes)?;
    Ok(keysym_among(symbol, keysym))
}

fn condition_named(word: &[u8]) -> Option<Condition>
    ensures { result ≡ among condition_words word.now }
{
    if word.eq_ignore_ascii_case(b"exactly") {
        Some(Condition::Exactly)
    } else if word.eq_ignore_ascii_case(b"allOf") {
        Some(Condition::AllOf)
    } else if word.eq_ignore_ascii_case(b"noneOf") {
        Some(Condition::NoneOf)
    } else if word.eq_ignore_ascii_case(b"anyOf") {
        Some(Condition::AnyOf)
    } else if word.eq_ignore_ascii_case(b"anyOfOrNone") {
        Some(Condition::AnyOfOrNone)
    } else {
        None
    }
}

fn plain_mask(argument: &Argument) -> Option<&Expression>
    ensures { option_map (λ e. e.now) result ≡ plain_mask argument.now }
{
    match argument {
        Argument::Plain(expression) => Some(expression),
        Argument::Off(_) => None,
        Argument::Set { .. } => None,
    }
}

/// The mask of a call with one argument, a mask without a name.
fn only_mask(arguments: &[PlacedArgument]) -> Option<&Expression>
    ensures { option_map (λ e. e.now) result ≡ only_mask arguments.now }
{
    match arguments {
        [placed] => plain_mask(&placed.argument),
        _ => None,
    }
}

/// The modifiers that the call of a condition names.
fn read_only_mask(names: &ModNames, file: u32, call: &Call) -> Result<Mods, Fault>
    ensures value { IfOk result (λ mods.
        Some (mask mods) ≡ option_map (mask_set []) (only_mask call.now.arguments)) }
    ensures faults { Reports result
        (only_mask_faults file names.now.names call.now (only_mask call.now.arguments)) }
{
    match only_mask(call.arguments.as_slice()) {
        Some(expression) => names.real_mask_of(file, expression),
        None => Err(bad_value(file, call.span)),
    }
}

/// The condition and the modifiers of a call.
fn read_call(names: &ModNames, file: u32, call: &Call) -> Result<(Condition, Mods), Fault>
    ensures value { IfOk result (λ wanted. Some (wanted.0, mask wanted.1) ≡ call_wants call.now) }
    ensures faults { Reports result
        (condition_faults file names.now.names call.now
        (among condition_words call.now.word.bytes)) }
{
    match condition_named(call.word.bytes.as_slice()) {
        Some(condition) => Ok((condition, read_only_mask(names, file, call)?)),
        None => Err(unknown_field(file, &call.word)),
    }
}

fn is_any_word(expression: &Expression) -> bool
    ensures { result ≡ is_any_word expression.now }
{
    match lone_word(expression) {
        Some(word) => word.bytes.as_slice().eq_ignore_ascii_case(b"any"),
        None => false,
    }
}

/// The condition and the modifiers of a mask without a call.
fn read_mask(
    names: &ModNames,
    file: u32,
    expression: &Expression,
) -> Result<(Condition, Mods), Fault>
    ensures value { IfOk result (λ wanted. (wanted.0, mask wanted.1) ≡ mask_wants expression.now) }
    ensures faults { Reports result (mask_predicate_faults file names.now.names expression.now) }
{
    if is_any_word(expression) {
        return Ok((Condition::AnyOf, Mods::from_mask(255)));
    }
    Ok((Condition::Exactly, names.real_mask_of(file, expression)?))
}

/// The condition and the modifiers of a predicate.
pub(crate) fn read_predicate(
    names: &ModNames,
    file: u32,
    predicate: &Option<Boxed<Predicate>>,
) -> Result<(Condition, Mods), Fault>
    ensures value { IfOk result (λ wanted.
        Some (wanted.0, mask wanted.1) ≡ predicate_wants predicate.now) }
    ensures faults { Reports result (predicate_faults file names.now.names predicate.now) }
{
    match predicate {
        None => Ok((Condition::AnyOfOrNone, Mods::from_mask(255))),
        Some(predicate) => match predicate.get() {
            Predicate::Call(call) => read_call(names, file, call),
            Predicate::Mask(expression) => read_mask(names, file, expression),
        },
    }
}
