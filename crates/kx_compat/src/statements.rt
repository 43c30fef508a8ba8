//! What the statements of a compat section say of interpretations.
ghost use Rattle.std.specs.Prelude.{◌≡◌, ◌++◌, [], IfOk, Some};
ghost use Rattle.std.specs.List.{flat_map};
ghost use Rattle.std.specs.Option.{option_map};
ghost use Rattle.kx_tree.specs.declared.tree.Mode.{Mode as ModeValue};
ghost use Rattle.kx_merge.specs.Records.{AreOffered};
ghost use Rattle.kx_symbols.specs.KeyFaults.{symbol_faults};
ghost use Rattle.kx_compat.specs.Meaning.{said_offers};
ghost use Rattle.kx_compat.specs.Sections.{interpretation_faults, interpretation_in, next_default, own_faults, own_value, stated_faults, values_of};
ghost use Rattle.kx_symbols.specs.Keys.{field_in};
ghost use Rattle.kx_compat.specs.Matches.{predicate_faults, match_of, match_with};
ghost use Rattle.kx_compat.specs.Giving.{values_cell};
ghost use Rattle.kx_mods.specs.Mods.{mask};
ghost use Rattle.kx_merge.specs.Plain.{plain_form};
ghost use Rattle.kx_merge.specs.Reports.{Reports, ReportsOrRunsOut};

use crate::defaults::CompatDefaults;
use crate::fields::read_field;
use crate::interpretation_match::{InterpretationMatch, WantedKeysym};
use crate::predicates::{read_keysym, read_predicate};
use crate::values::{FieldValue, FieldValues};
use ks_core::{NameTable, Notes};
use kx_lex::{Boxed, Fault};
use kx_merge::{Placed, Plain, records_for, unknown_field};
use kx_mods::{Condition, Mods};
use kx_parse::{Field, Predicate, Statement, Symbol};
use kx_virtual_mods::ModNames;
use std::alloc::Global;

/// What the statements of a compat section are read against.
#[derive(Clone, Copy)]
pub struct Context<'a> {
    pub keysyms: &'a NameTable,
    pub modifiers: &'a ModNames,
}

/// What the statements of a file's compat section are read against.
#[derive(Clone, Copy)]
pub struct FileContext<'a> {
    /// The number of the file.
    pub file: u32,
    pub keysyms: &'a NameTable,
    pub modifiers: &'a ModNames,
}

/// An interpretation as it is written.
#[derive(Clone, Copy)]
pub struct WrittenInterpretation<'s> {
    pub symbol: &'s Symbol,
    pub predicate: &'s Option<Boxed<Predicate>>,
    pub fields: &'s [Field],
}

/// The interpretation that a statement is.
pub fn interpretation_in<'s>(statement: &'s Statement) -> Option<WrittenInterpretation<'s>>
    ensures { option_map (λ i. (i.symbol.now, i.predicate.now, i.fields.now)) result
        ≡ interpretation_in statement.now }
{
    match statement {
        Statement::Interpretation {
            symbol,
            predicate,
            fields,
        } => Some(WrittenInterpretation {
            symbol,
            predicate,
            fields: fields.as_slice(),
        }),
        _ => None,
    }
}

fn match_with(
    keysym: Option<WantedKeysym>,
    condition: Condition,
    mods: Mods,
) -> Option<InterpretationMatch>
    ensures { result ≡ match_with keysym (Some (condition, mask mods)) }
{
    match keysym {
        Some(keysym) => Some(InterpretationMatch {
            keysym,
            condition,
            mask: mods.mask(),
        }),
        None => None,
    }
}

/// For which keys an interpretation is; for none, where no keysym has its name, which is noted.
///
/// # Errors
/// A fault of the symbol or the predicate, with its place in the context's file; `Memory`.
pub fn read_match(
    context: &FileContext,
    written: &WrittenInterpretation,
    notes: &mut Notes,
) -> Result<Option<InterpretationMatch>, Fault>
    ensures value { IfOk result (λ interpretation_match. interpretation_match
        ≡ match_of context.now.keysyms.now written.now.symbol.now written.now.predicate.now) }
    ensures faults { ReportsOrRunsOut result
        (symbol_faults context.now.file written.now.symbol.now
        ++ predicate_faults context.now.file context.now.modifiers.now.names
        written.now.predicate.now) }
{
    let keysym = read_keysym(context.keysyms, context.file, written.symbol, notes)?;
    let (condition, mods) = read_predicate(context.modifiers, context.file, written.predicate)?;
    Ok(match_with(keysym, condition, mods))
}

/// What a field in an interpretation gives it.
fn read_own(
    context: &FileContext,
    defaults: &CompatDefaults,
    field: &Field,
    notes: &mut Notes,
) -> Result<Option<FieldValue>, Fault>
    ensures value { IfOk result (λ value.
        value ≡ own_value context.now.modifiers.now.names defaults.now field.now) }
    ensures faults { Reports result
        (own_faults context.now.file context.now.modifiers.now.names field.now) }
{
    let word = &field.place.word;
    if field.place.member.is_some() {
        return Err(unknown_field(context.file, word));
    }
    read_field(context, &defaults.actions, word, field, notes)
}

/// What the fields of an interpretation give it, after the defaults.
fn read_values(
    context: &FileContext,
    defaults: &CompatDefaults,
    fields: &[Field],
    notes: &mut Notes,
) -> Result<FieldValues, Fault>
    ensures value { IfOk result (λ values.
        values ≡ values_of context.now.modifiers.now.names defaults.now fields.now) }
    ensures faults { Reports result
        (flat_map (own_faults context.now.file context.now.modifiers.now.names) fields.now) }
{
    let mut values = defaults.values;
    'fields: for field in fields {
        values = values.with(read_own(context, defaults, field, notes)?);
    }
    Ok(values)
}

#[tactic(auto, using(kx_merge::proofs::Offered::nothing_offered))]
fn no_records(alloc: Global) -> Vec<(InterpretationMatch, Plain<FieldValues>)>
    ensures { (mode : ModeValue) → AreOffered mode (plain_form values_cell) result.items [] }
{
    Vec::new(alloc)
}

/// What an interpretation gives.
fn read_interpretation(
    alloc: Global,
    context: &FileContext,
    defaults: &CompatDefaults,
    written: &WrittenInterpretation,
    notes: &mut Notes,
) -> Result<Vec<(InterpretationMatch, Plain<FieldValues>)>, Fault>
    ensures records { (mode : ModeValue)
        → IfOk result (λ records. AreOffered mode (plain_form values_cell) records.items
        (said_offers context.now.keysyms.now context.now.modifiers.now.names defaults.now mode
        (Some (written.now.symbol.now, written.now.predicate.now, written.now.fields.now)))) }
    ensures faults { ReportsOrRunsOut result
        (interpretation_faults context.now.file context.now.modifiers.now.names
        (written.now.symbol.now, written.now.predicate.now, written.now.fields.now)) }
{
    let interpretation_match = read_match(context, written, notes)?;
    let values = read_values(context, defaults, written.fields, notes)?;
    records_for(alloc, interpretation_match, Plain { values })
}

/// What a statement gives, under the defaults before it in its section, and the defaults after it.
pub(crate) fn read_statement(
    alloc: Global,
    context: &Context,
    defaults: CompatDefaults,
    placed: &Placed,
    notes: &mut Notes,
) -> Result<
    (
        Vec<(InterpretationMatch, Plain<FieldValues>)>,
        CompatDefaults,
    ),
    Fault,
>
    ensures records { (mode : ModeValue)
        → IfOk result (λ said. AreOffered mode (plain_form values_cell) said.0.items
        (said_offers context.now.keysyms.now context.now.modifiers.now.names defaults mode
        (interpretation_in placed.now.stated.now.statement))) }
    ensures next { IfOk result (λ said.
        said.1 ≡ next_default context.now.modifiers.now.names defaults
        (field_in placed.now.stated.now.statement)) }
    ensures faults { ReportsOrRunsOut result
        (stated_faults placed.now.place.file context.now.modifiers.now.names
        placed.now.stated.now) }
{
    let context = FileContext {
        file: placed.place.file,
        keysyms: context.keysyms,
        modifiers: context.modifiers,
    };
    match interpretation_in(&placed.stated.statement) {
        Some(written) => {
            let records = read_interpretation(alloc, &context, &defaults, &written, notes)?;
            Ok((records, defaults))
        }
        None => {
            let next = defaults.after(&context, placed.stated, notes)?;
            Ok((no_records(alloc), next))
        }
    }
}
