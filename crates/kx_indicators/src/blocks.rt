//! What the statements of a compat section say of indicators.
ghost use Rattle.std.specs.Prelude.{◌≡◌, ◌++◌, [], IfOk, Some};
ghost use Rattle.std.specs.List.{flat_map};
ghost use Rattle.kx_tree.specs.declared.tree.Mode.{Mode as ModeValue};
ghost use Rattle.kx_merge.specs.Records.{AreOffered};
ghost use Rattle.kx_indicators.specs.Blocks.{default_faults, default_in, given_value, indicator_in, next_default, own_faults, own_value, said_faults, values_of};
ghost use Rattle.kx_indicators.specs.Giving.{values_cell, with_value};
ghost use Rattle.kx_indicators.specs.Meaning.{said_offers};
ghost use Rattle.kx_merge.specs.Faults.{name_faults};
ghost use Rattle.kx_merge.specs.Plain.{plain_form};
ghost use Rattle.kx_merge.specs.Reports.{Reports, ReportsOrRunsOut};

use crate::defaults::default_in;
use crate::fields::read_field;
use crate::naming::{DeclaredIndicator, indicator_in};
use crate::values::{IndicatorMapValue, IndicatorMapValues};
use kx_basics::MOST_NAME_BYTES;
use kx_lex::{At, Fault};
use kx_merge::{Placed, Plain, records_for};
use kx_parse::{Field, Statement};
use kx_virtual_mods::{ModNames, Names};
use std::alloc::Global;

/// What the statements of indicators are read against.
#[derive(Clone, Copy)]
pub struct Context<'a> {
    /// The names of indicators.
    pub indicators: &'a Names,
    pub modifiers: &'a ModNames,
}

/// What a field in an indicator gives it.
fn read_own(names: &ModNames, file: u32, field: &Field) -> Result<Option<IndicatorMapValue>, Fault>
    ensures value { IfOk result (λ value. value ≡ own_value names.now.names field.now) }
    ensures faults { Reports result (own_faults file names.now.names field.now) }
{
    if field.place.member.is_some() {
        return Ok(None);
    }
    read_field(names, file, &field.place.word, field)
}

/// What the fields of an indicator give it, after the defaults.
fn read_values(
    names: &ModNames,
    file: u32,
    defaults: IndicatorMapValues,
    fields: &[Field],
) -> Result<IndicatorMapValues, Fault>
    ensures value { IfOk result (λ values. values ≡ values_of names.now.names defaults fields.now) }
    ensures faults { Reports result (flat_map (own_faults file names.now.names) fields.now) }
{
    let mut values = defaults;
    'fields: for field in fields {
        values = values.with(read_own(names, file, field)?);
    }
    Ok(values)
}

#[tactic(auto, using(kx_merge::proofs::Offered::nothing_offered))]
fn no_records(alloc: Global) -> Vec<(usize, Plain<IndicatorMapValues>)>
    ensures { (mode : ModeValue) → AreOffered mode (plain_form values_cell) result.items [] }
{
    Vec::new(alloc)
}

/// What an indicator gives; `whole` is the statement.
fn read_indicator(
    alloc: Global,
    context: &Context,
    defaults: IndicatorMapValues,
    whole: At,
    declared: &DeclaredIndicator,
) -> Result<Vec<(usize, Plain<IndicatorMapValues>)>, Fault>
    ensures records { (mode : ModeValue)
        → IfOk result (λ records. AreOffered mode (plain_form values_cell) records.items
        (said_offers context.now.indicators.now context.now.modifiers.now.names defaults mode
        (Some (declared.now.name.now, declared.now.fields.now)))) }
    ensures faults { ReportsOrRunsOut result
        (name_faults whole.file whole.span declared.now.name.now
        ++ flat_map (own_faults whole.file context.now.modifiers.now.names)
        declared.now.fields.now) }
{
    let bytes = declared.name.bytes.as_slice();
    if bytes.len() > MOST_NAME_BYTES {
        return Err(Fault::TooMany(whole));
    }
    let values = read_values(context.modifiers, whole.file, defaults, declared.fields)?;
    records_for(alloc, context.indicators.number_of(bytes), Plain { values })
}

/// The defaults after a statement that is no indicator.
fn read_default(
    names: &ModNames,
    file: u32,
    defaults: IndicatorMapValues,
    statement: &Statement,
) -> Result<IndicatorMapValues, Fault>
    ensures next { IfOk result (λ d.
        d ≡ with_value defaults (given_value names.now.names (default_in statement.now))) }
    ensures faults { Reports result
        (default_faults file names.now.names (default_in statement.now)) }
{
    match default_in(statement) {
        None => Ok(defaults),
        Some((member, field)) => Ok(defaults.with(read_field(names, file, member, field)?)),
    }
}

/// What a statement gives, under the defaults before it in its section, and the defaults after it.
pub(crate) fn read_statement(
    alloc: Global,
    context: &Context,
    defaults: IndicatorMapValues,
    placed: &Placed,
) -> Result<(Vec<(usize, Plain<IndicatorMapValues>)>, IndicatorMapValues), Fault>
    ensures records { (mode : ModeValue)
        → IfOk result (λ said. AreOffered mode (plain_form values_cell) said.0.items
        (said_offers context.now.indicators.now context.now.modifiers.now.names defaults mode
        (indicator_in placed.now.stated.now.statement))) }
    ensures next { IfOk result (λ said.
        said.1 ≡ next_default context.now.modifiers.now.names defaults
        placed.now.stated.now.statement) }
    ensures faults { ReportsOrRunsOut result
        (said_faults placed.now.place.file context.now.modifiers.now.names
        placed.now.stated.now.statement placed.now.stated.now.span
        (indicator_in placed.now.stated.now.statement)) }
{
    let statement = &placed.stated.statement;
    match indicator_in(statement) {
        Some(declared) => {
            let records = read_indicator(alloc, context, defaults, placed.whole(), &declared)?;
            Ok((records, defaults))
        }
        None => {
            let next = read_default(context.modifiers, placed.place.file, defaults, statement)?;
            Ok((no_records(alloc), next))
        }
    }
}
