//! The interpretations that compat sections declare.
ghost use Rattle.std.specs.Prelude.{◌≡◌, IfErr, IfOk, map};
ghost use Rattle.indexmap.specs.IndexMap.{keys};
ghost use Rattle.kx_include.specs.Shared.{expanded_body};
ghost use Rattle.kx_lex.specs.declared.fault.Fault.TheVariants.{Memory};
ghost use Rattle.kx_virtual_mods.specs.Once.{OffersOnce};
ghost use Rattle.kx_compat.specs.Giving.{interpretation_with};
ghost use Rattle.kx_compat.specs.Meaning.{compat_faults, compat_rules, interpretations_of};
ghost use Rattle.kx_compat.specs.Sections.{DefaultsAreLast};
ghost use Rattle.kx_compat.specs.SameMatch.{same_match};
ghost use Rattle.kx_compat.specs.Shown.{interpretation_recorded};
ghost use Rattle.kx_merge.specs.Reports.{ReportsOrRunsOut};

use crate::index::Interpretations;
use crate::interpretation::Interpretation;
use crate::interpretation_match::InterpretationMatch;
use crate::statements::Context;
use crate::values::FieldValues;
use ks_core::{NameTable, Notes};
use kx_include::Expansion;
use kx_lex::Fault;
use kx_merge::{Plain, merge};
use kx_ordered::Ordered;
use kx_virtual_mods::ModNames;
use std::alloc::Global;

/// What these values say of keys.
fn interpretation_with(
    interpretation_match: InterpretationMatch,
    values: FieldValues,
) -> Interpretation
    ensures { result ≡ interpretation_with interpretation_match values }
{
    Interpretation::of(
        interpretation_match,
        values.action(),
        values.modifier(),
        values.first_level_only().unwrap_or(false),
    )
}

/// The interpretation that records have for the keys of one of them.
fn interpretation_among(
    records: &Ordered<InterpretationMatch, Plain<FieldValues>>,
    named: &(InterpretationMatch, Plain<FieldValues>),
) -> Interpretation
    ensures { result ≡ interpretation_recorded records.now named.now.0 }
{
    let interpretation_match = named.0;
    match records.get(&interpretation_match) {
        Some(record) => interpretation_with(interpretation_match, record.values),
        None => interpretation_with(interpretation_match, FieldValues::none()),
    }
}

/// The interpretations that records have, in order.
fn listed(
    alloc: Global,
    records: &Ordered<InterpretationMatch, Plain<FieldValues>>,
) -> Result<Vec<Interpretation>, Fault>
    ensures value { IfOk result (λ all.
        all.items ≡ map (interpretation_recorded records.now) (keys records.now)) }
    ensures err { IfErr result (λ e. e ≡ Memory) }
{
    let mut all = Vec::new(alloc);
    'entries: for entry in records.as_slice() {
        all.push(interpretation_among(records, entry))?;
    }
    Ok(all)
}

/// The interpretations that the compat sections of a keymap declare, and what is passed over in them, which counts for each
/// place where a map is included.
///
/// # Errors
/// The faults of the statements, at their places: `UnknownField` at a statement or a field that compat sections don't have,
/// at a field with an index where none is taken, at an argument that an action doesn't have, and at a predicate of another
/// name; `BadValue` at a value of the wrong kind, at a field without one, at the number of no keysym, at a predicate without
/// its one mask, and in a predicate at a virtual modifier; `GroupRange` at a group outside of its range; `UnknownModifier` at
/// a modifier that is neither real nor declared; `Memory`.
pub fn interpretations(
    alloc: Global,
    expansion: &Expansion,
    names: &ModNames,
    table: &NameTable,
) -> Result<(Interpretations, Notes), Fault>
    ensures shows { IfOk result (λ found.
        found.0 ≡ interpretations_of table.now names.now.names (expanded_body expansion.now)) }
    ensures defaults { DefaultsAreLast names.now.names }
    ensures once { OffersOnce same_match (compat_rules table.now names.now.names) }
    ensures faults { ReportsOrRunsOut result
        (compat_faults table.now names.now.names (expanded_body expansion.now)) }
{
    let context = Context {
        keysyms: table,
        modifiers: names,
    };
    let merged = merge::<Context, Plain<FieldValues>>(alloc, &context, expansion)?;
    let all = listed(alloc, &merged.records)?;
    let interpretations = Interpretations::of(alloc, all)?;
    Ok((interpretations, merged.notes))
}
