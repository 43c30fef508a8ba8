//! The indicators that compat sections declare.
ghost use Rattle.std.specs.Prelude.{◌≡◌, ◌<◌, ℕ, IfErr, IfOk, List, Some, length, nat_eq, slice_get};
ghost use Rattle.indexmap.specs.IndexMap.{get};
ghost use Rattle.kx_include.specs.Shared.{expanded_body};
ghost use Rattle.kx_lex.specs.declared.fault.Fault.TheVariants.{Memory};
ghost use Rattle.kx_virtual_mods.specs.Once.{OffersOnce};
ghost use Rattle.kx_indicators.specs.Blocks.{DefaultsAreLast};
ghost use Rattle.kx_indicators.specs.Bounds.{NamesAreValid};
ghost use Rattle.kx_indicators.specs.Meaning.{AreIndicators, indicator_map_rules, indicator_maps_faults};
ghost use Rattle.kx_indicators.specs.Shown.{indicator_map_recorded};
ghost use Rattle.kx_merge.specs.Reports.{ReportsOrRunsOut};

use crate::blocks::Context;
use crate::indicator_map::IndicatorMap;
use crate::limits::MOST_INDICATORS;
use crate::naming::IndicatorMapNaming;
use crate::table::Indicators;
use crate::values::IndicatorMapValues;
use kx_include::Expansion;
use kx_lex::Fault;
use kx_merge::{Plain, merge};
use kx_ordered::Ordered;
use kx_virtual_mods::{ModNames, Names, count_names};
use std::alloc::Global;

/// The indicator that records have for a number.
fn indicator_map_among(
    records: &Ordered<usize, Plain<IndicatorMapValues>>,
    number: usize,
) -> IndicatorMap
    ensures { result ≡ indicator_map_recorded records.now number }
{
    match records.get(&number) {
        Some(record) => IndicatorMap::of(record.values),
        None => IndicatorMap::of(IndicatorMapValues::none()),
    }
}

/// The indicators that records have for the numbers below a limit.
fn indicator_maps_below(
    alloc: Global,
    records: &Ordered<usize, Plain<IndicatorMapValues>>,
    limit: usize,
) -> Result<Vec<IndicatorMap>, Fault>
    ensures as_many { IfOk result (λ indicator_maps. length indicator_maps.items ≡ limit) }
    ensures indicator_maps { IfOk result (λ indicator_maps. (number : ℕ) → number < limit
        → slice_get indicator_maps.items number
        ≡ Some (indicator_map_recorded records.now number)) }
    ensures err { IfErr result (λ e. e ≡ Memory) }
{
    let mut indicator_maps = Vec::new(alloc);
    'numbers: for number in 0..limit {
        indicator_maps.push(indicator_map_among(records, number))?;
    }
    Ok(indicator_maps)
}

/// The indicators that the compat sections of a keymap declare.
///
/// # Errors
/// The faults of these statements, at their places: `TooMany` at the statement with which there are more than 32, and at one
/// whose name has over 255 bytes; `UnknownField` at one of the four fields with an index; `BadValue` at a value of the wrong
/// kind, at a term that is no modifier, state or group, and at a field without a value; `GroupRange` at a group outside of 1
/// to 32; `UnknownModifier` at a modifier that is neither real nor declared; `Memory`.
pub fn indicators(
    alloc: Global,
    expansion: &Expansion,
    names: &ModNames,
) -> Result<Indicators, Fault>
    ensures shows { IfOk result (λ found.
        AreIndicators found names.now.names (expanded_body expansion.now)) }
    ensures valid { IfOk result (λ found. NamesAreValid found.names) }
    ensures defaults { DefaultsAreLast names.now.names }
    ensures once { (indicator_maps : List (List ℕ))
        → OffersOnce nat_eq (indicator_map_rules indicator_maps names.now.names) }
    ensures faults { ReportsOrRunsOut result
        (indicator_maps_faults names.now.names (expanded_body expansion.now)) }
{
    list_indicators(alloc, expansion, names)
}

fn list_indicators(
    alloc: Global,
    expansion: &Expansion,
    names: &ModNames,
) -> Result<Indicators, Fault>
    ensures shows { IfOk result (λ found.
        AreIndicators found names.now.names (expanded_body expansion.now)) }
    ensures valid { IfOk result (λ found. NamesAreValid found.names) }
    ensures faults { ReportsOrRunsOut result
        (indicator_maps_faults names.now.names (expanded_body expansion.now)) }
{
    let indicator_maps = count_names::<IndicatorMapNaming>(
        alloc,
        MOST_INDICATORS,
        Names::new(alloc),
        expansion,
    )?;
    let context = Context {
        indicators: &indicator_maps,
        modifiers: names,
    };
    let merged = merge::<Context, Plain<IndicatorMapValues>>(alloc, &context, expansion)?;
    let shown = indicator_maps_below(alloc, &merged.records, indicator_maps.len())?;
    Ok(Indicators::of(indicator_maps, shown))
}
