//! Indicators and the names of groups, as tables take them.
ghost use Rattle.std.specs.Prelude.{◌≡◌, ◌≤◌, ◌<◌, ◌∷◌, ◌++◌, ◌^◌, [], ℕ, All, IfErr, IfOk, List, OnOk, Some, length, map, slice_get};
ghost use Rattle.kx_basics.specs.declared.limits.TheConstants.{MOST_NAME_BYTES};
ghost use Rattle.kx_builder.specs.Agreement.{ShowsSame};
ghost use Rattle.kx_builder.specs.Valid.{IsValid};
ghost use Rattle.kx_builder.specs.IndicatorMaps.{GroupNameIsValid, IndicatorIsValid, indicator_of, keymap_with, with_indicator_maps};
ghost use Rattle.kx_builder.specs.Placed.{content_of_resolved};
ghost use Rattle.kx_builder.specs.Resolved.{keymap_of_resolved};
ghost use Rattle.kx_builder.specs.Whole.{IsWhole};
ghost use Rattle.kx_group_names.specs.Names.{AreCut};
ghost use Rattle.kx_indicators.specs.Bounds.{AreValid};
ghost use Rattle.kx_indicators.specs.IndicatorMaps.{IndicatorMap as IndicatorMapValue};
ghost use Rattle.kx_keys.specs.Rows.{mods_of};
ghost use Rattle.kx_lex.specs.declared.fault.Fault.TheVariants.{Memory};
ghost use Rattle.kx_mods.specs.Mods.{mask};
ghost use Rattle.kx_resolve.specs.Lit.{indicator_lit, indicators_of};
ghost use Rattle.kx_resolve.specs.Read.{lit_in};
ghost use Rattle.kx_keys.specs.Standing.{real_by};
ghost use Rattle.kx_tables.specs.Keymap.{keymap_of};
ghost use Rattle.kx_tables.specs.RawTables.{content_of};
ghost use Rattle.kx_tables.specs.Sound.{Sound};

use crate::read::Read;
use crate::tables_builder::TablesBuilder;
use ks_core::Notes;
use kx_builder::Indicator;
use kx_group_names::GroupNames;
use kx_indicators::{IndicatorMap, Indicators};
use kx_lex::Fault;
use kx_mods::Mods;
use kx_tables::RawTables;
use kx_virtual_mods::{NameSet, real_of as stood_for};
use std::alloc::Global;

/// The real modifiers that a set stands for.
fn real_mods(set: NameSet, stands: &[Mods]) -> Mods
    ensures value { result ≡ mods_of (real_by stands.now set) }
    ensures fits { mask result < 2 ^ 8 }
{
    stood_for(set, stands)
}

/// An indicator of a name.
fn indicator<'n>(name: &'n [u8], indicator_map: &IndicatorMap, stands: &[Mods]) -> Indicator<'n>
    requires { length name.now ≤ MOST_NAME_BYTES }
    ensures lit { indicator_of result
        ≡ indicator_lit (real_by stands.now) name.now indicator_map.now }
    ensures valid { IndicatorIsValid (indicator_of result) }
{
    Indicator {
        name,
        mods: real_mods(indicator_map.modifiers(), stands),
        mod_states: indicator_map.mod_states(),
        group_states: indicator_map.group_states(),
        groups: indicator_map.groups(),
    }
}

/// Adds the indicator of a number after others.
fn push_indicator<'a>(
    lit: &mut Vec<Indicator<'a>>,
    indicators: &'a Indicators,
    stands: &[Mods],
    number: usize,
) -> Result<(), Fault>
    requires { All (λ name. length name ≤ MOST_NAME_BYTES) indicators.now.names }
    ensures lit { OnOk result ((name : List ℕ) (indicator_map : IndicatorMapValue)
        → slice_get indicators.now.names number ≡ Some name
        → slice_get indicators.now.indicator_maps number ≡ Some indicator_map
        → map indicator_of lit.new.items
        ≡ map indicator_of lit.old.items
        ++ indicator_lit (real_by stands.now) name indicator_map ∷ []) }
    ensures valid { OnOk result (All IndicatorIsValid (map indicator_of lit.old.items)
        → All IndicatorIsValid (map indicator_of lit.new.items)) }
    ensures err { IfErr result (λ e. e ≡ Memory) }
{
    match (indicators.name(number), indicators.indicator_map(number)) {
        (Some(name), Some(indicator_map)) => {
            lit.push(indicator(name, indicator_map, stands))?;
            Ok(())
        }
        (Some(_), None) => Ok(()),
        (None, _) => Ok(()),
    }
}

/// The indicators of a keymap, in the order of their numbers.
fn indicators_lit<'a>(
    alloc: Global,
    indicators: &'a Indicators,
    stands: &[Mods],
) -> Result<Vec<Indicator<'a>>, Fault>
    ensures lit { IfOk result (λ lit. map indicator_of lit.items
        ≡ indicators_of (real_by stands.now) indicators.now) }
    ensures valid { IfOk result (λ lit. All IndicatorIsValid (map indicator_of lit.items)) }
    ensures numbered { AreValid indicators.now }
    ensures err { IfErr result (λ e. e ≡ Memory) }
{
    let mut lit = Vec::new(alloc);
    'indicators: for number in 0..indicators.len() {
        push_indicator(&mut lit, indicators, stands, number)?;
    }
    Ok(lit)
}

/// Adds the name of a group after others.
fn push_name<'a>(names: &mut Vec<&'a [u8]>, name: &'a [u8]) -> Result<(), Fault>
    requires { length name.now ≤ MOST_NAME_BYTES }
    ensures pushed { OnOk result (map (λ g. g.now) names.new.items
        ≡ map (λ g. g.now) names.old.items ++ name.now ∷ []) }
    ensures valid { GroupNameIsValid name.now }
    ensures err { IfErr result (λ e. e ≡ Memory) }
{
    names.push(name)?;
    Ok(())
}

/// The names of groups, in their order.
fn names_in_order<'a>(alloc: Global, group_names: &'a GroupNames) -> Result<Vec<&'a [u8]>, Fault>
    ensures names { IfOk result (λ names. map (λ g. g.now) names.items ≡ group_names.now) }
    ensures valid { IfOk result (λ names. All GroupNameIsValid (map (λ g. g.now) names.items)) }
    ensures cut { AreCut group_names.now }
    ensures err { IfErr result (λ e. e ≡ Memory) }
{
    let mut names = Vec::new(alloc);
    'groups: for group in 0..group_names.len() {
        push_name(&mut names, group_names.name(group))?;
    }
    Ok(names)
}

/// The tables of what is built, with a keymap's indicators and the names of its groups, and what was passed over.
pub(crate) fn with_indicator_maps(
    alloc: Global,
    builder: TablesBuilder,
    read: Read,
) -> Result<(RawTables, Notes), Fault>
    ensures content { IfOk result (λ made. content_of made.0
        ≡ with_indicator_maps (content_of_resolved builder) (lit_in read.entry)
        read.entry.group_names.now) }
    ensures agrees { IsWhole builder → IfOk result (λ made.
        ShowsSame (keymap_of (content_of made.0))
        (keymap_with (keymap_of_resolved builder) (lit_in read.entry))) }
    ensures sound { IsValid builder → IfOk result (λ made. Sound (content_of made.0)) }
    ensures err { IfErr result (λ e. e ≡ Memory) }
{
    let lit = indicators_lit(alloc, read.indicators, read.stands)?;
    let names = names_in_order(alloc, read.group_names)?;
    let made = builder.with_indicator_maps(lit.as_slice(), names.as_slice())?;
    Ok(made)
}
