//! Indicators and names of groups as rows.
ghost use Rattle.std.specs.Prelude.{◌≡◌, ⊤, [], OnOk, IfErr, IfOk, length, map};
ghost use Rattle.kx_builder.specs.Faults.{IsCause};
ghost use Rattle.kx_builder.specs.IndicatorMaps.{NamesFit, indicator_of, with_group_names, with_indicators};
ghost use Rattle.kx_builder.specs.IndicatorMapsAdded.{NameFits, group_name_added, indicator_added};
ghost use Rattle.kx_tables.specs.RawTables.{content_of};

use crate::fault::BuildFault;
use crate::tables::{count, place};
use kx_mods::Mods;
use kx_tables::{GroupNameRow, IndicatorRow, RawTables, States};

/// An indicator: lit by modifiers of the states that it looks at, or by groups of the states that it looks at.
#[derive(Clone, Copy)]
pub struct Indicator<'n> {
    /// Its name, at most 255 bytes.
    pub name: &'n [u8],
    /// The modifiers that light it.
    pub mods: Mods,
    /// Whose modifiers count.
    pub mod_states: States,
    /// Whose groups count.
    pub group_states: States,
    /// The groups that light it: bit g is group g, counted from 0.
    pub groups: u32,
}

/// Appends an indicator's row and its name.
fn push_indicator(parts: &mut RawTables, indicator: &Indicator<'_>) -> Result<(), BuildFault>
    ensures added { OnOk result (content_of parts.new
        ≡ indicator_added (content_of parts.old) (indicator_of indicator.now)) }
    ensures fault { IfErr result (λ e.
        IsCause e (NameFits (content_of parts.old) indicator.now.name.now) ⊤) }
{
    let row = IndicatorRow {
        mods: indicator.mods,
        mod_states: indicator.mod_states,
        group_states: indicator.group_states,
        groups: indicator.groups,
        name_length: count(indicator.name.len())?,
        first_name: place(parts.names.len())?,
    };
    parts.indicators.push(row)?;
    parts.names.extend_from_slice(indicator.name)?;
    Ok(())
}

/// Appends the row of a group's name and the name.
fn push_group_name(parts: &mut RawTables, name: &[u8]) -> Result<(), BuildFault>
    ensures added { OnOk result (content_of parts.new
        ≡ group_name_added (content_of parts.old) name.now) }
    ensures fault { IfErr result (λ e. IsCause e (NameFits (content_of parts.old) name.now) ⊤) }
{
    let row = GroupNameRow {
        name_length: count(name.len())?,
        first_name: place(parts.names.len())?,
    };
    parts.group_names.push(row)?;
    parts.names.extend_from_slice(name)?;
    Ok(())
}

/// Appends indicators in order, where there are none.
pub(crate) fn push_indicators(
    parts: &mut RawTables,
    indicators: &[Indicator<'_>],
) -> Result<(), BuildFault>
    requires { (content_of parts.old).indicators ≡ [] }
    ensures added { OnOk result (content_of parts.new
        ≡ with_indicators (content_of parts.old) (map indicator_of indicators.now)) }
    ensures fault { IfErr result (λ e.
        IsCause e (NamesFit (content_of parts.old) (λ d. d.name.now) indicators.now) ⊤) }
{
    'indicators: for indicator in indicators {
        push_indicator(parts, indicator)?;
    }
    Ok(())
}

/// Appends the names of groups in order, where there are none.
pub(crate) fn push_group_names(parts: &mut RawTables, names: &[&[u8]]) -> Result<(), BuildFault>
    requires { (content_of parts.old).group_names ≡ [] }
    ensures added { OnOk result (content_of parts.new
        ≡ with_group_names (content_of parts.old) (map (λ g. g.now) names.now)) }
    ensures fault { IfErr result (λ e.
        IsCause e (NamesFit (content_of parts.old) (λ g. g.now) names.now) ⊤) }
{
    'names: for name in names {
        push_group_name(parts, name)?;
    }
    Ok(())
}
