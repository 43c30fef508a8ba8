//! Indicators.
use crate::states::GivenStates;
use crate::values::IndicatorMapValues;
use kx_tables::States;
use kx_virtual_mods::NameSet;
use std::marker::Model;

/// What lights an indicator: modifiers of some states, or groups of some states.
#[derive(Clone, Copy)]
pub struct IndicatorMap {
    modifiers: NameSet,
    mod_states: GivenStates,
    group_states: GivenStates,
    groups: u32,
}

impl Model for IndicatorMap {
    ghost use Rattle.kx_indicators.specs.IndicatorMaps.{IndicatorMap};

    ghost Value = { IndicatorMap };

    ghost view = { λ l. record {
      modifiers = l.modifiers;
      mod_states = l.mod_states;
      group_states = l.group_states;
      groups = l.groups;
    } };

    ghost inverse = { λ l. record {
      modifiers = l.modifiers;
      mod_states = l.mod_states;
      group_states = l.group_states;
      groups = l.groups;
    } };
}

impl IndicatorMap {
    ghost use Rattle.std.specs.Prelude.{◌≡◌, ◌≤◌};
    ghost use Rattle.kx_tables.specs.States.{state_bits};
    ghost use Rattle.kx_indicators.specs.IndicatorMaps.{indicator_map_with};

    /// What lights an indicator whose fields are given these.
    pub(crate) fn of(values: IndicatorMapValues) -> IndicatorMap
        ensures { result ≡ indicator_map_with values }
    {
        IndicatorMap {
            modifiers: values.modifiers(),
            mod_states: values.mod_states(),
            group_states: values.group_states(),
            groups: values.groups(),
        }
    }

    /// The modifiers that light it.
    pub fn modifiers(&self) -> NameSet
        ensures { result ≡ self.now.modifiers }
    {
        self.modifiers
    }

    /// Whose modifiers count.
    pub fn mod_states(&self) -> States
        ensures value { state_bits result ≡ self.now.mod_states }
        ensures within { state_bits result ≤ 15 }
    {
        States::from_mask(self.mod_states.mask())
    }

    /// Whose groups count.
    pub fn group_states(&self) -> States
        ensures value { state_bits result ≡ self.now.group_states }
        ensures within { state_bits result ≤ 15 }
    {
        States::from_mask(self.group_states.mask())
    }

    /// The groups that light it: bit 0 is group 1.
    pub fn groups(&self) -> u32
        ensures { result ≡ self.now.groups }
    {
        self.groups
    }
}
