//! What the fields of an indicator are given together.
ghost use Rattle.std.specs.Prelude.{◌≡◌};

use crate::states::GivenStates;
use kx_merge::merged_value;
use kx_parse::Mode;
use kx_virtual_mods::NameSet;
use std::marker::Model;

/// What the fields of an indicator set.
#[derive(Clone, Copy)]
pub enum IndicatorMapField {
    Modifiers,
    ModStates,
    GroupStates,
    Groups,
}

/// What one field gives.
#[derive(Clone, Copy)]
pub enum IndicatorMapValue {
    Modifiers(NameSet),
    ModStates(GivenStates),
    GroupStates(GivenStates),
    /// A mask, of which bit 0 is group 1.
    Groups(u32),
}

/// What fields give; nothing, where they aren't written.
#[derive(Clone, Copy)]
pub struct IndicatorMapValues {
    modifiers: Option<NameSet>,
    mod_states: Option<GivenStates>,
    group_states: Option<GivenStates>,
    groups: Option<u32>,
}

impl Model for IndicatorMapValues {
    ghost use Rattle.kx_indicators.specs.Given.{IndicatorMapValues};

    ghost Value = { IndicatorMapValues };

    ghost view = { λ v. record {
      modifiers = v.modifiers;
      mod_states = v.mod_states;
      group_states = v.group_states;
      groups = v.groups;
    } };

    ghost inverse = { λ v. record {
      modifiers = v.modifiers;
      mod_states = v.mod_states;
      group_states = v.group_states;
      groups = v.groups;
    } };
}

impl IndicatorMapValues {
    ghost use Rattle.std.specs.Prelude.{◌≡◌, Some, unwrap_or};
    ghost use Rattle.kx_merge.specs.Offers.{MergesCells};
    ghost use Rattle.kx_indicators.specs.Giving.{no_values, values_cell, with_value};

    /// Nothing is given.
    pub(crate) fn none() -> IndicatorMapValues
        ensures { result ≡ no_values }
    {
        IndicatorMapValues {
            modifiers: None,
            mod_states: None,
            group_states: None,
            groups: None,
        }
    }

    /// These with what a field gives anew.
    pub(crate) fn with(self, value: Option<IndicatorMapValue>) -> IndicatorMapValues
        ensures { result ≡ with_value self value }
    {
        match value {
            None => self,
            Some(value) => self.with_one(value),
        }
    }

    fn with_one(self, value: IndicatorMapValue) -> IndicatorMapValues
        ensures { result ≡ with_value self (Some value) }
    {
        let mut values = self;
        match value {
            IndicatorMapValue::Modifiers(set) => values.modifiers = Some(set),
            IndicatorMapValue::ModStates(states) => values.mod_states = Some(states),
            IndicatorMapValue::GroupStates(states) => values.group_states = Some(states),
            IndicatorMapValue::Groups(groups) => values.groups = Some(groups),
        }
        values
    }

    /// What is given once more is given under a mode.
    pub(crate) fn merged_with(self, other: IndicatorMapValues, mode: Mode) -> IndicatorMapValues
        ensures { MergesCells mode (values_cell self) (values_cell other) (values_cell result) }
    {
        IndicatorMapValues {
            modifiers: merged_value(mode, self.modifiers, other.modifiers),
            mod_states: merged_value(mode, self.mod_states, other.mod_states),
            group_states: merged_value(mode, self.group_states, other.group_states),
            groups: merged_value(mode, self.groups, other.groups),
        }
    }

    /// The modifiers, none where they aren't given.
    pub(crate) fn modifiers(&self) -> NameSet
        ensures { result ≡ unwrap_or self.now.modifiers 0 }
    {
        self.modifiers.unwrap_or(NameSet::none())
    }

    /// The states of modifiers, the effective one where they aren't given.
    pub(crate) fn mod_states(&self) -> GivenStates
        ensures { result ≡ unwrap_or self.now.mod_states 8 }
    {
        self.mod_states.unwrap_or(GivenStates::effective())
    }

    /// The states of groups, the effective one where they aren't given.
    pub(crate) fn group_states(&self) -> GivenStates
        ensures { result ≡ unwrap_or self.now.group_states 8 }
    {
        self.group_states.unwrap_or(GivenStates::effective())
    }

    /// The groups, none where they aren't given.
    pub(crate) fn groups(&self) -> u32
        ensures { result ≡ unwrap_or self.now.groups 0 }
    {
        self.groups.unwrap_or(0)
    }
}
