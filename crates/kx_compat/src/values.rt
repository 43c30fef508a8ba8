//! What the fields of an interpretation are given together.
ghost use Rattle.std.specs.Prelude.{◌≡◌};

use crate::action::GivenAction;
use crate::modifier::GivenModifier;
use kx_merge::merged_value;
use kx_parse::Mode;
use std::marker::Model;

/// What can have a value in an interpretation.
#[derive(Clone, Copy)]
pub enum Cell {
    Action,
    Modifier,
    Levels,
}

/// What one field gives.
#[derive(Clone, Copy)]
pub enum FieldValue {
    Action(GivenAction),
    Modifier(GivenModifier),
    /// Whether modifiers are seen at the first level alone.
    FirstLevelOnly(bool),
}

/// What fields give; nothing, where they aren't written.
#[derive(Clone, Copy)]
pub struct FieldValues {
    action: Option<GivenAction>,
    modifier: Option<GivenModifier>,
    first_level_only: Option<bool>,
}

impl Model for FieldValues {
    ghost use Rattle.kx_compat.specs.Given.{FieldValues};

    ghost Value = { FieldValues };

    ghost view = { λ v. record {
      action = v.action;
      modifier = v.modifier;
      first_level_only = v.first_level_only;
    } };

    ghost inverse = { λ v. record {
      action = v.action;
      modifier = v.modifier;
      first_level_only = v.first_level_only;
    } };
}

impl FieldValues {
    ghost use Rattle.std.specs.Prelude.{◌≡◌};
    ghost use Rattle.kx_merge.specs.Offers.{MergesCells};
    ghost use Rattle.kx_compat.specs.Giving.{no_values, values_cell, with_value};

    /// Nothing is given.
    pub(crate) fn none() -> FieldValues
        ensures { result ≡ no_values }
    {
        FieldValues {
            action: None,
            modifier: None,
            first_level_only: None,
        }
    }

    /// These with what a field gives anew.
    pub(crate) fn with(self, value: Option<FieldValue>) -> FieldValues
        ensures { result ≡ with_value self value }
    {
        match value {
            None => self,
            Some(value) => self.with_one(value),
        }
    }

    fn with_one(self, value: FieldValue) -> FieldValues
        ensures { result ≡ with_value self (Some value) }
    {
        match value {
            FieldValue::Action(action) => FieldValues {
                action: Some(action),
                modifier: self.modifier,
                first_level_only: self.first_level_only,
            },
            FieldValue::Modifier(modifier) => FieldValues {
                action: self.action,
                modifier: Some(modifier),
                first_level_only: self.first_level_only,
            },
            FieldValue::FirstLevelOnly(only) => FieldValues {
                action: self.action,
                modifier: self.modifier,
                first_level_only: Some(only),
            },
        }
    }

    /// The action that is given.
    pub(crate) fn action(&self) -> Option<GivenAction>
        ensures { result ≡ self.now.action }
    {
        self.action
    }

    /// The virtual modifier that is given.
    pub(crate) fn modifier(&self) -> Option<GivenModifier>
        ensures { result ≡ self.now.modifier }
    {
        self.modifier
    }

    /// Whether modifiers are seen at the first level alone, where that is given.
    pub(crate) fn first_level_only(&self) -> Option<bool>
        ensures { result ≡ self.now.first_level_only }
    {
        self.first_level_only
    }

    /// What is given once more is given under a mode.
    pub(crate) fn merged_with(self, other: FieldValues, mode: Mode) -> FieldValues
        ensures { MergesCells mode (values_cell self) (values_cell other) (values_cell result) }
    {
        FieldValues {
            action: merged_value(mode, self.action, other.action),
            modifier: merged_value(mode, self.modifier, other.modifier),
            first_level_only: merged_value(mode, self.first_level_only, other.first_level_only),
        }
    }
}
