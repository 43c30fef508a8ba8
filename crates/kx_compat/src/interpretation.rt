//! Interpretations.
use crate::action::GivenAction;
use crate::interpretation_match::InterpretationMatch;
use crate::modifier::GivenModifier;
use kx_actions::KeyAction;
use kx_virtual_mods::MOST_VIRTUAL_MODIFIERS;
use std::marker::Model;

/// What a keymap says of keys with some keysyms and modifiers.
#[derive(Clone, Copy)]
pub struct Interpretation {
    interpretation_match: InterpretationMatch,
    action: Option<GivenAction>,
    modifier: Option<GivenModifier>,
    first_level_only: bool,
}

impl Model for Interpretation {
    ghost use Rattle.kx_compat.specs.Interpretations.{Interpretation};

    ghost Value = { Interpretation };

    ghost view = { λ i. record {
      interpretation_match = i.interpretation_match;
      action = i.action;
      modifier = i.modifier;
      first_level_only = i.first_level_only;
    } };

    ghost inverse = { λ i. record {
      interpretation_match = i.interpretation_match;
      action = i.action;
      modifier = i.modifier;
      first_level_only = i.first_level_only;
    } };
}

impl Interpretation {
    ghost use Rattle.std.specs.Prelude.{◌≡◌, ◌<◌, IfSome};

    /// What is said of keys by these.
    pub fn of(
        interpretation_match: InterpretationMatch,
        action: Option<GivenAction>,
        modifier: Option<GivenModifier>,
        first_level_only: bool,
    ) -> Interpretation
        ensures { result ≡ record {
          interpretation_match = interpretation_match;
          action = action;
          modifier = modifier;
          first_level_only = first_level_only;
        } }
    {
        Interpretation {
            interpretation_match,
            action,
            modifier,
            first_level_only,
        }
    }

    /// For which keys it is.
    pub fn interpretation_match(&self) -> InterpretationMatch
        ensures { result ≡ self.now.interpretation_match }
    {
        self.interpretation_match
    }

    /// What a level of such a key does, where it says so.
    pub fn action(&self) -> Option<KeyAction>
        ensures { result ≡ self.now.action }
    {
        match self.action {
            Some(given) => Some(given.action()),
            None => None,
        }
    }

    /// The virtual modifier that such a key bears, by its number, where it says so.
    pub fn modifier(&self) -> Option<u8>
        ensures value { result ≡ self.now.modifier }
        ensures within { IfSome result (λ number. number < MOST_VIRTUAL_MODIFIERS) }
    {
        match self.modifier {
            Some(given) => Some(given.number()),
            None => None,
        }
    }

    /// Whether it sees a key's modifiers at the first level alone: at others the key has none for it. It gives its virtual
    /// modifier at the first level alone, then.
    pub fn first_level_only(&self) -> bool
        ensures { result ≡ self.now.first_level_only }
    {
        self.first_level_only
    }
}
