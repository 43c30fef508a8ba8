//! Actions that are given.
use kx_actions::KeyAction;
use std::marker::Model;

/// An action that a field gives; seen as the action.
#[derive(Clone, Copy)]
pub struct GivenAction {
    action: KeyAction,
}

impl Model for GivenAction {
    ghost use Rattle.kx_actions.specs.declared.action.KeyAction.{KeyAction};

    ghost Value = { KeyAction };

    ghost view = { λ g. g.action };

    ghost inverse = { λ a. record { action = a } };
}

impl GivenAction {
    ghost use Rattle.std.specs.Prelude.{◌≡◌};

    /// This action.
    pub fn of(action: KeyAction) -> GivenAction
        ensures { result ≡ action }
    {
        GivenAction { action }
    }

    /// The action.
    pub fn action(self) -> KeyAction
        ensures { result ≡ self }
    {
        self.action
    }
}
