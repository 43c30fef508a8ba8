//! Virtual modifiers that are given.
use kx_virtual_mods::MOST_VIRTUAL_MODIFIERS;
use std::marker::Model;

/// A virtual modifier that a field gives; seen as its number.
#[derive(Clone, Copy)]
pub struct GivenModifier {
    number: u8,
}

impl Model for GivenModifier {
    ghost use Rattle.std.specs.Prelude.{◌<◌, ℕ};
    ghost use Rattle.kx_virtual_mods.specs.declared.limits.TheConstants.{MOST_VIRTUAL_MODIFIERS};

    ghost Value = { ℕ };

    ghost view = { λ g. g.number };

    ghost inverse = { λ n. record { number = n } };

    ghost invariant = { λ g. g.number < MOST_VIRTUAL_MODIFIERS };
}

impl GivenModifier {
    ghost use Rattle.std.specs.Prelude.{◌≡◌, ◌<◌};

    /// The virtual modifier of a number.
    pub fn of(number: u8) -> GivenModifier
        requires { number < MOST_VIRTUAL_MODIFIERS }
        ensures { result ≡ number }
    {
        GivenModifier { number }
    }

    /// Its number.
    pub fn number(self) -> u8
        ensures value { result ≡ self }
        ensures within { result < MOST_VIRTUAL_MODIFIERS }
    {
        self.number
    }
}
