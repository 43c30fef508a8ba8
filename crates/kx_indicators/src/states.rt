//! States that are given.
ghost use Rattle.std.specs.Prelude.{◌≡◌};

use std::marker::Model;

/// The states that a field of an indicator gives; seen as their mask.
#[derive(Clone, Copy)]
pub struct GivenStates {
    mask: u8,
}

impl Model for GivenStates {
    ghost use Rattle.std.specs.Prelude.{◌<◌, ℕ};

    ghost Value = { ℕ };

    ghost view = { λ g. g.mask };

    ghost inverse = { λ m. record { mask = m } };

    ghost invariant = { λ g. g.mask < 16 };
}

impl GivenStates {
    ghost use Rattle.std.specs.Prelude.{◌≡◌, ◌<◌};

    /// The effective state.
    pub(crate) const fn effective() -> GivenStates
        ensures { result ≡ 8 }
    {
        GivenStates { mask: 8 }
    }

    /// The states of a mask.
    pub(crate) fn of(mask: u32) -> GivenStates
        requires { mask < 16 }
        ensures { result ≡ mask }
    {
        GivenStates { mask: mask as u8 }
    }

    /// The mask.
    pub(crate) fn mask(self) -> u8
        ensures value { result ≡ self }
        ensures within { result < 16 }
    {
        self.mask
    }
}
