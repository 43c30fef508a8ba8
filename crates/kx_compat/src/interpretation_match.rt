//! What interpretations are told apart by.
ghost use Rattle.std.specs.Prelude.{None, ◌≡◌};
ghost use Rattle.kx_mods.specs.Mods.{mask};
ghost use Rattle.kx_ordered.specs.Numbers.{untold};

use kx_mods::{Condition, Mods};
use kx_ordered::TableKey;
use std::alloc::AllocError;

/// The keysyms that an interpretation is for.
#[derive(Clone, Copy, PartialEq, Eq, PartialOrd, Ord, Hash)]
pub enum WantedKeysym {
    /// Each keysym.
    Any,
    /// One, by its number.
    Named(u32),
}

/// For which keys an interpretation is: two interpretations for the same are one.
#[derive(Clone, Copy, PartialEq, Eq, PartialOrd, Ord, Hash)]
pub struct InterpretationMatch {
    pub keysym: WantedKeysym,
    pub condition: Condition,
    /// The interpretation's modifiers, as a mask of real ones.
    pub mask: u8,
}

impl InterpretationMatch {
    ghost use Rattle.std.specs.Prelude.{◌≡◌};
    ghost use Rattle.kx_mods.specs.Mods.{mask};

    /// The interpretation's modifiers.
    pub fn mods(self) -> Mods
        ensures { mask result ≡ self.mask }
    {
        Mods::from_mask(self.mask)
    }
}

impl TableKey for InterpretationMatch {
    ghost number = { λ k. None };

    ghost told = { untold };

    fn number(&self) -> Option<u16> {
        None
    }

    fn again(&self) -> Result<InterpretationMatch, AllocError> {
        Ok(*self)
    }
}
