//! Sets of names of modifiers.
ghost use Rattle.std.specs.Prelude.{None, ◌≡◌, ◌<◌, ◌^◌, ◌==◌};
ghost use Rattle.kx_ordered.specs.Numbers.{untold};

use crate::limits::MOST_VIRTUAL_MODIFIERS;
use kx_mods::Mods;
use kx_ordered::TableKey;
use std::alloc::AllocError;
use std::marker::Model;

/// A set of names of modifiers: bits 0 to 7 are the real ones, Shift, Lock, Control and Mod1 to Mod5, and bits 8 to 31 the
/// virtual ones by their numbers, 0 to 23; seen as the number.
#[derive(Clone, Copy, PartialEq, Eq, PartialOrd, Ord, Hash)]
pub struct NameSet {
    bits: u32,
}

impl Model for NameSet {
    ghost use Rattle.std.specs.Prelude.{ℕ};

    ghost Value = { ℕ };

    ghost view = { λ s. s.bits };

    ghost inverse = { λ n. record { bits = n } };
}

impl NameSet {
    ghost use Rattle.std.specs.Prelude.{◌≡◌, ◌<◌, ◌^◌, ◌==◌};
    ghost use Rattle.kx_mods.specs.Mods.{mask};
    ghost use Rattle.kx_virtual_mods.specs.Sets.{has_virtual, meet, real_part, union, virtual_set, without};

    /// The empty set.
    pub const fn none() -> NameSet
        ensures { result ≡ 0 }
    {
        NameSet { bits: 0 }
    }

    /// The set of real modifiers.
    pub fn of_real(mods: Mods) -> NameSet
        ensures { result ≡ mask mods }
    {
        NameSet {
            bits: u32::from(mods.mask()),
        }
    }

    /// The set of the virtual modifier of a number, counted from 0.
    pub fn of_virtual(number: u8) -> NameSet
        requires { number < MOST_VIRTUAL_MODIFIERS }
        ensures { result ≡ virtual_set number }
    {
        NameSet {
            bits: 1 << (number + 8),
        }
    }

    /// The set as bits.
    pub const fn bits(self) -> u32
        ensures value { result ≡ self }
        ensures in_range { self < 2 ^ 32 }
    {
        self.bits
    }

    /// Whether no name is in the set.
    pub const fn is_none(self) -> bool
        ensures { result ≡ (self == 0) }
    {
        self.bits == 0
    }

    /// The names of either set.
    pub const fn with(self, other: NameSet) -> NameSet
        ensures { result ≡ union self other }
    {
        NameSet {
            bits: self.bits | other.bits,
        }
    }

    /// The names of this set that the other lacks.
    pub const fn minus(self, other: NameSet) -> NameSet
        ensures { result ≡ without self other }
    {
        NameSet {
            bits: self.bits & !other.bits,
        }
    }

    /// The names of both sets.
    pub const fn meet(self, other: NameSet) -> NameSet
        ensures { result ≡ meet self other }
    {
        NameSet {
            bits: self.bits & other.bits,
        }
    }

    /// The real modifiers of the set.
    pub fn real(self) -> Mods
        ensures { mask result ≡ real_part self }
    {
        Mods::from_mask((self.bits % 256) as u8)
    }

    /// Whether the virtual modifier of a number, counted from 0, is in the set.
    pub fn has_virtual(self, number: u8) -> bool
        requires { number < MOST_VIRTUAL_MODIFIERS }
        ensures { result ≡ has_virtual self number }
    {
        (self.bits >> (number + 8)) & 1 == 1
    }
}

impl TableKey for NameSet {
    ghost number = { λ k. None };

    ghost told = { untold };

    fn number(&self) -> Option<u16> {
        None
    }

    fn again(&self) -> Result<NameSet, AllocError> {
        Ok(*self)
    }
}
