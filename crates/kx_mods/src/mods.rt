//! Sets of real modifiers.
ghost use Rattle.std.specs.Prelude.{◌≡◌, ◌==◌, ◌<◌, ◌^◌, ⊤, [], ◌∷◌, Some, codes, slice_get};
ghost use Rattle.std.specs.Int.RustNames.{bit_and, bit_or};

use bitflags::{Flag, Flags, bitflag_items};

/// A set of real modifiers: bits 0 to 7 are Shift, Lock, Control and Mod1 to Mod5.
#[derive(Clone, Copy, Debug, PartialEq, Eq)]
pub struct Mods(u8);

bitflag_items! {
    impl Mods: u8 {
        const SHIFT = 1;
        const LOCK = 2;
        const CONTROL = 4;
        const MOD1 = 8;
        const MOD2 = 16;
        const MOD3 = 32;
        const MOD4 = 64;
        const MOD5 = 128;
    }
}

impl Flags for Mods {
    type Bits = u8;

    ghost exact = { ⊤ };

    ghost table = { (codes "SHIFT", 1) ∷ (codes "LOCK", 2) ∷ (codes "CONTROL", 4)
        ∷ (codes "MOD1", 8) ∷ (codes "MOD2", 16) ∷ (codes "MOD3", 32) ∷ (codes "MOD4", 64)
        ∷ (codes "MOD5", 128) ∷ [] };

    ghost set_of = { λ m. m.0 };

    fn flags<'a>() -> &'a [Flag<Mods>] {
        Mods::FLAGS
    }

    fn bits(&self) -> u8 {
        self.0
    }

    fn from_bits_retain(bits: u8) -> Mods {
        Mods(bits)
    }
}

impl Mods {
    ghost use Rattle.kx_mods.specs.Mods.{mask, mask_without, mod_names};

    /// The empty set.
    pub const NONE: Mods = Mods(0);

    /// The set of a mask's bits: each of the eight is a modifier.
    pub const fn from_mask(bits: u8) -> Mods
        ensures { mask result ≡ bits }
    {
        Mods(bits)
    }

    /// The set as a mask.
    pub const fn mask(self) -> u8
        ensures value { result ≡ mask self }
        ensures in_range { mask self < 2 ^ 8 }
    {
        self.0
    }

    /// Whether no modifier is in the set.
    pub const fn is_none(self) -> bool
        ensures { result ≡ (mask self == 0) }
    {
        self.0 == 0
    }

    /// The modifiers of either set.
    pub const fn with(self, other: Mods) -> Mods
        ensures { mask result ≡ bit_or (mask self) (mask other) }
    {
        Mods(self.0 | other.0)
    }

    /// The modifiers of both sets.
    pub const fn meet(self, other: Mods) -> Mods
        ensures { mask result ≡ bit_and (mask self) (mask other) }
    {
        Mods(self.0 & other.0)
    }

    /// The modifiers of this set that the other lacks.
    pub const fn minus(self, other: Mods) -> Mods
        ensures { mask result ≡ mask_without (mask self) (mask other) }
    {
        Mods(self.0 & !other.0)
    }

    /// The name of the modifier of a bit, counted from 0.
    #[tactic(auto, unfolding(crate::specs::Mods::mod_names))]
    pub fn name_of(bit: u8) -> &'static str
        requires { bit < 8 }
        ensures { slice_get mod_names bit ≡ Some result.now }
    {
        match bit {
            0 => "Shift",
            1 => "Lock",
            2 => "Control",
            3 => "Mod1",
            4 => "Mod2",
            5 => "Mod3",
            6 => "Mod4",
            _ => "Mod5",
        }
    }
}
