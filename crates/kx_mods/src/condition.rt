//! How modifiers that are wanted go together with those that there are.
ghost use Rattle.std.specs.Prelude.{◌≡◌};

use crate::mods::Mods;

/// How the modifiers of an interpretation go together with those of a key's modifier map.
#[derive(Clone, Copy, Debug, PartialEq, Eq, PartialOrd, Ord, Hash)]
pub enum Condition {
    /// The key has these and no others.
    Exactly,
    /// The key has all of these.
    AllOf,
    /// The key has none of these.
    NoneOf,
    /// The key has one of these.
    AnyOf,
    /// The key has one of these, or no modifiers at all.
    AnyOfOrNone,
}

impl Condition {
    ghost use Rattle.std.specs.Prelude.{◌≡◌};
    ghost use Rattle.kx_mods.specs.Conditions.{holds};
    ghost use Rattle.kx_mods.specs.Mods.{mask};

    /// Whether an interpretation's modifiers go together with those of a key.
    pub fn holds(self, wanted: Mods, key: Mods) -> bool
        ensures { result ≡ holds self (mask wanted) (mask key) }
    {
        let common = wanted.meet(key);
        match self {
            Condition::Exactly => wanted.mask() == key.mask(),
            Condition::AllOf => common.mask() == wanted.mask(),
            Condition::NoneOf => common.is_none(),
            Condition::AnyOf => !common.is_none(),
            Condition::AnyOfOrNone => key.is_none() || !common.is_none(),
        }
    }
}
