//! Actions as they are written.
ghost use Rattle.std.specs.Prelude.{◌≡◌, true};
ghost use Rattle.kx_tables.specs.Sound.{GroupChangeHolds};
ghost use Rattle.kx_tables.specs.declared.rows.GroupChange.TheVariants.{Absolute, Relative};

use kx_tables::GroupChange;
use kx_virtual_mods::NameSet;
use std::marker::Model;

/// The modifiers that an action is about.
#[derive(Clone, Copy, PartialEq, Eq)]
pub enum ActionMods {
    /// Those of a mask.
    Named(NameSet),
    /// Those of the key's modifier map: `modMapMods`.
    OfKey,
}

/// What an action does to the locked modifiers.
#[derive(Clone, Copy, PartialEq, Eq)]
pub enum Affect {
    Lock,
    Unlock,
    Both,
    Neither,
}

/// The group that an action is about: one from 0 to 31, or from -32 to 32 groups on; seen as that change.
#[derive(Clone, Copy, PartialEq, Eq)]
pub struct ActionGroup {
    change: GroupChange,
}

impl Model for ActionGroup {
    ghost use Rattle.std.specs.Prelude.{◌≡◌, true};
    ghost use Rattle.kx_tables.specs.declared.rows.GroupChange.{GroupChange};
    ghost use Rattle.kx_actions.specs.Groups.{is_change};

    ghost Value = { GroupChange };

    ghost view = { λ g. g.change };

    ghost inverse = { λ c. record { change = c } };

    ghost invariant = { λ g. is_change g.change ≡ true };
}

impl ActionGroup {
    ghost use Rattle.std.specs.Prelude.{◌≡◌, true};
    ghost use Rattle.kx_tables.specs.Sound.{GroupChangeHolds};
    ghost use Rattle.kx_actions.specs.Groups.{is_change};

    /// The group of a change in its range.
    pub(crate) fn of(change: GroupChange) -> ActionGroup
        requires { is_change change ≡ true }
        ensures { result ≡ change }
    {
        ActionGroup { change }
    }

    /// The change.
    pub fn change(self) -> GroupChange
        ensures value { result ≡ self }
        ensures within { GroupChangeHolds result }
    {
        self.change
    }
}

/// An action as it is written, with what its arguments and the defaults say of it.
#[derive(Clone, Copy, PartialEq, Eq)]
pub enum KeyAction {
    /// `NoAction()`
    NoAction,
    /// An action of a name that isn't one of the seven: it has no effect.
    Other,
    SetMods {
        mods: ActionMods,
        clear_locks: bool,
    },
    LatchMods {
        mods: ActionMods,
        clear_locks: bool,
        latch_to_lock: bool,
    },
    LockMods {
        mods: ActionMods,
        affect: Affect,
    },
    SetGroup {
        group: ActionGroup,
        clear_locks: bool,
    },
    LatchGroup {
        group: ActionGroup,
        clear_locks: bool,
        latch_to_lock: bool,
    },
    LockGroup {
        group: ActionGroup,
    },
}
