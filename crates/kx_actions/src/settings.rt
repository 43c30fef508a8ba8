//! What the fields of an action are given.
ghost use Rattle.std.specs.Prelude.{◌≡◌};

use crate::action::{ActionGroup, ActionMods, Affect};

/// What one argument, or one default for it, gives.
#[derive(Clone, Copy, PartialEq, Eq)]
pub(crate) enum Given {
    Modifiers(ActionMods),
    Group(ActionGroup),
    Affect(Affect),
    ClearLocks(bool),
    LatchToLock(bool),
}

/// What the fields of an action are given; `None` where they aren't.
#[derive(Clone, Copy, PartialEq, Eq)]
pub(crate) struct Settings {
    pub modifiers: Option<ActionMods>,
    pub group: Option<ActionGroup>,
    pub affect: Option<Affect>,
    pub clear_locks: Option<bool>,
    pub latch_to_lock: Option<bool>,
}

impl Settings {
    ghost use Rattle.std.specs.Prelude.{◌≡◌};
    ghost use Rattle.kx_actions.specs.Settings.{no_settings, with_given};

    pub(crate) fn none() -> Settings
        ensures { result ≡ no_settings }
    {
        Settings {
            modifiers: None,
            group: None,
            affect: None,
            clear_locks: None,
            latch_to_lock: None,
        }
    }

    /// These with what is given anew.
    pub(crate) fn with(self, given: Given) -> Settings
        ensures { result ≡ with_given self given }
    {
        match given {
            Given::Modifiers(mods) => Settings {
                modifiers: Some(mods),
                ..self
            },
            Given::Group(group) => Settings {
                group: Some(group),
                ..self
            },
            Given::Affect(affect) => Settings {
                affect: Some(affect),
                ..self
            },
            Given::ClearLocks(on) => Settings {
                clear_locks: Some(on),
                ..self
            },
            Given::LatchToLock(on) => Settings {
                latch_to_lock: Some(on),
                ..self
            },
        }
    }
}
