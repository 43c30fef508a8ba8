//! The rows of tables that actions become.
ghost use Rattle.std.specs.Prelude.{◌≡◌, ℕ};
ghost use Rattle.kx_virtual_mods.specs.Sets.{has};
ghost use Rattle.kx_mods.specs.Mods.{mask};
ghost use Rattle.kx_tables.specs.Sound.{ActionHolds};
ghost use Rattle.kx_actions.specs.Becoming.{AreMods, Becomes, does_lock, does_unlock};

use crate::action::{ActionMods, Affect, KeyAction};
use kx_mods::Mods;
use kx_tables::Action;
use kx_virtual_mods::real_of;

fn real_mods(mods: ActionMods, modmap: Mods, stands: &[Mods]) -> Mods
    ensures { AreMods modmap stands.now mods result }
{
    match mods {
        ActionMods::Named(set) => real_of(set, stands),
        ActionMods::OfKey => modmap,
    }
}

impl Affect {
    ghost use Rattle.std.specs.Prelude.{◌≡◌};
    ghost use Rattle.kx_actions.specs.Becoming.{does_lock, does_unlock};

    fn locks(self) -> bool
        ensures { result ≡ does_lock self }
    {
        match self {
            Affect::Lock | Affect::Both => true,
            Affect::Unlock | Affect::Neither => false,
        }
    }

    fn unlocks(self) -> bool
        ensures { result ≡ does_unlock self }
    {
        match self {
            Affect::Unlock | Affect::Both => true,
            Affect::Lock | Affect::Neither => false,
        }
    }
}

/// What an action does on a key that is mapped to these modifiers, where `stands` is what each virtual modifier stands
/// for, by its number.
pub fn real_action(action: KeyAction, modmap: Mods, stands: &[Mods]) -> Action
    ensures value { Becomes modmap stands.now action result }
    ensures holds { ActionHolds result }
{
    match action {
        KeyAction::NoAction => Action::None,
        KeyAction::Other => Action::None,
        KeyAction::SetMods { mods, clear_locks } => Action::SetMods {
            mods: real_mods(mods, modmap, stands),
            clear_locks,
        },
        KeyAction::LatchMods {
            mods,
            clear_locks,
            latch_to_lock,
        } => Action::LatchMods {
            mods: real_mods(mods, modmap, stands),
            clear_locks,
            latch_to_lock,
        },
        KeyAction::LockMods { mods, affect } => Action::LockMods {
            mods: real_mods(mods, modmap, stands),
            locks: affect.locks(),
            unlocks: affect.unlocks(),
        },
        KeyAction::SetGroup { group, clear_locks } => Action::SetGroup {
            group: group.change(),
            clear_locks,
        },
        KeyAction::LatchGroup {
            group,
            clear_locks,
            latch_to_lock,
        } => Action::LatchGroup {
            group: group.change(),
            clear_locks,
            latch_to_lock,
        },
        KeyAction::LockGroup { group } => Action::LockGroup {
            group: group.change(),
        },
    }
}
