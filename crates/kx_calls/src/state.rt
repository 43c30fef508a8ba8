//! The state of a keyboard as C has it.
ghost use Rattle.std.specs.Prelude.{◌≡◌};
ghost use Rattle.kx_run.specs.Replies.{told};
ghost use Rattle.kx_calls.specs.InC.{status};

use kx_mods::Mods;
use kx_run::Components;

/// The modifiers and groups of a keyboard. Of modifiers bits 0 to 7 are Shift, Lock, Control and Mod1 to Mod5.
#[repr(C)]
#[derive(Clone, Copy)]
pub struct XkcState {
    /// The group that keys which are down set, or add up to.
    pub base_group: i32,
    /// The modifiers that keys which are down set.
    pub base: u8,
    /// The modifiers for the next key alone.
    pub latched: u8,
    /// The modifiers that stay until they are unlocked.
    pub locked: u8,
    /// The group added for the next key alone, from 0.
    pub latched_group: u8,
    /// The group that stays, from 0.
    pub locked_group: u8,
    /// The group that keys take, from 0.
    pub effective_group: u8,
}

impl XkcState {
    /// What components say.
    pub fn of(state: Components) -> XkcState
        ensures { status result ≡ told state }
    {
        XkcState {
            base_group: state.base_group,
            base: state.base.mask(),
            latched: state.latched.mask(),
            locked: state.locked.mask(),
            latched_group: state.latched_group,
            locked_group: state.locked_group,
            effective_group: state.effective_group,
        }
    }

    /// The state as components.
    pub fn components(&self) -> Components
        ensures { told result ≡ status self.now }
    {
        Components {
            base_group: self.base_group,
            base: Mods::from_mask(self.base),
            latched: Mods::from_mask(self.latched),
            locked: Mods::from_mask(self.locked),
            latched_group: self.latched_group,
            locked_group: self.locked_group,
            effective_group: self.effective_group,
        }
    }
}
