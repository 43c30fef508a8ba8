//! What a modifier map gives modifiers.
ghost use Rattle.kx_modmaps.specs.Targets.{target_number, told_target};

use kx_ordered::TableKey;
use std::alloc::AllocError;

/// What a modifier map gives modifiers.
#[derive(Clone, Copy, PartialEq, Eq, PartialOrd, Ord, Hash)]
pub enum Target {
    /// The key of a keycode.
    Key(u16),
    /// Keys with a keysym, by its number.
    Keysym(u32),
}

impl TableKey for Target {
    ghost number = { target_number };

    ghost told = { told_target };

    fn number(&self) -> Option<u16> {
        match self {
            Target::Key(code) => Some(*code),
            Target::Keysym(_) => None,
        }
    }

    fn again(&self) -> Result<Target, AllocError> {
        Ok(*self)
    }
}
