//! Why something can't be pushed.
ghost use Rattle.std.specs.Prelude.{◌≡◌};
ghost use Rattle.kx_builder.specs.declared.fault.BuildFault.TheVariants.{Memory};

use std::alloc::{AllocError, AllocFailed};

/// Why a builder refuses what is pushed.
#[derive(Clone, Copy, PartialEq, Eq)]
pub enum BuildFault {
    /// There is no memory.
    Memory,
    /// A count or a place doesn't fit its number.
    TooMany,
    /// A type stands after a key, a group has no key, or a cell no group.
    Misplaced,
}

impl From<AllocError> for BuildFault {
    ghost from_gives = { λ _ e. e ≡ Memory };

    fn from(_refused: AllocError) -> BuildFault {
        BuildFault::Memory
    }
}

impl<T: Drop> From<AllocFailed<T>> for BuildFault {
    ghost from_gives = { λ _ e. e ≡ Memory };

    fn from(_refused: AllocFailed<T>) -> BuildFault {
        BuildFault::Memory
    }
}
