//! Why there are no components.
use std::alloc::AllocError;

/// Why there are no components.
#[derive(Clone, Copy, PartialEq, Eq)]
pub enum Fault {
    /// A growth is refused.
    Memory,
    /// The model, a layout or a variant has too many bytes.
    LongName,
    /// The texts have too many bytes.
    TooMuch,
    /// A piece stands where the format has none, in the line of this number, counted from 1.
    Unexpected(usize),
    /// Of keycodes, types, compat and symbols one stays empty.
    NoComponents,
}

impl From<AllocError> for Fault {
    ghost use Rattle.std.specs.Prelude.{◌≡◌};
    ghost use Rattle.kx_rules.specs.declared.fault.Fault.TheVariants.{Memory};

    ghost from_gives = { λ _ e. e ≡ Memory };

    fn from(_error: AllocError) -> Fault {
        Fault::Memory
    }
}
