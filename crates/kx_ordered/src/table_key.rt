//! Keys of tables.
ghost use Rattle.std.specs.Prelude.{◌≡◌, ℕ, IfOk, None, Option, Some};
ghost use Rattle.std.specs.declared.cmp.Ordering.TheVariants.{Equal};
ghost use Rattle.kx_ordered.specs.Numbers.{IsTold, told_itself, untold};

use std::alloc::AllocError;

/// The key of a table. It can be had again, since it stands among the entries and in their index.
pub trait TableKey: Ord {
    // The number that tells a key, if it has one.
    ghost number: { Self → Option ℕ };

    /// A number that tells the key from all others, if it is made up of one that is small: such a key is found by an index.
    fn number(&self) -> Option<u16>
        ensures { result ≡ number self.now };

    /// An equal value.
    ///
    /// # Errors
    /// Where a growth is refused.
    fn again(&self) -> Result<Self, AllocError>
        ensures { IfOk result (λ copy. Self.cmp copy self.now ≡ Equal) };

    ghost told: { IsTold Self.Ord.cmp number };
}

impl TableKey for u8 {
    ghost number = { λ n. Some n };

    ghost told = { told_itself };

    fn number(&self) -> Option<u16> {
        Some(u16::from(*self))
    }

    fn again(&self) -> Result<u8, AllocError> {
        Ok(*self)
    }
}

impl TableKey for u16 {
    ghost number = { λ n. Some n };

    ghost told = { told_itself };

    fn number(&self) -> Option<u16> {
        Some(*self)
    }

    fn again(&self) -> Result<u16, AllocError> {
        Ok(*self)
    }
}

impl TableKey for u32 {
    ghost number = { λ k. None };

    ghost told = { untold };

    fn number(&self) -> Option<u16> {
        None
    }

    fn again(&self) -> Result<u32, AllocError> {
        Ok(*self)
    }
}

impl TableKey for usize {
    ghost number = { λ k. None };

    ghost told = { untold };

    fn number(&self) -> Option<u16> {
        None
    }

    fn again(&self) -> Result<usize, AllocError> {
        Ok(*self)
    }
}

impl TableKey for String {
    ghost number = { λ k. None };

    ghost told = { untold };

    fn number(&self) -> Option<u16> {
        None
    }

    fn again(&self) -> Result<String, AllocError> {
        Ok(self.clone()?)
    }
}
