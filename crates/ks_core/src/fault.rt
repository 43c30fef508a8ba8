//! Why a text of names is refused.

use thiserror::Error;

/// Why lines of names are refused. Lines are counted from 1.
#[derive(Clone, Copy, Debug, PartialEq, Eq, Error)]
pub enum NameFault {
    /// No memory was left.
    #[error("N1 Memory")]
    Memory,
    /// The line is not a name, blanks and a value.
    #[error("N2 LineShape {0}")]
    LineShape(usize),
    /// The name has another value already.
    #[error("N3 Twice {0}")]
    Twice(usize),
    /// The value is below 10 or above 0x1fffffff.
    #[error("N4 Value {0}")]
    Value(usize),
}
