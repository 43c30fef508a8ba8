//! The faults of sources, and where they stand.
ghost use Rattle.std.specs.Prelude.{◌≡◌, true, false};
ghost use Rattle.kx_lex.specs.declared.fault.Fault.TheVariants.{Memory};

use crate::token::Span;
use std::alloc::{AllocError, AllocFailed};
use std::fmt;
use thiserror::Error;

/// Where a fault stands: the text (0 is the source, n the n-th of the files handed in, counted
/// from 1) and the bytes in it.
#[derive(Clone, Copy, Debug, PartialEq, Eq)]
pub struct At {
    pub file: u32,
    pub span: Span,
}

impl fmt::Display for At {
    fn fmt<W: fmt::Write>(&self, f: &mut fmt::Formatter<W>) -> fmt::Result {
        let file = self.file;
        let span = self.span;
        write!(f, "{file}:{span}")
    }
}

/// Why a keymap text is refused. Each prints as the line that a user sees, as
/// `F18 CodeRange at 0:32-36`.
#[derive(Clone, Copy, Debug, PartialEq, Eq, Error)]
pub enum Fault {
    /// A growth was refused.
    #[error("F1 Memory")]
    Memory,
    /// A text of more than 1,048,576 bytes; the whole text.
    #[error("F2 TooLong at {0}")]
    TooLong(At),
    /// A byte that begins no token.
    #[error("F3 BadByte at {0}")]
    BadByte(At),
    /// Text that a line feed or the end reaches before its closing quote; from its quote to there.
    #[error("F4 OpenString at {0}")]
    OpenString(At),
    /// A key name that is not closed; from its `<` to the byte that may not stand in it.
    #[error("F5 OpenKeyName at {0}")]
    OpenKeyName(At),
    /// No tree spells the tokens; the first token that may not stand there, or the end.
    #[error("F6 Syntax at {0}")]
    Syntax(At),
    /// A number above 4,294,967,295.
    #[error("F7 NumberTooBig at {0}")]
    NumberTooBig(At),
    /// The text of an include that names no files.
    #[error("F8 BadInclude at {0}")]
    BadInclude(At),
    /// An include of a file that is not handed in.
    #[error("F9 FileMissing at {0}")]
    FileMissing(At),
    /// An include of a map that the file does not have.
    #[error("F10 MapMissing at {0}")]
    MapMissing(At),
    /// Includes nested more than 16 deep.
    #[error("F11 DepthOver16 at {0}")]
    DepthOver16(At),
    /// A modifier that is neither real nor declared.
    #[error("F12 UnknownModifier at {0}")]
    UnknownModifier(At),
    /// One more than a limit allows.
    #[error("F13 TooMany at {0}")]
    TooMany(At),
    /// A field, argument or statement that its place does not have.
    #[error("F14 UnknownField at {0}")]
    UnknownField(At),
    /// A value of the wrong kind or range.
    #[error("F15 BadValue at {0}")]
    BadValue(At),
    /// A group outside its range.
    #[error("F16 GroupRange at {0}")]
    GroupRange(At),
    /// A level outside 1 to 64.
    #[error("F17 LevelRange at {0}")]
    LevelRange(At),
    /// A keycode above 4,095.
    #[error("F18 CodeRange at {0}")]
    CodeRange(At),
}

impl Fault {
    /// Whether a growth was refused.
    pub fn is_memory(&self) -> bool
        ensures memory { result ≡ true → self.now ≡ Memory }
        ensures other { result ≡ false → self.now ≡ Memory → ⊥ }
    {
        matches!(self, Fault::Memory)
    }
}

impl From<AllocError> for Fault {
    ghost from_gives = { λ _ e. e ≡ Memory };

    fn from(_error: AllocError) -> Fault {
        Fault::Memory
    }
}

impl<T: Drop> From<AllocFailed<T>> for Fault {
    ghost from_gives = { λ _ e. e ≡ Memory };

    fn from(_error: AllocFailed<T>) -> Fault {
        Fault::Memory
    }
}
