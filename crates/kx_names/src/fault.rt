//! Why names have no source.
use std::alloc::AllocError;
use thiserror::Error;

/// Why a rules file gives no source for names. Each prints as the line that a user sees.
#[derive(Clone, Copy, Debug, Error)]
pub enum RulesFault {
    /// The model, a layout or a variant has too many bytes.
    #[error("R2 LongName")]
    LongName,
    /// The rules have too many bytes with all that they include.
    #[error("R3 TooMuch")]
    TooMuch,
    /// The line of this number, counted from 1, is none of the format's.
    #[error("R4 Unexpected {0}")]
    Unexpected(usize),
    /// The rules leave keycodes, types, compat or symbols empty.
    #[error("R5 NoComponents")]
    NoComponents,
    /// What the rules give has a character that the text of an include can't have.
    #[error("R6 Unwritable")]
    Unwritable,
}

/// Why names have no source.
#[derive(Drop)]
pub enum NamesFault {
    /// No folder has a file at this path below it.
    Missing(String),
    /// The file at this path is there and can't be read.
    File(String),
    /// The rules are refused; and what is wrong, as a person reads it.
    Rules(RulesFault, String),
    Memory,
}

impl From<AllocError> for NamesFault {
    fn from(_: AllocError) -> Self {
        NamesFault::Memory
    }
}
