//! Texts that are short enough for names.
use kx_lex::Bytes;
use std::alloc::{AllocError, Global};
use std::marker::Model;

/// A text of at most 255 bytes; seen as its bytes.
#[derive(Drop)]
pub struct NameText {
    bytes: Bytes,
}

impl Model for NameText {
    ghost use Rattle.std.specs.Prelude.{◌≤◌, ℕ, List, length};
    ghost use Rattle.kx_basics.specs.declared.limits.TheConstants.{MOST_NAME_BYTES};

    ghost Value = { List ℕ };

    ghost view = { λ t. t.bytes };

    ghost invariant = { λ t. length t.bytes ≤ MOST_NAME_BYTES };
}

impl NameText {
    ghost use Rattle.std.specs.Prelude.{◌≡◌, ◌≤◌, [], IfOk, length};
    ghost use Rattle.kx_basics.specs.declared.limits.TheConstants.{MOST_NAME_BYTES};

    /// The text of these bytes.
    pub(crate) fn of(alloc: Global, bytes: &[u8]) -> Result<NameText, AllocError>
        requires { length bytes.now ≤ MOST_NAME_BYTES }
        ensures { IfOk result (λ text. text ≡ bytes.now) }
    {
        let bytes = Bytes::of(alloc, bytes)?;
        Ok(NameText { bytes })
    }

    /// The text of no bytes.
    pub(crate) fn empty(alloc: Global) -> Result<NameText, AllocError>
        ensures { IfOk result (λ text. text ≡ []) }
    {
        NameText::of(alloc, &[])
    }

    /// Its bytes.
    pub(crate) fn as_slice(&self) -> &[u8]
        ensures value { result.now ≡ self.now }
        ensures short { length result.now ≤ MOST_NAME_BYTES }
    {
        self.bytes.as_slice()
    }
}
