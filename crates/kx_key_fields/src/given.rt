//! What a field gives.
ghost use Rattle.std.specs.Prelude.{◌≡◌, ◌≤◌, length, take};

use crate::key_range::KeyRange;
use kx_basics::MOST_NAME_BYTES;
use kx_virtual_mods::NameSet;
use std::marker::Model;

/// So many bytes of a type's name are kept: one more than a type's name may have, so that no type has a longer name.
pub(crate) const MOST_KEPT_BYTES: usize = MOST_NAME_BYTES + 1;

/// A type's name as far as it is kept; seen as its bytes.
#[derive(Drop)]
pub(crate) struct KeptName {
    len: u16,
    /// The first `len` are the name; those after them mean nothing.
    bytes: [u8; MOST_KEPT_BYTES],
}

impl Model for KeptName {
    ghost use Rattle.std.specs.Prelude.{ℕ, List, take};

    ghost Value = { List ℕ };

    ghost view = { λ name. take name.len name.bytes };
}

fn front_of(bytes: &[u8], len: usize) -> &[u8]
    ensures { result.now ≡ take len bytes.now }
{
    bytes.get(..len).unwrap_or(bytes)
}

impl KeptName {
    ghost use Rattle.std.specs.Prelude.{◌≡◌, ◌≤◌, length};
    ghost use Rattle.kx_key_fields.specs.declared.given.TheConstants.{MOST_KEPT_BYTES};
    ghost use Rattle.kx_key_fields.specs.Attributes.{kept_name};

    fn whole(name: &[u8]) -> KeptName
        requires { length name.now ≤ MOST_KEPT_BYTES }
        ensures { result ≡ name.now }
    {
        let mut bytes = [0; MOST_KEPT_BYTES];
        bytes[..name.len()].copy_from_slice(name);
        KeptName {
            len: name.len() as u16,
            bytes,
        }
    }

    /// What is kept of a name.
    pub(crate) fn of(name: &[u8]) -> KeptName
        ensures { result ≡ kept_name name.now }
    {
        KeptName::whole(front_of(name, MOST_KEPT_BYTES))
    }

    /// The bytes in order.
    pub(crate) fn as_slice(&self) -> &[u8]
        ensures { result.now ≡ self.now }
    {
        front_of(&self.bytes, usize::from(self.len))
    }
}

/// What one field, or one default, gives a key.
#[derive(Drop)]
pub(crate) enum Given {
    /// A group, counted from 0, the type of this name.
    GroupType(u8, KeptName),
    /// The key the type of this name.
    KeyType(KeptName),
    VirtualMods(NameSet),
    Range(KeyRange),
}
