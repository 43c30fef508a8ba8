//! Key types by name.
ghost use Rattle.kx_types.specs.declared.limits.TheConstants.{MOST_TYPES};
ghost use Rattle.std.specs.Prelude.{◌≡◌, Some, ◌≤◌, ◌<◌, ◌↔◌, [], ℕ, IfSome, IsTrue, List, Option, length, map, position, slice_get};
ghost use Rattle.std.specs.Option.{option_map};
ghost use Rattle.std.specs.Str.{bytes_eq};
ghost use Rattle.kx_types.specs.Shown.{shown_entry};
ghost use Rattle.kx_types.specs.Types.{names_in, type_named};

use crate::definition::KeyType;
use kx_merge::Single;
use kx_ordered::{Ordered, ShortName};
use std::marker::Model;

/// The key types that statements declare, in the order in which they are first named; seen as their names and
/// definitions.
pub struct Types {
    by_name: Ordered<ShortName, Single<KeyType>>,
}

impl Drop for Types {
    fn drop(self) {
        let Types { by_name: _ } = self;
    }
}

impl Model for Types {
    ghost use Rattle.std.specs.Prelude.{map, List, ℕ};
    ghost use Rattle.kx_types.specs.Types.{NamedTypes};
    ghost use Rattle.kx_types.specs.Shown.{shown_entry};

    ghost Value = { NamedTypes };

    ghost view = { λ t. map shown_entry t.by_name.entries };

    ghost use Rattle.std.specs.Prelude.{length, ◌≤◌};
    ghost use Rattle.kx_types.specs.declared.limits.TheConstants.{MOST_TYPES};

    ghost invariant = { λ t. length t.by_name.entries ≤ MOST_TYPES };
}

impl Types {
    /// The types of these records.
    pub(crate) fn of(by_name: Ordered<ShortName, Single<KeyType>>) -> Types
        requires { length by_name.entries ≤ MOST_TYPES }
        ensures { result ≡ map shown_entry by_name.entries }
    {
        Types { by_name }
    }

    /// How many types there are.
    pub fn len(&self) -> usize
        ensures value { result ≡ length self.now }
        ensures few { result ≤ MOST_TYPES }
    {
        self.by_name.len()
    }

    /// Whether there are no types.
    pub fn is_empty(&self) -> bool
        ensures { IsTrue result ↔ (self.now ≡ []) }
    {
        self.by_name.as_slice().is_empty()
    }

    /// The type of a name, which is read exactly.
    pub fn named(&self, name: &[u8]) -> Option<&KeyType>
        ensures { option_map (λ t. t.now) result ≡ type_named self.now name.now }
    {
        match self.by_name.value_of_short_name(name) {
            Some(declared) => declared.value.as_ref(),
            None => None,
        }
    }

    /// The place, counted from 0, and the type of a name, which is looked for first at a place where it may stand.
    pub fn named_near(&self, name: &[u8], near: usize) -> Option<(usize, &KeyType)>
        ensures value { option_map (λ t. t.1.now) result ≡ type_named self.now name.now }
        ensures place { IfSome result (λ t.
            position (bytes_eq name.now) (names_in self.now) ≡ Some t.0) }
    {
        match self.by_name.found_near(name, near) {
            None => None,
            Some((place, declared)) => match declared.value.as_ref() {
                None => None,
                Some(key_type) => Some((place, key_type)),
            },
        }
    }

    /// The place of a name among the types, counted from 0.
    pub fn index_of(&self, name: &[u8]) -> Option<usize>
        ensures value { result ≡ position (bytes_eq name.now) (names_in self.now) }
        ensures within { IfSome result (λ place. place < length self.now) }
    {
        self.by_name.place_of_short_name(name)
    }

    /// The name and the type at a place, counted from 0.
    pub fn at(&self, place: usize) -> Option<(&[u8], Option<&KeyType>)>
        ensures { option_map (λ t. (t.0.now, option_map (λ d. d.now) t.1)) result
            ≡ slice_get self.now place }
    {
        match self.by_name.at(place) {
            Some((name, declared)) => Some((name.as_slice(), declared.value.as_ref())),
            None => None,
        }
    }
}
