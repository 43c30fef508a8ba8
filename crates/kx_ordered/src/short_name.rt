//! Names of at most 255 bytes.
ghost use Rattle.std.specs.Prelude.{◌≡◌, None, Some, ◌≤◌, ◌<◌, IfSome, length, position, slice_get, take, refl};
ghost use Rattle.std.specs.Cmp.{partial_equiv_from_equiv, partial_order_from_own_ties, partial_order_from_total};
ghost use Rattle.std.specs.Cmp.Lexicographic.{nat_list_eq_equiv};
ghost use Rattle.std.specs.Map.{lookup};
ghost use Rattle.std.specs.Option.{option_copied, option_map};
ghost use Rattle.std.specs.Ordering.{as_partial_cmp};
ghost use Rattle.std.specs.Str.{bytes_eq};
ghost use Rattle.std.specs.BTreeMap.Comparable.{le_lt_trans};
ghost use Rattle.indexmap.specs.IndexMap.{IsUnique, index_map_len, keys};
ghost use Rattle.kx_ordered.specs.Names.{name_cmp, name_cmp_ties, name_cmp_total};
ghost use Rattle.kx_ordered.specs.Numbers.{untold};
ghost use Rattle.kx_basics.specs.declared.limits.TheConstants.{MOST_NAME_BYTES};

use crate::name_key::{NameKey, cmp_by_head, head_of};
use crate::ordered::Ordered;
use crate::table_key::TableKey;
use kx_basics::MOST_NAME_BYTES;
use std::alloc::AllocError;
use std::cmp::Ordering;
use std::collections::btree_map::Comparable;
use std::marker::Model;

/// A name of at most 255 bytes, which is read exactly, with a number of its first eight bytes: names are told apart by these
/// numbers, and their bytes are compared only where the numbers are the same. Seen as its bytes, which stand in place, so
/// that it is taken again without an allocation.
#[derive(Drop)]
pub struct ShortName {
    head: u64,
    len: u8,
    /// The first `len` are the name; those after them mean nothing.
    bytes: [u8; MOST_NAME_BYTES],
}

impl Model for ShortName {
    ghost use Rattle.std.specs.Prelude.{◌≡◌, ℕ, List, take};
    ghost use Rattle.kx_ordered.specs.Names.{head_of};

    ghost Value = { List ℕ };

    ghost view = { λ name. take name.len name.bytes };

    ghost invariant = { λ name. name.head ≡ head_of (take name.len name.bytes) };
}

fn start_of(bytes: &[u8], len: usize) -> &[u8]
    ensures { result.now ≡ take len bytes.now }
{
    bytes.get(..len).unwrap_or(bytes)
}

impl ShortName {
    /// The name of these bytes.
    pub fn of(name: &[u8]) -> ShortName
        requires { length name.now ≤ MOST_NAME_BYTES }
        ensures { result ≡ name.now }
    {
        let mut bytes = [0; MOST_NAME_BYTES];
        bytes[..name.len()].copy_from_slice(name);
        ShortName {
            head: head_of(name),
            len: name.len() as u8,
            bytes,
        }
    }

    /// The same name.
    pub fn copied(&self) -> ShortName
        ensures { result ≡ self.now }
    {
        ShortName {
            head: self.head,
            len: self.len,
            bytes: self.bytes,
        }
    }

    /// The bytes in order.
    pub fn as_slice(&self) -> &[u8]
        ensures { result.now ≡ self.now }
    {
        start_of(&self.bytes, usize::from(self.len))
    }
}

impl PartialEq for ShortName {
    ghost eq = { bytes_eq };

    ghost laws = { partial_equiv_from_equiv nat_list_eq_equiv };

    fn eq(&self, other: &ShortName) -> bool {
        self.as_slice() == other.as_slice()
    }
}

impl Eq for ShortName {
    ghost laws = { nat_list_eq_equiv };
}

impl PartialOrd for ShortName {
    ghost partial_cmp = { as_partial_cmp name_cmp };

    ghost laws = { partial_order_from_own_ties (partial_order_from_total name_cmp_total)
        name_cmp_ties };

    fn partial_cmp(&self, other: &ShortName) -> Option<Ordering> {
        Some(self.cmp(other))
    }
}

impl Ord for ShortName {
    ghost cmp = { name_cmp };

    ghost total = { name_cmp_total };

    ghost matches_partial_cmp = { λ x y. refl };

    ghost matches_eq = { name_cmp_ties };

    fn cmp(&self, other: &ShortName) -> Ordering {
        cmp_by_head(self.head, other.head, self.as_slice(), other.as_slice())
    }
}

impl TableKey for ShortName {
    ghost number = { λ k. None };

    ghost told = { untold };

    fn number(&self) -> Option<u16> {
        None
    }

    fn again(&self) -> Result<ShortName, AllocError> {
        Ok(self.copied())
    }
}

impl<'l> Comparable<ShortName> for &NameKey<'l> {
    ghost compare = { λ q k. name_cmp q.now k };

    ghost respects_cmp = { λ q x y. name_cmp_total.congr q.now x y };

    ghost below_greater = { λ q x y. le_lt_trans name_cmp_total q.now x y };

    fn compare(&self, key: &ShortName) -> Ordering {
        cmp_by_head(self.head(), key.head, self.as_slice(), key.as_slice())
    }
}

impl<V> Ordered<ShortName, V> {
    /// The place of a name, counted from 0.
    pub fn place_of_short_name(&self, name: &[u8]) -> Option<usize>
        ensures value { result ≡ position (bytes_eq name.now) (keys self.now) }
        ensures within { IfSome result (λ place. place < index_map_len self.now) }
    {
        self.places().get(&NameKey::of(name)).copied()
    }

    /// The place, counted from 0, and the value of a name.
    fn found_by_order(&self, name: &[u8]) -> Option<(usize, &V)>
        ensures value { option_map (λ found. found.1.now) result
            ≡ lookup (bytes_eq name.now) self.now.entries }
        ensures place { IfSome result (λ found.
            position (bytes_eq name.now) (keys self.now) ≡ Some found.0) }
    {
        match self.place_of_short_name(name) {
            None => None,
            Some(place) => match self.value(place) {
                None => None,
                Some(value) => Some((place, value)),
            },
        }
    }

    /// The name and the value at a place, counted from 0.
    fn entry(&self, place: usize) -> Option<&(ShortName, V)>
        ensures value { option_copied result ≡ slice_get self.now.entries place }
        ensures unique { IsUnique bytes_eq self.now }
    {
        self.as_slice().get(place)
    }

    /// The place, counted from 0, and the value of a name, which is looked for first at a place where it may stand.
    pub fn found_near(&self, name: &[u8], near: usize) -> Option<(usize, &V)>
        ensures value { option_map (λ found. found.1.now) result
            ≡ lookup (bytes_eq name.now) self.now.entries }
        ensures place { IfSome result (λ found.
            position (bytes_eq name.now) (keys self.now) ≡ Some found.0) }
    {
        if let Some((found, value)) = self.entry(near) {
            let bytes = found.as_slice();
            if bytes == name {
                return Some((near, value));
            }
        }
        self.found_by_order(name)
    }

    /// The value of a name.
    pub fn value_of_short_name(&self, name: &[u8]) -> Option<&V>
        ensures { option_copied result ≡ lookup (bytes_eq name.now) self.now.entries }
    {
        match self.place_of_short_name(name) {
            None => None,
            Some(place) => self.value(place),
        }
    }
}
