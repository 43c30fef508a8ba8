//! Names of any length.
ghost use Rattle.std.specs.Prelude.{◌≡◌, None, ◌<◌, IfErr, IfOk, IfSome, position, refl};
ghost use Rattle.std.specs.Cmp.{partial_equiv_from_equiv, partial_order_from_own_ties, partial_order_from_total};
ghost use Rattle.std.specs.Cmp.Lexicographic.{nat_list_eq_equiv};
ghost use Rattle.std.specs.Ordering.{as_partial_cmp};
ghost use Rattle.std.specs.Str.{bytes_eq};
ghost use Rattle.std.specs.BTreeMap.Comparable.{le_lt_trans};
ghost use Rattle.indexmap.specs.IndexMap.{index_map_len, keys};
ghost use Rattle.kx_ordered.specs.Names.{head_of, name_cmp, name_cmp_ties, name_cmp_total};
ghost use Rattle.kx_ordered.specs.Numbers.{untold};

use crate::name_key::{NameKey, cmp_by_head, head_of};
use crate::ordered::Ordered;
use crate::table_key::TableKey;
use std::alloc::{AllocError, Global};
use std::cmp::Ordering;
use std::collections::btree_map::Comparable;
use std::marker::Model;

/// A name of any length, with a number of its first eight bytes, by which names are told apart where it isn't the same. Seen
/// as its bytes.
#[derive(Drop)]
pub struct OwnedName {
    head: u64,
    bytes: Vec<u8>,
}

impl Model for OwnedName {
    ghost use Rattle.std.specs.Prelude.{◌≡◌, ℕ, List};
    ghost use Rattle.kx_ordered.specs.Names.{head_of};

    ghost Value = { List ℕ };

    ghost view = { λ name. name.bytes.items };

    ghost invariant = { λ name. name.head ≡ head_of name.bytes.items };
}

impl OwnedName {
    /// The name of these bytes.
    ///
    /// # Errors
    /// Where a growth is refused.
    pub fn of(alloc: Global, name: &[u8]) -> Result<OwnedName, AllocError>
        ensures { IfOk result (λ owned. owned ≡ name.now) }
    {
        let bytes = Vec::from_slice(alloc, name)?;
        Ok(OwnedName {
            head: head_of(name),
            bytes,
        })
    }

    /// The name that these bytes are.
    pub fn owning(bytes: Vec<u8>) -> OwnedName
        ensures { result ≡ bytes.items }
    {
        OwnedName {
            head: head_of(bytes.as_slice()),
            bytes,
        }
    }

    /// The bytes in order.
    pub fn as_slice(&self) -> &[u8]
        ensures { result.now ≡ self.now }
    {
        self.bytes.as_slice()
    }

    /// The number of the first eight bytes.
    fn head(&self) -> u64
        ensures { result ≡ head_of self.now }
    {
        self.head
    }
}

impl PartialEq for OwnedName {
    ghost eq = { bytes_eq };

    ghost laws = { partial_equiv_from_equiv nat_list_eq_equiv };

    fn eq(&self, other: &OwnedName) -> bool {
        self.as_slice() == other.as_slice()
    }
}

impl Eq for OwnedName {
    ghost laws = { nat_list_eq_equiv };
}

impl PartialOrd for OwnedName {
    ghost partial_cmp = { as_partial_cmp name_cmp };

    ghost laws = { partial_order_from_own_ties (partial_order_from_total name_cmp_total)
        name_cmp_ties };

    fn partial_cmp(&self, other: &OwnedName) -> Option<Ordering> {
        Some(self.cmp(other))
    }
}

impl Ord for OwnedName {
    ghost cmp = { name_cmp };

    ghost total = { name_cmp_total };

    ghost matches_partial_cmp = { λ x y. refl };

    ghost matches_eq = { name_cmp_ties };

    fn cmp(&self, other: &OwnedName) -> Ordering {
        cmp_by_head(self.head(), other.head(), self.as_slice(), other.as_slice())
    }
}

impl TableKey for OwnedName {
    ghost number = { λ k. None };

    ghost told = { untold };

    fn number(&self) -> Option<u16> {
        None
    }

    fn again(&self) -> Result<OwnedName, AllocError> {
        OwnedName::of(*self.bytes.allocator(), self.as_slice())
    }
}

impl<'l> Comparable<OwnedName> for &NameKey<'l> {
    ghost compare = { λ q k. name_cmp q.now k };

    ghost respects_cmp = { λ q x y. name_cmp_total.congr q.now x y };

    ghost below_greater = { λ q x y. le_lt_trans name_cmp_total q.now x y };

    fn compare(&self, key: &OwnedName) -> Ordering {
        cmp_by_head(self.head(), key.head(), self.as_slice(), key.as_slice())
    }
}

impl<V> Ordered<OwnedName, V> {
    /// The place of a name, counted from 0.
    pub fn place_of_owned_name(&self, name: &[u8]) -> Option<usize>
        ensures value { result ≡ position (bytes_eq name.now) (keys self.now) }
        ensures within { IfSome result (λ place. place < index_map_len self.now) }
    {
        self.places().get(&NameKey::of(name)).copied()
    }
}
