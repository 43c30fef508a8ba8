//! Names in an order that is quick to tell.
ghost use Rattle.std.specs.Prelude.{◌≡◌, None, ◌≤◌, ◌<◌, IfSome, length, drop, position, take, refl};
ghost use Rattle.std.specs.Cmp.{partial_equiv_from_equiv, partial_order_from_own_ties, partial_order_from_total};
ghost use Rattle.std.specs.Cmp.Lexicographic.{nat_list_eq_equiv, slice_cmp};
ghost use Rattle.std.specs.Cmp.Rules.{comparing};
ghost use Rattle.std.specs.Ordering.{as_partial_cmp, nat_cmp};
ghost use Rattle.std.specs.BTreeMap.Comparable.{le_lt_trans};
ghost use Rattle.indexmap.specs.IndexMap.{index_map_len, keys};
ghost use Rattle.std.specs.Str.{bytes_eq};
ghost use Rattle.std.proofs.Common.{rules};
ghost use Rattle.kx_ordered.specs.Numbers.{untold};
ghost use Rattle.kx_ordered.specs.Names.{head_of, folded, name_cmp, name_cmp_total, name_cmp_ties};

use crate::ordered::Ordered;
use crate::table_key::TableKey;
use std::alloc::AllocError;
use std::cmp::Ordering;
use std::collections::btree_map::Comparable;
use std::marker::Model;

/// A name that is lent, with a number of its first eight bytes: names are told apart by these numbers, and their bytes are
/// compared only where the numbers are the same. Seen as its bytes.
#[derive(Drop)]
pub struct NameKey<'l> {
    head: u64,
    bytes: &'l [u8],
}

impl<'l> Model for NameKey<'l> {
    ghost use Rattle.std.specs.Prelude.{◌≡◌, ℕ, List};
    ghost use Rattle.kx_ordered.specs.Names.{head_of};

    ghost Value = { List ℕ };

    ghost view = { λ name. name.bytes.now };

    ghost invariant = { λ name. name.head ≡ head_of name.bytes.now };
}

fn front_of(bytes: &[u8]) -> &[u8]
    ensures { result.now ≡ take 8 bytes.now }
{
    bytes.get(..8).unwrap_or(bytes)
}

/// The first eight bytes of a name as one number.
pub(crate) fn head_of(bytes: &[u8]) -> u64
    ensures { result ≡ head_of bytes.now }
{
    let mut head = 0u64;
    'front: for byte in front_of(bytes) {
        head = head.wrapping_mul(256).wrapping_add(u64::from(*byte));
    }
    head
}

/// The order of two names by their bytes. That they are the same, as where a name is found, is told by eight bytes at a time,
/// and their order byte by byte.
fn cmp_bytes(bytes: &[u8], other: &[u8]) -> Ordering
    ensures { result ≡ slice_cmp nat_cmp bytes.now other.now }
{
    if bytes == other {
        return Ordering::Equal;
    }
    bytes.cmp(other)
}

/// The order of two names, which have these numbers.
pub(crate) fn cmp_by_head(head: u64, other_head: u64, bytes: &[u8], other: &[u8]) -> Ordering
    requires head { head ≡ head_of bytes.now }
    requires other { other_head ≡ head_of other.now }
    ensures { result ≡ name_cmp bytes.now other.now }
{
    match head.cmp(&other_head) {
        Ordering::Equal => cmp_bytes(bytes, other),
        unequal => unequal,
    }
}

impl<'l> NameKey<'l> {
    /// The key of a name.
    pub fn of(name: &'l [u8]) -> NameKey<'l>
        ensures { result ≡ name.now }
    {
        NameKey {
            head: head_of(name),
            bytes: name,
        }
    }

    /// The bytes of the name in order.
    pub fn as_slice(&self) -> &'l [u8]
        ensures { result.now ≡ self.now }
    {
        self.bytes
    }

    /// The number of the first eight bytes.
    pub(crate) fn head(&self) -> u64
        ensures { result ≡ head_of self.now }
    {
        self.head
    }

    /// The same key.
    pub(crate) fn copied(&self) -> NameKey<'l>
        ensures { result ≡ self.now }
    {
        NameKey {
            head: self.head,
            bytes: self.bytes,
        }
    }
}

impl<'l> PartialEq for NameKey<'l> {
    ghost eq = { bytes_eq };

    ghost laws = { partial_equiv_from_equiv nat_list_eq_equiv };

    fn eq(&self, other: &NameKey<'l>) -> bool {
        self.bytes == other.bytes
    }
}

impl<'l> Eq for NameKey<'l> {
    ghost laws = { nat_list_eq_equiv };
}

impl<'l> PartialOrd for NameKey<'l> {
    ghost partial_cmp = { as_partial_cmp name_cmp };

    ghost laws = { partial_order_from_own_ties (partial_order_from_total name_cmp_total)
        name_cmp_ties };

    fn partial_cmp(&self, other: &NameKey<'l>) -> Option<Ordering> {
        Some(self.cmp(other))
    }
}

impl<'l> Ord for NameKey<'l> {
    ghost cmp = { name_cmp };

    ghost total = { name_cmp_total };

    ghost matches_partial_cmp = { λ x y. refl };

    ghost matches_eq = { name_cmp_ties };

    fn cmp(&self, other: &NameKey<'l>) -> Ordering {
        cmp_by_head(self.head, other.head, self.bytes, other.bytes)
    }
}

impl<'l> TableKey for NameKey<'l> {
    ghost number = { λ k. None };

    ghost told = { untold };

    fn number(&self) -> Option<u16> {
        None
    }

    fn again(&self) -> Result<NameKey<'l>, AllocError> {
        Ok(self.copied())
    }
}

/// A name that is looked for among lent ones.
#[derive(Drop)]
struct SoughtName<'l> {
    key: NameKey<'l>,
}

impl<'k, 'l> Comparable<NameKey<'k>> for &SoughtName<'l> {
    ghost compare = { λ q k. name_cmp q.now.key k };

    ghost respects_cmp = { λ q x y. name_cmp_total.congr q.now.key x y };

    ghost below_greater = { λ q x y. le_lt_trans name_cmp_total q.now.key x y };

    fn compare(&self, key: &NameKey<'k>) -> Ordering {
        cmp_by_head(
            self.key.head(),
            key.head(),
            self.key.as_slice(),
            key.as_slice(),
        )
    }
}

impl<'k, V> Ordered<NameKey<'k>, V> {
    /// The place of a name, counted from 0.
    pub fn place_of_lent_name(&self, name: &[u8]) -> Option<usize>
        ensures value { result ≡ position (bytes_eq name.now) (keys self.now) }
        ensures within { IfSome result (λ place. place < index_map_len self.now) }
    {
        let sought = SoughtName {
            key: NameKey::of(name),
        };
        self.places().get(&sought).copied()
    }
}
