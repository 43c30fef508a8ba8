//! That no two names are the same.
ghost use Rattle.std.specs.Prelude.{◌≡◌, ◌<◌, ◌≤◌, ◌+◌, ℕ, List, [], IfSome, IfNone, OnOk, IfErr, length, slice_get, slice_index, ◌^◌};
ghost use Rattle.std.specs.Option.{option_map_or};
ghost use Rattle.kx_tables.specs.Content.{type_name, key_name, indicator_name, part};
ghost use Rattle.kx_tables.specs.Names.{NamesDiffer, IsRepeated};

use super::{Broken, RecordKind};
use crate::tables::Rows;

/// Names by number. Any number may be asked for.
pub trait NameList {
    ghost name: { Self → ℕ → List ℕ };

    fn name(&self, index: u16) -> &[u8]
        ensures { result.now ≡ name self.now index };
}

/// So many bytes of the names from a place on, or those that there are.
fn bytes_at(names: &[u8], first: u32, count: u16) -> &[u8]
    ensures { result.now ≡ part names.now first count }
{
    let start = names.len().min(first as usize);
    let (_, rest) = names.split_at(start);
    let (name, _) = rest.split_at(rest.len().min(usize::from(count)));
    name
}

/// The names of the types.
#[derive(Drop)]
pub struct TypeNames<'a, R>(pub &'a R);

impl<R: Rows> NameList for TypeNames<'_, R> {
    ghost name = { λ s i. option_map_or (type_name (R.content s.0.now))
        (slice_get (R.content s.0.now).types i) [] };

    fn name(&self, index: u16) -> &[u8] {
        if index < self.0.counts().types {
            let row = self.0.type_row(index);
            bytes_at(self.0.names(), row.first_name, row.name_length)
        } else {
            &[]
        }
    }
}

/// The names of the keys.
#[derive(Drop)]
pub struct KeyNames<'a, R>(pub &'a R);

impl<R: Rows> NameList for KeyNames<'_, R> {
    ghost name = { λ s i. option_map_or (key_name (R.content s.0.now))
        (slice_get (R.content s.0.now).keys i) [] };

    fn name(&self, index: u16) -> &[u8] {
        if index < self.0.counts().keys {
            let row = self.0.key_row(index);
            bytes_at(self.0.names(), row.first_name, row.name_length)
        } else {
            &[]
        }
    }
}

/// The names of the indicators.
#[derive(Drop)]
pub struct IndicatorNames<'a, R>(pub &'a R);

impl<R: Rows> NameList for IndicatorNames<'_, R> {
    ghost name = { λ s i. option_map_or (indicator_name (R.content s.0.now))
        (slice_get (R.content s.0.now).indicators i) [] };

    fn name(&self, index: u16) -> &[u8] {
        if index < self.0.counts().indicators {
            let row = self.0.indicator_row(index);
            bytes_at(self.0.names(), row.first_name, row.name_length)
        } else {
            &[]
        }
    }
}

/// Numbers the places from 0.
fn number(order: &mut [u16])
    requires { length order.old < 2 ^ 16 }
    ensures { (k : ℕ) → k < length order.new → slice_index order.new k ≡ k }
{
    for (index, place) in order.iter_mut().enumerate() {
        *place = index as u16;
    }
}

/// A name that repeats an earlier one, by sorting the numbers of the names in `order`.
fn repeated_in<L: NameList>(list: &L, order: &mut [u16]) -> Option<u16>
    requires { length order.old < 2 ^ 16 }
    ensures none { IfNone result (NamesDiffer (L.name list.now) (length order.old)) }
    ensures some { IfSome result (IsRepeated (L.name list.now) (length order.old)) }
{
    number(order);
    order.sort_unstable_by(|a, b| list.name(*a).cmp(list.name(*b)));
    for index in 1..order.len() {
        let earlier = order[index - 1];
        let later = order[index];
        if list.name(earlier) == list.name(later) {
            return Some(earlier.max(later));
        }
    }
    None
}

/// The same for at most 256 names.
#[inline(never)]
fn repeated_of_few<L: NameList>(list: &L, count: u16) -> Option<u16>
    requires { count ≤ 256 }
    ensures none { IfNone result (NamesDiffer (L.name list.now) count) }
    ensures some { IfSome result (IsRepeated (L.name list.now) count) }
{
    let mut order = [0; 256];
    repeated_in(list, &mut order[..usize::from(count)])
}

/// The same for at most 4096 names.
#[inline(never)]
fn repeated_of_many<L: NameList>(list: &L, count: u16) -> Option<u16>
    requires { count ≤ 4096 }
    ensures none { IfNone result (NamesDiffer (L.name list.now) count) }
    ensures some { IfSome result (IsRepeated (L.name list.now) count) }
{
    let mut order = [0; 4096];
    repeated_in(list, &mut order[..usize::from(count)])
}

/// The same for any number of names.
#[inline(never)]
fn repeated_of_most<L: NameList>(list: &L, count: u16) -> Option<u16>
    ensures none { IfNone result (NamesDiffer (L.name list.now) count) }
    ensures some { IfSome result (IsRepeated (L.name list.now) count) }
{
    let mut order = [0; 65536];
    repeated_in(list, &mut order[..usize::from(count)])
}

/// Checks that no two of the first `count` names are the same.
pub fn check_names<L: NameList>(list: &L, count: u16, part: RecordKind) -> Result<(), Broken>
    ensures ok { OnOk result (NamesDiffer (L.name list.now) count) }
    ensures broken { IfErr result (λ b. (b.part ≡ part)
        × IsRepeated (L.name list.now) count b.index) }
{
    // A function pays for its locals when it is called, so each size has one of its own.
    let repeated = if count <= 256 {
        repeated_of_few(list, count)
    } else if count <= 4096 {
        repeated_of_many(list, count)
    } else {
        repeated_of_most(list, count)
    };
    match repeated {
        Some(index) => Err(Broken {
            part,
            index: u32::from(index),
        }),
        None => Ok(()),
    }
}
