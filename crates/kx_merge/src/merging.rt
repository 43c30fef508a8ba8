//! What a mode makes of values and records.
ghost use Rattle.std.specs.Prelude.{◌≡◌, ◌++◌, ◌∷◌, [], List, IfOk, OnOk, IfErr, IsTrue, Some, All, false, if◌then◌else◌};
ghost use Rattle.std.specs.Map.{keys_of};
ghost use Rattle.indexmap.specs.IndexMap.{keys};
ghost use Rattle.kx_lex.specs.declared.fault.Fault.TheVariants.{Memory};
ghost use Rattle.kx_merge.specs.Bodies.{gathered};
ghost use Rattle.kx_merge.specs.Gatherings.{Merges, MergesTable, TableAdds, placed_faults, placed_next, placed_offers};
ghost use Rattle.kx_merge.specs.Joins.{linked, linked_to};
ghost use Rattle.kx_merge.specs.Renewals.{TakesBack, held};
ghost use Rattle.kx_merge.specs.Moved.{IsOfferedMoved, moved_key};
ghost use Rattle.kx_merge.specs.Offers.{Offer, is_replace, merged_value};
ghost use Rattle.kx_merge.specs.Records.{AreOffered, IsGood, IsOffered};

use crate::fields::Fields;
use crate::gathering::Walk;
use crate::placed::Placed;
use kx_include::Link;
use kx_lex::Fault;
use kx_ordered::{Ordered, TableKey};
use kx_parse::Mode;
use std::alloc::Global;

/// What a value under a mode makes of the one before it.
pub fn merged_value<V: Drop>(mode: Mode, old: Option<V>, new: Option<V>) -> Option<V>
    ensures { result ≡ merged_value mode old new }
{
    match mode {
        Mode::Augment => old.or(new),
        Mode::Override => new.or(old),
        Mode::Replace => new,
    }
}

/// Merges a record under a mode, with those that are there.
#[inline(always)]
fn add_one<C, R: Fields<C>>(
    alloc: Global,
    records: &mut Ordered<R::Key, R>,
    mode: Mode,
    key: R::Key,
    given: R,
) -> Result<(), Fault>
    ensures shows { (o : Offer R.Key R.Cell R.Value) → IsOffered mode R.form key given o
        → Merges R.form R.Key.eq records.old result records.new (o ∷ []) }
    ensures err { IfErr result (λ e. e ≡ Memory) }
{
    match records.push_new(key, given)? {
        None => Ok(()),
        Some((place, given)) => records.value_mut(place).merge(alloc, given, mode),
    }
}

/// Merges records under a mode in order, with those that are there. Most statements of a section give a family of
/// records none, which takes no call where it is inlined.
#[inline(always)]
pub(crate) fn add_all<C, R: Fields<C>>(
    alloc: Global,
    records: &mut Ordered<R::Key, R>,
    mode: Mode,
    given: Vec<(R::Key, R)>,
) -> Result<(), Fault>
    ensures shows { (os : List (Offer R.Key R.Cell R.Value)) → AreOffered mode R.form given.items os
        → Merges R.form R.Key.eq records.old result records.new os }
    ensures err { IfErr result (λ e. e ≡ Memory) }
{
    'records: for (key, one) in given {
        add_one::<C, R>(alloc, records, mode, key, one)?;
    }
    Ok(())
}

/// Merges records under a mode, with those that are there.
pub(crate) fn add_joined<C, R: Fields<C>>(
    alloc: Global,
    records: &mut Ordered<R::Key, R>,
    mode: Mode,
    given: Ordered<R::Key, R>,
) -> Result<(), Fault>
    ensures shows { MergesTable R.form R.Key.eq records.old result records.new given
        (gathered R.Key.eq mode) }
    ensures err { IfErr result (λ e. e ≡ Memory) }
{
    add_all::<C, R>(alloc, records, mode, given.into_entries())
}

/// Merges, as the record of a key, what a record of an included map gives as a part of the include's text says.
fn add_moved<C, R: Fields<C>>(
    alloc: Global,
    records: &mut Ordered<R::Key, R>,
    link: Link,
    key: R::Key,
    one: &R,
) -> Result<(), Fault>
    ensures shows { (o : Offer R.Key R.Cell R.Value)
        → IsOfferedMoved R.form R.moves link.mode link.group key one.now o
        → Merges R.form R.Key.eq records.old result records.new (o ∷ []) }
    ensures err { IfErr result (λ e. e ≡ Memory) }
{
    if let Some(old) = records.get_mut(&key) {
        return old.merge_moved(alloc, one, link.group, link.mode);
    }
    let mut made = R::none(alloc);
    made.merge_moved(alloc, one, link.group, link.mode)?;
    records.push(key, made)?;
    Ok(())
}

/// Merges a record of an included map as a part of the include's text says.
fn add_found<C, R: Fields<C>>(
    alloc: Global,
    records: &mut Ordered<R::Key, R>,
    link: Link,
    key: &R::Key,
    one: &R,
) -> Result<(), Fault>
    ensures shows { (inner : List (Offer R.Key R.Cell R.Value))
        → IsGood R.form R.Key.eq inner key.now one.now → Merges R.form R.Key.eq records.old result
        records.new (linked_to R.Key.eq R.moves link (key.now ∷ []) inner) }
    ensures err { IfErr result (λ e. e ≡ Memory) }
{
    match R::key_in(key, link.group) {
        None => Ok(()),
        Some(to) => add_moved::<C, R>(alloc, records, link, to, one),
    }
}

/// Merges the records of an included map as a part of the include's text says, with those that are there.
pub(crate) fn add_included<C, R: Fields<C>>(
    alloc: Global,
    records: &mut Ordered<R::Key, R>,
    link: Link,
    given: &Ordered<R::Key, R>,
) -> Result<(), Fault>
    ensures shows { MergesTable R.form R.Key.eq records.old result records.new given.now
        (linked R.Key.eq R.moves link) }
    ensures err { IfErr result (λ e. e ≡ Memory) }
{
    // Most of what an include brings is new where it is the first.
    records.make_room(given.len())?;
    'records: for entry in given.as_slice() {
        add_found::<C, R>(alloc, records, link, &entry.0, &entry.1)?;
    }
    Ok(())
}

/// Whether records stay the same records where their map is moved to a group.
pub(crate) fn are_kept<C, R: Fields<C>>(keys: &[R::Key], group: Option<u8>) -> bool
    ensures { IsTrue result → All (λ key. moved_key R.moves group key ≡ Some key) keys.now }
{
    'keys: for key in keys {
        match R::key_in(key, group) {
            None => return false,
            Some(to) => {
                if to != *key {
                    return false;
                }
            }
        }
    }
    true
}

/// Merges what an included map gives to the records of some keys as a part of the include's text says, with those that
/// are there.
pub(crate) fn add_again<C, R: Fields<C>>(
    alloc: Global,
    records: &mut Ordered<R::Key, R>,
    link: Link,
    given: &Ordered<R::Key, R>,
    renewed: &[R::Key],
) -> Result<(), Fault>
    ensures shows { MergesTable R.form R.Key.eq records.old result records.new given.now
        (linked_to R.Key.eq R.moves link (held R.Key.eq (keys given.now) renewed.now)) }
    ensures err { IfErr result (λ e. e ≡ Memory) }
{
    'keys: for key in renewed {
        if let Some(one) = given.get(key) {
            add_found::<C, R>(alloc, records, link, key, one)?;
        }
    }
    Ok(())
}

/// Notes the keys of records.
fn note_keys<C, R: Fields<C>>(
    replaced: &mut Vec<R::Key>,
    given: &[(R::Key, R)],
) -> Result<(), Fault>
    ensures noted { OnOk result (replaced.new.items ≡ replaced.old.items ++ keys_of given.now) }
    ensures err { IfErr result (λ e. e ≡ Memory) }
{
    'records: for entry in given {
        let key = entry.0.again()?;
        replaced.push(key)?;
    }
    Ok(())
}

/// Notes the keys of records that take back the values before them.
fn note_replaced<C, R: Fields<C>>(
    replaced: &mut Vec<R::Key>,
    mode: Mode,
    given: &[(R::Key, R)],
) -> Result<(), Fault>
    ensures noted { OnOk result
        (replaced.new.items ≡ replaced.old.items
        ++ (if is_replace mode then keys_of given.now else [])) }
    ensures err { IfErr result (λ e. e ≡ Memory) }
{
    match mode {
        Mode::Augment => Ok(()),
        Mode::Override => Ok(()),
        Mode::Replace => note_keys::<C, R>(replaced, given),
    }
}

/// More records than most families have of which few statements of a map give any.
const SOME_RECORDS: usize = 4;

/// Makes room for a record of each item that is left, once some gave records.
fn room_for_rest<K: Ord + TableKey + Drop, R>(
    records: &mut Ordered<K, R>,
    left: usize,
) -> Result<(), Fault>
    ensures same { records.new ≡ records.old }
    ensures err { IfErr result (λ e. e ≡ Memory) }
{
    if records.len() == SOME_RECORDS {
        records.make_room(left.saturating_add(SOME_RECORDS))?;
    }
    Ok(())
}

/// What a statement makes of records, and the defaults after it. The keys of records whose values it takes back are noted.
pub(crate) fn merge_own<C, R: Fields<C>>(
    alloc: Global,
    context: &C,
    defaults: R::Defaults,
    placed: &Placed,
    walk: &mut Walk<R::Key, R>,
) -> Result<R::Defaults, Fault>
    ensures adds { TableAdds R.form R.Key.eq walk.old.merged.records result
        walk.new.merged.records (placed_offers (R.rules context.now) defaults placed.now)
        (placed_faults (R.rules context.now) defaults placed.now) }
    ensures back { OnOk result (TakesBack R.Key.eq false walk.old.replaced.keys.items
        walk.new.replaced.keys.items (placed_offers (R.rules context.now) defaults placed.now)) }
    ensures marks { walk.new.replaced.marks ≡ walk.old.replaced.marks }
    ensures next { IfOk result (λ d. d ≡ placed_next (R.rules context.now) defaults placed.now) }
{
    let mode = placed.stated.mode;
    let (given, next) = R::read(alloc, context, defaults, placed, &mut walk.merged.notes)?;
    note_replaced::<C, R>(&mut walk.replaced.keys, mode, given.as_slice())?;
    let left = walk.items.saturating_sub(walk.replaced.marks.len());
    room_for_rest(&mut walk.merged.records, left)?;
    add_all::<C, R>(alloc, &mut walk.merged.records, mode, given)?;
    Ok(next)
}
