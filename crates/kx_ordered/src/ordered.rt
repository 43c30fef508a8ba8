//! Values by key, in order.
ghost use Rattle.std.specs.Prelude.{◌≡◌, ℕ, Option, IfSome, ◌++◌, ◌∷◌, [], length, position, slice_get, IfOk, OnOk, IfErr, OnErr, None, Some, ◌<◌, if◌then◌else◌, unwrap_or};
ghost use Rattle.std.specs.BTreeMap as tree;
ghost use Rattle.std.specs.Option.{option_map, option_copied, option_copied_mut};
ghost use Rattle.std.specs.Borrow.{sem};
ghost use Rattle.indexmap.specs.IndexMap.{get, keys, values, index_map_len, insert_entry, IsUnique};
ghost use Rattle.kx_ordered.specs.KeyPlaces.{ArePlaced};
ghost use Rattle.kx_ordered.specs.Numbers.{HasRoom, numbered};
ghost use Rattle.kx_ordered.specs.Lending.{Updates, lends_at, lends_value, order_of};

use crate::table_key::TableKey;
use std::alloc::{AllocError, Global};
use std::collections::BTreeMap;
use std::marker::Model;

/// A key is found by its number, unless that number is more than so many times the count of keys before it and [`SPARE`].
/// So the table of numbers has at most four places for each key and 323 more, whatever the numbers are. That can be more
/// room than small entries take.
const SPREAD: usize = 4;

const SPARE: usize = 64;

/// How many places the table of numbers grows by, since numbers mostly follow one another.
const AHEAD: usize = 64;

/// Values by key, in the order in which the keys were first put. A key is found in the logarithm of how many there are,
/// whatever the keys are, and one that is told by a small number at once.
#[derive(Drop)]
pub struct Ordered<K: TableKey + Drop, V> {
    entries: Vec<(K, V)>,
    /// The places of keys by their numbers, for those that are found by them.
    numbers: Vec<Option<u32>>,
    /// The places of the other keys.
    places: BTreeMap<K, usize>,
}

impl<K: TableKey + Drop, V> Model for Ordered<K, V> {
    ghost use Rattle.std.specs.Prelude.{ℕ};
    ghost use Rattle.std.specs.Coded.{coded_ℕ};
    ghost use Rattle.std.specs.List.{IsDistinct};
    ghost use Rattle.std.specs.Map.{keys_of};
    ghost use Rattle.indexmap.specs.IndexMap.{IndexMap};
    ghost use Rattle.indexmap.specs.Layout.{hash_map, hash_map_code};
    ghost use Rattle.kx_ordered.specs.KeyPlaces.{ArePlaced, IsEachPlaced};

    ghost Value = { IndexMap K V ℕ };

    ghost coded = { hash_map_code K.code V.code coded_ℕ };

    ghost view = { λ m. hash_map m.entries.items 0 0 };

    ghost invariant = { λ m. IsEachPlaced K.cmp K.number m.numbers.items m.places m.entries.items
        × ArePlaced K.cmp K.number m.places m.entries.items
        × IsDistinct K.eq (keys_of m.entries.items) };
}

/// What a table of numbers tells of one.
fn place_of(numbers: &[Option<u32>], number: Option<u16>) -> Option<usize>
    ensures { result ≡ numbered numbers.now number }
{
    match number {
        None => None,
        Some(number) => match numbers.get(usize::from(number)) {
            Some(Some(place)) => Some(*place as usize),
            _ => None,
        },
    }
}

/// Makes room for the number of a key after so many others, unless it is far above their count; answers it where there is
/// room.
fn room_for(
    numbers: &mut Vec<Option<u32>>,
    number: Option<u16>,
    count: usize,
) -> Result<Option<usize>, AllocError>
    ensures same { (n : Option ℕ) → numbered numbers.new.items n ≡ numbered numbers.old.items n }
    ensures room { IfOk result (HasRoom numbers.new.items number) }
{
    let Some(number) = number else {
        return Ok(None);
    };
    let number = usize::from(number);
    if number < numbers.len() {
        return Ok(Some(number));
    }
    if number / SPREAD > count.saturating_add(SPARE) {
        return Ok(None);
    }
    numbers.resize(number + AHEAD, None)?;
    Ok(Some(number))
}

/// The place of a key; where it has none, it is given this one.
fn place_or_put<K: TableKey + Drop>(
    places: &mut BTreeMap<K, usize>,
    key: K,
    place: usize,
) -> Result<usize, AllocError>
    ensures found { IfOk result (λ found.
        found ≡ unwrap_or (tree.get K.cmp places.old key) place) }
    ensures put { IfOk result (λ found.
        places.new.entries ≡ tree.insert_entry K.cmp places.old.entries key found) }
    ensures err { OnErr result (places.new.entries ≡ places.old.entries) }
{
    match places.entry(key) {
        Ok(entry) => Ok(*entry.or_insert(place)),
        Err(_) => Err(AllocError),
    }
}

impl<K: TableKey + Drop, V> Ordered<K, V> {
    /// No values.
    pub fn new(alloc: Global) -> Ordered<K, V>
        ensures empty { result.entries ≡ [] }
    {
        Ordered {
            entries: Vec::new(alloc),
            numbers: Vec::new(alloc),
            places: BTreeMap::new(alloc),
        }
    }

    /// Makes room for so many values in all.
    pub fn make_room(&mut self, count: usize) -> Result<(), AllocError>
        ensures same { self.new ≡ self.old }
    {
        self.entries
            .reserve(count.saturating_sub(self.entries.len()))?;
        Ok(())
    }

    /// How many there are.
    pub fn len(&self) -> usize
        ensures { result ≡ index_map_len self.now }
    {
        self.entries.len()
    }

    /// The place of a key, counted from 0.
    #[inline(always)]
    pub fn place(&self, key: &K) -> Option<usize>
        ensures value { result ≡ position (K.eq key.now) (keys self.now) }
        ensures unique { IsUnique K.eq self.now }
    {
        match place_of(&self.numbers, key.number()) {
            Some(place) => Some(place),
            None => self.places.get(key).copied(),
        }
    }

    /// The places of keys, among which a name is found by its bytes.
    pub(crate) fn places(&self) -> &BTreeMap<K, usize>
        ensures { ArePlaced K.cmp K.number result.now self.now.entries }
    {
        &self.places
    }

    /// The key and the value at a place, counted from 0.
    pub fn at(&self, place: usize) -> Option<(&K, &V)>
        ensures { option_map (λ e. (e.0.now, e.1.now)) result ≡ slice_get self.now.entries place }
    {
        match self.entries.get(place) {
            Some((key, value)) => Some((key, value)),
            None => None,
        }
    }

    /// The value at a place, counted from 0.
    pub fn value(&self, place: usize) -> Option<&V>
        ensures { option_copied result ≡ option_map (λ e. e.1) (slice_get self.now.entries place) }
    {
        match self.entries.get(place) {
            Some((_, value)) => Some(value),
            None => None,
        }
    }

    /// The value of a key.
    pub fn get(&self, key: &K) -> Option<&V>
        ensures value { option_copied result ≡ get K.eq self.now key.now }
    {
        match self.place(key) {
            None => None,
            Some(place) => self.value(place),
        }
    }

    /// The value of a key, which can be written.
    pub fn get_mut(&mut self, key: &K) -> Option<&mut V>
        ensures* writes_back { sem 𝓛 (lends_value K.row V.row
            (order_of K.cmp K.eq K.number K.partial_cmp) self.entry key.now result) }
        ensures value { option_copied_mut result ≡ get K.eq self.old key.now }
    {
        match self.place(key) {
            None => None,
            Some(place) => Some(self.value_mut(place)),
        }
    }

    /// The value at a place, counted from 0, which can be written.
    pub fn value_mut(&mut self, place: usize) -> &mut V
        requires { place < index_map_len self.old }
        ensures* writes_back { sem 𝓛 (lends_at K.row V.row
            (order_of K.cmp K.eq K.number K.partial_cmp) self.entry place result) }
        ensures value { slice_get (values self.old) place ≡ Some result.now }
    {
        let entry = &mut self.entries[place];
        &mut entry.1
    }

    /// The keys with their values, in order.
    pub fn as_slice(&self) -> &[(K, V)]
        ensures value { result.now ≡ self.now.entries }
        ensures unique { IsUnique K.eq self.now }
    {
        self.entries.as_slice()
    }

    /// The same, of which the map is made up.
    pub fn into_entries(self) -> Vec<(K, V)>
        ensures value { result.items ≡ self.entries }
        ensures unique { IsUnique K.eq self }
    {
        self.entries
    }

    /// Puts a value after the others, whose key has none.
    pub fn push(&mut self, key: K, value: V) -> Result<(), AllocError>
    where
        V: Drop,
        requires { get K.eq self.old key ≡ None }
        ensures entries { OnOk result
            (self.new.entries ≡ insert_entry K.eq self.old.entries key value) }
        ensures updates { OnOk result (Updates K.eq self.old key value self.new) }
        ensures unique { OnOk result (IsUnique K.eq self.new) }
        ensures err { OnErr result (self.new ≡ self.old) }
    {
        self.put(key, value)
    }

    fn put(&mut self, key: K, value: V) -> Result<(), AllocError>
    where
        V: Drop,
        requires { get K.eq self.old key ≡ None }
        ensures entries { OnOk result (self.new.entries ≡ self.old.entries ++ (key, value) ∷ []) }
        ensures unique { OnOk result (IsUnique K.eq self.new) }
        ensures err { OnErr result (self.new ≡ self.old) }
    {
        let place = self.len();
        match room_for(&mut self.numbers, key.number(), place)? {
            None => self.put_by_order(key, value),
            Some(number) => {
                let Ok(told) = u32::try_from(place) else {
                    return self.put_by_order(key, value);
                };
                self.entries.push((key, value))?;
                self.numbers[number] = Some(told);
                Ok(())
            }
        }
    }

    /// Puts a value whose key is found by its order.
    #[inline(always)]
    fn put_by_order(&mut self, key: K, value: V) -> Result<(), AllocError>
    where
        V: Drop,
        requires { get K.eq self.old key ≡ None }
        ensures entries { OnOk result (self.new.entries ≡ self.old.entries ++ (key, value) ∷ []) }
        ensures unique { OnOk result (IsUnique K.eq self.new) }
        ensures err { OnErr result (self.new ≡ self.old) }
    {
        let place = self.len();
        let again = key.again()?;
        self.entries.push((key, value))?;
        if let Err(_) = self.places.insert(again, place) {
            let _ = self.entries.pop();
            return Err(AllocError);
        }
        Ok(())
    }

    /// Puts a value after the others, if its key has none; else gives it back, with the place of its key, counted from 0.
    pub fn push_new(&mut self, key: K, value: V) -> Result<Option<(usize, V)>, AllocError>
    where
        V: Drop,
        ensures place { IfOk result (λ found.
            option_map (λ f. f.0) found ≡ position (K.eq key) (keys self.old)) }
        ensures back { IfOk result (λ found.
            IfSome found (λ f. (f.1 ≡ value) × (self.new ≡ self.old))) }
        ensures entries { IfOk result (λ found.
            found ≡ None → self.new.entries ≡ insert_entry K.eq self.old.entries key value) }
        ensures updates { IfOk result (λ found.
            found ≡ None → Updates K.eq self.old key value self.new) }
        ensures unique { IsUnique K.eq self.new }
        ensures err { OnErr result (self.new ≡ self.old) }
    {
        if key.number().is_none() {
            return self.put_new_by_order(key, value);
        }
        match self.place(&key) {
            Some(place) => Ok(Some((place, value))),
            None => {
                self.push(key, value)?;
                Ok(None)
            }
        }
    }

    /// Puts a value whose key is found by its order, if it has none; else gives it back, with the place of its key.
    fn put_new_by_order(&mut self, key: K, value: V) -> Result<Option<(usize, V)>, AllocError>
    where
        V: Drop,
        requires { K.number key ≡ None }
        ensures place { IfOk result (λ found.
            option_map (λ f. f.0) found ≡ position (K.eq key) (keys self.old)) }
        ensures back { IfOk result (λ found.
            IfSome found (λ f. (f.1 ≡ value) × (self.new ≡ self.old))) }
        ensures put { IfOk result (λ found.
            found ≡ None → self.new.entries ≡ self.old.entries ++ (key, value) ∷ []) }
        ensures unique { IsUnique K.eq self.new }
        ensures err { OnErr result (self.new ≡ self.old) }
    {
        let place = self.len();
        let again = key.again()?;
        self.entries.push((key, value))?;
        match place_or_put(&mut self.places, again, place) {
            Ok(found) if found == place => Ok(None),
            Ok(found) => match self.entries.pop() {
                Some((_, value)) => Ok(Some((found, value))),
                None => Err(AllocError),
            },
            Err(error) => {
                let _ = self.entries.pop();
                Err(error)
            }
        }
    }

    /// Puts a value: where its key has one, in its place, else after the others.
    pub fn insert(&mut self, key: K, value: V) -> Result<(), AllocError>
    where
        V: Drop,
        ensures entries { OnOk result
            (self.new.entries ≡ insert_entry K.eq self.old.entries key value) }
        ensures updates { OnOk result (Updates K.eq self.old key value self.new) }
        ensures err { OnErr result (self.new ≡ self.old) }
    {
        match self.place(&key) {
            None => self.push(key, value),
            Some(place) => {
                *self.value_mut(place) = value;
                Ok(())
            }
        }
    }
}
