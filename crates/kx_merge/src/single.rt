//! Records of one value, under sections without defaults.
ghost use Rattle.std.specs.Prelude.{◌≡◌, ◌∷◌, [], ℕ, IfErr, IfOk, List, None, Option, Some, true};
ghost use Rattle.kx_include.specs.declared.place.Place.{Place as PlaceValue};
ghost use Rattle.kx_lex.specs.declared.fault.Fault.{Fault as FaultValue};
ghost use Rattle.kx_lex.specs.declared.fault.Fault.TheVariants.{Memory};
ghost use Rattle.kx_merge.specs.Moved.{moved_key};
ghost use Rattle.kx_merge.specs.Offers.{Offer, plain_offer, merged_value};
ghost use Rattle.kx_merge.specs.Records.{AreOffered};
ghost use Rattle.kx_merge.specs.Single.{single_form, single_moves, single_rules};
ghost use Rattle.kx_tree.specs.declared.tree.Mode.{Mode as ModeValue};
ghost use Rattle.kx_tree.specs.declared.tree.Stated.{Stated as StatedValue};
ghost use Rattle.kx_merge.specs.Reports.{ReportsOrRunsOut};

use crate::fields::Fields;
use crate::merging::merged_value;
use crate::placed::Placed;
use ks_core::Notes;
use kx_lex::Fault;
use kx_ordered::TableKey;
use kx_parse::Mode;
use std::alloc::Global;

/// A record of one value, where statements give it one.
#[derive(Drop)]
pub struct Single<V> {
    pub value: Option<V>,
}

/// A value of which a record has one, as an alias has one target, under a context `C`.
pub trait SingleValue<C>: Drop {
    /// What records are told apart by.
    type Key: Ord + TableKey + Drop;

    ghost offers: { C → PlaceValue → StatedValue → List (Offer Self.Key (Unit {0}) Self) };

    ghost faults: { C → PlaceValue → StatedValue → List FaultValue };

    // The record that one of a map goes to where the map is moved to a group, if any.
    ghost moved: { ℕ → Self.Key → Option Self.Key };

    /// What a statement gives, with the record that each is given to.
    fn read(
        alloc: Global,
        context: &C,
        placed: &Placed,
    ) -> Result<Vec<(Self::Key, Single<Self>)>, Fault>
        ensures records { IfOk result (λ records. AreOffered placed.now.stated.now.mode single_form
            records.items (offers context.now placed.now.place placed.now.stated.now)) }
        ensures faults { ReportsOrRunsOut result
            (faults context.now placed.now.place placed.now.stated.now) };

    /// The same value.
    fn try_clone(&self, alloc: Global) -> Result<Self, Fault>
        ensures value { IfOk result (λ copy. copy ≡ self.now) }
        ensures err { IfErr result (λ e. e ≡ Memory) };

    /// What a record is told apart by where its map is moved to a group; `None` where none is left of it.
    fn key_in(key: &Self::Key, group: Option<u8>) -> Option<Self::Key>
        ensures { result ≡ moved_key (single_moves moved) group key.now };

    // No two records of a map that is moved become one.
    ghost apart: { (n : ℕ) (j k to : Self.Key)
        → moved n j ≡ Some to → moved n k ≡ Some to → j ≡ k };

    // Keys that are equal are the same.
    ghost same: { (j k : Self.Key) → Self.Key.PartialEq.eq j k ≡ true → j ≡ k };
}

/// No records.
pub fn none_given<K: Drop, V: Drop>(alloc: Global) -> Vec<(K, Single<V>)>
    ensures { (mode : ModeValue) → AreOffered mode single_form result.items [] }
{
    Vec::new(alloc)
}

/// One record, which is given a value.
///
/// # Errors
/// `Memory`.
pub fn one_given<K: Drop, V: Drop>(
    alloc: Global,
    key: K,
    value: V,
) -> Result<Vec<(K, Single<V>)>, Fault>
    ensures records { (mode : ModeValue) (name : K) (given : V) → key ≡ name → value ≡ given
        → IfOk result (λ records. AreOffered mode single_form records.items
        (plain_offer mode name (λ c. Some given) ∷ [])) }
    ensures err { IfErr result (λ e. e ≡ Memory) }
{
    let mut records = Vec::new(alloc);
    records.push((key, Single { value: Some(value) }))?;
    Ok(records)
}

fn try_clone<C, V: SingleValue<C>>(alloc: Global, value: &Option<V>) -> Result<Option<V>, Fault>
    ensures value { IfOk result (λ copy. copy ≡ value.now) }
    ensures err { IfErr result (λ e. e ≡ Memory) }
{
    match value {
        None => Ok(None),
        Some(value) => Ok(Some(value.try_clone(alloc)?)),
    }
}

impl<C, V: SingleValue<C>> Fields<C> for Single<V> {
    type Key = V::Key;

    type Cell = ();

    type Value = V;

    type Defaults = ();

    ghost rules = { λ context. single_rules (V.offers context) (V.faults context) };

    ghost moves = { single_moves V.moved };

    ghost form = { single_form };

    fn start(_alloc: Global, _context: &C) {}

    fn read(
        alloc: Global,
        context: &C,
        _defaults: (),
        placed: &Placed,
        _notes: &mut Notes,
    ) -> Result<(Vec<(V::Key, Single<V>)>, ()), Fault> {
        Ok((V::read(alloc, context, placed)?, ()))
    }

    fn merge(&mut self, _alloc: Global, other: Single<V>, mode: Mode) -> Result<(), Fault> {
        self.value = merged_value(mode, self.value.take(), other.value);
        Ok(())
    }

    fn none(_alloc: Global) -> Single<V> {
        Single { value: None }
    }

    fn merge_moved(
        &mut self,
        alloc: Global,
        other: &Single<V>,
        _group: Option<u8>,
        mode: Mode,
    ) -> Result<(), Fault> {
        // a value that is there stays, so none is copied
        if mode == Mode::Augment && self.value.is_some() {
            return Ok(());
        }
        let value = try_clone::<C, V>(alloc, &other.value)?;
        self.value = merged_value(mode, self.value.take(), value);
        Ok(())
    }

    fn key_in(key: &V::Key, group: Option<u8>) -> Option<V::Key> {
        V::key_in(key, group)
    }

    ghost apart = { V.apart };

    ghost same = { V.same };
}
