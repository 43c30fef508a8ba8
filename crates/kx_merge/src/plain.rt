//! Records without groups, which moving a map to a group leaves as they are.
ghost use Rattle.std.specs.Prelude.{◌≡◌, ℕ, true, Option, None, IfOk, unwrap_or};
ghost use Rattle.std.proofs.Common.{◌∙◌, ap, sym};
ghost use Rattle.kx_merge.specs.Bodies.{Rules, no_moves};
ghost use Rattle.kx_merge.specs.Gatherings.{placed_faults, placed_next, placed_offers};
ghost use Rattle.kx_merge.specs.Offers.{MergesCells};
ghost use Rattle.kx_merge.specs.Plain.{plain_form};
ghost use Rattle.kx_merge.specs.Records.{AreOffered};
ghost use Rattle.kx_merge.specs.Reports.{ReportsOrRunsOut};

use crate::fields::Fields;
use crate::placed::Placed;
use ks_core::Notes;
use kx_lex::Fault;
use kx_ordered::TableKey;
use kx_parse::Mode;
use std::alloc::Global;

/// A record without groups, by what statements give it.
#[derive(Drop)]
pub struct Plain<V> {
    pub values: V,
}

/// What statements give a record without groups, under a context `C`.
pub trait PlainRecord<C>: Copy + Drop {
    /// What records are told apart by.
    type Key: Ord + TableKey + Copy + Drop;
    /// What can have a value in a record; never held.
    type Cell;
    /// The value of a cell; never held.
    type Value;
    /// The default statements of a section, gathered.
    type Defaults: Drop;

    ghost rules: { C → Rules Self.Key Self.Cell Self.Value Self.Defaults };

    ghost cell: { Self → Self.Cell → Option Self.Value };

    /// The defaults at the start of a section.
    fn start(context: &C) -> Self::Defaults
        ensures { result ≡ (rules context.now).start };

    /// What a statement gives, with the record that each is given to, under the defaults before it in its section, and
    /// the defaults after it. What is noted of it is added to `notes`.
    fn read(
        alloc: Global,
        context: &C,
        defaults: Self::Defaults,
        placed: &Placed,
        notes: &mut Notes,
    ) -> Result<(Vec<(Self::Key, Plain<Self>)>, Self::Defaults), Fault>
        ensures records { IfOk result (λ said. AreOffered placed.now.stated.now.mode
            (plain_form cell) said.0.items
            (placed_offers (rules context.now) defaults placed.now)) }
        ensures next { IfOk result (λ said.
            said.1 ≡ placed_next (rules context.now) defaults placed.now) }
        ensures faults { ReportsOrRunsOut result
            (placed_faults (rules context.now) defaults placed.now) };

    /// Of a record that nothing was given yet.
    fn none() -> Self
        ensures { (c : Self.Cell) → cell result c ≡ None };

    /// What a record has once a later one gives more.
    fn merged_with(self, other: Self, mode: Mode) -> Self
        ensures { MergesCells mode (cell self) (cell other) (cell result) };

    // Keys that are equal are the same.
    ghost same: { (j k : Self.Key) → Self.Key.PartialEq.eq j k ≡ true → j ≡ k };
}

impl<C, V: PlainRecord<C>> Fields<C> for Plain<V> {
    type Key = V::Key;

    type Cell = V::Cell;

    type Value = V::Value;

    type Defaults = V::Defaults;

    ghost rules = { V.rules };

    ghost moves = { no_moves };

    ghost form = { plain_form V.cell };

    fn start(_alloc: Global, context: &C) -> V::Defaults {
        V::start(context)
    }

    fn read(
        alloc: Global,
        context: &C,
        defaults: V::Defaults,
        placed: &Placed,
        notes: &mut Notes,
    ) -> Result<(Vec<(V::Key, Plain<V>)>, V::Defaults), Fault> {
        V::read(alloc, context, defaults, placed, notes)
    }

    fn merge(&mut self, _alloc: Global, other: Plain<V>, mode: Mode) -> Result<(), Fault> {
        self.values = self.values.merged_with(other.values, mode);
        Ok(())
    }

    fn none(_alloc: Global) -> Plain<V> {
        Plain { values: V::none() }
    }

    fn merge_moved(
        &mut self,
        _alloc: Global,
        other: &Plain<V>,
        _group: Option<u8>,
        mode: Mode,
    ) -> Result<(), Fault> {
        self.values = self.values.merged_with(other.values, mode);
        Ok(())
    }

    fn key_in(key: &V::Key, _group: Option<u8>) -> Option<V::Key> {
        Some(*key)
    }

    ghost apart = { λ n j k to one two. ap (λ key. unwrap_or key to) (one ∙ sym two) };

    ghost same = { V.same };
}
