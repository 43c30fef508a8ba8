//! What a kind of statement gives records: the trait of each kind.
ghost use Rattle.std.specs.Prelude.{◌≡◌, ℕ, true, Option, None, Some, IfOk, IfErr, OnOk};
ghost use Rattle.kx_lex.specs.declared.fault.Fault.TheVariants.{Memory};
ghost use Rattle.kx_merge.specs.Bodies.{Rules, Moves};
ghost use Rattle.kx_merge.specs.Gatherings.{placed_faults, placed_next, placed_offers};
ghost use Rattle.kx_merge.specs.Moved.{moved_key, moved_value, moved_width};
ghost use Rattle.kx_merge.specs.Offers.{MergesCells, MergesWidths};
ghost use Rattle.kx_merge.specs.Records.{AreOffered, Form};
ghost use Rattle.kx_merge.specs.Reports.{ReportsOrRunsOut};

use crate::placed::Placed;
use ks_core::Notes;
use kx_lex::Fault;
use kx_ordered::TableKey;
use kx_parse::Mode;
use std::alloc::Global;

/// What the statements of a section kind make of records, under a context `C`.
pub trait Fields<C>: Drop {
    /// What records are told apart by.
    type Key: Ord + TableKey + Drop;
    /// What can have a value in a record; never held.
    type Cell;
    /// The value of a cell; never held.
    type Value;
    /// The default statements of a section, gathered.
    type Defaults: Drop;

    ghost rules: { C → Rules Self.Key Self.Cell Self.Value Self.Defaults };

    ghost moves: { Moves Self.Key Self.Cell };

    ghost form: { Form Self Self.Cell Self.Value };

    /// The defaults at the start of a section.
    fn start(alloc: Global, context: &C) -> Self::Defaults
        ensures { result ≡ (rules context.now).start };

    /// What a statement gives, with the record that each is given to, under the defaults before it in its section, and
    /// the defaults after it. What is noted of it is added to `notes`.
    fn read(
        alloc: Global,
        context: &C,
        defaults: Self::Defaults,
        placed: &Placed,
        notes: &mut Notes,
    ) -> Result<(Vec<(Self::Key, Self)>, Self::Defaults), Fault>
        ensures records { IfOk result (λ said. AreOffered placed.now.stated.now.mode form
            said.0.items (placed_offers (rules context.now) defaults placed.now)) }
        ensures next { IfOk result (λ said.
            said.1 ≡ placed_next (rules context.now) defaults placed.now) }
        ensures faults { ReportsOrRunsOut result
            (placed_faults (rules context.now) defaults placed.now) };

    /// Merges what a later record gives.
    fn merge(&mut self, alloc: Global, other: Self, mode: Mode) -> Result<(), Fault>
        ensures cells { OnOk result
            (MergesCells mode (form.cell self.old) (form.cell other) (form.cell self.new)) }
        ensures widths { OnOk result
            (MergesWidths mode (form.width self.old) (form.width other) (form.width self.new)) }
        ensures err { IfErr result (λ e. e ≡ Memory) };

    /// A record that nothing was given yet.
    fn none(alloc: Global) -> Self
        ensures cells { (c : Self.Cell) → form.cell result c ≡ None }
        ensures widths { (g : ℕ) → form.width result g ≡ 0 };

    /// Merges what a record of an included map gives, as it stands where its map is moved to a group; as it is where
    /// it isn't moved.
    fn merge_moved(
        &mut self,
        alloc: Global,
        other: &Self,
        group: Option<u8>,
        mode: Mode,
    ) -> Result<(), Fault>
        ensures cells { OnOk result (MergesCells mode (form.cell self.old)
            (moved_value moves group (form.cell other.now)) (form.cell self.new)) }
        ensures widths { OnOk result (MergesWidths mode (form.width self.old)
            (moved_width moves group (form.width other.now)) (form.width self.new)) }
        ensures err { IfErr result (λ e. e ≡ Memory) };

    /// What a record is told apart by where its map is moved to a group; `None` where none is left of it.
    fn key_in(key: &Self::Key, group: Option<u8>) -> Option<Self::Key>
        ensures { result ≡ moved_key moves group key.now };

    // No two records of a map that is moved become one.
    ghost apart: { (n : ℕ) (j k to : Self.Key)
        → moves.key n j ≡ Some to → moves.key n k ≡ Some to → j ≡ k };

    // Keys that are equal are the same.
    ghost same: { (j k : Self.Key) → Self.Key.PartialEq.eq j k ≡ true → j ≡ k };
}
