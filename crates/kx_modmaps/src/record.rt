//! The modifiers that statements give a key or a keysym.
ghost use Rattle.std.specs.Prelude.{◌≡◌, ◌++◌, ◌∷◌, [], ℕ, IfErr, IfOk, List, OnOk, map};
ghost use Rattle.std.specs.List.{flat_map};
ghost use Rattle.std.proofs.Common.{rules};
ghost use Rattle.kx_lex.specs.declared.fault.Fault.TheVariants.{Memory};
ghost use Rattle.kx_tree.specs.declared.tree.Mode.{Mode as ModeValue};
ghost use Rattle.kx_merge.specs.Offers.{Offer};
ghost use Rattle.kx_mods.specs.Mods.{mask};
ghost use Rattle.kx_modmaps.specs.Entries.{entry_faults, targets_of, word_faults, word_mask};
ghost use Rattle.kx_modmaps.specs.Maps.{AreAssigned, assigned_cell, given, map_offer, map_rules, offers_to};
ghost use Rattle.kx_merge.specs.Reports.{ReportsOrRunsOut};

use crate::entries::{Context, ModifierMap, map_in, read_targets, read_word};
use crate::target::Target;
use ks_core::Notes;
use kx_lex::{At, Fault};
use kx_merge::{Placed, Plain, PlainRecord};
use kx_mods::Mods;
use kx_parse::Mode;
use std::alloc::Global;

/// What can have a value in a modifier map.
#[derive(Clone, Copy)]
pub enum Cell {
    /// A modifier of a key, by its bit, counted from 0.
    Present(u8),
    /// The modifier of a keysym.
    Only,
}

/// What modifier maps give a key or a keysym.
#[derive(Clone, Copy, Drop)]
pub struct Assigned {
    /// Of a key, the modifiers that it has.
    pub(crate) present: Mods,
    /// Of a keysym, its modifier or none, where that is given.
    pub(crate) only: Option<Mods>,
}

impl Assigned {
    /// What is given to a target.
    fn of(target: Target, mods: Mods) -> Assigned
        ensures { (c : Cell) → assigned_cell result c ≡ given target (mask mods) c }
    {
        match target {
            Target::Key(_) => Assigned {
                present: mods,
                only: None,
            },
            Target::Keysym(_) => Assigned {
                present: Mods::NONE,
                only: Some(mods),
            },
        }
    }
}

/// Adds what is given to a target, after others.
fn add_record(
    records: &mut Vec<(Target, Plain<Assigned>)>,
    target: &Target,
    mods: Mods,
) -> Result<(), Fault>
    ensures added { (mode : ModeValue) (os : List (Offer Target Cell ℕ))
        → AreAssigned mode records.old.items os
        → OnOk result (AreAssigned mode records.new.items
        (os ++ map_offer mode (mask mods) target.now ∷ [])) }
    ensures err { IfErr result (λ e. e ≡ Memory) }
{
    let values = Assigned::of(*target, mods);
    records.push((*target, Plain { values }))?;
    Ok(())
}

/// What is given to targets.
fn records_for(
    alloc: Global,
    targets: &[Target],
    mods: Mods,
) -> Result<Vec<(Target, Plain<Assigned>)>, Fault>
    ensures records { (mode : ModeValue)
        → IfOk result (λ records. AreAssigned mode records.items
        (map (map_offer mode (mask mods)) targets.now)) }
    ensures err { IfErr result (λ e. e ≡ Memory) }
{
    let mut records = Vec::new(alloc);
    'targets: for target in targets {
        add_record(&mut records, target, mods)?;
    }
    Ok(records)
}

#[tactic(auto, using(kx_merge::proofs::Offered::nothing_offered))]
fn no_records(alloc: Global) -> Vec<(Target, Plain<Assigned>)>
    ensures { (mode : ModeValue) → AreAssigned mode result.items [] }
{
    Vec::new(alloc)
}

/// What a modifier map gives; `whole` is the statement.
fn read_map(
    alloc: Global,
    context: &Context,
    whole: At,
    map: &ModifierMap,
    notes: &mut Notes,
) -> Result<Vec<(Target, Plain<Assigned>)>, Fault>
    ensures records { (mode : ModeValue)
        → IfOk result (λ records. AreAssigned mode records.items
        (offers_to mode (word_mask map.now.word.now.bytes)
        (targets_of context.now.codes.now context.now.keysyms.now map.now.entries.now))) }
    ensures faults { ReportsOrRunsOut result
        (word_faults whole.file context.now.modifiers.now.names map.now.word.now
        ++ flat_map (entry_faults whole.file whole.span) map.now.entries.now) }
{
    let mods = read_word(context.modifiers, whole.file, map.word)?;
    let targets = read_targets(alloc, context, whole, map.entries, notes)?;
    records_for(alloc, targets.as_slice(), mods)
}

impl<'a, 'l> PlainRecord<Context<'a, 'l>> for Assigned {
    type Key = Target;

    type Cell = Cell;

    type Value = u8;

    type Defaults = ();

    ghost rules = { λ context. map_rules context.codes.now context.keysyms.now
        context.modifiers.now.names };

    ghost cell = { λ r c. assigned_cell r c };

    fn start(_context: &Context<'a, 'l>) {}

    fn read(
        alloc: Global,
        context: &Context<'a, 'l>,
        _defaults: (),
        placed: &Placed,
        notes: &mut Notes,
    ) -> Result<(Vec<(Target, Plain<Assigned>)>, ()), Fault> {
        let Some(map) = map_in(&placed.stated.statement) else {
            return Ok((no_records(alloc), ()));
        };
        let records = read_map(alloc, context, placed.whole(), &map, notes)?;
        Ok((records, ()))
    }

    fn none() -> Assigned {
        Assigned {
            present: Mods::NONE,
            only: None,
        }
    }

    fn merged_with(self, other: Assigned, mode: Mode) -> Assigned {
        match mode {
            Mode::Augment => Assigned {
                present: self.present.with(other.present),
                only: self.only.or(other.only),
            },
            Mode::Override => Assigned {
                present: self.present.with(other.present),
                only: other.only.or(self.only),
            },
            Mode::Replace => other,
        }
    }

    ghost same = { λ j k e. Prim.search rules };
}
