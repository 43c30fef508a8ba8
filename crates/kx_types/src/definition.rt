//! What the fields of a type say together.
ghost use Rattle.std.specs.Prelude.{◌≡◌, [], All, ℕ, Option, None, Some, IfOk, OnOk, map, nat_eq, unwrap_or};
ghost use Rattle.std.specs.Option.{option_or};
ghost use Rattle.indexmap.specs.IndexMap.{get};
ghost use Rattle.kx_merge.specs.Last.{last_given};
ghost use Rattle.kx_types.specs.Firsts.{each_once, with_key};
ghost use Rattle.kx_types.specs.Lawful.{IsLawful, NamesLevel};
ghost use Rattle.kx_types.specs.KeyTypes.{definition_of, entries_of, entry_with, level_in, levels_of, mapped, mask_in, modifiers_of, preserved, written_modifiers};

use crate::entry::TypeEntry;
use crate::saying::Saying;
use kx_ordered::{Ordered, OrderedSet};
use kx_virtual_mods::NameSet;
use std::alloc::{AllocError, Global};
use std::marker::Model;

/// A key type: which modifiers select a level, and how.
#[derive(Drop)]
pub struct KeyType {
    modifiers: NameSet,
    levels: u8,
    entries: Vec<TypeEntry>,
}

impl Model for KeyType {
    ghost use Rattle.kx_types.specs.KeyTypes.{Definition};

    ghost Value = { Definition };

    ghost view = { λ t. record {
      modifiers = t.modifiers;
      levels = t.levels;
      entries = t.entries.items;
    } };

    ghost use Rattle.kx_types.specs.Lawful.{IsLawful};

    ghost invariant = { λ t. IsLawful
        (record { modifiers = t.modifiers; levels = t.levels; entries = t.entries.items }) };
}

fn written_modifiers(saying: Saying) -> Option<NameSet>
    ensures { result ≡ written_modifiers saying }
{
    match saying {
        Saying::Modifiers(names) => Some(names),
        Saying::Map(..) | Saying::Preserve(..) | Saying::LevelName(_) => None,
    }
}

/// The modifiers of a type: those that are written last.
fn modifiers_of(said: &[Saying]) -> NameSet
    ensures { result ≡ modifiers_of said.now }
{
    let mut modifiers = NameSet::none();
    'said: for saying in said {
        modifiers = written_modifiers(*saying).unwrap_or(modifiers);
    }
    modifiers
}

fn level_in(saying: Saying) -> u8
    ensures { result ≡ level_in saying }
{
    match saying {
        Saying::Map(_, level) => level,
        Saying::LevelName(level) => level,
        Saying::Modifiers(_) | Saying::Preserve(..) => 0,
    }
}

/// How many levels a type has: up to the greatest that is named.
fn levels_of(said: &[Saying]) -> u8
    ensures { result ≡ levels_of said.now }
{
    let mut levels = 1;
    'said: for saying in said {
        levels = levels.max(level_in(*saying));
    }
    levels
}

/// The mask of the entry that a field is about.
fn mask_in(modifiers: NameSet, saying: Saying) -> Option<NameSet>
    ensures { result ≡ mask_in modifiers saying }
{
    match saying {
        Saying::Map(mask, _) => Some(mask.meet(modifiers)),
        Saying::Preserve(mask, _) => Some(mask.meet(modifiers)),
        Saying::Modifiers(_) | Saying::LevelName(_) => None,
    }
}

fn add_mask(masks: &mut OrderedSet<NameSet>, mask: Option<NameSet>) -> Result<(), AllocError>
    ensures { OnOk result (masks.new ≡ with_key nat_eq (λ (s : Option ℕ). s) masks.old mask) }
{
    if let Some(mask) = mask {
        masks.add(mask)?;
    }
    Ok(())
}

/// The masks of the entries, in the order in which they are first mentioned.
fn masks_of(
    alloc: Global,
    modifiers: NameSet,
    said: &[Saying],
) -> Result<OrderedSet<NameSet>, AllocError>
    ensures { IfOk result (λ masks. masks ≡ each_once nat_eq (mask_in modifiers) said.now) }
{
    let mut masks = OrderedSet::new(alloc);
    'said: for saying in said {
        add_mask(&mut masks, mask_in(modifiers, *saying))?;
    }
    Ok(masks)
}

/// Notes the level that a field maps.
fn add_level(
    levels: &mut Ordered<NameSet, u8>,
    modifiers: NameSet,
    saying: Saying,
) -> Result<(), AllocError>
    ensures { OnOk result ((mask : ℕ)
        → get nat_eq levels.new mask ≡ option_or (mapped modifiers mask saying)
        (get nat_eq levels.old mask)) }
{
    if let Saying::Map(mask, level) = saying {
        levels.insert(mask.meet(modifiers), level)?;
    }
    Ok(())
}

/// The level of each mask that is mapped.
fn mapped_levels(
    alloc: Global,
    modifiers: NameSet,
    said: &[Saying],
) -> Result<Ordered<NameSet, u8>, AllocError>
    ensures { IfOk result (λ levels. (mask : ℕ)
        → get nat_eq levels mask ≡ last_given (mapped modifiers mask) None said.now) }
{
    let mut levels = Ordered::new(alloc);
    'said: for saying in said {
        add_level(&mut levels, modifiers, *saying)?;
    }
    Ok(levels)
}

/// Notes what a field preserves.
fn add_preserved(
    kept: &mut Ordered<NameSet, NameSet>,
    modifiers: NameSet,
    saying: Saying,
) -> Result<(), AllocError>
    ensures { OnOk result ((mask : ℕ)
        → get nat_eq kept.new mask ≡ option_or (preserved modifiers mask saying)
        (get nat_eq kept.old mask)) }
{
    if let Saying::Preserve(mask, names) = saying {
        kept.insert(mask.meet(modifiers), names)?;
    }
    Ok(())
}

/// What is preserved of each mask of which a field says so.
fn preserved_names(
    alloc: Global,
    modifiers: NameSet,
    said: &[Saying],
) -> Result<Ordered<NameSet, NameSet>, AllocError>
    ensures { IfOk result (λ kept. (mask : ℕ)
        → get nat_eq kept mask ≡ last_given (preserved modifiers mask) None said.now) }
{
    let mut kept = Ordered::new(alloc);
    'said: for saying in said {
        add_preserved(&mut kept, modifiers, *saying)?;
    }
    Ok(kept)
}

/// What a map holds, where it holds it.
fn level_or_first(levels: &Ordered<NameSet, u8>, mask: NameSet) -> u8
    ensures { result ≡ unwrap_or (get nat_eq levels.now mask) 1 }
{
    match levels.get(&mask) {
        Some(level) => *level,
        None => 1,
    }
}

fn names_or_none(kept: &Ordered<NameSet, NameSet>, mask: NameSet) -> NameSet
    ensures { result ≡ unwrap_or (get nat_eq kept.now mask) 0 }
{
    match kept.get(&mask) {
        Some(names) => *names,
        None => NameSet::none(),
    }
}

/// The entries of these masks, with the levels that they map to and the modifiers that they preserve.
fn entries_with(
    alloc: Global,
    masks: &OrderedSet<NameSet>,
    levels: &Ordered<NameSet, u8>,
    kept: &Ordered<NameSet, NameSet>,
) -> Result<Vec<TypeEntry>, AllocError>
    ensures { IfOk result (λ entries.
        entries.items ≡ map (entry_with (get nat_eq levels.now) (get nat_eq kept.now)) masks.now) }
{
    let mut entries = Vec::with_capacity(alloc, masks.as_slice().len())?;
    'masks: for mask in masks.as_slice() {
        entries.push(TypeEntry {
            mask: *mask,
            level: level_or_first(levels, *mask),
            preserve: names_or_none(kept, *mask).meet(*mask),
        })?;
    }
    Ok(entries)
}

/// The entries of a type.
fn entries_of(
    alloc: Global,
    modifiers: NameSet,
    said: &[Saying],
) -> Result<Vec<TypeEntry>, AllocError>
    ensures { IfOk result (λ entries. entries.items ≡ entries_of modifiers said.now) }
{
    let masks = masks_of(alloc, modifiers, said)?;
    let levels = mapped_levels(alloc, modifiers, said)?;
    let kept = preserved_names(alloc, modifiers, said)?;
    entries_with(alloc, &masks, &levels, &kept)
}

impl KeyType {
    /// The type that these fields declare.
    #[tactic(auto, using(crate::proofs::Laws::lawful))]
    pub(crate) fn of(alloc: Global, said: &[Saying]) -> Result<KeyType, AllocError>
        requires { All NamesLevel said.now }
        ensures { IfOk result (λ t. t ≡ definition_of said.now) }
    {
        let modifiers = modifiers_of(said);
        Ok(KeyType {
            modifiers,
            levels: levels_of(said),
            entries: entries_of(alloc, modifiers, said)?,
        })
    }

    /// The type without modifiers that has one level.
    pub fn one_level(alloc: Global) -> KeyType
        ensures { result ≡ record { modifiers = 0; levels = 1; entries = [] } }
    {
        KeyType {
            modifiers: NameSet::none(),
            levels: 1,
            entries: Vec::new(alloc),
        }
    }

    /// The same type.
    pub(crate) fn try_clone(&self, alloc: Global) -> Result<KeyType, AllocError>
        ensures { IfOk result (λ t. t ≡ self.now) }
    {
        Ok(KeyType {
            modifiers: self.modifiers,
            levels: self.levels,
            entries: Vec::from_slice(alloc, self.entries.as_slice())?,
        })
    }

    /// The modifiers that select a level.
    pub fn modifiers(&self) -> NameSet
        ensures { result ≡ self.now.modifiers }
    {
        self.modifiers
    }

    /// How many levels there are, 1 to 64.
    pub fn levels(&self) -> u8
        ensures value { result ≡ self.now.levels }
        ensures lawful { IsLawful self.now }
    {
        self.levels
    }

    /// The entries in the order in which their masks are first mentioned, no two of one mask.
    pub fn entries(&self) -> &[TypeEntry]
        ensures value { result.now ≡ self.now.entries }
        ensures lawful { IsLawful self.now }
    {
        self.entries.as_slice()
    }
}
