//! The virtual modifiers of a keymap.
ghost use Rattle.std.specs.Prelude.{◌≡◌, ◌≤◌, ◌<◌, [], ℕ, IfErr, IfOk, IfSome, List, length, slice_get, nat_eq, unwrap_or};
ghost use Rattle.std.specs.List.{flat_map};
ghost use Rattle.std.specs.Option.{option_map, option_map_or};
ghost use Rattle.indexmap.specs.IndexMap.{get};
ghost use Rattle.kx_lex.specs.declared.fault.Fault.TheVariants.{Memory};
ghost use Rattle.kx_merge.specs.Bodies.{faults_of, no_moves};
ghost use Rattle.kx_mods.specs.Mods.{mask};
ghost use Rattle.kx_virtual_mods.specs.Counted.{all_statements, count_faults};
ghost use Rattle.kx_virtual_mods.specs.Declarations.{AreModNames, declared_mask, mask_at, mask_rules, modifier_bodies, modifier_faults, named_in, virtual_names};
ghost use Rattle.kx_virtual_mods.specs.Once.{OffersOnce};
ghost use Rattle.kx_virtual_mods.specs.Records.{mask_recorded};
ghost use Rattle.kx_virtual_mods.specs.Masks.{mask_faults, mask_set, real_mask_faults, virtual_number};
ghost use Rattle.kx_virtual_mods.specs.Sets.{union};
ghost use Rattle.kx_merge.specs.Reports.{Reports, ReportsOrRunsOut};

use crate::counted::count_names;
use crate::declared::ModifierNaming;
use crate::limits::MOST_VIRTUAL_MODIFIERS;
use crate::masks::{mask_of, real_mask_of};
use crate::names::Names;
use crate::set::NameSet;
use kx_include::Bodies;
use kx_lex::Fault;
use kx_merge::{Single, merge};
use kx_mods::Mods;
use kx_ordered::Ordered;
use kx_parse::Expression;
use std::alloc::Global;
use std::marker::Model;

/// At most so many names are counted.
const LIMIT: usize = MOST_VIRTUAL_MODIFIERS as usize;

/// The virtual modifiers of the statements of types, then of compat, then of symbols.
fn modifier_names(alloc: Global, bodies: &Bodies) -> Result<Names, Fault>
    ensures names { IfOk result (λ names. names ≡ virtual_names (modifier_bodies bodies.now)) }
    ensures few { IfOk result (λ names. length names ≤ LIMIT) }
    ensures faults { ReportsOrRunsOut result
        (count_faults named_in LIMIT (all_statements (modifier_bodies bodies.now))) }
{
    let none = Names::new(alloc);
    let types = count_names::<ModifierNaming>(alloc, LIMIT, none, &bodies.types)?;
    let compat = count_names::<ModifierNaming>(alloc, LIMIT, types, &bodies.compat)?;
    count_names::<ModifierNaming>(alloc, LIMIT, compat, &bodies.symbols)
}

/// The mask that records have for a virtual modifier.
fn mask_among(records: &Ordered<usize, Single<u8>>, number: usize) -> Mods
    ensures { mask result ≡ mask_recorded records.now number }
{
    match records.get(&number) {
        None => Mods::NONE,
        Some(declared) => Mods::from_mask(declared.value.unwrap_or(0)),
    }
}

/// The masks that records of three bodies have together, by number.
fn joined_masks(
    alloc: Global,
    types: &Ordered<usize, Single<u8>>,
    compat: &Ordered<usize, Single<u8>>,
    symbols: &Ordered<usize, Single<u8>>,
) -> Result<Vec<Mods>, Fault>
    ensures masks { IfOk result (λ masks. (number : ℕ) → number < LIMIT
        → option_map_or mask (slice_get masks.items number) 0
        ≡ union (union (union 0 (mask_recorded types.now number)) (mask_recorded compat.now number))
        (mask_recorded symbols.now number)) }
    ensures err { IfErr result (λ e. e ≡ Memory) }
{
    let mut masks = Vec::new(alloc);
    'numbers: for number in 0..LIMIT {
        let mods = Mods::NONE
            .with(mask_among(types, number))
            .with(mask_among(compat, number))
            .with(mask_among(symbols, number));
        masks.push(mods)?;
    }
    Ok(masks)
}

/// The masks that bodies declare for virtual modifiers, by number.
fn declared_masks(alloc: Global, names: &Names, bodies: &Bodies) -> Result<Vec<Mods>, Fault>
    ensures masks { IfOk result (λ masks. (number : ℕ) → number < LIMIT
        → option_map_or mask (slice_get masks.items number) 0
        ≡ declared_mask names.now (modifier_bodies bodies.now) number) }
    ensures faults { ReportsOrRunsOut result
        (flat_map (faults_of nat_eq (mask_rules names.now) no_moves) (modifier_bodies bodies.now)) }
{
    let types = merge::<Names, Single<u8>>(alloc, names, &bodies.types)?;
    let compat = merge::<Names, Single<u8>>(alloc, names, &bodies.compat)?;
    let symbols = merge::<Names, Single<u8>>(alloc, names, &bodies.symbols)?;
    joined_masks(alloc, &types.records, &compat.records, &symbols.records)
}

/// The virtual modifiers of a keymap, numbered from 0 in the order in which the bodies of types, compat and symbols name
/// them, and the masks that these declare.
pub struct ModNames {
    names: Names,
    masks: Vec<Mods>,
}

impl Drop for ModNames {
    fn drop(self) {
        let ModNames { names: _, masks: _ } = self;
    }
}

impl Model for ModNames {
    ghost use Rattle.std.specs.Prelude.{◌≤◌, length};
    ghost use Rattle.kx_virtual_mods.specs.declared.limits.TheConstants.{MOST_VIRTUAL_MODIFIERS};
    ghost use Rattle.kx_virtual_mods.specs.Declarations.{ModNames};

    ghost Value = { ModNames };

    ghost view = { λ m. record { names = m.names; masks = m.masks.items } };

    ghost invariant = { λ m. length m.names ≤ MOST_VIRTUAL_MODIFIERS };
}

impl ModNames {
    /// The virtual modifiers of a source.
    ///
    /// # Errors
    /// The faults of the declarations, at their places: `TooMany` at the statement with which there are more than 24;
    /// `BadValue` at a name of a real modifier, `all` or `none`, and in a mask at a virtual modifier and at what is no
    /// word and no number from 0 to 255; `UnknownModifier` at another word of a mask; `Memory`.
    pub fn of(alloc: Global, bodies: &Bodies) -> Result<ModNames, Fault>
        ensures names { IfOk result (λ m. AreModNames m (modifier_bodies bodies.now)) }
        ensures once { (names : List (List ℕ)) → OffersOnce nat_eq (mask_rules names) }
        ensures faults { ReportsOrRunsOut result (modifier_faults (modifier_bodies bodies.now)) }
    {
        let names = modifier_names(alloc, bodies)?;
        let masks = declared_masks(alloc, &names, bodies)?;
        Ok(ModNames { names, masks })
    }

    /// How many there are.
    pub fn len(&self) -> usize
        ensures value { result ≡ length self.now.names }
        ensures few { result ≤ MOST_VIRTUAL_MODIFIERS }
    {
        self.names.len()
    }

    /// The number of a virtual modifier, whose name is read exactly.
    pub fn number_of(&self, word: &[u8]) -> Option<u8>
        ensures value { result ≡ virtual_number self.now.names word.now }
        ensures within { IfSome result (λ number. number < MOST_VIRTUAL_MODIFIERS) }
    {
        match self.names.number_of(word) {
            Some(number) => Some(number as u8),
            None => None,
        }
    }

    /// The name of a virtual modifier by its number.
    pub fn name(&self, number: u8) -> Option<&[u8]>
        ensures { option_map (λ n. n.now) result ≡ slice_get self.now.names number }
    {
        self.names.name(usize::from(number))
    }

    /// The mask that is declared for a virtual modifier; none of a number that none has.
    pub fn declared_mask(&self, number: u8) -> Mods
        ensures { mask result ≡ mask_at self.now number }
    {
        match self.masks.get(usize::from(number)) {
            Some(mods) => *mods,
            None => Mods::NONE,
        }
    }

    /// The masks that are declared for virtual modifiers, by number.
    pub fn declared_masks(&self) -> &[Mods]
        ensures { result.now ≡ self.now.masks }
    {
        self.masks.as_slice()
    }

    /// The modifiers that a mask of a file names.
    ///
    /// # Errors
    /// `UnknownModifier` at a word that is neither real nor declared; `BadValue` at a term that is no word and no number
    /// from 0 to 255.
    pub fn mask_of(&self, file: u32, expression: &Expression) -> Result<NameSet, Fault>
        ensures value { IfOk result (λ set. set ≡ mask_set self.now.names expression.now) }
        ensures faults { Reports result (mask_faults file self.now.names expression.now) }
    {
        mask_of(&self.names, file, expression)
    }

    /// The modifiers that a mask of a file names, where they must be real.
    ///
    /// # Errors
    /// `UnknownModifier` at a word that is neither real nor declared; `BadValue` at a virtual modifier, and at a term that
    /// is no word and no number from 0 to 255.
    pub fn real_mask_of(&self, file: u32, expression: &Expression) -> Result<Mods, Fault>
        ensures value { IfOk result (λ m. mask m ≡ mask_set [] expression.now) }
        ensures faults { Reports result (real_mask_faults file self.now.names expression.now) }
    {
        real_mask_of(&self.names, file, expression)
    }
}
