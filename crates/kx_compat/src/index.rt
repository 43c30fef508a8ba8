//! The interpretations of a keymap, and which one is chosen.
ghost use Rattle.std.specs.Prelude.{◌≡◌, ◌<◌, ◌++◌, ◌∷◌, [], ℕ, IfErr, IfOk, List, OnOk, nat_eq, if◌then◌else◌};
ghost use Rattle.indexmap.specs.IndexMap.{index_map_len};
ghost use Rattle.kx_lex.specs.declared.fault.Fault.TheVariants.{Memory};
ghost use Rattle.kx_mods.specs.Mods.{mask};
ghost use Rattle.kx_compat.specs.Choosing.{chosen};
ghost use Rattle.kx_compat.specs.Indexed.{IsIndexed, bucket_in};
ghost use Rattle.kx_compat.specs.Interpretations.{Interpretation as InterpretationValue};

use crate::bucket::Bucket;
use crate::interpretation::Interpretation;
use crate::interpretation_match::WantedKeysym;
use kx_lex::Fault;
use kx_mods::Mods;
use kx_ordered::{Ordered, SortedNumbers};
use std::alloc::Global;
use std::marker::Model;

/// The interpretations of a keymap, in the order in which they are first named; seen as their list.
pub struct Interpretations {
    all: Vec<Interpretation>,
    /// Those of a keysym, by its number.
    named: SortedNumbers<Bucket>,
    /// Those of any keysym.
    any: Bucket,
}

impl Drop for Interpretations {
    fn drop(self) {
        let Interpretations {
            all: _,
            named: _,
            any: _,
        } = self;
    }
}

impl Model for Interpretations {
    ghost use Rattle.std.specs.Prelude.{List};
    ghost use Rattle.kx_compat.specs.Indexed.{IsIndexed};
    ghost use Rattle.kx_compat.specs.Interpretations.{Interpretation};

    ghost Value = { List Interpretation };

    ghost view = { λ t. t.all.items };

    ghost invariant = { λ t. IsIndexed (λ b. b) t.named t.any t.all.items };
}

impl Interpretations {
    ghost use Rattle.std.specs.Prelude.{◌≡◌, filter, IfErr, IfOk};
    ghost use Rattle.kx_lex.specs.declared.fault.Fault.TheVariants.{Memory};
    ghost use Rattle.kx_mods.specs.Mods.{mask};
    ghost use Rattle.std.specs.Option.{option_map};
    ghost use Rattle.kx_compat.specs.Choosing.{IsFirstOrNone, allows, chosen, least, matches};
    ghost use Rattle.kx_compat.specs.Indexed.{is_named};

    /// These interpretations.
    pub fn of(alloc: Global, all: Vec<Interpretation>) -> Result<Interpretations, Fault>
        ensures value { IfOk result (λ t. t ≡ all.items) }
        ensures err { IfErr result (λ e. e ≡ Memory) }
    {
        let mut named = Ordered::new(alloc);
        let mut any = Bucket::new(alloc);
        'all: for interpretation in &all {
            add_indexed(alloc, &mut named, &mut any, *interpretation)?;
        }
        any.keep_choices(alloc)?;
        keep_choices(alloc, &mut named)?;
        let named = sorted(named)?;
        Ok(Interpretations { all, named, any })
    }

    /// The interpretations in order.
    pub fn as_slice(&self) -> &[Interpretation]
        ensures { result.now ≡ self.now }
    {
        self.all.as_slice()
    }

    /// The interpretation that is chosen for a keysym at the first level of a key, or at another, where the key is mapped
    /// to these modifiers: of those that are for it one of a named keysym, else one of any keysym, and of those the first
    /// in the order of [`Condition`](kx_mods::Condition), then of the keymap. None where none is for it.
    #[inline(always)]
    pub fn choose(&self, keysym: u32, first_level: bool, modmap: Mods) -> Option<&Interpretation>
        ensures value { option_map (λ i. i.now) result
            ≡ chosen self.now keysym first_level (mask modmap) }
        ensures first { IsFirstOrNone (matches first_level (mask modmap) keysym) self.now
            (option_map (λ i. i.now) result) }
    {
        match self.choose_named(keysym, first_level, modmap) {
            Some(interpretation) => Some(interpretation),
            None => self.any.choose(first_level, modmap),
        }
    }

    /// The same of those of a named keysym alone.
    fn choose_named(&self, keysym: u32, first_level: bool, modmap: Mods) -> Option<&Interpretation>
        ensures { option_map (λ i. i.now) result
            ≡ least (filter (allows first_level (mask modmap))
            (filter (is_named keysym) self.now)) }
    {
        match self.named.get(keysym) {
            Some(bucket) => bucket.choose(first_level, modmap),
            None => None,
        }
    }
}

/// Keeps what is chosen of the interpretations of the keysym at a place, where they are many.
fn keep_choices_at(
    alloc: Global,
    named: &mut Ordered<u32, Bucket>,
    place: usize,
) -> Result<(), Fault>
    requires { place < index_map_len named.old }
    ensures same { named.new ≡ named.old }
    ensures err { IfErr result (λ e. e ≡ Memory) }
{
    named.value_mut(place).keep_choices(alloc)
}

/// The same of each keysym.
fn keep_choices(alloc: Global, named: &mut Ordered<u32, Bucket>) -> Result<(), Fault>
    ensures same { named.new ≡ named.old }
    ensures err { IfErr result (λ e. e ≡ Memory) }
{
    'buckets: for place in 0..named.len() {
        keep_choices_at(alloc, named, place)?;
    }
    Ok(())
}

/// The same, sorted by keysym.
fn sorted(named: Ordered<u32, Bucket>) -> Result<SortedNumbers<Bucket>, Fault>
    ensures indexed { IfOk result (λ sorted. (any all : List InterpretationValue)
        → IsIndexed (λ b. b) named.entries any all → IsIndexed (λ b. b) sorted any all) }
    ensures err { IfErr result (λ e. e ≡ Memory) }
{
    Ok(SortedNumbers::of(named.into_entries())?)
}

/// Adds an interpretation after others of its keysym.
fn add_named(
    alloc: Global,
    named: &mut Ordered<u32, Bucket>,
    keysym: u32,
    interpretation: Interpretation,
) -> Result<(), Fault>
    ensures added { OnOk result ((k : ℕ)
        → bucket_in (λ b. b) named.new.entries k
        ≡ bucket_in (λ b. b) named.old.entries k
        ++ (if nat_eq keysym k then interpretation ∷ [] else [])) }
    ensures err { IfErr result (λ e. e ≡ Memory) }
{
    if let Some(bucket) = named.get_mut(&keysym) {
        bucket.push(interpretation)?;
        return Ok(());
    }
    let mut bucket = Bucket::new(alloc);
    bucket.push(interpretation)?;
    named.push(keysym, bucket)?;
    Ok(())
}

/// Adds an interpretation after others.
fn add_indexed(
    alloc: Global,
    named: &mut Ordered<u32, Bucket>,
    any: &mut Bucket,
    interpretation: Interpretation,
) -> Result<(), Fault>
    ensures added { (all : List InterpretationValue)
        → IsIndexed (λ b. b) named.old.entries any.old all
        → OnOk result (IsIndexed (λ b. b) named.new.entries any.new (all ++ interpretation ∷ [])) }
    ensures err { IfErr result (λ e. e ≡ Memory) }
{
    match interpretation.interpretation_match().keysym {
        WantedKeysym::Named(keysym) => add_named(alloc, named, keysym, interpretation),
        WantedKeysym::Any => {
            any.push(interpretation)?;
            Ok(())
        }
    }
}
