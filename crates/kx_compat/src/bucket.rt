//! Interpretations of the same keysym, and which one is chosen of them.
ghost use Rattle.std.specs.Prelude.{◌≡◌, filter, true, false, Bool, IfErr, IfOk, IfSome, List};
ghost use Rattle.std.specs.Option.{option_map};
ghost use Rattle.kx_lex.specs.declared.fault.Fault.TheVariants.{Memory};
ghost use Rattle.kx_mods.specs.Mods.{mask};
ghost use Rattle.kx_compat.specs.Choosing.{allows, least};
ghost use Rattle.kx_compat.specs.Indexed.{AreChoices};
ghost use Rattle.kx_compat.specs.Interpretations.{Interpretation as InterpretationValue};

use crate::choice::least_allowed;
use crate::interpretation::Interpretation;
use kx_lex::Fault;
use kx_mods::Mods;
use std::alloc::Global;
use std::marker::Model;

/// The sets of real modifiers.
const MASKS: usize = 256;

/// At most so many interpretations are looked through for each level.
const FEW: usize = 32;

/// What is chosen of some interpretations at the first level and at others, for each set of modifiers by its mask.
#[derive(Drop)]
struct Choices {
    first: Vec<Option<Interpretation>>,
    others: Vec<Option<Interpretation>>,
}

impl Choices {
    ghost use Rattle.std.specs.Prelude.{◌≡◌, filter, true, false, IfErr, IfOk, List};
    ghost use Rattle.std.specs.Option.{option_map};
    ghost use Rattle.kx_lex.specs.declared.fault.Fault.TheVariants.{Memory};
    ghost use Rattle.kx_mods.specs.Mods.{mask};
    ghost use Rattle.kx_compat.specs.Choosing.{allows, least};
    ghost use Rattle.kx_compat.specs.Indexed.{AreChoices};
    ghost use Rattle.kx_compat.specs.Interpretations.{Interpretation as InterpretationValue};

    fn of(alloc: Global, interpretations: &[Interpretation]) -> Result<Choices, Fault>
        ensures choices { IfOk result (λ c. AreChoices interpretations.now true c.first.items
            × AreChoices interpretations.now false c.others.items) }
        ensures err { IfErr result (λ e. e ≡ Memory) }
    {
        let first = choices_of(alloc, interpretations, true)?;
        let others = choices_of(alloc, interpretations, false)?;
        Ok(Choices { first, others })
    }

    /// What is chosen at the first level, or at another, of a key with these modifiers.
    fn choose(&self, first_level: bool, modmap: Mods) -> Option<&Interpretation>
        ensures { (is : List InterpretationValue) → AreChoices is true self.now.first.items
            → AreChoices is false self.now.others.items
            → option_map (λ i. i.now) result
            ≡ least (filter (allows first_level (mask modmap)) is) }
    {
        if first_level {
            kept(&self.first, modmap)
        } else {
            kept(&self.others, modmap)
        }
    }
}

/// Interpretations in their order; seen as their list.
#[derive(Drop)]
pub(crate) struct Bucket {
    all: Vec<Interpretation>,
    /// Where they are many.
    choices: Option<Choices>,
}

impl Model for Bucket {
    ghost use Rattle.std.specs.Prelude.{true, false, IfSome, List};
    ghost use Rattle.kx_compat.specs.Indexed.{AreChoices};
    ghost use Rattle.kx_compat.specs.Interpretations.{Interpretation};

    ghost Value = { List Interpretation };

    ghost view = { λ b. b.all.items };

    ghost invariant = { λ b. IfSome b.choices (λ c. AreChoices b.all.items true c.first.items
        × AreChoices b.all.items false c.others.items) };
}

impl Bucket {
    ghost use Rattle.std.specs.Prelude.{◌≡◌, ◌++◌, ◌∷◌, [], filter, IfErr, OnOk};
    ghost use Rattle.std.specs.Option.{option_map};
    ghost use Rattle.kx_lex.specs.declared.fault.Fault.TheVariants.{Memory};
    ghost use Rattle.kx_mods.specs.Mods.{mask};
    ghost use Rattle.kx_compat.specs.Choosing.{allows, least};

    /// None.
    pub(crate) fn new(alloc: Global) -> Bucket
        ensures { result ≡ [] }
    {
        Bucket {
            all: Vec::new(alloc),
            choices: None,
        }
    }

    /// One more after the others.
    pub(crate) fn push(&mut self, interpretation: Interpretation) -> Result<(), Fault>
        ensures pushed { OnOk result (self.new ≡ self.old ++ interpretation ∷ []) }
        ensures err { IfErr result (λ e. e ≡ Memory) }
    {
        self.choices = None;
        self.all.push(interpretation)?;
        Ok(())
    }

    /// Keeps what is chosen of them for each set of modifiers, where they are many.
    pub(crate) fn keep_choices(&mut self, alloc: Global) -> Result<(), Fault>
        ensures same { self.new ≡ self.old }
        ensures err { IfErr result (λ e. e ≡ Memory) }
    {
        self.choices = choices_of_many(alloc, self.all.as_slice())?;
        Ok(())
    }

    /// The one that is chosen at the first level, or at another, of a key with these modifiers.
    pub(crate) fn choose(&self, first_level: bool, modmap: Mods) -> Option<&Interpretation>
        ensures { option_map (λ i. i.now) result
            ≡ least (filter (allows first_level (mask modmap)) self.now) }
    {
        match &self.choices {
            Some(choices) => choices.choose(first_level, modmap),
            None => least_allowed(self.all.as_slice(), first_level, modmap),
        }
    }
}

/// What is chosen of some interpretations for each set of modifiers.
fn choices_of(
    alloc: Global,
    interpretations: &[Interpretation],
    first_level: bool,
) -> Result<Vec<Option<Interpretation>>, Fault>
    ensures choices { IfOk result (λ choices.
        AreChoices interpretations.now first_level choices.items) }
    ensures err { IfErr result (λ e. e ≡ Memory) }
{
    let mut choices = Vec::with_capacity(alloc, MASKS)?;
    'masks: for mask in 0..MASKS {
        let modmap = Mods::from_mask(mask as u8);
        choices.push(least_allowed(interpretations, first_level, modmap).copied())?;
    }
    Ok(choices)
}

/// What was kept for a set of modifiers.
fn kept(choices: &Vec<Option<Interpretation>>, modmap: Mods) -> Option<&Interpretation>
    ensures { (is : List InterpretationValue) (first_level : Bool)
        → AreChoices is first_level choices.now.items
        → option_map (λ i. i.now) result ≡ least (filter (allows first_level (mask modmap)) is) }
{
    match choices.get(usize::from(modmap.mask())) {
        Some(chosen) => chosen.as_ref(),
        None => None,
    }
}

/// What is chosen of some interpretations, where they are many.
fn choices_of_many(
    alloc: Global,
    interpretations: &[Interpretation],
) -> Result<Option<Choices>, Fault>
    ensures choices { IfOk result (λ choices.
        IfSome choices (λ c. AreChoices interpretations.now true c.first.items
        × AreChoices interpretations.now false c.others.items)) }
    ensures err { IfErr result (λ e. e ≡ Memory) }
{
    if interpretations.len() <= FEW {
        return Ok(None);
    }
    Ok(Some(Choices::of(alloc, interpretations)?))
}
