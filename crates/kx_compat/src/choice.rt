//! Which of some interpretations comes first.
ghost use Rattle.std.specs.Prelude.{◌≡◌, filter, if◌then◌else◌};
ghost use Rattle.std.specs.Option.{option_map};
ghost use Rattle.kx_mods.specs.Mods.{mask};
ghost use Rattle.kx_compat.specs.Choosing.{allows, condition_rank, earlier, keysym_rank, least, rank, seen_modmap};

use crate::interpretation::Interpretation;
use crate::interpretation_match::WantedKeysym;
use kx_mods::{Condition, Mods};

/// What an interpretation sees of a key's modifiers.
fn seen_modmap(interpretation: &Interpretation, first_level: bool, modmap: Mods) -> Mods
    ensures { mask result ≡ seen_modmap first_level (mask modmap) interpretation.now }
{
    if interpretation.first_level_only() && !first_level {
        Mods::NONE
    } else {
        modmap
    }
}

/// Whether an interpretation of a level's keysym is for the key.
fn allows(interpretation: &Interpretation, first_level: bool, modmap: Mods) -> bool
    ensures { result ≡ allows first_level (mask modmap) interpretation.now }
{
    let interpretation_match = interpretation.interpretation_match();
    interpretation_match.condition.holds(
        interpretation_match.mods(),
        seen_modmap(interpretation, first_level, modmap),
    )
}

fn condition_rank(condition: Condition) -> u8
    ensures { result ≡ condition_rank condition }
{
    match condition {
        Condition::Exactly => 0,
        Condition::AllOf => 1,
        Condition::NoneOf => 2,
        Condition::AnyOf => 3,
        Condition::AnyOfOrNone => 4,
    }
}

fn keysym_rank(keysym: WantedKeysym) -> u8
    ensures { result ≡ keysym_rank keysym }
{
    match keysym {
        WantedKeysym::Named(_) => 0,
        WantedKeysym::Any => 5,
    }
}

fn rank(interpretation: &Interpretation) -> u16
    ensures { result ≡ rank interpretation.now }
{
    let interpretation_match = interpretation.interpretation_match();
    u16::from(keysym_rank(interpretation_match.keysym))
        + u16::from(condition_rank(interpretation_match.condition))
}

/// The one that comes first of an interpretation and one that stands before it, if any.
fn earlier<'i>(
    least: Option<&'i Interpretation>,
    interpretation: &'i Interpretation,
) -> Option<&'i Interpretation>
    ensures { option_map (λ i. i.now) result
        ≡ earlier (option_map (λ i. i.now) least.entry) interpretation.now }
{
    match least {
        None => Some(interpretation),
        Some(before) => {
            if rank(interpretation) < rank(before) {
                Some(interpretation)
            } else {
                Some(before)
            }
        }
    }
}

/// The same, where an interpretation that isn't for the key is passed over.
fn earlier_allowed<'i>(
    least: Option<&'i Interpretation>,
    interpretation: &'i Interpretation,
    first_level: bool,
    modmap: Mods,
) -> Option<&'i Interpretation>
    ensures { option_map (λ i. i.now) result
        ≡ (if allows first_level (mask modmap) interpretation.now
        then earlier (option_map (λ i. i.now) least.entry) interpretation.now
        else option_map (λ i. i.now) least.entry) }
{
    if allows(interpretation, first_level, modmap) {
        earlier(least, interpretation)
    } else {
        least
    }
}

/// Of the interpretations of a keysym that are for a key, the one that comes first.
pub(crate) fn least_allowed(
    interpretations: &[Interpretation],
    first_level: bool,
    modmap: Mods,
) -> Option<&Interpretation>
    ensures { option_map (λ i. i.now) result
        ≡ least (filter (allows first_level (mask modmap)) interpretations.now) }
{
    let mut least = None;
    'interpretations: for interpretation in interpretations {
        least = earlier_allowed(least, interpretation, first_level, modmap);
    }
    least
}
