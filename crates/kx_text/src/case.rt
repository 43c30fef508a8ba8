//! Letters in upper and lower case.
ghost use Rattle.std.specs.Prelude.{◌≡◌, ◌<◌, ◌^◌, IfSome};
ghost use Rattle.kx_text.specs.Case.{AreRuns, image_in, lower, upper};
ghost use Rattle.kx_text.specs.CaseRuns.{alternating, to_lower, to_upper};

use crate::case_table::{ALTERNATING, TO_LOWER, TO_UPPER};
use ks_core::Keysym;

/// Keysyms in a row: the first, the last, and what the first becomes. Those after it become what follows.
pub(crate) type Run = (u32, u32, u32);

/// The keysym of a letter in upper case, and any other itself.
pub fn upper(keysym: Keysym) -> Keysym
    ensures { result.0 ≡ upper keysym.0 }
{
    let number = keysym.0;
    match image(alternating(), number) {
        Some(behind) => Keysym(number.saturating_sub(behind % 2)),
        None => match image(to_upper(), number) {
            Some(image) => Keysym(image),
            None => keysym,
        },
    }
}

/// The keysym of a letter in lower case, and any other itself.
pub fn lower(keysym: Keysym) -> Keysym
    ensures { result.0 ≡ lower keysym.0 }
{
    let number = keysym.0;
    match image(alternating(), number) {
        Some(behind) => Keysym(number + (1 - behind % 2)),
        None => match image(to_lower(), number) {
            Some(image) => Keysym(image),
            None => keysym,
        },
    }
}

/// Letters in turn, upper case and lower case.
fn alternating() -> &'static [Run]
    ensures runs { result.now ≡ alternating }
    ensures sound { AreRuns result.now }
{
    &ALTERNATING
}

/// Other letters, and those that they are in upper case.
fn to_upper() -> &'static [Run]
    ensures runs { result.now ≡ to_upper }
    ensures sound { AreRuns result.now }
{
    &TO_UPPER
}

/// Other letters, and those that they are in lower case.
fn to_lower() -> &'static [Run]
    ensures runs { result.now ≡ to_lower }
    ensures sound { AreRuns result.now }
{
    &TO_LOWER
}

/// What a keysym becomes by the run that it is in.
fn image(runs: &[Run], keysym: u32) -> Option<u32>
    requires { AreRuns runs.now }
    ensures value { result ≡ image_in runs.now keysym }
    ensures within { IfSome result (λ image. keysym < 2 ^ 29) }
{
    let place = runs.partition_point(|run| run.1 < keysym);
    match runs.get(place) {
        Some(run) => {
            if run.0 <= keysym {
                Some(run.2 + (keysym - run.0))
            } else {
                None
            }
        }
        None => None,
    }
}
