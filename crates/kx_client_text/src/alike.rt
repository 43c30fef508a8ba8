//! Whether two sources leave the same out.
ghost use Rattle.std.specs.Prelude.{◌≡◌, ◌<◌, ◌↔◌, ℕ, IsTrue};
ghost use Rattle.kx_basics.specs.declared.limits.TheConstants.{CODES};
ghost use Rattle.kx_client_text.specs.ClientText.{SayTheSame};
ghost use Rattle.kx_clients.specs.LeftOut.{repeats};

use kx_basics::CODES;
use kx_clients::{Alias, IndicatorName, LeftOut, VirtualModifier};

fn is_same_alias(one: &Alias, other: &Alias) -> bool
    ensures { IsTrue result ↔ (one.now ≡ other.now) }
{
    one.name.as_slice() == other.name.as_slice() && one.key.as_slice() == other.key.as_slice()
}

fn are_same_aliases(one: &[Alias], other: &[Alias]) -> bool
    ensures { IsTrue result ↔ (one.now ≡ other.now) }
{
    if one.len() != other.len() {
        return false;
    }
    'places: for place in 0..one.len() {
        if !is_same_alias(&one[place], &other[place]) {
            return false;
        }
    }
    true
}

fn is_same_name(one: &IndicatorName, other: &IndicatorName) -> bool
    ensures { IsTrue result ↔ (one.now ≡ other.now) }
{
    one.as_slice() == other.as_slice()
}

fn are_same_names(one: &[IndicatorName], other: &[IndicatorName]) -> bool
    ensures { IsTrue result ↔ (one.now ≡ other.now) }
{
    if one.len() != other.len() {
        return false;
    }
    'places: for place in 0..one.len() {
        if !is_same_name(&one[place], &other[place]) {
            return false;
        }
    }
    true
}

fn is_same_modifier(one: &VirtualModifier, other: &VirtualModifier) -> bool
    ensures { IsTrue result ↔ (one.now ≡ other.now) }
{
    one.name.as_slice() == other.name.as_slice() && one.mods == other.mods
}

fn are_same_modifiers(one: &[VirtualModifier], other: &[VirtualModifier]) -> bool
    ensures { IsTrue result ↔ (one.now ≡ other.now) }
{
    if one.len() != other.len() {
        return false;
    }
    'places: for place in 0..one.len() {
        if !is_same_modifier(&one[place], &other[place]) {
            return false;
        }
    }
    true
}

/// Whether the same keys repeat.
fn repeat_alike(one: &LeftOut, other: &LeftOut) -> bool
    ensures { IsTrue result ↔ ((code : ℕ) → code < CODES
        → repeats one.now code ≡ repeats other.now code) }
{
    'codes: for code in 0..CODES {
        if one.repeats(code) != other.repeats(code) {
            return false;
        }
    }
    true
}

/// Whether both say the same.
pub(crate) fn say_the_same(one: &LeftOut, other: &LeftOut) -> bool
    ensures { IsTrue result ↔ SayTheSame one.now other.now }
{
    are_same_aliases(one.aliases(), other.aliases())
        && are_same_names(one.indicators(), other.indicators())
        && are_same_modifiers(one.modifiers(), other.modifiers())
        && repeat_alike(one, other)
}
