//! What sets of names stand for.
ghost use Rattle.std.specs.Prelude.{◌≡◌, ◌<◌, ◌&&◌, ℕ};
ghost use Rattle.kx_mods.specs.Mods.{mask};
ghost use Rattle.kx_virtual_mods.specs.Sets.{has, has_virtual, real_of};
ghost use Rattle.kx_virtual_mods.specs.Standing.{stands_for};

use crate::limits::MOST_VIRTUAL_MODIFIERS;
use crate::set::NameSet;
use kx_mods::Mods;

/// What a virtual modifier stands for, where it is in the set.
fn stood_for(set: NameSet, stands: &[Mods], number: u8) -> Mods
    requires { number < MOST_VIRTUAL_MODIFIERS }
    ensures { (real : ℕ) → has (mask result) real
        ≡ (has_virtual set number && stands_for stands.now number real) }
{
    if !set.has_virtual(number) {
        return Mods::NONE;
    }
    match stands.get(usize::from(number)) {
        Some(mods) => *mods,
        None => Mods::NONE,
    }
}

/// The real modifiers that a set stands for, where `stands` is what each virtual modifier stands for, by its number.
pub fn real_of(set: NameSet, stands: &[Mods]) -> Mods
    ensures { (real : ℕ) → has (mask result) real ≡ real_of (stands_for stands.now) set real }
{
    let mut mods = set.real();
    'numbers: for number in 0..MOST_VIRTUAL_MODIFIERS {
        mods = mods.with(stood_for(set, stands, number));
    }
    mods
}
