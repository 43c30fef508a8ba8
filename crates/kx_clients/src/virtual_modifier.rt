//! Virtual modifiers, with what they stand for.
ghost use Rattle.std.specs.Prelude.{◌≡◌, ◌<◌, ℕ, IfOk, Some, length, slice_get};
ghost use Rattle.std.specs.Option.{option_map_or};
ghost use Rattle.kx_mods.specs.Mods.{mask};
ghost use Rattle.kx_virtual_mods.specs.Sets.{has};
ghost use Rattle.kx_virtual_mods.specs.Standing.{stands_for};
ghost use Rattle.kx_clients.specs.VirtualModifiers.{mods_among, names_among};

use kx_lex::Bytes;
use kx_mods::Mods;
use kx_virtual_mods::ModNames;
use std::alloc::{AllocError, Global};

/// A virtual modifier.
#[derive(Drop)]
pub struct VirtualModifier {
    pub name: Bytes,
    /// The real modifiers that it stands for.
    pub mods: Mods,
}

/// The name of the virtual modifier of a number that one has.
#[tactic(auto, using(crate::proofs::Lists::is_within))]
fn name_at(modifiers: &ModNames, number: u8) -> &[u8]
    requires { number < length modifiers.now.names }
    ensures { Some result.now ≡ slice_get modifiers.now.names number }
{
    match modifiers.name(number) {
        Some(name) => name,
        None => &[],
    }
}

/// What the virtual modifier of a number stands for; past the list's end none does.
fn mods_at(stands: &[Mods], number: u8) -> Mods
    ensures { mask result ≡ option_map_or mask (slice_get stands.now number) 0 }
{
    match stands.get(usize::from(number)) {
        Some(mods) => *mods,
        None => Mods::NONE,
    }
}

/// The virtual modifier of a number, with what it stands for among `stands`.
fn virtual_modifier_of(
    alloc: Global,
    modifiers: &ModNames,
    stands: &[Mods],
    number: u8,
) -> Result<VirtualModifier, AllocError>
    requires { number < length modifiers.now.names }
    ensures name { IfOk result (λ m. Some m.name ≡ slice_get modifiers.now.names number) }
    ensures mods { IfOk result (λ m. (real : ℕ)
        → has (mask m.mods) real ≡ stands_for stands.now number real) }
{
    Ok(VirtualModifier {
        name: Bytes::of(alloc, name_at(modifiers, number))?,
        mods: mods_at(stands, number),
    })
}

/// The virtual modifiers by their numbers, each with what it stands for among `stands`.
pub(crate) fn virtual_modifiers(
    alloc: Global,
    modifiers: &ModNames,
    stands: &[Mods],
) -> Result<Vec<VirtualModifier>, AllocError>
    ensures names { IfOk result (λ all. names_among all.items ≡ modifiers.now.names) }
    ensures mods { IfOk result (λ all. (number real : ℕ) → number < length modifiers.now.names
        → mods_among all.items number real ≡ stands_for stands.now number real) }
{
    let mut all = Vec::new(alloc);
    'numbers: for number in 0..modifiers.len() as u8 {
        all.push(virtual_modifier_of(alloc, modifiers, stands, number)?)?;
    }
    Ok(all)
}
