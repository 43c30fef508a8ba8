//! What virtual modifiers stand for.
ghost use Rattle.std.specs.Prelude.{◌≡◌, ◌<◌, ◌&&◌, ◌||◌, ℕ, IfErr, IfOk, OnOk, slice_get};
ghost use Rattle.std.specs.Option.{option_map_or};
ghost use Rattle.kx_keys.specs.InterpretedKey.{brings_by};
ghost use Rattle.kx_resolve.specs.MappedKeys.{BringsMore, is_brought};
ghost use Rattle.kx_resolve.specs.Read.{brings_at, brings_of, keymap_read};
ghost use Rattle.kx_keys.specs.Vmodmap.{stands};
ghost use Rattle.kx_lex.specs.declared.fault.Fault.TheVariants.{Memory};
ghost use Rattle.kx_virtual_mods.specs.Sets.{any_below, has, has_virtual};
ghost use Rattle.kx_virtual_mods.specs.Standing.{stands_for};
ghost use Rattle.kx_mods.specs.Mods.{mask};
ghost use Rattle.kx_keys.specs.Typing.{typing_of};
ghost use Rattle.kx_basics.specs.declared.limits.TheConstants.{CODES};

use crate::read::InterpretedKeys;
use kx_keys::interpreted_key::InterpretedKey;
use kx_keys::typing::Typing;
use kx_lex::Fault;
use kx_mods::Mods;
use kx_symbols::KeyRecord;
use kx_virtual_mods::{MOST_VIRTUAL_MODIFIERS, NameSet};
use std::alloc::Global;

/// A key that is mapped to modifiers.
#[derive(Clone, Copy)]
struct MappedKey {
    /// The modifiers that it is mapped to.
    mods: Mods,
    /// The virtual modifiers that it bears.
    vmodmap: NameSet,
}

// ---- The bearers

/// Adds a key.
fn push_mapped_key(
    mapped_keys: &mut Vec<MappedKey>,
    typing: Typing,
    key: &InterpretedKey,
) -> Result<(), Fault>
    ensures added { OnOk result (BringsMore (brings_by key.now (typing_of typing.entry))
        mapped_keys.old.items mapped_keys.new.items) }
    ensures err { IfErr result (λ e. e ≡ Memory) }
{
    mapped_keys.push(MappedKey {
        mods: key.modmap(),
        vmodmap: key.vmodmap(typing),
    })?;
    Ok(())
}

/// Adds the key of a code, where it is mapped to modifiers.
fn add_key(
    mapped_keys: &mut Vec<MappedKey>,
    keys: InterpretedKeys,
    key: &KeyRecord,
    code: u16,
) -> Result<(), Fault>
    ensures added { OnOk result (BringsMore (brings_of keys.entry key.now code)
        mapped_keys.old.items mapped_keys.new.items) }
    ensures err { IfErr result (λ e. e ≡ Memory) }
{
    let modmap = keys.modmaps.key(code);
    if modmap.is_none() {
        return Ok(());
    }
    let key = InterpretedKey::of(key, modmap, keys.interpretations, &[]);
    push_mapped_key(mapped_keys, keys.named.typing, &key)?;
    Ok(())
}

/// Adds the key of a code, where the code has a name.
fn add_code(mapped_keys: &mut Vec<MappedKey>, keys: InterpretedKeys, code: u16) -> Result<(), Fault>
    ensures added { OnOk result (BringsMore (brings_at keys.entry code) mapped_keys.old.items
        mapped_keys.new.items) }
    ensures err { IfErr result (λ e. e ≡ Memory) }
{
    match keys.named.key(code) {
        Some(key) => {
            add_key(mapped_keys, keys, key, code)?;
            Ok(())
        }
        None => Ok(()),
    }
}

/// The keys that are mapped to modifiers.
fn mapped_keys_of(alloc: Global, keys: InterpretedKeys) -> Result<Vec<MappedKey>, Fault>
    ensures all { IfOk result (λ mapped_keys. (number real : ℕ)
        → is_brought mapped_keys.items number real
        ≡ any_below CODES (λ code. brings_at keys.entry code number real)) }
    ensures err { IfErr result (λ e. e ≡ Memory) }
{
    let mut mapped_keys = Vec::new(alloc);
    'codes: for code in 0..keys.named.codes.end() {
        add_code(&mut mapped_keys, keys, code)?;
    }
    Ok(mapped_keys)
}

// ---- What they make of the declared masks

/// What a key is mapped to, where it bears a virtual modifier.
fn brought_by(mapped_key: MappedKey, number: u8) -> Mods
    requires { number < MOST_VIRTUAL_MODIFIERS }
    ensures { (real : ℕ) → has (mask result) real
        ≡ (has_virtual mapped_key.vmodmap number && has (mask mapped_key.mods) real) }
{
    if mapped_key.vmodmap.has_virtual(number) {
        mapped_key.mods
    } else {
        Mods::NONE
    }
}

/// What a virtual modifier stands for that is declared with a mask.
fn standing(mapped_keys: &[MappedKey], declared: Mods, number: u8) -> Mods
    requires { number < MOST_VIRTUAL_MODIFIERS }
    ensures { (real : ℕ) → has (mask result) real
        ≡ (has (mask declared) real || is_brought mapped_keys.now number real) }
{
    let mut mods = declared;
    'mapped_keys: for mapped_key in mapped_keys {
        mods = mods.with(brought_by(*mapped_key, number));
    }
    mods
}

/// The mask that a virtual modifier is declared with; past the list's end there is none.
fn declared_at(declared: &[Mods], number: u8) -> Mods
    ensures { mask result ≡ option_map_or mask (slice_get declared.now number) 0 }
{
    match declared.get(usize::from(number)) {
        Some(mods) => *mods,
        None => Mods::NONE,
    }
}

/// What virtual modifiers stand for that are declared with these masks.
fn stands_of(
    alloc: Global,
    mapped_keys: &[MappedKey],
    declared: &[Mods],
) -> Result<Vec<Mods>, Fault>
    ensures made { IfOk result (λ made. (number real : ℕ) → number < MOST_VIRTUAL_MODIFIERS
        → stands_for made.items number real
        ≡ (stands_for declared.now number real || is_brought mapped_keys.now number real)) }
    ensures err { IfErr result (λ e. e ≡ Memory) }
{
    let mut stands = Vec::new(alloc);
    'numbers: for number in 0..MOST_VIRTUAL_MODIFIERS {
        stands.push(standing(mapped_keys, declared_at(declared, number), number))?;
    }
    Ok(stands)
}

/// What each virtual modifier stands for, by its number: the mask that it is declared with, and what the keys are mapped to
/// that bear it.
///
/// # Errors
/// `Memory`.
pub fn virtual_modifier_masks(
    alloc: Global,
    keys: InterpretedKeys,
    declared: &[Mods],
) -> Result<Vec<Mods>, Fault>
    ensures stands { IfOk result (λ made. (number real : ℕ) → number < MOST_VIRTUAL_MODIFIERS
        → stands_for made.items number real
        ≡ stands (keymap_read keys.entry declared.now) number real) }
    ensures err { IfErr result (λ e. e ≡ Memory) }
{
    let mapped_keys = mapped_keys_of(alloc, keys)?;
    let stands = stands_of(alloc, mapped_keys.as_slice(), declared)?;
    Ok(stands)
}
