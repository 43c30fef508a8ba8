//! What the image of a source leaves out: aliases of keys, virtual modifiers, names of indicators, and what repeats.
ghost use Rattle.std.specs.Prelude.{◌≡◌, None, Some, slice_get, unwrap_or};
ghost use Rattle.kx_clients.specs.LeftOut.{LeftOut as LeftOutValue};
ghost use Rattle.kx_calls.specs.InC.{byte};
ghost use Rattle.kx_calls.specs.LeftInC.{CopiesFound, alias_key, alias_name, left_counts_in_c, modifier_mods, modifier_name, repeats_in_c};
ghost use Rattle.kx_calls.specs.declared.status.TheConstants.{EMPTY, OK};

use kx_calls::left::{
    XkcLeftCounts, alias_at, alias_key_at, copy_found, does_repeat, indicator_at, modifier_at,
};
use kx_calls::status::{EMPTY, OK};
use kx_sources::LeftHandle;
use std::alloc::Global;

/// How many of each there are.
#[unsafe(no_mangle)]
pub extern "C" fn xkc_left_counts_of(
    alloc: Global,
    left: &mut LeftHandle,
    counts: &mut XkcLeftCounts,
) -> u32
    ensures left { left.new.value ≡ left.old.value }
    ensures empty { left.old.value ≡ None → (result ≡ EMPTY) × (counts.new ≡ counts.old) }
    ensures counts { (out : LeftOutValue) → left.old.value ≡ Some out
        → (result ≡ OK) × (counts.new ≡ left_counts_in_c out) }
{
    let Some(held) = left.take(alloc) else {
        return EMPTY;
    };
    *counts = XkcLeftCounts::of(&held);
    left.put(held);
    OK
}

/// Whether the key of a code repeats: 1 where it does.
#[unsafe(no_mangle)]
pub extern "C" fn xkc_left_repeats(
    alloc: Global,
    left: &mut LeftHandle,
    code: u32,
    repeats: &mut u8,
) -> u32
    ensures left { left.new.value ≡ left.old.value }
    ensures empty { left.old.value ≡ None → (result ≡ EMPTY) × (repeats.new ≡ repeats.old) }
    ensures repeats { (out : LeftOutValue) → left.old.value ≡ Some out
        → (result ≡ OK) × (repeats.new ≡ byte (repeats_in_c out code)) }
{
    let Some(held) = left.take(alloc) else {
        return EMPTY;
    };
    *repeats = u8::from(does_repeat(&held, code));
    left.put(held);
    OK
}

/// Copies an alias, by its index.
#[unsafe(no_mangle)]
pub extern "C" fn xkc_left_alias(
    alloc: Global,
    left: &mut LeftHandle,
    index: u32,
    out: &mut [u8],
    size: &mut usize,
) -> u32
    ensures left { left.new.value ≡ left.old.value }
    ensures empty { left.old.value ≡ None
        → (result ≡ EMPTY) × ((out.new ≡ out.old) × (size.new ≡ size.old)) }
    ensures alias { (l : LeftOutValue) → left.old.value ≡ Some l
        → CopiesFound (alias_name l index) out.old out.new size.old size.new result }
{
    let Some(held) = left.take(alloc) else {
        return EMPTY;
    };
    let status = copy_found(alias_at(&held, index), out, size);
    left.put(held);
    status
}

/// Copies the name of the key that an alias is for, by the alias's index.
#[unsafe(no_mangle)]
pub extern "C" fn xkc_left_alias_key(
    alloc: Global,
    left: &mut LeftHandle,
    index: u32,
    out: &mut [u8],
    size: &mut usize,
) -> u32
    ensures left { left.new.value ≡ left.old.value }
    ensures empty { left.old.value ≡ None
        → (result ≡ EMPTY) × ((out.new ≡ out.old) × (size.new ≡ size.old)) }
    ensures key { (l : LeftOutValue) → left.old.value ≡ Some l
        → CopiesFound (alias_key l index) out.old out.new size.old size.new result }
{
    let Some(held) = left.take(alloc) else {
        return EMPTY;
    };
    let status = copy_found(alias_key_at(&held, index), out, size);
    left.put(held);
    status
}

/// Copies the name of a virtual modifier, by its index, and tells the real modifiers that it stands for.
#[unsafe(no_mangle)]
pub extern "C" fn xkc_left_modifier(
    alloc: Global,
    left: &mut LeftHandle,
    index: u32,
    mods: &mut u8,
    out: &mut [u8],
    size: &mut usize,
) -> u32
    ensures left { left.new.value ≡ left.old.value }
    ensures empty { left.old.value ≡ None → (result ≡ EMPTY)
        × ((mods.new ≡ mods.old) × ((out.new ≡ out.old) × (size.new ≡ size.old))) }
    ensures name { (l : LeftOutValue) → left.old.value ≡ Some l
        → CopiesFound (modifier_name l index) out.old out.new size.old size.new result }
    ensures mods { (l : LeftOutValue) → left.old.value ≡ Some l
        → mods.new ≡ unwrap_or (modifier_mods l index) mods.old }
{
    let Some(held) = left.take(alloc) else {
        return EMPTY;
    };
    if let Some(modifier) = held.modifiers().get(index as usize) {
        *mods = modifier.mods.mask();
    }
    let status = copy_found(modifier_at(&held, index), out, size);
    left.put(held);
    status
}

/// Copies the name that keycodes give an indicator, by its index; it may have no bytes.
#[unsafe(no_mangle)]
pub extern "C" fn xkc_left_indicator(
    alloc: Global,
    left: &mut LeftHandle,
    index: u32,
    out: &mut [u8],
    size: &mut usize,
) -> u32
    ensures left { left.new.value ≡ left.old.value }
    ensures empty { left.old.value ≡ None
        → (result ≡ EMPTY) × ((out.new ≡ out.old) × (size.new ≡ size.old)) }
    ensures name { (l : LeftOutValue) → left.old.value ≡ Some l
        → CopiesFound (slice_get l.indicators index) out.old out.new size.old size.new result }
{
    let Some(held) = left.take(alloc) else {
        return EMPTY;
    };
    let status = copy_found(indicator_at(&held, index), out, size);
    left.put(held);
    status
}

/// Lets go of what the handle has.
#[unsafe(no_mangle)]
pub extern "C" fn xkc_left_end(alloc: Global, left: &mut LeftHandle)
    ensures { left.new.value ≡ None }
{
    left.end(alloc);
}
