//! The rows of a keymap's tables, by index.
ghost use Rattle.std.specs.Prelude.{◌≡◌, ◌≢◌, ◌<◌, MatchOption, None, Some, length, slice_get};
ghost use Rattle.kx_tables.specs.Content.{Content, counts_of};
ghost use Rattle.kx_tables.specs.Keymap.{key_with};
ghost use Rattle.kx_calls.specs.Out.{Copies, Finds};
ghost use Rattle.kx_calls.specs.RowsInC.{counts_in_c, entry_in_c, group_in_c, indicator_in_c, key_in_c, level_in_c, name_in, type_in_c};
ghost use Rattle.kx_calls.specs.declared.status.TheConstants.{EMPTY, MISSING, OK};

use kx_calls::out::copy;
use kx_calls::row::{XkcCounts, XkcEntry, XkcGroup, XkcIndicator, XkcKey, XkcLevel, XkcType};
use kx_calls::rows::{
    entry_of, group_of, index_of, indicator_of, key_of, key_type_of, keysym_of, level_of, name_of,
};
use kx_calls::status::{EMPTY, MISSING, OK};
use kx_handles::KeymapHandle;
use kx_tables::Rows;
use std::alloc::Global;

/// How many rows of each kind there are.
#[unsafe(no_mangle)]
pub extern "C" fn xkc_keymap_counts(
    alloc: Global,
    keymap: &mut KeymapHandle,
    counts: &mut XkcCounts,
) -> u32
    ensures keymap { keymap.new.value ≡ keymap.old.value }
    ensures empty { keymap.old.value ≡ None → (result ≡ EMPTY) × (counts.new ≡ counts.old) }
    ensures counts { (content : Content) → keymap.old.value ≡ Some content
        → (result ≡ OK) × (counts.new ≡ counts_in_c (counts_of content)) }
{
    let Some(tables) = keymap.take(alloc) else {
        return EMPTY;
    };
    *counts = XkcCounts::of(tables.counts());
    keymap.put(tables);
    OK
}

/// A key, by its index. Keys stand by rising codes.
#[unsafe(no_mangle)]
pub extern "C" fn xkc_keymap_key(
    alloc: Global,
    keymap: &mut KeymapHandle,
    index: u32,
    key: &mut XkcKey,
) -> u32
    ensures keymap { keymap.new.value ≡ keymap.old.value }
    ensures empty { keymap.old.value ≡ None → (result ≡ EMPTY) × (key.new ≡ key.old) }
    ensures row { (content : Content) → keymap.old.value ≡ Some content
        → Finds key_in_c (slice_get content.keys index) key.old key.new result }
{
    let Some(tables) = keymap.take(alloc) else {
        return EMPTY;
    };
    let status = key_of(&tables, index, key);
    keymap.put(tables);
    status
}

/// A key type, by its index.
#[unsafe(no_mangle)]
pub extern "C" fn xkc_keymap_type(
    alloc: Global,
    keymap: &mut KeymapHandle,
    index: u32,
    key_type: &mut XkcType,
) -> u32
    ensures keymap { keymap.new.value ≡ keymap.old.value }
    ensures empty { keymap.old.value ≡ None → (result ≡ EMPTY) × (key_type.new ≡ key_type.old) }
    ensures row { (content : Content) → keymap.old.value ≡ Some content
        → Finds type_in_c (slice_get content.types index) key_type.old key_type.new result }
{
    let Some(tables) = keymap.take(alloc) else {
        return EMPTY;
    };
    let status = key_type_of(&tables, index, key_type);
    keymap.put(tables);
    status
}

/// An entry of a key type, by its index.
#[unsafe(no_mangle)]
pub extern "C" fn xkc_keymap_entry(
    alloc: Global,
    keymap: &mut KeymapHandle,
    index: u32,
    entry: &mut XkcEntry,
) -> u32
    ensures keymap { keymap.new.value ≡ keymap.old.value }
    ensures empty { keymap.old.value ≡ None → (result ≡ EMPTY) × (entry.new ≡ entry.old) }
    ensures row { (content : Content) → keymap.old.value ≡ Some content
        → Finds entry_in_c (slice_get content.entries index) entry.old entry.new result }
{
    let Some(tables) = keymap.take(alloc) else {
        return EMPTY;
    };
    let status = entry_of(&tables, index, entry);
    keymap.put(tables);
    status
}

/// A group of a key, by its index.
#[unsafe(no_mangle)]
pub extern "C" fn xkc_keymap_group(
    alloc: Global,
    keymap: &mut KeymapHandle,
    index: u32,
    group: &mut XkcGroup,
) -> u32
    ensures keymap { keymap.new.value ≡ keymap.old.value }
    ensures empty { keymap.old.value ≡ None → (result ≡ EMPTY) × (group.new ≡ group.old) }
    ensures row { (content : Content) → keymap.old.value ≡ Some content
        → Finds group_in_c (slice_get content.groups index) group.old group.new result }
{
    let Some(tables) = keymap.take(alloc) else {
        return EMPTY;
    };
    let status = group_of(&tables, index, group);
    keymap.put(tables);
    status
}

/// A level of a group, by its index.
#[unsafe(no_mangle)]
pub extern "C" fn xkc_keymap_level(
    alloc: Global,
    keymap: &mut KeymapHandle,
    index: u32,
    level: &mut XkcLevel,
) -> u32
    ensures keymap { keymap.new.value ≡ keymap.old.value }
    ensures empty { keymap.old.value ≡ None → (result ≡ EMPTY) × (level.new ≡ level.old) }
    ensures row { (content : Content) → keymap.old.value ≡ Some content
        → Finds level_in_c (slice_get content.cells index) level.old level.new result }
{
    let Some(tables) = keymap.take(alloc) else {
        return EMPTY;
    };
    let status = level_of(&tables, index, level);
    keymap.put(tables);
    status
}

/// A keysym of a level, by its index.
#[unsafe(no_mangle)]
pub extern "C" fn xkc_keymap_keysym(
    alloc: Global,
    keymap: &mut KeymapHandle,
    index: u32,
    keysym: &mut u32,
) -> u32
    ensures keymap { keymap.new.value ≡ keymap.old.value }
    ensures empty { keymap.old.value ≡ None → (result ≡ EMPTY) × (keysym.new ≡ keysym.old) }
    ensures row { (content : Content) → keymap.old.value ≡ Some content
        → Finds (λ keysym. keysym) (slice_get content.keysyms index) keysym.old keysym.new result }
{
    let Some(tables) = keymap.take(alloc) else {
        return EMPTY;
    };
    let status = keysym_of(&tables, index, keysym);
    keymap.put(tables);
    status
}

/// An indicator, by its index.
#[unsafe(no_mangle)]
pub extern "C" fn xkc_keymap_indicator(
    alloc: Global,
    keymap: &mut KeymapHandle,
    index: u32,
    indicator: &mut XkcIndicator,
) -> u32
    ensures keymap { keymap.new.value ≡ keymap.old.value }
    ensures empty { keymap.old.value ≡ None → (result ≡ EMPTY) × (indicator.new ≡ indicator.old) }
    ensures row { (content : Content) → keymap.old.value ≡ Some content
        → Finds indicator_in_c (slice_get content.indicators index) indicator.old indicator.new
        result }
{
    let Some(tables) = keymap.take(alloc) else {
        return EMPTY;
    };
    let status = indicator_of(&tables, index, indicator);
    keymap.put(tables);
    status
}

/// The index of the key of a code.
#[unsafe(no_mangle)]
pub extern "C" fn xkc_keymap_key_of(
    alloc: Global,
    keymap: &mut KeymapHandle,
    code: u32,
    index: &mut u32,
) -> u32
    ensures keymap { keymap.new.value ≡ keymap.old.value }
    ensures empty { keymap.old.value ≡ None → (result ≡ EMPTY) × (index.new ≡ index.old) }
    ensures found { (content : Content) → keymap.old.value ≡ Some content → result ≡ OK
        → (index.new < length content.keys)
        × (key_with content code ≡ slice_get content.keys index.new) }
    ensures missing { (content : Content) → keymap.old.value ≡ Some content → result ≢ OK
        → (result ≡ MISSING) × ((index.new ≡ index.old)
        × (code < 65536 → key_with content code ≡ None)) }
{
    let Some(tables) = keymap.take(alloc) else {
        return EMPTY;
    };
    let found = index_of(&tables, code);
    keymap.put(tables);
    match found {
        None => MISSING,
        Some(found) => {
            *index = u32::from(found);
            OK
        }
    }
}

/// Copies the name of a row where there is room for it, and tells its size: of a key (kind 0), a key type (1), an
/// indicator (2) or a group (3). A group without a name has an empty one.
#[unsafe(no_mangle)]
pub extern "C" fn xkc_keymap_name(
    alloc: Global,
    keymap: &mut KeymapHandle,
    kind: u32,
    index: u32,
    out: &mut [u8],
    size: &mut usize,
) -> u32
    ensures keymap { keymap.new.value ≡ keymap.old.value }
    ensures empty { keymap.old.value ≡ None
        → (result ≡ EMPTY) × ((out.new ≡ out.old) × (size.new ≡ size.old)) }
    ensures name { (content : Content) → keymap.old.value ≡ Some content
        → MatchOption (name_in content kind index) ((result ≡ MISSING)
        × ((out.new ≡ out.old) × (size.new ≡ size.old)))
        (λ name. Copies name out.old out.new size.new result) }
{
    let Some(tables) = keymap.take(alloc) else {
        return EMPTY;
    };
    let status = match name_of(&tables, kind, index) {
        None => MISSING,
        Some(name) => copy(name, out, size),
    };
    keymap.put(tables);
    status
}
