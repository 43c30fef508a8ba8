//! The rows of a keymap's tables, by index.
ghost use Rattle.std.specs.Prelude.{◌≡◌, ◌<◌, IfSome, None, Some, length, slice_get};
ghost use Rattle.std.specs.Option.{option_map};
ghost use Rattle.kx_tables.specs.Keymap.{key_with};
ghost use Rattle.kx_calls.specs.Out.{Finds};
ghost use Rattle.kx_calls.specs.RowsInC.{entry_in_c, group_in_c, indicator_in_c, key_in_c, level_in_c, name_in, type_in_c};
ghost use Rattle.kx_calls.specs.declared.status.TheConstants.{MISSING, OK};

use crate::row::{XkcEntry, XkcGroup, XkcIndicator, XkcKey, XkcLevel, XkcType};
use crate::status::{MISSING, OK};
use kx_handles::SharedTables;
use kx_tables::{Rows, Tables};

/// Sets a key to the one of an index.
pub fn key_of(tables: &SharedTables, index: u32, key: &mut XkcKey) -> u32
    ensures { Finds key_in_c (slice_get tables.now.keys index) key.old key.new result }
{
    if index >= u32::from(tables.counts().keys) {
        return MISSING;
    }
    *key = XkcKey::of(tables.key_row(index as u16));
    OK
}

/// Sets a key type to the one of an index.
pub fn key_type_of(tables: &SharedTables, index: u32, key_type: &mut XkcType) -> u32
    ensures { Finds type_in_c (slice_get tables.now.types index) key_type.old key_type.new result }
{
    if index >= u32::from(tables.counts().types) {
        return MISSING;
    }
    *key_type = XkcType::of(tables.type_row(index as u16));
    OK
}

/// Sets an entry to the one of an index.
pub fn entry_of(tables: &SharedTables, index: u32, entry: &mut XkcEntry) -> u32
    ensures { Finds entry_in_c (slice_get tables.now.entries index) entry.old entry.new result }
{
    if index >= tables.counts().entries {
        return MISSING;
    }
    *entry = XkcEntry::of(tables.entry_row(index));
    OK
}

/// Sets a group to the one of an index.
pub fn group_of(tables: &SharedTables, index: u32, group: &mut XkcGroup) -> u32
    ensures { Finds group_in_c (slice_get tables.now.groups index) group.old group.new result }
{
    if index >= tables.counts().groups {
        return MISSING;
    }
    *group = XkcGroup::of(tables.group_row(index));
    OK
}

/// Sets a level to the one of an index.
pub fn level_of(tables: &SharedTables, index: u32, level: &mut XkcLevel) -> u32
    ensures { Finds level_in_c (slice_get tables.now.cells index) level.old level.new result }
{
    if index >= tables.counts().cells {
        return MISSING;
    }
    *level = XkcLevel::of(tables.cell_row(index));
    OK
}

/// Sets a keysym to the one of an index.
pub fn keysym_of(tables: &SharedTables, index: u32, keysym: &mut u32) -> u32
    ensures { Finds (λ keysym. keysym) (slice_get tables.now.keysyms index) keysym.old keysym.new
        result }
{
    if index >= tables.counts().keysyms {
        return MISSING;
    }
    *keysym = tables.keysym(index);
    OK
}

/// Sets an indicator to the one of an index.
pub fn indicator_of(tables: &SharedTables, index: u32, indicator: &mut XkcIndicator) -> u32
    ensures { Finds indicator_in_c (slice_get tables.now.indicators index) indicator.old
        indicator.new result }
{
    if index >= u32::from(tables.counts().indicators) {
        return MISSING;
    }
    *indicator = XkcIndicator::of(tables.indicator_row(index as u16));
    OK
}

/// The index of the key of a code.
pub fn index_of(tables: &SharedTables, code: u32) -> Option<u16>
    ensures found { IfSome result (λ index. (index < length tables.now.keys)
        × (key_with tables.now code ≡ slice_get tables.now.keys index)) }
    ensures missing { result ≡ None → code < 65536 → key_with tables.now code ≡ None }
{
    if code > 0xffff {
        return None;
    }
    tables.key_of(code as u16)
}

/// The name of a row: of a key (kind 0), a key type (1), an indicator (2) or a group (3).
pub fn name_of(tables: &SharedTables, kind: u32, index: u32) -> Option<&[u8]>
    ensures { option_map (λ name. name.now) result ≡ name_in tables.now kind index }
{
    let counts = tables.counts();
    match kind {
        0 if index < u32::from(counts.keys) => Some(tables.key_name(index as u16)),
        1 if index < u32::from(counts.types) => Some(tables.type_name(index as u16)),
        2 if index < u32::from(counts.indicators) => Some(tables.indicator_name(index as u16)),
        3 if index < u32::from(counts.group_names) => Some(tables.group_name(index as u16)),
        _ => None,
    }
}
