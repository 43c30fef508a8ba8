//! Rows and their places, as they are built.
ghost use Rattle.std.specs.Prelude.{◌≡◌, ◌+◌, ◌<◌, ◌≤◌, ◌^◌, [], IfOk, IfErr, OnOk, OnErr, length};
ghost use Rattle.kx_builder.specs.Added.{TypeFits, KeyFits, CellFits, next_type, next_key, next_cell, with_type_row, with_key_row, with_group_row, with_cell_row, last_count};
ghost use Rattle.kx_builder.specs.Faults.{IsCause};
ghost use Rattle.kx_builder.specs.declared.fault.BuildFault.TheVariants.{Memory, TooMany};
ghost use Rattle.kx_tables.specs.RawTables.{content_of};

use crate::fault::BuildFault;
use kx_mods::Mods;
use kx_tables::{Action, CellRow, EntryRow, GroupRow, KeyRow, Range, RawTables, TypeRow};
use std::alloc::Global;

/// A place in a table, as a row holds it.
pub(crate) fn place(index: usize) -> Result<u32, BuildFault>
    ensures value { IfOk result (λ n. n ≡ index) }
    ensures fault { IfErr result (λ e. (e ≡ TooMany) × (2 ^ 32 ≤ index)) }
{
    u32::try_from(index).map_err(|_| BuildFault::TooMany)
}

/// How many entries a type has, or a name bytes.
pub(crate) fn count(number: usize) -> Result<u16, BuildFault>
    ensures value { IfOk result (λ n. n ≡ number) }
    ensures fault { IfErr result (λ e. (e ≡ TooMany) × (2 ^ 16 ≤ number)) }
{
    u16::try_from(number).map_err(|_| BuildFault::TooMany)
}

/// How many keysyms a cell has.
pub(crate) fn small_count(number: usize) -> Result<u8, BuildFault>
    ensures value { IfOk result (λ n. n ≡ number) }
    ensures fault { IfErr result (λ e. (e ≡ TooMany) × (2 ^ 8 ≤ number)) }
{
    u8::try_from(number).map_err(|_| BuildFault::TooMany)
}

/// Tables with no rows.
pub(crate) fn no_tables(alloc: Global) -> RawTables
    ensures { content_of result ≡ record {
      types = [];
      entries = [];
      keys = [];
      groups = [];
      cells = [];
      keysyms = [];
      indicators = [];
      group_names = [];
      names = [];
    } }
{
    RawTables {
        types: Vec::new(alloc),
        entries: Vec::new(alloc),
        keys: Vec::new(alloc),
        groups: Vec::new(alloc),
        cells: Vec::new(alloc),
        keysyms: Vec::new(alloc),
        indicators: Vec::new(alloc),
        group_names: Vec::new(alloc),
        names: Vec::new(alloc),
    }
}

/// The row of a type after all others.
pub(crate) fn next_type(
    parts: &RawTables,
    name: &[u8],
    mods: Mods,
    levels: u8,
    entries: &[EntryRow],
) -> Result<TypeRow, BuildFault>
    ensures value { IfOk result (λ row.
        row ≡ next_type (content_of parts.now)
        (record { name = name.now; mods = mods; levels = levels; entries = entries.now })) }
    ensures fault { IfErr result (λ e. (e ≡ TooMany)
        × (TypeFits (content_of parts.now)
        (record { name = name.now; mods = mods; levels = levels; entries = entries.now }) → ⊥)) }
{
    let row = TypeRow {
        mods,
        levels,
        entries: count(entries.len())?,
        name_length: count(name.len())?,
        first_entry: place(parts.entries.len())?,
        first_name: place(parts.names.len())?,
    };
    Ok(row)
}

/// The row of a key after all others, without groups.
pub(crate) fn next_key(
    parts: &RawTables,
    code: u16,
    name: &[u8],
    modmap: Mods,
    range: Range,
) -> Result<KeyRow, BuildFault>
    ensures value { IfOk result (λ row.
        row ≡ next_key (content_of parts.now)
        (record { code = code; name = name.now; modmap = modmap; range = range; groups = [] })) }
    ensures fault { IfErr result (λ e. (e ≡ TooMany)
        × (KeyFits (content_of parts.now)
        (record { code = code; name = name.now; modmap = modmap; range = range; groups = [] })
        → ⊥)) }
{
    let row = KeyRow {
        code,
        modmap,
        range,
        groups: 0,
        name_length: count(name.len())?,
        first_name: place(parts.names.len())?,
        first_group: place(parts.groups.len())?,
    };
    Ok(row)
}

/// The row of a cell after all others.
pub(crate) fn next_cell(
    parts: &RawTables,
    keysyms: &[u32],
    action: Action,
) -> Result<CellRow, BuildFault>
    ensures value { IfOk result (λ row.
        row ≡ next_cell (content_of parts.now) (record { syms = keysyms.now; action = action })) }
    ensures fault { IfErr result (λ e. (e ≡ TooMany)
        × (CellFits (content_of parts.now) (record { syms = keysyms.now; action = action }) → ⊥)) }
{
    let row = CellRow {
        keysyms: small_count(keysyms.len())?,
        action,
        first_keysym: place(parts.keysyms.len())?,
    };
    Ok(row)
}

/// Appends a type's row, its entries and its name.
pub(crate) fn add_type(
    parts: &mut RawTables,
    row: TypeRow,
    name: &[u8],
    entries: &[EntryRow],
) -> Result<(), BuildFault>
    ensures added { OnOk result (content_of parts.new
        ≡ with_type_row (content_of parts.old) row entries.now name.now) }
    ensures fault { IfErr result (λ e. e ≡ Memory) }
    ensures unchanged { OnErr result (content_of parts.new ≡ content_of parts.old) }
{
    parts.entries.reserve(entries.len())?;
    parts.names.reserve(name.len())?;
    parts.types.push(row)?;
    parts.entries.extend_from_slice(entries).unwrap();
    parts.names.extend_from_slice(name).unwrap();
    Ok(())
}

/// Appends a key's row and its name.
pub(crate) fn add_key(parts: &mut RawTables, row: KeyRow, name: &[u8]) -> Result<(), BuildFault>
    ensures added { OnOk result (content_of parts.new
        ≡ with_key_row (content_of parts.old) row name.now) }
    ensures fault { IfErr result (λ e. e ≡ Memory) }
    ensures unchanged { OnErr result (content_of parts.new ≡ content_of parts.old) }
{
    parts.names.reserve(name.len())?;
    parts.keys.push(row)?;
    parts.names.extend_from_slice(name).unwrap();
    Ok(())
}

/// One more group of a key.
fn one_more(groups: u8) -> Result<u8, BuildFault>
    ensures value { IfOk result (λ n. n ≡ groups + 1) }
    ensures fault { IfErr result (λ e. (e ≡ TooMany) × (groups + 1 < 2 ^ 8 → ⊥)) }
{
    groups.checked_add(1).ok_or(BuildFault::TooMany)
}

/// How many groups the last key has, 0 where there is no key.
pub(crate) fn last_count(parts: &RawTables) -> u8
    ensures { result ≡ last_count (content_of parts.now).keys }
{
    match parts.keys.last() {
        Some(key) => key.groups,
        None => 0,
    }
}

/// Appends a group's row, which is one more of the last key.
pub(crate) fn add_group(parts: &mut RawTables, row: GroupRow) -> Result<(), BuildFault>
    ensures some_key { OnOk result (0 < length (content_of parts.old).keys) }
    ensures added { OnOk result (content_of parts.new ≡ with_group_row (content_of parts.old) row) }
    ensures fault { IfErr result (λ e.
        IsCause e (last_count (content_of parts.old).keys + 1 < 2 ^ 8)
        (0 < length (content_of parts.old).keys)) }
    ensures unchanged { OnErr result (content_of parts.new ≡ content_of parts.old) }
{
    let last = parts
        .keys
        .len()
        .checked_sub(1)
        .ok_or(BuildFault::Misplaced)?;
    let groups = one_more(last_count(parts))?;
    parts.groups.push(row)?;
    parts.keys[last].groups = groups;
    Ok(())
}

/// Appends a cell's row and its keysyms.
pub(crate) fn add_cell(
    parts: &mut RawTables,
    row: CellRow,
    keysyms: &[u32],
) -> Result<(), BuildFault>
    ensures added { OnOk result (content_of parts.new
        ≡ with_cell_row (content_of parts.old) row keysyms.now) }
    ensures fault { IfErr result (λ e. e ≡ Memory) }
    ensures unchanged { OnErr result (content_of parts.new ≡ content_of parts.old) }
{
    parts.keysyms.reserve(keysyms.len())?;
    parts.cells.push(row)?;
    parts.keysyms.extend_from_slice(keysyms).unwrap();
    Ok(())
}
