//! The keys that give keysyms.
ghost use Rattle.std.specs.Prelude.{◌≡◌, ◌+◌, ◌^◌, ◌<◌, ◌≤◌, ◌⊎◌, Contains, IfOk, OnOk, length, true, false};
ghost use Rattle.kx_tables.specs.Sound.{Sound};
ghost use Rattle.kx_text.specs.Finding.{CellGives, Gives, IsLevelOf, LevelGives};

use kx_tables::{CellRow, GroupRow, Tables};
use std::alloc::{AllocError, Global};

/// Where one of the keysyms is given: the index of a key, and a group and a level counted from 0.
#[derive(Clone, Copy, PartialEq, Eq)]
pub struct Spot {
    pub key: u16,
    pub group: u8,
    pub level: u8,
}

/// Whether a keysym is one of those that are wanted.
fn is_among(keysyms: &[u32], keysym: u32) -> bool
    ensures yes { result ≡ true → Contains keysyms.now keysym }
    ensures no { result ≡ false → Contains keysyms.now keysym → ⊥ }
{
    keysyms.contains(&keysym)
}

/// Whether a cell gives one of the keysyms, alone or with others.
fn cell_gives<T: Tables>(tables: &T, cell: CellRow, keysyms: &[u32]) -> bool
    requires within { cell.first_keysym + cell.keysyms ≤ length (T.content tables.now).keysyms }
    requires fits { length (T.content tables.now).keysyms < 2 ^ 32 }
    ensures yes { result ≡ true → CellGives (T.content tables.now) keysyms.now cell }
    ensures no { result ≡ false → CellGives (T.content tables.now) keysyms.now cell → ⊥ }
{
    for index in 0..cell.keysyms {
        if is_among(keysyms, tables.keysym(cell.first_keysym + u32::from(index))) {
            return true;
        }
    }
    false
}

/// Whether a level of a group gives one of the keysyms, alone or with others.
fn level_gives<T: Tables>(tables: &T, group: GroupRow, level: u8, keysyms: &[u32]) -> bool
    requires sound { Sound (T.content tables.now) }
    requires within { group.first_cell + level < length (T.content tables.now).cells }
    ensures yes { result ≡ true → LevelGives (T.content tables.now) keysyms.now group level }
    ensures no { result ≡ false → LevelGives (T.content tables.now) keysyms.now group level → ⊥ }
{
    let cell = tables.cell_row(group.first_cell + u32::from(level));
    cell_gives(tables, cell, keysyms)
}

/// Adds the levels of a group that give one of the keysyms.
fn add_levels<T: Tables>(
    tables: &T,
    row: GroupRow,
    levels: u8,
    key: u16,
    group: u8,
    keysyms: &[u32],
    found: &mut Vec<Spot>,
) -> Result<(), AllocError>
    requires sound { Sound (T.content tables.now) }
    requires levels { row.first_cell + levels ≤ length (T.content tables.now).cells }
    ensures kept { OnOk result ((s : Spot) → Contains found.old.items s
        → Contains found.new.items s) }
    ensures each { OnOk result ((s : Spot) → Contains found.new.items s
        → Contains found.old.items s ⊎ IsLevelOf (T.content tables.now) keysyms.now row levels key group
        s) }
    ensures all { OnOk result ((s : Spot)
        → IsLevelOf (T.content tables.now) keysyms.now row levels key group s
        → Contains found.new.items s) }
{
    for level in 0..levels {
        if level_gives(tables, row, level, keysyms) {
            found.push(Spot { key, group, level })?;
        }
    }
    Ok(())
}

/// Adds the groups and levels of a key that give one of the keysyms.
fn add_groups<T: Tables>(
    tables: &T,
    key: u16,
    keysyms: &[u32],
    found: &mut Vec<Spot>,
) -> Result<(), AllocError>
    requires within { key < length (T.content tables.now).keys }
    ensures kept { OnOk result ((s : Spot) → Contains found.old.items s
        → Contains found.new.items s) }
    ensures each { OnOk result ((s : Spot) → Contains found.new.items s
        → Contains found.old.items s ⊎ Gives (T.content tables.now) keysyms.now s) }
    ensures all { OnOk result ((s : Spot) → s.key ≡ key → Gives (T.content tables.now) keysyms.now s
        → Contains found.new.items s) }
{
    let _sound = tables.key_count();
    let row = tables.key_row(key);
    for group in 0..row.groups {
        let at = tables.group_row(row.first_group + u32::from(group));
        let levels = tables.type_row(at.key_type).levels;
        add_levels(tables, at, levels, key, group, keysyms, found)?;
    }
    Ok(())
}

/// The keys, groups and levels that give one of the keysyms: each of them, and no other.
///
/// # Errors
/// Where a growth is refused.
pub fn spots<T: Tables>(alloc: Global, tables: &T, keysyms: &[u32]) -> Result<Vec<Spot>, AllocError>
    ensures each { IfOk result (λ found. (s : Spot) → Contains found.items s
        → Gives (T.content tables.now) keysyms.now s) }
    ensures all { IfOk result (λ found. (s : Spot) → Gives (T.content tables.now) keysyms.now s
        → Contains found.items s) }
{
    let mut found = Vec::new(alloc);
    for key in 0..tables.key_count() {
        add_groups(tables, key, keysyms, &mut found)?;
    }
    Ok(found)
}
