//! Lines on the keys that give keysyms, and on what is held for them.
use crate::holding::Holders;
use crate::levels::{entry_at, group_at};
use crate::listing::as_text;
use ks_core::NameTable;
use kx_mods::Mods;
use kx_tables::{Rows, Tables, TypeRow};
use kx_text::{Spot, spots};
use std::alloc::{AllocError, Global};

/// The level that each set of modifiers chooses, by its mask, counted from 0.
fn levels_of<R: Rows>(rows: &R, key_type: TypeRow) -> [u8; 256] {
    let mut levels = [0; 256];
    for index in (0..key_type.entries).rev() {
        if let Some(entry) = entry_at(rows, key_type, index) {
            levels[usize::from(entry.mods.mask())] = entry.level.saturating_sub(1);
        }
    }
    levels
}

/// The least sets of a type's modifiers that choose a level: none of them holds another.
fn holds<R: Rows>(
    alloc: Global,
    rows: &R,
    key_type: TypeRow,
    level: u8,
) -> Result<Vec<Mods>, AllocError> {
    let levels = levels_of(rows, key_type);
    let mut least: Vec<Mods> = Vec::new(alloc);
    for mask in 0..=u8::MAX {
        let mods = Mods::from_mask(mask);
        if mods.meet(key_type.mods) == mods
            && levels[usize::from(mask)] == level
            && !least.iter().any(|other| other.meet(mods) == *other)
        {
            least.push(mods)?;
        }
    }
    Ok(least)
}

/// Adds the names of modifiers, joined by `+`.
fn write_mods(out: &mut String, mods: Mods) -> Result<(), AllocError> {
    if mods.is_none() {
        return out.push_str("none");
    }
    let mut is_first = true;
    for bit in 0..8 {
        if (mods.mask() >> bit) & 1 == 1 {
            if !is_first {
                out.push('+')?;
            }
            out.push_str(Mods::name_of(bit))?;
            is_first = false;
        }
    }
    Ok(())
}

/// Adds sets of modifiers, joined by commas, or `-` where there is none.
fn write_holds(out: &mut String, sets: &[Mods]) -> Result<(), AllocError> {
    if sets.is_empty() {
        return out.push('-');
    }
    let mut is_first = true;
    for mods in sets {
        if !is_first {
            out.push(',')?;
        }
        write_mods(out, *mods)?;
        is_first = false;
    }
    Ok(())
}

/// What is written of places.
#[derive(Drop)]
struct Writer<'a, T: Tables> {
    alloc: Global,
    tables: &'a T,
    names: &'a NameTable,
    /// By group, the keys that give modifiers.
    holders: Vec<Holders<'a>>,
}

impl<T: Tables> Writer<'_, T> {
    /// Adds the keys to hold for sets of modifiers of a type, where one is to be held; `-` where no keys give one.
    fn write_keys(
        &self,
        out: &mut String,
        sets: &[Mods],
        looked_at: Mods,
        group: u8,
    ) -> Result<(), AllocError> {
        let Some(holders) = self.holders.get(usize::from(group)) else {
            return Ok(());
        };
        if sets.iter().any(|set| set.is_none()) {
            return Ok(());
        }
        let mut before = " keys=";
        for set in sets {
            let mut keys = String::new(self.alloc);
            if holders.write_set(&mut keys, self.names, *set, looked_at)? {
                out.push_str(before)?;
                out.push_str(keys.as_str())?;
                before = " or ";
            }
        }
        match before {
            " keys=" if !sets.is_empty() => out.push_str(" keys=-"),
            _ => Ok(()),
        }
    }

    /// Adds the line of a place.
    fn write_place(&self, out: &mut String, spot: Spot) -> Result<(), AllocError> {
        if spot.key >= self.tables.key_count() {
            return Ok(());
        }
        let row = self.tables.key_row(spot.key);
        let name = as_text(self.tables.key_name(spot.key));
        let code = row.code;
        let group = spot.group.saturating_add(1);
        let level = spot.level.saturating_add(1);
        write!(out, "{name} code={code} group={group} level={level} hold=")?;
        if let Some(group) = group_at(self.tables, row, spot.group) {
            let key_type = group.key_type;
            let sets = holds(self.alloc, self.tables, key_type, spot.level)?;
            write_holds(out, sets.as_slice())?;
            self.write_keys(out, sets.as_slice(), key_type.mods, spot.group)?;
        }
        out.push('\n')
    }
}

/// Adds a line for each key, group and level that gives one of the keysyms: the key's name and code, the group and the level
/// from 1, the modifiers to hold, where more than one set of them chooses the level joined by commas, and the keys that give
/// them.
///
/// # Errors
/// Where a growth is refused.
pub fn write_places<T: Tables>(
    alloc: Global,
    tables: &T,
    names: &NameTable,
    keysyms: &[u32],
    out: &mut String,
) -> Result<(), AllocError> {
    let found = spots(alloc, tables, keysyms)?;
    let mut holders = Vec::new(alloc);
    for group in 0..tables.greatest_groups() {
        holders.push(Holders::of(alloc, tables, group)?)?;
    }
    let writer = Writer {
        alloc,
        tables,
        names,
        holders,
    };
    for spot in found.as_slice() {
        writer.write_place(out, *spot)?;
    }
    Ok(())
}
