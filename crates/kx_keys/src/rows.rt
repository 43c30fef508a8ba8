//! The rows of a key type.
ghost use Rattle.std.specs.Prelude.{◌≡◌, ◌++◌, ◌∷◌, [], ℕ, ◌==◌, ◌<◌, ◌^◌, Bool, IfOk, List, OnOk};
ghost use Rattle.std.specs.List.{list_any};
ghost use Rattle.kx_virtual_mods.specs.Sets.{has};
ghost use Rattle.kx_mods.specs.Mods.{mask};
ghost use Rattle.kx_tables.specs.declared.rows.EntryRow.{EntryRow as RowValue};
ghost use Rattle.kx_keys.specs.Rows.{RowsAreValid, RowsShow, entry_rows, mods_of, with_entry};
ghost use Rattle.kx_keys.specs.Selecting.{is_live};
ghost use Rattle.kx_keys.specs.Standing.{real_by};

use kx_mods::Mods;
use kx_tables::EntryRow;
use kx_types::{KeyType, TypeEntry};
use kx_virtual_mods::{NameSet, real_of};
use std::alloc::{AllocError, Global};

/// A key type as its rows show it.
#[derive(Drop)]
pub struct TypeRows {
    /// The real modifiers that select a level.
    pub mods: Mods,
    /// Its live entries in order, without later ones of equal modifiers.
    pub entries: Vec<EntryRow>,
}

/// Whether an entry counts: its mask is empty, or stands for some modifiers.
#[tactic(auto, using(crate::proofs::Bits::some_bits))]
fn is_live(names: NameSet, mods: Mods) -> bool
    requires { mask mods < 2 ^ 8 }
    ensures { (real : ℕ → ℕ → Bool) → ((r : ℕ) → has (mask mods) r ≡ real names r)
        → result ≡ is_live real names }
{
    names.is_none() || !mods.is_none()
}

fn has_row(rows: &[EntryRow], mods: Mods) -> bool
    ensures { result ≡ list_any (λ (row : RowValue). mask row.mods == mask mods) rows.now }
{
    rows.iter().any(|row| row.mods == mods)
}

/// The real modifiers that a set stands for.
#[tactic(auto, using(crate::proofs::Bits::mods_is))]
fn real_mods(set: NameSet, stands: &[Mods]) -> Mods
    ensures value { result ≡ mods_of (real_by stands.now set) }
    ensures bits { (r : ℕ) → has (mask result) r ≡ real_by stands.now set r }
    ensures fits { mask result < 2 ^ 8 }
{
    real_of(set, stands)
}

/// Adds an entry after others.
fn add_row(rows: &mut Vec<EntryRow>, entry: TypeEntry, stands: &[Mods]) -> Result<(), AllocError>
    ensures { OnOk result (rows.new.items ≡ with_entry (real_by stands.now) rows.old.items entry) }
{
    let mods = real_mods(entry.mask, stands);
    if !is_live(entry.mask, mods) {
        return Ok(());
    }
    if has_row(rows.as_slice(), mods) {
        return Ok(());
    }
    rows.push(EntryRow {
        mods,
        level: entry.level,
        preserve: real_mods(entry.preserve, stands),
    })?;
    Ok(())
}

/// The rows of a type's entries.
fn entry_rows(
    alloc: Global,
    entries: &[TypeEntry],
    stands: &[Mods],
) -> Result<Vec<EntryRow>, AllocError>
    ensures { IfOk result (λ rows. rows.items ≡ entry_rows (real_by stands.now) entries.now) }
{
    let mut rows = Vec::new(alloc);
    'entries: for entry in entries {
        add_row(&mut rows, *entry, stands)?;
    }
    Ok(rows)
}

impl TypeRows {
    /// The rows of a key type, where `stands` is what each virtual modifier stands for, by its number: the level and the
    /// consumed modifiers that they give for any set of real modifiers are the type's.
    ///
    /// # Errors
    /// Where a growth is refused.
    pub fn of(alloc: Global, key_type: &KeyType, stands: &[Mods]) -> Result<TypeRows, AllocError>
        ensures mods { IfOk result (λ rows.
            rows.mods ≡ mods_of (real_by stands.now key_type.now.modifiers)) }
        ensures entries { IfOk result (λ rows.
            rows.entries.items ≡ entry_rows (real_by stands.now)
            key_type.now.entries) }
        ensures shows { IfOk result (λ rows.
            RowsShow (real_by stands.now) key_type.now rows.mods
            rows.entries.items) }
        ensures valid { IfOk result (λ rows.
            RowsAreValid key_type.now rows.mods rows.entries.items) }
    {
        let entries = entry_rows(alloc, key_type.entries(), stands)?;
        let mods = real_mods(key_type.modifiers(), stands);
        Ok(TypeRows { mods, entries })
    }
}
