//! Entries of key types.
ghost use Rattle.std.specs.Prelude.{◌≡◌, ◌≤◌, ◌<◌, ◌+◌, ◌^◌, ◌↔◌, ℕ, IsTrue, OnOk, IfErr, Some, length, slice_get};
ghost use Rattle.kx_tables.specs.Broken.{Breaks};
ghost use Rattle.kx_tables.specs.SoFar.{EntryNumbers, EntriesBegin, EntriesLie};
ghost use Rattle.kx_tables.specs.Sound.{EachRow, EntriesHold};

use super::{Broken, RecordKind};
use crate::rows::{EntryRow, TypeRow};
use crate::tables::Rows;

/// Whether an entry's numbers fit its type.
fn is_numbered(row: EntryRow, key_type: TypeRow) -> bool
    ensures { IsTrue result ↔ EntryNumbers row key_type }
{
    row.mods.meet(key_type.mods).mask() == row.mods.mask()
        && row.preserve.meet(row.mods).mask() == row.preserve.mask()
        && 1 <= row.level
        && row.level <= key_type.levels
}

/// Checks the entries of the type at an index.
fn check_entries_of<R: Rows>(rows: &R, index: u16, key_type: TypeRow) -> Result<(), Broken>
    requires row { slice_get (R.content rows.now).types index ≡ Some key_type }
    requires within { EntriesLie (R.content rows.now) index key_type }
    requires begin { EntriesBegin (R.content rows.now) index key_type }
    ensures ok { OnOk result (EntriesHold (R.content rows.now) index key_type) }
    ensures broken { IfErr result (λ b. Breaks (R.content rows.now) b.part b.index) }
{
    // All entries are counted in 32 bits, and so are this type's.
    let _counts = rows.counts();
    let mut seen = [false; 256];
    for place in key_type.first_entry..key_type.first_entry + u32::from(key_type.entries) {
        let entry = rows.entry_row(place);
        let mods = usize::from(entry.mods.mask());
        if !is_numbered(entry, key_type) || seen[mods] {
            return Err(Broken {
                part: RecordKind::Entry,
                index: place,
            });
        }
        seen[mods] = true;
    }
    Ok(())
}

/// Checks the entries of all types.
pub fn check_entries<R: Rows>(rows: &R) -> Result<(), Broken>
    requires within { EachRow (R.content rows.now).types (EntriesLie (R.content rows.now)) }
    requires begin { EachRow (R.content rows.now).types (EntriesBegin (R.content rows.now)) }
    ensures ok { OnOk result (EachRow (R.content rows.now).types
        (EntriesHold (R.content rows.now))) }
    ensures broken { IfErr result (λ b. Breaks (R.content rows.now) b.part b.index) }
{
    for index in 0..rows.counts().types {
        let row = rows.type_row(index);
        check_entries_of(rows, index, row)?;
    }
    Ok(())
}
